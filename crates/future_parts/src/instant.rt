//! The futures without a part: one that is ready at once, one that never is, and one that lets other tasks run.
ghost use Rattle.std.specs.Prelude.{◌≡◌, None, true, false};
ghost use Rattle.future_parts.specs.Instant.{poll_of, WokeAndWaits};
ghost use Rattle.task_core.specs.declared.traits.Poll.TheVariants.{Pending as Waits, Ready as Ends};

use std::marker::PhantomData;
use task_core::{Future, Poll, Wake, Yields};

/// The future of `ready`.
#[derive(Drop)]
pub struct Ready<T: Drop> {
    pub(crate) value: Option<T>,
}

impl<T: Drop> Yields for Ready<T> {
    type Output = T;
}

impl<W, T: Drop> Future<W> for Ready<T> {
    // The poll answers the value, which is gone then.
    ghost polled = { λ old _ answer new. (answer ≡ poll_of old.value) × (new.value ≡ None) };

    fn poll(&mut self, _waker: &W) -> Poll<T> {
        match self.value.take() {
            Some(value) => Poll::Ready(value),
            None => Poll::Pending,
        }
    }
}

/// The future of `pending`.
#[derive(Drop)]
pub struct Pending<T: Drop> {
    pub(crate) output: PhantomData<T>,
}

impl<T: Drop> Yields for Pending<T> {
    type Output = T;
}

impl<W, T: Drop> Future<W> for Pending<T> {
    ghost polled = { λ _ _ answer _. answer ≡ Waits };

    fn poll(&mut self, _waker: &W) -> Poll<T> {
        Poll::Pending
    }
}

/// A future whose first poll wakes the waker that it is lent, and is pending; the next one is ready. So a task goes behind those that its executor runs first.
pub fn yield_now() -> YieldNow
    ensures { result.yielded ≡ false }
{
    YieldNow { yielded: false }
}

/// The future of `yield_now`.
#[derive(Drop)]
pub struct YieldNow {
    yielded: bool,
}

impl Yields for YieldNow {
    type Output = ();
}

impl<W: Wake> Future<W> for YieldNow {
    ghost polled = { λ old waker answer new. (new.yielded ≡ true) × (old.yielded ≡ false → WokeAndWaits ((ended : W.Record) × W.woken_by_ref waker ended) answer) × (old.yielded ≡ true → answer ≡ Ends tt) };

    fn poll(&mut self, waker: &W) -> Poll<()> {
        if self.yielded {
            return Poll::Ready(());
        }
        self.yielded = true;
        waker.wake_by_ref();
        Poll::Pending
    }
}
