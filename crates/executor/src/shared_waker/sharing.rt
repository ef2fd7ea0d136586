//! A future of an executor that polls one which keeps shared wakers.
ghost use Rattle.std.specs.Prelude.{◌≡◌, None};

use crate::shared_waker::share::Share;
use async_task::{Future, Poll, Wake, Yields};

/// Polls the future inside by a shared waker of the task, which the future may keep. It is the same one at each poll.
///
/// Where memory or a clone of the task's waker is refused, the future inside is not polled, and the task wakes itself: so it is polled again and again, until there is memory.
#[derive(Drop)]
pub struct Sharing<F: Yields, S: Wake> {
    inner: F,
    shared: Option<S>,
}

impl<F: Yields, S: Wake> Sharing<F, S> {
    /// The future of the task, for one that is polled by shared wakers.
    pub fn new(inner: F) -> Sharing<F, S>
        ensures inner { result.inner ≡ inner }
        ensures none { result.shared ≡ None }
    {
        Sharing {
            inner,
            shared: None,
        }
    }
}

impl<F: Yields, S: Wake> Yields for Sharing<F, S> {
    type Output = F::Output;

    ghost meets = { F.Yields.meets };
}

impl<S: Wake, W: Share<S>, F: Future<S>> Future<W> for Sharing<F, S> {
    ghost use Rattle.executor.specs.Polled.{PolledBy};

    // The future inside was polled by the shared waker of the task, or nothing was polled, and the task woke itself.
    ghost polled = { λ old waker answer new. PolledBy F.polled (W.made waker) ((ended : _) × W.Wake.woken_by_ref waker ended) old.shared new.shared old.inner answer new.inner };

    fn poll(&mut self, waker: &W) -> Poll<F::Output> {
        if !waker.share(&mut self.shared) {
            waker.wake_by_ref();
            return Poll::Pending;
        }
        match &self.shared {
            Some(shared) => self.inner.poll(shared),
            None => unreachable!(),
        }
    }
}
