//! Values without `Drop`: the duties that a change of a state under a lock leaves to its caller.
ghost use Rattle.std.specs.Prelude.{◌≡◌, IfSome};

use crate::shared::Unlocked;
use task_core::Wake;

/// A waker that is to be woken, or none, and one that is not needed. It has no `Drop`, so a body that forgets to wake does not compile.
#[must_use]
pub struct Due<W> {
    waker: Option<W>,
    spare: Option<W>,
}

impl<W> Due<W> {
    /// The duty to wake this waker, if there is one.
    pub fn new(waker: Option<W>) -> Due<W>
        ensures { result.waker ≡ waker }
    {
        Due { waker, spare: None }
    }

    /// The same, and the duty to drop a waker that is not needed.
    pub fn with_spare(waker: Option<W>, spare: Option<W>) -> Due<W>
        ensures { result.waker ≡ waker }
    {
        Due { waker, spare }
    }
}

impl<W: Wake> Due<W> {
    /// Wakes the waker, if there is one, and drops what is not needed. Both are foreign code, so the lock has to be free.
    pub fn wake<S: Drop>(self, _unlocked: &Unlocked<'_, S>)
        ensures { IfSome self.waker (λ waker. (ended : W.Record) × W.woken waker ended) }
    {
        let Due { waker, spare } = self;
        if let Some(waker) = waker {
            waker.wake();
        }
        drop(spare);
    }
}

/// A foreign value that is not needed. It has no `Drop`: it ends in `discard`.
#[must_use]
pub struct Spare<X> {
    value: X,
}

impl<X: Drop> Spare<X> {
    /// A value that was taken out under a lock.
    pub fn new(value: X) -> Spare<X>
        ensures { result.value ≡ value }
    {
        Spare { value }
    }

    /// Drops the value, which is foreign code, so the lock has to be free. It has no clause: no contract says that a value was dropped.
    pub fn discard<S: Drop>(self, _unlocked: &Unlocked<'_, S>) {
        let Spare { value } = self;
        drop(value);
    }
}

/// What a step of a duty `D`, a `Sweep` or a `Notice`, leaves to be done.
#[must_use]
pub enum Step<W, D> {
    /// A waker is to be woken, and the duty goes on.
    Next(Due<W>, D),
    /// Nobody is left to be woken.
    Done,
}
