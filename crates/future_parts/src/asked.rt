//! What a poll asks a state with, and what that leads to.
ghost use Rattle.std.specs.Prelude.{◌≡◌, None, Ok, Err, MatchOption};

use crate::shared::Unlocked;
use task_core::Wake;

pub(crate) mod line;
pub(crate) mod permits;
pub(crate) mod single;

/// What asking for a permit led to.
#[derive(Clone, Copy, Debug, PartialEq, Eq)]
pub enum Answer {
    /// A permit was taken. The place is outside.
    Taken,
    /// No permit is left, and none will come. The place is outside.
    Closed,
    /// None is to be had yet. The waker waits in the line, and is woken once a permit is assigned to it, or none will come.
    Waits,
    /// None is to be had yet, and the waker could not join the line: there was no clone of it, or no memory. Nothing has changed.
    Refused,
}

/// The place of a future: outside of the line, or with the number under which a waiter joined for it. It has no `Drop`, so a future that goes without giving it up does not compile.
pub struct Place {
    number: Option<u64>,
}

impl Place {
    /// A place outside of the line.
    pub fn outside() -> Place
        ensures { result.number ≡ None }
    {
        Place { number: None }
    }

    // Ends a place that is outside.
    pub(crate) fn end(self)
        requires { self.number ≡ None }
    {
        let Place { number: _ } = self;
    }
}

/// A clone of the waker that a poll was lent, or none where it is refused. It has no `Drop`: a state takes it, so a poll that has made one asks.
#[must_use]
pub struct Own<W> {
    waker: Option<W>,
}

/// A clone of the waker that a poll was lent.
pub(crate) fn own_waker<W: Wake>(waker: &W) -> Own<W>
    ensures { MatchOption result.waker ((refused : W.Record) × W.cloned waker.now (Err refused)) (λ clone. W.cloned waker.now (Ok clone)) }
{
    Own {
        waker: waker.try_clone().ok(),
    }
}

/// An answer, and a waker that is not needed. A state alone makes it. It has no `Drop`: it ends in `settle`, so a poll that was refused wakes its own waker.
#[must_use]
pub struct Asked<W> {
    answer: Answer,
    spare: Option<W>,
}

impl<W> Asked<W> {
    // This answer, and a waker that is not needed.
    fn new(answer: Answer, spare: Option<W>) -> Asked<W>
        ensures { (result.answer ≡ answer) × (result.spare ≡ spare) }
    {
        Asked { answer, spare }
    }

    /// The answer.
    pub fn answer(&self) -> Answer
        ensures { result ≡ self.now.answer }
    {
        self.answer
    }
}

impl<W: Wake> Asked<W> {
    /// Answers, once the lock is free: drops what is not needed, and where the poll was refused wakes the waker that it was lent, so that it is polled again.
    pub fn settle<S: Drop>(self, waker: &W, _unlocked: &Unlocked<'_, S>) -> Answer
        ensures answer { result ≡ self.answer }
        ensures woken { self.answer ≡ Answer.Refused → (ended : W.Record) × W.woken_by_ref waker.now ended }
    {
        let Asked { answer, spare } = self;
        drop(spare);
        if answer == Answer::Refused {
            waker.wake_by_ref();
        }
        answer
    }
}
