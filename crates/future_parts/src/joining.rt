//! A future that awaits two futures side by side.
ghost use Rattle.std.specs.Prelude.{◌≡◌};
ghost use Rattle.task_core.specs.Poll.{IfReady};
ghost use Rattle.future_parts.specs.Joining.{HalfPolled, HandedOut};

use half::{Half, KeptOutput, poll_half};
use std::mem;
use task_core::{Future, Poll, Yields};

pub(crate) mod all;
pub(crate) mod half;

/// The future of `join`.
#[derive(Drop)]
pub struct Join<A: Yields, B: Yields> {
    pub(crate) first: Half<A, KeptOutput<A>>,
    pub(crate) second: Half<B, KeptOutput<B>>,
}

impl<A: Yields, B: Yields> Join<A, B> {
    // Hands out both outputs, where both futures have ended.
    fn hand_out(&mut self) -> Poll<(A::Output, B::Output)>
        ensures meets { IfReady result (λ outputs. ∥ A.Yields.meets outputs.0 ∥₁ × ∥ B.Yields.meets outputs.1 ∥₁) }
        ensures handed { HandedOut (λ kept. kept.output) (λ kept. kept.output) self.old.first self.old.second result self.new.first self.new.second }
    {
        if !self.first.has_ended() || !self.second.has_ended() {
            return Poll::Pending;
        }
        let first = mem::replace(&mut self.first, Half::Taken);
        let second = mem::replace(&mut self.second, Half::Taken);
        match (first, second) {
            (Half::Ended(first), Half::Ended(second)) => {
                Poll::Ready((first.into_output(), second.into_output()))
            }
            _ => unreachable!(),
        }
    }
}

impl<A: Yields, B: Yields> Yields for Join<A, B> {
    type Output = (A::Output, B::Output);

    ghost meets = { λ outputs. ∥ A.Yields.meets outputs.0 ∥₁ × ∥ B.Yields.meets outputs.1 ∥₁ };
}

impl<W, A: Future<W>, B: Future<W>> Future<W> for Join<A, B> {
    // Each half was polled by this waker, and then the outputs are handed out where both are there.
    ghost polled = { λ old waker answer new. (first : _) × (second : _) × HalfPolled A.polled (λ kept. kept.output) old.first waker first × HalfPolled B.polled (λ kept. kept.output) old.second waker second × HandedOut (λ kept. kept.output) (λ kept. kept.output) first second answer new.first new.second };

    fn poll(&mut self, waker: &W) -> Poll<(A::Output, B::Output)> {
        poll_half(&mut self.first, waker);
        poll_half(&mut self.second, waker);
        self.hand_out()
    }
}
