//! What comes out of a group.
ghost use Rattle.std.specs.Prelude.{◌≡◌, IfOk};
ghost use Rattle.std.proofs.Props.{props};

use async_task::{TaskClosed, Yields};

/// A member that has ended, and what its Task answered. An output meets what the type of the future states.
#[must_use]
#[derive(Drop)]
pub struct Ended<F: Yields> {
    /// The number that `push` or `spawn` gave the member.
    pub number: usize,
    /// The output, or that the task was closed without one.
    pub answer: Result<F::Output, TaskClosed>,
    ghost meets: { IfOk answer (λ output. ∥ F.Yields.meets output ∥₁) } by { Prim.hlevel props },
}

impl<F: Yields> Ended<F> {
    // The same answer under this number.
    pub(crate) fn numbered(self, number: usize) -> Ended<F>
        ensures number { result.number ≡ number }
        ensures answer { result.answer ≡ self.answer }
    {
        let Ended { number: _, answer } = self;
        Ended { number, answer }
    }
}
