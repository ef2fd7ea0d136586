//! An output and an awaiter as they are kept: in their places, and in the hands of a call.
ghost use Rattle.std.specs.Prelude.{◌≡◌};
ghost use Rattle.task_steps.specs.Stored.{poll_of, stored_by};

use crate::table::{TaskSeat, View};
use counted_block::Seen;
use task_core::Yields;

/// An output, and that it meets what its future's type states.
#[derive(Drop)]
pub struct Kept<F: Yields> {
    /// The output.
    pub output: F::Output,
    ghost meets: { ∥ F.Yields.meets output ∥₁ },
}

/// An awaiter that a poll stores, and what the seat of that poll knew. Contracts read the number of the poll there.
#[derive(Drop)]
pub struct StoredAwaiter<A> {
    pub(crate) awaiter: A,
    pub(crate) by: Seen<View>,
}

impl<A> StoredAwaiter<A> {
    /// An awaiter to be stored by the poll that the party of this seat is in.
    pub fn new<F, T>(awaiter: A, seat: &TaskSeat<F, T, A>) -> StoredAwaiter<A>
        ensures awaiter { result.awaiter ≡ awaiter }
        ensures number { stored_by result ≡ poll_of seat.now.me.0 }
    {
        StoredAwaiter {
            awaiter,
            by: seat.seen(),
        }
    }
}
