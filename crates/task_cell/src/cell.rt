//! The cell, a party of it, which must be spent, and the record of a call that was made.
ghost use Rattle.std.specs.Prelude.{◌≡◌, [], ◌∷◌, true};
ghost use Rattle.task_steps.specs.Seats.{is_spent};
ghost use Rattle.task_steps.specs.Rule.{view, fresh};
ghost use Rattle.task_steps.specs.Standing.{as_ended, as_runnable};
ghost use Rattle.task_cell.specs.Calls.{Stands};
ghost use Rattle.task_cell.specs.Fitting.{Fitting};
ghost use Rattle.task_cell.specs.Wakers.{block_of, me_of, waker_me};
ghost use Rattle.task_cell.specs.Witnessed.{IsWitnessed};

use std::alloc::{Allocator, Global};
use task_core::Yields;
use task_steps::table::{Block, BlockHold, Kept, LastBlock, MaybeBlock, TaskSeat, discard};

/// What all handles of a task see: the metadata, the schedule value, the limit of references, the runtime value and the allocator, which are dropped in this order. It lies in one block with the word and the places.
#[derive(Drop)]
pub struct Cell<R, Q, M, B = Global> {
    pub(crate) metadata: M,
    pub(crate) schedule: Q,
    pub(crate) limit: u64,
    pub(crate) rt: R,
    pub(crate) alloc: B,
}

/// One party of a task at one position. It must be spent: only calls of the cell move it, and it may be let go only once it has ended, or was lent for a call and has made it.
pub struct Party<F, T, A> {
    pub(crate) seat: TaskSeat<F, T, A>,
}

impl<F, T, A> Party<F, T, A> {
    /// Lets the party go, which has ended, and is alone on its seat.
    pub fn let_go(self)
        requires { Stands as_ended self }
    {
        let Party { seat } = self;
        discard(seat);
    }
}

/// The record of a call that was made: its party, which nobody needs any more. By it a contract says what the call did; its clause `witnessed` says that an interleaving of the machine, of which all laws hold, ends in that. It has no bytes, and may be dropped.
pub struct EndedCall<F, T, A> {
    pub(crate) party: Party<F, T, A>,
    ghost spent: { is_spent party.seat.me.0 ≡ true },
    ghost free: { party.seat.me.1 ≡ [] },
    ghost witnessed: { IsWitnessed party },
}

impl<F, T, A> Drop for EndedCall<F, T, A> {
    fn drop(self) {
        let EndedCall { party } = self;
        let Party { seat } = party;
        discard(seat);
    }
}

/// A share of a cell, as many as its word has handles: a pointer, and no count beside the word. It must be spent: it goes on with the handle that it is for, or ends with a step that gives the handle up.
pub struct Share<R, F: Yields, Q, M, A, B: Allocator + Copy = Global> {
    pub(crate) block: Block<F, A, Cell<R, Q, M, B>, B>,
    ghost fitting: { Fitting block.key.limit block.value block.heap },
}

/// A share, or the last one, that a step may have made or left. It must be spent: the caller looks at the word that the step found, and takes what is there or knows that there is none.
pub struct MaybeShare<R, F: Yields, Q, M, A, B: Allocator + Copy = Global> {
    pub(crate) maybe: MaybeBlock<F, A, Cell<R, Q, M, B>, B>,
    ghost fitting: { Fitting maybe.key.limit maybe.value maybe.heap },
}

/// What a party keeps that gave the last handle up: it empties the places and ends the cell, or has a handle again. It must be spent.
pub struct LastShare<R, F: Yields, Q, M, A, B: Allocator + Copy = Global> {
    pub(crate) block: LastBlock<F, A, Cell<R, Q, M, B>, B>,
    ghost fitting: { Fitting block.key.limit block.value block.heap },
}

/// It keeps the cell, and makes no step. It must be spent: the last hold of a cell whose shares are gone ends it.
pub struct CellHold<R, F: Yields, Q, M, A, B: Allocator + Copy> {
    pub(crate) hold: BlockHold<F, A, Cell<R, Q, M, B>, B>,
    ghost fitting: { Fitting hold.key.limit hold.value hold.heap },
}

/// A share of a cell, and the party of its Runnable, which has done nothing: nobody steps with it before the handle is taken apart.
pub(crate) struct RunnableSeat<R, F: Yields, Q, M, A, B: Allocator + Copy> {
    pub(crate) share: Share<R, F, Q, M, A, B>,
    pub(crate) party: Party<F, Kept<F>, A>,
    ghost seated: { party.seat.block ≡ share.block.id },
    ghost placed: { party.seat.me ≡ (view share.block.key.limit (fresh as_runnable ∷ []), []) },
}

/// What a waker holds.
pub(crate) enum Hold<F, T, A> {
    /// A reference, which it gives up when it is dropped, by this party. Nobody steps with it before.
    Owned(Party<F, T, A>),
    /// Nothing: it was lent to a poll.
    Lent,
}

/// A share of a cell, and what a waker holds.
pub(crate) struct WakerSeat<R, F: Yields, Q, M, A, B: Allocator + Copy> {
    pub(crate) share: Share<R, F, Q, M, A, B>,
    pub(crate) hold: Hold<F, Kept<F>, A>,
    ghost seated: { block_of hold share.block.id ≡ share.block.id },
    ghost placed: { me_of hold (waker_me share.block.key.limit) ≡ waker_me share.block.key.limit },
}
