//! What lies in the caller's memory: a share of a cell, and its party; or a hold of a cell.
ghost use Rattle.task_cell.specs.Calls.{Stands};
ghost use Rattle.task_steps.specs.Standing.{as_ended};

use std::alloc::Global;
use task_cell::{CellHold, Kept, MaybeShare, Party, Share};
use task_core::Yields;

/// Stands in the cell for a future, or an output, that lies in the caller's memory.
#[derive(Drop)]
pub struct Elsewhere;

impl Yields for Elsewhere {
    type Output = Elsewhere;
}

/// Stands in the cell for an awaiter that lies in the caller's memory.
#[derive(Drop)]
pub struct Waits;

/// A share of a cell whose future, output, awaiter and schedule function lie in the caller's memory.
pub type CellShare = Share<(), Elsewhere, (), (), Waits, Global>;

/// What a step has left of such a share.
pub type CellMaybe = MaybeShare<(), Elsewhere, (), (), Waits, Global>;

/// A party of such a cell.
pub type CellParty = Party<Elsewhere, Kept<Elsewhere>, Waits>;

/// The record of a call that has ended: its party, by which a contract says what the call did. It has no bytes, and may be dropped.
pub struct Record {
    pub(crate) party: CellParty,
    ghost ended: { Stands as_ended party },
}

impl Drop for Record {
    fn drop(self) {
        let Record { party } = self;
        party.let_go();
    }
}

/// What a place for a handle has: a share, which is gone once its call has given it up, and the party, which tells what it did.
pub struct Hand {
    pub share: CellMaybe,
    pub party: CellParty,
}

/// A share of a cell whose owner lends it, for calls by reference.
pub struct Lent {
    pub share: CellShare,
}

/// What a place for a hold has.
pub struct Grip {
    pub hold: CellHold<(), Elsewhere, (), (), Waits, Global>,
}
