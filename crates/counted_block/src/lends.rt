// The loan of a slot has a file of its own: its clause names the row of `Seat`.
ghost use Rattle.std.specs.Prelude.{◌≡◌, ◌∷◌};
ghost use types.Logic.{sem};
ghost use denote.Follow.{follows};
ghost use Rattle.counted_block.specs.contracts.seat.Seat.{the_row};
ghost use Rattle.atomic_table.specs.Table.{rest};
ghost use Rattle.counted_block.specs.Lent.{seat_with};
ghost use Rattle.counted_block.specs.declared.place.Place.TheVariants.{First};

use crate::rule::BlockRule;
use crate::seat::Seat;
use crate::share::Share;
use std::alloc::Allocator;

impl<S, W, V> Seat<S, W, V> {
    /// Lends the slot 0, which the seat took last. When the borrow ends, the seat has what was written through it. `share` is of the same block, and keeps it until then.
    pub fn first_mut<'a, K, P: BlockRule<S, W, V, K>, T, A: Allocator>(
        &'a mut self,
        share: &'a Share<S, W, V, K, P, T, A>,
    ) -> &'a mut S
        requires block { self.old.block ≡ share.now.id }
        requires taken { (old : S) × (self.old.me.1 ≡ (0, First old) ∷ rest self.old.me.1) }
        ensures* writes_back { sem 𝓛 (follows (the_row S.row W.row V.row) S.row self.entry.ghost_name result.ghost_name (seat_with self.old)) }
        ensures value { self.old.me.1 ≡ (0, First result.now) ∷ rest self.old.me.1 }
    {
        unsafe { &mut *(&raw const (*share.at).first as *mut S) }
    }
}
