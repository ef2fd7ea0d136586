// Plain access to a slot that a seat has taken.
ghost use Rattle.std.specs.Prelude.{◌≡◌, ◌∷◌};
ghost use Rattle.atomic_table.specs.Table.{rest};
ghost use Rattle.counted_block.specs.declared.place.Place.TheVariants.{First, Second};

use crate::rule::BlockRule;
use crate::seat::Seat;
use crate::share::Share;
use std::alloc::Allocator;
use std::mem;

impl<S, W, V, K, P: BlockRule<S, W, V, K>, T, A: Allocator> Share<S, W, V, K, P, T, A> {
    /// Writes `new` into the slot 0, which `seat` took last, and answers what it had. Plain memory, no step: nobody else reaches a slot that is out.
    pub fn swap_first(&self, seat: &mut Seat<S, W, V>, new: S) -> S
        requires block { seat.old.block ≡ self.now.id }
        requires taken { (old : S) × (seat.old.me.1 ≡ (0, First old) ∷ rest seat.old.me.1) }
        ensures { (seat.new.block ≡ seat.old.block) × (seat.new.id ≡ seat.old.id) × (seat.old.me.1 ≡ (0, First result) ∷ rest seat.old.me.1) × (seat.new.me ≡ (seat.old.me.0, (0, First new) ∷ rest seat.old.me.1)) }
    {
        mem::replace(seat.first_mut(self), new)
    }

    /// The same with the slot 1.
    pub fn swap_second(&self, seat: &mut Seat<S, W, V>, new: W) -> W
        requires block { seat.old.block ≡ self.now.id }
        requires taken { (old : W) × (seat.old.me.1 ≡ (1, Second old) ∷ rest seat.old.me.1) }
        ensures { (seat.new.block ≡ seat.old.block) × (seat.new.id ≡ seat.old.id) × (seat.old.me.1 ≡ (1, Second result) ∷ rest seat.old.me.1) × (seat.new.me ≡ (seat.old.me.0, (1, Second new) ∷ rest seat.old.me.1)) }
    {
        unsafe {
            let at = &raw const (*self.at).second as *mut W;
            let old = at.read();
            at.write(new);
            old
        }
    }
}
