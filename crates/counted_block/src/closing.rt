// The last share ends the block, or leaves that to the last hold.
ghost use Rattle.std.specs.Prelude.{◌≡◌, ◌==◌, [], ◌∷◌, false, IfSome};
ghost use mathlib.Core.Bool.{not};
ghost use mathlib.Core.Option.{some};
ghost use Rattle.atomic_table.specs.Table.{Final, Seen};
ghost use Rattle.counted_block.specs.declared.place.Place.TheVariants.{First, Second};

use crate::bare::Bare;
use crate::inner::Inner;
use crate::last::LastShare;
use crate::remains::Remains;
use crate::rule::BlockRule;
use crate::seat::Seat;
use crate::share::MaybeShare;
use std::alloc::Allocator;
use std::marker::{Brand, PhantomData};
use std::sync::atomic::Ordering::SeqCst;
use std::sync::atomic::raw;

// What the closer adds to the holds when it leaves.
const LEFT: u64 = 1 << 63;

impl<S, W, V, K, P: BlockRule<S, W, V, K>, T, A: Allocator> LastShare<S, W, V, K, P, T, A> {
    // Looks whether there is a hold. If there is none, the block has ended: only a share makes holds, and none is out.
    fn look(
        self,
        seat: &mut Seat<S, W, V>,
    ) -> (
        u64,
        MaybeShare<S, W, V, K, P, T, A>,
        Remains<S, W, V, K, P, T, A>,
    )
        requires block { seat.old.block ≡ self.id }
        ensures seat { (seat.new.block ≡ seat.old.block) × (seat.new.id ≡ seat.old.id) × (seat.new.me ≡ seat.old.me) }
        ensures last { (result.1.id ≡ self.id) × (result.1.key ≡ self.key) × (result.1.value ≡ self.value) × (result.1.heap ≡ self.heap) × (result.1.there ≡ false) × (result.1.last ≡ not (result.0 == 0)) }
        ensures remains { (result.2.key ≡ self.key) × (result.2.value ≡ self.value) × (result.2.heap ≡ self.heap) × (result.2.there ≡ result.0 == 0) × (result.2.seat ≡ some (seat.old.id, seat.old.me.0)) }
    {
        let LastShare { at, marker: _ } = self;
        let found = unsafe { raw::load::<Brand>(&raw const (*at).holds, SeqCst) };
        let last = MaybeShare {
            at,
            marker: PhantomData,
        };
        let remains = Remains {
            at,
            marker: PhantomData,
        };
        (found, last, remains)
    }

    // Ends the share, and the block too if the last hold was released meanwhile.
    fn leave(self, seat: &mut Seat<S, W, V>) -> (u64, Remains<S, W, V, K, P, T, A>)
        requires block { seat.old.block ≡ self.id }
        ensures seat { (seat.new.block ≡ seat.old.block) × (seat.new.id ≡ seat.old.id) × (seat.new.me ≡ seat.old.me) }
        ensures remains { (result.1.key ≡ self.key) × (result.1.value ≡ self.value) × (result.1.heap ≡ self.heap) × (result.1.there ≡ result.0 == 0) × (result.1.seat ≡ some (seat.old.id, seat.old.me.0)) }
    {
        let LastShare { at, marker: _ } = self;
        let found = unsafe { raw::fetch_add::<Brand>(&raw const (*at).holds, LEFT, SeqCst) };
        let remains = Remains {
            at,
            marker: PhantomData,
        };
        (found, remains)
    }

    /// Ends the last share, and gives the block back, in a state that keeps the rule and has the seat's view; each slot that was at home there has its value.
    ///
    /// `seat` is any of the block's. None if there is a hold: then the last one gets the block, from `release`.
    /// It costs one load where nobody holds, and an addition more where somebody does.
    pub fn close(self, seat: &mut Seat<S, W, V>) -> Option<Bare<Inner<S, W, T>, A>>
        requires block { seat.old.block ≡ self.id }
        ensures seat { (seat.new.block ≡ seat.old.block) × (seat.new.id ≡ seat.old.id) × (seat.new.me ≡ seat.old.me) }
        ensures block { IfSome result (λ b. (b.value.value ≡ self.value) × (b.heap ≡ self.heap) × Final (Seen (P.holds self.key) seat.old.id seat.old.me.0) (b.value.word ∷ []) (First b.value.first ∷ Second b.value.second ∷ [])) }
    {
        let (held, last, remains) = self.look(seat);
        if held == 0 {
            last.none();
            return Some(remains.bare());
        }
        remains.none();
        let (held, remains) = last.last().leave(seat);
        if held == 0 {
            Some(remains.bare())
        } else {
            remains.none();
            None
        }
    }
}
