// A hold of a block: it keeps the memory and sees the value, and makes no step.
ghost use Rattle.std.specs.Prelude.{◌≡◌, ◌==◌, [], ◌∷◌, Bool, true, false, IfSome};
ghost use mathlib.Core.Bool.{not};
ghost use mathlib.Core.Option.{none};
ghost use Rattle.atomic_table.specs.Table.{Final};
ghost use Rattle.counted_block.specs.Blocks.{BlockId, block_id_coded};
ghost use Rattle.counted_block.specs.Held.{hold_of, hold_shown, maybe_hold_of};
ghost use Rattle.counted_block.specs.declared.place.Place.TheVariants.{First, Second};

use crate::bare::Bare;
use crate::inner::Inner;
use crate::remains::Remains;
use crate::rule::BlockRule;
use crate::share::Share;
use std::alloc::Allocator;
use std::marker::{Brand, Model, PhantomData};
use std::sync::atomic::Ordering::SeqCst;
use std::sync::atomic::raw;

// As many holds as there may be.
const FULL: u64 = i64::MAX as u64;

// What the last hold finds after the closer has left.
const LAST: u64 = FULL + 2;

/// It keeps the memory and sees the value, but makes no step on the word and reaches no slot.
///
/// It may outlive every share. It has no `Drop`: `release` ends it, since the last hold gets the block. It may cross threads, and may be shared.
pub struct Hold<S, W, V, K, P: BlockRule<S, W, V, K>, T, A: Allocator> {
    pub(crate) at: *const Inner<S, W, T>,
    pub(crate) marker: PhantomData<(V, K, P, A)>,
    pub ghost id: { BlockId } by { block_id_coded },
    pub ghost key: { K },
    pub ghost value: { T },
    pub ghost heap: { A },
}

impl<S, W, V, K, P: BlockRule<S, W, V, K>, T, A: Allocator> Model for Hold<S, W, V, K, P, T, A> {
    ghost also_owns = { λ h. hold_of S.row W.row T.row V.row.coded.code (P.holds h.key) P.out (A.dealloc_token h.heap) h.id h.value h.at };

    ghost also_shares = { λ h _ κ. hold_shown S.row W.row T.row V.row.coded.code (P.holds h.key) P.out (A.dealloc_token h.heap) h.id h.value h.at κ };
}

// A hold where it is `there`.
pub(crate) struct MaybeHold<S, W, V, K, P: BlockRule<S, W, V, K>, T, A: Allocator> {
    pub(crate) at: *const Inner<S, W, T>,
    pub(crate) marker: PhantomData<(V, K, P, A)>,
    pub ghost id: { BlockId } by { block_id_coded },
    pub ghost key: { K },
    pub ghost value: { T },
    pub ghost heap: { A },
    pub ghost there: { Bool },
}

impl<S, W, V, K, P: BlockRule<S, W, V, K>, T, A: Allocator> Model
    for MaybeHold<S, W, V, K, P, T, A> {
    ghost also_owns = { λ h. maybe_hold_of S.row W.row T.row V.row.coded.code (P.holds h.key) P.out (A.dealloc_token h.heap) h.id h.value h.at h.there };
}

impl<S, W, V, K, P: BlockRule<S, W, V, K>, T, A: Allocator> MaybeHold<S, W, V, K, P, T, A> {
    fn hold(self) -> Hold<S, W, V, K, P, T, A>
        requires { self.there ≡ true }
        ensures { (result.id ≡ self.id) × (result.key ≡ self.key) × (result.value ≡ self.value) × (result.heap ≡ self.heap) }
    {
        let MaybeHold { at, marker: _ } = self;
        Hold {
            at,
            marker: PhantomData,
        }
    }

    fn none(self)
        requires { self.there ≡ false }
    {
        let MaybeHold { at: _, marker: _ } = self;
    }
}

impl<S, W, V, K, P: BlockRule<S, W, V, K>, T, A: Allocator> Share<S, W, V, K, P, T, A> {
    // Adds a hold, unless there are as many as may be. Answers how many there were.
    fn try_hold(&self) -> (u64, MaybeHold<S, W, V, K, P, T, A>)
        ensures { (result.1.id ≡ self.now.id) × (result.1.key ≡ self.now.key) × (result.1.value ≡ self.now.value) × (result.1.heap ≡ self.now.heap) × (result.1.there ≡ not (result.0 == 9223372036854775807)) }
    {
        let found = unsafe {
            raw::saturating_increment::<Brand>(&raw const (*self.at).holds, SeqCst)
        };
        let maybe = MaybeHold {
            at: self.at,
            marker: PhantomData,
        };
        (found, maybe)
    }

    /// Makes a hold, in one step that waits for nobody. None if there are 2^63 - 1 holds already, and then nothing has changed.
    pub fn hold(&self) -> Option<Hold<S, W, V, K, P, T, A>>
        ensures { IfSome result (λ h. (h.id ≡ self.now.id) × (h.key ≡ self.now.key) × (h.value ≡ self.now.value) × (h.heap ≡ self.now.heap)) }
    {
        let (found, maybe) = self.try_hold();
        if found == FULL {
            maybe.none();
            None
        } else {
            Some(maybe.hold())
        }
    }
}

impl<S, W, V, K, P: BlockRule<S, W, V, K>, T, A: Allocator> Hold<S, W, V, K, P, T, A> {
    /// Looks at the value of the block.
    pub fn value(&self) -> &T
        ensures { result.now ≡ self.now.value }
    {
        unsafe { &(*self.at).value }
    }

    // Takes one hold away. Answers how many there were.
    fn give_up(self) -> (u64, Remains<S, W, V, K, P, T, A>)
        ensures { (result.1.id ≡ self.id) × (result.1.key ≡ self.key) × (result.1.value ≡ self.value) × (result.1.heap ≡ self.heap) × (result.1.seat ≡ none) × (result.1.there ≡ result.0 == 9223372036854775809) }
    {
        let Hold { at, marker: _ } = self;
        let found = unsafe { raw::fetch_sub::<Brand>(&raw const (*at).holds, 1, SeqCst) };
        let remains = Remains {
            at,
            marker: PhantomData,
        };
        (found, remains)
    }

    /// Ends the hold. The last one after `close` has left the block to the holds gets it, in a state that kept the rule to the end; each slot that was at home there has its value.
    ///
    /// None if somebody else has the block still: another hold, or a share.
    pub fn release(self) -> Option<Bare<Inner<S, W, T>, A>>
        ensures { IfSome result (λ b. (b.value.value ≡ self.value) × (b.heap ≡ self.heap) × Final (P.holds self.key) (b.value.word ∷ []) (First b.value.first ∷ Second b.value.second ∷ [])) }
    {
        let (found, remains) = self.give_up();
        if found == LAST {
            Some(remains.bare())
        } else {
            remains.none();
            None
        }
    }
}

unsafe impl<
    S: Send,
    W: Send,
    V,
    K,
    P: BlockRule<S, W, V, K>,
    T: Send + Sync,
    A: Allocator + Send + Sync,
> Send for Hold<S, W, V, K, P, T, A> {}

unsafe impl<
    S: Send,
    W: Send,
    V,
    K,
    P: BlockRule<S, W, V, K>,
    T: Send + Sync,
    A: Allocator + Send + Sync,
> Sync for Hold<S, W, V, K, P, T, A> {}
