// What the owner of the last share keeps, once no share is out.
ghost use Rattle.std.specs.Prelude.{◌≡◌, ◌∷◌, false};
ghost use mathlib.Core.Option.{none};
ghost use Rattle.atomic_table.specs.Table.{step, rest, Allows};
ghost use Rattle.counted_block.specs.Blocks.{BlockId, block_id_coded};
ghost use Rattle.counted_block.specs.Held.{last_of, last_shown};
ghost use Rattle.counted_block.specs.declared.place.Place.TheVariants.{Second};

use crate::inner::Inner;
use crate::place::Place;
use crate::rule::{BlockPlay, BlockRule};
use crate::seat::{Ledger, Seat};
use crate::share::{MaybeShare, Share};
use std::alloc::Allocator;
use std::marker::{Brand, Model, PhantomData};
use std::sync::atomic::Ordering::SeqCst;
use std::sync::atomic::raw;

/// The right to close the block, or to bring the word back to one share. While it is there no share is out, so nobody else steps on the word.
///
/// It has no `Drop`: `close` and `revive` end it. It may cross threads, and may be shared.
pub struct LastShare<S, W, V, K, P: BlockRule<S, W, V, K>, T, A: Allocator> {
    pub(crate) at: *const Inner<S, W, T>,
    pub(crate) marker: PhantomData<(V, K, P, A)>,
    pub ghost id: { BlockId } by { block_id_coded },
    pub ghost key: { K },
    pub ghost value: { T },
    pub ghost heap: { A },
}

impl<S, W, V, K, P: BlockRule<S, W, V, K>, T, A: Allocator> Model
    for LastShare<S, W, V, K, P, T, A> {
    ghost also_owns = { λ h. last_of S.row W.row T.row V.row.coded.code (P.holds h.key) P.out (A.dealloc_token h.heap) h.id h.value h.at };

    ghost also_shares = { λ h _ κ. last_shown S.row W.row T.row V.row.coded.code (P.holds h.key) P.out (A.dealloc_token h.heap) h.id h.value h.at κ };
}

impl<S, W, V, K, P: BlockRule<S, W, V, K>, T, A: Allocator> LastShare<S, W, V, K, P, T, A> {
    /// Looks at the value of the block.
    pub fn value(&self) -> &T
        ensures { result.now ≡ self.now.value }
    {
        unsafe { &(*self.at).value }
    }

    /// What a step leaves where it leaves no share, nor the last share. It costs nothing.
    pub fn gone(&self) -> MaybeShare<S, W, V, K, P, T, A>
        ensures { (result.id ≡ self.now.id) × (result.key ≡ self.now.key) × (result.value ≡ self.now.value) × (result.heap ≡ self.now.heap) × (result.there ≡ false) × (result.last ≡ false) }
    {
        MaybeShare {
            at: self.at,
            marker: PhantomData,
        }
    }

    /// Makes a ledger, by which its seats go on once the last share is given up. It costs nothing.
    pub fn ledger(&self) -> Ledger<S, W, V, K, P, T, A>
        ensures { (result.id ≡ self.now.id) × (result.key ≡ self.now.key) × (result.value ≡ self.now.value) × (result.heap ≡ self.now.heap) }
    {
        self.gone().none()
    }

    /// Loads the word, which stands for no share. `seat` may learn from the number, and may take or give a slot.
    pub fn load<M: BlockPlay<Place<S, W>, V, K>>(&self, seat: &mut Seat<S, W, V>) -> u64
        requires block { seat.old.block ≡ self.now.id }
        requires allowed { Allows (P.holds self.now.key) 2 seat.old.id seat.old.me 0 (λ n. n) (M.then self.now.key (step 2 0 0 0 none) seat.old.me) }
        ensures seat { (seat.new.block ≡ seat.old.block) × (seat.new.id ≡ seat.old.id) × M.then self.now.key (step 2 0 0 0 none) seat.old.me result seat.new.me }
        ensures last { P.out result ≡ 0 }
    {
        unsafe { raw::load::<Brand>(&raw const (*self.at).word, SeqCst) }
    }

    /// Writes `new` into the slot 1, which `seat` took last, and answers what it had. Plain memory, no step.
    pub fn swap_second(&self, seat: &mut Seat<S, W, V>, new: W) -> W
        requires block { seat.old.block ≡ self.now.id }
        requires taken { (old : W) × (seat.old.me.1 ≡ (1, Second old) ∷ rest seat.old.me.1) }
        ensures { (seat.new.block ≡ seat.old.block) × (seat.new.id ≡ seat.old.id) × (seat.old.me.1 ≡ (1, Second result) ∷ rest seat.old.me.1) × (seat.new.me ≡ (seat.old.me.0, (1, Second new) ∷ rest seat.old.me.1)) }
    {
        unsafe {
            let at = &raw const (*self.at).second as *mut W;
            let old = at.read();
            at.write(new);
            old
        }
    }

    /// Writes `new` into the word, which stands for one share, and makes the last share that one. Answers the word as it was, and the share.
    pub fn revive<M: BlockPlay<Place<S, W>, V, K>>(
        self,
        seat: &mut Seat<S, W, V>,
        new: u64,
    ) -> (u64, Share<S, W, V, K, P, T, A>)
        requires block { seat.old.block ≡ self.id }
        requires allowed { Allows (P.holds self.key) 2 seat.old.id seat.old.me 0 (λ _. new) (M.then self.key (step 2 0 new 0 none) seat.old.me) }
        requires one { P.out new ≡ 1 }
        ensures seat { (seat.new.block ≡ seat.old.block) × (seat.new.id ≡ seat.old.id) × M.then self.key (step 2 0 new 0 none) seat.old.me result.0 seat.new.me }
        ensures share { (result.1.id ≡ self.id) × (result.1.key ≡ self.key) × (result.1.value ≡ self.value) × (result.1.heap ≡ self.heap) }
        ensures last { P.out result.0 ≡ 0 }
    {
        let LastShare { at, marker: _ } = self;
        let found = unsafe { raw::swap::<Brand>(&raw const (*at).word, new, SeqCst) };
        let share = Share {
            at,
            marker: PhantomData,
        };
        (found, share)
    }
}

unsafe impl<
    S: Send,
    W: Send,
    V,
    K,
    P: BlockRule<S, W, V, K>,
    T: Send + Sync,
    A: Allocator + Send + Sync,
> Send for LastShare<S, W, V, K, P, T, A> {}

unsafe impl<
    S: Send,
    W: Send,
    V,
    K,
    P: BlockRule<S, W, V, K>,
    T: Send + Sync,
    A: Allocator + Send + Sync,
> Sync for LastShare<S, W, V, K, P, T, A> {}
