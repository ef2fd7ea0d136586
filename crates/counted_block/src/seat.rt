// What one party knows of a block, and what lets it note more after its share is gone.
ghost use Rattle.std.specs.Prelude.{◌≡◌, ℕ, []};
ghost use mathlib.Core.Option.{none};
ghost use Rattle.atomic_table.specs.Table.{Me, step, turned};
ghost use Rattle.counted_block.specs.Blocks.{BlockId, block_id_coded, seat_owns};
ghost use Rattle.counted_block.specs.Counts.{Notes};
ghost use Rattle.counted_block.specs.Held.{kept_of};
ghost use Rattle.counted_block.specs.declared.place.Place.{Place};

use crate::place::Place;
use crate::rule::{BlockPlay, BlockRule};
use crate::seen::Seen;
use std::alloc::Allocator;
use std::marker::{Model, PhantomData};

/// A view under the rule, and the slots that are out with it. It has no bytes, and no right to the memory: a step also asks for a share of the same block.
///
/// The view of a seat that is dropped stays in the rule, and its slots stay out.
pub struct Seat<S, W, V> {
    pub(crate) marker: PhantomData<(S, W, V)>,
    pub ghost block: { BlockId } by { block_id_coded },
    pub ghost id: { ℕ },
    pub ghost me: { Me (Place S W) V },
}

impl<S, W, V> Model for Seat<S, W, V> {
    ghost also_owns = { λ s. seat_owns S.row W.row s.block V.row.coded.code s.id s.me };
}

impl<S, W, V> Seat<S, W, V> {
    /// Brings the next slot to the front, and puts the one that was taken last behind the others. It costs nothing.
    pub fn turn(&mut self)
        ensures { (self.new.block ≡ self.old.block) × (self.new.id ≡ self.old.id) × (self.new.me ≡ (self.old.me.0, turned self.old.me.1)) }
    {}

    /// What the seat knows now, to be kept beside a value. It costs nothing.
    pub fn seen(&self) -> Seen<V>
        ensures { result.view ≡ self.now.me.0 }
    {
        let _ = self;
        Seen {
            marker: PhantomData,
        }
    }
}

impl<S, W, V> Drop for Seat<S, W, V> {
    fn drop(self) {
        let Self { marker: _ } = self;
    }
}

/// What is left of a share for its seats: they still note what they know, also after the block is gone. It has no bytes, and may be dropped.
pub struct Ledger<S, W, V, K, P: BlockRule<S, W, V, K>, T, A: Allocator> {
    pub(crate) marker: PhantomData<(S, W, V, K, P, T, A)>,
    pub ghost id: { BlockId } by { block_id_coded },
    pub ghost key: { K },
    pub ghost value: { T },
    pub ghost heap: { A },
}

impl<S, W, V, K, P: BlockRule<S, W, V, K>, T, A: Allocator> Model for Ledger<S, W, V, K, P, T, A> {
    ghost also_owns = { λ h. kept_of S.row W.row T.row V.row.coded.code (P.holds h.key) P.out (A.dealloc_token h.heap) h.id h.value };

    ghost also_shares = { λ h _ _. kept_of S.row W.row T.row V.row.coded.code (P.holds h.key) P.out (A.dealloc_token h.heap) h.id h.value };
}

impl<S, W, V, K, P: BlockRule<S, W, V, K>, T, A: Allocator> Ledger<S, W, V, K, P, T, A> {
    /// Changes the view of `seat`, and nothing else: neither the word nor a slot. It is no step of the machine, and costs nothing.
    ///
    /// `M` says what becomes of the view. It is told of some number that the word may have had, which nobody read.
    pub fn note<M: BlockPlay<Place<S, W>, V, K>>(&self, seat: &mut Seat<S, W, V>)
        requires block { seat.old.block ≡ self.now.id }
        requires allowed { Notes (P.holds self.now.key) seat.old.id seat.old.me (M.then self.now.key (step 2 0 0 0 none) seat.old.me) }
        ensures { (seat.new.block ≡ seat.old.block) × (seat.new.id ≡ seat.old.id) × ((n : ℕ) × M.then self.now.key (step 2 0 0 0 none) seat.old.me n seat.new.me) }
    {}
}

impl<S, W, V, K, P: BlockRule<S, W, V, K>, T, A: Allocator> Drop for Ledger<S, W, V, K, P, T, A> {
    fn drop(self) {
        let Self { marker: _ } = self;
    }
}

unsafe impl<S: Send, W: Send, V> Send for Seat<S, W, V> {}

unsafe impl<S: Send, W: Send, V> Sync for Seat<S, W, V> {}

unsafe impl<
    S: Send,
    W: Send,
    V,
    K,
    P: BlockRule<S, W, V, K>,
    T: Send + Sync,
    A: Allocator + Send + Sync,
> Send for Ledger<S, W, V, K, P, T, A> {}

unsafe impl<
    S: Send,
    W: Send,
    V,
    K,
    P: BlockRule<S, W, V, K>,
    T: Send + Sync,
    A: Allocator + Send + Sync,
> Sync for Ledger<S, W, V, K, P, T, A> {}
