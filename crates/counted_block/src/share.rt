// A share of a block, and what a step leaves of one.
ghost use Rattle.std.specs.Prelude.{◌≡◌, ℕ, Bool, true, false};
ghost use Rattle.counted_block.specs.Blocks.{BlockId, block_id_coded};
ghost use Rattle.counted_block.specs.Held.{share_of, share_shown, maybe_share_of};

use crate::inner::Inner;
use crate::last::LastShare;
use crate::rule::BlockRule;
use crate::seat::Ledger;
use std::alloc::Allocator;
use std::marker::{Model, PhantomData};

/// The right to step on the block, to look at its value, and to keep its memory.
///
/// It has no `Drop`, since giving it up has to change the word: `part` and `part_exchange` end it. It may cross threads, and may be shared.
pub struct Share<S, W, V, K, P: BlockRule<S, W, V, K>, T, A: Allocator> {
    pub(crate) at: *const Inner<S, W, T>,
    pub(crate) marker: PhantomData<(V, K, P, A)>,
    pub ghost id: { BlockId } by { block_id_coded },
    pub ghost key: { K },
    pub ghost value: { T },
    pub ghost heap: { A },
}

impl<S, W, V, K, P: BlockRule<S, W, V, K>, T, A: Allocator> Model for Share<S, W, V, K, P, T, A> {
    ghost also_owns = { λ h. share_of S.row W.row T.row V.row.coded.code (P.holds h.key) P.out (A.dealloc_token h.heap) h.id h.value h.at };

    ghost also_shares = { λ h _ κ. share_shown S.row W.row T.row V.row.coded.code (P.holds h.key) P.out (A.dealloc_token h.heap) h.id h.value h.at κ };
}

/// What a step made or left of a share: a share where it is `there`, the last share where it is `last`, or nothing. The contract of the step says which, mostly by the number that the step found.
///
/// It has no `Drop`: the caller looks at that number, and then calls `share`, `last` or `none`.
pub struct MaybeShare<S, W, V, K, P: BlockRule<S, W, V, K>, T, A: Allocator> {
    pub(crate) at: *const Inner<S, W, T>,
    pub(crate) marker: PhantomData<(V, K, P, A)>,
    pub ghost id: { BlockId } by { block_id_coded },
    pub ghost key: { K },
    pub ghost value: { T },
    pub ghost heap: { A },
    pub ghost there: { Bool },
    pub ghost last: { Bool },
}

impl<S, W, V, K, P: BlockRule<S, W, V, K>, T, A: Allocator> Model
    for MaybeShare<S, W, V, K, P, T, A> {
    ghost also_owns = { λ h. maybe_share_of S.row W.row T.row V.row.coded.code (P.holds h.key) P.out (A.dealloc_token h.heap) h.id h.value h.at h.there h.last };
}

impl<S, W, V, K, P: BlockRule<S, W, V, K>, T, A: Allocator> MaybeShare<S, W, V, K, P, T, A> {
    /// Takes the share, where the step made or left one.
    pub fn share(self) -> Share<S, W, V, K, P, T, A>
        requires { self.there ≡ true }
        ensures { (result.id ≡ self.id) × (result.key ≡ self.key) × (result.value ≡ self.value) × (result.heap ≡ self.heap) }
    {
        let MaybeShare { at, marker: _ } = self;
        Share {
            at,
            marker: PhantomData,
        }
    }

    /// Takes the last share, where the step left it.
    pub fn last(self) -> LastShare<S, W, V, K, P, T, A>
        requires { (self.there ≡ false) × (self.last ≡ true) }
        ensures { (result.id ≡ self.id) × (result.key ≡ self.key) × (result.value ≡ self.value) × (result.heap ≡ self.heap) }
    {
        let MaybeShare { at, marker: _ } = self;
        LastShare {
            at,
            marker: PhantomData,
        }
    }

    /// Spends this where there is no share. The ledger lets its seats note what they know, also after the block is gone.
    pub fn none(self) -> Ledger<S, W, V, K, P, T, A>
        requires { (self.there ≡ false) × (self.last ≡ false) }
        ensures { (result.id ≡ self.id) × (result.key ≡ self.key) × (result.value ≡ self.value) × (result.heap ≡ self.heap) }
    {
        let MaybeShare { at: _, marker: _ } = self;
        Ledger {
            marker: PhantomData,
        }
    }
}

impl<S, W, V, K, P: BlockRule<S, W, V, K>, T, A: Allocator> Share<S, W, V, K, P, T, A> {
    /// Looks at the value of the block.
    pub fn value(&self) -> &T
        ensures { result.now ≡ self.now.value }
    {
        unsafe { &(*self.at).value }
    }

    /// The share as what a step may have made or left: it is `there`. It costs nothing.
    pub fn into_maybe(self) -> MaybeShare<S, W, V, K, P, T, A>
        ensures { (result.id ≡ self.id) × (result.key ≡ self.key) × (result.value ≡ self.value) × (result.heap ≡ self.heap) × (result.there ≡ true) × (result.last ≡ false) }
    {
        let Share { at, marker: _ } = self;
        MaybeShare {
            at,
            marker: PhantomData,
        }
    }

    /// What a step leaves where it leaves no share: it is not `there`. It costs nothing.
    pub fn gone(&self) -> MaybeShare<S, W, V, K, P, T, A>
        ensures { (result.id ≡ self.now.id) × (result.key ≡ self.now.key) × (result.value ≡ self.now.value) × (result.heap ≡ self.now.heap) × (result.there ≡ false) × (result.last ≡ false) }
    {
        MaybeShare {
            at: self.at,
            marker: PhantomData,
        }
    }

    /// Gives the share up without a step. Its block is never freed.
    pub fn leak(self) {
        let Share { at: _, marker: _ } = self;
    }

    /// Makes a ledger, by which its seats go on once the share is given up. It costs nothing.
    pub fn ledger(&self) -> Ledger<S, W, V, K, P, T, A>
        ensures { (result.id ≡ self.now.id) × (result.key ≡ self.now.key) × (result.value ≡ self.now.value) × (result.heap ≡ self.now.heap) }
    {
        self.gone().none()
    }
}

unsafe impl<
    S: Send,
    W: Send,
    V,
    K,
    P: BlockRule<S, W, V, K>,
    T: Send + Sync,
    A: Allocator + Send + Sync,
> Send for Share<S, W, V, K, P, T, A> {}

unsafe impl<
    S: Send,
    W: Send,
    V,
    K,
    P: BlockRule<S, W, V, K>,
    T: Send + Sync,
    A: Allocator + Send + Sync,
> Sync for Share<S, W, V, K, P, T, A> {}
