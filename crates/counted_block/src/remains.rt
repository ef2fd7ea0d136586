// The memory of a block that has ended, before its parts are gathered.
ghost use Rattle.std.specs.Prelude.{◌≡◌, ℕ, [], ◌∷◌, Bool, true, false};
ghost use mathlib.Core.Option.{Option};
ghost use Rattle.atomic_table.specs.Table.{Final};
ghost use Rattle.counted_block.specs.Blocks.{BlockId, block_id_coded, Known};
ghost use Rattle.counted_block.specs.Held.{remains_of};
ghost use Rattle.counted_block.specs.declared.place.Place.TheVariants.{First, Second};

use crate::bare::Bare;
use crate::inner::Inner;
use crate::rule::BlockRule;
use std::alloc::Allocator;
use std::marker::{Model, PhantomData};

// The memory where it is `there`. `seat` is whose view the last state has.
pub(crate) struct Remains<S, W, V, K, P: BlockRule<S, W, V, K>, T, A: Allocator> {
    pub(crate) at: *const Inner<S, W, T>,
    pub(crate) marker: PhantomData<(V, K, P, A)>,
    pub ghost id: { BlockId } by { block_id_coded },
    pub ghost key: { K },
    pub ghost value: { T },
    pub ghost heap: { A },
    pub ghost there: { Bool },
    pub ghost seat: { Option (ℕ × V) },
}

impl<S, W, V, K, P: BlockRule<S, W, V, K>, T, A: Allocator> Model for Remains<S, W, V, K, P, T, A> {
    ghost also_owns = { λ h. remains_of S.row W.row T.row V.row.coded.code (P.holds h.key) P.out (A.dealloc_token h.heap) h.id h.value h.at h.there h.seat };
}

impl<S, W, V, K, P: BlockRule<S, W, V, K>, T, A: Allocator> Remains<S, W, V, K, P, T, A> {
    // The block. A slot that was at home has its value.
    pub(crate) fn bare(self) -> Bare<Inner<S, W, T>, A>
        requires { self.there ≡ true }
        ensures { (result.value.value ≡ self.value) × (result.heap ≡ self.heap) × Final (Known (P.holds self.key) self.seat) (result.value.word ∷ []) (First result.value.first ∷ Second result.value.second ∷ []) }
    {
        let Remains { at, marker: _ } = self;
        Bare {
            at: at.cast_mut(),
            marker: PhantomData,
        }
    }

    // The block has not ended, or others have it.
    pub(crate) fn none(self)
        requires { self.there ≡ false }
    {
        let Remains { at: _, marker: _ } = self;
    }
}
