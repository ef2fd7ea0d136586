// A block begins with one share or two, and one seat.
ghost use Rattle.std.specs.Prelude.{◌≡◌, ◌==◌, ◌<◌, [], ◌∷◌, false};
ghost use Rattle.atomic_table.specs.Table.{opening};
ghost use Rattle.counted_block.specs.declared.place.Place.TheVariants.{First, Second};

use crate::bare::Bare;
use crate::inner::Inner;
use crate::rule::BlockRule;
use crate::seat::Seat;
use crate::share::{MaybeShare, Share};
use std::alloc::Allocator;
use std::marker::PhantomData;

impl<S, W, V, K, P: BlockRule<S, W, V, K>, T, A: Allocator> Share<S, W, V, K, P, T, A> {
    // Makes a block of `bare`, with one share or two, as the word stands for, and one seat.
    fn begin(
        bare: Bare<Inner<S, W, T>, A>,
        about: &K,
    ) -> (
        Share<S, W, V, K, P, T, A>,
        MaybeShare<S, W, V, K, P, T, A>,
        Seat<S, W, V>,
    )
        requires shares { (0 < P.out bare.value.word) × (P.out bare.value.word < 3) }
        requires holds { bare.value.holds ≡ 0 }
        requires rule { P.holds about.now (opening (bare.value.word ∷ []) (First bare.value.first ∷ Second bare.value.second ∷ []) (P.first about.now)) }
        ensures share { (result.0.key ≡ about.now) × (result.0.value ≡ bare.value.value) × (result.0.heap ≡ bare.heap) }
        ensures other { (result.1.id ≡ result.0.id) × (result.1.key ≡ about.now) × (result.1.value ≡ bare.value.value) × (result.1.heap ≡ bare.heap) × (result.1.there ≡ P.out bare.value.word == 2) × (result.1.last ≡ false) }
        ensures seat { (result.2.block ≡ result.0.id) × (result.2.id ≡ 0) × (result.2.me ≡ (P.first about.now, [])) }
    {
        let Bare { at, marker: _ } = bare;
        (
            Share {
                at,
                marker: PhantomData,
            },
            MaybeShare {
                at,
                marker: PhantomData,
            },
            Seat {
                marker: PhantomData,
            },
        )
    }

    /// Makes a block of `bare`, with one share and one seat. `about` is the key that the rule reads.
    ///
    /// The rule has to hold of the state at the start, the word has to stand for one share, and there is no hold yet.
    pub fn new(
        bare: Bare<Inner<S, W, T>, A>,
        about: &K,
    ) -> (Share<S, W, V, K, P, T, A>, Seat<S, W, V>)
        requires shares { P.out bare.value.word ≡ 1 }
        requires holds { bare.value.holds ≡ 0 }
        requires rule { P.holds about.now (opening (bare.value.word ∷ []) (First bare.value.first ∷ Second bare.value.second ∷ []) (P.first about.now)) }
        ensures share { (result.0.key ≡ about.now) × (result.0.value ≡ bare.value.value) × (result.0.heap ≡ bare.heap) }
        ensures seat { (result.1.block ≡ result.0.id) × (result.1.id ≡ 0) × (result.1.me ≡ (P.first about.now, [])) }
    {
        let (share, other, seat) = Share::begin(bare, about);
        other.none();
        (share, seat)
    }

    /// The same where the word at the start stands for two shares. So two owners begin without a step between.
    pub fn new_pair(
        bare: Bare<Inner<S, W, T>, A>,
        about: &K,
    ) -> (
        Share<S, W, V, K, P, T, A>,
        Share<S, W, V, K, P, T, A>,
        Seat<S, W, V>,
    )
        requires shares { P.out bare.value.word ≡ 2 }
        requires holds { bare.value.holds ≡ 0 }
        requires rule { P.holds about.now (opening (bare.value.word ∷ []) (First bare.value.first ∷ Second bare.value.second ∷ []) (P.first about.now)) }
        ensures share { (result.0.key ≡ about.now) × (result.0.value ≡ bare.value.value) × (result.0.heap ≡ bare.heap) }
        ensures other { (result.1.id ≡ result.0.id) × (result.1.key ≡ about.now) × (result.1.value ≡ bare.value.value) × (result.1.heap ≡ bare.heap) }
        ensures seat { (result.2.block ≡ result.0.id) × (result.2.id ≡ 0) × (result.2.me ≡ (P.first about.now, [])) }
    {
        let (share, other, seat) = Share::begin(bare, about);
        (share, other.share(), seat)
    }
}
