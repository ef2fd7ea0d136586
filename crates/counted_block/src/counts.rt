// The steps that change how many shares are out.
ghost use Rattle.std.specs.Prelude.{◌≡◌, ◌==◌, ◌+◌, ◌-◌, ◌%◌, ◌^◌, ◌<◌, false};
ghost use mathlib.Core.Bool.{not};
ghost use mathlib.Core.Option.{none};
ghost use prog.Atomic.{either};
ghost use Rattle.atomic_table.specs.Table.{step, Allows};
ghost use Rattle.counted_block.specs.Counts.{More, Less};

use crate::place::Place;
use crate::rule::{BlockRule, CountPlay};
use crate::seat::Seat;
use crate::share::{MaybeShare, Share};
use atomic_table::exchange;
use std::alloc::Allocator;
use std::marker::{Brand, PhantomData};
use std::sync::atomic::Ordering::SeqCst;
use std::sync::atomic::raw;

impl<S, W, V, K, P: BlockRule<S, W, V, K>, T, A: Allocator> Share<S, W, V, K, P, T, A> {
    /// Exchanges the word, and makes one share more where the number found is one that `M` `counts`. Answers that number, and the share if there is one.
    ///
    /// `seat` steps. The word becomes `new` if it was `old`. The rule has to show that there is one share more exactly where `M` says so, and fewer than 2^62 in all.
    pub fn gain<M: CountPlay<Place<S, W>, V, K>>(
        &self,
        seat: &mut Seat<S, W, V>,
        old: u64,
        new: u64,
    ) -> (u64, MaybeShare<S, W, V, K, P, T, A>)
        requires block { seat.old.block ≡ self.now.id }
        requires allowed { Allows (P.holds self.now.key) 2 seat.old.id seat.old.me 0 (λ n. either (n == old) new n) (M.then self.now.key (step 2 0 old new none) seat.old.me) }
        requires shares { More (P.holds self.now.key) P.out seat.old.id seat.old.me.0 (λ n. either (n == old) new n) (M.counts (step 2 0 old new none)) }
        ensures seat { (seat.new.block ≡ seat.old.block) × (seat.new.id ≡ seat.old.id) × M.then self.now.key (step 2 0 old new none) seat.old.me result.0 seat.new.me }
        ensures share { (result.1.id ≡ self.now.id) × (result.1.key ≡ self.now.key) × (result.1.value ≡ self.now.value) × (result.1.heap ≡ self.now.heap) × (result.1.there ≡ M.counts (step 2 0 old new none) result.0) × (result.1.last ≡ false) }
        ensures live { 0 < P.out result.0 }
    {
        let found = unsafe { exchange::<Brand>(&raw const (*self.at).word, old, new) };
        let maybe = MaybeShare {
            at: self.at,
            marker: PhantomData,
        };
        (found, maybe)
    }

    /// Takes `k` from the word, and ends this share where the number found is one that `M` `counts`. Answers that number, and what is left of the share.
    ///
    /// `seat` steps. Where none is out then, as `M` says by `lasts`, the last share is left.
    pub fn part<M: CountPlay<Place<S, W>, V, K>>(
        self,
        seat: &mut Seat<S, W, V>,
        k: u64,
    ) -> (u64, MaybeShare<S, W, V, K, P, T, A>)
        requires block { seat.old.block ≡ self.id }
        requires allowed { Allows (P.holds self.key) 2 seat.old.id seat.old.me 0 (λ n. (n + (2 ^ 64 - k)) % 2 ^ 64) (M.then self.key (step 2 0 k 0 none) seat.old.me) }
        requires shares { Less (P.holds self.key) P.out seat.old.id seat.old.me.0 (λ n. (n + (2 ^ 64 - k)) % 2 ^ 64) (M.counts (step 2 0 k 0 none)) (M.lasts (step 2 0 k 0 none)) }
        ensures seat { (seat.new.block ≡ seat.old.block) × (seat.new.id ≡ seat.old.id) × M.then self.key (step 2 0 k 0 none) seat.old.me result.0 seat.new.me }
        ensures share { (result.1.id ≡ self.id) × (result.1.key ≡ self.key) × (result.1.value ≡ self.value) × (result.1.heap ≡ self.heap) × (result.1.there ≡ not (M.counts (step 2 0 k 0 none) result.0)) × (result.1.last ≡ M.lasts (step 2 0 k 0 none) result.0) }
        ensures live { 0 < P.out result.0 }
    {
        let Share { at, marker: _ } = self;
        let found = unsafe { raw::fetch_sub::<Brand>(&raw const (*at).word, k, SeqCst) };
        let maybe = MaybeShare {
            at,
            marker: PhantomData,
        };
        (found, maybe)
    }

    /// Exchanges the word, and ends this share where the number found is one that `M` `counts`. Answers that number, and what is left of the share.
    ///
    /// `seat` steps. The word becomes `new` if it was `old`. Where none is out then, as `M` says by `lasts`, the last share is left.
    pub fn part_exchange<M: CountPlay<Place<S, W>, V, K>>(
        self,
        seat: &mut Seat<S, W, V>,
        old: u64,
        new: u64,
    ) -> (u64, MaybeShare<S, W, V, K, P, T, A>)
        requires block { seat.old.block ≡ self.id }
        requires allowed { Allows (P.holds self.key) 2 seat.old.id seat.old.me 0 (λ n. either (n == old) new n) (M.then self.key (step 2 0 old new none) seat.old.me) }
        requires shares { Less (P.holds self.key) P.out seat.old.id seat.old.me.0 (λ n. either (n == old) new n) (M.counts (step 2 0 old new none)) (M.lasts (step 2 0 old new none)) }
        ensures seat { (seat.new.block ≡ seat.old.block) × (seat.new.id ≡ seat.old.id) × M.then self.key (step 2 0 old new none) seat.old.me result.0 seat.new.me }
        ensures share { (result.1.id ≡ self.id) × (result.1.key ≡ self.key) × (result.1.value ≡ self.value) × (result.1.heap ≡ self.heap) × (result.1.there ≡ not (M.counts (step 2 0 old new none) result.0)) × (result.1.last ≡ M.lasts (step 2 0 old new none) result.0) }
        ensures live { 0 < P.out result.0 }
    {
        let Share { at, marker: _ } = self;
        let found = unsafe { exchange::<Brand>(&raw const (*at).word, old, new) };
        let maybe = MaybeShare {
            at,
            marker: PhantomData,
        };
        (found, maybe)
    }
}
