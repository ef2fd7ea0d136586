// The steps that leave as many shares out as there were. Each asks for `Same` beside what the table's rule asks for, and tells that the number found is one at which a share is out.
ghost use Rattle.std.specs.Prelude.{◌≡◌, ◌<◌, [], bit_and, bit_or};
ghost use mathlib.Core.Option.{none};
ghost use Rattle.atomic_table.specs.Table.{step, Allows, Enters, Splits};
ghost use Rattle.counted_block.specs.Counts.{Same};

use crate::place::Place;
use crate::rule::{BlockPlay, BlockRule};
use crate::seat::Seat;
use crate::share::Share;
use atomic_table::Split;
use std::alloc::Allocator;
use std::marker::{Brand, PhantomData};
use std::sync::atomic::Ordering::SeqCst;
use std::sync::atomic::raw;

impl<S, W, V, K, P: BlockRule<S, W, V, K>, T, A: Allocator> Share<S, W, V, K, P, T, A> {
    /// Loads the word with no seat. So it tells nothing, and serves as the first guess of a compare-exchange.
    pub fn peek(&self) -> u64 {
        unsafe { raw::load::<Brand>(&raw const (*self.at).word, SeqCst) }
    }

    /// Loads the word. `seat` may learn from the number, and may take or give a slot.
    pub fn load<M: BlockPlay<Place<S, W>, V, K>>(&self, seat: &mut Seat<S, W, V>) -> u64
        requires block { seat.old.block ≡ self.now.id }
        requires allowed { Allows (P.holds self.now.key) 2 seat.old.id seat.old.me 0 (λ n. n) (M.then self.now.key (step 2 0 0 0 none) seat.old.me) }
        requires shares { Same (P.holds self.now.key) P.out seat.old.id seat.old.me.0 (λ n. n) }
        ensures seat { (seat.new.block ≡ seat.old.block) × (seat.new.id ≡ seat.old.id) × M.then self.now.key (step 2 0 0 0 none) seat.old.me result seat.new.me }
        ensures live { 0 < P.out result }
    {
        unsafe { raw::load::<Brand>(&raw const (*self.at).word, SeqCst) }
    }

    /// Loads the word, and makes a new seat, whose view the rule has to allow whatever the number is.
    pub fn load_new_seat<M: BlockPlay<Place<S, W>, V, K>>(&self) -> (u64, Seat<S, W, V>)
        requires allowed { Enters (P.holds self.now.key) 2 0 (λ n w. M.then self.now.key (step 2 0 0 0 none) (P.first self.now.key, []) n (w, [])) }
        ensures seat { (result.1.block ≡ self.now.id) × (result.1.me.1 ≡ []) × M.then self.now.key (step 2 0 0 0 none) (P.first self.now.key, []) result.0 result.1.me }
        ensures live { 0 < P.out result.0 }
    {
        let found = unsafe { raw::load::<Brand>(&raw const (*self.at).word, SeqCst) };
        (
            found,
            Seat {
                marker: PhantomData,
            },
        )
    }

    /// Cuts the view of `seat` in two, as `M` says, and makes a new seat of the second part. The slots stay with the first. It is no step of the machine.
    pub fn split_seat<M: Split<V>>(&self, seat: &mut Seat<S, W, V>) -> Seat<S, W, V>
        requires block { seat.old.block ≡ self.now.id }
        requires allowed { Splits (P.holds self.now.key) seat.old.id seat.old.me.0 (M.left seat.old.me.0) (M.right seat.old.me.0) }
        ensures { (seat.new.block ≡ seat.old.block) × (seat.new.id ≡ seat.old.id) × (seat.new.me ≡ (M.left seat.old.me.0, seat.old.me.1)) × (result.block ≡ seat.old.block) × (result.me ≡ (M.right seat.old.me.0, [])) }
    {
        Seat {
            marker: PhantomData,
        }
    }

    /// Keeps the bits of `k` in the word. Answers the word as it was.
    pub fn fetch_and<M: BlockPlay<Place<S, W>, V, K>>(
        &self,
        seat: &mut Seat<S, W, V>,
        k: u64,
    ) -> u64
        requires block { seat.old.block ≡ self.now.id }
        requires allowed { Allows (P.holds self.now.key) 2 seat.old.id seat.old.me 0 (λ n. bit_and n k) (M.then self.now.key (step 2 0 k 0 none) seat.old.me) }
        requires shares { Same (P.holds self.now.key) P.out seat.old.id seat.old.me.0 (λ n. bit_and n k) }
        ensures seat { (seat.new.block ≡ seat.old.block) × (seat.new.id ≡ seat.old.id) × M.then self.now.key (step 2 0 k 0 none) seat.old.me result seat.new.me }
        ensures live { 0 < P.out result }
    {
        unsafe { raw::fetch_and::<Brand>(&raw const (*self.at).word, k, SeqCst) }
    }

    /// Sets the bits of `k` in the word. Answers the word as it was.
    pub fn fetch_or<M: BlockPlay<Place<S, W>, V, K>>(&self, seat: &mut Seat<S, W, V>, k: u64) -> u64
        requires block { seat.old.block ≡ self.now.id }
        requires allowed { Allows (P.holds self.now.key) 2 seat.old.id seat.old.me 0 (λ n. bit_or n k) (M.then self.now.key (step 2 0 k 0 none) seat.old.me) }
        requires shares { Same (P.holds self.now.key) P.out seat.old.id seat.old.me.0 (λ n. bit_or n k) }
        ensures seat { (seat.new.block ≡ seat.old.block) × (seat.new.id ≡ seat.old.id) × M.then self.now.key (step 2 0 k 0 none) seat.old.me result seat.new.me }
        ensures live { 0 < P.out result }
    {
        unsafe { raw::fetch_or::<Brand>(&raw const (*self.at).word, k, SeqCst) }
    }
}
