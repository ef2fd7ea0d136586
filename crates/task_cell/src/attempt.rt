//! The steps on the word: one try of a change, tries until it is made, and the loads and fetches that a call makes whatever word it finds.
ghost use Rattle.std.specs.Prelude.{◌⊎◌, ◌≡◌, ◌<◌, not, IfOk, IfErr, Option, None, true, false, ◌-◌, ◌^◌, IfSome, IfNone, Bool, ◌==◌, ◌+◌, ◌%◌, [], bit_and, bit_or};
ghost use Rattle.task_core.specs.Word.{HasRoom, State};
ghost use Rattle.task_laws.specs.Asks.{is_held};
ghost use Rattle.task_steps.specs.Attempts.{Names, having_seen, MayTry, HasChanged, HasEnded, HasSeen, HasTried, HasFound, TriesOn, HasLooked, HasMissed, IsUndecided, IfMade, IfAgain, Decides};
ghost use Rattle.task_steps.specs.Knows.{Knows};
ghost use Rattle.counted_block.specs.Blocks.{BlockId};
ghost use Rattle.task_steps.specs.Shares.{MayBring};
ghost use Rattle.task_steps.specs.Values.{values_of};
ghost use Rattle.task_steps.specs.declared.table.Terms.{Terms};
ghost use Rattle.task_cell.specs.declared.cell.Cell.{Cell};
ghost use Rattle.task_cell.specs.Grips.{HasLeft, MayCount};
ghost use Rattle.task_steps.specs.Steps.{Makes};
ghost use Rattle.task_steps.specs.declared.table.Tries.{Tries};
ghost use Rattle.atomic_table.specs.Table.{step};
ghost use Rattle.task_cell.specs.Belongs.{IsOf, Leaves, LeavesBy, limit_in, values_in};
ghost use Rattle.task_cell.specs.Calls.{BringsShare, EndsShare, MayWrite, MayMake, MayGiveUp, MaySplit, deeds};
ghost use mathlib.Core.Option.{none};
ghost use prog.Atomic.{either};

use crate::cell::{MaybeShare, Party, Share};
use atomic_table::Split;
use counted_block::CountPlay;
use std::alloc::Allocator;
use std::sync::Wait;
use task_core::Yields;
use task_core::word::Word;
use task_steps::Knowing;
use task_steps::attempt::{Attempting, Change, Observing, TriedOnce};
use task_steps::script::{Giving, Script};
use task_steps::table::{Kept, TaskPlace, TaskSeat, Terms, View};

/// How an attempt has the share of its party: lent, so that the change may bring another one, or by value, so that it may give that one up.
pub(crate) trait Grip<R: Drop, F: Yields, Q: Drop, M: Drop, A: Drop, B: Allocator + Copy>: Sized {
    // The block of the share.
    ghost id: { Self → BlockId };
    // What its task was spawned with.
    ghost key: { Self → Terms F };
    // What all handles of the task see.
    ghost value: { Self → Cell R Q M B };
    // Whether the change may give the share up.
    ghost gives: { Bool };

    // The share, lent.
    fn lent(&self) -> &Share<R, F, Q, M, A, B>
        ensures { (result.now.block.id ≡ Self.id self.now) × (result.now.block.key ≡ Self.key self.now) × (result.now.block.value ≡ Self.value self.now) };

    // Tries a change once on this word, which the party has seen: by an exchange, or by a look at the word where the change cannot be made on this one.
    fn try_once<P: Change>(
        self,
        party: &mut Party<F, Kept<F>, A>,
        word: Word,
    ) -> TriedOnce<P::Row, MaybeShare<R, F, Q, M, A, B>, Self>
        requires cell { party.old.seat.block ≡ Self.id self }
        requires limit { (w : State) → P.attempt.ends party.old.seat.me.0.limit w ≡ P.attempt.ends (Self.key self).limit w }
        requires room { HasRoom word }
        requires seen { (t : Option Tries) × Names word t × (party.old.seat.me.0 ≡ having_seen t party.old.seat.me.0) }
        requires allowed { MayTry (values_of F.Yields (Self.key self).future.value) (Self.key self).limit 2 party.old.seat.id party.old.seat.me P.attempt }
        requires shares { MayCount Self.gives (values_of F.Yields (Self.key self).future.value) (Self.key self).limit party.old.seat.id party.old.seat.me P.attempt }
        ensures seat { (party.new.seat.block ≡ party.old.seat.block) × (party.new.seat.id ≡ party.old.seat.id) }
        ensures tried { HasTried (values_of F.Yields (Self.key self).future.value) (Self.key self).limit P.attempt result party.old.seat.me party.new.seat.me }
        ensures again { IfAgain result (λ w. TriesOn (Self.key self).limit P.attempt word w party.old.seat.me party.new.seat.me) }
        ensures share { IfMade result (λ row m. HasLeft Self.gives (Self.id self) (Self.key self) (Self.value self) m (P.attempt.counts row) (P.attempt.lasts row)) (λ k. (Self.id k ≡ Self.id self) × (Self.value k ≡ Self.value self) × (Self.key k ≡ Self.key self)) };

    // Tries a change from this word on, by at most this many tries: what it found, and what it left or brought, or the word on which it is to be tried again, with the grip. Then each try has found another word than it was tried on, unless the last word leaves the change undecided. So after a look, one try is enough where no other party writes. It cannot wait.
    #[inline(always)]
    final fn attempt_some<P: Change>(
        self,
        party: &mut Party<F, Kept<F>, A>,
        mut word: Word,
        tries: u64,
    ) -> TriedOnce<P::Row, MaybeShare<R, F, Q, M, A, B>, Self>
        requires cell { party.old.seat.block ≡ Self.id self }
        requires limit { (w : State) → P.attempt.ends party.old.seat.me.0.limit w ≡ P.attempt.ends (Self.key self).limit w }
        requires room { HasRoom word }
        requires seen { (t : Option Tries) × Names word t × (party.old.seat.me.0 ≡ having_seen t party.old.seat.me.0) }
        requires allowed { MayTry (values_of F.Yields (Self.key self).future.value) (Self.key self).limit 2 party.old.seat.id party.old.seat.me P.attempt }
        requires shares { MayCount Self.gives (values_of F.Yields (Self.key self).future.value) (Self.key self).limit party.old.seat.id party.old.seat.me P.attempt }
        ensures seat { (party.new.seat.block ≡ party.old.seat.block) × (party.new.seat.id ≡ party.old.seat.id) }
        ensures tried { HasTried (values_of F.Yields (Self.key self).future.value) (Self.key self).limit P.attempt result party.old.seat.me party.new.seat.me }
        ensures looked { IfAgain result (λ w. HasLooked tries party.old.seat.me party.new.seat.me ⊎ IsUndecided (Self.key self).limit P.attempt w) }
        ensures share { IfMade result (λ row m. HasLeft Self.gives (Self.id self) (Self.key self) (Self.value self) m (P.attempt.counts row) (P.attempt.lasts row)) (λ k. (Self.id k ≡ Self.id self) × (Self.value k ≡ Self.value self) × (Self.key k ≡ Self.key self)) }
    {
        let mut grip = self;
        for round in 0..tries {
            match grip.try_once::<P>(party, word) {
                TriedOnce::Made(row, maybe) => return TriedOnce::Made(row, maybe),
                TriedOnce::Ended(found, kept) => return TriedOnce::Ended(found, kept),
                TriedOnce::Again(found, kept) => {
                    if found.bits() == word.bits() {
                        return TriedOnce::Again(found, kept);
                    }
                    word = found;
                    grip = kept;
                }
            }
        }
        TriedOnce::Again(word, grip)
    }

    // The same from a look at the word on.
    #[inline(always)]
    final fn change_some<P: Change>(
        self,
        party: &mut Party<F, Kept<F>, A>,
        tries: u64,
    ) -> TriedOnce<P::Row, MaybeShare<R, F, Q, M, A, B>, Self>
        requires cell { party.old.seat.block ≡ Self.id self }
        requires limit { (w : State) → P.attempt.ends party.old.seat.me.0.limit w ≡ P.attempt.ends (Self.key self).limit w }
        requires quiet { party.old.seat.me.0 ≡ having_seen None party.old.seat.me.0 }
        requires allowed { MayTry (values_of F.Yields (Self.key self).future.value) (Self.key self).limit 2 party.old.seat.id party.old.seat.me P.attempt }
        requires shares { MayCount Self.gives (values_of F.Yields (Self.key self).future.value) (Self.key self).limit party.old.seat.id party.old.seat.me P.attempt }
        ensures cell { party.new.seat.block ≡ party.old.seat.block }
        ensures tried { HasTried (values_of F.Yields (Self.key self).future.value) (Self.key self).limit P.attempt result party.old.seat.me party.new.seat.me }
        ensures missed { IfAgain result (λ w. HasMissed tries party.new.seat.me ⊎ IsUndecided (Self.key self).limit P.attempt w) }
        ensures share { IfMade result (λ row m. HasLeft Self.gives (Self.id self) (Self.key self) (Self.value self) m (P.attempt.counts row) (P.attempt.lasts row)) (λ k. (Self.id k ≡ Self.id self) × (Self.value k ≡ Self.value self) × (Self.key k ≡ Self.key self)) }
    {
        match self.lent().observe::<P>(party) {
            Ok(word) => self.attempt_some::<P>(party, word, tries),
            Err(word) => TriedOnce::Ended(word, self),
        }
    }

    // Tries a change from this word on, until it is made: what it found, and what it left or brought. An `Err` is the word that ended the attempt, and the grip.
    #[cold]
    #[inline(never)]
    final fn attempt_again<P: Change, W: Wait + Copy>(
        self,
        rt: W,
        party: &mut Party<F, Kept<F>, A>,
        mut word: Word,
    ) -> Result<(P::Row, MaybeShare<R, F, Q, M, A, B>), (Word, Self)>
        requires cell { party.old.seat.block ≡ Self.id self }
        requires limit { (w : State) → P.attempt.ends party.old.seat.me.0.limit w ≡ P.attempt.ends (Self.key self).limit w }
        requires room { HasRoom word }
        requires seen { (t : Option Tries) × Names word t × (party.old.seat.me.0 ≡ having_seen t party.old.seat.me.0) }
        requires allowed { MayTry (values_of F.Yields (Self.key self).future.value) (Self.key self).limit 2 party.old.seat.id party.old.seat.me P.attempt }
        requires shares { MayCount Self.gives (values_of F.Yields (Self.key self).future.value) (Self.key self).limit party.old.seat.id party.old.seat.me P.attempt }
        ensures cell { party.new.seat.block ≡ party.old.seat.block }
        ensures changed { IfOk result (λ r. HasChanged (values_of F.Yields (Self.key self).future.value) (Self.key self).limit P.attempt r.0 party.old.seat.me party.new.seat.me) }
        ensures share { IfOk result (λ r. HasLeft Self.gives (Self.id self) (Self.key self) (Self.value self) r.1 (P.attempt.counts r.0) (P.attempt.lasts r.0)) }
        ensures ended { IfErr result (λ r. HasEnded (values_of F.Yields (Self.key self).future.value) (Self.key self).limit P.attempt r.0 party.old.seat.me party.new.seat.me) }
        ensures kept { IfErr result (λ r. (Self.id r.1 ≡ Self.id self) × (Self.value r.1 ≡ Self.value self) × (Self.key r.1 ≡ Self.key self)) }
    {
        let mut grip = self;
        for _ in rt.forever() {
            match grip.attempt_some::<P>(party, word, u64::MAX) {
                TriedOnce::Made(row, maybe) => return Ok((row, maybe)),
                TriedOnce::Ended(found, kept) => return Err((found, kept)),
                TriedOnce::Again(found, kept) => {
                    word = found;
                    grip = kept;
                }
            }
        }
        unreachable!()
    }

    // Tries a change as `attempt_again` does, once before the loop.
    #[inline(always)]
    final fn attempt_from<P: Change, W: Wait + Copy>(
        self,
        rt: W,
        party: &mut Party<F, Kept<F>, A>,
        word: Word,
    ) -> Result<(P::Row, MaybeShare<R, F, Q, M, A, B>), (Word, Self)>
        requires cell { party.old.seat.block ≡ Self.id self }
        requires limit { (w : State) → P.attempt.ends party.old.seat.me.0.limit w ≡ P.attempt.ends (Self.key self).limit w }
        requires room { HasRoom word }
        requires seen { (t : Option Tries) × Names word t × (party.old.seat.me.0 ≡ having_seen t party.old.seat.me.0) }
        requires allowed { MayTry (values_of F.Yields (Self.key self).future.value) (Self.key self).limit 2 party.old.seat.id party.old.seat.me P.attempt }
        requires shares { MayCount Self.gives (values_of F.Yields (Self.key self).future.value) (Self.key self).limit party.old.seat.id party.old.seat.me P.attempt }
        ensures cell { party.new.seat.block ≡ party.old.seat.block }
        ensures changed { IfOk result (λ r. HasChanged (values_of F.Yields (Self.key self).future.value) (Self.key self).limit P.attempt r.0 party.old.seat.me party.new.seat.me) }
        ensures share { IfOk result (λ r. HasLeft Self.gives (Self.id self) (Self.key self) (Self.value self) r.1 (P.attempt.counts r.0) (P.attempt.lasts r.0)) }
        ensures ended { IfErr result (λ r. HasEnded (values_of F.Yields (Self.key self).future.value) (Self.key self).limit P.attempt r.0 party.old.seat.me party.new.seat.me) }
        ensures kept { IfErr result (λ r. (Self.id r.1 ≡ Self.id self) × (Self.value r.1 ≡ Self.value self) × (Self.key r.1 ≡ Self.key self)) }
    {
        match self.try_once::<P>(party, word) {
            TriedOnce::Made(row, maybe) => Ok((row, maybe)),
            TriedOnce::Ended(found, kept) => Err((found, kept)),
            // The loop's answer comes by memory, so it is taken apart: the row of the first try then stays in a register.
            TriedOnce::Again(found, kept) => match kept.attempt_again::<P, W>(rt, party, found) {
                Ok((row, maybe)) => Ok((row, maybe)),
                Err((found, kept)) => Err((found, kept)),
            },
        }
    }

    // Tries a change from a look at the word on.
    #[inline(always)]
    final fn attempt<P: Change, W: Wait + Copy>(
        self,
        rt: W,
        party: &mut Party<F, Kept<F>, A>,
    ) -> Result<(P::Row, MaybeShare<R, F, Q, M, A, B>), (Word, Self)>
        requires cell { party.old.seat.block ≡ Self.id self }
        requires limit { (w : State) → P.attempt.ends party.old.seat.me.0.limit w ≡ P.attempt.ends (Self.key self).limit w }
        requires quiet { party.old.seat.me.0 ≡ having_seen None party.old.seat.me.0 }
        requires allowed { MayTry (values_of F.Yields (Self.key self).future.value) (Self.key self).limit 2 party.old.seat.id party.old.seat.me P.attempt }
        requires shares { MayCount Self.gives (values_of F.Yields (Self.key self).future.value) (Self.key self).limit party.old.seat.id party.old.seat.me P.attempt }
        ensures cell { party.new.seat.block ≡ party.old.seat.block }
        ensures changed { IfOk result (λ r. HasChanged (values_of F.Yields (Self.key self).future.value) (Self.key self).limit P.attempt r.0 party.old.seat.me party.new.seat.me) }
        ensures share { IfOk result (λ r. HasLeft Self.gives (Self.id self) (Self.key self) (Self.value self) r.1 (P.attempt.counts r.0) (P.attempt.lasts r.0)) }
        ensures ended { IfErr result (λ r. HasEnded (values_of F.Yields (Self.key self).future.value) (Self.key self).limit P.attempt r.0 party.old.seat.me party.new.seat.me) }
        ensures kept { IfErr result (λ r. (Self.id r.1 ≡ Self.id self) × (Self.value r.1 ≡ Self.value self) × (Self.key r.1 ≡ Self.key self)) }
    {
        match self.lent().observe::<P>(party) {
            Ok(word) => self.attempt_from::<P, W>(rt, party, word),
            Err(word) => Err((word, self)),
        }
    }
}

impl<'a, R: Drop, F: Yields, Q: Drop, M: Drop, A: Drop, B: Allocator + Copy> Grip<R, F, Q, M, A, B>
    for &'a Share<R, F, Q, M, A, B> {
    ghost id = { λ lent. lent.now.block.id };

    ghost key = { λ lent. lent.now.block.key };

    ghost value = { λ lent. lent.now.block.value };

    ghost gives = { false };

    fn lent(&self) -> &Share<R, F, Q, M, A, B> {
        *self
    }

    #[inline(always)]
    fn try_once<P: Change>(
        self,
        party: &mut Party<F, Kept<F>, A>,
        word: Word,
    ) -> TriedOnce<P::Row, MaybeShare<R, F, Q, M, A, B>, Self> {
        let Some(made) = P::next(word, self.cell().limit) else {
            return match self.observe::<P>(party) {
                Ok(found) => TriedOnce::Again(found, self),
                Err(found) => TriedOnce::Ended(found, self),
            };
        };
        let (found, maybe) = self.gain_at::<Attempting<P>>(
            &mut party.seat,
            word.bits(),
            made.0.bits(),
        );
        if found == word.bits() {
            return TriedOnce::Made(made.1, maybe);
        }
        maybe.none();
        TriedOnce::Again(Word::from_bits(found), self)
    }
}

impl<R: Drop, F: Yields, Q: Drop, M: Drop, A: Drop, B: Allocator + Copy> Grip<R, F, Q, M, A, B>
    for Share<R, F, Q, M, A, B> {
    ghost id = { λ share. share.block.id };

    ghost key = { λ share. share.block.key };

    ghost value = { λ share. share.block.value };

    ghost gives = { true };

    fn lent(&self) -> &Share<R, F, Q, M, A, B> {
        self
    }

    #[inline(always)]
    fn try_once<P: Change>(
        self,
        party: &mut Party<F, Kept<F>, A>,
        word: Word,
    ) -> TriedOnce<P::Row, MaybeShare<R, F, Q, M, A, B>, Self> {
        let Some(made) = P::next(word, self.cell().limit) else {
            return match self.observe::<P>(party) {
                Ok(found) => TriedOnce::Again(found, self),
                Err(found) => TriedOnce::Ended(found, self),
            };
        };
        let (found, maybe) = self.part_at::<Attempting<P>>(
            &mut party.seat,
            word.bits(),
            made.0.bits(),
        );
        if found == word.bits() {
            return TriedOnce::Made(made.1, maybe);
        }
        TriedOnce::Again(Word::from_bits(found), maybe.share())
    }
}

impl<R: Drop, F: Yields, Q: Drop, M: Drop, A: Drop, B: Allocator + Copy> Share<R, F, Q, M, A, B> {
    // Looks at the word, by a load, which shows a handle: the change is to be tried on it, or it is the error, and has ended the attempt.
    #[inline(always)]
    fn observe<P: Change>(&self, party: &mut Party<F, Kept<F>, A>) -> Result<Word, Word>
        requires cell { IsOf self.now party.old }
        requires limit { (w : State) → P.attempt.ends party.old.seat.me.0.limit w ≡ P.attempt.ends (limit_in self.now) w }
        requires seen { (t : Option Tries) × (party.old.seat.me.0 ≡ having_seen t party.old.seat.me.0) }
        requires allowed { MayTry (values_in self.now) (limit_in self.now) 2 party.old.seat.id party.old.seat.me P.attempt }
        ensures seat { (party.new.seat.block ≡ party.old.seat.block) × (party.new.seat.id ≡ party.old.seat.id) }
        ensures again { IfOk result (λ w. HasRoom w × HasSeen w party.old.seat.me party.new.seat.me) }
        ensures found { IfOk result (λ w. (P.attempt.ends (limit_in self.now) w ≡ false) × HasFound w party.old.seat.me party.new.seat.me) }
        ensures held { IfOk result (λ w. is_held w ≡ true) }
        ensures ended { IfErr result (λ w. HasEnded (values_in self.now) (limit_in self.now) P.attempt w party.old.seat.me party.new.seat.me) }
    {
        let word = Word::from_bits(self.block.load::<Observing<P>>(&mut party.seat));
        if P::is_end(word, self.cell().limit) {
            Err(word)
        } else {
            Ok(word)
        }
    }

    // Tries a change from a look at the word on: what it found, or the word that ended the attempt. `None` where each try has missed.
    #[inline(always)]
    pub(crate) fn alter_some<P: Change>(
        &self,
        party: &mut Party<F, Kept<F>, A>,
    ) -> Option<Result<P::Row, Word>>
        requires cell { IsOf self.now party.old }
        requires limit { (w : State) → P.attempt.ends party.old.seat.me.0.limit w ≡ P.attempt.ends (limit_in self.now) w }
        requires quiet { party.old.seat.me.0 ≡ having_seen None party.old.seat.me.0 }
        requires allowed { MayTry (values_in self.now) (limit_in self.now) 2 party.old.seat.id party.old.seat.me P.attempt }
        requires shares { MayBring (values_in self.now) (limit_in self.now) party.old.seat.id party.old.seat.me P.attempt }
        requires none { (row : P.Row) → P.attempt.counts row ≡ false }
        requires decided { Decides (limit_in self.now) P.attempt }
        ensures cell { IfSome result (λ found. party.new.seat.block ≡ party.old.seat.block) }
        ensures changed { IfSome result (λ found. IfOk found (λ row. HasChanged (values_in self.now) (limit_in self.now) P.attempt row party.old.seat.me party.new.seat.me)) }
        ensures ended { IfSome result (λ found. IfErr found (λ w. HasEnded (values_in self.now) (limit_in self.now) P.attempt w party.old.seat.me party.new.seat.me)) }
        ensures missed { IfNone result (HasMissed (2 ^ 64 - 1) party.new.seat.me) }
    {
        match self.change_some::<P>(party, u64::MAX) {
            TriedOnce::Made(row, maybe) => {
                maybe.none();
                Some(Ok(row))
            }
            TriedOnce::Ended(word, _) => Some(Err(word)),
            TriedOnce::Again(_, _) => None,
        }
    }

    // Makes a step by a load: the word that it found.
    pub(crate) fn load<S: Script>(&self, party: &mut Party<F, Kept<F>, A>) -> Word
        requires cell { IsOf self.now party.old }
        requires allowed { MayMake (values_in self.now) (limit_in self.now) S.acts (λ n. n) party.old }
        ensures cell { party.new.seat.block ≡ party.old.seat.block }
        ensures made { Makes (values_in self.now) (S.acts result) result party.old.seat.me party.new.seat.me }
        ensures knows { Knows (deeds party.old) result }
    {
        Word::from_bits(self.block.load::<Knowing<S>>(&mut party.seat))
    }

    // Exchanges the word by a seat of this cell, which goes on as `P` says: the number found, and the share, where `P` counts it.
    #[inline(always)]
    pub(crate) fn gain_at<P: CountPlay<TaskPlace<F, Kept<F>, A>, View, Terms<F>>>(
        &self,
        seat: &mut TaskSeat<F, Kept<F>, A>,
        old: u64,
        new: u64,
    ) -> (u64, MaybeShare<R, F, Q, M, A, B>)
        requires cell { seat.old.block ≡ self.now.block.id }
        requires allowed { MayWrite (values_in self.now) (limit_in self.now) seat.old.id seat.old.me (λ n. either (n == old) new n) (P.then self.now.block.key (step 2 0 old new none) seat.old.me) }
        requires shares { BringsShare (values_in self.now) (limit_in self.now) seat.old.id seat.old.me (λ n. either (n == old) new n) (P.counts (step 2 0 old new none)) }
        ensures seat { (seat.new.block ≡ seat.old.block) × (seat.new.id ≡ seat.old.id) × P.then self.now.block.key (step 2 0 old new none) seat.old.me result.0 seat.new.me }
        ensures share { Leaves self.now result.1 (P.counts (step 2 0 old new none) result.0) }
    {
        let (found, maybe) = self.block.gain::<P>(seat, old, new);
        (found, MaybeShare { maybe })
    }

    // The same of this share, which ends where `P` counts the number found; else it is left.
    #[inline(always)]
    pub(crate) fn part_at<P: CountPlay<TaskPlace<F, Kept<F>, A>, View, Terms<F>>>(
        self,
        seat: &mut TaskSeat<F, Kept<F>, A>,
        old: u64,
        new: u64,
    ) -> (u64, MaybeShare<R, F, Q, M, A, B>)
        requires cell { seat.old.block ≡ self.block.id }
        requires allowed { MayWrite (values_in self) (limit_in self) seat.old.id seat.old.me (λ n. either (n == old) new n) (P.then self.block.key (step 2 0 old new none) seat.old.me) }
        requires shares { EndsShare (values_in self) (limit_in self) seat.old.id seat.old.me (λ n. either (n == old) new n) (P.counts (step 2 0 old new none)) (P.lasts (step 2 0 old new none)) }
        ensures seat { (seat.new.block ≡ seat.old.block) × (seat.new.id ≡ seat.old.id) × P.then self.block.key (step 2 0 old new none) seat.old.me result.0 seat.new.me }
        ensures share { LeavesBy self result.1 (not (P.counts (step 2 0 old new none) result.0)) (P.lasts (step 2 0 old new none) result.0) }
    {
        let Share { block } = self;
        let (found, maybe) = block.part_exchange::<P>(seat, old, new);
        (found, MaybeShare { maybe })
    }

    // Makes a step by a fetch that keeps these bits alone: the word that it found.
    pub(crate) fn fetch_and<S: Script>(&self, party: &mut Party<F, Kept<F>, A>, bits: u64) -> Word
        requires cell { IsOf self.now party.old }
        requires allowed { MayMake (values_in self.now) (limit_in self.now) S.acts (λ n. bit_and n bits) party.old }
        ensures cell { party.new.seat.block ≡ party.old.seat.block }
        ensures made { Makes (values_in self.now) (S.acts result) result party.old.seat.me party.new.seat.me }
        ensures knows { Knows (deeds party.old) result }
    {
        Word::from_bits(self.block.fetch_and::<Knowing<S>>(&mut party.seat, bits))
    }

    // Makes a step by a fetch that sets these bits: the word that it found.
    pub(crate) fn fetch_or<S: Script>(&self, party: &mut Party<F, Kept<F>, A>, bits: u64) -> Word
        requires cell { IsOf self.now party.old }
        requires allowed { MayMake (values_in self.now) (limit_in self.now) S.acts (λ n. bit_or n bits) party.old }
        ensures cell { party.new.seat.block ≡ party.old.seat.block }
        ensures made { Makes (values_in self.now) (S.acts result) result party.old.seat.me party.new.seat.me }
        ensures knows { Knows (deeds party.old) result }
    {
        Word::from_bits(self.block.fetch_or::<Knowing<S>>(&mut party.seat, bits))
    }

    // The part of the party's view that `S` takes off: it gets a party of its own.
    #[inline(always)]
    pub(crate) fn split<S: Split<View>>(
        &self,
        party: &mut Party<F, Kept<F>, A>,
    ) -> Party<F, Kept<F>, A>
        requires cell { IsOf self.now party.old }
        requires allowed { MaySplit (values_in self.now) (limit_in self.now) S.left S.right party.old }
        ensures cell { (party.new.seat.block ≡ party.old.seat.block) × (result.seat.block ≡ party.old.seat.block) }
        ensures left { party.new.seat.me ≡ (S.left party.old.seat.me.0, party.old.seat.me.1) }
        ensures right { result.seat.me ≡ (S.right party.old.seat.me.0, []) }
    {
        let seat = self.block.split_seat::<S>(&mut party.seat);
        Party { seat }
    }

    // Makes a step that gives a handle up, by a fetch that takes `k` off, 256 for a reference and 16 for the Task: the word that it found, and the last share, where that was the last one.
    pub(crate) fn give<S: Giving>(
        self,
        party: &mut Party<F, Kept<F>, A>,
        k: u64,
    ) -> (Word, MaybeShare<R, F, Q, M, A, B>)
        requires cell { IsOf self party.old }
        requires allowed { MayGiveUp (values_in self) (limit_in self) S.acts S.gives (λ n. (n + (2 ^ 64 - k)) % 2 ^ 64) party.old }
        ensures cell { party.new.seat.block ≡ party.old.seat.block }
        ensures made { Makes (values_in self) (S.acts result.0) result.0 party.old.seat.me party.new.seat.me }
        ensures knows { Knows (deeds party.old) result.0 }
        ensures share { LeavesBy self result.1 false (not (S.gives result.0)) }
    {
        let Share { block } = self;
        let (found, maybe) = block.part::<Knowing<S>>(&mut party.seat, k);
        (Word::from_bits(found), MaybeShare { maybe })
    }
}

impl<R: Wait + Drop + Copy, F: Yields, Q: Drop, M: Drop, A: Drop, B: Allocator + Copy> Share<
    R,
    F,
    Q,
    M,
    A,
    B,
> {
    // Tries a change that brings no share, from a look at the word on.
    #[inline(always)]
    pub(crate) fn change<P: Change>(&self, party: &mut Party<F, Kept<F>, A>) -> Result<P::Row, Word>
        requires cell { IsOf self.now party.old }
        requires limit { (w : State) → P.attempt.ends party.old.seat.me.0.limit w ≡ P.attempt.ends (limit_in self.now) w }
        requires quiet { party.old.seat.me.0 ≡ having_seen None party.old.seat.me.0 }
        requires allowed { MayTry (values_in self.now) (limit_in self.now) 2 party.old.seat.id party.old.seat.me P.attempt }
        requires shares { MayBring (values_in self.now) (limit_in self.now) party.old.seat.id party.old.seat.me P.attempt }
        requires none { (row : P.Row) → P.attempt.counts row ≡ false }
        ensures cell { party.new.seat.block ≡ party.old.seat.block }
        ensures changed { IfOk result (λ row. HasChanged (values_in self.now) (limit_in self.now) P.attempt row party.old.seat.me party.new.seat.me) }
        ensures ended { IfErr result (λ w. HasEnded (values_in self.now) (limit_in self.now) P.attempt w party.old.seat.me party.new.seat.me) }
    {
        match self.attempt::<P, R>(self.cell().rt, party) {
            Ok((row, maybe)) => {
                maybe.none();
                Ok(row)
            }
            Err((word, _)) => Err(word),
        }
    }
}
