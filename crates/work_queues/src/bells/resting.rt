//! The search of a worker that found nothing, and its sleep.
ghost use Rattle.std.specs.Prelude.{◌≡◌, ◌+◌, ◌*◌, ◌<◌, ◌⊎◌, [], true, false, IfSome, MatchResult};
ghost use Rattle.work_queues.specs.Duties.{IsClaim, IsAsleep, SawEach};
ghost use Rattle.work_queues.specs.Sleep.{owing, sleeps, worker_word, this, asleep};

use super::{
    ASLEEP, AWAKE, Bells, Claim, Look, MOST_SLEEPERS, NoneSince, Parked, Place, Search, Seat,
    Sleeper,
};
use crate::limit::Limit;
use crate::watch::{BeginSearch, Count, CountNot, EndSearch, GetUp, LieDown};
use std::sync::Wait;

impl Bells {
    /// Begins a search, for what it owes as well. `Err` has looks that it owes, where a worker searches already.
    pub fn begin_search(&self, owed: Option<Look>) -> Result<Search, Look>
        requires { IfSome owed (λ look. look.place.seat.table_id ≡ self.now.table.shared.table_id) }
        ensures { MatchResult result (λ search. search.place.seat.table_id ≡ self.now.table.shared.table_id) (λ look. look.place.seat.table_id ≡ self.now.table.shared.table_id) }
    {
        let Look { mut place } = self.look_of(owed);
        let word = self.searcher_word();
        let shared = &self.table.shared;
        if shared.peek(word) != 0 {
            return Err(Look { place });
        }
        if shared.compare_exchange::<BeginSearch>(&mut place.seat, word, 0, 1) != 0 {
            return Err(Look { place });
        }
        Ok(Search { place })
    }

    /// Ends the search. What was pushed meanwhile woke nobody, so a look is owed.
    pub fn end_search(&self, search: Search) -> Look
        requires { search.place.seat.table_id ≡ self.now.table.shared.table_id }
        ensures { result.place.seat.table_id ≡ self.now.table.shared.table_id }
    {
        let Search { mut place } = search;
        let word = self.searcher_word();
        self.table
            .shared
            .store::<EndSearch>(&mut place.seat, word, 0);
        Look { place }
    }

    // Counts the worker as a sleeper. False where no more are counted.
    fn count<R: Wait>(&self, rt: &R, seat: &mut Seat) -> bool
        requires { (seat.old.table_id ≡ self.now.table.shared.table_id) × (seat.old.me.0.asleep ≡ 0) }
        ensures id { seat.new.table_id ≡ seat.old.table_id }
        ensures counted { result ≡ true → seat.new.me ≡ (sleeps seat.old.me.0 1, seat.old.me.1) }
        ensures refused { result ≡ false → seat.new.me ≡ seat.old.me }
    {
        let word = self.sleepers_word();
        let shared = &self.table.shared;
        for _ in rt.forever() {
            let seen = shared.peek(word);
            if seen >= MOST_SLEEPERS {
                return false;
            }
            if shared.compare_exchange::<Count>(seat, word, seen, seen + 1) == seen {
                return true;
            }
        }
        unreachable!()
    }

    /// How many workers count as sleepers. Nothing is claimed of a number that is over.
    pub fn sleepers(&self) -> u64 {
        self.table.shared.peek(self.sleepers_word())
    }

    /// The worker of this claim is asleep from here on, and looks at each flag before it sleeps: `sees_something`. `Err` where an interruption was meant for it, which it has heard.
    pub fn lie_down<R: Wait>(
        &self,
        rt: &R,
        owed: Option<Look>,
        claim: &Claim,
    ) -> Result<Sleeper, Look>
        requires owed { IfSome owed (λ look. look.place.seat.table_id ≡ self.now.table.shared.table_id) }
        requires claim { IsClaim self.now claim.now }
        ensures { MatchResult result (λ sleeper. IsAsleep self.now sleeper × (sleeper.worker ≡ claim.now.number) × (sleeper.place.seat.me ≡ (owing sleeper.place.seat.me.0, sleeper.place.seat.me.1))) (λ look. look.place.seat.table_id ≡ self.now.table.shared.table_id) }
    {
        let Look { mut place } = self.look_of(owed);
        if !self.count(rt, &mut place.seat) {
            return Err(Look { place });
        }
        let worker = claim.number;
        let word = self.worker_word(worker);
        let shared = &self.table.shared;
        if shared.compare_exchange::<LieDown>(&mut place.seat, word, AWAKE, ASLEEP) == AWAKE {
            return Ok(Sleeper { worker, place });
        }
        Err(self.rise(place, worker))
    }

    // The worker that this seat put to sleep, or found interrupted, is awake, and counts as no sleeper. It looks once more.
    fn rise(&self, mut place: Place, worker: usize) -> Look
        requires at { (place.seat.table_id ≡ self.now.table.shared.table_id) × (worker < self.now.workers) }
        requires seat { (place.seat.me.1 ≡ []) × (place.seat.me.0.right ≡ 0) × (place.seat.me.0.value ≡ 0) × (place.seat.me.0.searching ≡ 0) × (place.seat.me.0.interruption ≡ 0) × (place.seat.me.0.interrupted ≡ 0) }
        requires asleep { (place.seat.me.0.asleep ≡ this (worker_word self.now.workers worker)) ⊎ (place.seat.me.0.asleep ≡ this (worker_word self.now.workers worker) + 1) }
        ensures { result.place.seat.table_id ≡ self.now.table.shared.table_id }
    {
        let word = self.worker_word(worker);
        self.table
            .shared
            .swap::<GetUp>(&mut place.seat, word, AWAKE);
        let word = self.sleepers_word();
        self.table
            .shared
            .fetch_sub::<CountNot>(&mut place.seat, word, 1);
        Look { place }
    }

    /// Looks at each flag, until one shows something.
    pub fn sees_something(&self, sleeper: &mut Sleeper) -> bool
        requires { IsAsleep self.now sleeper.old × (sleeper.old.place.seat.me ≡ (owing sleeper.old.place.seat.me.0, sleeper.old.place.seat.me.1)) }
        ensures same { IsAsleep self.now sleeper.new }
        ensures worker { sleeper.new.worker ≡ sleeper.old.worker }
        ensures none { result ≡ false → SawEach self.now sleeper.new }
    {
        self.sees_flag(&mut sleeper.place.seat)
    }

    /// Sleeps until the worker is woken, or until the limit. Only a worker that owes no look may call it, and found the interruptions as it had counted them. It may also return for no reason: what the kernel does, no clause says.
    pub fn sleep<R: Wait, L: Limit>(
        &self,
        rt: &R,
        sleeper: &Sleeper,
        _none: &NoneSince,
        limit: &L,
    ) -> Parked
        requires { IsAsleep self.now sleeper.now × (sleeper.now.place.seat.me.0.owes ≡ 0) }
        ensures at { (result.word ≡ worker_word self.now.workers sleeper.now.worker) × (result.value ≡ asleep) }
        ensures most { L.lasts limit.now result.most }
    {
        let word = self.worker_word(sleeper.worker);
        self.park(rt, word, ASLEEP as u32, limit.left())
    }

    /// Ends the sleep: the worker is awake, and looks once more.
    pub fn get_up(&self, sleeper: Sleeper) -> Look
        requires { IsAsleep self.now sleeper }
        ensures { result.place.seat.table_id ≡ self.now.table.shared.table_id }
    {
        let Sleeper { worker, place } = sleeper;
        self.rise(place, worker)
    }
}
