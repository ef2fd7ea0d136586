//! The looks that follow a flag, an interruption or the end of a search: for a worker that sleeps, and at the flags.
ghost use Rattle.std.specs.Prelude.{◌≡◌, ◌+◌, ◌<◌, ℕ, ◌*◌, true, false, IfSome};
ghost use Rattle.work_queues.specs.Sleep.{owing, paid, left_of, sees};

use super::{Bells, Look, Place, SHOWN, Seat, Woken, leave};
use crate::watch::{EnterOwing, LookAtFlag, LookForSearcher, LookForSleepers, Settle};

impl Bells {
    // Whether a worker sleeps and none searches: then all is owed. Else nothing is.
    fn is_wake_due(&self, seat: &mut Seat) -> bool
        requires { seat.old.table_id ≡ self.now.table.shared.table_id }
        ensures id { seat.new.table_id ≡ seat.old.table_id }
        ensures due { result ≡ true → seat.new.me ≡ (owing seat.old.me.0, seat.old.me.1) }
        ensures paid { result ≡ false → seat.new.me ≡ (paid seat.old.me.0, seat.old.me.1) }
    {
        let sleepers = self.sleepers_word();
        if self.table.shared.load::<LookForSleepers>(seat, sleepers) == 0 {
            return false;
        }
        let searcher = self.searcher_word();
        self.table.shared.load::<LookForSearcher>(seat, searcher) == 0
    }

    // Wakes a worker, if one sleeps and none searches. After it no look is owed.
    pub(super) fn wake_first(&self, seat: &mut Seat) -> Option<Woken>
        requires { seat.old.table_id ≡ self.now.table.shared.table_id }
        ensures id { seat.new.table_id ≡ seat.old.table_id }
        ensures paid { seat.new.me ≡ (paid seat.old.me.0, seat.old.me.1) }
        ensures woken { IfSome result (λ woken. woken.worker < self.now.workers) }
    {
        if !self.is_wake_due(seat) {
            return None;
        }
        for worker in 0..self.workers {
            if let Some(woken) = self.wake(seat, worker) {
                return Some(woken);
            }
        }
        let word = self.sleepers_word();
        self.table.shared.load::<Settle>(seat, word);
        None
    }

    // Looks at each flag, until one shows something. Else no look is owed, since it has seen all.
    pub(super) fn sees_flag(&self, seat: &mut Seat) -> bool
        requires { (seat.old.table_id ≡ self.now.table.shared.table_id) × (seat.old.me ≡ (owing seat.old.me.0, seat.old.me.1)) }
        ensures id { seat.new.table_id ≡ seat.old.table_id }
        ensures some { result ≡ true → (seen : ℕ) × (seat.new.me ≡ (left_of seat.old.me.0 seen 0, seat.old.me.1)) }
        ensures none { result ≡ false → seat.new.me ≡ (sees (paid seat.old.me.0) (self.now.workers + 2), seat.old.me.1) }
    {
        for flag in 0..self.workers + 2 {
            let word = self.flag_word(flag);
            if self.table.shared.load::<LookAtFlag>(seat, word) == SHOWN {
                return true;
            }
        }
        let word = self.sleepers_word();
        self.table.shared.load::<Settle>(seat, word);
        false
    }

    /// Ends looks that are owed: where a flag shows something, a worker is woken, if one sleeps and none searches.
    pub fn pay(&self, look: Look) -> Option<Woken>
        requires { look.place.seat.table_id ≡ self.now.table.shared.table_id }
        ensures { IfSome result (λ woken. woken.worker < self.now.workers) }
    {
        let Look { mut place } = look;
        let is_due = self.is_wake_due(&mut place.seat) && self.sees_flag(&mut place.seat);
        let woken = if is_due {
            self.wake_first(&mut place.seat)
        } else {
            None
        };
        leave(place);
        woken
    }

    /// Ends looks that are owed, and wakes the thread of the worker that is woken. No clause says so: a `Look` ends only in `pay`, and a `Woken` in `ring`.
    pub fn settle(&self, look: Look)
        requires { look.place.seat.table_id ≡ self.now.table.shared.table_id }
    {
        if let Some(woken) = self.pay(look) {
            self.ring(woken);
        }
    }

    // The looks that are owed, or looks that nobody has asked for.
    pub(super) fn look_of(&self, owed: Option<Look>) -> Look
        requires { IfSome owed (λ look. look.place.seat.table_id ≡ self.now.table.shared.table_id) }
        ensures { result.place.seat.table_id ≡ self.now.table.shared.table_id }
    {
        if let Some(look) = owed {
            return look;
        }
        let word = self.sleepers_word();
        let (_, seat) = self.table.shared.load_new_seat::<EnterOwing>(word);
        let place = Place { seat };
        Look { place }
    }
}
