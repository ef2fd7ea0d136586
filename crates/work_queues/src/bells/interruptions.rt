//! Interruptions: a worker looks once more, though no queue shows an item.
ghost use Rattle.std.specs.Prelude.{◌≡◌, ◌<◌, ◌≤◌, ◌+◌, ◌↔◌, IfSome, IsNone, MatchResult};
ghost use Rattle.work_queues.specs.Duties.{IsClaim, IsInterrupted, WasDue, WasNotDue};

use super::{
    ASLEEP, AWAKE, AllInterrupted, Bells, Claim, Due, HIDDEN, Heard, INTERRUPTED, NotDue, Place,
    SHOWN, Seat, Woken,
};
use crate::watch::{Hear, Interrupt, LookWhetherDue, Permit};
use std::sync::atomic::Ordering;

/// A worker was interrupted: at an instant of the call that answers this it was not asleep, and looks once more.
#[derive(Drop)]
pub struct Interrupted {
    worker: usize,
    seat: Seat,
    counted: Counted,
}

// One more interruption was counted. Only `count_one` makes one.
#[derive(Drop)]
struct Counted(());

/// At an instant of the call that answers this, as many interruptions were counted as this.
#[derive(Drop)]
pub struct NoneSince {
    interruptions: u64,
}

impl Bells {
    // Has this worker look once more, and answers it if it slept.
    fn permit(&self, worker: usize, counted: Counted) -> (Interrupted, Option<Woken>)
        requires { worker < self.now.workers }
        ensures interrupted { IsInterrupted self.now worker result.0 }
        ensures woken { IfSome result.1 (λ woken. woken.worker ≡ worker) }
    {
        let Place { mut seat } = self.enter();
        let word = self.worker_word(worker);
        let shared = &self.table.shared;
        let found = shared.compare_exchange::<Permit>(&mut seat, word, AWAKE, INTERRUPTED);
        let woken = if found == ASLEEP {
            self.rouse(&mut seat, worker)
        } else {
            None
        };
        let interrupted = Interrupted {
            worker,
            seat,
            counted,
        };
        (interrupted, woken)
    }

    /// Has one worker look once more for what is to be done, though no queue has anything: a sleeping one, if one sleeps. The interruption is due until a worker hears it.
    pub fn interrupt(&self) -> Due
        ensures { WasDue self.now result }
    {
        let word = self.flag_word(self.workers + 1);
        let shared = &self.table.shared;
        let Place { mut seat } = self.enter();
        // Where one is due already, the worker that hears it looks after this one, too.
        if shared.load::<LookWhetherDue>(&mut seat, word) != SHOWN {
            self.count_one();
            shared.store::<Interrupt>(&mut seat, word, SHOWN);
            if let Some(woken) = self.wake_first(&mut seat) {
                self.ring(woken);
            }
        }
        Due { seat }
    }

    /// Whether an interruption is due that no worker has heard. Nothing is claimed of a look that is over.
    pub fn is_due(&self) -> bool {
        self.table.shared.peek(self.flag_word(self.workers + 1)) == SHOWN
    }

    /// Has the worker of this number look once more. `None` where there is none.
    pub fn interrupt_worker(&self, worker: usize) -> Option<Interrupted>
        ensures interrupted { IfSome result (λ interrupted. IsInterrupted self.now worker interrupted) }
        ensures none { IsNone result ↔ (self.now.workers ≤ worker) }
    {
        let counted = self.count_one();
        if worker >= self.workers {
            return None;
        }
        let (interrupted, woken) = self.permit(worker, counted);
        if let Some(woken) = woken {
            self.ring(woken);
        }
        Some(interrupted)
    }

    // The next worker was interrupted, too.
    fn add(&self, all: AllInterrupted, interrupted: Interrupted) -> AllInterrupted
        requires { IsInterrupted self.now all.next interrupted × (all.next < self.now.workers) }
        ensures { result.next ≡ all.next + 1 }
    {
        AllInterrupted {
            next: interrupted.worker + 1,
        }
    }

    /// Has all workers look once more.
    pub fn interrupt_all(&self) -> AllInterrupted
        ensures { result.next ≡ self.now.workers }
    {
        let mut all = AllInterrupted { next: 0 };
        for worker in 0..self.workers {
            if let Some(interrupted) = self.interrupt_worker(worker) {
                all = self.add(all, interrupted);
            }
        }
        all
    }

    /// How many interruptions there were, but for those that found one due. The count is no word of the table, so no clause speaks of it.
    pub fn interruptions(&self) -> u64 {
        self.interruptions.load(Ordering::SeqCst)
    }

    fn count_one(&self) -> Counted {
        self.interruptions.fetch_add(1, Ordering::SeqCst);
        Counted(())
    }

    /// Whether the count of the interruptions is still this. `None` where there were more.
    pub fn none_since(&self, interruptions: u64) -> Option<NoneSince>
        ensures { IfSome result (λ none. none.interruptions ≡ interruptions) }
    {
        if self.interruptions() != interruptions {
            return None;
        }
        Some(NoneSince { interruptions })
    }

    // Takes the interruption that is due, if one is: the worker looks once more.
    pub(crate) fn hear(&self) -> Result<NotDue, Heard>
        ensures { MatchResult result (WasNotDue self.now) (λ heard. heard.place.seat.table_id ≡ self.now.table.shared.table_id) }
    {
        let word = self.flag_word(self.workers + 1);
        let shared = &self.table.shared;
        let mut place = self.enter();
        if shared.load::<LookWhetherDue>(&mut place.seat, word) != SHOWN {
            let Place { seat } = place;
            return Ok(NotDue { seat });
        }
        shared.store::<Hear>(&mut place.seat, word, HIDDEN);
        Err(Heard { place })
    }

    // The worker that has heard the interruption has looked once more, which only one that goes on says. `Heard` ends here or in `pass_on`.
    pub(crate) fn answer(&self, heard: Heard, claim: &Claim)
        requires { IsClaim self.now claim.now }
    {
        let Heard { place } = heard;
        let Place { seat } = place;
        drop(seat);
    }

    // The worker that has heard the interruption looks no more, so another one is to.
    pub(crate) fn pass_on(&self, heard: Heard) -> Due
        ensures { WasDue self.now result }
    {
        let Heard { place } = heard;
        let Place { seat } = place;
        drop(seat);
        self.interrupt()
    }
}
