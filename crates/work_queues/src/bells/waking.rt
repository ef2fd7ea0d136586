//! The steps that wake a worker which sleeps. Only they make a `Woken`, and only `ring` ends it.
ghost use Rattle.std.specs.Prelude.{◌≡◌, ◌+◌, ◌*◌, ◌<◌, IfSome, IsNone};
ghost use Rattle.work_queues.specs.Sleep.{interrupts, knows, left_of, paid, roused, worker_word};

use super::{ASLEEP, Bells, Seat, Unparked, WOKEN};
use crate::watch::{LookAtWorker, Rouse, Wake};

/// A worker that a step has woken, until its thread is.
pub struct Woken {
    worker: usize,
}

impl Woken {
    /// The number of the worker.
    pub fn worker(&self) -> usize
        ensures { result ≡ self.now.worker }
    {
        self.worker
    }
}

impl Bells {
    // Wakes this worker, if it is asleep.
    pub(super) fn wake(&self, seat: &mut Seat, worker: usize) -> Option<Woken>
        requires { (seat.old.table_id ≡ self.now.table.shared.table_id) × (worker < self.now.workers) × (seat.old.me.0.owes ≡ 1) × (seat.old.me.0.from ≡ worker) }
        ensures id { seat.new.table_id ≡ seat.old.table_id }
        ensures woken { IfSome result (λ woken. (woken.worker ≡ worker) × (seat.new.me ≡ (paid seat.old.me.0, seat.old.me.1))) }
        ensures passed { IsNone result → seat.new.me ≡ (left_of seat.old.me.0 seat.old.me.0.seen (worker + 1), seat.old.me.1) }
    {
        let word = self.worker_word(worker);
        let shared = &self.table.shared;
        if shared.load::<LookAtWorker>(seat, word) == ASLEEP
            && shared.compare_exchange::<Wake>(seat, word, ASLEEP, WOKEN) == ASLEEP
        {
            return Some(Woken { worker });
        }
        None
    }

    // Wakes this worker for an interruption, if it is asleep. Else it has got up, or was woken.
    pub(super) fn rouse(&self, seat: &mut Seat, worker: usize) -> Option<Woken>
        requires { (seat.old.table_id ≡ self.now.table.shared.table_id) × (worker < self.now.workers) }
        ensures id { seat.new.table_id ≡ seat.old.table_id }
        ensures woken { IfSome result (λ woken. (woken.worker ≡ worker) × (seat.new.me ≡ (knows (interrupts seat.old.me.0 (worker_word self.now.workers worker)) roused, seat.old.me.1))) }
        ensures awake { IsNone result → seat.new.me ≡ (interrupts seat.old.me.0 (worker_word self.now.workers worker), seat.old.me.1) }
    {
        let word = self.worker_word(worker);
        let shared = &self.table.shared;
        if shared.compare_exchange::<Rouse>(seat, word, ASLEEP, WOKEN) == ASLEEP {
            return Some(Woken { worker });
        }
        None
    }

    /// Wakes the thread of a worker that a step has woken. What the kernel does, no clause says.
    pub fn ring(&self, woken: Woken) -> Unparked
        requires { woken.worker < self.now.workers }
        ensures { result.word ≡ worker_word self.now.workers woken.worker }
    {
        let Woken { worker } = woken;
        self.unpark(self.worker_word(worker))
    }
}
