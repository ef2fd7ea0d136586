//! The right to be a worker: a wake reaches one thread, so no two are the same worker.
ghost use Rattle.std.specs.Prelude.{◌≡◌, ◌<◌, [], IfSome};
ghost use Rattle.work_queues.specs.Duties.{IsClaim};
ghost use Rattle.work_queues.specs.Sleep.{has_right, searcher_word};

use super::{AWAKE, Bells, Claim, FREE, Look, Place, leave};
use crate::watch::{GiveBack, Take};

impl Bells {
    /// The right to be this worker. `None` where there is none of this number, or somebody has the right.
    pub fn claim(&self, number: usize) -> Option<Claim>
        ensures { IfSome result (λ claim. IsClaim self.now claim × (claim.number ≡ number)) }
    {
        if number >= self.workers {
            return None;
        }
        let place = self.take(self.worker_word(number))?;
        Some(Claim { number, place })
    }

    // The right to the word of a flag or a worker, which shows nothing, or that it is awake. `None` where somebody has it.
    pub(super) fn take(&self, word: usize) -> Option<Place>
        requires { word < searcher_word self.now.workers }
        ensures { IfSome result (λ place. (place.seat.table_id ≡ self.now.table.shared.table_id) × (place.seat.me ≡ (has_right word 0, []))) }
    {
        let mut place = self.enter();
        let shared = &self.table.shared;
        if shared.compare_exchange::<Take>(&mut place.seat, word, FREE, AWAKE) != FREE {
            leave(place);
            return None;
        }
        Some(place)
    }

    /// Gives the right back. A wake may have gone to this worker, so a look is owed.
    pub fn give_back(&self, claim: Claim) -> Look
        requires { IsClaim self.now claim }
        ensures { result.place.seat.table_id ≡ self.now.table.shared.table_id }
    {
        let Claim { number, mut place } = claim;
        let word = self.worker_word(number);
        self.table
            .shared
            .store::<GiveBack>(&mut place.seat, word, FREE);
        Look { place }
    }
}
