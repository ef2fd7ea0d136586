//! The rest of a worker: a search, and then a sleep.
ghost use Rattle.std.specs.Prelude.{◌≡◌, IfErr, IfSome, IsNone, IsSome};
ghost use Rattle.std.specs.Arc.{arc_value};
ghost use Rattle.work_queues.specs.Duties.{WasNotDue};

use super::worker::LainDown;
use super::{Crew, Worker};
use crate::bells::{Look, NotDue};
use crate::board::pause;
use crate::limit::Limit;
use std::alloc::Allocator;
use std::sync::Wait;

/// It looks at all queues once in this many looks, and else only at counts that no worker writes for its own items. In a round `Board::is_left` may look 128 times at a queue of another worker, so beside queues that fill and empty a search has up to as many looks more for each of them as a search has.
const LOOKS_A_ROUND: usize = 128;

// A search saw something to do. Only `Crew::sees_work` makes one.
#[derive(Drop)]
struct Seen(());

impl<T, A: Allocator> Crew<T, A> {
    // Looks for a while, as the one worker that searches, and no longer than the limit, for which it asks once in a round. `None` where there is nothing to do.
    fn sees_work<L: Limit>(&self, worker: usize, interruptions: u64, limit: &L) -> Option<Seen> {
        for look in 0..self.settings.search_looks {
            if self.has_news(interruptions) {
                return Some(Seen(()));
            }
            if look % LOOKS_A_ROUND == 0 {
                if limit.is_over() {
                    return None;
                }
                if self.board.has_some_for(worker) {
                    return Some(Seen(()));
                }
            }
            pause();
        }
        None
    }

    // Whether something came from outside, or an interruption.
    fn has_news(&self, interruptions: u64) -> bool {
        let bells = &self.bells;
        let is_interrupted = bells.is_due() || bells.interruptions() != interruptions;
        is_interrupted || !self.board.is_empty(self.board.workers())
    }

    /// Searches for a while, if no other worker does, and then sleeps, if no queue has an item and there was no interruption since `interruptions` were counted. It ends at the limit, a search at most one round of looks later. It may also return for no reason.
    ///
    /// The worker owes a look then. `None` where it has heard an interruption, and otherwise none was due. A `find` that answers an item ends what is owed, and the next rest takes it over. Else call `settle` once the worker has looked again, or `pay` where it does not.
    pub fn rest<R: Wait, L: Limit>(
        &self,
        rt: &R,
        worker: &mut Worker<T, A>,
        interruptions: u64,
        limit: &L,
    ) -> Option<NotDue>
        ensures owed { IsSome worker.new.owed }
        ensures heard { IsNone result → IsSome worker.new.heard }
        ensures not_due { IfSome result (WasNotDue (arc_value worker.old.bells)) }
        ensures batch { worker.new.batch ≡ worker.old.batch }
    {
        let (look, _) = self.search_or_sleep(rt, worker, interruptions, limit);
        worker.owe(look);
        worker.hear()
    }

    // The worker searches, if no other one does, and lies down unless it has seen something.
    fn search_or_sleep<R: Wait, L: Limit>(
        &self,
        rt: &R,
        worker: &mut Worker<T, A>,
        interruptions: u64,
        limit: &L,
    ) -> (Look, Result<Seen, LainDown>)
        ensures look { result.0.place.seat.table_id ≡ (arc_value worker.old.bells).table.shared.table_id }
        ensures slept { IfErr result.1 (λ lain. IfSome lain.slept (λ parked. L.lasts limit.now parked.most)) }
        ensures kept { (worker.new.bells ≡ worker.old.bells) × (worker.new.batch ≡ worker.old.batch) }
    {
        let owed = worker.owed.take();
        let (look, seen) = match worker.bells.begin_search(owed) {
            Ok(search) => {
                let seen = self.sees_work(worker.number, interruptions, limit);
                (worker.bells.end_search(search), seen)
            }
            Err(look) => (look, None),
        };
        match seen {
            Some(seen) => (look, Ok(seen)),
            None => {
                let (look, lain) = worker.lie_down(rt, look, interruptions, limit);
                (look, Err(lain))
            }
        }
    }
}
