//! The two ends of a pool: it finishes what is queued, or it is shut down.
ghost use Rattle.std.specs.Prelude.{◌≡◌, IfSome, IfErr};
ghost use Rattle.std.specs.Arc.{arc_value};
ghost use Rattle.work_queues.specs.Duties.{SawNothing};

use crate::due::{DueRunnable, cancel_all};
use crate::kept::cancel_kept;
use crate::mail::NonePosted;
use crate::pool::Pool;
use crate::stage::NotShutDown;
use async_task::{Wake, Yields};
use std::alloc::Allocator;
use std::sync::Wait;
use work_queues::Worker;
use work_queues::bells::NothingShown;

/// A queue was filled, which a shutdown may have passed before. It has no `Drop`, so it ends in `Pool::look_again`.
pub(crate) struct Filled {
    queue: usize,
}

/// No queue showed a Runnable, and no number was posted, at an instant each.
#[derive(Drop)]
pub(crate) struct Finished {
    shown: NothingShown,
    posted: NonePosted,
}

/// What a queue had was cancelled. Only `Pool::cancel_queue` makes one.
#[derive(Drop)]
pub(crate) struct QueueCancelled {
    queue: usize,
    // How many Runnables it had.
    count: usize,
}

impl<R: Wait + Drop + Copy, F: Yields, A: Wake, B: Allocator + Copy, M: Drop> Pool<R, F, A, B, M> {
    /// Takes no more tasks, and ends each worker, as `run`, `work` or `await_next`, once it finds nothing queued. What a task that still runs queues, its worker runs before it ends. It does not wait for that: join the threads of the workers.
    ///
    /// A task that waits for something is not waited for: what wakes it once all workers have ended leaves it queued, until `shutdown`, the drop of the pool, or other turns. `block_on` and `next_member` go on until they have an answer. A second call, and one after `shutdown`, do nothing. No clause says which call was the first: who closes the pool owes a `Closing`, which only `Stage::end` takes.
    pub fn finish(&self) {
        if let Some(closing) = self.stage.close() {
            self.stage.end(closing, &self.rt, &self.crew);
        }
    }

    /// Ends the pool: each worker ends after the turn that it has. The answer is how many Runnables were in the queues, whose tasks it has cancelled: those in the hands of workers, and what is kept, are not counted. No clause says which were there: `cancel_queued` has the clause that no queue shows one at its end. From here on nothing is spawned, and a task is cancelled where its Runnable is queued, or its waker or its Task is kept, and any other by its next wake.
    pub fn shutdown(&self) -> usize {
        let (closing, cancelling) = self.stage.shut_down();
        self.stage.end(closing, &self.rt, &self.crew);
        let kept = cancel_kept((self, self.workers()));
        let (cancelled, none) = self.cancel_queued();
        cancelling.end(kept, none);
        cancelled
    }

    // Cancels the Runnables of all queues, until no queue shows one: how many there were.
    fn cancel_queued(&self) -> (usize, NothingShown)
        ensures { SawNothing (arc_value self.now.crew.bells) result.1 }
    {
        let mut cancelled = 0usize;
        for _ in self.rt.forever() {
            if let Some(none) = self.crew.shows_none() {
                return (cancelled, none);
            }
            cancelled = cancelled.saturating_add(self.cancel_each_queue());
        }
        unreachable!()
    }

    // Cancels the Runnables of each queue in turn. As of `Crew::pop`, no clause says how many there were.
    fn cancel_each_queue(&self) -> usize {
        let mut cancelled = 0usize;
        for queue in 0..=self.workers() {
            cancelled = cancelled.saturating_add(self.cancel_queue(queue).count);
        }
        cancelled
    }
}

impl<R: Wait + Drop + Copy, F: Yields, A: Wake, B: Allocator, M: Drop> Pool<R, F, A, B, M> {
    /// Whether the pool was shut down. The word is shared, so no clause says what it shows.
    pub fn is_shut_down(&self) -> bool {
        self.stage.look().is_none()
    }

    // Whether a worker ends that has found nothing: no task is taken any more, and nothing is queued or posted.
    pub(crate) fn is_finished(&self) -> Option<Finished>
        ensures { IfSome result (λ finished. SawNothing (arc_value self.now.crew.bells) finished.shown) }
    {
        if !self.stage.is_finishing() {
            return None;
        }
        let shown = self.crew.shows_none()?;
        let posted = self.mail.none_posted()?;
        Some(Finished { shown, posted })
    }

    // Puts a Runnable into a queue. Where there is no memory for it, it is cancelled: the call answers nothing of that, since a schedule call answers nothing.
    pub(crate) fn fill(&self, queue: usize, due: DueRunnable<R, F, A, M>) -> Filled
        ensures { result.queue ≡ queue }
    {
        if let Err(refused) = self.crew.push(&self.rt, queue, due) {
            refused.cancel();
        }
        Filled { queue }
    }

    // Ends the turns of a worker, which may have moved Runnables to its own queue and to that for what comes from outside.
    pub(crate) fn end_turns(&self, worker: Worker<DueRunnable<R, F, A, M>, B>) -> (Filled, Filled)
        ensures own { result.0.queue ≡ worker.number }
        ensures outside { result.1.queue ≡ (arc_value self.now.crew.bells).workers }
    {
        let queue = worker.number();
        cancel_all(self.crew.end_turns(&self.rt, worker));
        let outside = Filled {
            queue: self.workers(),
        };
        (Filled { queue }, outside)
    }

    // Looks for a shutdown that may have passed a queue before it was filled, and cancels what is there then.
    pub(crate) fn look_again(&self, filled: Filled) -> Result<NotShutDown, QueueCancelled>
        ensures { IfErr result (λ cancelled. cancelled.queue ≡ filled.queue) }
    {
        let Filled { queue } = filled;
        match self.stage.look() {
            Some(seen) => Ok(seen),
            None => Err(self.cancel_queue(queue)),
        }
    }

    // Cancels the Runnables of a queue. As of `Crew::pop`, no clause says which were there.
    fn cancel_queue(&self, queue: usize) -> QueueCancelled
        ensures { result.queue ≡ queue }
    {
        let mut cancelled = 0usize;
        for _ in self.rt.forever() {
            match self.crew.pop(&self.rt, queue) {
                Some(due) => {
                    due.cancel();
                    cancelled = cancelled.saturating_add(1);
                }
                None => return QueueCancelled {
                    queue,
                    count: cancelled,
                },
            }
        }
        unreachable!()
    }
}
