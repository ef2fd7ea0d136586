//! Whom the bells and the mail of a pool can wake, and the listener of a mailbox that wakes them.
ghost use Rattle.std.specs.Prelude.{◌≡◌, IfSome};
ghost use Rattle.std.specs.Arc.{arc_value};
ghost use Rattle.executor.specs.Wakes.{RingsWorker, RingsKept, IsSameRing, RangFor};

use crate::mail::Mail;
use crate::posted::Post;
use executor_parts::{Listener, Mailbox};
use std::sync::{Arc, Wait};
use work_queues::Bells;
use work_queues::bells::{Due, Interrupted};

/// Whom a ring is for.
#[derive(Drop)]
pub(crate) enum Rings<R: Wait + Drop + Copy> {
    /// The worker of this number, by the bells.
    Worker(Arc<Bells>, usize),
    /// The task whose waker is kept under this number, by the mail and then the bells.
    Kept(Arc<Bells>, Arc<Mail<R>>, usize),
}

/// Whom a wake has reached.
#[derive(Drop)]
pub enum Rung {
    /// A worker, which looks once more. `None` where there is no such worker.
    Worker(Option<Interrupted>),
    /// A number that was posted for a kept waker. Where it joined those that wait, an interruption was due after it.
    Kept(Post, Option<Due>),
    /// Whoever takes a number out of a mailbox.
    Reader(Told),
}

/// A number was posted to a mailbox. Only `tell` makes one.
#[derive(Drop)]
pub struct Told {
    number: usize,
}

// Posts a number to a mailbox. Where it waits, `Numbers` says.
pub(crate) fn tell<R: Wait + Drop + Copy>(
    mailbox: &Mailbox<R, PoolListener<R>>,
    number: usize,
) -> Told
    ensures { result.number ≡ number }
{
    mailbox.post(number);
    Told { number }
}

impl<R: Wait + Drop + Copy> Rings<R> {
    // `None` says that the bells have as many owners as can be counted.
    pub(crate) fn for_worker(bells: &Arc<Bells>, worker: usize) -> Option<Rings<R>>
        ensures { IfSome result (λ rings. RingsWorker rings (arc_value bells.now) worker) }
    {
        let bells = Arc::try_clone(bells).ok()?;
        Some(Rings::Worker(bells, worker))
    }

    // `None` says that the bells or the mail have as many owners as can be counted.
    pub(crate) fn for_kept(
        bells: &Arc<Bells>,
        mail: &Arc<Mail<R>>,
        number: usize,
    ) -> Option<Rings<R>>
        ensures { IfSome result (λ rings. RingsKept rings (arc_value bells.now) (arc_value mail.now) number) }
    {
        let bells = Arc::try_clone(bells).ok()?;
        let mail = Arc::try_clone(mail).ok()?;
        Some(Rings::Kept(bells, mail, number))
    }

    pub(crate) fn try_clone(&self) -> Option<Rings<R>>
        ensures { IfSome result (λ other. IsSameRing self.now other) }
    {
        match self {
            Rings::Worker(bells, worker) => Rings::for_worker(bells, *worker),
            Rings::Kept(bells, mail, number) => Rings::for_kept(bells, mail, *number),
        }
    }

    // A number that waits already was posted by a thread that interrupts a worker after it.
    pub(crate) fn ring(&self) -> Rung
        ensures { RangFor self.now result }
    {
        match self {
            Rings::Worker(bells, worker) => Rung::Worker(bells.interrupt_worker(*worker)),
            Rings::Kept(bells, mail, number) => {
                let post = mail.post(*number);
                let due = if post.joined() {
                    Some(bells.interrupt())
                } else {
                    None
                };
                Rung::Kept(post, due)
            }
        }
    }
}

/// Has a worker look once more, or wake the task whose waker is kept under a number. `Turns::bell` makes one for a worker.
#[derive(Drop)]
pub struct PoolListener<R: Wait + Drop + Copy> {
    pub(crate) rings: Rings<R>,
}

impl<R: Wait + Drop + Copy> Listener for PoolListener<R> {
    // `Rings::ring` says whom it reaches.
    fn tell(self) {
        self.rings.ring();
    }
}
