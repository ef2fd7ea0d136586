//! The mailbox that threads share, and the awaiter that posts to it.
ghost use Rattle.std.specs.Prelude.{◌≡◌, false, IfOk, IfSome, IsSomeAnd};
ghost use Rattle.std.specs.Arc.{arc_value};

use crate::deadline::{Over, time_until};
use crate::listener::Listener;
use crate::nobody::Nobody;
use crate::posts::Posts;
use async_task::Wake;
use contents::{Contents, Listens, Posted, Unlocked};
use std::alloc::{AllocError, Global};
use std::sync::{Arc, Condvar, Mutex, Wait};
use std::time::{Clock, Instant};

pub(crate) mod contents;

/// A mailbox of numbers: any thread posts, and any thread takes them or waits for one. `L` is who else may be told of a post.
///
/// Its numbers and its listener are under a lock, where other threads change them between two calls. So no clause of a call can name them: `Numbers` has the claims.
#[derive(Drop)]
pub struct Mailbox<R: Wait + Drop + Copy, L: Listener = Nobody> {
    rt: R,
    contents: Mutex<Contents<L>>,
    posted: Condvar,
}

impl<R: Wait + Drop + Copy, L: Listener> Mailbox<R, L> {
    /// An empty mailbox for the numbers below `room`. All its memory is taken here.
    ///
    /// `rt` is what its calls wait by, `alloc` where the memory comes from. An `Err` says that memory was refused; nothing stays allocated then.
    /// No clause says that it is empty, since that is under the lock.
    pub fn new(rt: R, alloc: Global, room: usize) -> Result<Arc<Mailbox<R, L>>, AllocError> {
        let mailbox = Mailbox {
            rt,
            contents: Mutex::new(Contents::new(alloc, room)?),
            posted: Condvar::new(),
        };
        Ok(Arc::new(alloc, mailbox)?)
    }

    /// Posts a number, wakes a thread that waits for one, and tells the listener, which is gone then. It needs no memory. A number that waits already
    /// stays where it is.
    ///
    /// False says that the number is not below the room; nothing has changed then. No clause says so, since the room is under the lock, too.
    pub fn post(&self, number: usize) -> bool {
        self.post_number(number).0
    }

    // The same, with what shows that it was made.
    pub(crate) fn post_number(&self, number: usize) -> (bool, Posted)
        ensures { result.1.number ≡ number }
    {
        let mut unlocked = Unlocked::new(&self.contents);
        let news = unlocked.lock(&self.rt).post(number);
        match news {
            Ok(news) => (true, news.tell(&self.posted, &unlocked)),
            Err(posted) => (false, posted),
        }
    }

    /// Has the next post tell this listener, in place of the one before. Call it before the look after which you may sleep elsewhere: then the look finds
    /// a post, or the listener is told of it. No clause says who listens, since that is under the lock.
    pub fn listen(&self, listener: L) -> Listens {
        let mut unlocked = Unlocked::new(&self.contents);
        let (before, listens) = unlocked.lock(&self.rt).listen(listener);
        before.discard(&unlocked);
        listens
    }

    /// Takes out the number that has waited longest; `None` where none waits. `Numbers::take` has the clauses, under the lock.
    pub fn take(&self) -> Option<usize> {
        self.contents.lock(&self.rt).take()
    }

    /// Takes out the number that has waited longest, and sleeps until there is one. As of `take`, no clause of this call says which.
    pub fn wait(&self) -> usize {
        let mut contents = self.contents.lock(&self.rt);
        for _ in self.rt.forever() {
            if let Some(number) = contents.take() {
                return number;
            }
            contents = self.posted.wait(&self.rt, contents);
        }
        unreachable!()
    }
}

impl<R: Wait + Clock + Drop + Copy, L: Listener> Mailbox<R, L> {
    /// As `wait`, but `None` at the deadline, if no number waits then. Where the clock of the runtime has no answer, it does not sleep. No clause says when that is: only the runtime knows its clock.
    pub fn wait_until(&self, deadline: Instant) -> Option<usize> {
        self.await_number(deadline).ok()
    }

    // As `wait`, but no longer than the deadline.
    fn await_number(&self, deadline: Instant) -> Result<usize, Over> {
        let mut contents = self.contents.lock(&self.rt);
        for _ in self.rt.forever() {
            if let Some(number) = contents.take() {
                return Ok(number);
            }
            let left = match time_until(&self.rt, deadline) {
                Ok(left) => left,
                Err(over) => return Err(over),
            };
            contents = self.posted.wait_timeout(&self.rt, contents, left).0;
        }
        unreachable!()
    }
}

/// An awaiter whose wake posts its number to a mailbox.
#[derive(Drop)]
pub struct Awaiter<R: Wait + Drop + Copy> {
    mailbox: Arc<Mailbox<R>>,
    pub(crate) number: usize,
}

impl<R: Wait + Drop + Copy> Awaiter<R> {
    /// An awaiter that posts `number` to `mailbox`, for a number below the room of the mailbox: a post of another number does nothing.
    ///
    /// It asks for no memory. `None` says that the mailbox has as many owners as can be counted.
    pub fn new(mailbox: &Arc<Mailbox<R>>, number: usize) -> Option<Awaiter<R>>
        ensures mailbox { IfSome result (λ awaiter. arc_value awaiter.mailbox ≡ arc_value mailbox.now) }
        ensures number { IfSome result (λ awaiter. awaiter.number ≡ number) }
    {
        let mailbox = Arc::try_clone(mailbox).ok()?;
        Some(Awaiter { mailbox, number })
    }
}

impl<R: Wait + Drop + Copy> Wake for Awaiter<R> {
    // What a wake has posted; `None` of a clone that was refused.
    type Record = Option<Posted>;

    ghost woken = { λ awaiter made. IsSomeAnd made (λ posted. posted.number ≡ awaiter.number) };

    ghost woken_by_ref = { λ awaiter made. IsSomeAnd made (λ posted. posted.number ≡ awaiter.number) };

    ghost cloned = { λ awaiter clone. IfOk clone (λ other. (arc_value other.mailbox ≡ arc_value awaiter.mailbox) × (other.number ≡ awaiter.number)) };

    ghost compared = { λ _ _ answer. answer ≡ false };

    fn wake(self) -> Option<Posted> {
        self.wake_by_ref()
    }

    fn wake_by_ref(&self) -> Option<Posted> {
        Some(self.mailbox.post_number(self.number).1)
    }

    fn try_clone(&self) -> Result<Awaiter<R>, Option<Posted>> {
        Awaiter::new(&self.mailbox, self.number).ok_or(None)
    }

    // Two shares of a mailbox cannot be told to be of one: a wake too many posts a number once more.
    fn will_wake(&self, _other: &Awaiter<R>) -> bool {
        false
    }
}

impl<R: Wait + Drop + Copy> Posts<R> for Awaiter<R> {
    type Listener = Nobody;

    ghost posts = { λ awaiter mailbox number. (arc_value awaiter.mailbox ≡ mailbox) × (awaiter.number ≡ number) };

    fn of_mailbox(mailbox: &Arc<Mailbox<R>>, number: usize) -> Option<Awaiter<R>> {
        Awaiter::new(mailbox, number)
    }
}
