//! What an executor of one's own has for shared wakers: the wakers of its tasks, and the mailbox to which the numbers of those to be woken are posted.
ghost use Rattle.std.specs.Prelude.{◌≡◌, ◌+◌, ◌*◌, ◌-◌, ◌^◌, IfOk, IsNone, IsSome, IfSome, min, true};
ghost use Rattle.executor.specs.Desks.{IsOfDesk};
ghost use Rattle.executor.specs.Keys.{IsKeyOf};

use crate::shared_waker::seat::SharedWaker;
use crate::store::{Key, Store};
use executor_parts::{Awaiter, Mailbox};
use std::alloc::{AllocError, Global};
use std::sync::{Arc, Wait};

/// A shared waker of a task whose executor has a desk. Its wake takes the lock of the mailbox.
pub type MailWaker<R> = SharedWaker<R, Awaiter<R>>;

/// How many numbers of its mailbox a desk has for each task: the store spreads its places over this many parts, and a desk uses one.
const NUMBERS_A_TASK: usize = 8;

/// The wakers that an executor keeps for the shared wakers of its tasks, and the mailbox by which these reach it. `H` is such a waker without surroundings, as `TaskWaker<.., ()>`.
#[derive(Drop)]
pub struct Desk<R: Wait + Drop + Copy, H: Drop> {
    rt: R,
    alloc: Global,
    kept: Store<H>,
    mailbox: Arc<Mailbox<R>>,
    room: usize,
    // The place at which no waker is kept: `ring` posts its number.
    bell: Key<R>,
}

impl<R: Wait + Drop + Copy, H: Drop> Desk<R, H> {
    /// An empty desk, for `tasks` tasks at a time that have shared wakers: one more is refused its own. `rt` is what its calls wait by, `alloc` where its memory comes from. An error says that there was no memory.
    pub fn new(rt: R, alloc: Global, tasks: usize) -> Result<Desk<R, H>, AllocError>
        ensures room { IfOk result (λ desk. desk.room ≡ min ((tasks + 1) * 8) (2 ^ 64 - 1)) }
        ensures bell { IfOk result (λ desk. IsKeyOf desk.kept desk.bell) }
    {
        let kept = Store::new(alloc)?;
        let bell = kept.reserve(rt, 0).ok_or(AllocError)?;
        let room = tasks.saturating_add(1).saturating_mul(NUMBERS_A_TASK);
        let mailbox = Mailbox::new(rt, alloc, room)?;
        Ok(Desk {
            rt,
            alloc,
            kept,
            mailbox,
            room,
            bell,
        })
    }

    // The first shared waker of a task. `None` where memory was refused, or there are as many tasks as there is room for.
    fn first(&self) -> Option<MailWaker<R>>
        ensures { IfSome result (IsOfDesk self.now) }
    {
        let key = self.kept.reserve(self.rt, 0)?;
        if key.number() >= self.room {
            return None;
        }
        let awaiter = Awaiter::new(&self.mailbox, key.number())?;
        SharedWaker::new(self.alloc, key, awaiter)
    }

    // Makes the shared waker of a task where there is none.
    fn make_if_none(&self, shared: &mut Option<MailWaker<R>>)
        ensures made { IsNone shared.old → IfSome shared.new (IsOfDesk self.now) }
        ensures stays { IsSome shared.old → shared.new ≡ shared.old }
    {
        if shared.is_none() {
            *shared = self.first();
        }
    }

    /// Keeps the waker of a task for `shared`, which is made where it is `None`, and else stays: what `Share::share` is to do. Call it in the poll of that task: what it drops, this waker or an earlier one of the task, is not its last handle then.
    ///
    /// False where memory was refused, or there are as many tasks as there is room for, or `shared` is of another desk.
    pub fn keep(&self, waker: H, shared: &mut Option<MailWaker<R>>) -> bool
        ensures made { IsNone shared.old → IfSome shared.new (IsOfDesk self.now) }
        ensures stays { IsSome shared.old → shared.new ≡ shared.old }
        ensures there { result ≡ true → IsSome shared.new }
    {
        self.make_if_none(shared);
        match &*shared {
            Some(shared) => self.kept.put(&self.rt, &shared.seat.key, waker).is_ok(),
            None => false,
        }
    }

    /// The waker of a task that is to be woken. Give it its surroundings, and wake it. `None` where none is due. No clause says which: mailbox and wakers are under locks, and a waker does not tell where it was.
    pub fn next(&self) -> Option<H> {
        for _ in self.rt.forever() {
            let number = self.mailbox.take()?;
            if let Some(waker) = self.kept.take(&self.rt, number) {
                return Some(waker);
            }
        }
        unreachable!()
    }

    /// Sleeps until a number is posted or the bell is rung, and answers the waker of that number as `next` does. `None` where there is none: look at your queue again. As of `next`, no clause says which.
    pub fn wait(&self) -> Option<H> {
        let number = self.mailbox.wait();
        self.kept.take(&self.rt, number)
    }

    /// Ends the sleep of a thread in `wait`, or the next one, as where a Runnable was pushed to the queue of the executor. No clause says so, since the numbers of a mailbox are under its lock.
    pub fn ring(&self) {
        self.mailbox.post(self.bell.number());
    }

    /// A waker that is left of a task whose shared wakers are gone. Give it its surroundings, and drop it. `None` where none is left. As of `Store::collect`, no clause says which.
    pub fn collect(&self) -> Option<H> {
        self.kept.collect(&self.rt)
    }

    /// How many places are taken: that of the bell, those of tasks with shared wakers, and those that are not collected yet. As of `Store::len`, no clause says how many.
    pub fn places(&self) -> usize {
        self.kept.len(&self.rt)
    }
}
