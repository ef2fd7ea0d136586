//! A group that a future keeps: its task awaits the next member that ends, in one call.
ghost use Rattle.std.specs.Prelude.{◌≡◌, ◌↔◌, IfOk, IfErr, IfSome, IsSome, IsTrue, OnErr, None};
ghost use Rattle.slab.specs.Slab.{slab_len, ContainsKey};
ghost use Rattle.task_cell.specs.PollPaths.{IfOutput};
ghost use Rattle.async_task.specs.HandlePaths.{IfSomeOutput};
ghost use Rattle.executor_parts.specs.Answered.{GivesNone};
ghost use Rattle.executor_parts.specs.Members.{Joins, Leaves, SameMembers};
ghost use Rattle.executor.specs.Looks.{HasNone, IsReady};
ghost use Rattle.executor.specs.Outputs.{IsYielded};

use crate::bell_awaiter::BellAwaiter;
use crate::kept::{drop_kept, keep_task, keep_waker, place_for_task, place_for_waker, poll_kept};
use crate::pool::{Place, PoolTask, PoolWaker};
use crate::ringing::{PoolListener, Rings, Told, tell};
use crate::store::Key;
use async_task::{TaskClosed, TaskPoll, Wake, Yields};
use executor_parts::{GroupFull, Mailbox, Posts};
use slab::Slab;
use std::alloc::Allocator;
use std::sync::{Arc, Wait};

/// Tasks of a pool that a task of it awaits, each under a number. The pool keeps the Tasks, so a future of the pool may have this in a field. Dropped, it gives its places back: the tasks that are left are cancelled once a worker collects.
#[must_use]
#[derive(Drop)]
pub struct KeptGroup<R: Wait + Drop + Copy> {
    own: Key<R>,
    mailbox: Arc<Mailbox<R, PoolListener<R>>>,
    members: Slab<()>,
    // The places of the Tasks, by the numbers of the members.
    keys: Vec<Key<R>>,
}

// The group listens: the next post wakes its task. Only `KeptGroup::listens` makes one.
#[derive(Drop)]
struct Listening(());

impl<R: Wait + Drop + Copy> KeptGroup<R> {
    /// An empty group with room for `room` members at a time, or a few more. All its memory and its places are taken here. `place` is `waker.around()` in a poll of the task that awaits. `None` where there was no memory.
    pub fn new<'x, F: Yields, A: Wake, B: Allocator + Copy, M: Drop>(
        place: Place<'x, R, F, A, B, M>,
        room: usize,
    ) -> Option<KeptGroup<R>> {
        let pool = place.0;
        let members = Slab::with_capacity(pool.alloc(), room).ok()?;
        let mailbox = Mailbox::new(pool.rt(), pool.alloc(), members.capacity()).ok()?;
        let keys = places_for_tasks(place, members.capacity())?;
        Some(KeptGroup {
            own: place_for_waker(place)?,
            mailbox,
            members,
            keys,
        })
    }

    /// How many members there are.
    pub fn len(&self) -> usize
        ensures { result ≡ slab_len self.now.members }
    {
        self.members.len()
    }

    /// Whether there is no member.
    pub fn is_empty(&self) -> bool
        ensures { IsTrue result ↔ (slab_len self.now.members ≡ 0) }
    {
        self.members.is_empty()
    }

    /// Puts a Task in, under a number that no other member has. It asks for no memory. The first `next` after it polls the Task.
    ///
    /// An `Err` hands the Task back: the group is full, or of another pool.
    pub fn push<'x, F: Yields, B: Allocator + Copy, M: Drop>(
        &mut self,
        task: PoolTask<'x, R, F, BellAwaiter<R>, B, M>,
    ) -> Result<usize, GroupFull<PoolTask<'x, R, F, BellAwaiter<R>, B, M>>>
        ensures joins { IfOk result (λ number. Joins self.old.members self.new.members number) }
        ensures unchanged { OnErr result (self.new.members ≡ self.old.members) }
        ensures refused { IfErr result (λ error. (error.task.inner ≡ task.entry.inner) × (error.task.around ≡ task.entry.around)) }
    {
        if self.members.len() == self.members.capacity() {
            return Err(GroupFull { task });
        }
        let kept = match self.keys.get(self.members.vacant_key()) {
            Some(key) => keep_task(task, key),
            None => Err(task),
        };
        match kept {
            Ok(()) => {
                let number = self.members.insert_reserved(());
                self.mailbox.post(number);
                Ok(number)
            }
            Err(task) => Err(GroupFull { task }),
        }
    }

    /// Takes the next member that has ended out of the group, on behalf of the task of this waker: its number, and what its Task answered. `Ready(None)` where the group is empty. Where it is pending, the task is woken by the next end of a member, and only the members that have ended, or were pushed, since the last call are polled.
    ///
    /// `Refused` says that the waker was not kept, or an awaiter was refused: a later call goes on. After a shutdown a member is closed.
    pub fn next<'x, F: Yields, B: Allocator + Copy, M: Drop>(
        &mut self,
        waker: &PoolWaker<'x, R, F, BellAwaiter<R>, B, M>,
    ) -> TaskPoll<Option<(usize, Result<F::Output, TaskClosed>)>>
        ensures meets { IfSomeOutput result (λ ended. IfOk ended.1 (λ output. ∥ F.Yields.meets output ∥₁)) }
        ensures yielded { IfSomeOutput result (λ ended. IfOk ended.1 (IsYielded F.Yields.moves)) }
        ensures empty { result ≡ TaskPoll.Ready None ↔ (slab_len self.old.members ≡ 0) }
        ensures leaves { IfSomeOutput result (λ ended. Leaves self.old.members self.new.members ended.0) }
        ensures stays { GivesNone result → SameMembers self.old.members self.new.members }
    {
        if self.members.is_empty() {
            return TaskPoll::Ready(None);
        }
        let Some(listening) = self.listens(waker) else {
            return TaskPoll::Refused;
        };
        for _ in 0..self.members.capacity() {
            let Some(number) = self.mailbox.take() else {
                return TaskPoll::Pending;
            };
            match self.look(&listening, waker.around(), number).0 {
                TaskPoll::Ready(answer) => return TaskPoll::Ready(Some((number, answer))),
                TaskPoll::Refused => return TaskPoll::Refused,
                TaskPoll::Pending => {}
            }
        }
        TaskPoll::Pending
    }

    /// Cancels this member: its Task is dropped, and with it an output that nobody took. The next `next` hands it out as closed, and does not wait until its future is gone. False where no member has this number. `place` is `waker.around()` in a poll of the task that awaits.
    pub fn abort<'x, F: Yields, B: Allocator + Copy, M: Drop>(
        &self,
        place: Place<'x, R, F, BellAwaiter<R>, B, M>,
        number: usize,
    ) -> bool
        ensures { IsTrue result ↔ ContainsKey self.now.members number }
    {
        self.abort_member(place, number).is_some()
    }

    // The same. Its number is posted, so that `next` finds that the Task is gone.
    fn abort_member<'x, F: Yields, B: Allocator + Copy, M: Drop>(
        &self,
        place: Place<'x, R, F, BellAwaiter<R>, B, M>,
        number: usize,
    ) -> Option<Told>
        ensures member { IsSome result ↔ ContainsKey self.now.members number }
        ensures told { IfSome result (λ told. told.number ≡ number) }
    {
        if !self.members.contains(number) {
            return None;
        }
        if let Some(key) = self.keys.get(number) {
            drop_kept(place, key);
        }
        Some(tell(&self.mailbox, number))
    }

    /// Cancels all members, as `abort` does.
    pub fn abort_all<'x, F: Yields, B: Allocator + Copy, M: Drop>(
        &self,
        place: Place<'x, R, F, BellAwaiter<R>, B, M>,
    ) {
        for number in 0..self.members.capacity() {
            self.abort(place, number);
        }
    }

    // Keeps the waker, and has the next post wake its task: what was posted before is found by a look after this.
    fn listens<'x, F: Yields, B: Allocator + Copy, M: Drop>(
        &self,
        waker: &PoolWaker<'x, R, F, BellAwaiter<R>, B, M>,
    ) -> Option<Listening> {
        let pool = waker.around().0;
        let rings = Rings::for_kept(pool.bells(), &pool.mail, self.own.number())?;
        if !keep_waker(waker, &self.own) {
            return None;
        }
        self.mailbox.listen(PoolListener { rings });
        Some(Listening(()))
    }

    // Polls the member of this number, if there is one, and takes it out where it has ended. Where the poll is refused, its number is posted again, so that a later call polls it.
    fn look<'x, F: Yields, B: Allocator + Copy, M: Drop>(
        &mut self,
        listening: &Listening,
        place: Place<'x, R, F, BellAwaiter<R>, B, M>,
        number: usize,
    ) -> (TaskPoll<Result<F::Output, TaskClosed>>, Option<Told>)
        ensures meets { IfOutput result.0 (λ output. ∥ F.Yields.meets output ∥₁) }
        ensures yielded { IfOutput result.0 (IsYielded F.Yields.moves) }
        ensures leaves { IsReady result.0 → Leaves self.old.members self.new.members number }
        ensures stays { HasNone result.0 → SameMembers self.old.members self.new.members }
        ensures room { self.new.members.capacity ≡ self.old.members.capacity }
        ensures len { HasNone result.0 → slab_len self.new.members ≡ slab_len self.old.members }
        ensures refused { result.0 ≡ TaskPoll.Refused → IsSome result.1 }
        ensures told { IfSome result.1 (λ told. told.number ≡ number) }
    {
        let Listening(()) = listening;
        if self.members.try_remove(number).is_none() {
            return (TaskPoll::Pending, None);
        }
        let polled = self.poll_member(place, number);
        if matches!(polled, TaskPoll::Ready(_)) {
            return (polled, None);
        }
        self.members.insert_reserved(());
        if matches!(polled, TaskPoll::Refused) {
            return (polled, Some(tell(&self.mailbox, number)));
        }
        (polled, None)
    }

    // Polls the Task at the place of this number. Where there is none, a shutdown has dropped it.
    fn poll_member<'x, F: Yields, B: Allocator + Copy, M: Drop>(
        &self,
        place: Place<'x, R, F, BellAwaiter<R>, B, M>,
        number: usize,
    ) -> TaskPoll<Result<F::Output, TaskClosed>>
        ensures meets { IfOutput result (λ output. ∥ F.Yields.meets output ∥₁) }
        ensures yielded { IfOutput result (IsYielded F.Yields.moves) }
    {
        let Some(key) = self.keys.get(number) else {
            return TaskPoll::Refused;
        };
        let Some(awaiter) = BellAwaiter::of_mailbox(&self.mailbox, number) else {
            return TaskPoll::Refused;
        };
        match poll_kept(place, key, &awaiter) {
            Some(answer) => answer,
            None => TaskPoll::Ready(Err(TaskClosed)),
        }
    }
}

// So many places for Tasks. `None` where there was no memory for them.
fn places_for_tasks<'x, R: Wait + Drop + Copy, F: Yields, A: Wake, B: Allocator + Copy, M: Drop>(
    place: Place<'x, R, F, A, B, M>,
    count: usize,
) -> Option<Vec<Key<R>>> {
    let mut keys = Vec::new(place.0.alloc());
    for _ in 0..count {
        keys.push(place_for_task(place)?).ok()?;
    }
    Some(keys)
}
