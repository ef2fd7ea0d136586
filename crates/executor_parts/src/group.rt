//! The group: its members by number, and the mailbox that their awaiters post to.
ghost use Rattle.std.specs.Prelude.{◌≡◌, ◌↔◌, ◌≤◌, ◌<◌, ◌+◌, ◌^◌, false, Some, IsTrue, IsNone, IsErr, IfOk, IfErr, IfSome, OnErr, OnOk};
ghost use Rattle.std.specs.Arc.{arc_value};
ghost use Rattle.slab.specs.Slab.{slab_len};
ghost use Rattle.task_cell.specs.Belongs.{HasYielded};
ghost use Rattle.executor_parts.specs.Members.{Joins, is_member};
ghost use Rattle.executor_parts.specs.Generations.{StaySpent, generation_at};
ghost use Rattle.executor_parts.specs.Outputs.{GivesAlso};

mod cancelling;
mod member;
mod polling;
mod spawning;
mod waiting;

use crate::abort_handle::AbortHandle;
use crate::errors::GroupFull;
use crate::id::{Entry, MemberId};
use crate::posts::Posts;
use crate::shared::Shared;
use async_task::{Runnable, Schedule, Task, Yields};
use member::{Member, Stays};
use slab::Slab;
use std::alloc::{AllocError, Allocator, Global};
use std::sync::{Arc, Wait};

/// Tasks, each under a number, with room for a fixed number of them. Dropped, it cancels those that are left.
#[must_use]
#[derive(Drop)]
pub struct TaskGroup<
    R: Wait + Drop + Copy,
    F: Yields,
    Q: Drop,
    M: Drop,
    A: Posts<R>,
    X: Copy,
    B: Allocator + Copy = Global,
>
where
    Q: Schedule<Runnable<R, F, Q, M, A, X, B>>,
{
    rt: R,
    shared: Arc<Shared<R, A::Listener>>,
    members: Slab<Entry<Member<R, F, Q, M, A, X, B>>>,
    // How many have joined.
    joined: u64,
}

// A count after one more. The highest that there is stays.
fn counted(count: u64) -> u64
    ensures more { count ≤ result }
    ensures one { count + 1 < 2 ^ 64 → result ≡ count + 1 }
{
    count.saturating_add(1)
}

impl<
    R: Wait + Drop + Copy,
    F: Yields,
    Q: Drop,
    M: Drop,
    A: Posts<R>,
    X: Copy,
    B: Allocator + Copy,
> TaskGroup<R, F, Q, M, A, X, B>
where
    Q: Schedule<Runnable<R, F, Q, M, A, X, B>>,
{
    /// An empty group with room for `room` tasks at a time, or a few more. All its memory is taken here.
    ///
    /// `rt` is what `next` waits by, `alloc` where the memory comes from. An `Err` says that memory was refused; nothing stays allocated then.
    pub fn new(
        rt: R,
        alloc: Global,
        room: usize,
    ) -> Result<TaskGroup<R, F, Q, M, A, X, B>, AllocError>
        ensures empty { IfOk result (λ group. slab_len group.members ≡ 0) }
        ensures room { IfOk result (λ group. room ≤ group.members.capacity) }
    {
        let members = Slab::with_capacity(alloc, room)?;
        let shared = Shared::new(rt, alloc, members.capacity())?;
        Ok(TaskGroup {
            rt,
            shared,
            members,
            joined: 0,
        })
    }

    /// How many tasks are in the group.
    pub fn len(&self) -> usize
        ensures { result ≡ slab_len self.now.members }
    {
        self.members.len()
    }

    /// Whether the group is empty.
    pub fn is_empty(&self) -> bool
        ensures { IsTrue result ↔ (slab_len self.now.members ≡ 0) }
    {
        self.members.is_empty()
    }

    /// Whether the group has no room for one more task.
    pub fn is_full(&self) -> bool
        ensures full { IsTrue result ↔ (slab_len self.now.members ≡ self.now.members.capacity) }
        ensures fits { slab_len self.now.members ≤ self.now.members.capacity }
    {
        self.members.len() == self.members.capacity()
    }

    /// Puts a Task in, under a number that no other member has, and polls it once. It asks for no memory.
    ///
    /// The task is scheduled by whoever spawned it. An `Err` hands the Task back: the group is full, and has not changed.
    pub fn push(
        &mut self,
        task: Task<R, F, Q, M, A, X, B>,
    ) -> Result<usize, GroupFull<Task<R, F, Q, M, A, X, B>>>
        ensures full { IsErr result ↔ (slab_len self.old.members ≡ self.old.members.capacity) }
        ensures returned { IfErr result (λ refused. refused.task ≡ task) }
        ensures unchanged { OnErr result (self.new ≡ self.old) }
        ensures joins { IfOk result (λ number. Joins self.old.members self.new.members number) }
        ensures member { IfOk result (λ number. generation_at self.new.members number ≡ Some self.old.joined) }
        ensures joined { OnOk result (self.old.joined + 1 < 2 ^ 64 → self.new.joined ≡ self.old.joined + 1) }
        ensures spent { StaySpent self.old.joined self.old.members self.new.joined self.new.members }
        ensures gives { IfOk result (λ number. GivesAlso self.old.members self.new.members number (HasYielded task.inner.share)) }
        ensures room { self.new.members.capacity ≡ self.old.members.capacity }
    {
        if self.is_full() {
            return Err(GroupFull { task });
        }
        Ok(self.join(task))
    }

    // Puts a Task into a group that has room, and polls it once.
    fn join(&mut self, task: Task<R, F, Q, M, A, X, B>) -> usize
        requires { slab_len self.old.members < self.old.members.capacity }
        ensures joins { Joins self.old.members self.new.members result }
        ensures member { generation_at self.new.members result ≡ Some self.old.joined }
        ensures joined { self.old.joined + 1 < 2 ^ 64 → self.new.joined ≡ self.old.joined + 1 }
        ensures spent { StaySpent self.old.joined self.old.members self.new.joined self.new.members }
        ensures gives { GivesAlso self.old.members self.new.members result (HasYielded task.inner.share) }
        ensures room { self.new.members.capacity ≡ self.old.members.capacity }
    {
        let number = self.members.vacant_key();
        let generation = self.joined;
        let Stays { member, refused } = self.first_look(number, Member::Runs(task));
        // A refused poll is made again by `next`.
        if let Some(refusal) = refused {
            refusal.tell();
        }
        let joined = counted(generation);
        self.joined = joined;
        self.members.insert_reserved(Entry { generation, member })
    }

    /// The member that has this number now. `None` where there is none.
    pub fn id(&self, number: usize) -> Option<MemberId>
        ensures none { IsNone result ↔ (is_member self.now.members number ≡ false) }
        ensures number { IfSome result (λ id. id.number ≡ number) }
        ensures member { IfSome result (λ id. generation_at self.now.members number ≡ Some id.generation) }
    {
        let generation = self.members.get(number)?.generation;
        Some(MemberId { number, generation })
    }

    /// The handle by which any thread may abort the member that has this number now. It asks for no memory.
    ///
    /// `None` where there is none, or where there are as many handles as can be counted.
    pub fn abort_handle(&self, number: usize) -> Option<AbortHandle<R, A::Listener>>
        ensures none { is_member self.now.members number ≡ false → IsNone result }
        ensures shared { IfSome result (λ handle. arc_value handle.shared ≡ arc_value self.now.shared) }
        ensures number { IfSome result (λ handle. handle.id.number ≡ number) }
        ensures member { IfSome result (λ handle. generation_at self.now.members number ≡ Some handle.id.generation) }
    {
        let id = self.id(number)?;
        AbortHandle::new(&self.shared, id)
    }
}
