//! Waiting for the next member that ends.
ghost use Rattle.std.specs.Prelude.{◌≡◌, true, OnErr, IfOk};
ghost use Rattle.slab.specs.Slab.{slab_len};
ghost use Rattle.executor_parts.specs.Members.{IfNext, Leaves, SameMembers, is_over};
ghost use Rattle.executor_parts.specs.Generations.{SameGenerations, StaySpent};
ghost use Rattle.executor_parts.specs.Next.{TakesNext};
ghost use Rattle.executor_parts.specs.Outputs.{CameFrom, NoneGivesMore};

use super::TaskGroup;
use super::member::Stays;
use crate::ended::Ended;
use crate::errors::{AwaiterRefused, NextUntilError};
use crate::id::Entry;
use crate::mailbox::contents::Listens;
use crate::posts::Posts;
use crate::shared::Refusal;
use async_task::{Runnable, Schedule, Yields};
use std::alloc::Allocator;
use std::sync::Wait;
use std::time::{Clock, Instant};

impl<
    R: Wait + Drop + Copy,
    F: Yields,
    Q: Drop,
    M: Drop,
    A: Posts<R>,
    X: Copy,
    B: Allocator + Copy,
> TaskGroup<R, F, Q, M, A, X, B>
where
    Q: Schedule<Runnable<R, F, Q, M, A, X, B>>,
{
    /// Waits for the next member that ends, and takes it out of the group. `None` where the group is empty.
    ///
    /// Members come out in the order in which their tasks ended, but for a number that an earlier member had: its late wake may give the new one an earlier place, and so may an abort. An `Err` says that the poll of a member was refused its awaiter:
    /// the group is as it was, and a later call polls that member again.
    ///
    /// An output is one that the future of that member's task has answered.
    pub fn next(&mut self) -> Result<Option<Ended<F>>, AwaiterRefused>
        ensures over { is_over result ≡ true → slab_len self.old.members ≡ 0 }
        ensures next { TakesNext (λ ended. ended.number) self.old.joined self.old.members result self.new.joined self.new.members }
        ensures gives { IfNext result (CameFrom self.old.members) }
        ensures none_more { NoneGivesMore self.old.members self.new.members }
    {
        let rt = self.rt;
        for _ in rt.forever() {
            if self.members.is_empty() {
                return Ok(None);
            }
            let number = self.shared.mailbox.wait();
            match self.look(number) {
                Ok(ended) => return Ok(Some(ended)),
                Err(Some(refusal)) => return Err(refusal.tell()),
                Err(None) => {}
            }
        }
        unreachable!()
    }

    /// Has the next end or abort of a member tell this listener, in place of the one before. Call it before a `try_next` after which you may sleep elsewhere. No clause says who listens: that is under the lock of the mailbox.
    pub fn listen(&self, listener: A::Listener) -> Listens {
        self.shared.mailbox.listen(listener)
    }

    /// Takes the next member that has ended out of the group, and never sleeps. `None` where none has ended yet, and where the group is empty.
    ///
    /// It looks at what had ended as it was called, in the order of `next`, so a later call may have what this one has not. An `Err` is as that of `next`.
    pub fn try_next(&mut self) -> Result<Option<Ended<F>>, AwaiterRefused>
        ensures next { TakesNext (λ ended. ended.number) self.old.joined self.old.members result self.new.joined self.new.members }
        ensures gives { IfNext result (CameFrom self.old.members) }
        ensures none_more { NoneGivesMore self.old.members self.new.members }
    {
        if self.members.is_empty() {
            return Ok(None);
        }
        for _ in 0..self.members.capacity() {
            let Some(number) = self.shared.mailbox.take() else {
                return Ok(None);
            };
            match self.look(number) {
                Ok(next) => return Ok(Some(next)),
                Err(Some(refusal)) => return Err(refusal.tell()),
                Err(None) => {}
            }
        }
        Ok(None)
    }

    // Polls the member of this number, if there is one. An `Err` says whether the poll was refused its awaiter.
    fn look(&mut self, number: usize) -> Result<Ended<F>, Option<Refusal>>
        ensures leaves { IfOk result (λ ended. Leaves self.old.members self.new.members ended.number) }
        ensures stays { OnErr result (SameMembers self.old.members self.new.members) }
        ensures len { OnErr result (slab_len self.new.members ≡ slab_len self.old.members) }
        ensures same { OnErr result (SameGenerations self.old.members self.new.members) }
        ensures joined { self.new.joined ≡ self.old.joined }
        ensures spent { StaySpent self.old.joined self.old.members self.new.joined self.new.members }
        ensures gives { IfOk result (CameFrom self.old.members) }
        ensures none_more { NoneGivesMore self.old.members self.new.members }
        ensures room { self.new.members.capacity ≡ self.old.members.capacity }
    {
        let Some(entry) = self.members.try_remove(number) else {
            return Err(None);
        };
        let Entry { generation, member } = entry;
        let asked = self.shared.asked(number);
        let polled = self.poll_asked(generation, member, asked);
        match polled {
            Ok(ended) => Ok(ended),
            Err(stays) => {
                let Stays { member, refused } = stays;
                self.members.insert_reserved(Entry { generation, member });
                Err(refused)
            }
        }
    }
}

impl<
    R: Wait + Clock + Drop + Copy,
    F: Yields,
    Q: Drop,
    M: Drop,
    A: Posts<R>,
    X: Copy,
    B: Allocator + Copy,
> TaskGroup<R, F, Q, M, A, X, B>
where
    Q: Schedule<Runnable<R, F, Q, M, A, X, B>>,
{
    /// As `next`, but `Elapsed` at the deadline, if no member has ended then. It looks at least once, so a deadline that has passed makes it a `try_next` that tells a group without members from one that waits.
    ///
    /// After an error the group is as it was. Where the clock of the runtime has no answer, the call does not sleep, and answers `Elapsed`.
    pub fn next_until(&mut self, deadline: Instant) -> Result<Option<Ended<F>>, NextUntilError>
        ensures over { is_over result ≡ true → slab_len self.old.members ≡ 0 }
        ensures next { TakesNext (λ ended. ended.number) self.old.joined self.old.members result self.new.joined self.new.members }
        ensures gives { IfNext result (CameFrom self.old.members) }
        ensures none_more { NoneGivesMore self.old.members self.new.members }
    {
        let rt = self.rt;
        for _ in rt.forever() {
            if self.members.is_empty() {
                return Ok(None);
            }
            let Some(number) = self.shared.mailbox.wait_until(deadline) else {
                return Err(NextUntilError::Elapsed);
            };
            match self.look(number) {
                Ok(member) => return Ok(Some(member)),
                Err(Some(refusal)) => {
                    refusal.tell();
                    return Err(NextUntilError::Refused);
                }
                Err(None) => {}
            }
        }
        unreachable!()
    }
}
