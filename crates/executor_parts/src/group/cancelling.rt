//! Cancelling members, and letting go of all.
ghost use Rattle.std.specs.Prelude.{◌≡◌, ◌≢◌, ◌↔◌, ◌<◌, ℕ, true, false, IfSome};
ghost use Rattle.slab.specs.Slab.{get, slab_len};
ghost use Rattle.executor_parts.specs.Members.{SameMembers, is_member};
ghost use Rattle.executor_parts.specs.Generations.{IsNobody, SameGenerations, StaySpent};
ghost use Rattle.executor_parts.specs.Cancelled.{IsCancel, WasCancelled};
ghost use Rattle.executor_parts.specs.Outputs.{NoneGivesMore};

use super::TaskGroup;
use super::member::{Member, Stays};
use crate::errors::AwaiterRefused;
use crate::id::{Entry, MemberId};
use crate::posts::Posts;
use async_task::{Runnable, Schedule, Yields};
use std::alloc::Allocator;
use std::sync::Wait;

impl<
    R: Wait + Drop + Copy,
    F: Yields,
    Q: Drop,
    M: Drop,
    A: Posts<R>,
    X: Copy,
    B: Allocator + Copy,
> TaskGroup<R, F, Q, M, A, X, B>
where
    Q: Schedule<Runnable<R, F, Q, M, A, X, B>>,
{
    /// Cancels this member. It stays in the group until its future is gone, and comes out then: closed, or with the output of a task that was completed before. `Ok(false)` where `id` refers to nobody, as once the member has come out: nothing has changed then.
    ///
    /// An `Err` says that the poll which cancels was refused its awaiter: a later call of `next` polls again, and cancels the member if this call did not.
    pub fn cancel(&mut self, id: MemberId) -> Result<bool, AwaiterRefused>
        ensures found { result ≡ Ok false ↔ IsNobody self.old.members id }
        ensures nobody { IsNobody self.old.members id → self.new ≡ self.old }
        ensures cancelled { result ≡ Ok true → IfSome (get self.new.members id.number) (λ entry. WasCancelled entry.member) }
        ensures stays { SameMembers self.old.members self.new.members }
        ensures spent { StaySpent self.old.joined self.old.members self.new.joined self.new.members }
        ensures len { slab_len self.new.members ≡ slab_len self.old.members }
        ensures none_more { NoneGivesMore self.old.members self.new.members }
        ensures room { self.new.members.capacity ≡ self.old.members.capacity }
    {
        let generation = match self.members.get(id.number) {
            Some(entry) => entry.generation,
            None => return Ok(false),
        };
        if generation != id.generation {
            return Ok(false);
        }
        self.cancel_number(id.number)
    }

    // Cancels the member of this number, if there is one.
    fn cancel_number(&mut self, number: usize) -> Result<bool, AwaiterRefused>
        ensures found { result ≡ Ok false ↔ (is_member self.old.members number ≡ false) }
        ensures cancelled { result ≡ Ok true → IfSome (get self.new.members number) (λ entry. WasCancelled entry.member) }
        ensures cancel { IfSome (get self.new.members number) (λ entry. IsCancel entry.member) }
        ensures others { (other : ℕ) → other ≢ number → get self.new.members other ≡ get self.old.members other }
        ensures stays { SameMembers self.old.members self.new.members }
        ensures same { SameGenerations self.old.members self.new.members }
        ensures joined { self.new.joined ≡ self.old.joined }
        ensures len { slab_len self.new.members ≡ slab_len self.old.members }
        ensures none_more { NoneGivesMore self.old.members self.new.members }
        ensures room { self.new.members.capacity ≡ self.old.members.capacity }
    {
        let Some(entry) = self.members.try_remove(number) else {
            return Ok(false);
        };
        let Entry { generation, member } = entry;
        let Stays { member, refused } = self.first_look(number, member.cancel());
        self.members.insert_reserved(Entry { generation, member });
        match refused {
            Some(refusal) => Err(refusal.tell()),
            None => Ok(true),
        }
    }

    /// Cancels all members, as `cancel` does. Call `next` until the group is empty to wait until all futures are gone.
    ///
    /// An `Err` is that of `cancel`, of one member or several; the others are cancelled.
    pub fn cancel_all(&mut self) -> Result<(), AwaiterRefused>
        ensures all { (number : ℕ) → number < self.old.members.capacity → IfSome (get self.new.members number) (λ entry. IsCancel entry.member) }
        ensures stays { SameMembers self.old.members self.new.members }
        ensures len { slab_len self.new.members ≡ slab_len self.old.members }
        ensures spent { StaySpent self.old.joined self.old.members self.new.joined self.new.members }
        ensures none_more { NoneGivesMore self.old.members self.new.members }
        ensures room { self.new.members.capacity ≡ self.old.members.capacity }
    {
        let mut answer = Ok(());
        for number in 0..self.members.capacity() {
            if let Err(refused) = self.cancel_number(number) {
                answer = Err(refused);
            }
        }
        answer
    }

    /// Takes all members out and drops their Tasks, which cancels those that have not ended. It does not wait until their futures are gone.
    pub fn abort_all(&mut self)
        ensures empty { slab_len self.new.members ≡ 0 }
        ensures spent { StaySpent self.old.joined self.old.members self.new.joined self.new.members }
        ensures none_more { NoneGivesMore self.old.members self.new.members }
        ensures room { self.new.members.capacity ≡ self.old.members.capacity }
    {
        self.members.clear();
    }

    /// Takes all members out and lets their tasks go on, but for those that were cancelled. An output that nobody took is dropped.
    pub fn detach_all(&mut self)
        ensures empty { slab_len self.new.members ≡ 0 }
        ensures spent { StaySpent self.old.joined self.old.members self.new.joined self.new.members }
        ensures none_more { NoneGivesMore self.old.members self.new.members }
        ensures room { self.new.members.capacity ≡ self.old.members.capacity }
    {
        for number in 0..self.members.capacity() {
            let Some(entry) = self.members.try_remove(number) else {
                continue;
            };
            match entry.member {
                Member::Runs(task) => {
                    task.detach();
                }
                other => drop(other),
            }
        }
        self.members.clear();
    }
}
