//! How a group polls its members.
ghost use Rattle.std.specs.Prelude.{◌≡◌, ◌≢◌, None, Some, IfOk, IfErr, IfSome};
ghost use Rattle.std.specs.Arc.{arc_value};
ghost use Rattle.task_cell.specs.PollPaths.{IfOutput};
ghost use Rattle.executor_parts.specs.Cancelled.{IsCancel, WasCancelled};
ghost use Rattle.executor_parts.specs.Outputs.{MayGive, GivesNoMore};

use super::TaskGroup;
use super::member::{Member, Stays, closed_where_none};
use crate::ended::Ended;
use crate::posts::Posts;
use crate::requests::Found;
use crate::shared::Refusal;
use async_task::{Runnable, Schedule, TaskClosed, TaskPoll, Yields};
use std::alloc::Allocator;
use std::sync::Wait;

impl<
    R: Wait + Drop + Copy,
    F: Yields,
    Q: Drop,
    M: Drop,
    A: Posts<R>,
    X: Copy,
    B: Allocator + Copy,
> TaskGroup<R, F, Q, M, A, X, B>
where
    Q: Schedule<Runnable<R, F, Q, M, A, X, B>>,
{
    // Polls a member of the number for which was looked, and cancels it by that if its abort was asked for.
    pub(super) fn poll_asked(
        &self,
        generation: u64,
        member: Member<R, F, Q, M, A, X, B>,
        found: Found,
    ) -> Result<Ended<F>, Stays<R, F, Q, M, A, X, B>>
        ensures number { IfOk result (λ ended. ended.number ≡ found.number) }
        ensures gives { IfOk result (λ ended. IfOk ended.answer (MayGive member)) }
        ensures stays { IfErr result (λ stays. GivesNoMore member stays.member) }
        ensures asked { found.generation ≡ Some generation → IfErr result (λ stays. stays.refused ≡ None → WasCancelled stays.member) }
        ensures of_another { found.generation ≢ Some generation → IfErr result (λ stays. IsCancel stays.member → IsCancel member) }
    {
        let (number, asked) = found.into_parts();
        if asked == Some(generation) {
            self.poll_member(number, member.cancel())
        } else {
            self.poll_member(number, member)
        }
    }

    // Polls a member of this number.
    fn poll_member(
        &self,
        number: usize,
        member: Member<R, F, Q, M, A, X, B>,
    ) -> Result<Ended<F>, Stays<R, F, Q, M, A, X, B>>
        ensures number { IfOk result (λ ended. ended.number ≡ number) }
        ensures gives { IfOk result (λ ended. IfOk ended.answer (MayGive member)) }
        ensures stays { IfErr result (λ stays. GivesNoMore member stays.member) }
        ensures cancelled { IfErr result (λ stays. IsCancel member → stays.refused ≡ None → WasCancelled stays.member) }
        ensures cancel { IfErr result (λ stays. IsCancel member → IsCancel stays.member) }
        ensures runs { IfErr result (λ stays. IsCancel stays.member → IsCancel member) }
    {
        match member {
            Member::Runs(mut task) => {
                let polled = match self.awaiter_of(number) {
                    Some(awaiter) => task.poll(&awaiter),
                    None => TaskPoll::Refused,
                };
                self.settle(number, polled, Member::Runs(task))
            }
            Member::Cancelled(mut cancel) => {
                let polled = match self.awaiter_of(number) {
                    Some(awaiter) => closed_where_none::<F>(cancel.poll(&awaiter)),
                    None => TaskPoll::Refused,
                };
                self.settle(number, polled, Member::Cancelled(cancel))
            }
            Member::HasEnded(ended, _) => Ok(ended.numbered(number)),
        }
    }

    // What becomes of a member by the answer of its poll. Where that was refused its awaiter, the number is posted, so that `next` polls the member again.
    fn settle(
        &self,
        number: usize,
        polled: TaskPoll<Result<F::Output, TaskClosed>>,
        member: Member<R, F, Q, M, A, X, B>,
    ) -> Result<Ended<F>, Stays<R, F, Q, M, A, X, B>>
        requires { IfOutput polled (λ output. ∥ F.Yields.meets output ∥₁) }
        ensures number { IfOk result (λ ended. ended.number ≡ number) }
        ensures answer { IfOk result (λ ended. polled ≡ TaskPoll.Ready ended.answer) }
        ensures member { IfErr result (λ stays. stays.member ≡ member) }
        ensures pending { IfErr result (λ stays. stays.refused ≡ None → polled ≡ TaskPoll.Pending) }
        ensures posted { IfErr result (λ stays. IfSome stays.refused (λ refusal. refusal.0.number ≡ number)) }
    {
        let refused = match polled {
            TaskPoll::Ready(answer) => return Ok(Ended { number, answer }),
            TaskPoll::Pending => None,
            TaskPoll::Refused => Some(Refusal(self.shared.post(number))),
        };
        Err(Stays { member, refused })
    }

    // An awaiter that posts this number to the mailbox of the group.
    fn awaiter_of(&self, number: usize) -> Option<A>
        ensures { IfSome result (λ awaiter. A.Posts.posts awaiter (arc_value (arc_value self.now.shared).mailbox) number) }
    {
        A::of_mailbox(&self.shared.mailbox, number)
    }

    // What a member becomes under this number, once polled, and whether that poll was refused its awaiter.
    pub(super) fn first_look(
        &self,
        number: usize,
        member: Member<R, F, Q, M, A, X, B>,
    ) -> Stays<R, F, Q, M, A, X, B>
        ensures cancelled { IsCancel member → result.refused ≡ None → WasCancelled result.member }
        ensures cancel { IsCancel member → IsCancel result.member }
        ensures outputs { GivesNoMore member result.member }
    {
        match self.poll_member(number, member) {
            Ok(ended) => {
                let posted = self.shared.post(number);
                Stays {
                    member: Member::HasEnded(ended, posted),
                    refused: None,
                }
            }
            Err(stays) => stays,
        }
    }
}
