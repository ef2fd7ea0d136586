//! Members of a group whose polls are refused their awaiter.
ghost use Rattle.std.specs.Prelude.{⊤};

use super::number::Number;
use async_task::{Runnable, Wake, spawn};
use executor_parts::{AwaiterRefused, Mailbox, Nobody, Posts, TaskGroup};
use rows_fixtures::surroundings::Nowhere;
use std::alloc::Global;
use std::process::Abort;
use std::sync::{Arc, Wait};

/// An awaiter that is refused while the mailbox has another one: as if no more owners could be counted.
#[derive(Drop)]
pub struct OnlyAwaiter<R: Wait + Drop + Copy> {
    mailbox: Arc<Mailbox<R>>,
    number: usize,
}

impl<R: Wait + Drop + Copy> Wake for OnlyAwaiter<R> {
    type Record = ();

    ghost woken = { λ _ _. ⊤ };

    ghost woken_by_ref = { λ _ _. ⊤ };

    ghost cloned = { λ _ _. ⊤ };

    ghost compared = { λ _ _ _. ⊤ };

    fn wake(self) {
        self.mailbox.post(self.number);
    }

    fn wake_by_ref(&self) {
        self.mailbox.post(self.number);
    }

    fn try_clone(&self) -> Result<OnlyAwaiter<R>, ()> {
        let Ok(mailbox) = Arc::try_clone(&self.mailbox) else {
            return Err(());
        };
        let number = self.number;
        Ok(OnlyAwaiter { mailbox, number })
    }

    fn will_wake(&self, _other: &OnlyAwaiter<R>) -> bool {
        false
    }
}

impl<R: Wait + Drop + Copy> Posts<R> for OnlyAwaiter<R> {
    type Listener = Nobody;

    ghost posts = { λ _ _ _. ⊤ };

    fn of_mailbox(mailbox: &Arc<Mailbox<R>>, number: usize) -> Option<OnlyAwaiter<R>> {
        if Arc::strong_count(mailbox) > 1 {
            return None;
        }
        let mailbox = Arc::try_clone(mailbox).ok()?;
        Some(OnlyAwaiter { mailbox, number })
    }
}

/// A group of tasks that are awaited so.
pub type OnlyGroup<R> = TaskGroup<R, Number, Nowhere, (), OnlyAwaiter<R>, ()>;

/// A Runnable of such a task.
pub type OnlyRunnable<R> = Runnable<R, Number, Nowhere, (), OnlyAwaiter<R>, ()>;

// What a look at a group finds: the number and the output of a member, or no member.
type Found = Result<Option<(usize, u64)>, AwaiterRefused>;

fn look<R: Wait + Drop + Copy>(group: &mut OnlyGroup<R>) -> Found {
    match group.try_next() {
        Ok(Some(ended)) => Ok(Some((ended.number, ended.answer.unwrap_or(0)))),
        Ok(None) => Ok(None),
        Err(refused) => Err(refused),
    }
}

/// Pushes a task that answers a number to a group: its Runnable. Stops where it is refused.
pub fn push<R: Wait + Abort + Drop + Copy>(
    rt: R,
    alloc: Global,
    group: &mut OnlyGroup<R>,
    answer: u64,
) -> OnlyRunnable<R> {
    let (runnable, task) = spawn(rt, alloc, Number(answer), Nowhere, ()).expect(&rt, "refused");
    group.push(task).expect(&rt, "refused");
    runnable
}

/// Runs.
pub fn run<R: Wait + Drop + Copy>(runnable: OnlyRunnable<R>) {
    runnable.run();
}

// Pushes two tasks, and runs both after a first look, the second one first: how many members there are after that look, and what is found.
fn look_before_and_after<R: Wait + Abort + Drop + Copy>(
    rt: R,
    alloc: Global,
) -> (usize, [Found; 4]) {
    let mut group: OnlyGroup<R> = TaskGroup::new(rt, alloc, 2).expect(&rt, "refused");
    let first = push(rt, alloc, &mut group, 5);
    let second = push(rt, alloc, &mut group, 6);
    let refused = look(&mut group);
    let len = group.len();
    run(second);
    run(first);
    let first_ended = look(&mut group);
    let second_ended = look(&mut group);
    (len, [refused, first_ended, second_ended, look(&mut group)])
}

// The second member is refused its awaiter by its push and by the first look, until the first one has ended.
#[test]
fn a_member_that_was_refused_its_awaiter_is_polled_again(rt: HostRuntime) {
    let seen = look_before_and_after(rt, rt.alloc());
    let found = [
        Err(AwaiterRefused),
        Ok(Some((1, 6))),
        Ok(Some((0, 5))),
        Ok(None),
    ];
    assert!(rt; seen == (2, found));
}

// What a wait for one of two members answers, while the second is refused its awaiter and nothing runs.
fn wait_while_refused<R: Wait + Abort + Drop + Copy>(rt: R, alloc: Global) -> Found {
    let mut group: OnlyGroup<R> = TaskGroup::new(rt, alloc, 2).expect(&rt, "refused");
    let first = push(rt, alloc, &mut group, 5);
    let second = push(rt, alloc, &mut group, 6);
    let found = match group.next() {
        Ok(Some(ended)) => Ok(Some((ended.number, ended.answer.unwrap_or(0)))),
        Ok(None) => Ok(None),
        Err(refused) => Err(refused),
    };
    drop(first);
    drop(second);
    found
}

// It does not go on to the next number, of which there may be none.
#[test]
fn a_wait_says_that_a_member_was_refused_its_awaiter(rt: HostRuntime) {
    assert!(rt; wait_while_refused(rt, rt.alloc()) == Err(AwaiterRefused));
}

// Cancels two members that are both refused their awaiters, and drops the Runnable of the first: what the cancel answers, and what is found then, and
// once the second was run.
fn cancel_while_refused<R: Wait + Abort + Drop + Copy>(
    rt: R,
    alloc: Global,
) -> (Result<(), AwaiterRefused>, [Found; 3]) {
    let mut group: OnlyGroup<R> = TaskGroup::new(rt, alloc, 2).expect(&rt, "refused");
    let first = push(rt, alloc, &mut group, 5);
    let second = push(rt, alloc, &mut group, 6);
    let cancelled = group.cancel_all();
    drop(first);
    let refused = look(&mut group);
    run(second);
    let first_ended = look(&mut group);
    let second_ended = look(&mut group);
    (cancelled, [refused, first_ended, second_ended])
}

// The second one is cancelled by its next poll, though the first one was refused before it, and so it has no output.
#[test]
fn a_refusal_keeps_no_other_member_from_its_cancel(rt: HostRuntime) {
    let (cancelled, found) = cancel_while_refused(rt, rt.alloc());
    let expected = [Err(AwaiterRefused), Ok(Some((0, 0))), Ok(Some((1, 0)))];
    assert!(rt; cancelled == Err(AwaiterRefused) && found == expected);
}
