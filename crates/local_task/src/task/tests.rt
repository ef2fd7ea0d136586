//! What no clause of a call says: whole lives of a task, what each call does to awaiters, and an executor over such tasks. The future is 7, its
//! output 3. It shows what the page of this crate lists as only tested.
ghost use Rattle.std.specs.Prelude.{IsTrue};

use super::*;
use std::process::Abort;

mod awaiter;
mod counted;
mod executor;
mod whole_lives;

use awaiter::{Awaiter, Pair};

type Task<'c> = LocalTask<u8, u8, &'static str, Awaiter<'c>>;

const FUTURE: u8 = 7;

const OUTPUT: u8 = 3;

#[derive(Clone, Copy, Debug)]
enum Call {
    Start,
    Pending,
    Ready,
    Discard,
    Wake,
    AddWaker,
    DropWaker,
    Cancel,
    Detach,
    Poll(usize),
    RefusedPoll,
}

// What a call answers, beside what it leaves to do.
#[derive(Clone, Copy, PartialEq, Eq)]
enum Said {
    Polls,
    Ends,
    Idle,
    Leaves,
    Queues(Option<ScheduleInfo>),
    Adds(bool),
    Pends,
    Readies(Option<u8>),
    Refuses,
}

use Call::*;
use Said::*;

// What one poll of the Task answers, beside what it leaves to do.
type Answer<'c> = (Said, Settled<u8, u8, Awaiter<'c>>);

// Stops the test where this is false.
fn holds(rt: &impl Abort, is_so: bool)
    ensures { IsTrue is_so }
{
    assert!(rt; is_so);
}

fn started<'c>(rt: &impl Abort, task: &mut Task<'c>) -> Answer<'c> {
    match task.start() {
        super::Start::Poll(future) => {
            holds(rt, future == FUTURE);
            (Polls, Settled::nothing())
        }
        super::Start::Ended(settled) => (Ends, settled),
        super::Start::NotDue => (Idle, Settled::nothing()),
    }
}

fn settled<'c>(rt: &impl Abort, task: &mut Task<'c>, polled: super::Poll<u8>) -> Answer<'c> {
    holds(rt, task.is_started());
    (Leaves, task.settle(FUTURE, polled))
}

fn discarded<'c>(rt: &impl Abort, task: &mut Task<'c>) -> Answer<'c> {
    holds(rt, task.is_queued());
    (Leaves, task.discard_runnable())
}

fn woken<'c>(task: &mut Task<'c>) -> Answer<'c> {
    (Queues(task.wake()), Settled::nothing())
}

fn waker_added<'c>(rt: &impl Abort, task: &mut Task<'c>) -> Answer<'c> {
    holds(rt, !task.is_emptied());
    (Adds(task.add_waker()), Settled::nothing())
}

fn waker_dropped<'c>(rt: &impl Abort, task: &mut Task<'c>) -> Answer<'c> {
    holds(rt, task.wakers() > 0);
    (Leaves, task.drop_waker())
}

fn cancelled<'c>(rt: &impl Abort, task: &mut Task<'c>) -> Answer<'c> {
    holds(rt, task.has_task());
    (Leaves, task.cancel())
}

fn detached<'c>(rt: &impl Abort, task: &mut Task<'c>) -> Answer<'c> {
    holds(rt, task.has_task());
    (Leaves, task.detach())
}

fn polled<'c>(rt: &impl Abort, task: &mut Task<'c>, awaiter: Awaiter<'c>) -> Answer<'c> {
    holds(rt, task.has_task());
    let (answer, settled) = task.poll(&awaiter);
    awaiter.go();
    match answer {
        TaskPoll::Pending => (Pends, settled),
        TaskPoll::Ready(output) => (Readies(output), settled),
        TaskPoll::Refused => (Refuses, settled),
    }
}

// Makes the call. An awaiter that refuses to be cloned is the second one.
fn answer_of<'c>(rt: &impl Abort, task: &mut Task<'c>, call: Call, pair: &'c Pair) -> Answer<'c> {
    match call {
        Start => started(rt, task),
        Pending => settled(rt, task, super::Poll::Pending),
        Ready => settled(rt, task, super::Poll::Ready(OUTPUT)),
        Discard => discarded(rt, task),
        Wake => woken(task),
        AddWaker => waker_added(rt, task),
        DropWaker => waker_dropped(rt, task),
        Cancel => cancelled(rt, task),
        Detach => detached(rt, task),
        Poll(number) => polled(rt, task, pair.awaiter(number, false)),
        RefusedPoll => polled(rt, task, pair.awaiter(2, true)),
    }
}
