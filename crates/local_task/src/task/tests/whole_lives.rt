//! Whole lives of a task, and what can be seen of it after each call.

use super::*;

// What a call leaves to do: an awaiter is told by its number.
#[derive(Clone, Copy, PartialEq, Eq)]
struct Left {
    future: Option<u8>,
    output: Option<u8>,
    queue: Option<ScheduleInfo>,
    wake: Option<usize>,
    dropped: Option<usize>,
    emptied: bool,
}

// Whether the task was woken while it ran.
const IDLE: ScheduleInfo = ScheduleInfo {
    woken_while_running: false,
};

const RUNNING: ScheduleInfo = ScheduleInfo {
    woken_while_running: true,
};

const NOTHING: Left = Left {
    future: None,
    output: None,
    queue: None,
    wake: None,
    dropped: None,
    emptied: false,
};

const ENDS: Left = Left {
    future: Some(FUTURE),
    ..NOTHING
};

const QUEUED: Left = Left {
    queue: Some(IDLE),
    ..NOTHING
};

const QUEUED_AGAIN: Left = Left {
    queue: Some(RUNNING),
    ..NOTHING
};

// The future is dropped, and nobody is left.
const ENDS_EMPTIED: Left = Left {
    emptied: true,
    ..ENDS
};

const EMPTIED: Left = Left {
    emptied: true,
    ..NOTHING
};

fn number(awaiter: Option<Awaiter<'_>>) -> Option<usize> {
    Some(awaiter?.number)
}

fn left_of(settled: Settled<u8, u8, Awaiter<'_>>) -> Left {
    Left {
        future: settled.future,
        output: settled.output,
        queue: settled.queue,
        wake: number(settled.wake),
        dropped: number(settled.dropped),
        emptied: settled.emptied,
    }
}

// What can be seen of a task: whether it is queued, started, finished, emptied, and has its Task.
type Seen = [bool; 5];

fn seen(task: &Task<'_>) -> Seen {
    [
        task.is_queued(),
        task.is_started(),
        task.is_finished(),
        task.is_emptied(),
        task.has_task(),
    ]
}

// A call, what it answers, what it leaves to do, and what can be seen then.
type Step = (Call, Said, Left, Seen);

// Makes the call of a step, and answers whether the rest is so.
fn does<'c>(rt: &impl Abort, task: &mut Task<'c>, pair: &'c Pair, step: Step) -> bool {
    let (call, said, wanted, looks) = step;
    let (answer, settled) = answer_of(rt, task, call, pair);
    answer == said && left_of(settled) == wanted && seen(task) == looks
}

// Stops where a new task does not take these steps, one after another, or has another number of wakers then.
fn lives<'c>(rt: &impl Abort, pair: &'c Pair, steps: &[Step], wakers: u64) {
    let mut task = LocalTask::new("metadata", FUTURE);
    holds(rt, seen(&task) == [true, false, false, false, true]);
    for (i, step) in steps.iter().enumerate() {
        assert!(rt; does(rt, &mut task, pair, *step), "call {i}: {:?}", step.0);
    }
    holds(
        rt,
        *task.metadata() == "metadata" && task.wakers() == wakers,
    );
}

const CANCELLED: [Step; 7] = [
    (Start, Polls, NOTHING, [false, true, false, false, true]),
    (
        Wake,
        Queues(None),
        NOTHING,
        [false, true, false, false, true],
    ),
    (
        Pending,
        Leaves,
        QUEUED_AGAIN,
        [true, false, false, false, true],
    ),
    (Cancel, Leaves, NOTHING, [true, false, true, false, true]),
    (Start, Ends, ENDS, [false, false, true, false, true]),
    (
        Poll(1),
        Readies(None),
        NOTHING,
        [false, false, true, false, true],
    ),
    (Detach, Leaves, EMPTIED, [false, false, true, true, false]),
];

#[test]
fn a_task_that_is_woken_and_then_cancelled(rt: HostRuntime) {
    lives(&rt, &Pair::new(), &CANCELLED, 0);
}

const ORPHANED: [Step; 6] = [
    (
        AddWaker,
        Adds(true),
        NOTHING,
        [true, false, false, false, true],
    ),
    (Start, Polls, NOTHING, [false, true, false, false, true]),
    (Detach, Leaves, NOTHING, [false, true, false, false, false]),
    (
        Pending,
        Leaves,
        NOTHING,
        [false, false, false, false, false],
    ),
    (DropWaker, Leaves, QUEUED, [true, false, true, false, false]),
    (Start, Ends, ENDS_EMPTIED, [false, false, true, true, false]),
];

#[test]
fn an_orphan(rt: HostRuntime) {
    lives(&rt, &Pair::new(), &ORPHANED, 0);
}

const IDLE_CANCELLED: [Step; 6] = [
    (Start, Polls, NOTHING, [false, true, false, false, true]),
    (Pending, Leaves, NOTHING, [false, false, false, false, true]),
    (
        Wake,
        Queues(Some(IDLE)),
        NOTHING,
        [true, false, false, false, true],
    ),
    (Cancel, Leaves, NOTHING, [true, false, true, false, true]),
    (Start, Ends, ENDS, [false, false, true, false, true]),
    (Detach, Leaves, EMPTIED, [false, false, true, true, false]),
];

#[test]
fn what_can_be_seen(rt: HostRuntime) {
    lives(&rt, &Pair::new(), &IDLE_CANCELLED, 0);
}

const COMPLETED: [Step; 3] = [
    (Start, Polls, NOTHING, [false, true, false, false, true]),
    (
        AddWaker,
        Adds(true),
        NOTHING,
        [false, true, false, false, true],
    ),
    (Ready, Leaves, ENDS, [false, false, true, false, true]),
];

#[test]
fn what_can_be_seen_of_a_completed_task(rt: HostRuntime) {
    lives(&rt, &Pair::new(), &COMPLETED, 1);
}

#[test]
fn the_laws_can_be_had_at_any_types(_rt: HostRuntime) {
    laws::<u8, u8, Awaiter<'static>>();
}
