//! Each call in each of its cases, with what it does to the awaiters 1 and 2, and what its owner then does to them.
//!
//! A call clones and compares, and neither wakes nor drops an awaiter: it hands it out, and its owner does it. What the task keeps is dropped with the
//! task. Each clone ends once: at the last look there are as many wakes and drops as clones.

use super::awaiter::{Counts, NONE};
use super::*;
use task_core::traits;

mod executor_calls;
mod poll_calls;
mod task_calls;
mod waker_calls;

// What was counted of an awaiter: after the call, after its owner has done what it left to do, and after the task has gone.
type Counted = [Counts; 3];

const CLONE: Counts = Counts { clones: 1, ..NONE };

const WAKE: Counts = Counts { wakes: 1, ..CLONE };

const DROP: Counts = Counts { drops: 1, ..CLONE };

const REFUSAL: Counts = Counts {
    refusals: 1,
    ..NONE
};

const CLONES: Counts = Counts { clones: 2, ..NONE };

const ONE_DROP: Counts = Counts { drops: 1, ..CLONES };

const TWO_DROPS: Counts = Counts { drops: 2, ..CLONES };

// What becomes of an awaiter.
#[derive(Clone, Copy)]
enum Fate {
    // Nobody cloned it.
    Unknown,
    // It is in the task after the call.
    Kept,
    // The call hands it out, to be woken.
    Woken,
    // The call hands it out, to be dropped.
    Dropped,
    // It had ended before the call.
    WokenBefore,
    DroppedBefore,
    // A clone was asked for, and refused.
    Refused,
    // It was cloned anew, and the older clone is handed out, to be dropped.
    Replaced,
}

use Fate::*;

impl Fate {
    // What is then counted of it.
    fn counted(self) -> &'static Counted {
        match self {
            Unknown => &[NONE, NONE, NONE],
            Kept => &[CLONE, CLONE, DROP],
            Woken => &[CLONE, WAKE, WAKE],
            Dropped => &[CLONE, DROP, DROP],
            WokenBefore => &[WAKE, WAKE, WAKE],
            DroppedBefore => &[DROP, DROP, DROP],
            Refused => &[REFUSAL, REFUSAL, REFUSAL],
            Replaced => &[CLONES, ONE_DROP, TWO_DROPS],
        }
    }
}

// Makes the call, and what its owner does to the awaiters that it hands out: what is counted of both in between.
fn made<'c>(rt: &impl Abort, task: &mut Task<'c>, call: Call, pair: &'c Pair) -> [Counts; 2] {
    let (_, settled) = answer_of(rt, task, call, pair);
    let counts = pair.counts();
    if let Some(awaiter) = settled.wake {
        traits::Wake::wake(awaiter);
    }
    drop(settled.dropped);
    counts
}

// A new task with these calls behind it.
fn task_after<'c>(rt: &impl Abort, before: &[Call], pair: &'c Pair) -> Task<'c> {
    let mut task = LocalTask::new("metadata", FUTURE);
    for earlier in before {
        made(rt, &mut task, *earlier, pair);
    }
    task
}

// What is counted of both awaiters from the call on, to the end of the task.
fn counted_from<'c>(
    rt: &impl Abort,
    mut task: Task<'c>,
    call: Call,
    pair: &'c Pair,
) -> [Counted; 2] {
    let [first, second] = made(rt, &mut task, call, pair);
    let [first_acted, second_acted] = pair.counts();
    drop(task);
    let [first_gone, second_gone] = pair.counts();
    [
        [first, first_acted, first_gone],
        [second, second_acted, second_gone],
    ]
}

// Stops where another thing becomes of the awaiters 1 and 2 by this call, of a new task with the calls `before` behind it.
fn meets(rt: &impl Abort, before: &[Call], call: Call, first: Fate, second: Fate) {
    let pair = Pair::new();
    let task = task_after(rt, before, &pair);
    let counted = counted_from(rt, task, call, &pair);
    assert!(rt;
        counted == [*first.counted(), *second.counted()],
        "{before:?}, {call:?}"
    );
}

// The calls before, and what becomes of the awaiter 1.
type Case = (&'static [Call], Fate);

// The calls before, and what becomes of the awaiter 1; in each of these cases this becomes of the awaiter 2.
fn all_meet(rt: &impl Abort, cases: &[Case], call: Call, second: Fate) {
    for &(before, first) in cases {
        meets(rt, before, call, first, second);
    }
}
