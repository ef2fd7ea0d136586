//! The awaiter that wakes nobody.
//! Of what is only tested (docs/PROOFS.md): Handles.
use super::number::Number;
use async_task::{Task, TaskPoll, Wake, spawn};
use executor_parts::Nobody;
use rows_fixtures::surroundings::Nowhere;
use std::alloc::Global;
use std::process::Abort;
use std::sync::Wait;

// Polls a task before and after its run: whether the first poll was pending, and the second had the output.
fn await_by_nobody<R: Wait + Abort + Drop + Copy>(rt: R, alloc: Global) -> [bool; 2] {
    let spawned = spawn(rt, alloc, Number(5), Nowhere, ());
    let (runnable, mut task): (_, Task<_, _, _, _, Nobody, ()>) = spawned.expect(&rt, "refused");
    let pending = matches!(task.poll(&Nobody), TaskPoll::Pending);
    runnable.run();
    let ready = matches!(task.poll(&Nobody), TaskPoll::Ready(Ok(5)));
    [pending, ready]
}

#[test]
fn nobody_awaits_an_output(rt: HostRuntime) {
    let seen = await_by_nobody(rt, rt.alloc());
    assert!(rt; seen == [true, true] && Nobody.will_wake(&Nobody));
}
