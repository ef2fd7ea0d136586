//! How a mailbox, a group, its handles and what comes out of it are shown, and what their errors say.
use super::refused_tests::{OnlyGroup, push, run};
use async_task::TaskClosed;
use executor_parts::kit::{AwaitError, AwaitsRefused};
use executor_parts::{
    Awaiter, AwaiterRefused, BlockOnError, GroupFull, GroupSpawnError, Mailbox, NextUntilError,
    Numbers, TaskGroup,
};
use std::alloc::{AllocError, Global};
use std::error::Error;
use std::process::Abort;
use std::sync::Wait;
use std::{fmt, io};

// Whether a value shows that text. Stops where there is no memory.
fn shows<R: Abort, T: fmt::Debug>(rt: &R, alloc: Global, value: &T, expected: &str) -> bool {
    format!(in alloc; "{value:?}")
        .expect(rt, "refused")
        .as_str()
        == expected
}

// What the `io::Error` of an error says.
fn io_text<R: Abort, E: Drop>(rt: &R, alloc: Global, error: E) -> String
where
    io::Error: From<E>,
{
    format!(in alloc; "{}", io::Error::from(error)).expect(rt, "refused")
}

// Whether an error says this, and its `io::Error` as well.
fn says<R: Abort, E: Error>(rt: &R, alloc: Global, error: E, words: &str) -> bool
where
    io::Error: From<E>,
{
    let text = format!(in alloc; "{error}").expect(rt, "refused");
    text.as_str() == words && io_text(rt, alloc, error).as_str() == words
}

// A mailbox, an awaiter of it, and its numbers.
fn shows_mailbox<R: Wait + Abort + Drop + Copy>(rt: R, alloc: Global) -> [bool; 3] {
    let mailbox = Mailbox::new(rt, alloc, 4).expect(&rt, "refused");
    let awaiter = Awaiter::new(&mailbox, 3).expect(&rt, "refused");
    let mut numbers = Numbers::new(alloc, 2).expect(&rt, "refused");
    numbers.post(1);
    [
        shows(&rt, alloc, &*mailbox, "Mailbox { .. }"),
        shows(&rt, alloc, &awaiter, "Awaiter { number: 3, .. }"),
        shows(
            &rt,
            alloc,
            &numbers,
            "Numbers { posted: [1], waits: [false, true] }",
        ),
    ]
}

#[test]
fn a_mailbox_and_what_waits_in_it_are_shown(rt: HostRuntime) {
    assert!(rt; shows_mailbox(rt, rt.alloc()) == [true; 3]);
}

// A group of one member, the handle that aborts it, and how it comes out.
fn shows_group<R: Wait + Abort + Drop + Copy>(rt: R, alloc: Global) -> [bool; 3] {
    let mut group: OnlyGroup<R> = TaskGroup::new(rt, alloc, 1).expect(&rt, "refused");
    let runnable = push(rt, alloc, &mut group, 7);
    let handle = group.abort_handle(0).expect(&rt, "refused");
    run(runnable);
    let full = shows(&rt, alloc, &group, "TaskGroup { len: 1, .. }");
    let ended = group.next().expect(&rt, "refused");
    [
        full,
        shows(
            &rt,
            alloc,
            &handle,
            "AbortHandle { id: MemberId { number: 0, generation: 0 }, .. }",
        ),
        shows(
            &rt,
            alloc,
            &ended,
            "Some(Ended { number: 0, answer: Ok(7) })",
        ),
    ]
}

#[test]
fn a_group_its_handle_and_its_members_are_shown(rt: HostRuntime) {
    assert!(rt; shows_group(rt, rt.alloc()) == [true; 3]);
}

// A group that is full, and a spawn that was refused memory.
fn groups_say<R: Abort>(rt: &R, alloc: Global) -> [bool; 4] {
    let full = GroupFull { task: 5u64 };
    let spawn = GroupSpawnError {
        is_full: false,
        future: 1u64,
        schedule: 2u64,
    };
    [
        shows(rt, alloc, &full, "GroupFull"),
        shows(rt, alloc, &spawn, "GroupSpawnError { is_full: false, .. }"),
        says(rt, alloc, full, "the group is full"),
        says(rt, alloc, spawn, "no memory for the task"),
    ]
}

// A wait that is refused.
fn waits_say<R: Abort>(rt: &R, alloc: Global) -> [bool; 5] {
    let refused = "the poll of a member was refused its awaiter";
    let late = "no member had ended at the deadline";
    [
        says(rt, alloc, TaskClosed, "the task is closed"),
        says(rt, alloc, BlockOnError::Closed, "the task is closed"),
        says(rt, alloc, AwaiterRefused, refused),
        says(rt, alloc, NextUntilError::Refused, refused),
        says(rt, alloc, NextUntilError::Elapsed, late),
    ]
}

// A future of the kit that has no output, and one that was refused memory.
fn bridges_say<R: Abort>(rt: &R, alloc: Global) -> [bool; 4] {
    let refused = AwaitsRefused { task: 5u64 };
    [
        says(rt, alloc, AwaitError::Closed, "the task is closed"),
        says(rt, alloc, AwaitError::Refused, "the awaiter was refused"),
        shows(rt, alloc, &refused, "AwaitsRefused"),
        io_text(rt, alloc, refused) == io_text(rt, alloc, AllocError),
    ]
}

#[test]
fn errors_say_why(rt: HostRuntime) {
    assert!(rt; groups_say(&rt, rt.alloc()) == [true; 4]);
    assert!(rt; waits_say(&rt, rt.alloc()) == [true; 5]);
    assert!(rt; bridges_say(&rt, rt.alloc()) == [true; 4]);
}
