//! Tests of wakers, how many Runnables they queue, and of an awaiter; and of handles that are forgotten.
//! Of what is only tested (docs/PROOFS.md): Paths, Handles.

use crate::handles::check::check_script;
use async_task::{Runnable, Task, TaskClosed, TaskPoll, Wake, spawn};
use rows_fixtures::behaviour::Behaviour;
use rows_fixtures::counters::Counts;
use rows_fixtures::counting::Counting;
use rows_fixtures::fixture::Fixture;
use rows_fixtures::flag::Flag;
use rows_fixtures::future::RowFuture;
use rows_fixtures::output::is_ready_with;
use rows_fixtures::surroundings::{RowWaker, Scheduler};
use std::alloc::Global;
use std::process::Abort;
use std::sync::{Arc, Wait};

// Each call of a waker, and of one that is parked.
#[test]
fn a_waker_answers_each_call(rt: HostRuntime) {
    check_script(
        rt,
        rt.alloc(),
        "spawn pending; waker; clone_waker; knows_no_other; waker_parks 311; discard_waker; run; wake_by_ref; queued 1; \
         wake_by_ref; wake; queued 1; counted 1 1 0 0; detach; receive; run; counted 2 2 0 0; receive; run; \
         told false false; counted 2 2 1 1",
    );
}

// A waker is an awaiter. Each wake queues 1 Runnable, beside the waker (211). That of the last wake has the only reference that is left (111).
#[test]
fn a_waker_is_an_awaiter(rt: HostRuntime) {
    check_script(
        rt,
        rt.alloc(),
        "spawn pending; waker; run; awaiter_wakes_clone; receive; runnable_shows 211; run; \
         awaiter_wakes_by_ref; receive; runnable_shows 211; run; awaiter_wakes; receive; runnable_shows 111; run; \
         told false false false; counted 4 3 0 0; drop_task",
    );
}

// The first is discarded without a Runnable, and the last one hands a closing one over.
#[test]
fn a_discarded_waker_leaves_the_task_to_the_others(rt: HostRuntime) {
    check_script(
        rt,
        rt.alloc(),
        "spawn pending; waker; waker; run; detach; discard_waker; queued 0; counted 1 0 0 0; \
         discard_waker; queued 1; told false; receive; run; counted 1 1 1 1",
    );
}

// A scheduled task has its Runnable: a wake by reference and one by value queue none, and the run does not count them as its own.
#[test]
fn a_wake_of_a_scheduled_task_queues_nothing(rt: HostRuntime) {
    check_script(
        rt,
        rt.alloc(),
        "spawn pending; waker; wake_by_ref; runnable_shows 211; wake; runnable_shows 111; run; shows 010; \
         counted 1 0 0 0; queued 0; drop_task",
    );
}

// A poll that keeps its waker drops the one that an earlier poll kept: else the task would have another handle.
#[test]
fn a_kept_waker_replaces_the_one_before(rt: HostRuntime) {
    check_script(
        rt,
        rt.alloc(),
        "spawn keep_pending; waker; detach; run; wake; receive; run; counted 2 1 0 0; take_stored; drop_waker; none_stored; \
         receive; run; counted 2 2 1 1",
    );
}

// A forgotten waker counts as a handle for ever: the task is not closed when the others are gone, and nothing is dropped. A forgotten Runnable keeps the future,
// also where the Task is dropped, which closes the task.
#[test]
fn a_forgotten_handle_is_one_that_is_left(rt: HostRuntime) {
    for text in [
        "spawn pending; waker; forget_waker; run; detach; queued 0; counted 1 0 0 0",
        "spawn pending; forget_runnable; drop_task; queued 0; counted 0 0 0 0",
    ] {
        check_script(rt, rt.alloc(), text);
    }
}

// A task that is awaited by the waker of another one.
type AwaitedRunnable<'x, 'm, R> = Runnable<R, RowFuture, Scheduler, (), RowWaker<'x, 'm, R>, ()>;

type AwaitedTask<'x, 'm, R> = Task<R, RowFuture, Scheduler, (), RowWaker<'x, 'm, R>, ()>;

// What a poll answered: whether it is pending, ready with the number 5, or closed.
fn poll<'x, 'm, R: Wait + Drop + Copy>(
    task: &mut AwaitedTask<'x, 'm, R>,
    awaiter: &RowWaker<'x, 'm, R>,
) -> [bool; 3] {
    let polled = task.poll(awaiter);
    [
        matches!(&polled, TaskPoll::Pending),
        is_ready_with(&polled, 5),
        matches!(&polled, TaskPoll::Ready(Err(TaskClosed))),
    ]
}

// Polls a task before its run and after it by that waker: what the polls answered, and what was queued before the run and after it.
fn await_by<'x, 'm, R: Wait + Drop + Copy>(
    waker: &RowWaker<'x, 'm, R>,
    runnable: AwaitedRunnable<'x, 'm, R>,
    mut task: AwaitedTask<'x, 'm, R>,
) -> ([[bool; 3]; 2], [usize; 2]) {
    let first = poll(&mut task, waker);
    let before = waker.around().queued();
    runnable.run();
    let after = waker.around().queued();
    let second = poll(&mut task, waker);
    drop(task);
    ([first, second], [before, after])
}

// Spawns a task that is awaited by that waker, and counts as `other` does. Stops where there is no memory.
fn spawn_awaited<'x, 'm, R: Wait + Abort + Drop + Copy>(
    other: &Fixture<'m, R>,
    alloc: Global,
) -> (AwaitedRunnable<'x, 'm, R>, AwaitedTask<'x, 'm, R>) {
    let rt = other.rt;
    let future = other.future(Behaviour::Ready(5)).expect(&rt, "refused");
    let counters = Arc::try_clone(&other.counters).expect(&rt, "refused");
    spawn(rt, alloc, future, Scheduler::new(counters), ()).expect(&rt, "refused")
}

// Awaits a task by the waker of another one, which is idle: what was seen of it, and what both counted.
fn await_another<R: Wait + Abort + Drop + Copy>(
    rt: R,
    alloc: Global,
) -> ([[bool; 3]; 2], [usize; 2], [Counts; 2]) {
    let counting = Counting::new(alloc);
    let other = Fixture::new(rt, alloc, &counting).expect(&rt, "refused");
    let fixture = Fixture::new(rt, alloc, &counting).expect(&rt, "refused");
    let (runnable, task) = fixture
        .spawn(Behaviour::Pending, u64::MAX)
        .expect(&rt, "refused");
    let waker = runnable.waker().ok().expect(&rt, "refused");
    runnable.run();
    let (awaited_runnable, awaited) = spawn_awaited(&other, alloc);
    let (polled, queued) = await_by(&waker, awaited_runnable, awaited);
    let counts = [fixture.counts(), other.counts()];
    drop(waker);
    drop(task);
    (polled, queued, counts)
}

// A task that awaits another one by its own waker is scheduled once the other one has completed.
#[test]
fn a_task_awaits_another(rt: HostRuntime) {
    let (polled, queued, counts) = await_another(rt, rt.alloc());
    assert!(rt; polled == [[true, false, false], [false, true, false]] && queued == [0, 1]);
    assert!(rt; counts == [Counts(1, 1, 0, 0), Counts(1, 0, 1, 1)]);
}

// Whether a flag could be cloned. The clone is dropped.
fn is_cloned(flag: &Flag) -> bool {
    flag.try_clone().is_ok()
}

// Clones a flag, and wakes the clone: whether the flag knew it, or `None` where it was refused.
fn wake_clone(flag: &Flag) -> Option<bool> {
    let clone = flag.try_clone().ok()?;
    let known = flag.will_wake(&clone);
    clone.wake();
    Some(known)
}

// Wakes a flag, clones it and wakes the clone, clones it once more, and has a clone refused: how its clones had ended after the wake and before the refusal,
// what it knew of its clone, and which clones were made.
fn use_flag(flag: &Flag) -> ([(u64, u64, u64); 2], Option<bool>, [bool; 3]) {
    flag.wake_by_ref();
    let woken = flag.ends();
    let known = wake_clone(flag);
    let first = is_cloned(flag);
    let dropped = flag.ends();
    flag.refuse_next_clone();
    (
        [woken, dropped],
        known,
        [first, is_cloned(flag), is_cloned(flag)],
    )
}

#[test]
fn a_flag_counts_what_is_done_to_it(rt: HostRuntime) {
    let flag = Flag::new(rt.alloc(), 7).expect(&rt, "refused");
    let seen = use_flag(&flag);
    assert!(rt; seen == ([(0, 1, 0), (2, 2, 1)], Some(true), [true, false, true]));
}
