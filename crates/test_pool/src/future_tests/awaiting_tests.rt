//! Tasks of a pool that await tasks of the same pool: alone, in a long chain, cancelled, and after a shutdown.
//!
//! What a test does stands in a function of its own, generic in the runtime, that answers plain data: there the prover is asked far less of each call than
//! where the runtime is known.

use crate::future_tests::calls::{
    await_chain, block_on, collect_all, drop_both, drop_pool, drop_task, drop_turns, is_closed,
    knock, link_task, new_counts, new_pool, place_of_waker, places_taken, polls, shut_down, tick,
    turns_of, wake_number, wakes_posted, work, work_turns,
};
use crate::future_tests::link::{Errand, KNOCKS, LinkPool, LinkTask, LinkTurns};
use executor::BlockOnError;
use std::alloc::Global;
use std::process::Abort;
use std::sync::{Arc, Wait};
use std::thread::{self, Threads};

/// How many tasks the chain has.
const CHAIN: u64 = 1000;

/// The most turns that anything takes.
const TURNS: u64 = 1000;

// The parent is polled as it is spawned, and once more for the output of its child, which gives way three times.
#[test]
fn a_task_awaits_a_task(rt: HostRuntime) {
    let (answer, polls, places, left) = await_chain(rt, rt.alloc(), 1, Errand::GiveWay(3), None);
    assert!(rt; answer == Ok(2));
    assert!(rt; (polls, places, left) == ((2, 4), (0, 0), 1));
}

// One child ends long before the other: the parent is polled as it is spawned, and once more for each.
#[test]
fn a_task_awaits_two_tasks(rt: HostRuntime) {
    let second = Some(Errand::GiveWay(9));
    let (answer, polls, _, _) = await_chain(rt, rt.alloc(), 1, Errand::GiveWay(1), second);
    assert!(rt; (answer, polls) == (Ok(3), (3, 12)));
}

// Whether each of five turns ran a task, and woke for what was posted; how often the links were polled then; and what they answer.
type Looped = ([bool; 5], [bool; 5], (u64, u64), Result<u64, BlockOnError>);

// Five turns of a loop around `tick`, for a link with one below it that gives way once.
fn loop_ticks<R: Wait + Abort + Drop + Copy + 'static>(rt: R, alloc: Global) -> Looped {
    let pool = new_pool(rt, alloc, 1);
    let counts = new_counts(&pool);
    let mut task = link_task(&pool, 1, 1, Errand::GiveWay(1), &counts);
    let mut turns = turns_of(&pool);
    let mut ran = [false; 5];
    let mut woke = [false; 5];
    for turn in 0..5 {
        ran[turn] = tick(&mut turns);
        woke[turn] = wakes_posted(&pool);
    }
    let polls = polls(&counts);
    let answer = block_on(&mut turns, &mut task);
    drop_both(turns, task);
    drop_pool(pool);
    (ran, woke, polls, answer)
}

// The child ends in the third turn, and the parent in the fourth.
#[test]
fn a_loop_of_ticks_wakes_what_was_posted(rt: HostRuntime) {
    let (ran, woke, polls, answer) = loop_ticks(rt, rt.alloc());
    assert!(rt; ran == [true, true, true, true, false]);
    assert!(rt; woke == [false, false, true, false, false]);
    assert!(rt; (polls, answer) == ((2, 2), Ok(2)));
}

// Each link is polled as it is spawned, and once more for the output of the next one.
#[test]
fn a_chain_of_tasks_on_one_worker(rt: HostRuntime) {
    let (answer, polls, places, _) = await_chain(
        rt,
        rt.alloc(),
        CHAIN - 1,
        Errand::GiveWay(1),
        None,
    );
    assert!(rt; answer == Ok(1000));
    assert!(rt; (polls, places) == ((1998, 2), (0, 0)));
}

// Awaits a Task as one of two workers of a pool, ends the pool, and tells whether the other one began, and what the Task answered.
fn await_beside<'x, R: Wait + Threads + Drop + Copy + Send + Sync + 'static>(
    pool: &'x LinkPool<R>,
    turns: &mut LinkTurns<'x, R>,
    task: &mut LinkTask<'x, R>,
) -> (bool, Result<u64, BlockOnError>) {
    thread::join(
        &pool.rt(),
        || work(pool, 1),
        || {
            let answer = block_on(turns, task);
            shut_down(pool);
            answer
        },
    )
}

// What comes of a chain on two workers: whether the other one began, the answer, and how many places are taken for wakers and for Tasks.
fn await_chain_beside<R: Wait + Abort + Threads + Drop + Copy + Send + Sync + 'static>(
    rt: R,
    alloc: Global,
) -> (bool, Result<u64, BlockOnError>, (usize, usize)) {
    let pool = new_pool(rt, alloc, 2);
    let counts = new_counts(&pool);
    let mut task = link_task(&pool, 2, CHAIN - 1, Errand::GiveWay(1), &counts);
    let mut turns = turns_of(&pool);
    let (ran, answer) = await_beside(&pool, &mut turns, &mut task);
    drop_task(task);
    collect_all(&pool);
    let places = places_taken(&pool);
    drop_turns(turns);
    drop_pool(pool);
    (ran, answer, places)
}

#[test]
fn a_chain_of_tasks_on_two_workers(rt: HostRuntime) {
    let (ran, answer, places) = await_chain_beside(rt, rt.alloc());
    assert!(rt; (ran, answer) == (true, Ok(1000)));
    assert!(rt; places == (0, 0));
}

// What comes of a link that another thread wakes so often, on two workers: whether the other worker began and each wake was sent, the answer, and the polls.
fn await_knocks<R: Wait + Abort + Threads + Drop + Copy + Send + Sync + 'static>(
    rt: R,
    alloc: Global,
) -> ((bool, bool), Result<u64, BlockOnError>, u64) {
    let pool = new_pool(rt, alloc, 2);
    let counts = new_counts(&pool);
    let mut task = link_task(&pool, 2, 1, Errand::Knocks(KNOCKS), &counts);
    let mut turns = turns_of(&pool);
    let ((ran, answer), knocked) = thread::join(
        &rt,
        || await_beside(&pool, &mut turns, &mut task),
        || knock(&pool, &counts),
    );
    let (_, last) = polls(&counts);
    drop_both(turns, task);
    drop_pool(pool);
    ((ran, knocked), answer, last)
}

// Each wake comes while the task waits, and the worker may sleep or be about to.
#[test]
fn a_worker_takes_each_wake_of_another_thread(rt: HostRuntime) {
    let (began, answer, last) = await_knocks(rt, rt.alloc());
    assert!(rt; began == (true, true));
    assert!(rt; (answer, last) == (Ok(2), KNOCKS + 1));
}

// Frees the places of keys that were dropped, wakes what was posted, and runs tasks, until there is neither a wake nor a task.
fn run_all<R: Wait + Drop + Copy + 'static>(pool: &LinkPool<R>, turns: &mut LinkTurns<'_, R>) {
    for _ in 0..TURNS {
        collect_all(pool);
        let woke = wakes_posted(pool);
        if !tick(turns) && !woke {
            return;
        }
    }
}

// How many places are taken for wakers and for Tasks, and how often the links that await were polled, and the last one.
type Taken = ((usize, usize), (u64, u64));

// What is taken before and after the Task of a link is dropped that awaits two, one below the other; and how many owners have what the links count.
fn cancel_links<R: Wait + Abort + Drop + Copy + 'static>(
    rt: R,
    alloc: Global,
) -> (Taken, Taken, usize) {
    let pool = new_pool(rt, alloc, 1);
    let counts = new_counts(&pool);
    let task = link_task(&pool, 1, 2, Errand::Stay, &counts);
    let mut turns = turns_of(&pool);
    run_all(&pool, &mut turns);
    let before = (places_taken(&pool), polls(&counts));
    drop_task(task);
    run_all(&pool, &mut turns);
    let after = (places_taken(&pool), polls(&counts));
    let left = Arc::strong_count(&counts);
    drop_turns(turns);
    drop_pool(pool);
    (before, after, left)
}

#[test]
fn the_cancel_of_a_task_that_awaits_leaves_no_place(rt: HostRuntime) {
    let (before, after, left) = cancel_links(rt, rt.alloc());
    assert!(rt; before == ((2, 2), (2, 1)));
    assert!(rt; after == ((0, 0), (2, 1)));
    assert!(rt; left == 1);
}

// What a wake does after the shutdown of a pool: what the places and turns were before; whether the wake was sent, what two looks at what was posted answer,
// whether a task ran, and whether the Task is closed; and what is left.
#[derive(Drop)]
struct WokenLate {
    ran: (bool, bool),
    before: (usize, usize),
    woken: bool,
    posted: (bool, bool),
    ran_again: bool,
    closed: bool,
    left: (Taken, usize),
}

// The parent waits, and its waker has the number 0, the first of the pool.
fn wake_late<R: Wait + Abort + Drop + Copy + 'static>(rt: R, alloc: Global) -> WokenLate {
    let pool = new_pool(rt, alloc, 1);
    let counts = new_counts(&pool);
    let mut task = link_task(&pool, 1, 1, Errand::Stay, &counts);
    let mut turns = turns_of(&pool);
    let ran = (tick(&mut turns), tick(&mut turns));
    let before = places_taken(&pool);
    shut_down(&pool);
    let woken = wake_number(&pool, 0);
    work_turns(&mut turns);
    let posted = (wakes_posted(&pool), wakes_posted(&pool));
    let ran_again = tick(&mut turns);
    let closed = is_closed(&pool, &mut task);
    let taken = (places_taken(&pool), polls(&counts));
    let left = (taken, Arc::strong_count(&counts));
    drop_both(turns, task);
    drop_pool(pool);
    WokenLate {
        ran,
        before,
        woken,
        posted,
        ran_again,
        closed,
        left,
    }
}

#[test]
fn a_posted_wake_after_the_shutdown_does_nothing(rt: HostRuntime) {
    let late = wake_late(rt, rt.alloc());
    assert!(rt; late.ran == (true, true) && late.woken && late.closed && !late.ran_again);
    assert!(rt; (late.before, late.posted) == ((1, 1), (true, false)));
    assert!(rt; late.left == (((0, 0), (1, 1)), 1));
}

// What wakes of empty places do: whether the task ran before, whether a wake without room was sent and woke, whether one of an empty place was and did,
// whether the task ran again; and its answer after the shutdown.
fn wake_nothing<R: Wait + Abort + Drop + Copy + 'static>(
    rt: R,
    alloc: Global,
) -> ([bool; 6], Result<u64, BlockOnError>) {
    let pool = new_pool(rt, alloc, 1);
    let counts = new_counts(&pool);
    let key = place_of_waker(&pool);
    let mut task = link_task(&pool, 1, 0, Errand::Stay, &counts);
    let mut turns = turns_of(&pool);
    let ran = tick(&mut turns);
    let without_room = wake_number(&pool, 99);
    let none = wakes_posted(&pool);
    let empty = wake_number(&pool, key.number());
    let one = wakes_posted(&pool);
    let ran_again = tick(&mut turns);
    shut_down(&pool);
    let answer = block_on(&mut turns, &mut task);
    drop_both(turns, task);
    drop_pool(pool);
    ([ran, without_room, none, empty, one, ran_again], answer)
}

// Also one for which the pool has no room.
#[test]
fn a_wake_of_an_empty_place_wakes_nothing(rt: HostRuntime) {
    let (went, answer) = wake_nothing(rt, rt.alloc());
    assert!(rt; went == [true, true, false, true, true, false]);
    assert!(rt; answer == Err(BlockOnError::ShutDown));
}

// What a start answers beside a link that keeps its waker, which nobody wakes; whether it is closed then; and what is left: Runnables in the queues, places, and
// owners of what the links count.
fn start_beside_a_link<R: Wait + Abort + Threads + Drop + Copy + Send + Sync + 'static>(
    rt: R,
    alloc: Global,
) -> (usize, bool, usize, (usize, usize), usize) {
    let pool = new_pool(rt, alloc, 2);
    let counts = new_counts(&pool);
    let mut task = link_task(&pool, 2, 0, Errand::Knocks(KNOCKS), &counts);
    let team = pool.team().expect(&rt, "refused");
    let worker = team.start(&rt, |turns| turns.place().1);
    let closed = is_closed(&pool, &mut task);
    drop_task(task);
    let left = Arc::strong_count(&counts);
    (worker, closed, pool.queued(), places_taken(&pool), left)
}

#[test]
fn a_start_cancels_what_still_waits(rt: HostRuntime) {
    assert!(rt; start_beside_a_link(rt, rt.alloc()) == (0, true, 0, (0, 0), 1));
}
