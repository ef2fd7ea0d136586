//! A test of a waker that two threads share by reference.
//! Of what is only tested (docs/PROOFS.md): Threads.
ghost use Rattle.std.specs.Prelude.{⊤};

use async_task::{Future, Poll, Runnable, Schedule, ScheduleInfo, TaskWaker, Yields, spawn};
use executor_parts::Nobody;
use rows_fixtures::counters::Counter;
use std::alloc::Global;
use std::process::Abort;
use std::sync::Wait;
use std::thread;
use std::thread::{Threads, yield_now};

// How often one thread wakes, and how often a thread looks for the other one at most.
const WAKES: u32 = 1_000;

const TURNS: u32 = 10_000_000;

// How often a Runnable came to the schedule value, how often one left it, and whether the other thread has woken.
#[derive(Drop)]
struct Meeting {
    entered: Counter,
    left: Counter,
    woken: Counter,
}

// The future: it answers Pending, and keeps no waker.
#[derive(Drop)]
struct Idle;

impl Yields for Idle {
    type Output = ();
}

impl<W> Future<W> for Idle {
    ghost polled = { λ _ _ _ _. ⊤ };

    fn poll(&mut self, _waker: &W) -> Poll<()> {
        Poll::Pending
    }
}

// The schedule value: it stops until the other thread has woken, and then drops the Runnable.
#[derive(Drop)]
struct Stops;

type StoppedRunnable<'x, R> = Runnable<R, Idle, Stops, (), Nobody, &'x Meeting>;

type SharedWaker<'x, R> = TaskWaker<R, Idle, Stops, (), Nobody, &'x Meeting>;

impl<'x, R: Wait + Drop + Copy> Schedule<StoppedRunnable<'x, R>> for Stops {
    ghost scheduled = { λ _ _ _. ⊤ };

    fn schedule(&self, runnable: StoppedRunnable<'x, R>, _info: ScheduleInfo) {
        let meeting = runnable.around();
        meeting.entered.add_one();
        comes(&meeting.woken);
        meeting.left.add_one();
        drop(runnable);
    }
}

// Waits until somebody came: whether one did.
fn comes(counter: &Counter) -> bool {
    for _ in 0..TURNS {
        if counter.get() != 0 {
            return true;
        }
        yield_now();
    }
    false
}

// Wakes often while a wake by the same waker stops in the schedule value: whether it stopped throughout.
fn wake_beside<R: Wait + Drop + Copy>(waker: &SharedWaker<'_, R>, meeting: &Meeting) -> bool {
    if !comes(&meeting.entered) {
        return false;
    }
    for _ in 0..WAKES {
        waker.wake_by_ref();
    }
    let stopped = meeting.left.get() == 0;
    meeting.woken.add_one();
    stopped
}

// Wakes by one waker in two threads.
fn wake_by_two<'x, R: Wait + Threads + Drop + Copy + Send + Sync>(
    rt: &R,
    waker: &SharedWaker<'x, R>,
    meeting: &'x Meeting,
) -> bool {
    thread::scope(thread::scope_env(), rt, |scope| {
        if scope.spawn(move || drop(waker.wake_by_ref())).is_err() {
            return false;
        }
        wake_beside(waker, meeting)
    })
}

// Spawns an idle task, and wakes it by one waker in two threads.
fn wakes_go_on<'x, R: Wait + Threads + Abort + Drop + Copy + Send + Sync>(
    rt: R,
    alloc: Global,
    meeting: &'x Meeting,
) -> bool {
    let (runnable, task) = spawn(rt, alloc, Idle, Stops, meeting).expect(&rt, "refused");
    let Ok(waker) = runnable.waker() else {
        return false;
    };
    runnable.run();
    let stopped = wake_by_two(&rt, &waker, meeting);
    drop(waker);
    drop(task);
    stopped
}

// A wake by a shared waker waits for no other wake by it.
#[test]
fn wakes_by_one_waker_do_not_wait_for_each_other(rt: HostRuntime) {
    let meeting = Meeting {
        entered: Counter::new(),
        left: Counter::new(),
        woken: Counter::new(),
    };
    let stopped = wakes_go_on(rt, rt.alloc(), &meeting);
    assert!(rt; (stopped, meeting.entered.get(), meeting.left.get()) == (true, 1, 1));
}
