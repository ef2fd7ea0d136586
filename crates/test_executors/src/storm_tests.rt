//! A test of wakes by four threads while a fifth one runs the task.
//! Of what is only tested (docs/PROOFS.md): Threads.

use crate::calls;
use rows_fixtures::behaviour::Behaviour;
use rows_fixtures::counters::{Counter, Counts};
use rows_fixtures::counting::Counting;
use rows_fixtures::fixture::Fixture;
use rows_fixtures::surroundings::{RowWaker, SentRunnable};
use std::alloc::Global;
use std::process::Abort;
use std::sync::Wait;
use std::thread;
use std::thread::{Scope, Threads, yield_now};

// How many threads wake, how often each does, and how often the runner looks at the queue at most.
const THREADS: u64 = 4;

const WAKES: u32 = 1_000;

const TURNS: u32 = 10_000_000;

// A waker that is for another thread.
#[derive(Drop)]
struct SentWaker<'x, 'm, R: Wait + Drop + Copy> {
    waker: RowWaker<'x, 'm, R>,
}

impl<'x, 'm, R: Wait + Drop + Copy> SentWaker<'x, 'm, R> {
    // What each of the four threads does.
    fn wake_often(self, ended: &Counter) {
        for _ in 0..WAKES {
            self.waker.wake_by_ref();
        }
        drop(self);
        ended.add_one();
    }
}

// Runs whatever is queued, until the four threads have ended and the queue is empty. False where that was not reached.
fn run_to_the_end<R: Wait + Drop + Copy>(fixture: &Fixture<'_, R>, ended: &Counter) -> bool {
    for _ in 0..TURNS {
        let over = ended.get() == THREADS;
        if fixture.surroundings.run_next().is_none() && over {
            return true;
        }
        yield_now();
    }
    false
}

// Has another thread wake the task. False where it was refused a waker or a thread.
fn start_waking<'s, 'x: 's, 'm: 's, E, R: Wait + Drop + Copy + Send + Sync + 's>(
    scope: &Scope<'s, E>,
    sent: &SentRunnable<'x, 'm, R>,
    ended: &'s Counter,
) -> bool {
    let Ok(waker) = sent.runnable.waker() else {
        return false;
    };
    let sent = SentWaker { waker };
    scope.spawn(move || sent.wake_often(ended)).is_ok()
}

// The first run, and those that four threads wake the task for: whether all threads came and the last run was made.
fn storm<'x, 'm, R: Wait + Threads + Drop + Copy + Send + Sync>(
    rt: &R,
    fixture: &'x Fixture<'m, R>,
    ended: &Counter,
    sent: SentRunnable<'x, 'm, R>,
) -> bool {
    thread::scope(thread::scope_env(), rt, |scope| {
        for _ in 0..THREADS {
            if !start_waking(scope, &sent, ended) {
                return false;
            }
        }
        sent.run();
        run_to_the_end(fixture, ended)
    })
}

// Spawns a task that four threads wake, drops the Task and runs once more: whether all threads came and the last run was made,
// the run after the drop was the one of a closed task, and no two polls overlapped; and what was counted before the drop and at last.
fn wake_by_four<R: Wait + Threads + Abort + Drop + Copy + Send + Sync>(
    rt: R,
    alloc: Global,
) -> (bool, [Counts; 2]) {
    let counting = Counting::new(alloc);
    let fixture = calls::fixture(rt, alloc, &counting);
    let (runnable, task) = fixture
        .spawn(Behaviour::Pending, u64::MAX)
        .expect(&rt, "refused");
    let ended = Counter::new();
    let all_ended = storm(&rt, &fixture, &ended, SentRunnable { runnable });
    let idle = fixture.counts();
    drop(task);
    let ran = fixture.surroundings.run_next();
    let right = all_ended && ran == Some(false) && fixture.counters.overlaps.get() == 0;
    (right, [idle, fixture.counts()])
}

// Each Runnable that a wake hands over is polled once, and no two polls overlap.
#[test]
fn four_threads_wake_one_task(rt: HostRuntime) {
    let (right, [idle, last]) = wake_by_four(rt, rt.alloc());
    let polls = idle.0;
    assert!(rt; right);
    assert!(rt;
        [idle, last]
            == [
                Counts(polls, polls.wrapping_sub(1), 0, 0),
                Counts(polls, polls, 1, 1)
            ]
    );
}
