//! A race of the last waker's drop with the end of a run.

use crate::races::handles;
use crate::races::raced::RaceSurroundings;
use crate::races::rounds::{Calls, Rounds, Tally};
use std::alloc::Global;
use std::process::Abort;
use std::sync::Wait;
use std::thread;
use std::thread::Threads;

// How many rounds each of the two races has. By hand there may be more.
const ROUNDS: u64 = 50_000;

// What the second thread does: it drops the waker of each round. `thread` says which delays it has.
fn drop_all<R: Wait + Drop + Copy>(
    rt: &R,
    rounds: &Rounds,
    surroundings: &RaceSurroundings<R>,
    drops: &Calls,
    thread: u64,
) {
    for round in 0..ROUNDS {
        rounds.open(rt, round);
        let waker = surroundings.take_kept();
        rounds.start(round, thread);
        drops.begun.add_one();
        drop(waker);
        drops.ended.add_one();
        rounds.close(rt, round);
    }
}

// One round: a run of a task that was detached, beside the drop of its only waker. Whether the two calls overlapped; and
// whether all has ended: after a run that answered pending, by one more Runnable, and after one that answered ready, at once.
fn run_once<R: Wait + Abort + Drop + Copy>(
    rt: &R,
    rounds: &Rounds,
    surroundings: &RaceSurroundings<R>,
    drops: &Calls,
    round: u64,
) -> (bool, bool) {
    let is_ready = round % 2 == 0;
    let (runnable, task) = surroundings.spawn(is_ready);
    let waker = handles::waker_of(rt, &runnable);
    handles::detach(task);
    surroundings.keep(waker);
    rounds.open(rt, round);
    rounds.start(round, 1);
    let ended_before = drops.ended.get();
    let rescheduled = handles::run(runnable);
    let met = drops.overlap(ended_before);
    rounds.close(rt, round);
    let handed_over = surroundings.run_next();
    let right = !rescheduled && handed_over != is_ready;
    (met, right && surroundings.ended(round.wrapping_add(1)))
}

// All rounds of a race, by two threads. The second one has the delays of `thread`.
fn play<R: Wait + Abort + Threads + Drop + Copy + Send + Sync>(
    rt: R,
    rounds: &Rounds,
    surroundings: &RaceSurroundings<R>,
    drops: &Calls,
    tally: &Tally,
    thread: u64,
) {
    thread::scope(thread::scope_env(), &rt, |scope| {
        let dropping = scope.spawn(move || drop_all(&rt, rounds, surroundings, drops, thread));
        if dropping.is_err() {
            return;
        }
        for round in 0..ROUNDS {
            let (met, right) = run_once(&rt, rounds, surroundings, drops, round);
            tally.count(met, right);
        }
    });
}

// A race: each spawned Runnable is polled once. In every second round the run answers pending, and the last handle schedules one more
// Runnable, of a closed task, which is not polled.
fn race<R: Wait + Abort + Threads + Drop + Copy + Send + Sync>(rt: R, alloc: Global, thread: u64) {
    let surroundings = RaceSurroundings::new(rt, alloc);
    let rounds = Rounds::new(2);
    let tally = Tally::new();
    let drops = Calls::new();
    play(rt, &rounds, &surroundings, &drops, &tally, thread);
    let all_right = tally.rounds.get() == ROUNDS && tally.faults.get() == 0;
    let counts = surroundings.counts();
    assert!(rt; all_right && counts == [ROUNDS / 2, ROUNDS, ROUNDS / 2]);
    tally.assert_met(&rt, "drops overlapped a run");
}

#[test]
fn the_last_waker_goes_beside_a_run(rt: HostRuntime) {
    race(rt, rt.alloc(), 2);
}

// The same, with other delays, so that the two calls meet at other points.
#[test]
fn the_last_waker_goes_later_beside_a_run(rt: HostRuntime) {
    race(rt, rt.alloc(), 5);
}
