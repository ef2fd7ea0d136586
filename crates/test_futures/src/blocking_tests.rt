//! `block_on` of a future that no task runs.
//! Of what is only tested (the page of shared wakers): that `block_on` polls again after a wake of another thread.
use crate::gate::{Gate, new_gate, waits_at};
use executor::shared_waker::block_on;
use executor_parts::Awaiter;
use future_parts::{Raced, join, pending, race, ready, yield_now};
use std::alloc::Global;
use std::process::Abort;
use std::sync::{Arc, Wait};
use std::thread::{self, Threads};

// What `block_on` answers of two futures that are joined, the first of which yields.
fn join_two<R: Wait + Drop + Copy>(rt: R, alloc: Global) -> Option<((), u64)> {
    block_on(rt, alloc, join(yield_now(), ready(7u64))).ok()
}

#[test]
fn block_on_answers_the_output(rt: HostRuntime) {
    let outputs = join_two(rt, rt.alloc());
    assert!(rt; outputs == Some(((), 7)));
}

// Opens a gate as soon as a future waits at it.
fn open_for<R: Wait>(rt: &R, gate: &Gate<Awaiter<R>>)
where
    R: Drop + Copy,
{
    for _ in rt.forever() {
        if gate.polls(rt) > 0 {
            gate.open_and_wake(rt);
            return;
        }
        thread::yield_now();
    }
}

fn wait_at<R: Wait + Abort + Drop + Copy>(
    rt: R,
    alloc: Global,
    gate: &Arc<Gate<Awaiter<R>>>,
) -> Option<Raced<u64, bool>> {
    block_on(rt, alloc, race(waits_at(rt, gate, 9), pending::<bool>())).ok()
}

fn open_and_wait<R: Wait + Abort + Threads + Drop + Copy + Send + Sync>(
    rt: R,
    alloc: Global,
    gate: &Arc<Gate<Awaiter<R>>>,
) -> Option<Raced<u64, bool>> {
    let (_, output) = thread::join(&rt, || open_for(&rt, gate), || wait_at(rt, alloc, gate));
    output
}

#[test]
fn block_on_sleeps_until_another_thread_wakes_it(rt: HostRuntime) {
    let gate = new_gate(&rt, rt.alloc());
    let output = open_and_wait(rt, rt.alloc(), &gate);
    assert!(rt; output == Some(Raced::First(9)));
    assert!(rt; (gate.polls(&rt), Arc::strong_count(&gate)) == (2, 1));
}
