//! Tasks that await one another: a chain, and a ring.
use super::line::{Errand, Line};
use async_task::Poll;
use std::alloc::Global;
use std::process::Abort;
use std::sync::Wait;

// How many tasks the chain has.
const CHAIN: usize = 1000;

// Each task awaits the next one, and the last answers 1: whether a poll of the first tells one more than the length of the chain.
fn run_chain<R: Wait + Abort + Drop + Copy>(rt: R, alloc: Global) -> bool {
    let line = Line::new(rt, alloc, CHAIN);
    for number in 0..CHAIN {
        let errand = if number + 1 < CHAIN {
            Errand::Await(number + 1)
        } else {
            Errand::GiveWay(1)
        };
        line.spawn_kept(number, errand);
    }
    line.run();
    matches!(line.poll_kept(0, 0), Poll::Ready(1001))
}

#[test]
fn a_chain_of_tasks_that_await_one_another(rt: HostRuntime) {
    assert!(rt; run_chain(rt, rt.alloc()));
}

// Two tasks that await each other, of which the first is then cancelled: whether the second was pending before, and whether it is over after that.
fn cancel_in_ring<R: Wait + Abort + Drop + Copy>(rt: R, alloc: Global) -> (bool, bool) {
    let line = Line::new(rt, alloc, 2);
    for number in 0..2usize {
        line.spawn_kept(number, Errand::Await(1 - number));
    }
    line.run();
    let first = line.task_of(0);
    let mut second = line.task_of(1);
    let pending = !second.is_finished();
    drop(first);
    line.run();
    (pending, second.is_finished())
}

#[test]
fn a_ring_of_two_ends_by_a_cancel(rt: HostRuntime) {
    let (pending, finished) = cancel_in_ring(rt, rt.alloc());
    assert!(rt; pending && finished);
}
