//! `join_all`: when a part is dropped, what is polled and woken until then, and that a drop leaves nothing.
//! Of what is only tested (the page of `future_parts`): Parts.
use crate::counter::{Counter, poll};
use crate::steps::{Steps, after_polls, no_polls, seen};
use future_parts::{JoinAll, join_all};
use std::alloc::Global;
use std::collections::VecDeque;
use std::process::Abort;
use std::sync::Arc;
use std::sync::atomic::AtomicU64;
use task_core::Poll;

// A join of futures which are pending for so many polls, and answer ten times as much.
fn join_steps<R: Abort>(
    rt: &R,
    alloc: Global,
    lefts: &[u64],
    polls: &Arc<AtomicU64>,
) -> JoinAll<Steps> {
    let mut futures = VecDeque::new(alloc);
    for &left in lefts {
        let future = after_polls(rt, left, left.wrapping_mul(10), polls);
        futures.push_back(future).expect(rt, "refused");
    }
    join_all(alloc, futures).expect(rt, "refused")
}

// The outputs, in order.
fn outputs(polled: Poll<VecDeque<u64>>) -> Option<Vec<u64>> {
    match polled {
        Poll::Ready(outputs) => Some(outputs.into_vec()),
        Poll::Pending => None,
    }
}

// One that is ready is dropped at once and not polled again: three polls, then two, then one.
#[test]
fn join_all_answers_the_outputs_in_order(rt: HostRuntime) {
    let waker = Counter::new(&rt, rt.alloc());
    let polls = no_polls(&rt, rt.alloc());
    let mut all = join_steps(&rt, rt.alloc(), &[2, 0, 1], &polls);
    let first = (outputs(poll(&mut all, &waker)), seen(&polls));
    let second = (outputs(poll(&mut all, &waker)), seen(&polls));
    let third = outputs(poll(&mut all, &waker));
    let after = (outputs(poll(&mut all, &waker)), seen(&polls));
    assert!(rt; first == (None, (3, 2)));
    assert!(rt; second == (None, (5, 1)));
    assert!(rt; third.is_some_and(|all| all.as_slice() == [20, 0, 10].as_slice()));
    assert!(rt; after == (None, (6, 0)));
    assert!(rt; waker.wakes() == 3);
}

#[test]
fn a_join_all_that_is_dropped_half_way_leaves_nothing(rt: HostRuntime) {
    let waker = Counter::new(&rt, rt.alloc());
    let polls = no_polls(&rt, rt.alloc());
    let mut all = join_steps(&rt, rt.alloc(), &[0, 5, 5], &polls);
    let answer = outputs(poll(&mut all, &waker));
    let halfway = seen(&polls);
    drop(all);
    assert!(rt; answer == None);
    assert!(rt; (halfway, seen(&polls)) == ((3, 2), (3, 0)));
}
