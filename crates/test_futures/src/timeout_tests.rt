//! `timeout`: which of the two it answers, and that its parts are dropped then.
//! Of what is only tested (the page of `future_time`): when the parts of a timeout are dropped.
use crate::calls::{after, now, timers};
use crate::counter::{Counter, poll};
use future_parts::{pending, yield_now};
use future_time::TimeoutError;
use std::time::Duration;
use task_core::Poll;

#[test]
fn a_timeout_answers_the_output(rt: HostRuntime) {
    let timers = timers(rt, rt.alloc());
    let waker = Counter::new(&rt, rt.alloc());
    let made = timers.timeout(Duration::from_secs(60), yield_now());
    let mut timeout = made.expect(&rt, "refused");
    let first = poll(&mut timeout, &waker);
    let kept = waker.owners();
    let second = poll(&mut timeout, &waker);
    let left = (timers.len(), waker.owners());
    let third = poll(&mut timeout, &waker);
    assert!(rt; (first, kept) == (Poll::Pending, 2));
    assert!(rt; second == Poll::Ready(Ok(())));
    assert!(rt; left == (0, 1));
    assert!(rt; third == Poll::Pending);
}

#[test]
fn a_timeout_answers_that_the_time_is_over(rt: HostRuntime) {
    let timers = timers(rt, rt.alloc());
    let waker = Counter::new(&rt, rt.alloc());
    let made = timers.timeout(Duration::from_millis(100), pending::<u64>());
    let mut timeout = made.expect(&rt, "refused");
    let start = now(&rt);
    let first = poll(&mut timeout, &waker);
    timers.fire(after(&rt, start, 101));
    let second = poll(&mut timeout, &waker);
    assert!(rt; first == Poll::Pending);
    assert!(rt; matches!(second, Poll::Ready(Err(TimeoutError::Elapsed(_)))));
    assert!(rt; (timers.len(), waker.wakes(), waker.owners()) == (0, 1, 1));
}

#[test]
fn a_timeout_of_closed_timers_says_so(rt: HostRuntime) {
    let timers = timers(rt, rt.alloc());
    let waker = Counter::new(&rt, rt.alloc());
    let made = timers.timeout(Duration::from_secs(60), pending::<u64>());
    let mut timeout = made.expect(&rt, "refused");
    let first = poll(&mut timeout, &waker);
    timers.close();
    let second = poll(&mut timeout, &waker);
    assert!(rt; first == Poll::Pending);
    assert!(rt; second == Poll::Ready(Err(TimeoutError::Closed)));
    assert!(rt; (timers.len(), waker.wakes()) == (0, 1));
}
