//! `sleep`, at times that the test gives: when it is ready, when its waker is woken, and what a drop leaves.
//! Of what is only tested (the page of `future_time`): that a clone which a poll made is woken by `fire`.
use crate::calls::{Answer, after, look, now, sleep_until, timers};
use crate::counter::Counter;

// The time is counted in whole milliseconds, so a sleep is over one later at most.
#[test]
fn a_sleep_is_over_at_its_time_and_no_sooner(rt: HostRuntime) {
    let timers = timers(rt, rt.alloc());
    let waker = Counter::new(&rt, rt.alloc());
    let start = now(&rt);
    let mut sleep = sleep_until(&rt, &timers, start, 100);
    let first = look(&mut sleep, &waker);
    timers.fire(after(&rt, start, 99));
    let early = (look(&mut sleep, &waker), waker.wakes());
    let next = timers.fire(after(&rt, start, 101));
    let late = (look(&mut sleep, &waker), waker.wakes());
    timers.fire(after(&rt, start, 200));
    assert!(rt; first == Answer::Pending);
    assert!(rt; early == (Answer::Pending, 0));
    assert!(rt; late == (Answer::Over, 1));
    assert!(rt; next.is_none() && waker.wakes() == 1 && timers.len() == 1);
}

// The waker of the last poll is woken, and the one before it is dropped.
#[test]
fn a_later_poll_takes_the_place_of_the_one_before(rt: HostRuntime) {
    let timers = timers(rt, rt.alloc());
    let before = Counter::new(&rt, rt.alloc());
    let last = Counter::new(&rt, rt.alloc());
    let start = now(&rt);
    let mut sleep = sleep_until(&rt, &timers, start, 10);
    look(&mut sleep, &before);
    let kept = before.owners();
    look(&mut sleep, &last);
    let dropped = before.owners();
    timers.fire(after(&rt, start, 11));
    assert!(rt; (kept, dropped) == (2, 1));
    assert!(rt; (before.wakes(), last.wakes()) == (0, 1));
}

#[test]
fn a_sleep_that_is_dropped_leaves_nothing(rt: HostRuntime) {
    let timers = timers(rt, rt.alloc());
    let waker = Counter::new(&rt, rt.alloc());
    let start = now(&rt);
    let mut sleep = sleep_until(&rt, &timers, start, 10);
    look(&mut sleep, &waker);
    let kept = (
        waker.owners(),
        timers.len(),
        timers.next_deadline().is_some(),
    );
    drop(sleep);
    let left = (
        waker.owners(),
        timers.len(),
        timers.next_deadline().is_some(),
    );
    timers.fire(after(&rt, start, 20));
    assert!(rt; kept == (2, 1, true));
    assert!(rt; left == (1, 0, false));
    assert!(rt; waker.wakes() == 0);
}

// A wake of its own has the future polled again, in place of a timer that wakes nobody.
#[test]
fn a_waker_that_refuses_a_clone_is_woken_at_once(rt: HostRuntime) {
    let timers = timers(rt, rt.alloc());
    let waker = Counter::alone(&rt, rt.alloc());
    let start = now(&rt);
    let mut sleep = sleep_until(&rt, &timers, start, 10);
    let early = (look(&mut sleep, &waker), waker.wakes());
    timers.fire(after(&rt, start, 11));
    let late = (look(&mut sleep, &waker), waker.wakes());
    assert!(rt; early == (Answer::Pending, 1));
    assert!(rt; late == (Answer::Over, 1));
}

// The next deadline is that of the first of two, and is not asked for later than that.
#[test]
fn the_next_deadline_is_no_later_than_any(rt: HostRuntime) {
    let timers = timers(rt, rt.alloc());
    let start = now(&rt);
    let late = sleep_until(&rt, &timers, start, 5_000);
    let soon = sleep_until(&rt, &timers, start, 70);
    let both = timers.next_deadline();
    drop(soon);
    let one = timers.next_deadline();
    let fired = timers.fire(after(&rt, start, 4_999));
    drop(late);
    let bounds = (after(&rt, start, 71), after(&rt, start, 5_001));
    assert!(rt; both.is_some_and(|at| at <= bounds.0));
    assert!(rt; one.is_some_and(|at| at <= bounds.1));
    assert!(rt; fired.is_some_and(|at| at <= bounds.1));
    assert!(rt; timers.next_deadline().is_none());
}
