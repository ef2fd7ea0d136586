//! `interval`: which times it gives, also where a poll comes late.
//! Of what is only tested (the page of `future_time`): that a clone which a poll made is woken by `fire`.
use crate::calls::{Answer, after, look, now, timers};
use crate::counter::Counter;
use future_time::Interval;
use std::sync::Wait;
use std::time::{Clock, Duration};

// Three times were missed: they come at once, and the fourth at its own time.
#[test]
fn an_interval_leaves_no_time_out(rt: HostRuntime) {
    let timers = timers(rt, rt.alloc());
    let waker = Counter::new(&rt, rt.alloc());
    let mut interval = timers
        .interval(Duration::from_millis(100))
        .expect(&rt, "refused");
    let start = now(&rt);
    let early = look(&mut interval.tick(), &waker);
    timers.fire(after(&rt, start, 350));
    let missed = (
        look(&mut interval.tick(), &waker),
        look(&mut interval.tick(), &waker),
        look(&mut interval.tick(), &waker),
    );
    let then = look(&mut interval.tick(), &waker);
    let woken = waker.wakes();
    timers.fire(after(&rt, start, 410));
    let fourth = (look(&mut interval.tick(), &waker), waker.wakes());
    drop(interval);
    assert!(rt; early == Answer::Pending);
    assert!(rt; missed == (Answer::Over, Answer::Over, Answer::Over));
    assert!(rt; (then, woken) == (Answer::Pending, 1));
    assert!(rt; fourth == (Answer::Over, 2));
    assert!(rt; (timers.len(), waker.owners()) == (0, 1));
}

// How many times of an interval are over, one after the other. `None` where that comes to no end.
fn times_over<R: Wait + Clock + Drop + Copy>(
    interval: &mut Interval<R, Counter>,
    waker: &Counter,
) -> Option<u64> {
    for times in 0..1_000_000u64 {
        if look(&mut interval.tick(), waker) == Answer::Pending {
            return Some(times);
        }
    }
    None
}

#[test]
fn an_interval_of_no_time_is_one_of_a_millisecond(rt: HostRuntime) {
    let timers = timers(rt, rt.alloc());
    let waker = Counter::new(&rt, rt.alloc());
    let mut interval = timers.interval(Duration::ZERO).expect(&rt, "refused");
    timers.fire(after(&rt, now(&rt), 5));
    let times = times_over(&mut interval, &waker);
    assert!(rt; times.is_some_and(|times| times > 0));
}
