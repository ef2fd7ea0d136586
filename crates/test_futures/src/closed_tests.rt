//! Timers that are closed while futures await them.
//! Of what is only tested (the page of `future_time`): that a clone which a poll made is woken by `close`.
use crate::calls::{Answer, after, look, now, sleep_until, timers};
use crate::counter::Counter;

#[test]
fn a_close_wakes_each_future_that_waits_once(rt: HostRuntime) {
    let timers = timers(rt, rt.alloc());
    let first = Counter::new(&rt, rt.alloc());
    let second = Counter::new(&rt, rt.alloc());
    let start = now(&rt);
    let mut due = sleep_until(&rt, &timers, start, 10);
    let mut waiting = sleep_until(&rt, &timers, start, 500);
    look(&mut due, &first);
    look(&mut waiting, &second);
    timers.fire(after(&rt, start, 11));
    timers.close();
    timers.close();
    let wakes = (first.wakes(), second.wakes());
    let answers = (look(&mut due, &first), look(&mut waiting, &second));
    assert!(rt; wakes == (1, 1));
    assert!(rt; answers == (Answer::Over, Answer::Failed));
    assert!(rt; timers.next_deadline().is_none());
}

#[test]
fn a_sleep_of_closed_timers_fails_at_its_first_poll(rt: HostRuntime) {
    let timers = timers(rt, rt.alloc());
    let waker = Counter::new(&rt, rt.alloc());
    timers.close();
    let ended = timers.run();
    let mut sleep = sleep_until(&rt, &timers, now(&rt), 10);
    let answer = look(&mut sleep, &waker);
    drop(sleep);
    assert!(rt; ended.is_ok() && answer == Answer::Failed);
    assert!(rt; (timers.len(), waker.wakes(), waker.owners()) == (0, 0, 1));
}
