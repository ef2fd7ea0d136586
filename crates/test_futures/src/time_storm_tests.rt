//! Very many sleeps, half of which are dropped before their time.
//! Of what is only tested (the page of `future_time`): 100,000 sleeps.

use crate::calls::{after, look, now, sleep_until, timers};
use crate::counter::Counter;
use future_time::{Sleep, Timers};
use std::alloc::Global;
use std::process::Abort;
use std::sync::Wait;
use std::time::{Clock, Instant};

const SLEEPS: u64 = 100_000;

// Within so many milliseconds each is due.
const SPAN: u64 = 1_000;

#[derive(Drop)]
struct Sleeper<R: Wait + Clock + Drop + Copy> {
    millis: u64,
    waker: Counter,
    // Dropped before its time where it is `None`.
    sleep: Option<Sleep<R, Counter>>,
}

// A sleep that was polled once. Each second one is dropped then.
fn make_sleeper<R: Wait + Clock + Abort + Drop + Copy>(
    rt: &R,
    alloc: Global,
    timers: &Timers<R, Counter>,
    start: Instant,
    index: u64,
) -> Sleeper<R> {
    let millis = index.wrapping_mul(7_919) % SPAN;
    let waker = Counter::new(rt, alloc);
    let mut sleep = sleep_until(rt, timers, start, millis);
    look(&mut sleep, &waker);
    let is_kept = index % 2 == 0;
    Sleeper {
        millis,
        waker,
        sleep: if is_kept { Some(sleep) } else { None },
    }
}

fn sleepers<R: Wait + Clock + Abort + Drop + Copy>(
    rt: &R,
    alloc: Global,
    timers: &Timers<R, Counter>,
    start: Instant,
) -> Vec<Sleeper<R>> {
    let mut sleepers = Vec::with_capacity(alloc, SLEEPS as usize).expect(rt, "refused");
    for index in 0..SLEEPS {
        sleepers
            .push(make_sleeper(rt, alloc, timers, start, index))
            .expect(rt, "refused");
    }
    sleepers
}

// Whether it was woken as often as it may be at so many milliseconds: once, but not before its time, and never where it was dropped. Times are counted in
// whole milliseconds, so one that is due now may be woken one later.
fn is_right<R: Wait + Clock + Drop + Copy>(sleeper: &Sleeper<R>, millis: u64) -> bool {
    let wakes = sleeper.waker.wakes();
    if sleeper.sleep.is_none() {
        return wakes == 0 && sleeper.waker.owners() == 1;
    }
    if millis == sleeper.millis {
        return wakes <= 1;
    }
    wakes == u64::from(sleeper.millis < millis)
}

fn are_right<R: Wait + Clock + Drop + Copy>(sleepers: &Vec<Sleeper<R>>, millis: u64) -> bool {
    for sleeper in sleepers {
        if !is_right(sleeper, millis) {
            return false;
        }
    }
    true
}

#[test]
fn each_of_very_many_sleeps_is_woken_once_and_no_sooner(rt: HostRuntime) {
    let timers = timers(rt, rt.alloc());
    let start = now(&rt);
    let sleepers = sleepers(&rt, rt.alloc(), &timers, start);
    let made = timers.len();
    let mut all_right = true;
    for millis in [0, 1, 63, 64, 300, 301, 700, SPAN + 1] {
        timers.fire(after(&rt, start, millis));
        all_right = all_right && are_right(&sleepers, millis);
    }
    let next = timers.next_deadline();
    drop(sleepers);
    assert!(rt; made as u64 == SLEEPS / 2);
    assert!(rt; all_right && next.is_none());
    assert!(rt; timers.len() == 0);
}
