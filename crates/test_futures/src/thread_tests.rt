//! Timers that a thread drives, and futures that threads await. Nothing here depends on how fast the machine is: a sleep may last longer than its time.
//! Of what is only tested (the page of `future_time`): what a driver does, and 64 threads that sleep.
use crate::calls::now;
use executor::shared_waker::block_on;
use executor_parts::Awaiter;
use future_parts::join;
use future_time::Timers;
use std::alloc::Global;
use std::process::Abort;
use std::sync::Wait;
use std::sync::atomic::{AtomicU64, Ordering};
use std::thread::{self, Threads};
use std::time::{Clock, Duration};

const SLEEPERS: u64 = 64;

// How often each of them sleeps.
const TIMES: u64 = 4;

// Sleeps on this thread, and answers whether the time was over, and no sooner.
fn sleep_for<R: Wait + Clock + Abort + Drop + Copy>(
    rt: R,
    alloc: Global,
    timers: &Timers<R, Awaiter<R>>,
    millis: u64,
) -> bool {
    let duration = Duration::from_millis(millis);
    let start = now(&rt);
    let sleep = timers.sleep(duration).expect(&rt, "refused");
    let output = block_on(rt, alloc, sleep).expect(&rt, "refused");
    output.is_ok() && now(&rt).duration_since(start) >= duration
}

fn sleep_often<R: Wait + Clock + Abort + Drop + Copy>(
    rt: R,
    alloc: Global,
    timers: &Timers<R, Awaiter<R>>,
    index: u64,
    right: &AtomicU64,
) {
    for time in 0..TIMES {
        if sleep_for(rt, alloc, timers, (index ^ time) % 8) {
            right.fetch_add(1, Ordering::SeqCst);
        }
    }
}

// All sleepers at once: whether each has a thread.
fn sleep_side_by_side<R: Wait + Clock + Abort + Threads + Drop + Copy + Send + Sync>(
    rt: R,
    alloc: Global,
    timers: &Timers<R, Awaiter<R>>,
    right: &AtomicU64,
) -> bool {
    let all = thread::scope(thread::scope_env(), &rt, |scope| {
        for index in 0..SLEEPERS {
            let sleeper = move || sleep_often(rt, alloc, timers, index, right);
            if scope.spawn(sleeper).is_err() {
                return false;
            }
        }
        true
    });
    timers.close();
    all
}

fn drive_and_sleep<R: Wait + Clock + Abort + Threads + Drop + Copy + Send + Sync>(
    rt: R,
    alloc: Global,
    timers: &Timers<R, Awaiter<R>>,
    right: &AtomicU64,
) -> bool {
    let (driven, all) = thread::join(
        &rt,
        || timers.run().is_ok(),
        || sleep_side_by_side(rt, alloc, timers, right),
    );
    driven && all
}

#[test]
fn many_threads_sleep_by_one_driver(rt: HostRuntime) {
    let timers = Timers::new(rt, rt.alloc()).expect(&rt, "refused");
    let right = AtomicU64::new(0);
    let ended = drive_and_sleep(rt, rt.alloc(), &timers, &right);
    assert!(rt; ended && right.load(Ordering::SeqCst) == SLEEPERS * TIMES);
    assert!(rt; timers.len() == 0);
}

// Sleeps an hour and a moment, and answers whether the moment was over. The driver may sleep until the hour is over, unless it is told of the moment.
fn sleep_beside_an_hour<R: Wait + Clock + Abort + Drop + Copy>(
    rt: R,
    alloc: Global,
    timers: &Timers<R, Awaiter<R>>,
) -> bool {
    let hour = timers
        .sleep(Duration::from_secs(3_600))
        .expect(&rt, "refused");
    thread::sleep(&rt, Duration::from_millis(20));
    let right = sleep_for(rt, alloc, timers, 5);
    drop(hour);
    timers.close();
    right
}

fn drive_beside_an_hour<R: Wait + Clock + Abort + Threads + Drop + Copy + Send + Sync>(
    rt: R,
    alloc: Global,
    timers: &Timers<R, Awaiter<R>>,
) -> (bool, bool) {
    thread::join(
        &rt,
        || timers.run().is_ok(),
        || sleep_beside_an_hour(rt, alloc, timers),
    )
}

#[test]
fn a_driver_is_told_of_an_earlier_timer(rt: HostRuntime) {
    let timers = Timers::new(rt, rt.alloc()).expect(&rt, "refused");
    let ended = drive_beside_an_hour(rt, rt.alloc(), &timers);
    assert!(rt; ended == (true, true));
}

// Two sleeps that a task awaits side by side.
fn sleep_twice<R: Wait + Clock + Abort + Drop + Copy>(
    rt: R,
    alloc: Global,
    timers: &Timers<R, Awaiter<R>>,
) -> bool {
    let start = now(&rt);
    let first = timers
        .sleep(Duration::from_millis(3))
        .expect(&rt, "refused");
    let second = timers
        .sleep(Duration::from_millis(9))
        .expect(&rt, "refused");
    let outputs = block_on(rt, alloc, join(first, second)).expect(&rt, "refused");
    timers.close();
    let lasted = now(&rt).duration_since(start);
    outputs.0.is_ok() && outputs.1.is_ok() && lasted >= Duration::from_millis(9)
}

fn drive_two<R: Wait + Clock + Abort + Threads + Drop + Copy + Send + Sync>(
    rt: R,
    alloc: Global,
    timers: &Timers<R, Awaiter<R>>,
) -> (bool, bool) {
    thread::join(
        &rt,
        || timers.run().is_ok(),
        || sleep_twice(rt, alloc, timers),
    )
}

#[test]
fn sleeps_are_joined(rt: HostRuntime) {
    let timers = Timers::new(rt, rt.alloc()).expect(&rt, "refused");
    let ended = drive_two(rt, rt.alloc(), &timers);
    assert!(rt; ended == (true, true));
}
