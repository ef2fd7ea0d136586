//! The calls that the tests of timers make.
ghost use Rattle.std.specs.Prelude.{⊤};

use crate::counter::Counter;
use future_time::{Sleep, Timers};
use std::alloc::Global;
use std::process::Abort;
use std::sync::Wait;
use std::time::{Clock, Duration, Instant};
use task_core::{Future, Poll};

/// Timers of the futures that a counting waker polls. Stops where there is no memory or no clock.
pub fn timers<R: Wait + Clock + Abort + Drop + Copy>(rt: R, alloc: Global) -> Timers<R, Counter> {
    Timers::new(rt, alloc).expect(&rt, "refused")
}

/// The time. Stops where there is no clock.
pub fn now<R: Clock + Abort>(rt: &R) -> Instant {
    Instant::now(rt).expect(rt, "refused")
}

/// So many milliseconds after an instant. Stops where the clock ends before.
pub fn after<R: Abort>(rt: &R, start: Instant, millis: u64) -> Instant {
    start
        .checked_add(Duration::from_millis(millis))
        .expect(rt, "refused")
}

/// A sleep until so many milliseconds after an instant. Stops where it is refused.
pub fn sleep_until<R: Wait + Clock + Abort + Drop + Copy>(
    rt: &R,
    timers: &Timers<R, Counter>,
    start: Instant,
    millis: u64,
) -> Sleep<R, Counter> {
    timers
        .sleep_until(after(rt, start, millis))
        .expect(rt, "refused")
}

/// What a poll answered: nothing, that the time is over, or an error.
#[derive(Clone, Copy, Debug, PartialEq, Eq)]
pub enum Answer {
    /// There is no output yet.
    Pending,
    /// The time is over.
    Over,
    /// The timers were closed before.
    Failed,
}

/// A poll of a timer, by the counting waker.
pub fn look<T: Drop, E: Drop, F: Future<Counter, Output = Result<T, E>>>(
    future: &mut F,
    waker: &Counter,
) -> Answer {
    match future.poll(waker) {
        Poll::Pending => Answer::Pending,
        Poll::Ready(Ok(_)) => Answer::Over,
        Poll::Ready(Err(_)) => Answer::Failed,
    }
}
