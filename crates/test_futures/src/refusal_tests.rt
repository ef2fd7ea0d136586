//! Memory that is refused: whichever request it is, no timer that was made is lost. Run them with each request failing in turn.
//! Of what is only tested (the page of `future_time`): that a refused request for memory loses no timer.
use crate::calls::{after, now};
use crate::mark::Mark;
use future_time::{Sleep, TimerError, Timers};
use std::alloc::Global;
use std::process::Abort;
use std::sync::Wait;
use std::sync::atomic::{AtomicU64, Ordering};
use std::time::{Clock, Instant};
use task_core::{Future, Poll};

const SLEEPS: usize = 40;

// Sleeps that were polled once: as many as are granted. `None` where one is refused for another reason than memory.
fn sleeps<'a, R: Wait + Clock + Abort + Drop + Copy>(
    rt: &R,
    timers: &Timers<R, Mark<'a>>,
    start: Instant,
    waker: &Mark<'a>,
    mut sleeps: Vec<Sleep<R, Mark<'a>>>,
) -> Option<Vec<Sleep<R, Mark<'a>>>> {
    for _ in 0..SLEEPS {
        match timers.sleep_until(after(rt, start, 10)) {
            Ok(mut sleep) => {
                let _ = sleep.poll(waker);
                let _ = sleeps.push(sleep);
            }
            Err(TimerError::Refused) => {}
            Err(TimerError::Clock) => return None,
        }
    }
    Some(sleeps)
}

// Whether each sleep that was granted is woken once and over, and no other is there.
fn is_kept<'a, R: Wait + Clock + Abort + Drop + Copy>(
    rt: &R,
    timers: &Timers<R, Mark<'a>>,
    waker: &Mark<'a>,
    room: Vec<Sleep<R, Mark<'a>>>,
) -> bool {
    let start = now(rt);
    let Some(mut sleeps) = sleeps(rt, timers, start, waker, room) else {
        return false;
    };
    let made = sleeps.len();
    let counted = timers.len();
    timers.fire(after(rt, start, 11));
    for sleep in &mut sleeps {
        if !matches!(sleep.poll(waker), Poll::Ready(Ok(_))) {
            return false;
        }
    }
    made == counted && waker.0.load(Ordering::SeqCst) == made as u64
}

// Whether nothing is lost, whatever is refused.
fn survives<R: Wait + Clock + Abort + Drop + Copy>(
    rt: R,
    alloc: Global,
    wakes: &AtomicU64,
) -> bool {
    let waker = Mark(wakes);
    let timers = match Timers::new(rt, alloc) {
        Ok(timers) => timers,
        Err(error) => return error == TimerError::Refused,
    };
    match Vec::with_capacity(alloc, SLEEPS) {
        Ok(room) => is_kept(&rt, &timers, &waker, room) && timers.len() == 0,
        Err(_) => timers.len() == 0,
    }
}

#[test]
fn a_refusal_loses_no_timer(rt: HostRuntime) {
    let wakes = AtomicU64::new(0);
    let right = survives(rt, rt.alloc(), &wakes);
    assert!(rt; right);
}
