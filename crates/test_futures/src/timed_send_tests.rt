//! Memory that is refused to a channel and a timer: whichever request it is, each message that was sent comes out once, and nothing is left. Run it with each request failing in turn.
//! Of what is only tested (the page of `future_parts`): Refused memory.

use crate::calls::{after, now};
use crate::mark::Mark;
use future_parts::{Receiver, Sender, channel};
use future_time::Timers;
use std::alloc::Global;
use std::process::Abort;
use std::sync::Wait;
use std::sync::atomic::AtomicU64;
use std::time::{Clock, Duration};
use task_core::{Future, Poll};

// Waits for room until a timer is over, while there is none, gives up then, and answers whether the message is still here. The line of those who wait has no memory yet.
fn gives_up<'a, R: Wait + Clock + Abort + Drop + Copy>(
    rt: &R,
    timers: &Timers<R, Mark<'a>>,
    sender: &mut Sender<R, u64, Mark<'a>>,
    waker: &Mark<'a>,
) -> bool {
    let start = now(rt);
    let Ok(mut sleep) = timers.sleep(Duration::from_millis(10)) else {
        return true;
    };
    let mut message = Some(2);
    let waits = sender.poll_send(&mut message, waker) == Poll::Pending;
    let sleeps = sleep.poll(waker) == Poll::Pending;
    timers.fire(after(rt, start, 60_000));
    sender.give_up();
    waits && sleeps && sleep.poll(waker) != Poll::Pending && message == Some(2)
}

// Fills a channel with one message, gives another one up, takes what comes out, and answers whether it is what was sent.
fn passes<'a, R: Wait + Clock + Abort + Drop + Copy>(
    rt: &R,
    timers: &Timers<R, Mark<'a>>,
    ends: (Sender<R, u64, Mark<'a>>, Receiver<R, u64, Mark<'a>>),
    waker: &Mark<'a>,
) -> bool {
    let (mut sender, receiver) = ends;
    let first = sender.try_send(1).is_ok();
    let given_up = gives_up(rt, timers, &mut sender, waker);
    let second = receiver.try_receive().ok();
    let third = sender.try_send(3).is_ok();
    let last = (receiver.try_receive().ok(), receiver.try_receive().ok());
    first && given_up && third && second == Some(1) && last == (Some(3), None)
}

// Whether nothing is lost, whatever is refused.
fn survives<R: Wait + Clock + Abort + Drop + Copy>(
    rt: R,
    alloc: Global,
    wakes: &AtomicU64,
) -> bool {
    let waker = Mark(wakes);
    let Ok(timers) = Timers::new(rt, alloc) else {
        return true;
    };
    match channel(rt, alloc, 1, 0) {
        Ok(ends) => passes(&rt, &timers, ends, &waker) && timers.len() == 0,
        Err(_) => timers.len() == 0,
    }
}

#[test]
fn a_refusal_loses_no_message(rt: HostRuntime) {
    let wakes = AtomicU64::new(0);
    let right = survives(rt, rt.alloc(), &wakes);
    assert!(rt; right);
}
