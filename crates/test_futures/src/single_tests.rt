//! `yield_now`: that it wakes no more often than once.
//! Of what is only tested (the page of `future_parts`): Parts.
use crate::counter::{Counter, poll};
use future_parts::yield_now;
use task_core::Poll;

#[test]
fn yield_now_wakes_once_and_is_ready_then(rt: HostRuntime) {
    let waker = Counter::new(&rt, rt.alloc());
    let mut future = yield_now();
    let first = poll(&mut future, &waker);
    let woken = waker.wakes();
    let second = poll(&mut future, &waker);
    assert!(rt; (first, second) == (Poll::Pending, Poll::Ready(())));
    assert!(rt; (woken, waker.wakes()) == (1, 1));
}
