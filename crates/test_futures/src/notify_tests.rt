//! `Notify`: whom it notifies, and what is kept.
//! Of what is only tested (the page of `future_parts`): Outer calls.
use crate::counter::{Counter, is_ready};
use future_parts::{Notified, Notify};
use std::alloc::Global;
use std::process::Abort;
use std::sync::Wait;

fn notify<R: Wait + Abort + Drop + Copy>(rt: R, alloc: Global) -> Notify<R, Counter> {
    Notify::new(rt, alloc, 2).expect(&rt, "refused")
}

fn notified<R: Wait + Abort + Drop + Copy>(
    rt: R,
    notify: &Notify<R, Counter>,
) -> Notified<R, Counter> {
    notify.try_clone().expect(&rt, "refused").notified()
}

#[test]
fn one_notification_is_kept(rt: HostRuntime) {
    let waker = Counter::new(&rt, rt.alloc());
    let all = notify(rt, rt.alloc());
    all.notify_one();
    all.notify_one();
    let mut first = notified(rt, &all);
    let mut second = notified(rt, &all);
    let early = (is_ready(&mut first, &waker), is_ready(&mut second, &waker));
    all.notify_one();
    let late = is_ready(&mut second, &waker);
    assert!(rt; early == (true, false) && late && waker.seen() == (1, 0));
}

// The first of two waiters goes with its notification.
#[test]
fn a_notification_of_a_waiter_that_goes_is_handed_on(rt: HostRuntime) {
    let waker = Counter::new(&rt, rt.alloc());
    let other = Counter::new(&rt, rt.alloc());
    let all = notify(rt, rt.alloc());
    let mut first = notified(rt, &all);
    let mut second = notified(rt, &all);
    let early = (is_ready(&mut first, &waker), is_ready(&mut second, &other));
    all.notify_one();
    let given = (waker.seen(), other.seen());
    drop(first);
    let passed = (waker.seen(), other.seen());
    drop(second);
    let mut third = notified(rt, &all);
    let late = is_ready(&mut third, &waker);
    assert!(rt; early == (false, false) && given == ((1, 0), (0, 1)));
    assert!(rt; passed == ((1, 0), (1, 0)) && late);
}

// Who waits is notified, and nothing is kept for who comes later.
#[test]
fn all_waiters_are_notified(rt: HostRuntime) {
    let waker = Counter::new(&rt, rt.alloc());
    let all = notify(rt, rt.alloc());
    let mut first = notified(rt, &all);
    let mut second = notified(rt, &all);
    let mut third = notified(rt, &all);
    let early = [
        is_ready(&mut first, &waker),
        is_ready(&mut second, &waker),
        is_ready(&mut third, &waker),
    ];
    all.notify_waiters();
    let woken = waker.seen();
    let mut later = notified(rt, &all);
    let late = [
        is_ready(&mut later, &waker),
        is_ready(&mut third, &waker),
        is_ready(&mut first, &waker),
        is_ready(&mut second, &waker),
    ];
    assert!(rt; early == [false; 3] && woken == (3, 0));
    assert!(rt; late == [false, true, true, true]);
}
