//! A semaphore: who has the next permit, and that none is lost.
//! Of what is only tested (the page of `future_parts`): Outer calls.
use crate::counter::{Counter, is_ready, output};
use future_parts::{Acquire, Permit, Semaphore};
use std::alloc::Global;
use std::process::Abort;
use std::sync::Wait;

// A semaphore with room for two waiters. Stops where there is no memory.
fn semaphore<R: Wait + Abort + Drop + Copy>(
    rt: R,
    alloc: Global,
    permits: usize,
) -> Semaphore<R, Counter> {
    Semaphore::new(rt, alloc, permits, 2).expect(&rt, "refused")
}

// A future that waits for a permit of it.
fn acquires<R: Wait + Abort + Drop + Copy>(
    rt: R,
    semaphore: &Semaphore<R, Counter>,
) -> Acquire<R, Counter> {
    semaphore.try_clone().expect(&rt, "refused").acquire()
}

// A permit, where one is free.
fn permit<R: Wait + Abort + Drop + Copy>(
    rt: R,
    semaphore: &Semaphore<R, Counter>,
) -> Option<Permit<R, Counter>> {
    semaphore
        .try_clone()
        .expect(&rt, "refused")
        .try_acquire()
        .ok()
}

#[test]
fn who_waits_longest_has_the_next_permit(rt: HostRuntime) {
    let waker = Counter::new(&rt, rt.alloc());
    let other = Counter::new(&rt, rt.alloc());
    let all = semaphore(rt, rt.alloc(), 1);
    let mut first = acquires(rt, &all);
    let mut second = acquires(rt, &all);
    let held = permit(rt, &all);
    let early = (is_ready(&mut first, &waker), is_ready(&mut second, &other));
    let before = (waker.seen(), other.seen());
    drop(held);
    let after = (waker.seen(), other.seen());
    let stolen = permit(rt, &all).is_some();
    let late = (is_ready(&mut second, &other), is_ready(&mut first, &waker));
    assert!(rt; early == (false, false) && before == ((0, 1), (0, 1)));
    assert!(rt; after == ((1, 0), (0, 1)) && !stolen);
    assert!(rt; late == (false, true));
}

// The first waiter goes with a permit that was assigned to it, the second one without.
#[test]
fn a_waiter_that_is_dropped_loses_no_permit(rt: HostRuntime) {
    let waker = Counter::new(&rt, rt.alloc());
    let other = Counter::new(&rt, rt.alloc());
    let all = semaphore(rt, rt.alloc(), 1);
    let mut first = acquires(rt, &all);
    let mut second = acquires(rt, &all);
    let mut third = acquires(rt, &all);
    let held = permit(rt, &all);
    let early = [
        is_ready(&mut first, &waker),
        is_ready(&mut second, &waker),
        is_ready(&mut third, &other),
    ];
    drop(second);
    drop(held);
    let given = (waker.seen(), other.seen());
    drop(first);
    let passed = (waker.seen(), other.seen());
    let late = is_ready(&mut third, &other);
    let free = permit(rt, &all).is_some();
    assert!(rt; early == [false, false, false]);
    assert!(rt; given == ((1, 0), (0, 1)) && passed == ((1, 0), (1, 0)));
    assert!(rt; late && free);
}

// A poll that has no clone to leave wakes itself, and leaves nothing.
#[test]
fn a_refused_clone_wakes_at_once(rt: HostRuntime) {
    let waker = Counter::alone(&rt, rt.alloc());
    let all = semaphore(rt, rt.alloc(), 1);
    let held = permit(rt, &all);
    let mut waits = acquires(rt, &all);
    let early = is_ready(&mut waits, &waker);
    let woken = waker.seen();
    drop(held);
    let late = output(&mut waits, &waker).is_some();
    assert!(rt; !early && woken == (1, 0) && late);
}

// The waker of the last poll is the one that is woken.
#[test]
fn the_waker_of_the_last_poll_is_woken(rt: HostRuntime) {
    let waker = Counter::new(&rt, rt.alloc());
    let other = Counter::new(&rt, rt.alloc());
    let all = semaphore(rt, rt.alloc(), 1);
    let held = permit(rt, &all);
    let mut waits = acquires(rt, &all);
    let early = (is_ready(&mut waits, &waker), is_ready(&mut waits, &other));
    let kept = (waker.seen(), other.seen());
    drop(held);
    assert!(rt; early == (false, false) && kept == ((0, 0), (0, 1)));
    assert!(rt; waker.seen() == (0, 0) && other.seen() == (1, 0));
    drop(waits);
    drop(all);
}
