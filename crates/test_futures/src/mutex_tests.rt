//! A mutex: its value, and who has it next.
//! Of what is only tested (the page of `future_parts`): Outer calls.
use crate::counter::{Counter, is_ready, output};
use crate::token::{Token, make_token, no_tokens, tokens};
use future_parts::{AsyncMutex, Guard, Lock};
use std::alloc::Global;
use std::process::Abort;
use std::sync::{Arc, Wait};

fn lock_of<R: Wait + Abort + Drop + Copy, T: Drop>(
    rt: R,
    mutex: &AsyncMutex<R, T, Counter>,
) -> Lock<R, T, Counter> {
    mutex.try_clone().expect(&rt, "refused").lock()
}

fn guard_of<R: Wait + Abort + Drop + Copy, T: Drop>(
    rt: R,
    mutex: &AsyncMutex<R, T, Counter>,
) -> Option<Guard<R, T, Counter>> {
    mutex.try_clone().expect(&rt, "refused").try_lock().ok()
}

// Adds to the number that a guard holds, and answers it.
fn add<R: Wait + Drop + Copy>(guard: Option<Guard<R, u64, Counter>>, more: u64) -> u64 {
    match guard {
        Some(mut guard) => {
            let value = guard.get_mut();
            *value = value.saturating_add(more);
            *guard.get()
        }
        None => 0,
    }
}

#[test]
fn who_has_waited_longest_has_the_value_next(rt: HostRuntime) {
    let waker = Counter::new(&rt, rt.alloc());
    let other = Counter::new(&rt, rt.alloc());
    let mutex = AsyncMutex::new(rt, rt.alloc(), 1u64, 2).expect(&rt, "refused");
    let held = guard_of(rt, &mutex);
    let mut first = lock_of(rt, &mutex);
    let mut second = lock_of(rt, &mutex);
    let early = (is_ready(&mut first, &waker), is_ready(&mut second, &other));
    let one = add(held, 1);
    let woken = (waker.seen(), other.seen());
    let stolen = guard_of(rt, &mutex).is_some();
    let two = add(output(&mut first, &waker), 1);
    let three = add(output(&mut second, &other), 1);
    assert!(rt; early == (false, false) && woken == ((1, 0), (0, 1)) && !stolen);
    assert!(rt; (one, two, three) == (2, 3, 4));
}

// The first waiter goes with the value assigned to it: the second one has it.
fn cancel<R: Wait + Abort + Drop + Copy>(
    rt: R,
    alloc: Global,
    count: &Arc<()>,
) -> (bool, Option<u64>, usize) {
    let waker = Counter::new(&rt, alloc);
    let mutex = AsyncMutex::new(rt, alloc, make_token(&rt, count, 5), 0).expect(&rt, "refused");
    let held = guard_of(rt, &mutex);
    let mut first = lock_of(rt, &mutex);
    let mut second = lock_of(rt, &mutex);
    let early = is_ready(&mut first, &waker) || is_ready(&mut second, &waker);
    drop(held);
    drop(first);
    let there = output(&mut second, &waker).is_some();
    let waits = guard_of(rt, &mutex).map(|guard| tokens_of(&guard));
    (early || !there, waits, tokens(count))
}

fn tokens_of<R: Wait + Drop + Copy>(guard: &Guard<R, Token, Counter>) -> u64 {
    guard.get().shown()
}

#[test]
fn the_value_of_a_waiter_that_goes_is_handed_on(rt: HostRuntime) {
    let count = no_tokens(&rt, rt.alloc());
    let (is_wrong, number, there) = cancel(rt, rt.alloc(), &count);
    assert!(rt; !is_wrong && number == Some(5));
    assert!(rt; (there, tokens(&count)) == (1, 0));
}
