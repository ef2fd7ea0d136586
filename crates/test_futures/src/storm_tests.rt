//! 64 threads at one channel, and at one semaphore.
//! Of what is only tested (the page of `future_parts`): Threads.
use crate::bell::{Bell, block_on, poll_once};
use future_parts::{Permit, Receiver, Semaphore, Sender, channel};
use std::alloc::Global;
use std::process::Abort;
use std::sync::Wait;
use std::sync::atomic::{AtomicU64, Ordering};
use std::thread::{self, Threads};

/// How many threads send, and how many receive.
const SIDE: usize = 32;

/// How many messages each thread sends, and how many permits it takes.
const ROUNDS: u64 = 50;

/// How many permits there are.
const PERMITS: u64 = 3;

// Sends the numbers from 1 on.
fn send_all<R: Wait + Abort + Drop + Copy>(rt: R, alloc: Global, sender: &Sender<R, u64, Bell<R>>) {
    let mut own = sender.try_clone().expect(&rt, "refused");
    for number in 0..ROUNDS {
        drop(block_on(rt, alloc, own.send(number + 1)));
    }
}

// The sum of what it receives until all senders are gone. Each receive is begun and given up once before.
fn receive_all<R: Wait + Abort + Drop + Copy>(
    rt: R,
    alloc: Global,
    receiver: &Receiver<R, u64, Bell<R>>,
) -> u64 {
    let mut own = receiver.try_clone().expect(&rt, "refused");
    let mut sum = 0u64;
    for _ in rt.forever() {
        if let Some(early) = poll_once(rt, alloc, own.receive()) {
            match early {
                Some(number) => sum = sum.saturating_add(number),
                None => return sum,
            }
        }
        match block_on(rt, alloc, own.receive()) {
            Some(number) => sum = sum.saturating_add(number),
            None => return sum,
        }
    }
    unreachable!()
}

// 32 threads send, beside 32 that receive: the sum of what they received.
fn pass_all<R: Wait + Abort + Threads + Drop + Copy + Send + Sync>(rt: R, alloc: Global) -> u64 {
    let ends: (Sender<R, u64, Bell<R>>, Receiver<R, u64, Bell<R>>) = channel(
        rt, alloc, 4, SIDE,
    ).expect(&rt, "refused");
    let (sender, receiver) = ends;
    let (_, sums) = thread::join(
        &rt,
        move || {
            drop(thread::map_indices(&rt, alloc, SIDE, &|_: usize| send_all(rt, alloc, &sender)));
            drop(sender);
        },
        || thread::map_indices(
            &rt,
            alloc,
            SIDE,
            &|_: usize| receive_all(rt, alloc, &receiver),
        ),
    );
    let mut all = 0u64;
    for sum in sums.expect(&rt, "refused").iter() {
        all = all.saturating_add(*sum);
    }
    all
}

#[test]
fn each_message_of_a_storm_is_received_once(rt: HostRuntime) {
    let sum = pass_all(rt, rt.alloc());
    assert!(rt; sum == 32 * (50 * 51 / 2));
}

// Takes a permit so many times, and gives one up that was asked for. Answers how many were out at a time, at most.
fn take_all<R: Wait + Abort + Drop + Copy>(
    rt: R,
    alloc: Global,
    semaphore: &Semaphore<R, Bell<R>>,
    out: &AtomicU64,
) -> u64 {
    let mut most = 0;
    for _ in 0..ROUNDS {
        let asked = semaphore.try_clone().expect(&rt, "refused").acquire();
        drop(poll_once(rt, alloc, asked));
        let asked = semaphore.try_clone().expect(&rt, "refused").acquire();
        let permit: Permit<R, Bell<R>> = block_on(rt, alloc, asked);
        let others = out.fetch_add(1, Ordering::SeqCst);
        most = most.max(others.saturating_add(1));
        out.fetch_sub(1, Ordering::SeqCst);
        drop(permit);
    }
    most
}

// 64 threads take permits: how many were out at a time, and whether all are free afterwards.
fn share_permits<R: Wait + Abort + Threads + Drop + Copy + Send + Sync>(
    rt: R,
    alloc: Global,
) -> (u64, bool) {
    let semaphore: Semaphore<R, Bell<R>> = Semaphore::new(
        rt,
        alloc,
        PERMITS as usize,
        2 * SIDE,
    ).expect(&rt, "refused");
    let out = AtomicU64::new(0);
    let most = thread::map_indices(
        &rt,
        alloc,
        2 * SIDE,
        &|_: usize| { take_all(rt, alloc, &semaphore, &out) },
    );
    let mut all = 0u64;
    for one in most.expect(&rt, "refused").iter() {
        all = all.max(*one);
    }
    (all, are_all_free(rt, &semaphore))
}

// Whether all permits are free: takes one after the other.
fn are_all_free<R: Wait + Abort + Drop + Copy>(rt: R, semaphore: &Semaphore<R, Bell<R>>) -> bool {
    let first = semaphore.try_clone().expect(&rt, "refused").try_acquire();
    let second = semaphore.try_clone().expect(&rt, "refused").try_acquire();
    let third = semaphore.try_clone().expect(&rt, "refused").try_acquire();
    let fourth = semaphore.try_clone().expect(&rt, "refused").try_acquire();
    first.is_ok() && second.is_ok() && third.is_ok() && fourth.is_err()
}

#[test]
fn no_more_permits_are_out_than_there_are(rt: HostRuntime) {
    let (most, are_free) = share_permits(rt, rt.alloc());
    assert!(rt; most > 0 && most <= PERMITS && are_free);
}
