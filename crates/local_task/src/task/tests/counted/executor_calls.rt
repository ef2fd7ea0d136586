//! The calls of the executor.

use super::*;

// An open task, one that is not queued, and a closed one: with the Task, and detached.
const STARTS: [Case; 7] = [
    (&[Poll(1)], Kept),
    (&[Poll(1), Start], Kept),
    (&[Poll(1), Start, Pending], Kept),
    (&[Cancel], Unknown),
    (&[Cancel, Poll(1)], Woken),
    (&[Cancel, Poll(1), Detach], Woken),
    (&[Poll(1), Cancel], WokenBefore),
];

#[test]
fn a_start_wakes_the_awaiter_of_a_closed_task(rt: HostRuntime) {
    all_meet(&rt, &STARTS, Start, Unknown);
    meets(&rt, &[Poll(1), Cancel, Poll(2)], Start, WokenBefore, Woken);
}

const ORPHANS: [Case; 3] = [
    (&[Poll(1), Start, Pending, Detach], Dropped),
    (&[Poll(1), Start, Detach, Pending], Dropped),
    (&[Poll(1), Start, Pending, Detach, AddWaker], Kept),
];

// Whoever ends an orphaned task drops its awaiter, unless a waker was added meanwhile.
#[test]
fn an_orphaned_task_drops_its_awaiter_at_its_end(rt: HostRuntime) {
    all_meet(&rt, &ORPHANS, Start, Unknown);
    all_meet(&rt, &ORPHANS, Discard, Unknown);
}

// Open, woken, closed, and without Task: alone and with a waker.
const READIES: [Case; 8] = [
    (&[Start], Unknown),
    (&[Poll(1), Start], Woken),
    (&[Start, Poll(1)], Woken),
    (&[Poll(1), Start, Wake], Woken),
    (&[Start, Cancel, Poll(1)], Woken),
    (&[Poll(1), Start, Cancel], WokenBefore),
    (&[Poll(1), Start, Detach], Woken),
    (&[Poll(1), AddWaker, Start, Detach], Woken),
];

#[test]
fn a_settle_with_ready_wakes_the_awaiter(rt: HostRuntime) {
    all_meet(&rt, &READIES, Ready, Unknown);
    meets(&rt, &[Poll(1), Start, Poll(2)], Ready, DroppedBefore, Woken);
}

// With the Task, and detached.
const CLOSED: [Case; 5] = [
    (&[Start, Cancel], Unknown),
    (&[Start, Cancel, Poll(1)], Woken),
    (&[Start, Wake, Cancel, Poll(1)], Woken),
    (&[Start, Cancel, Poll(1), Detach], Woken),
    (&[Poll(1), Start, Cancel], WokenBefore),
];

#[test]
fn a_settle_with_pending_wakes_the_awaiter_of_a_closed_task(rt: HostRuntime) {
    all_meet(&rt, &CLOSED, Pending, Unknown);
}

// Woken, with its Task, with a waker alone, and orphaned.
const OPEN: [Case; 5] = [
    (&[Poll(1), Start, Wake], Kept),
    (&[Poll(1), Start], Kept),
    (&[Poll(1), Start, AddWaker, Detach], Kept),
    (&[Poll(1), Start, Wake, Detach], Kept),
    (&[Poll(1), Start, Detach], Kept),
];

#[test]
fn a_settle_with_pending_keeps_the_awaiter_of_an_open_task(rt: HostRuntime) {
    all_meet(&rt, &OPEN, Pending, Unknown);
}

// Open, closed, detached, and detached with a waker left.
const DISCARDS: [Case; 6] = [
    (&[], Unknown),
    (&[Poll(1)], Woken),
    (&[Cancel, Poll(1)], Woken),
    (&[Poll(1), Detach], Woken),
    (&[Poll(1), AddWaker, Detach], Woken),
    (&[Poll(1), Cancel], WokenBefore),
];

#[test]
fn a_discard_wakes_the_awaiter(rt: HostRuntime) {
    all_meet(&rt, &DISCARDS, Discard, Unknown);
    meets(&rt, &[Poll(1), Poll(2)], Discard, DroppedBefore, Woken);
}
