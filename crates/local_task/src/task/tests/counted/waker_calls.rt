//! The calls of wakers.

use super::*;

// Queued, polling, idle, closed, orphaned and done.
const STAYS: [Case; 6] = [
    (&[Poll(1)], Kept),
    (&[Poll(1), Start], Kept),
    (&[Poll(1), Start, Pending], Kept),
    (&[Cancel, Poll(1)], Kept),
    (&[Poll(1), Start, Pending, Detach], Kept),
    (&[Poll(1), Start, Ready], WokenBefore),
];

#[test]
fn a_wake_and_a_new_waker_leave_the_awaiter_there(rt: HostRuntime) {
    all_meet(&rt, &STAYS, Wake, Unknown);
    all_meet(&rt, &STAYS, AddWaker, Unknown);
}

// Not the last one, one beside the Task, one of a queued task, and the last of an idle task, which is orphaned.
const DROPS: [Case; 4] = [
    (&[Poll(1), AddWaker, AddWaker, Start, Pending, Detach], Kept),
    (&[Poll(1), AddWaker, Start, Pending], Kept),
    (&[Poll(1), AddWaker, Detach], Kept),
    (&[Poll(1), AddWaker, Start, Pending, Detach], Kept),
];

#[test]
fn a_dropped_waker_leaves_the_awaiter_there(rt: HostRuntime) {
    all_meet(&rt, &DROPS, DropWaker, Unknown);
}

#[test]
fn the_last_waker_of_an_idle_task_has_its_awaiter_forgotten(rt: HostRuntime) {
    let orphan = [Poll(1), AddWaker, Start, Pending, Detach, DropWaker];
    meets(&rt, &orphan, Start, Dropped, Unknown);
    meets(&rt, &orphan, Discard, Dropped, Unknown);
}

const FORGOTTEN: [Case; 3] = [
    (&[Poll(1), Start, Pending, Detach, AddWaker, Start], Dropped),
    (
        &[Poll(1), Start, Pending, Detach, AddWaker, Discard],
        Dropped,
    ),
    (&[Poll(1), AddWaker, Start, Detach, Ready], WokenBefore),
];

// A waker that was added to an orphaned task outlives its future, and then its awaiter goes with the waker.
#[test]
fn the_last_waker_of_a_done_task_drops_a_forgotten_awaiter(rt: HostRuntime) {
    all_meet(&rt, &FORGOTTEN, DropWaker, Unknown);
}
