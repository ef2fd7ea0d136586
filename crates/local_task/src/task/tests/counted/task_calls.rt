//! The cancel and the detach of the Task.

use super::*;

// Queued, polling, woken and idle.
const CANCELS: [Case; 6] = [
    (&[], Unknown),
    (&[Poll(1)], Woken),
    (&[Poll(1), Start], Woken),
    (&[Poll(1), Start, Wake], Woken),
    (&[Poll(1), Start, Pending], Woken),
    (&[Poll(1), AddWaker], Woken),
];

#[test]
fn a_cancel_wakes_the_awaiter_of_an_open_task(rt: HostRuntime) {
    all_meet(&rt, &CANCELS, Cancel, Unknown);
    meets(&rt, &[Poll(1), Poll(2)], Cancel, DroppedBefore, Woken);
}

const OVER: [Case; 6] = [
    (&[Cancel, Poll(1)], Kept),
    (&[Start, Cancel, Poll(1)], Kept),
    (&[Start, Wake, Cancel, Poll(1)], Kept),
    (&[Poll(1), Cancel], WokenBefore),
    (&[Poll(1), Start, Ready], WokenBefore),
    (&[Poll(1), Discard], WokenBefore),
];

#[test]
fn a_cancel_leaves_the_awaiter_of_a_closed_or_done_task(rt: HostRuntime) {
    all_meet(&rt, &OVER, Cancel, Unknown);
}

// Queued, polling, idle with a waker, idle and so orphaned, and closed.
const DETACHES: [Case; 7] = [
    (&[], Unknown),
    (&[Poll(1)], Kept),
    (&[Poll(1), Start], Kept),
    (&[Poll(1), Start, Pending, AddWaker], Kept),
    (&[Poll(1), Start, Pending], Kept),
    (&[Cancel, Poll(1)], Kept),
    (&[Start, Cancel, Poll(1)], Kept),
];

#[test]
fn a_detach_keeps_the_awaiter_of_a_task_with_its_future(rt: HostRuntime) {
    all_meet(&rt, &DETACHES, Detach, Unknown);
}

const DONE: [Case; 3] = [
    (&[Poll(1), Start, Ready], WokenBefore),
    (&[Poll(1), Start, Ready, Poll(1)], WokenBefore),
    (&[Poll(1), Discard], WokenBefore),
];

#[test]
fn a_detach_of_a_done_task_ends_no_awaiter_again(rt: HostRuntime) {
    all_meet(&rt, &DONE, Detach, Unknown);
}
