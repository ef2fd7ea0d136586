//! The polls of the Task.

use super::*;

#[test]
fn a_new_task_knows_no_awaiter(rt: HostRuntime) {
    meets(&rt, &[], Start, Unknown, Unknown);
}

// Queued, polling, woken and idle, and the first three once more on a closed task.
const STORES: [Case; 7] = [
    (&[], Kept),
    (&[Start], Kept),
    (&[Start, Wake], Kept),
    (&[Start, Pending], Kept),
    (&[Cancel], Kept),
    (&[Start, Cancel], Kept),
    (&[Start, Wake, Cancel], Kept),
];

#[test]
fn a_poll_stores_one_clone(rt: HostRuntime) {
    all_meet(&rt, &STORES, Poll(1), Unknown);
}

const STORES_OVER: [Case; 7] = [
    (&[Poll(1)], Dropped),
    (&[Poll(1), Start], Dropped),
    (&[Poll(1), Start, Wake], Dropped),
    (&[Poll(1), Start, Pending], Dropped),
    (&[Cancel, Poll(1)], Dropped),
    (&[Start, Cancel, Poll(1)], Dropped),
    (&[Poll(1), Cancel], WokenBefore),
];

#[test]
fn a_poll_hands_the_older_awaiter_out(rt: HostRuntime) {
    all_meet(&rt, &STORES_OVER, Poll(2), Kept);
}

// While the future is there, no awaiter is compared: the clone of the same awaiter takes the place of the older one.
const STORES_ANEW: [Case; 4] = [
    (&[Poll(1)], Replaced),
    (&[Poll(1), Start], Replaced),
    (&[Poll(1), Start, Pending], Replaced),
    (&[Cancel, Poll(1)], Replaced),
];

#[test]
fn a_poll_by_the_stored_awaiter_clones_it_anew(rt: HostRuntime) {
    all_meet(&rt, &STORES_ANEW, Poll(1), Unknown);
}

const REFUSALS: [Case; 5] = [
    (&[], Unknown),
    (&[Poll(1)], Kept),
    (&[Poll(1), Start], Kept),
    (&[Poll(1), Start, Pending], Kept),
    (&[Cancel, Poll(1)], Kept),
];

#[test]
fn a_refused_clone_leaves_the_older_awaiter_there(rt: HostRuntime) {
    all_meet(&rt, &REFUSALS, RefusedPoll, Refused);
    meets(&rt, &[Poll(1), RefusedPoll], Discard, Woken, Refused);
}

// Completed, claimed, and closed: nobody is asked for a clone, nor compared.
const DONE: [Case; 5] = [
    (&[Start, Ready], Unknown),
    (&[Start, Ready, Poll(1)], Unknown),
    (&[Cancel, Start], Unknown),
    (&[Discard], Unknown),
    (&[Poll(1), Start, Ready], WokenBefore),
];

#[test]
fn a_poll_of_a_done_task_clones_nothing(rt: HostRuntime) {
    all_meet(&rt, &DONE, Poll(1), Unknown);
    meets(&rt, &[Start, Ready], RefusedPoll, Unknown, Unknown);
    meets(&rt, &[Poll(1), Start, Ready], Poll(2), WokenBefore, Unknown);
}

const COMPARED: Counts = Counts {
    comparisons: 1,
    ..CLONE
};

const COMPARED_AND_WOKEN: Counts = Counts {
    wakes: 1,
    ..COMPARED
};

const COMPARED_AND_DROPPED: Counts = Counts {
    drops: 1,
    ..COMPARED
};

// A poll by the same awaiter as the stored one, and by another.
const SAME: [Counted; 2] = [
    [COMPARED, COMPARED_AND_DROPPED, COMPARED_AND_DROPPED],
    [NONE, NONE, NONE],
];

const ANOTHER: [Counted; 2] = [
    [COMPARED, COMPARED_AND_WOKEN, COMPARED_AND_WOKEN],
    [NONE, NONE, NONE],
];

// Stops where not this is counted, as that awaiter polls a task that is done, in which the awaiter 1 is stored.
fn meets_done(rt: &impl Abort, stage: Stage<u8, u8>, number: usize, wanted: &[Counted; 2]) {
    let pair = Pair::new();
    let stored = pair.awaiter(1, false);
    let task: Task<'_> = LocalTask {
        metadata: "metadata",
        stage,
        has_task: true,
        wakers: 0,
        awaiter: traits::Wake::try_clone(&stored).ok(),
        forgotten: false,
    };
    stored.go();
    holds(rt, counted_from(rt, task, Poll(number), &pair) == *wanted);
}

// A task that is done holds no awaiter: the awaiter 1 is put there to show what a poll would do. Each poll compares it once, by its own `will_wake`.
#[test]
fn a_poll_of_a_done_task_hands_a_stored_awaiter_out(rt: HostRuntime) {
    meets_done(&rt, Stage::Completed(OUTPUT), 1, &SAME);
    meets_done(&rt, Stage::Completed(OUTPUT), 2, &ANOTHER);
    meets_done(&rt, Stage::Ended, 1, &SAME);
    meets_done(&rt, Stage::Ended, 2, &ANOTHER);
}
