//! Whole inputs, and what is printed of them.
//! Of what is only tested (crates/task_replay/README.md): Text.

use crate::tests::stops::holds;
use crate::tests::told::Told;
use rows_fixtures::limited::Limited;
use std::alloc::Global;
use std::process::Abort;
use task_replay::row::Shown;
use task_replay::trace::trace;

fn traced<R: Abort>(rt: &R, alloc: Global, shown: Shown, input: &[u8]) -> Told {
    let mut out = Vec::new(alloc);
    let mut err = Vec::new(alloc);
    let status = trace(alloc, shown, input, &mut out, &mut err);
    Told::new(rt, status, out, err)
}

// Stops where not all steps are played, or other rows are printed below the head.
pub(crate) fn prints<R: Abort>(rt: &R, alloc: Global, shown: Shown, input: &str, rows: &str) {
    let told = traced(rt, alloc, shown, input.as_bytes());
    let are_rows = told.out.as_str().strip_prefix(HEAD) == Some(rows);
    holds(rt, told.is_well() && are_rows, &input);
}

pub(crate) const HEAD: &str =
    "| Step | Act | Word | Flags | Count | Future | Output | Awaiter | Parties |
|---|---|---|---|---|---|---|---|---|
| 0 | spawn | 0x111 | SCHEDULED TASK | 1 | cell | empty | empty | 0 At(Runnable), 1 At(Task(0)), 2 At(Lent) |
";

// A run whose poll answers Ready, and the Task that drops afterwards.
pub(crate) const READY: &str = "limit 4
0 start-run
0 start-poll
0 answer-ready
0 drop-future
0 store-output
0 complete
0 give-up-reference
0 end-call
1 claim-output
";

const READY_ROWS: &str = "\
| 1 | 0 start-run | 0x112 | RUNNING TASK | 1 | party 0 | empty | empty | 0 Starting, 1 At(Task(0)), 2 At(Lent) |
| 2 | 0 start-poll | 0x112 | RUNNING TASK | 1 | party 0 | empty | empty | 0 Polling, 1 At(Task(0)), 2 At(Lent) |
| 3 | 0 answer-ready | 0x112 | RUNNING TASK | 1 | party 0 | empty | empty | 0 Ready, 1 At(Task(0)), 2 At(Lent) |
| 4 | 0 drop-future | 0x112 | RUNNING TASK | 1 | empty | empty | empty | 0 ReadyFutureDropped, 1 At(Task(0)), 2 At(Lent) |
| 5 | 0 store-output | 0x112 | RUNNING TASK | 1 | empty | party 0 | empty | 0 OutputStored, 1 At(Task(0)), 2 At(Lent) |
| 6 | 0 complete | 0x114 | COMPLETED TASK | 1 | empty | cell | empty | 0 GivingUp(None, Ran(false)), 1 At(Task(0)), 2 At(Lent) |
| 7 | 0 give-up-reference | 0x014 | COMPLETED TASK | 0 | empty | cell | empty | 0 CallEnding(Ran(false), Ended), 1 At(Task(0)), 2 At(Lent) |
| 8 | 0 end-call | 0x014 | COMPLETED TASK | 0 | empty | cell | empty | 1 At(Task(0)), 2 At(Lent) |
| 9 | 1 claim-output | 0x01C | COMPLETED CLOSED TASK | 0 | empty | party 1 | empty | 1 TookOutput(1), 2 At(Lent) |
";

// A wake of an idle task, and the hand-over of the Runnable that it makes.
const IDLE: &str = "# An idle wake.
limit 4
0 start-run
0 start-poll
2 gain-reference # the lent waker is cloned
2 end-call

0 answer-pending
0 end-idle
0 end-call
3 wake-idle
3 end-call
4 hand-over
4 end-call
";

const IDLE_ROWS: &str = "\
| 1 | 0 start-run | 0x112 | RUNNING TASK | 1 | party 0 | empty | empty | 0 Starting, 1 At(Task(0)), 2 At(Lent) |
| 2 | 0 start-poll | 0x112 | RUNNING TASK | 1 | party 0 | empty | empty | 0 Polling, 1 At(Task(0)), 2 At(Lent) |
| 3 | 2 gain-reference | 0x212 | RUNNING TASK | 2 | party 0 | empty | empty | 0 Polling, 1 At(Task(0)), 2 CallEnding(Gained(true), Lent), 3 At(Waker) |
| 4 | 2 end-call | 0x212 | RUNNING TASK | 2 | party 0 | empty | empty | 0 Polling, 1 At(Task(0)), 2 At(Lent), 3 At(Waker) |
| 5 | 0 answer-pending | 0x212 | RUNNING TASK | 2 | party 0 | empty | empty | 0 Pending, 1 At(Task(0)), 2 At(Lent), 3 At(Waker) |
| 6 | 0 end-idle | 0x110 | TASK | 1 | cell | empty | empty | 0 CallEnding(Ran(false), Ended), 1 At(Task(0)), 2 At(Lent), 3 At(Waker) |
| 7 | 0 end-call | 0x110 | TASK | 1 | cell | empty | empty | 1 At(Task(0)), 2 At(Lent), 3 At(Waker) |
| 8 | 3 wake-idle | 0x211 | SCHEDULED TASK | 2 | cell | empty | empty | 1 At(Task(0)), 2 At(Lent), 3 CallEnding(Nothing, Waker), 4 Deliverer(false, ThenEnds(Nothing)) |
| 9 | 3 end-call | 0x211 | SCHEDULED TASK | 2 | cell | empty | empty | 1 At(Task(0)), 2 At(Lent), 3 At(Waker), 4 Deliverer(false, ThenEnds(Nothing)) |
| 10 | 4 hand-over | 0x211 | SCHEDULED TASK | 2 | cell | empty | empty | 1 At(Task(0)), 2 At(Lent), 3 At(Waker), 4 CallEnding(Nothing, Ended), 5 At(Runnable) |
| 11 | 4 end-call | 0x211 | SCHEDULED TASK | 2 | cell | empty | empty | 1 At(Task(0)), 2 At(Lent), 3 At(Waker), 5 At(Runnable) |
";

// A first poll that registers.
const REGISTER: &str = "limit 4
1 look
1 clone-awaiter
1 begin-register
1 store-awaiter
1 end-register
";

const REGISTER_ROWS: &str = "\
| 1 | 1 look | 0x111 | SCHEDULED TASK | 1 | cell | empty | empty | 0 At(Runnable), 1 Registrar(1), 2 At(Lent) |
| 2 | 1 clone-awaiter | 0x111 | SCHEDULED TASK | 1 | cell | empty | empty | 0 At(Runnable), 1 HasClone(1), 2 At(Lent) |
| 3 | 1 begin-register | 0x151 | SCHEDULED TASK REGISTERING | 1 | cell | empty | empty | 0 At(Runnable), 1 Storing(1), 2 At(Lent) |
| 4 | 1 store-awaiter | 0x151 | SCHEDULED TASK REGISTERING | 1 | cell | empty | party 1, of poll 1 | 0 At(Runnable), 1 Registered(1), 2 At(Lent) |
| 5 | 1 end-register | 0x131 | SCHEDULED TASK AWAITER | 1 | cell | empty | cell, of poll 1 | 0 At(Runnable), 1 Looking(1), 2 At(Lent) |
";

#[test]
fn a_row_is_printed_for_each_step(rt: HostRuntime) {
    prints(&rt, rt.alloc(), Shown::All, READY, READY_ROWS);
    prints(&rt, rt.alloc(), Shown::All, IDLE, IDLE_ROWS);
    prints(&rt, rt.alloc(), Shown::All, REGISTER, REGISTER_ROWS);
}

// The same life of a task, with the parties that a step has changed or added. One that ends is shown once more.
const IDLE_CHANGES: &str = "\
| 1 | 0 start-run | 0x112 | RUNNING TASK | 1 | party 0 | empty | empty | 0 Starting |
| 2 | 0 start-poll | 0x112 | RUNNING TASK | 1 | party 0 | empty | empty | 0 Polling |
| 3 | 2 gain-reference | 0x212 | RUNNING TASK | 2 | party 0 | empty | empty | 2 CallEnding(Gained(true), Lent), 3 At(Waker) |
| 4 | 2 end-call | 0x212 | RUNNING TASK | 2 | party 0 | empty | empty | 2 At(Lent) |
| 5 | 0 answer-pending | 0x212 | RUNNING TASK | 2 | party 0 | empty | empty | 0 Pending |
| 6 | 0 end-idle | 0x110 | TASK | 1 | cell | empty | empty | 0 CallEnding(Ran(false), Ended) |
| 7 | 0 end-call | 0x110 | TASK | 1 | cell | empty | empty | 0 At(Ended) |
| 8 | 3 wake-idle | 0x211 | SCHEDULED TASK | 2 | cell | empty | empty | 3 CallEnding(Nothing, Waker), 4 Deliverer(false, ThenEnds(Nothing)) |
| 9 | 3 end-call | 0x211 | SCHEDULED TASK | 2 | cell | empty | empty | 3 At(Waker) |
| 10 | 4 hand-over | 0x211 | SCHEDULED TASK | 2 | cell | empty | empty | 4 CallEnding(Nothing, Ended), 5 At(Runnable) |
| 11 | 4 end-call | 0x211 | SCHEDULED TASK | 2 | cell | empty | empty | 4 At(Ended) |
";

// A call by reference: it gets a party of its own by a load, gains a waker and wakes.
const BY_REFERENCE: &str = "limit 4
2 look
3 gain-reference
3 end-call
3 wake-scheduled
3 end-call
";

const BY_REFERENCE_CHANGES: &str = "\
| 1 | 2 look | 0x111 | SCHEDULED TASK | 1 | cell | empty | empty | 2 At(Lent), 3 At(Lent) |
| 2 | 3 gain-reference | 0x211 | SCHEDULED TASK | 2 | cell | empty | empty | 3 CallEnding(Gained(true), Lent), 4 At(Waker) |
| 3 | 3 end-call | 0x211 | SCHEDULED TASK | 2 | cell | empty | empty | 3 At(Lent) |
| 4 | 3 wake-scheduled | 0x211 | SCHEDULED TASK | 2 | cell | empty | empty | 3 CallEnding(Nothing, Lent) |
| 5 | 3 end-call | 0x211 | SCHEDULED TASK | 2 | cell | empty | empty | 3 At(Lent) |
";

#[test]
fn a_row_shows_what_its_step_changed(rt: HostRuntime) {
    let alloc = rt.alloc();
    prints(&rt, alloc, Shown::Changed, IDLE, IDLE_CHANGES);
    prints(
        &rt,
        alloc,
        Shown::Changed,
        BY_REFERENCE,
        BY_REFERENCE_CHANGES,
    );
}

// A limit, the first step, and why it is not allowed.
const REFUSED: [(u64, &str, &str); 7] = [
    (4, "7 look", "there are 3 parties, counted from 0."),
    (
        4,
        "0 complete",
        "it is never made at At(Runnable), where gain-reference, find-limit, discard-open, discard-closed, take-up-closed, start-run, hand-over, refuse-gain may be made.",
    ),
    (
        4,
        "1 claim-output",
        "the word 0x111 does not fit, 0x115 would: COMPLETED set.",
    ),
    (
        4,
        "0 take-up-closed",
        "the word 0x111 does not fit, 0x119 would: CLOSED set.",
    ),
    (
        4,
        "1 cancel-idle",
        "the word 0x111 does not fit, 0x110 would: SCHEDULED clear.",
    ),
    (
        1,
        "0 gain-reference",
        "the word 0x111 does not fit, 0x011 would: count 0.",
    ),
    (0, "0 gain-reference", "no word fits at this limit."),
];

// Stops where this step is not refused for this reason, or more is printed before that than the head.
fn is_refused<R: Abort>(rt: &R, alloc: Global, limit: u64, step: &str, reason: &str) {
    let input = format!(in alloc; "limit {limit}\n{step}\n1 look\n");
    let input = input.expect(rt, "refused");
    let told = traced(rt, alloc, Shown::All, input.as_str().as_bytes());
    let wanted = format!(in alloc; "{HEAD}\nStep 1, `{step}`, is not allowed: {reason}\n");
    let wanted = wanted.expect(rt, "refused");
    holds(rt, told.is(1, wanted.as_str(), ""), &step);
}

#[test]
fn a_refused_step_is_told_with_its_reason(rt: HostRuntime) {
    for &(limit, step, reason) in &REFUSED {
        is_refused(&rt, rt.alloc(), limit, step, reason);
    }
}

// A waker has given up the last reference of an open task, which it is about to close: a lent waker wakes it no more.
const ORPHANED: &str = "limit 4
0 start-run
0 start-poll
2 gain-reference
2 end-call
0 answer-pending
0 end-idle
0 end-call
1 detach
1 end-call
3 orphan-task
2 wake-idle
";

// The last handle is gone: a lent waker finds that the task is over, and gains nothing.
const DROPPED: &str = "limit 4
1 detach
1 end-call
0 discard-open
0 drop-future
0 unschedule
0 give-up-last-reference
0 empty-slots
0 end-call
2 wake-over
2 end-call
2 gain-reference
";

// Stops where the last step is not refused so.
fn ends_refused<R: Abort>(rt: &R, alloc: Global, input: &str, refusal: &str) {
    let told = traced(rt, alloc, Shown::All, input.as_bytes());
    let is_last = told.out.as_str().ends_with(refusal);
    holds(
        rt,
        told.status == 1 && told.err.is_empty() && is_last,
        &refusal,
    );
}

const NOT_WOKEN: &str =
    "\nStep 11, `2 wake-idle`, is not allowed: the word 0x000 does not fit, 0x010 would: TASK set.\n";

const NOT_GAINED: &str =
    "\nStep 11, `2 gain-reference`, is not allowed: the word 0x008 does not fit, 0x018 would: TASK set.\n";

#[test]
fn a_lent_waker_is_refused_where_no_handle_is_left(rt: HostRuntime) {
    ends_refused(&rt, rt.alloc(), ORPHANED, NOT_WOKEN);
    ends_refused(&rt, rt.alloc(), DROPPED, NOT_GAINED);
}

const UNREAD: [(&[u8], &str); 12] = [
    (b"", "line 1: expected `limit` and a number below 2^64\n"),
    (
        b"# nothing\n\n",
        "line 3: expected `limit` and a number below 2^64\n",
    ),
    (
        b"0 look\n",
        "line 1: expected `limit` and a number below 2^64\n",
    ),
    (
        b"limit 4\n\nlook\n",
        "line 3: expected the number of a party, below 2^64\n",
    ),
    (b"limit 4\n1\n", "line 2: expected the name of an act\n"),
    (
        b"limit 4\n1 loom\n",
        "line 2: expected the name of an act in place of \"loom\": `look` is the nearest\n",
    ),
    (
        b"limit 4\n0 start_run # once\n",
        "line 2: expected the name of an act in place of \"start_run\": `start-run` is the nearest\n",
    ),
    (
        b"limit 4\n1 spin\n",
        "line 2: expected the name of an act in place of \"spin\": `replay_trace --help` lists them\n",
    ),
    // Of a long word the beginning is told: here 60 bytes, and 59 where the 60th is inside of a letter.
    (
        b"limit 4\n1 1234567890123456789012345678901234567890123456789012345678901\n",
        "line 2: expected the name of an act in place of a word that begins with \"123456789012345678901234567890123456789012345678901234567890\": `replay_trace --help` lists them\n",
    ),
    (
        b"limit 4\n1 12345678901234567890123456789012345678901234567890123456789\xC3\xA41\n",
        "line 2: expected the name of an act in place of a word that begins with \"12345678901234567890123456789012345678901234567890123456789\": `replay_trace --help` lists them\n",
    ),
    (
        b"limit 4\n1 look now\n",
        "line 2: expected the end of the line\n",
    ),
    (b"limit 4\n\xFF\n", "line 2: expected text in UTF-8\n"),
];

// Each line that cannot be read is told, and nothing is printed but the head, if the limit was read.
#[test]
fn a_line_that_cannot_be_read_is_named(rt: HostRuntime) {
    for &(input, text) in &UNREAD {
        let told = traced(&rt, rt.alloc(), Shown::All, input);
        let rows = if input.starts_with(b"limit") {
            HEAD
        } else {
            ""
        };
        holds(&rt, told.is(2, rows, text), &text);
    }
}

// The status, where `out` takes this many bytes and then fails, and may fail to flush.
fn status_of(alloc: Global, input: &str, left: usize, flushes: bool) -> (u8, usize) {
    let mut limited = Limited { left, flushes };
    let mut err = Vec::new(alloc);
    let status = trace(alloc, Shown::All, input.as_bytes(), &mut limited, &mut err);
    (status, err.len())
}

#[test]
fn a_writer_that_fails_gives_status_one(rt: HostRuntime) {
    let whole = HEAD.len().saturating_add(READY_ROWS.len());
    for (left, flushes) in [
        (0, true),
        (3, true),
        (400, true),
        (whole.saturating_sub(1), true),
        (whole, false),
    ] {
        let (status, _) = status_of(rt.alloc(), READY, left, flushes);
        holds(&rt, status == 1, &left);
    }
}

// What was printed of the steps before is flushed also where the trace ends early: where that fails it is told, and the status is 1.
#[test]
fn a_trace_that_ends_early_is_flushed(rt: HostRuntime) {
    for &input in &["limit 4\n7 look\n", "limit 4\nlook\n"] {
        let (status, told) = status_of(rt.alloc(), input, 4000, false);
        holds(&rt, status == 1 && told > 0, &input);
    }
}
