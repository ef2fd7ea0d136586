//! Each row of the table of moves, refused: a word at which one thing of what the row asks for does not fit, and the word that is told in its place.
//! So a refusal tells the nearest word, and that no word fits.
//!
//! A case says how that word is reached. The word that is told is the one found, with that one thing as the row asks for it; where two flags would do,
//! the word of the lower number.
//!
//! What no run reaches has no case: COMPLETED beside SCHEDULED or RUNNING, and a word that does not fit EndClosed or EndRegisterNotified where a party is
//! to make them. CloseOrphan, Unschedule and EndNotify ask for nothing. These five are refused by the position alone.
//! Of what is only tested (crates/task_replay/README.md): Refusals.

use crate::tests::stops::holds;
use crate::tests::turns::{halves, is_refused_at, player_after, step_of, steps_of, word_of};
use std::alloc::Global;
use std::process::Abort;
use task_core::word::Word;
use task_replay::Step;
use task_replay::input::{content, is_blank};
use task_replay::player::PlayError;
use task_replay::refusal::Refusal;

// The turns that lead there, the word found, the party and the act that is refused, and the word at which it would be allowed.
const UNFIT: &str = "\
# References that are given up.
# drop-waker: `n` above 1, or TASK.
0 gains, 1 detaches, 0 idles: 100: 3 drop-waker: 110
# drop-last-waker: `n` is 1, no TASK, over.
0 gains-twice, 1 detaches, 0 drops: 208: 3 drop-last-waker: 108
0 gains, 0 drops: 118: 3 drop-last-waker: 108
0 gains, 1 detaches, 0 idles: 100: 3 drop-last-waker: 104
# orphan-task: `n` is 1, no TASK, open.
0 gains-twice, 1 detaches, 0 idles: 200: 3 orphan-task: 100
0 gains, 0 idles: 110: 3 orphan-task: 100
0 gains, 1 detaches, 0 drops: 108: 3 orphan-task: 100
# give-up-reference: `n` above 1, or TASK.
1 detaches, 0 unschedules: 108: 0 give-up-reference: 118
# give-up-last-reference: `n` is 1, no TASK.
0 gains, 1 detaches, 0 unschedules: 208: 0 give-up-last-reference: 108
0 unschedules: 118: 0 give-up-last-reference: 108
# Wakes, by a waker.
# wake-over: over.
0 gains: 211: 3 wake-over: 215
# wake-scheduled: open, SCHEDULED.
0 gains, 0 idles: 110: 3 wake-scheduled: 111
0 gains-and-starts: 212: 3 wake-scheduled: 213
0 gains, 1 cancels: 219: 3 wake-scheduled: 211
# wake-running: open, not SCHEDULED, RUNNING.
0 gains-and-starts, 3 wakes-running: 213: 3 wake-running: 212
0 gains, 0 idles: 110: 3 wake-running: 112
0 gains-and-starts, 1 cancels: 21A: 3 wake-running: 212
# wake-idle: open, neither SCHEDULED nor RUNNING.
0 gains: 211: 3 wake-idle: 210
0 gains-and-starts: 212: 3 wake-idle: 210
0 gains, 0 drops: 118: 3 wake-idle: 110
0 gains, 0 completes: 214: 3 wake-idle: 210
# The task is closed, or its Task given up.
# discard-open: not CLOSED. discard-closed: CLOSED.
1 cancels: 119: 0 discard-open: 111
: 111: 0 discard-closed: 119
# cancel-over: over.
: 111: 1 cancel-over: 115
# cancel-busy: open, SCHEDULED or RUNNING.
0 gains, 0 idles: 110: 1 cancel-busy: 111
1 cancels: 119: 1 cancel-busy: 111
0 starts, 1 cancels: 11A: 1 cancel-busy: 112
# cancel-idle: open, neither SCHEDULED nor RUNNING.
: 111: 1 cancel-idle: 110
0 starts: 112: 1 cancel-idle: 110
0 drops: 018: 1 cancel-idle: 010
0 completes, 0 gives-up: 014: 1 cancel-idle: 010
# claim-output and give-up-output: COMPLETED, not CLOSED.
0 completes, 0 gives-up, 1 claims: 01C: 1 claim-output: 014
: 111: 1 give-up-output: 115
0 completes, 0 gives-up, 1 claims: 01C: 1 give-up-output: 014
# detach-orphan: `n` is 0, open.
0 drops: 018: 1 detach-orphan: 010
0 completes, 0 gives-up: 014: 1 detach-orphan: 010
# detach-last: `n` is 0, CLOSED.
1 cancels: 119: 1 detach-last: 019
0 completes, 0 gives-up: 014: 1 detach-last: 01C
# detach: `n` above 0, not (COMPLETED without CLOSED).
0 drops: 018: 1 detach: 118
0 completes: 114: 1 detach: 110
# .. by a detach that has dropped the output.
0 completes, 1 drops-output: 11C: 1 detach-last: 01C
0 completes, 0 gives-up, 1 drops-output: 01C: 1 detach: 11C
# A run starts and ends.
# take-up-closed: CLOSED. start-run: not CLOSED.
: 111: 0 take-up-closed: 119
1 cancels: 119: 0 start-run: 111
# complete: TASK. complete-detached: no TASK.
0 stores, 1 detaches: 102: 0 complete: 112
0 stores: 112: 0 complete-detached: 102
# reschedule: not CLOSED, SCHEDULED.
0 pends: 112: 0 reschedule: 113
0 starts, 2 wakes-running, 0 answer-pending, 1 cancels: 11B: 0 reschedule: 113
# end-idle: not CLOSED, not SCHEDULED, (`n` above 1, or TASK).
0 starts, 2 wakes-running, 0 answer-pending: 113: 0 end-idle: 112
0 pends, 1 cancels: 11A: 0 end-idle: 112
0 pends, 1 detaches: 102: 0 end-idle: 112
# end-orphaned: not CLOSED, not SCHEDULED, `n` is 1, no TASK.
1 detaches, 0 starts, 2 wakes-running, 0 answer-pending: 103: 0 end-orphaned: 102
0 pends, 1 cancels-and-detaches: 10A: 0 end-orphaned: 102
0 gains, 1 detaches, 0 pends: 202: 0 end-orphaned: 102
0 pends: 112: 0 end-orphaned: 102
# The handshake on the awaiter, and what else asks for a word: a look, and an awaiter that is taken back.
# begin-notify: neither NOTIFYING nor REGISTERING.
1 polls, 1 registers, 0 unschedules: 178: 0 begin-notify: 138
1 polls, 0 unschedules, 0 begin-notify, 1 look: 1B8: 1 begin-notify: 138
# miss-notify: NOTIFYING or REGISTERING.
1 polls, 0 unschedules: 138: 0 miss-notify: 178
# find-notify: NOTIFYING. begin-register: not NOTIFYING.
1 clones: 111: 1 find-notify: 191
1 polls, 1 clones, 0 unschedules, 0 begin-notify: 1B8: 1 begin-register: 138
# end-register: not NOTIFYING.
1 polls, 1 registers-and-stores, 1 drop-awaiter, 0 unschedules, 0 miss-notify: 1F8: 1 end-register: 178
# take-awaiter, by a poll that has registered: NOTIFYING.
1 registers-and-stores: 151: 1 take-awaiter: 1D1
# look, by the Task: not (COMPLETED without CLOSED).
0 completes: 114: 1 look: 110
# claim-output and detach-orphan of a new task, and drop-future of a poll that pends.
: 111: 1 claim-output: 115
: 111: 1 detach-orphan: 011
0 pends: 112: 0 drop-future: 11A
";

// References at a limit.
const LIMITS: [(u64, &str); 6] = [
    // gain-reference: `n` below the limit. find-limit: `n` at or above it.
    (2, "0 gains: 211: 3 gain-reference: 111"),
    (1, "0 starts: 112: 2 gain-reference: 012"),
    (1, ": 111: 0 gain-reference: 011"),
    (2, ": 111: 0 find-limit: 211"),
    (4, ": 111: 0 find-limit: 411"),
    (3, "0 gains: 211: 3 find-limit: 311"),
];

// Turns, and an act that no word fits, at the limit 0.
const NO_ROOM: [(&str, &str); 2] = [("0 starts", "2 gain-reference"), ("", "0 gain-reference")];

// A lent waker where the task has no handle left. In the first four a waker has given up the last reference of an open task, and is about to close it. The
// word that is told has the Task: the count stays as it was found. Then, where the row alone refuses it, whether the task has a handle or none.
const UNHELD: &str = "\
0 gains, 0 idles, 1 detaches, 3 orphan-task: 000: 2 gain-reference: 010
0 gains, 0 idles, 1 detaches, 3 orphan-task: 000: 2 wake-scheduled: 011
0 gains, 0 idles, 1 detaches, 3 orphan-task: 000: 2 wake-running: 012
0 gains, 0 idles, 1 detaches, 3 orphan-task: 000: 2 wake-idle: 010
1 detaches, 0 drops-last: 008: 2 gain-reference: 018
1 detaches, 0 drops-last: 008: 2 wake-idle: 010
2 look, 1 detaches, 0 drops-last: 008: 3 gain-reference: 018
# The row alone.
: 111: 2 wake-over: 115
0 starts: 112: 2 wake-idle: 110
0 gains, 0 idles, 1 detaches, 3 orphan-task: 000: 2 wake-over: 004
0 gains, 0 idles, 1 detaches, 3 orphan-task: 000: 2 find-limit: 400
";

// Stops where this act, after these turns, is not refused for this reason, by a player and by a replay. The answer is the word found.
fn refused<R: Abort>(
    rt: &R,
    alloc: Global,
    limit: u64,
    turns: &str,
    step: Step,
    reason: Refusal,
) -> u64 {
    let mut player = player_after(rt, alloc, limit, turns);
    let word = player.machine().word().bits();
    holds(rt, player.refusal(step) == Some(reason), &step.act);
    let is_refused = player.play(step) == Err(PlayError::NotAllowed);
    let mut steps = steps_of(rt, alloc, turns);
    let number = steps.len();
    steps.push(step).expect(rt, "refused");
    let is_named = is_refused_at(alloc, limit, steps.as_slice(), number);
    holds(rt, is_refused && is_named, &step.act);
    word
}

// Stops where a case is not refused for its word, at that limit.
fn is_unfit<R: Abort>(rt: &R, alloc: Global, limit: u64, case: &str) {
    let (turns, rest) = halves(rt, case);
    let (word, rest) = halves(rt, rest);
    let (turn, fitting) = halves(rt, rest);
    let reason = Refusal::UnfitWord(Some(Word::from_bits(word_of(rt, fitting))));
    let found = refused(rt, alloc, limit, turns, step_of(rt, turn), reason);
    holds(rt, found == word_of(rt, word), &case);
}

fn are_unfit<R: Abort>(rt: &R, alloc: Global, cases: &str) {
    for case in cases.lines() {
        if !is_blank(content(case)) {
            is_unfit(rt, alloc, 4, case);
        }
    }
}

#[test]
fn each_row_is_refused_where_its_word_does_not_fit(rt: HostRuntime) {
    are_unfit(&rt, rt.alloc(), UNFIT);
}

#[test]
fn a_reference_is_refused_by_the_limit(rt: HostRuntime) {
    for &(limit, case) in &LIMITS {
        is_unfit(&rt, rt.alloc(), limit, case);
    }
    for &(turns, turn) in &NO_ROOM {
        let reason = Refusal::UnfitWord(None);
        refused(&rt, rt.alloc(), 0, turns, step_of(&rt, turn), reason);
    }
}

#[test]
fn a_lent_waker_is_refused_where_no_handle_is_left(rt: HostRuntime) {
    are_unfit(&rt, rt.alloc(), UNHELD);
}
