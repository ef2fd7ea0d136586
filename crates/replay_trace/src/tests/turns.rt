//! Lists of steps as text: turns, separated by commas, each a party and what it does one after another. Acts are read by the reader of `replay_trace`.
//!
//! Party 0 is the first Runnable, party 1 the Task, and party 2 the waker that is lent to each call by reference: a poll of the future gains by it. Those
//! that are added follow: a waker, a waker that is lent to one call alone, a deliverer, a Runnable that is handed over.

use std::alloc::Global;
use std::process::Abort;
use task_core::acts::Act;
use task_replay::names::named;
use task_replay::player::Player;
use task_replay::{ReplayError, Step, replay};

/// The Runnable gains a reference.
pub const GAIN: Step = Step {
    party: 0,
    act: Act::GainReference,
};

/// Its call ends.
pub const END: Step = Step {
    party: 0,
    act: Act::EndCall,
};

// Calls and parts of calls, by the acts that they make.
const PARTS: &str = "\
polls: look clone-awaiter begin-register store-awaiter end-register look end-call
polls-closed: look begin-notify take-awaiter end-notify end-call
polls-refused: look refuse-clone end-call
claims: claim-output hand-out-output end-call
is-finished: look-finished end-call
cancels: cancel-busy end-call
cancels-idle: cancel-idle hand-over end-call
cancels-nothing: cancel-over end-call
detaches: detach end-call
detaches-orphan: detach-orphan hand-over end-call
leaves: detach-last empty-slots end-call
gives-output-up: give-up-output drop-output detach-last empty-slots end-call
gives-output-up-and-detaches: give-up-output drop-output detach end-call
starts: start-run start-poll
ends-pending: answer-pending end-idle end-call
reschedules: answer-pending reschedule hand-over end-call
ends-orphaned: answer-pending end-orphaned hand-over end-call
ends-closed: answer-pending drop-future end-closed give-up-reference end-call
ends-ready: answer-ready drop-future store-output complete give-up-reference end-call
ends-ready-and-wakes: answer-ready drop-future store-output complete begin-notify take-awaiter end-notify give-up-reference wake-awaiter end-call
ends-detached: answer-ready drop-future store-output complete-detached drop-output give-up-reference end-call
ends-detached-last: answer-ready drop-future store-output complete-detached drop-output give-up-last-reference empty-slots end-call
ends-detached-and-wakes: answer-ready drop-future store-output complete-detached drop-output begin-notify take-awaiter end-notify give-up-last-reference empty-slots wake-awaiter end-call
runs-closed: take-up-closed drop-future unschedule give-up-reference end-call
runs-closed-last: take-up-closed drop-future unschedule give-up-last-reference empty-slots end-call
runs-closed-and-wakes: take-up-closed drop-future unschedule begin-notify take-awaiter end-notify give-up-reference wake-awaiter end-call
drops: discard-open drop-future unschedule give-up-reference end-call
drops-last: discard-open drop-future unschedule give-up-last-reference empty-slots end-call
drops-closed: discard-closed drop-future unschedule give-up-last-reference empty-slots end-call
drops-and-wakes: discard-open drop-future unschedule begin-notify take-awaiter end-notify wake-awaiter give-up-reference end-call
gains: gain-reference end-call
wakes: wake-idle end-call
wakes-running: wake-running end-call
wakes-nothing: wake-over end-call
gains-nothing: refuse-gain end-call
drops-waker: drop-waker end-call
drops-last-waker: drop-last-waker empty-slots end-call
closes-orphan: orphan-task close-orphan hand-over end-call
delivers: hand-over end-call
gains-twice: gain-reference end-call gain-reference end-call
gains-and-starts: gain-reference end-call start-run start-poll
pends: start-run start-poll answer-pending
idles: start-run start-poll answer-pending end-idle end-call
stores: start-run start-poll answer-ready drop-future store-output
completes: start-run start-poll answer-ready drop-future store-output complete
gives-up: give-up-reference end-call
unschedules: discard-open drop-future unschedule
cancels-and-detaches: cancel-busy end-call detach end-call
drops-output: give-up-output drop-output
clones: look clone-awaiter
registers: look clone-awaiter begin-register
registers-and-stores: look clone-awaiter begin-register store-awaiter
";

// What such a word stands for: the acts of a part, or the one of its name.
fn acts_of(word: &str) -> &str {
    for part in PARTS.lines() {
        let (name, acts) = part.split_once(':').unwrap_or(("", ""));
        if name == word {
            return acts;
        }
    }
    word
}

/// The step of a party by the name of its act. Stops where no act has it.
pub fn step_by<R: Abort>(rt: &R, party: u64, name: &str) -> Step {
    match named(name) {
        Some(act) => Step { party, act },
        None => panic!(rt; "no act is {name:?}"),
    }
}

/// The one step of a turn that is one act.
pub fn step_of<R: Abort>(rt: &R, turn: &str) -> Step {
    let mut words = turn.split_ascii_whitespace();
    let party = words
        .next()
        .unwrap_or("")
        .parse::<u64>()
        .expect(rt, "refused");
    step_by(rt, party, words.next().unwrap_or(""))
}

// Adds the steps of a turn, if it has a party.
fn add_turn<R: Abort>(rt: &R, steps: &mut Vec<Step>, turn: &str) {
    let mut words = turn.split_ascii_whitespace();
    let Some(party) = words.next() else {
        return;
    };
    let party = party.parse::<u64>().expect(rt, "refused");
    for word in words {
        add_part(rt, steps, party, acts_of(word));
    }
}

fn add_part<R: Abort>(rt: &R, steps: &mut Vec<Step>, party: u64, acts: &str) {
    for name in acts.split_ascii_whitespace() {
        steps.push(step_by(rt, party, name)).expect(rt, "refused");
    }
}

/// The steps of these turns, in their order.
pub fn steps_of<R: Abort>(rt: &R, alloc: Global, turns: &str) -> Vec<Step> {
    let mut steps = Vec::new(alloc);
    for turn in turns.split(',') {
        add_turn(rt, &mut steps, turn);
    }
    steps
}

/// A player after these turns. Stops where a step is not allowed.
pub fn player_after<R: Abort>(rt: &R, alloc: Global, limit: u64, turns: &str) -> Player {
    let mut player = Player::new(alloc, limit).expect(rt, "refused");
    for step in steps_of(rt, alloc, turns).iter() {
        player.play(*step).expect(rt, "refused");
    }
    player
}

/// Whether a replay tells that the step of this number is the first that is not allowed.
pub fn is_refused_at(alloc: Global, limit: u64, steps: &[Step], number: usize) -> bool {
    replay(alloc, limit, steps).err() == Some(ReplayError::NotAllowed(number))
}

/// The part of a line before its first colon, and what follows. Stops where it has none.
pub fn halves<'a, R: Abort>(rt: &R, line: &'a str) -> (&'a str, &'a str) {
    match line.split_once(':') {
        Some(halves) => halves,
        None => panic!(rt; "no colon in {line:?}"),
    }
}

/// A word of a task, in hexadecimal.
pub fn word_of<R: Abort>(rt: &R, text: &str) -> u64 {
    u64::from_str_radix(text.trim(), 16).expect(rt, "refused")
}
