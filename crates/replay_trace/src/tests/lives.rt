//! Worked lives of a task, replayed: who does what, and each new word after 0x111. So a replay gives the words that were settled before the machine was
//! written, and allows the steps of the worked rows.
//! Of what is only tested (crates/task_replay/README.md): Lives.

use crate::tests::stops::holds;
use crate::tests::turns::{halves, steps_of, word_of};
use std::alloc::Global;
use std::process::Abort;
use task_core::word::LIMIT;
use task_replay::input::{content, is_blank};
use task_replay::{Step, replay};

// A name, the turns, and the words without repetitions.
const LIVES: &str = "\
# Tasks that are closed before they are polled.
drop_and_detach: 0 drops, 1 leaves: 119 118 018 008
detach_and_drop: 1 detaches, 0 drops-last: 101 109 108 008
cancel_detach_and_run: 1 cancels, 1 detaches, 0 runs-closed-last: 119 109 108 008
drop_and_poll: 0 drops, 1 polls-closed: 119 118 018 098 018
# Tasks whose first poll answers.
detach_and_complete: 1 detaches, 0 starts, 0 ends-detached-last: 101 102 10C 00C
complete_and_detach: 0 starts, 0 ends-ready, 1 gives-output-up: 112 114 014 01C 00C
poll_complete_and_claim: 1 polls, 0 starts, 0 ends-ready-and-wakes, 1 claims, 1 cancels-nothing, 1 leaves: 151 131 132 134 1B4 114 014 01C 00C
complete_and_claim: 0 starts, 0 ends-ready, 1 claims: 112 114 014 01C
complete_and_cancel: 0 starts, 0 ends-ready, 1 cancels-nothing, 1 claims, 1 leaves: 112 114 014 01C 00C
# Wakers.
wake_twice: 0 gains, 0 starts, 0 ends-pending, 3 wakes, 4 delivers, 5 starts, 5 ends-pending, 3 wakes, 6 delivers, 3 drops-waker: 211 212 110 211 212 110 211 111
wake_by_reference: 0 gains, 0 starts, 0 ends-pending, 2 look, 4 wakes, 5 delivers: 211 212 110 211
wake_while_running: 0 gains, 0 starts, 3 wakes-running, 0 reschedules: 211 212 213 211
wake_into_drop: 0 gains, 0 starts, 0 ends-pending, 3 wakes, 4 delivers, 5 drops, 1 is-finished, 3 wakes-nothing, 3 drops-waker, 1 leaves: 211 212 110 211 219 218 118 018 008
# Wakers that are lent to calls by reference.
call_by_reference_gains_and_wakes: 0 starts, 0 ends-pending, 2 look, 3 gains, 3 wakes, 5 delivers, 6 starts, 3 wakes-running, 6 reschedules, 7 drops, 3 wakes-nothing, 4 drops-waker, 1 leaves: 112 010 110 211 212 213 211 219 218 118 018 008
two_calls_by_reference_at_once: 0 starts, 2 look look, 3 gain-reference, 4 wake-running, 3 end-call, 0 reschedules, 4 end-call, 6 starts, 6 ends-ready, 5 drops-waker, 1 claims, 1 leaves: 112 212 213 211 212 214 114 014 01C 00C
gain_beside_the_task_alone: 0 starts, 0 ends-ready, 2 gains, 1 gives-output-up-and-detaches, 3 drops-last-waker: 112 114 014 114 11C 10C 00C
call_by_reference_after_the_end: 1 detaches, 0 drops-last, 2 look, 3 wakes-nothing, 3 gains-nothing: 101 109 108 008
# Wakers of a detached task.
clone_wakers: 1 detaches, 0 starts, 2 gains, 0 ends-pending, 3 gains, 3 drops-waker, 4 gains, 4 gains, 6 wakes, 7 delivers, 6 drops-waker, 8 starts, 2 gains, 8 ends-detached, 5 wakes-nothing, 5 drops-waker, 4 drops-waker, 9 drops-last-waker: 101 102 202 100 200 100 200 300 401 301 302 402 40C 30C 20C 10C 00C
detach_wake_and_complete: 1 detaches, 0 starts, 2 gains, 0 ends-pending, 3 wakes, 4 delivers, 3 drops-waker, 5 starts, 2 gains, 5 ends-detached, 6 wakes-nothing, 6 drops-last-waker: 101 102 202 100 201 101 102 202 20C 10C 00C
detach_wake_and_drop: 1 detaches, 0 starts, 2 gains, 0 ends-pending, 3 wakes, 4 delivers, 5 drops, 3 wakes-nothing, 3 drops-last-waker: 101 102 202 100 201 209 208 108 008
# The last handle of an open task goes away.
last_waker_closes: 0 starts, 2 gains, 0 ends-pending, 1 detaches, 3 closes-orphan, 4 runs-closed-last: 112 212 110 100 000 109 108 008
last_run_closes: 1 detaches, 0 starts, 0 ends-orphaned, 3 runs-closed-last: 101 102 109 108 008
last_run_closes_polled: 1 polls, 1 detaches, 0 starts, 0 ends-orphaned, 3 runs-closed-last: 151 131 121 122 109 108 008
last_run_into_drop: 1 detaches, 0 starts, 0 ends-orphaned, 3 drops-closed: 101 102 109 108 008
detach_idle: 0 starts, 0 ends-pending, 1 detaches-orphan, 3 runs-closed-last: 112 010 109 108 008
drop_task_while_idle: 0 starts, 0 ends-pending, 1 cancels-idle, 1 detaches, 3 runs-closed-last: 112 010 119 109 108 008
# Awaiters.
poll_drop_and_poll: 1 polls, 0 drops-and-wakes, 1 is-finished, 1 polls-closed: 151 131 139 138 1B8 118 018 098 018
refused_poll: 1 polls, 1 polls-refused, 0 starts, 0 ends-ready-and-wakes: 151 131 132 134 1B4 114 014
cancel_and_poll: 1 cancels, 1 polls, 0 runs-closed-and-wakes, 1 polls-closed: 119 159 139 138 1B8 118 018 098 018
poll_detach_and_complete: 1 polls, 1 detaches, 0 starts, 0 ends-detached-and-wakes: 151 131 121 122 12C 1AC 10C 00C
cancel_refused: 1 cancels, 1 polls-refused, 1 is-finished, 0 runs-closed, 1 polls-closed: 119 118 018 098 018
clear_queue: 1 polls, 0 drops-and-wakes, 1 polls-closed: 151 131 139 138 1B8 118 018 098 018
# Two threads during one poll of the future.
drop_task_while_running: 0 starts, 2 gains, 0 ends-pending, 3 wakes, 4 delivers, 3 drops-waker, 5 starts, 2 gains, 1 cancels, 1 detaches, 5 ends-closed, 6 drops-last-waker: 112 212 110 211 111 112 212 21A 20A 208 108 008
wake_and_cancel: 0 starts, 2 gains, 0 ends-pending, 3 wakes, 4 delivers, 5 starts, 2 gains, 3 wakes-running, 3 drops-waker, 1 cancels, 1 detaches, 5 ends-closed, 6 drops-last-waker: 112 212 110 211 212 312 313 213 21B 20B 208 108 008
cancel_and_wake: 0 starts, 2 gains, 0 ends-pending, 3 wakes, 4 delivers, 5 starts, 2 gains, 1 cancels, 1 detaches, 3 wakes-nothing, 3 drops-waker, 5 ends-closed, 6 drops-last-waker: 112 212 110 211 212 312 31A 30A 20A 208 108 008
# .. whose future answers. In `drop_during_run` it may also be the poll itself that drops the Task.
detach_during_run: 0 starts, 1 detaches, 0 ends-detached-last: 112 102 10C 00C
drop_during_run: 0 starts, 1 cancels, 1 detaches, 0 ends-detached-last: 112 11A 10A 10C 00C
poll_during_run: 0 starts, 1 polls, 0 ends-ready-and-wakes, 1 claims: 112 152 132 134 1B4 114 014 01C
";

// The words after each front of these steps, without repetitions.
fn words_of_fronts<R: Abort>(rt: &R, alloc: Global, steps: &[Step]) -> Vec<u64> {
    let mut words = Vec::new(alloc);
    let mut last = 0x111;
    for (i, _) in steps.iter().enumerate() {
        let word = word_after(alloc, &steps[..i + 1]);
        if word != last {
            words.push(word).expect(rt, "refused");
            last = word;
        }
    }
    words
}

// The word after these steps; where one is refused, the greatest number, which is none.
fn word_after(alloc: Global, steps: &[Step]) -> u64 {
    match replay(alloc, LIMIT, steps) {
        Ok(machine) => machine.word().bits(),
        Err(_) => u64::MAX,
    }
}

fn words_in<R: Abort>(rt: &R, alloc: Global, text: &str) -> Vec<u64> {
    let mut words = Vec::new(alloc);
    for word in text.split_ascii_whitespace() {
        words.push(word_of(rt, word)).expect(rt, "refused");
    }
    words
}

// Stops where the fronts of a life have other words.
fn has_its_words<R: Abort>(rt: &R, alloc: Global, life: &str) {
    let (name, rest) = halves(rt, life);
    let (turns, wanted) = halves(rt, rest);
    let steps = steps_of(rt, alloc, turns);
    let words = words_of_fronts(rt, alloc, steps.as_slice());
    let wanted = words_in(rt, alloc, wanted);
    holds(rt, words.as_slice() == wanted.as_slice(), &name);
}

#[test]
fn each_front_of_a_life_has_the_word_of_the_tables(rt: HostRuntime) {
    for life in LIVES.lines() {
        if !is_blank(content(life)) {
            has_its_words(&rt, rt.alloc(), life);
        }
    }
}
