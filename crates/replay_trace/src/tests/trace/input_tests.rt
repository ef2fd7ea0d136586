//! What lines say, and what is expected where one cannot be read.
//! Of what is only tested (crates/task_replay/README.md): Text.

use crate::tests::stops::holds;
use task_core::acts::Act;
use task_replay::input::{Expected, content, is_blank, read_limit, read_step};
use task_replay::machine::Step;
use task_replay::nearest::nearest;

const STEPS: [(&str, u64, Act); 4] = [
    ("0 start-run", 0, Act::StartRun),
    ("\t 12   end-call \t", 12, Act::EndCall),
    ("007 look", 7, Act::Look),
    ("18446744073709551615 wake-idle", u64::MAX, Act::WakeIdle),
];

#[test]
fn steps_are_read_with_any_white_space(rt: HostRuntime) {
    for &(line, party, act) in &STEPS {
        holds(&rt, read_step(line) == Ok(Step { party, act }), &line);
    }
}

const NO_STEPS: [(&str, Expected); 9] = [
    ("", Expected::Party),
    ("look", Expected::Party),
    ("-1 look", Expected::Party),
    ("0x1 look", Expected::Party),
    ("18446744073709551616 look", Expected::Party),
    ("1", Expected::Act),
    ("1 Look", Expected::Act),
    ("1 start_run", Expected::Act),
    ("1 look 2", Expected::End),
];

#[test]
fn what_is_no_step_is_told(rt: HostRuntime) {
    for &(line, expected) in &NO_STEPS {
        holds(&rt, read_step(line) == Err(expected), &line);
    }
}

const LIMITS: [(&str, Result<u64, Expected>); 7] = [
    ("limit 0", Ok(0)),
    (" limit  18446744073709551615 ", Ok(u64::MAX)),
    ("limit", Err(Expected::Limit)),
    ("limit 18446744073709551616", Err(Expected::Limit)),
    ("limit four", Err(Expected::Limit)),
    ("0 start-run", Err(Expected::Limit)),
    ("limit 4 5", Err(Expected::End)),
];

#[test]
fn a_limit_is_read_by_its_line(rt: HostRuntime) {
    for &(line, answer) in &LIMITS {
        holds(&rt, read_limit(line) == answer, &line);
    }
}

const COMMENTED: [(&str, &str); 4] = [
    ("0 look # why", "0 look "),
    ("# all", ""),
    ("0 look", "0 look"),
    ("a#b#c", "a"),
];

#[test]
fn a_comment_ends_a_line(rt: HostRuntime) {
    for &(line, before) in &COMMENTED {
        holds(&rt, content(line) == before, &line);
    }
    assert!(rt; is_blank("  \t ") && !is_blank(" x "));
}

const MEANT: [(&str, Option<Act>); 12] = [
    ("look", Some(Act::Look)),
    ("Look", Some(Act::Look)),
    ("wakeidle", Some(Act::WakeIdle)),
    ("drop_future", Some(Act::DropFuture)),
    ("end-cal", Some(Act::EndCall)),
    ("complete-dettached", Some(Act::CompleteDetached)),
    ("detach-lost", Some(Act::DetachLast)),
    ("handover", Some(Act::HandOver)),
    ("deta", Some(Act::Detach)),
    ("x", None),
    ("run", None),
    ("", None),
];

// One edit is a letter that is put in, left out or replaced. Of two names as near, the first one in the order of the table of moves is told.
#[test]
fn the_act_of_the_nearest_name_is_meant(rt: HostRuntime) {
    for &(word, act) in &MEANT {
        let found = nearest(rt.alloc(), word).expect(&rt, "refused");
        holds(&rt, found == act, &word);
    }
}
