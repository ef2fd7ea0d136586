//! What a line of the input says.
ghost use Rattle.std.specs.Prelude.{◌≡◌, IfOk};
ghost use Rattle.task_replay.specs.Names.{name_of};

use crate::machine::Step;
use crate::names::{name, named};
use crate::nearest::nearest;
use std::alloc::{AllocError, Global};
use std::fmt;

/// What was expected where a line could not be read.
#[derive(Clone, Copy, Debug, PartialEq, Eq)]
pub enum Expected {
    /// Text in UTF-8.
    Text,
    /// A first line with `limit` and a number.
    Limit,
    /// The number of a party.
    Party,
    /// The name of an act.
    Act,
    /// The end of the line.
    End,
}

impl fmt::Display for Expected {
    fn fmt<W: fmt::Write>(&self, f: &mut fmt::Formatter<W>) -> fmt::Result {
        let text = match *self {
            Expected::Text => "text in UTF-8",
            Expected::Limit => "`limit` and a number below 2^64",
            Expected::Party => "the number of a party, below 2^64",
            Expected::Act => "the name of an act",
            Expected::End => "the end of the line",
        };
        write!(f, "{text}")
    }
}

/// The line without its comment, which `#` begins.
pub fn content(line: &str) -> &str {
    match line.split_once('#') {
        Some((before, _)) => before,
        None => line,
    }
}

/// Whether nothing but white space is left.
pub fn is_blank(content: &str) -> bool {
    content.split_ascii_whitespace().next().is_none()
}

/// The limit that the first line gives.
pub fn read_limit(content: &str) -> Result<u64, Expected> {
    let mut words = content.split_ascii_whitespace();
    let Some(word) = words.next() else {
        return Err(Expected::Limit);
    };
    let Some(number) = words.next() else {
        return Err(Expected::Limit);
    };
    let is_end = words.next().is_none();
    match number.parse::<u64>() {
        Ok(limit) if word == "limit" => ended(limit, is_end),
        _ => Err(Expected::Limit),
    }
}

// What a line gives, if that is all.
fn ended<T: Drop>(given: T, is_end: bool) -> Result<T, Expected> {
    if is_end {
        Ok(given)
    } else {
        Err(Expected::End)
    }
}

/// The step that any other line gives.
pub fn read_step(content: &str) -> Result<Step, Expected> {
    let mut words = content.split_ascii_whitespace();
    let Some(party) = words.next() else {
        return Err(Expected::Party);
    };
    let act = words.next().unwrap_or("");
    let is_end = words.next().is_none();
    match step_of(party, act) {
        Ok(step) => ended(step, is_end),
        refused => refused,
    }
}

// The step of a party and an act that are written so.
fn step_of(party: &str, act: &str) -> Result<Step, Expected>
    ensures { IfOk result (λ step. name_of step.act ≡ act.now) }
{
    let party = party.parse::<u64>().or(Err(Expected::Party))?;
    let act = named(act).ok_or(Expected::Act)?;
    Ok(Step { party, act })
}

// So many bytes of a word are quoted at most.
const QUOTED: usize = 60;

/// What was expected in that line, in words. Of a word that names no act the beginning is told too, with the act that is nearest, or where all acts
/// are listed.
pub fn expectation(alloc: Global, expected: Expected, content: &str) -> Result<String, AllocError> {
    let mut words = content.split_ascii_whitespace().skip(1);
    match (expected, words.next()) {
        (Expected::Act, Some(word)) => in_place_of(alloc, expected, word),
        _ => format!(in alloc; "{expected}"),
    }
}

fn in_place_of(alloc: Global, expected: Expected, word: &str) -> Result<String, AllocError> {
    let (quoted, rest) = word.split_at(word.floor_char_boundary(QUOTED));
    let which = if rest.is_empty() {
        ""
    } else {
        "a word that begins with "
    };
    match nearest(alloc, word)? {
        Some(act) => {
            let act = name(act);
            format!(in alloc; "{expected} in place of {which}{quoted:?}: `{act}` is the nearest")
        }
        None => {
            format!(in alloc;
                "{expected} in place of {which}{quoted:?}: `replay_trace --help` lists them"
            )
        }
    }
}
