//! Why a step is refused, in words.

use crate::machine::Step;
use crate::player::Player;
use crate::refusal::Refusal;
use crate::row::{FLAGS, ShownStep};
use std::alloc::Global;
use std::{fmt, io};
use task_core::acts::NAMES;
use task_core::word::Word;

/// Prints that the step is not allowed, and why.
pub fn print_refusal<W: io::Write>(
    player: &Player<Global>,
    step: Step,
    out: &mut W,
) -> io::Result<()> {
    let number = player.steps().saturating_add(1);
    let shown = ShownStep(step);
    let reason = Reason { player, step };
    writeln!(out, "\nStep {number}, `{shown}`, is not allowed: {reason}.")
}

// Why the player has not made this step. It is written by `fmt`, whose error holds nothing, so that no way out has anything to drop.
#[derive(Clone, Copy)]
struct Reason<'a> {
    player: &'a Player<Global>,
    step: Step,
}

impl<'a> fmt::Display for Reason<'a> {
    fn fmt<W: fmt::Write>(&self, f: &mut fmt::Formatter<W>) -> fmt::Result {
        match self.player.refusal(self.step) {
            Some(Refusal::NoParty) => {
                let parties = self.player.machine().parties();
                write!(f, "there are {parties} parties, counted from 0")
            }
            Some(Refusal::NeverThere(position)) => {
                write!(f, "it is never made at {position:?}, where")?;
                write_acts(self.player, self.step, f)
            }
            Some(Refusal::UnfitWord(Some(fitting))) => {
                write_word(self.player.machine().word(), fitting, f)
            }
            Some(Refusal::UnfitWord(None)) => f.write_str("no word fits at this limit"),
            None => f.write_str("no reason is known"),
        }
    }
}

// Which acts are made where the party of this step stands.
fn write_acts<W: fmt::Write>(
    player: &Player<Global>,
    step: Step,
    f: &mut fmt::Formatter<W>,
) -> fmt::Result {
    let mut is_any = false;
    for &(act, name) in &NAMES {
        if player.is_made_there(Step { act, ..step }) {
            let mark = if is_any { "," } else { "" };
            write!(f, "{mark} {name}")?;
            is_any = true;
        }
    }
    let none = if is_any { "" } else { " no act" };
    write!(f, "{none} may be made")
}

// What would have to be otherwise in the word.
fn write_word<W: fmt::Write>(found: Word, fitting: Word, f: &mut fmt::Formatter<W>) -> fmt::Result {
    let bits = found.bits();
    let wanted = fitting.bits();
    write!(
        f,
        "the word 0x{bits:03X} does not fit, 0x{wanted:03X} would:"
    )?;
    for &(flag, name) in &FLAGS {
        if found.has(flag) != fitting.has(flag) {
            let state = if fitting.has(flag) { "set" } else { "clear" };
            write!(f, " {name} {state}")?;
        }
    }
    let count = fitting.references();
    if found.references() == count {
        return Ok(());
    }
    write!(f, " count {count}")
}
