//! A row of the table: how the task stands after a step. The table is one of Markdown, so that a page can show it as it is.

use crate::holders::{Holders, Slot};
use crate::machine::{Machine, Step};
use crate::names::name;
use crate::player::Player;
use crate::progress::{next_act, steps_left};
use std::alloc::Global;
use std::{fmt, io};
use task_core::table::Flag;
use task_core::word::Word;
use task_laws::positions::{Position, Rest};

/// The flags of a word, each with its name.
pub const FLAGS: [(Flag, &str); 8] = [
    (Flag::Scheduled, "SCHEDULED"),
    (Flag::Running, "RUNNING"),
    (Flag::Completed, "COMPLETED"),
    (Flag::Closed, "CLOSED"),
    (Flag::TaskExists, "TASK"),
    (Flag::Awaiter, "AWAITER"),
    (Flag::Registering, "REGISTERING"),
    (Flag::Notifying, "NOTIFYING"),
];

/// Which parties a row shows.
#[derive(Clone, Copy, Debug, PartialEq, Eq)]
pub enum Shown {
    /// Those that stand otherwise than before its step, and those that it adds.
    Changed,
    /// All that have not ended.
    All,
    /// The same, and of each in a call how many steps it has left at most, and an act that it may make now.
    Progress,
}

const HEAD: &str = "\
| Step | Act | Word | Flags | Count | Future | Output | Awaiter | Parties |
|---|---|---|---|---|---|---|---|---|";

/// Prints the names of the columns.
pub fn print_head<W: io::Write>(out: &mut W) -> io::Result<()> {
    writeln!(out, "{HEAD}")
}

/// A machine that is played, and who holds the slots of its task.
#[derive(Drop)]
pub struct Trace {
    /// The player of the machine.
    pub player: Player<Global>,
    /// Who holds the slots. It is told of each step that the player has made.
    pub holders: Holders,
}

/// Prints how the machine stands after the spawn.
pub fn print_spawn<W: io::Write>(trace: &Trace, out: &mut W) -> io::Result<()> {
    let columns = Columns {
        trace,
        party: 0,
        before: 0,
        shown: Shown::All,
    };
    writeln!(out, "| 0 | spawn | {columns} |")
}

/// Prints how the machine stands after that step. There were `before` parties before it.
pub fn print_row<W: io::Write>(
    trace: &Trace,
    step: Step,
    before: usize,
    shown: Shown,
    out: &mut W,
) -> io::Result<()> {
    let number = trace.player.steps();
    let act = ShownStep(step);
    let columns = Columns {
        trace,
        party: step.party,
        before,
        shown,
    };
    writeln!(out, "| {number} | {act} | {columns} |")
}

/// A step as its line gives it.
#[derive(Clone, Copy)]
pub struct ShownStep(pub Step);

impl fmt::Display for ShownStep {
    fn fmt<W: fmt::Write>(&self, f: &mut fmt::Formatter<W>) -> fmt::Result {
        let party = self.0.party;
        let act = name(self.0.act);
        write!(f, "{party} {act}")
    }
}

// The columns of a row behind its act. They are written by `fmt`, whose error holds nothing, so that no way out has anything to drop.
#[derive(Clone, Copy)]
struct Columns<'a> {
    trace: &'a Trace,
    // Whose step it was.
    party: u64,
    // How many parties there were before it.
    before: usize,
    shown: Shown,
}

impl<'a> fmt::Display for Columns<'a> {
    fn fmt<W: fmt::Write>(&self, f: &mut fmt::Formatter<W>) -> fmt::Result {
        let player = &self.trace.player;
        let machine = player.machine();
        write_word(machine.word(), f)?;
        write_slots(machine, self.trace.holders, f)?;
        match self.shown {
            Shown::Changed => write_changed(machine, self.party, self.before, f),
            Shown::All => write_all(player, false, f),
            Shown::Progress => write_all(player, true, f),
        }
    }
}

fn write_word<W: fmt::Write>(word: Word, f: &mut fmt::Formatter<W>) -> fmt::Result {
    let bits = word.bits();
    write!(f, "0x{bits:03X} |")?;
    for &(flag, name) in &FLAGS {
        if word.has(flag) {
            write!(f, " {name}")?;
        }
    }
    let count = word.references();
    write!(f, " | {count} | ")
}

fn write_slots<W: fmt::Write>(
    machine: &Machine<Global>,
    holders: Holders,
    f: &mut fmt::Formatter<W>,
) -> fmt::Result {
    let future = holders.held_by(machine, Slot::Future);
    let output = holders.held_by(machine, Slot::Output);
    let awaiter = holders.held_by(machine, Slot::Awaiter);
    write!(f, "{future} | {output} | {awaiter}")?;
    match machine.slots().awaiter {
        Some(poll) => write!(f, ", of poll {poll} |"),
        None => f.write_str(" |"),
    }
}

// Where the party of a step stands, and each party from that number on, which the step has added.
fn write_changed<W: fmt::Write>(
    machine: &Machine<Global>,
    party: u64,
    before: usize,
    f: &mut fmt::Formatter<W>,
) -> fmt::Result {
    write_party(machine, "", party, f)?;
    for added in before as u64..machine.parties() as u64 {
        write_party(machine, ",", added, f)?;
    }
    Ok(())
}

// Where each party stands that has not ended; where `progress` is set, also of each in a call how many steps it has left at most, and an act that it may
// make now.
fn write_all<W: fmt::Write>(
    player: &Player<Global>,
    progress: bool,
    f: &mut fmt::Formatter<W>,
) -> fmt::Result {
    let machine = player.machine();
    let mut mark = "";
    for party in 0..machine.parties() as u64 {
        match machine.position(party) {
            None | Some(Position::At(Rest::Ended)) => {}
            Some(position) => {
                write_party(machine, mark, party, f)?;
                if progress {
                    write_next(player, party, position, f)?;
                }
                mark = ",";
            }
        }
    }
    Ok(())
}

// Where that party stands, behind the mark that parts it from the one before.
fn write_party<W: fmt::Write>(
    machine: &Machine<Global>,
    mark: &str,
    party: u64,
    f: &mut fmt::Formatter<W>,
) -> fmt::Result {
    match machine.position(party) {
        Some(position) => write!(f, "{mark} {party} {position:?}"),
        None => Ok(()),
    }
}

// The progress of a party that stands there, if it is in a call.
fn write_next<W: fmt::Write>(
    player: &Player<Global>,
    party: u64,
    position: Position,
    f: &mut fmt::Formatter<W>,
) -> fmt::Result {
    let Some(act) = next_act(player, party) else {
        return Ok(());
    };
    let left = steps_left(position);
    let act = name(act);
    write!(f, " ({left} left, may {act})")
}
