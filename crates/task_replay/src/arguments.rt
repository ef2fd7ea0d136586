//! What the arguments of the program ask for.
ghost use Rattle.std.specs.Prelude.{◌≡◌, ◌≤◌, ◌↔◌, [], Some, IfOk, codes};
ghost use Rattle.task_replay.specs.Arguments.{AskForAll, AskForHelp, AskForProgress, AskForTrace};
ghost use Rattle.task_replay.specs.declared.arguments.Request.TheVariants.{Help, Trace};
ghost use Rattle.task_replay.specs.declared.row.Shown.TheVariants.{Changed, All, Progress};

use crate::row::Shown;
use crate::trace::{failed, trace};
use std::alloc::Global;
use std::io;
use task_core::acts::NAMES;

/// What the arguments ask for.
#[derive(Clone, Copy, Debug, PartialEq, Eq)]
pub enum Request {
    /// What may be written.
    Help,
    /// The trace, with these parties in each row.
    Trace(Shown),
}

const USAGE: &str = "usage: replay_trace [--all | --progress | --help]";

const HELP: &str = "
Plays the steps that it reads from standard input, and prints a row of a table for each.

    --all       each row shows all parties that have not ended, and not only those that stand otherwise than before
    --progress  the same, and of each party in a call how many steps it has left at most, and an act that it may make now
    --help      this text

The first line is `limit N`: up to N references wakers are gained. Each other line is a step, `PARTY ACT`.
The Runnable of the spawn is party 0, the Task party 1, and party 2 the waker that is lent to each call by reference.
Each party that a step adds takes the next number.
`#` begins a comment, which ends with its line. Blank lines pass. The acts:

";

/// Does what the arguments ask for.
///
/// The status is that of `trace`. After the help it is 0, or 1 where `out` fails, which is told on `err`. Other arguments are refused.
pub fn answer<R: io::BufRead + Drop, W: io::Write, E: io::Write>(
    alloc: Global,
    args: &[String],
    input: R,
    out: &mut W,
    err: &mut E,
) -> u8
    ensures status { result ≤ 2 }
    ensures help { AskForHelp args.now → result ≤ 1 }
    ensures refused { ¬ AskForTrace args.now → ¬ AskForHelp args.now → 1 ≤ result }
{
    match asked(args) {
        Some(Request::Trace(shown)) => trace(alloc, shown, input, out, err),
        Some(Request::Help) => match print_help(out) {
            Ok(status) => status,
            Err(error) => failed(error, err),
        },
        None => refuse(err),
    }
}

/// Refuses the arguments by a line on `err`, which tells the usage. The status is 2, or 1 where `err` fails.
pub fn refuse<E: io::Write>(err: &mut E) -> u8
    ensures status { (1 ≤ result) × (result ≤ 2) }
{
    print_usage(err).unwrap_or(1)
}

/// What the arguments ask for, or `None` where that is not known.
pub fn asked(args: &[String]) -> Option<Request>
    ensures changed { (result ≡ Some (Trace Changed)) ↔ (args.now ≡ []) }
    ensures all { (result ≡ Some (Trace All)) ↔ AskForAll args.now }
    ensures progress { (result ≡ Some (Trace Progress)) ↔ AskForProgress args.now }
    ensures help { (result ≡ Some Help) ↔ AskForHelp args.now }
{
    match args {
        [] => Some(Request::Trace(Shown::Changed)),
        [word] => asked_by(word.as_str()),
        _ => None,
    }
}

// What arguments that are one word ask for.
fn asked_by(word: &str) -> Option<Request>
    ensures changed { ¬ (result ≡ Some (Trace Changed)) }
    ensures all { (result ≡ Some (Trace All)) ↔ (word.now ≡ codes "--all") }
    ensures progress { (result ≡ Some (Trace Progress)) ↔ (word.now ≡ codes "--progress") }
    ensures help { (result ≡ Some Help) ↔ (word.now ≡ codes "--help") }
{
    match word {
        "--all" => Some(Request::Trace(Shown::All)),
        "--progress" => Some(Request::Trace(Shown::Progress)),
        "--help" => Some(Request::Help),
        _ => None,
    }
}

// What may be written: the arguments, and the lines of the input with the names of all acts.
fn print_help<W: io::Write>(out: &mut W) -> io::Result<u8>
    ensures { IfOk result (λ status. status ≡ 0) }
{
    write!(out, "{USAGE}\n{HELP}")?;
    for &(_, name) in &NAMES {
        writeln!(out, "    {name}")?;
    }
    out.flush()?;
    Ok(0)
}

fn print_usage<E: io::Write>(err: &mut E) -> io::Result<u8>
    ensures { IfOk result (λ status. status ≡ 2) }
{
    writeln!(err, "{USAGE}")?;
    err.flush()?;
    Ok(2)
}
