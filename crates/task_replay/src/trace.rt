//! The trace: the lines that are read, and what is printed of each.
ghost use Rattle.std.specs.Prelude.{◌≡◌, ◌≤◌, IfOk};

use crate::holders::Holders;
use crate::input::{Expected, content, expectation, is_blank, read_limit, read_step};
use crate::machine::Step;
use crate::player::{PlayError, Player};
use crate::reason::print_refusal;
use crate::row::{Shown, Trace, print_head, print_row, print_spawn};
use std::alloc::{AllocError, Global};
use std::io;

// What comes after a line.
#[derive(Drop)]
enum Next {
    // The next line.
    Line,
    // The end: its step is not allowed.
    Refused,
    // The end: this was expected in place of what stands there.
    Unread(String),
}

/// Plays the steps that are read from `input`, and prints a row for each on `out`, with these parties.
///
/// The status is 0 where each step is allowed. It is 1 where one is not, which is told on `out` after the rows before it, and where memory, the reader or
/// a writer fails. It is 2 where a line cannot be read, which is told on `err`, by its number and what was expected there.
pub fn trace<R: io::BufRead + Drop, W: io::Write, E: io::Write>(
    alloc: Global,
    shown: Shown,
    input: R,
    out: &mut W,
    err: &mut E,
) -> u8
    ensures { result ≤ 2 }
{
    match play_lines(alloc, shown, input, out, err) {
        Ok(status) => status,
        Err(error) => {
            let _ = out.flush();
            failed(error, err)
        }
    }
}

/// Tells what failed on `err`: the status.
pub(crate) fn failed<E: io::Write>(error: io::Error, err: &mut E) -> u8
    ensures { result ≡ 1 }
{
    let _ = writeln!(err, "replay_trace: {error}");
    let _ = err.flush();
    1
}

// The status, or what failed.
fn play_lines<R: io::BufRead + Drop, W: io::Write, E: io::Write>(
    alloc: Global,
    shown: Shown,
    input: R,
    out: &mut W,
    err: &mut E,
) -> io::Result<u8>
    ensures { IfOk result (λ status. status ≤ 2) }
{
    let mut number = 0u64;
    match end_of(alloc, shown, input, &mut number, out) {
        Ok(Next::Line) => passed(out),
        Ok(Next::Refused) => refused(out),
        Ok(Next::Unread(expected)) => unread(number, expected.as_str(), out, err),
        Err(error) => Err(error),
    }
}

// What ends the trace, where `number` is the number of the line that does.
fn end_of<R: io::BufRead + Drop, W: io::Write>(
    alloc: Global,
    shown: Shown,
    input: R,
    number: &mut u64,
    out: &mut W,
) -> io::Result<Next> {
    let mut trace = None;
    for line in input.lines(alloc) {
        *number = number.saturating_add(1);
        match next_of(alloc, shown, &mut trace, line, out) {
            Ok(Next::Line) => {}
            end => return end,
        }
    }
    if trace.is_none() {
        *number = number.saturating_add(1);
        return expects(alloc, Expected::Limit, "");
    }
    Ok(Next::Line)
}

fn passed<W: io::Write>(out: &mut W) -> io::Result<u8>
    ensures { IfOk result (λ status. status ≡ 0) }
{
    out.flush()?;
    Ok(0)
}

fn refused<W: io::Write>(out: &mut W) -> io::Result<u8>
    ensures { IfOk result (λ status. status ≡ 1) }
{
    out.flush()?;
    Ok(1)
}

fn unread<W: io::Write, E: io::Write>(
    number: u64,
    expected: &str,
    out: &mut W,
    err: &mut E,
) -> io::Result<u8>
    ensures { IfOk result (λ status. status ≡ 2) }
{
    out.flush()?;
    writeln!(err, "line {number}: expected {expected}")?;
    err.flush()?;
    Ok(2)
}

// What a line says is done, and printed.
fn next_of<W: io::Write>(
    alloc: Global,
    shown: Shown,
    trace: &mut Option<Trace>,
    line: io::Result<String<Global>>,
    out: &mut W,
) -> io::Result<Next> {
    let text = match line {
        Ok(text) => text,
        Err(error) if error.kind() == io::ErrorKind::InvalidData => {
            return expects(alloc, Expected::Text, "");
        }
        Err(error) => return Err(error),
    };
    let content = content(text.as_str());
    if is_blank(content) {
        return Ok(Next::Line);
    }
    match trace {
        None => begin(alloc, trace, content, out),
        Some(trace) => go_on(alloc, shown, trace, content, out),
    }
}

// The first line gives the limit.
fn begin<W: io::Write>(
    alloc: Global,
    trace: &mut Option<Trace>,
    content: &str,
    out: &mut W,
) -> io::Result<Next> {
    match read_limit(content) {
        Ok(limit) => {
            let opened = Trace {
                player: Player::new(alloc, limit)?,
                holders: Holders::new(),
            };
            print_start(&opened, out)?;
            *trace = Some(opened);
            Ok(Next::Line)
        }
        Err(expected) => expects(alloc, expected, content),
    }
}

fn print_start<W: io::Write>(opened: &Trace, out: &mut W) -> io::Result<()> {
    print_head(out)?;
    print_spawn(opened, out)
}

// Each other line gives a step.
fn go_on<W: io::Write>(
    alloc: Global,
    shown: Shown,
    trace: &mut Trace,
    content: &str,
    out: &mut W,
) -> io::Result<Next> {
    match read_step(content) {
        Ok(step) => play_step(shown, trace, step, out),
        Err(expected) => expects(alloc, expected, content),
    }
}

// That line cannot be read.
fn expects(alloc: Global, expected: Expected, content: &str) -> io::Result<Next> {
    Ok(Next::Unread(expectation(alloc, expected, content)?))
}

fn play_step<W: io::Write>(
    shown: Shown,
    trace: &mut Trace,
    step: Step,
    out: &mut W,
) -> io::Result<Next> {
    let before = trace.player.machine().parties();
    let played = trace.player.play(step);
    match played {
        Ok(()) => {
            trace
                .holders
                .note(trace.player.machine(), step.party, before);
            print_row(trace, step, before, shown, out)
        }
        Err(PlayError::NoMemory) => Err(io::Error::from(AllocError)),
        Err(PlayError::Exhausted) => writeln!(out, "\nThe trace has made its last step."),
        Err(PlayError::NotAllowed) => print_refusal(&trace.player, step, out),
    }?;
    match played {
        Ok(()) => Ok(Next::Line),
        Err(_) => Ok(Next::Refused),
    }
}
