//! The scripts that are read, and what is printed of each.
ghost use Rattle.std.specs.Prelude.{◌≤◌, IfOk};

use crate::handles::Handles;
use crate::script::{Call, Script};
use crate::stage::{DEPTH, Stage};
use std::alloc::Global;
use std::io;
use std::sync::{Arc, Wait};
use std::thread::{self, Threads};

/// What was given to the program as an argument is refused, since it takes none: the status, 2. `err` is told so.
pub fn refuse<E: io::Write>(err: &mut E) -> u8
    ensures { result ≤ 2 }
{
    let _ = writeln!(
        err,
        "replay_calls: it takes no arguments, and reads scripts from its input"
    );
    let _ = err.flush();
    2
}

/// Plays the scripts that are read from `input`, one a line, and prints a line of what happened in each.
///
/// The status is 0 where all were played, 2 where a line is no script or not UTF-8, which is told on `err` by its number, and 1 where memory, a thread, the reader
/// or a writer fails, which is told there too.
pub fn answer<
    R: Wait + Threads + Drop + Copy + Send + Sync,
    I: io::BufRead + Drop,
    W: io::Write,
    E: io::Write,
>(rt: R, alloc: Global, input: I, out: &mut W, err: &mut E) -> u8
    ensures { result ≤ 2 }
{
    match play_lines(rt, alloc, input, out, err) {
        Ok(status) => status,
        Err(error) => {
            let _ = writeln!(err, "replay_calls: {error}");
            let _ = err.flush();
            1
        }
    }
}

fn play_lines<
    R: Wait + Threads + Drop + Copy + Send + Sync,
    I: io::BufRead + Drop,
    W: io::Write,
    E: io::Write,
>(rt: R, alloc: Global, input: I, out: &mut W, err: &mut E) -> io::Result<u8>
    ensures { IfOk result (λ status. status ≤ 2) }
{
    let mut number = 0u64;
    for line in input.lines(alloc) {
        number = number.saturating_add(1);
        let line = match line {
            Ok(line) => line,
            Err(error) if error.kind() == io::ErrorKind::InvalidData => {
                return tell(out, err, number, "not UTF-8");
            }
            Err(error) => return Err(error),
        };
        let Some(script) = Script::read(alloc, line.as_str())? else {
            return tell(out, err, number, "no script");
        };
        let played = play(rt, alloc, script)?;
        let played = played.as_str().trim_end();
        writeln!(out, "{played}")?;
    }
    out.flush()?;
    Ok(0)
}

// Says what is wrong with a line, behind what was printed so far: the status, 2.
fn tell<W: io::Write, E: io::Write>(
    out: &mut W,
    err: &mut E,
    number: u64,
    what: &str,
) -> io::Result<u8>
    ensures { IfOk result (λ status. status ≤ 2) }
{
    out.flush()?;
    writeln!(err, "line {number}: {what}")?;
    err.flush()?;
    Ok(2)
}

// What happens in a script.
fn play<R: Wait + Threads + Drop + Copy + Send + Sync>(
    rt: R,
    alloc: Global,
    script: Script,
) -> io::Result<String> {
    let Script {
        way,
        polls,
        inside,
        calls,
    } = script;
    let stage = Arc::new(alloc, Stage::new(alloc, inside))?;
    let handles = Handles::new(rt, alloc, Arc::try_clone(&stage)?, way, polls)?;
    play_beside(rt, &handles, &stage, calls.as_slice())?;
    Ok(stage.log.take()?)
}

// Plays beside the threads that make the calls inside foreign code.
fn play_beside<R: Wait + Threads + Drop + Copy + Send + Sync>(
    rt: R,
    handles: &Handles<R>,
    stage: &Stage,
    calls: &[Call],
) -> io::Result<()> {
    thread::scope(thread::scope_env(), &rt, |scope| {
        for number in 1..=DEPTH {
            if scope.spawn(move || handles.serve(number)).is_err() {
                stage.end();
                return Err(io::Error::from(io::ErrorKind::OutOfMemory));
            }
        }
        let played = handles.play(calls);
        stage.end();
        Ok(played?)
    })
}
