//! The program that plays scripts of calls on a task, and prints a line of what happened in each.
//! It stands on `async_task`.
//! A user runs it beside a program that does the same with async-task. Nothing is public only to carry a claim.
//! The page is docs/DIFFERENCES.md.
#![tactic(auto)]

mod handles;
mod log;
mod replay;
mod script;
mod stage;
mod values;

use std::io::{BufReader, BufWriter};
use std::process::ExitCode;
use std::{env, io};

fn main(rt: HostRuntime) -> io::Result<ExitCode> {
    let mut err = rt.stderr();
    let is_given = match env::args(&rt) {
        Ok(words) => words.len() > 1,
        // An argument is not UTF-8.
        Err(error) if error.kind() == io::ErrorKind::InvalidData => true,
        Err(error) => return Err(error),
    };
    if is_given {
        return Ok(ExitCode::from(replay::refuse(&mut err)));
    }
    let input = BufReader::new(rt.alloc(), rt.reader())?;
    let mut out = BufWriter::new(rt.alloc(), io::writer(&rt))?;
    let status = replay::answer(rt, rt.alloc(), input, &mut out, &mut err);
    Ok(ExitCode::from(status))
}
