//! The program that plays the steps that it reads from standard input, and prints how the task stands after each.
//! It stands on `task_replay`, which reads the arguments and the steps, and prints the rows; its tests, which are those of that library, on `rows_fixtures` as well.
//! A user runs it. Nothing is public only to carry a claim.
//! The page is README.md, beside the code.
#![tactic(auto)]

#[cfg(test)]
mod tests;

use std::io::{BufReader, BufWriter};
use std::process::ExitCode;
use std::{env, io};
use task_replay::arguments::{answer, refuse};

fn main(rt: HostRuntime) -> io::Result<ExitCode> {
    let mut err = rt.stderr();
    let words = match env::args(&rt) {
        Ok(words) => words,
        // An argument is not UTF-8.
        Err(error) if error.kind() == io::ErrorKind::InvalidData => {
            return Ok(ExitCode::from(refuse(&mut err)));
        }
        Err(error) => return Err(error),
    };
    let mut args = Vec::new(rt.alloc());
    for arg in words.skip(1) {
        args.push(arg)?;
    }
    let input = BufReader::new(rt.alloc(), rt.reader())?;
    let mut out = BufWriter::new(rt.alloc(), io::writer(&rt))?;
    let status = answer(rt.alloc(), args.as_slice(), input, &mut out, &mut err);
    Ok(ExitCode::from(status))
}
