//! The worked rows, and the program that runs them: short sequences of calls whose counters and answers are known.
//! It stands on `rows_fixtures`, also for the arguments and what is printed, on `async_task`, and on `local_task` for one row.
//! A user runs it. Nothing is public only to carry a claim.
//! The page is README.md, beside the code.
#![tactic(auto)]

mod local;
mod priority;
mod scripts;
mod table;

use rows_fixtures::report::{answer, refuse};
use rows_fixtures::row::Row;
use std::process::ExitCode;
use std::{env, io};

fn main(rt: HostRuntime) -> io::Result<ExitCode> {
    let alloc = rt.alloc();
    let mut err = rt.stderr();
    let words = match env::args(&rt) {
        Ok(words) => words,
        // An argument is not UTF-8.
        Err(error) if error.kind() == io::ErrorKind::InvalidData => {
            return Ok(ExitCode::from(refuse(&mut err)));
        }
        Err(error) => return Err(error),
    };
    let args: Vec<String> = words.skip(1).collect(alloc)?;
    let mut out = io::writer(&rt);
    let run = |row: Row| table::run(row, rt, alloc);
    let status = answer(args.as_slice(), &run, &mut out, &mut err);
    Ok(ExitCode::from(status))
}
