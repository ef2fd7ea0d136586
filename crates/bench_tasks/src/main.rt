//! The program that prints how long operations of the library take, or does them alone for those who count what they do; and that measures the pool of
//! `executor`: tasks in a second, and the memory of a task.
//! It stands on `async_task`, on `executor` and `executor_parts` for the pool, and on `rows_fixtures` for the allocator that counts.
//! A user runs it. `operations` has the benchmarks, and `pool` the lines of the pool.
//! Nothing is public only to carry a claim.
//! The page is docs/PERFORMANCE.md.
#![tactic(auto)]

mod arguments;
mod failure;
mod operations;
mod pool;
mod times;

use arguments::{Request, asked, print_help, refuse};
use failure::{Failure, status_of};
use operations::benchmark::perform;
use std::alloc::Global;
use std::fs::Files;
use std::io::{Eprint, Print};
use std::process::ExitCode;
use std::rt::Clock;
use std::sync::Wait;
use std::thread::Threads;
use std::{env, io};

// Does what is asked for.
fn act<R>(rt: R, alloc: Global, request: Request) -> Result<(), Failure>
where
    R: Clock + Files + Threads + Wait + Print + Eprint + Drop + Copy + Send + Sync + 'static,
{
    match request {
        Request::Nothing => Ok(()),
        Request::Help => Ok(print_help(&rt)?),
        Request::Check => {
            operations::print_check(rt, alloc)?;
            pool::print_check(rt, alloc)
        }
        Request::Measure(repetitions) => operations::print_all(rt, alloc, repetitions),
        Request::Perform(benchmark, count) => {
            perform(benchmark, rt, alloc, count)?;
            Ok(())
        }
        Request::CheckPool => pool::print_check(rt, alloc),
        Request::MeasurePool(tasks) => pool::print_table(rt, alloc, tasks),
        Request::MeasureLine(line, size) => pool::print_one(rt, alloc, line, size),
    }
}

fn main(rt: HostRuntime) -> io::Result<ExitCode> {
    let alloc = rt.alloc();
    let err = rt.stderr();
    let words = match env::args(&rt) {
        Ok(words) => words,
        // An argument is not UTF-8.
        Err(error) if error.kind() == io::ErrorKind::InvalidData => {
            return Ok(ExitCode::from(refuse(&err)));
        }
        Err(error) => return Err(error),
    };
    let mut args = Vec::new(alloc);
    for arg in words.skip(1) {
        args.push(arg)?;
    }
    let status = match asked(args.as_slice()) {
        Some(request) => status_of(act(rt, alloc, request), &err),
        None => refuse(&err),
    };
    Ok(ExitCode::from(status))
}
