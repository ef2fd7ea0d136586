//! What is printed of the pool: how many of few tasks ended, or how many end in a second, and the memory of a task.

pub mod lines;
mod measure;
mod memory;
mod tally;
mod tasks;

use crate::failure::Failure;
use crate::times::{per_second, summarize};
use lines::{Line, Size};
use measure::measure_line;
use std::alloc::Global;
use std::fs::Files;
use std::io::Print;
use std::rt::Clock;
use std::sync::Wait;
use std::thread::Threads;
use std::{fmt, io};

const HEAD: &str = "\
| line | tasks | threads | tasks/s | bytes |
| --- | --- | --- | --- | --- |";

// The numbers of threads of a table.
const THREADS: [usize; 3] = [1, 2, 4];

// How many tasks `check` has, and on how many threads: also one alone.
const CHECKED: [(u64, usize); 5] = [(1, 1), (500, 1), (500, 2), (500, 3), (500, 4)];

// How often each line is measured for a table.
const REPETITIONS: u32 = 5;

// What repeated measurements gave.
#[derive(Clone, Copy)]
struct Summary {
    // Tasks that ended in a second: the median.
    per_second: u64,
    // The bytes of a task: the most that was found.
    bytes: Bytes,
}

// A number of bytes. It is printed as a dash where it is not known.
#[derive(Clone, Copy)]
struct Bytes(Option<u64>);

impl fmt::Display for Bytes {
    fn fmt<W: fmt::Write>(&self, f: &mut fmt::Formatter<W>) -> fmt::Result {
        match self.0 {
            Some(bytes) => write!(f, "{bytes}"),
            None => write!(f, "-"),
        }
    }
}

/// Prints how many of few tasks ended, for each line.
pub fn print_check<R>(rt: R, alloc: Global) -> Result<(), Failure>
where
    R: Clock + Files + Threads + Wait + Print + Drop + Copy + Send + Sync + 'static,
{
    for line in Line::ALL {
        for (tasks, threads) in CHECKED {
            let ended = measure_line(rt, alloc, line, Size { tasks, threads })?.ended;
            println!(rt; "{} threads {threads} ended {ended}", line.name())?;
        }
    }
    Ok(())
}

/// Prints the table of all lines.
pub fn print_table<R>(rt: R, alloc: Global, tasks: u64) -> Result<(), Failure>
where
    R: Clock + Files + Threads + Wait + Print + Drop + Copy + Send + Sync + 'static,
{
    println!(rt; "{HEAD}")?;
    for line in Line::ALL {
        print_rows(rt, alloc, line, tasks_in(line, tasks))?;
    }
    Ok(())
}

// How many tasks a line has in a table of all lines: `spawn` has so many, and the others a tenth, at least one.
fn tasks_in(line: Line, tasks: u64) -> u64 {
    if line == Line::Spawn {
        tasks
    } else {
        (tasks / 10).max(1)
    }
}

// A line of a table for each number of threads.
fn print_rows<R>(rt: R, alloc: Global, line: Line, tasks: u64) -> Result<(), Failure>
where
    R: Clock + Files + Threads + Wait + Print + Drop + Copy + Send + Sync + 'static,
{
    for threads in THREADS {
        let size = Size { tasks, threads };
        let summary = measure_often(rt, alloc, line, size)?;
        print_row(&rt, line, size, summary)?;
    }
    Ok(())
}

fn print_row<R: Print>(rt: &R, line: Line, size: Size, summary: Summary) -> io::Result<()> {
    let name = line.name();
    println!(rt;
        "| {name} | {} | {} | {} | {} |",
        size.tasks, size.threads, summary.per_second, summary.bytes
    )
}

/// Prints what one measurement of a line gave.
pub fn print_one<R>(rt: R, alloc: Global, line: Line, size: Size) -> Result<(), Failure>
where
    R: Clock + Files + Threads + Wait + Print + Drop + Copy + Send + Sync + 'static,
{
    let measured = measure_line(rt, alloc, line, size)?;
    let ended = measured.ended;
    let rate = per_second(ended, measured.elapsed);
    let bytes = bytes_of_one(measured.grown, size.tasks);
    println!(rt; "ended {ended} per_second {rate} bytes {bytes}")?;
    Ok(())
}

// Measures a line several times.
fn measure_often<R>(rt: R, alloc: Global, line: Line, size: Size) -> Result<Summary, Failure>
where
    R: Clock + Files + Threads + Wait + Drop + Copy + Send + Sync + 'static,
{
    let mut rates = Vec::new(alloc);
    let mut most = None;
    for _ in 0..REPETITIONS {
        let measured = measure_line(rt, alloc, line, size)?;
        rates.push(per_second(measured.ended, measured.elapsed))?;
        most = most.max(measured.grown);
    }
    Ok(Summary {
        per_second: summarize(rates)?.median,
        bytes: bytes_of_one(most, size.tasks),
    })
}

// The part of one task.
fn bytes_of_one(grown: Option<u64>, tasks: u64) -> Bytes {
    Bytes(grown.and_then(|bytes| bytes.checked_div(tasks)))
}
