//! What the arguments ask for, and the help.
ghost use Rattle.std.specs.Prelude.{◌≡◌};

use crate::operations::benchmark::Benchmark;
use crate::pool::lines::{Line, Size};
use std::io;
use std::io::Print;

const HELP: &str = "\
usage: bench_tasks [check | run | quick | perform NAME COUNT]
       bench_tasks pool [check | run [COUNT] | one LINE THREADS COUNT]

Measures the operations of the library, and the pool, and prints a line for each. Without arguments it does nothing.

    check                          few operations of each benchmark, and no times: how many it did, and what a spawn and a clone allocate; then `pool check`
    run                            each benchmark, by 15 repetitions
    quick                          .. by 5
    perform NAME COUNT             so many operations of one benchmark, of which nothing is printed
    pool check                     few tasks for each line of the pool, and no times: the tasks that ended
    pool run [COUNT]               all lines on 1, 2 and 4 threads: COUNT tasks in spawn, or 10000, and a tenth in the others
    pool one LINE THREADS COUNT    one measurement: tasks a second, and bytes a task
    --help                         this text

A line of the pool fails where not all of its tasks ended.
";

// How often each benchmark is measured.
const REPETITIONS: u32 = 15;

const QUICK_REPETITIONS: u32 = 5;

// How many tasks the line `spawn` has where the arguments do not say it.
const TASKS: u64 = 10_000;

// The greatest number of threads that may be asked for.
const MOST_THREADS: usize = 64;

/// What the arguments ask for.
#[derive(Clone, Copy)]
pub enum Request {
    /// Nothing: there are none.
    Nothing,
    /// The help.
    Help,
    /// Few operations of each benchmark and few tasks of each line, and no times.
    Check,
    /// The times of all benchmarks, each measured so often.
    Measure(u32),
    /// So many operations of one benchmark, and no time.
    Perform(Benchmark, u64),
    /// Few tasks of each line of the pool.
    CheckPool,
    /// All lines of the pool; `spawn` has so many tasks, and the others a tenth.
    MeasurePool(u64),
    /// One measurement of a line of the pool.
    MeasureLine(Line, Size),
}

/// What the arguments ask for, or `None` where that is not known.
pub fn asked(args: &[String]) -> Option<Request> {
    let Some((word, more)) = args.split_first() else {
        return Some(Request::Nothing);
    };
    match word.as_str() {
        "--help" if more.is_empty() => Some(Request::Help),
        "check" if more.is_empty() => Some(Request::Check),
        "run" if more.is_empty() => Some(Request::Measure(REPETITIONS)),
        "quick" if more.is_empty() => Some(Request::Measure(QUICK_REPETITIONS)),
        "perform" => asked_operations(more),
        "pool" => asked_of_pool(more),
        _ => None,
    }
}

// Operations of one benchmark, by its name and their number.
fn asked_operations(args: &[String]) -> Option<Request> {
    let [name, count] = args else {
        return None;
    };
    let benchmark = Benchmark::named(name)?;
    let count = count.parse::<u64>().ok()?;
    Some(Request::Perform(benchmark, count))
}

// What is asked of the pool.
fn asked_of_pool(args: &[String]) -> Option<Request> {
    let (word, more) = args.split_first()?;
    match word.as_str() {
        "check" if more.is_empty() => Some(Request::CheckPool),
        "run" => asked_lines(more),
        "one" => asked_line(more),
        _ => None,
    }
}

// All lines, by a number of tasks, or by nothing.
fn asked_lines(args: &[String]) -> Option<Request> {
    match args {
        [] => Some(Request::MeasurePool(TASKS)),
        [count] => Some(Request::MeasurePool(tasks_of(count)?)),
        _ => None,
    }
}

// One measurement, by its line, its threads and its tasks.
fn asked_line(args: &[String]) -> Option<Request> {
    let [line, threads, count] = args else {
        return None;
    };
    let line = Line::named(line)?;
    let threads = threads_of(threads)?;
    let tasks = tasks_of(count)?;
    Some(Request::MeasureLine(line, Size { tasks, threads }))
}

// A number of tasks, which is not 0.
fn tasks_of(word: &str) -> Option<u64> {
    word.parse::<u64>().ok().filter(|tasks| *tasks > 0)
}

// A number of threads, from 1 on.
fn threads_of(word: &str) -> Option<usize> {
    let threads = word.parse::<usize>().ok()?;
    (1..=MOST_THREADS).contains(&threads).then_some(threads)
}

/// Prints what may be written: the arguments, and the names of the benchmarks and lines.
pub fn print_help<P: Print>(to: &P) -> io::Result<()> {
    println!(to; "{HELP}")?;
    print_benchmarks(to)?;
    print_lines(to)
}

fn print_benchmarks<P: Print>(to: &P) -> io::Result<()> {
    println!(to; "The benchmarks:\n")?;
    for benchmark in Benchmark::ALL {
        println!(to; "    {}", benchmark.name())?;
    }
    Ok(())
}

fn print_lines<P: Print>(to: &P) -> io::Result<()> {
    println!(to; "\nThe lines:\n")?;
    for line in Line::ALL {
        println!(to; "    {}", line.name())?;
    }
    Ok(())
}

/// Refuses the arguments by the help. The status is 2.
pub fn refuse<P: Print>(to: &P) -> u8
    ensures { result ≡ 2 }
{
    let _ = print_help(to);
    2
}
