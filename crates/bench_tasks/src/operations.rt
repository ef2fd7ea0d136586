//! What is printed of the operations: what few of them did, or the times of many, and what they ask of the allocator.

pub mod benchmark;
mod contended;
mod measure;
mod queue;
mod requests;
mod slot;
mod task_futures;

use crate::failure::Failure;
use crate::times::Hundredths;
use benchmark::{Benchmark, perform};
use contended::{Contention, Throughput};
use requests::count_requests;
use std::alloc::Global;
use std::io::{Eprint, Print};
use std::rt::Clock;
use std::sync::Wait;
use std::thread::Threads;

// How many operations of each benchmark a check asks for.
const FEW: u64 = 3;

// One more than the tasks of an executor, of which there are then two, since they come in whole executors.
const BEYOND: u64 = 1001;

/// Prints how many of few operations each benchmark did, the names of those of several threads, and what a spawn and a clone ask for.
pub fn print_check<R>(rt: R, alloc: Global) -> Result<(), Failure>
where
    R: Clock + Threads + Wait + Print + Eprint + Drop + Copy + Send + Sync,
{
    print_all_done(rt, alloc)?;
    print_contended(rt, alloc)?;
    for benchmark in [Benchmark::SpawnDropDrop, Benchmark::CloneDrop] {
        print_requests(rt, alloc, benchmark, benchmark.name())?;
    }
    Ok(())
}

// How many operations each benchmark did that was to do few, and an executor that was to run one task more than it has.
fn print_all_done<R: Wait + Print + Drop + Copy>(rt: R, alloc: Global) -> Result<(), Failure> {
    for benchmark in Benchmark::ALL {
        print_done(rt, alloc, benchmark, FEW)?;
    }
    print_done(rt, alloc, Benchmark::Execute1000Yield10, BEYOND)
}

// How many operations a benchmark did that was to do so many.
fn print_done<R: Wait + Print + Drop + Copy>(
    rt: R,
    alloc: Global,
    benchmark: Benchmark,
    count: u64,
) -> Result<(), Failure> {
    let name = benchmark.name();
    let done = perform(benchmark, rt, alloc, count)?;
    Ok(println!(rt; "{name} {done}")?)
}

// The names of the benchmarks of several threads, each once it has an answer.
fn print_contended<R>(rt: R, alloc: Global) -> Result<(), Failure>
where
    R: Clock + Threads + Wait + Print + Drop + Copy + Send + Sync,
{
    for contention in Contention::ALL {
        contended::measure(contention, rt, alloc, 2, 1)?;
        println!(rt; "{}", contention.name())?;
    }
    Ok(())
}

/// Prints the times of all benchmarks, and what an operation asks of the allocator, of those of one thread that have a name for it.
///
/// The name of each is printed as an error before it is measured.
pub fn print_all<R>(rt: R, alloc: Global, repetitions: u32) -> Result<(), Failure>
where
    R: Clock + Threads + Wait + Print + Eprint + Drop + Copy + Send + Sync,
{
    for benchmark in Benchmark::ALL {
        print_time(rt, alloc, benchmark, repetitions)?;
    }
    print_all_requests(rt, alloc)?;
    for contention in Contention::ALL {
        for threads in [1, 2, 4] {
            print_throughput(rt, alloc, contention, threads, repetitions)?;
        }
    }
    Ok(())
}

// Counts what an operation asks of the allocator, for each benchmark that has a name for it.
fn print_all_requests<R>(rt: R, alloc: Global) -> Result<(), Failure>
where
    R: Wait + Print + Eprint + Drop + Copy,
{
    for benchmark in Benchmark::ALL {
        if let Some(name) = benchmark.heap_name() {
            print_requests(rt, alloc, benchmark, name)?;
        }
    }
    Ok(())
}

// Measures a benchmark and prints a line.
fn print_time<R>(
    rt: R,
    alloc: Global,
    benchmark: Benchmark,
    repetitions: u32,
) -> Result<(), Failure>
where
    R: Clock + Wait + Print + Eprint + Drop + Copy,
{
    let name = benchmark.name();
    eprintln!(rt; "{name}")?;
    let time = measure::time(rt, alloc, benchmark, repetitions)?;
    let (median, least) = (Hundredths(time.median), Hundredths(time.least));
    Ok(println!(rt; "{name} {median} min {least}")?)
}

// Counts what an operation of a benchmark asks of the allocator and prints a line.
fn print_requests<R>(rt: R, alloc: Global, benchmark: Benchmark, name: &str) -> Result<(), Failure>
where
    R: Wait + Print + Eprint + Drop + Copy,
{
    eprintln!(rt; "{name}")?;
    let counted = count_requests(rt, alloc, benchmark)?;
    let (allocations, bytes) = (counted.allocations, counted.bytes);
    Ok(println!(rt; "{name} allocations {allocations} bytes {bytes}")?)
}

// Measures a benchmark with so many threads and prints a line.
fn print_throughput<R>(
    rt: R,
    alloc: Global,
    contention: Contention,
    threads: u32,
    repetitions: u32,
) -> Result<(), Failure>
where
    R: Clock + Threads + Wait + Print + Eprint + Drop + Copy + Send + Sync,
{
    let name = contention.name();
    eprintln!(rt; "{name}_t{threads}")?;
    let measured = contended::measure(contention, rt, alloc, threads, repetitions)?;
    print_rates(&rt, name, threads, &measured)
}

fn print_rates<R: Print>(
    rt: &R,
    name: &str,
    threads: u32,
    measured: &Throughput,
) -> Result<(), Failure> {
    let median = Hundredths(measured.time.median);
    let least = Hundredths(measured.time.least);
    let rate = measured.per_second;
    let runs = measured.runs_per_second;
    println!(rt;
        "{name}_t{threads} {median} min {least} per_second {rate} runs_per_second {runs}"
    )?;
    Ok(())
}
