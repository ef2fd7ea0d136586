//! How long one operation of a benchmark takes.

use crate::failure::Failure;
use crate::operations::benchmark::{Benchmark, perform};
use crate::times::{Summary, hundredths_of_one, summarize};
use std::alloc::Global;
use std::rt::Clock;
use std::sync::Wait;
use std::time::{Duration, Instant};

// A measurement takes at least this many milliseconds, so that neither the clock nor what is prepared counts.
const LEAST: u64 = 60;

// How often the number of operations is doubled at most.
const DOUBLINGS: u32 = 40;

/// The time of one operation of a benchmark in hundredths of a nanosecond, measured `repetitions` times. An `Err` says that these are none, or that
/// the benchmark failed.
pub fn time<R: Clock + Wait + Drop + Copy>(
    rt: R,
    alloc: Global,
    benchmark: Benchmark,
    repetitions: u32,
) -> Result<Summary, Failure> {
    let count = count_for(rt, alloc, benchmark)?;
    let mut measured = Vec::new(alloc);
    for _ in 0..repetitions {
        measured.push(time_once(rt, alloc, benchmark, count)?.1)?;
    }
    summarize(measured)
}

// The number of operations that takes long enough.
fn count_for<R: Clock + Wait + Drop + Copy>(
    rt: R,
    alloc: Global,
    benchmark: Benchmark,
) -> Result<u64, Failure> {
    let mut count = 1000u64;
    for _ in 0..DOUBLINGS {
        let (elapsed, _) = time_once(rt, alloc, benchmark, count)?;
        if elapsed > Duration::from_millis(LEAST) {
            break;
        }
        count = count.saturating_mul(2);
    }
    Ok(count)
}

// How long that many operations take, and how long one of them, in hundredths of a nanosecond.
fn time_once<R: Clock + Wait + Drop + Copy>(
    rt: R,
    alloc: Global,
    benchmark: Benchmark,
    count: u64,
) -> Result<(Duration, u64), Failure> {
    let start = Instant::now(&rt)?;
    let done = perform(benchmark, rt, alloc, count)?;
    let elapsed = start.elapsed(&rt)?;
    Ok((elapsed, hundredths_of_one(elapsed, done)))
}
