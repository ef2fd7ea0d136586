//! The benchmarks in which several threads use wakers of one task: their names, and what they measure.

mod phases;

use crate::failure::Failure;
use crate::operations::queue::{Queue, QueueRunnable, QueueWaker};
use crate::operations::task_futures::Pending;
use crate::times::{Summary, hundredths_of_one, per_second, summarize};
use phases::Phases;
use std::alloc::{AllocError, Global};
use std::rt::Clock;
use std::sync::Wait;
use std::thread;
use std::thread::Threads;
use std::time::{Duration, Instant};

/// A benchmark in which several threads use wakers of one task, by what each does with its waker.
#[derive(Clone, Copy)]
pub enum Contention {
    /// It wakes the task, which one more thread runs.
    WakeStorm,
    /// It clones the waker and drops the clone.
    CloneDrop,
    /// As the first, where all threads wake by one waker.
    OneWaker,
}

impl Contention {
    /// All of them, in the order in which they are printed.
    pub const ALL: [Contention; 3] = [
        Contention::WakeStorm,
        Contention::CloneDrop,
        Contention::OneWaker,
    ];

    /// The name that is printed before the number of threads.
    pub fn name(self) -> &'static str {
        match self {
            Contention::WakeStorm => "f_wake_storm",
            Contention::CloneDrop => "g_clone_drop",
            Contention::OneWaker => "h_one_waker",
        }
    }

    /// Whether one more thread runs the task.
    pub fn runs(self) -> bool {
        matches!(self, Contention::WakeStorm | Contention::OneWaker)
    }

    /// How many wakers that many threads have.
    pub fn wakers(self, threads: u32) -> u32 {
        match self {
            Contention::WakeStorm | Contention::CloneDrop => threads,
            Contention::OneWaker => 1,
        }
    }
}

/// What such a benchmark gave.
#[derive(Drop)]
pub struct Throughput {
    /// The time of one operation, as each of the threads sees it, in hundredths of a nanosecond.
    pub time: Summary,
    /// How many operations all threads did in a second: the median.
    pub per_second: u64,
    /// How often the task was run in a second: the median.
    pub runs_per_second: u64,
}

// What one measurement counted.
#[derive(Drop)]
struct Counted {
    elapsed: Duration,
    operations: u64,
    runs: u64,
}

/// Measures with that many threads, `repetitions` times, at least once.
pub fn measure<R: Clock + Threads + Wait + Drop + Copy + Send + Sync>(
    contention: Contention,
    rt: R,
    alloc: Global,
    threads: u32,
    repetitions: u32,
) -> Result<Throughput, Failure> {
    let mut counted = Vec::new(alloc);
    for _ in 0..repetitions {
        counted.push(measure_once(contention, rt, alloc, threads)?)?;
    }
    medians_of(alloc, threads, counted.as_slice())
}

// One measurement, of a task that is scheduled, whose Runnable makes the wakers.
fn measure_once<R: Clock + Threads + Wait + Drop + Copy + Send + Sync>(
    contention: Contention,
    rt: R,
    alloc: Global,
    threads: u32,
) -> Result<Counted, Failure> {
    let queue = Queue::new(rt, alloc);
    let (runnable, task) = queue.spawn(Pending)?;
    let wakers = wakers_of(alloc, &runnable, contention.wakers(threads))?;
    runnable.schedule();
    let counted = count(contention, rt, &queue, wakers.as_slice(), threads);
    drop(task);
    counted
}

// So many wakers of the task.
fn wakers_of<'x, R: Wait + Drop + Copy>(
    alloc: Global,
    runnable: &QueueRunnable<'x, R, Pending>,
    number: u32,
) -> Result<Vec<QueueWaker<'x, R, Pending>>, AllocError> {
    let mut wakers = Vec::new(alloc);
    for _ in 0..number {
        let Ok(waker) = runnable.waker() else {
            return Err(AllocError);
        };
        wakers.push(waker)?;
    }
    Ok(wakers)
}

// The waker of the thread of that number. Threads that have none of their own share the last one.
fn waker_of<'w, 'x, R: Wait + Drop + Copy>(
    wakers: &'w [QueueWaker<'x, R, Pending>],
    number: u32,
) -> Option<&'w QueueWaker<'x, R, Pending>> {
    match wakers.get(number as usize) {
        Some(own) => Some(own),
        None => wakers.last(),
    }
}

// So many threads are started, which work for a time, and end. The task is run by this thread.
fn count<R: Clock + Threads + Wait + Drop + Copy + Send + Sync>(
    contention: Contention,
    rt: R,
    queue: &Queue<R, Pending>,
    wakers: &[QueueWaker<'_, R, Pending>],
    threads: u32,
) -> Result<Counted, Failure> {
    let phases = Phases::new();
    let shared = &phases;
    let start = thread::scope(thread::scope_env(), &rt, |scope| {
        for number in 0..threads {
            let Some(waker) = waker_of(wakers, number) else {
                return shared.give_up();
            };
            if scope
                .spawn(move || shared.work(rt, waker, contention))
                .is_err()
            {
                return shared.give_up();
            }
        }
        if scope.spawn(move || shared.stop_later(rt)).is_err() {
            return shared.give_up();
        }
        let start = Instant::now(&rt).ok();
        shared.start();
        if contention.runs() {
            shared.run(rt, queue);
        }
        start
    });
    let start = start.ok_or(Failure::NoThread)?;
    Ok(Counted {
        elapsed: start.elapsed(&rt)?,
        operations: phases.operations(),
        runs: phases.runs(),
    })
}

// The medians of what the measurements counted.
fn medians_of(alloc: Global, threads: u32, counted: &[Counted]) -> Result<Throughput, Failure> {
    let (rate, runs) = median_rates(alloc, counted)?;
    Ok(Throughput {
        time: summarize_times(alloc, threads, counted)?,
        per_second: rate,
        runs_per_second: runs,
    })
}

// The time of one operation, as each of so many threads sees it.
fn summarize_times(alloc: Global, threads: u32, counted: &[Counted]) -> Result<Summary, Failure> {
    let mut times = Vec::new(alloc);
    for one in counted {
        let work = one.elapsed.saturating_mul(threads);
        times.push(hundredths_of_one(work, one.operations))?;
    }
    summarize(times)
}

// How many operations there were in a second, and how many runs: the medians.
fn median_rates(alloc: Global, counted: &[Counted]) -> Result<(u64, u64), Failure> {
    let mut rates = Vec::new(alloc);
    let mut runs = Vec::new(alloc);
    for one in counted {
        rates.push(per_second(one.operations, one.elapsed))?;
        runs.push(per_second(one.runs, one.elapsed))?;
    }
    Ok((summarize(rates)?.median, summarize(runs)?.median))
}
