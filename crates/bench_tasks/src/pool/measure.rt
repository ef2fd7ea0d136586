//! The measurement of a line on a pool of `executor`.

use crate::failure::Failure;
use crate::pool::lines::{Line, Size};
use crate::pool::tally::{Measured, Start, Tally};
use crate::pool::tasks::{Job, Row};
use executor::{Place, Pool, ToPool};
use executor_parts::{Awaiter, TaskGroup};
use std::alloc::Global;
use std::fs::Files;
use std::rt::Clock;
use std::sync::{Arc, Wait};
use std::thread;
use std::thread::Threads;

// A pool of these tasks.
type JobPool<R> = Pool<R, Job<R>, Awaiter<R>>;

// A group of their Tasks.
type JobGroup<'x, R> = TaskGroup<
    R,
    Job<R>,
    ToPool,
    (),
    Awaiter<R>,
    Place<'x, R, Job<R>, Awaiter<R>>,
>;

// The measurement of a line: the tasks that ended, the wakers of its tasks, and how the clock and the memory stood at its start.
#[derive(Drop)]
struct Course {
    line: Line,
    tally: Arc<Tally>,
    row: Arc<Row>,
    start: Start,
}

/// Measures a line once, on a pool of its own.
///
/// An error says that not all tasks ended, or that there was no memory, or that the clock failed.
pub fn measure_line<R>(rt: R, alloc: Global, line: Line, size: Size) -> Result<Measured, Failure>
where
    R: Clock + Files + Threads + Wait + Drop + Copy + Send + Sync + 'static,
{
    let pool = JobPool::new(rt, alloc, size.threads)?;
    if line == Line::Group {
        return await_group(&rt, alloc, &pool, size.tasks);
    }
    let tally = Tally::new(alloc, size.tasks)?;
    let row = Row::new(alloc, &tally, line == Line::Chain)?;
    let start = Start::new(&rt, alloc)?;
    let course = Course {
        line,
        tally,
        row,
        start,
    };
    run(&rt, alloc, &pool, &course)
}

// Is a worker until the pool is shut down: whether there was such a worker.
fn work<R: Wait + Drop + Copy + 'static>(pool: &JobPool<R>, worker: usize) -> bool {
    pool.run(worker).is_ok()
}

// Runs all workers, each on a thread.
fn work_all<R>(rt: &R, alloc: Global, pool: &JobPool<R>)
where
    R: Threads + Wait + Drop + Copy + Send + Sync + 'static,
{
    let worker = |worker: usize| work(pool, worker);
    drop(thread::map_indices(rt, alloc, pool.workers(), &worker));
}

// Spawns all tasks of a line, has the workers run them, and measures it.
fn run<R>(rt: &R, alloc: Global, pool: &JobPool<R>, course: &Course) -> Result<Measured, Failure>
where
    R: Clock + Files + Threads + Wait + Drop + Copy + Send + Sync + 'static,
{
    if course.line.is_row() {
        spawn_row(alloc, pool, &course.row)?;
    } else {
        spawn_jobs(pool, &course.tally, course.line.yields())?;
    }
    let grown = course.start.grown(rt, alloc);
    let elapsed = thread::scope(thread::scope_env(), rt, |scope| {
        // Without the thread that oversees, workers of a row that hands over would sleep for ever.
        if scope.spawn(move || oversee(rt, pool, course)).is_err() {
            return None;
        }
        work_all(rt, alloc, pool);
        Some(course.start.elapsed(rt))
    });
    let elapsed = elapsed.ok_or(Failure::NoThread)?;
    Measured::new(&course.tally, elapsed?, grown)
}

// Spawns jobs that give way so often.
fn spawn_jobs<R: Wait + Drop + Copy>(
    pool: &JobPool<R>,
    tally: &Arc<Tally>,
    left: u64,
) -> Result<(), Failure> {
    for _ in 0..tally.wanted() {
        spawn_detached(pool, Job::new(tally, left)?)?;
    }
    Ok(())
}

fn spawn_detached<R: Wait + Drop + Copy>(pool: &JobPool<R>, job: Job<R>) -> Result<(), Failure> {
    let Ok(task) = pool.spawn(job) else {
        return Err(Failure::NoMemory);
    };
    task.detach();
    Ok(())
}

// Spawns the jobs of a row, the first one last: so the others wait by then. Where the row passes on, the first needs no wake.
fn spawn_row<R: Wait + Drop + Copy>(
    alloc: Global,
    pool: &JobPool<R>,
    row: &Arc<Row>,
) -> Result<(), Failure> {
    if row.passes_on() {
        row.wake((pool, pool.workers()), 0);
    }
    for at in (0..row.len()).rev() {
        spawn_detached(pool, Job::in_row(alloc, row, at)?)?;
    }
    Ok(())
}

// Wakes the tasks of the row where it hands over, and ends the pool where a task is lost.
fn oversee<R: Clock + Wait + Drop + Copy>(rt: &R, pool: &JobPool<R>, course: &Course) {
    let goes_on = course.line != Line::Handoff || hand_over(rt, pool, &course.tally, &course.row);
    if !(goes_on && course.tally.wait(rt)) {
        pool.shutdown();
    }
}

// Wakes the tasks of a row one after the other, each once the one before it has ended: false where one is lost.
fn hand_over<R>(rt: &R, pool: &JobPool<R>, tally: &Tally, row: &Row) -> bool
where
    R: Clock + Wait + Drop + Copy,
{
    for at in 0..row.len() {
        row.wake((pool, pool.workers()), at);
        if !tally.passes(rt, at as u64) {
            return false;
        }
    }
    true
}

// As `run`, of tasks that are ready at once, whose outputs this thread awaits in a group while the workers run them.
fn await_group<R>(rt: &R, alloc: Global, pool: &JobPool<R>, tasks: u64) -> Result<Measured, Failure>
where
    R: Clock + Files + Threads + Wait + Drop + Copy + Send + Sync + 'static,
{
    let tally = Tally::new(alloc, tasks)?;
    let start = Start::new(rt, alloc)?;
    let mut group = spawn_group(*rt, alloc, pool, &tally)?;
    let grown = start.grown(rt, alloc);
    let (_, (elapsed, answered)) = thread::join(
        rt,
        || work_all(rt, alloc, pool),
        || {
            let answered = answers_of(rt, pool, &tally, &mut group);
            (start.elapsed(rt), answered)
        },
    );
    if answered != tally.wanted() {
        return Err(Failure::Unanswered(answered, tally.wanted()));
    }
    Measured::new(&tally, elapsed?, grown)
}

// Spawns jobs, and puts their Tasks into one group.
fn spawn_group<'x, R: Wait + Drop + Copy>(
    rt: R,
    alloc: Global,
    pool: &'x JobPool<R>,
    tally: &Arc<Tally>,
) -> Result<JobGroup<'x, R>, Failure> {
    let mut group = TaskGroup::new(rt, alloc, tally.wanted() as usize)?;
    for _ in 0..tally.wanted() {
        spawn_member(pool, Job::new(tally, 0)?, &mut group)?;
    }
    Ok(group)
}

fn spawn_member<'x, R: Wait + Drop + Copy>(
    pool: &'x JobPool<R>,
    job: Job<R>,
    group: &mut JobGroup<'x, R>,
) -> Result<(), Failure> {
    let Ok(task) = pool.spawn(job) else {
        return Err(Failure::NoMemory);
    };
    if group.push(task).is_err() {
        return Err(Failure::NoMemory);
    }
    Ok(())
}

// How many tasks of a group gave an output. Another thread ends the pool where a task is lost.
fn answers_of<'x, R: Clock + Threads + Wait + Drop + Copy + Send + Sync>(
    rt: &R,
    pool: &JobPool<R>,
    tally: &Tally,
    group: &mut JobGroup<'x, R>,
) -> u64 {
    let ((), answered) = thread::join(
        rt,
        || {
            if !tally.wait(rt) {
                pool.shutdown();
            }
        },
        || count_answers(rt, group),
    );
    answered
}

fn count_answers<'x, R: Wait + Drop + Copy>(rt: &R, group: &mut JobGroup<'x, R>) -> u64 {
    let mut answered = 0u64;
    for _ in rt.forever() {
        match group.next() {
            Ok(Some(ended)) => {
                if ended.answer.is_ok() {
                    answered = answered.wrapping_add(1);
                }
            }
            _ => return answered,
        }
    }
    unreachable!()
}
