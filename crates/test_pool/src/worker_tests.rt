//! Programs of tasks on pools of one and four threads, and a wake by another thread.
ghost use Rattle.std.specs.Prelude.{⊤};

use async_task::{Future, Poll, TaskPoll, Yields};
use executor::{Key, Pool, PoolWaker, keep_new_waker, wake_kept};
use executor_parts::Nobody;
use std::alloc::Global;
use std::process::Abort;
use std::sync::atomic::{AtomicU64, Ordering};
use std::sync::{Arc, Wait};
use std::thread::{self, Threads};

/// What the tasks of a program count together, and when it is over. A child that was refused memory counts as `refused`.
#[derive(Drop)]
struct Counts {
    done: AtomicU64,
    refused: AtomicU64,
    wanted: u64,
}

/// A future that gives way `left` times, spawns two more of `depth` less, counts one, and ends the pool with the last.
#[derive(Drop)]
struct Job {
    left: u64,
    depth: u64,
    counts: Arc<Counts>,
}

impl Yields for Job {
    type Output = u64;
}

impl<'x, R: Wait + Drop + Copy> Future<PoolWaker<'x, R, Job, Nobody>> for Job {
    ghost polled = { λ _ _ _ _. ⊤ };

    fn poll(&mut self, waker: &PoolWaker<'x, R, Job, Nobody>) -> Poll<u64> {
        if self.left > 0 {
            self.left -= 1;
            waker.wake_by_ref();
            return Poll::Pending;
        }
        let (pool, worker) = waker.around();
        if self.depth > 0 {
            for _ in 0..2 {
                if !spawn_child(pool, worker, self.depth - 1, &self.counts) {
                    self.counts.refused.fetch_add(1, Ordering::SeqCst);
                    pool.shutdown();
                }
            }
        }
        let before = self.counts.done.fetch_add(1, Ordering::SeqCst);
        if before.wrapping_add(1) == self.counts.wanted {
            pool.shutdown();
        }
        Poll::Ready(before)
    }
}

// False where there was no memory for the task.
fn spawn_child<R: Wait + Drop + Copy>(
    pool: &Pool<R, Job, Nobody>,
    worker: usize,
    depth: u64,
    counts: &Arc<Counts>,
) -> bool {
    let Ok(counts) = Arc::try_clone(counts) else {
        return false;
    };
    let child = Job {
        left: 1,
        depth,
        counts,
    };
    match pool.spawn_on(worker, child) {
        Ok(task) => {
            task.detach();
            true
        }
        Err(_) => false,
    }
}

/// A program of tasks.
#[derive(Clone, Copy)]
struct Program {
    // How many tasks are spawned from outside.
    tasks: u64,
    // How often each of these gives way.
    left: u64,
    // The depth of the tree of which each of these is the root.
    depth: u64,
    // How many tasks there are in all.
    wanted: u64,
}

type JobPool<R> = Pool<R, Job, Nobody>;

// Spawns the tasks of a program: what they count together.
fn spawn_all<R: Wait + Abort + Drop + Copy>(pool: &JobPool<R>, program: Program) -> Arc<Counts> {
    let rt = pool.rt();
    let counts = Counts {
        done: AtomicU64::new(0),
        refused: AtomicU64::new(0),
        wanted: program.wanted,
    };
    let counts = Arc::new(pool.alloc(), counts).expect(&rt, "refused");
    for _ in 0..program.tasks {
        let job = Job {
            left: program.left,
            depth: program.depth,
            counts: Arc::try_clone(&counts).expect(&rt, "refused"),
        };
        pool.spawn(job).expect(&rt, "refused").detach();
    }
    counts
}

// Is the worker of a number until the pool is shut down, as by `Pool::run`: whether there was such a worker.
fn work<R: Wait + Drop + Copy + 'static>(pool: &JobPool<R>, worker: usize) -> bool {
    pool.run(worker).is_ok()
}

// Runs a program on a number of threads, and answers whether all began, and how many tasks have ended and were refused memory.
fn run_on<R: Wait + Abort + Threads + Drop + Copy + Send + Sync + 'static>(
    rt: R,
    alloc: Global,
    workers: usize,
    program: Program,
) -> (bool, (u64, u64)) {
    let pool = JobPool::new(rt, alloc, workers).expect(&rt, "refused");
    let counts = spawn_all(&pool, program);
    let began = thread::map_indices(&rt, alloc, workers, &|worker| work(&pool, worker));
    let began = began.expect(&rt, "refused").iter().all(|began| *began);
    let done = counts.done.load(Ordering::SeqCst);
    (began, (done, counts.refused.load(Ordering::SeqCst)))
}

#[test]
fn every_task_ends_on_one_thread(rt: HostRuntime) {
    let program = Program {
        tasks: 100,
        left: 3,
        depth: 0,
        wanted: 100,
    };
    assert!(rt; run_on(rt, rt.alloc(), 1, program) == (true, (100, 0)));
}

#[test]
fn every_task_ends_on_four_threads(rt: HostRuntime) {
    let program = Program {
        tasks: 1000,
        left: 10,
        depth: 0,
        wanted: 1000,
    };
    assert!(rt; run_on(rt, rt.alloc(), 4, program) == (true, (1000, 0)));
}

// Four trees of 255 tasks each.
#[test]
fn a_task_spawns_tasks(rt: HostRuntime) {
    let program = Program {
        tasks: 4,
        left: 2,
        depth: 7,
        wanted: 1020,
    };
    assert!(rt; run_on(rt, rt.alloc(), 4, program) == (true, (1020, 0)));
}

/// A future that waits until another thread wakes it, and then ends the pool. `number` is one more than the number under which its waker is kept.
#[derive(Drop)]
struct Waits<R: Wait + Drop + Copy> {
    key: Option<Key<R>>,
    number: Arc<AtomicU64>,
}

impl<R: Wait + Drop + Copy> Yields for Waits<R> {
    type Output = u64;
}

impl<'x, R: Wait + Drop + Copy> Future<PoolWaker<'x, R, Waits<R>, Nobody>> for Waits<R> {
    ghost polled = { λ _ _ _ _. ⊤ };

    fn poll(&mut self, waker: &PoolWaker<'x, R, Waits<R>, Nobody>) -> Poll<u64> {
        let (pool, _) = waker.around();
        if self.key.is_some() {
            pool.shutdown();
            return Poll::Ready(7);
        }
        self.key = keep_new_waker(waker);
        if let Some(key) = &self.key {
            self.number
                .store((key.number() as u64).wrapping_add(1), Ordering::SeqCst);
        }
        Poll::Pending
    }
}

type WaitsPool<R> = Pool<R, Waits<R>, Nobody>;

// Is the worker of a pool until the shutdown, as by `Pool::run`. The prover takes the calls of this loop without a proof.
fn work_until_woken<R: Wait + Abort + Drop + Copy>(pool: &WaitsPool<R>) {
    let mut turns = pool.turns(0).expect(&pool.rt(), "refused");
    for _ in pool.rt().forever() {
        let Some(runnable) = turns.await_next() else {
            break;
        };
        runnable.run();
    }
}

fn wake_once<R: Wait + Drop + Copy>(pool: &WaitsPool<R>, number: &AtomicU64) -> bool {
    for _ in pool.rt().forever() {
        let seen = number.load(Ordering::SeqCst);
        if seen != 0 {
            return wake_kept((pool, pool.workers()), seen as usize - 1);
        }
        thread::yield_now();
    }
    unreachable!()
}

// Whether the waker of the only task was there, and what the task answers.
fn wake_from_outside<R: Wait + Abort + Threads + Drop + Copy + Send + Sync>(
    rt: R,
    alloc: Global,
) -> (bool, Option<u64>) {
    let number = Arc::new(alloc, AtomicU64::new(0)).expect(&rt, "refused");
    let pool = WaitsPool::new(rt, alloc, 1).expect(&rt, "refused");
    let waits = Waits {
        key: None,
        number: Arc::try_clone(&number).expect(&rt, "refused"),
    };
    let mut task = pool.spawn(waits).expect(&rt, "refused");
    let ((), woke) = thread::join(
        &rt,
        || work_until_woken(&pool),
        || wake_once(&pool, &number),
    );
    match task.poll(&Nobody) {
        TaskPoll::Ready(answer) => (woke, answer.ok()),
        _ => (woke, None),
    }
}

#[test]
fn another_thread_wakes_a_kept_waker(rt: HostRuntime) {
    assert!(rt; wake_from_outside(rt, rt.alloc()) == (true, Some(7)));
}
