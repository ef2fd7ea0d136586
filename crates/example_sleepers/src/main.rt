//! A thousand tasks of a pool sleep for up to 50 ms, and send a number each to a task that adds them up, which `main` awaits.
#![tactic(auto)]

ghost use Rattle.std.specs.Prelude.{⊤};

use async_task::{Future, Poll, Wake, Yields};
use executor::generic::{block_on, run};
use executor::shared_waker::{PoolSharedWaker, Share};
use executor::{BellAwaiter, Pool, PoolTask, PoolWaker, Turns};
use future_parts::{Receiver, Sender, channel};
use future_time::{Sleep, Timers};
use std::alloc::Global;
use std::io;
use std::sync::Wait;
use std::thread::{self, Threads};
use std::time::{Clock, Duration};

#[derive(Drop)]
enum Work<R: Wait + Clock + Drop + Copy, W: Wake> {
    Send(Sleep<R, W>, Sender<R, u64, W>, u64),
    Add(Receiver<R, u64, W>, u64),
}

impl<R: Wait + Clock + Drop + Copy, W: Wake> Work<R, W> {
    fn poll(&mut self, waker: &W) -> Poll<u64> {
        match self {
            Work::Send(sleep, sender, number) => {
                if sleep.poll(waker) == Poll::Pending {
                    return Poll::Pending;
                }
                let _ = sender.try_send(*number);
                Poll::Ready(0)
            }
            Work::Add(receiver, sum) => {
                match receiver.poll_receive(waker) {
                    Poll::Pending => return Poll::Pending,
                    Poll::Ready(Some(number)) => *sum = sum.saturating_add(number),
                    Poll::Ready(None) => return Poll::Ready(*sum),
                }
                waker.wake_by_ref();
                Poll::Pending
            }
        }
    }
}

#[derive(Drop)]
struct Job<R: Wait + Clock + Drop + Copy, W: Wake> {
    work: Work<R, W>,
    shared: Option<W>,
}

type Own<R> = Job<R, PoolSharedWaker<R>>;

type JobPool<R> = Pool<R, Own<R>, BellAwaiter<R>>;

type JobTask<'x, R> = PoolTask<'x, R, Own<R>, BellAwaiter<R>>;

type JobTurns<'x, R> = Turns<'x, R, Own<R>, BellAwaiter<R>>;

type JobTimers<R> = Timers<R, PoolSharedWaker<R>>;

impl<R: Wait + Clock + Drop + Copy, W: Wake> Yields for Job<R, W> {
    type Output = u64;
}

impl<'x, R: Wait + Clock + Drop + Copy, A: Wake> Future<PoolWaker<'x, R, Own<R>, A>>
    for Job<R, PoolSharedWaker<R>> {
    ghost polled = { λ _ _ _ _. ⊤ };

    fn poll(&mut self, waker: &PoolWaker<'x, R, Own<R>, A>) -> Poll<u64> {
        if !waker.share(&mut self.shared) {
            waker.wake_by_ref();
            return Poll::Pending;
        }
        match &self.shared {
            Some(shared) => self.work.poll(shared),
            None => Poll::Pending,
        }
    }
}

fn spawn<'x, R: Wait + Clock + Drop + Copy>(
    pool: &'x JobPool<R>,
    work: Work<R, PoolSharedWaker<R>>,
) -> Option<JobTask<'x, R>> {
    pool.spawn(Job { work, shared: None }).ok()
}

// Spawns all, and answers the task that adds up.
fn spawn_all<'x, R: Wait + Clock + Drop + Copy>(
    pool: &'x JobPool<R>,
    timers: &JobTimers<R>,
) -> Option<JobTask<'x, R>> {
    let (sender, receiver) = channel(pool.rt(), pool.alloc(), 1000, 1).ok()?;
    let sum = spawn(pool, Work::Add(receiver, 0))?;
    for number in 0..1000u64 {
        let sleep = timers.sleep(Duration::from_millis(number % 51)).ok()?;
        spawn(pool, Work::Send(sleep, sender.try_clone()?, number))?.detach();
    }
    Some(sum)
}

fn be_worker<R: Wait + Clock + Drop + Copy>(pool: &JobPool<R>) -> bool {
    run(pool, 1).is_ok()
}

fn serve<R: Wait + Clock + Threads + Drop + Copy + Send + Sync>(
    pool: &JobPool<R>,
    timers: &JobTimers<R>,
) {
    thread::join(&pool.rt(), || timers.run().is_ok(), || be_worker(pool));
}

fn sum_from<'x, R: Wait + Clock + Drop + Copy>(
    turns: &mut JobTurns<'x, R>,
    task: &mut JobTask<'x, R>,
) -> Option<u64> {
    block_on(turns, task).ok()
}

// Awaits the task that adds up, as worker 0, while other threads run.
fn wait<'x, R: Wait + Clock + Threads + Drop + Copy + Send + Sync>(
    pool: &'x JobPool<R>,
    timers: &JobTimers<R>,
    turns: &mut JobTurns<'x, R>,
    task: &mut JobTask<'x, R>,
) -> Option<u64> {
    let (_, sum) = thread::join(
        &pool.rt(),
        || serve(pool, timers),
        || {
            let sum = sum_from(turns, task);
            pool.shutdown();
            timers.close();
            sum
        },
    );
    sum
}

fn sum_of_all<R: Wait + Clock + Threads + Drop + Copy + Send + Sync>(
    pool: &JobPool<R>,
    timers: &JobTimers<R>,
) -> Option<u64> {
    let mut task = spawn_all(pool, timers)?;
    let mut turns = pool.turns(0).ok()?;
    wait(pool, timers, &mut turns, &mut task)
}

fn sum_in<R: Wait + Clock + Threads + Drop + Copy + Send + Sync>(
    rt: R,
    alloc: Global,
) -> Option<u64> {
    let timers = Timers::new(rt, alloc).ok()?;
    let pool = JobPool::new(rt, alloc, 2).ok()?;
    sum_of_all(&pool, &timers)
}

fn main(rt: HostRuntime) -> io::Result<()> {
    println!(rt; "{:?}", sum_in(rt, rt.alloc()))
}
