//! A graceful end: no more tasks are accepted, a worker runs those that are there until all are gone or the time is over, and what is left is cancelled.
ghost use Rattle.std.specs.Prelude.{⊤};

use async_task::{Future, Poll, Wake, Yields};
use executor::{BellAwaiter, Pool, PoolTask, Turns};
use executor_parts::left_until;
use future_parts::{Receiver, TaskTracker, Tracked, task_tracker};
use std::alloc::Global;
use std::sync::Wait;
use std::time::{Clock, Duration, Instant};

/// Gives way so many times; with `None` it waits for ever.
#[derive(Drop)]
struct Request {
    rounds: Option<u64>,
}

impl Yields for Request {
    type Output = ();
}

impl<W: Wake> Future<W> for Request {
    ghost polled = { λ _ _ _ _. ⊤ };

    fn poll(&mut self, waker: &W) -> Poll<()> {
        match self.rounds {
            None => Poll::Pending,
            Some(0) => Poll::Ready(()),
            Some(left) => {
                self.rounds = Some(left - 1);
                waker.wake_by_ref();
                Poll::Pending
            }
        }
    }
}

type Served<R> = Tracked<R, Request, BellAwaiter<R>>;

type Server<R> = Pool<R, Served<R>, BellAwaiter<R>>;

type ServedTask<'x, R> = PoolTask<'x, R, Served<R>, BellAwaiter<R>>;

type Gone<R> = Receiver<R, (), BellAwaiter<R>>;

fn accept<'x, R: Wait + Drop + Copy>(
    pool: &'x Server<R>,
    tracker: &TaskTracker<R, BellAwaiter<R>>,
    rounds: Option<u64>,
) -> Option<ServedTask<'x, R>> {
    pool.spawn(tracker.track(Request { rounds }).ok()?).ok()
}

// Runs tasks until all that were tracked are gone, or the time is over. `None` where there is no awaiter.
fn run_until_gone<'x, R: Wait + Clock + Drop + Copy>(
    pool: &'x Server<R>,
    turns: &mut Turns<'x, R, Served<R>, BellAwaiter<R>>,
    gone: &mut Gone<R>,
    deadline: Instant,
) -> Option<()> {
    let awaiter = BellAwaiter::new(pool, 0)?;
    for _ in pool.rt().forever() {
        // Asked for before the look, so that an end which comes after it is not slept through.
        let interruptions = pool.bells().interruptions();
        if gone.poll_receive(&awaiter) != Poll::Pending {
            return Some(());
        }
        match turns.take_turn_until(interruptions, deadline) {
            Some(runnable) => {
                runnable.run();
            }
            None if left_until(&pool.rt(), deadline).is_zero() => return Some(()),
            None => {}
        }
    }
    unreachable!()
}

/// How many of three requests are left at the end, of which one waits for ever, and how many once they are cancelled. `None` where memory or the clock was refused.
pub fn left_and_cancelled<R: Wait + Clock + Drop + Copy>(
    rt: R,
    alloc: Global,
) -> Option<(usize, usize)> {
    let pool = Server::new(rt, alloc, 1).ok()?;
    let (tracker, mut gone) = task_tracker(rt, alloc).ok()?;
    accept(&pool, &tracker, Some(3))?.detach();
    accept(&pool, &tracker, Some(5))?.detach();
    let waiting = accept(&pool, &tracker, None)?;
    drop(tracker);
    let deadline = Instant::now(&rt)
        .ok()?
        .checked_add(Duration::from_millis(20))?;
    let mut turns = pool.turns(0).ok()?;
    run_until_gone(&pool, &mut turns, &mut gone, deadline)?;
    let left = gone.sender_count();
    pool.shutdown();
    drop(waiting);
    Some((left, gone.sender_count()))
}
