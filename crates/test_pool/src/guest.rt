//! A future of the tests, which does one of several things, and what such futures count together.
ghost use Rattle.std.specs.Prelude.{⊤};

use async_task::{Future, Poll, TaskPoll, Wake, Yields};
use executor::{Pool, PoolTask, PoolWaker, Turns};
use executor_parts::Nobody;
use std::alloc::{AllocError, Global};
use std::sync::atomic::{AtomicBool, AtomicU64, Ordering};
use std::sync::{Arc, Wait};
use std::thread::yield_now;

/// What the guests of a pool count together.
#[derive(Drop)]
pub struct Guests {
    /// How many polls there were.
    pub polls: AtomicU64,
    /// How many guests that give way have ended.
    pub ended: AtomicU64,
    /// Set where as many have ended as were wanted.
    pub all_ended: AtomicBool,
    wanted: u64,
}

impl Guests {
    /// Guests of which so many are to end.
    pub fn new(alloc: Global, wanted: u64) -> Result<Arc<Guests>, AllocError> {
        let guests = Guests {
            polls: AtomicU64::new(0),
            ended: AtomicU64::new(0),
            all_ended: AtomicBool::new(false),
            wanted,
        };
        Ok(Arc::new(alloc, guests)?)
    }

    // Keeps its thread until as many have ended as were wanted.
    fn spin<R: Wait>(&self, rt: &R) -> u64 {
        for _ in rt.forever() {
            if self.all_ended.load(Ordering::SeqCst) {
                return self.ended.load(Ordering::SeqCst);
            }
            yield_now();
        }
        unreachable!()
    }
}

/// What a guest does when it is polled.
#[derive(Clone, Copy, PartialEq, Eq)]
pub enum Errand {
    /// Gives way so often, and then answers 1.
    GiveWay(u64),
    /// Does not return before all guests that give way have ended, then ends the pool, and answers how many they are.
    SpinAndEnd,
    /// Ends the pool, wakes itself, and is pending.
    ShutDown,
    /// Is pending, and keeps no waker.
    Stay,
}

/// A future of the tests.
#[derive(Drop)]
pub struct Guest {
    /// What it does.
    pub errand: Errand,
    /// What it counts with others.
    pub guests: Arc<Guests>,
}

impl Guest {
    /// A guest with a share of what is counted.
    pub fn new(errand: Errand, guests: &Arc<Guests>) -> Result<Guest, AllocError> {
        let guests = Arc::try_clone(guests)?;
        Ok(Guest { errand, guests })
    }
}

impl Yields for Guest {
    type Output = u64;
}

impl<'x, R: Wait + Drop + Copy, A: Wake> Future<PoolWaker<'x, R, Guest, A>> for Guest {
    ghost polled = { λ _ _ _ _. ⊤ };

    fn poll(&mut self, waker: &PoolWaker<'x, R, Guest, A>) -> Poll<u64> {
        self.guests.polls.fetch_add(1, Ordering::SeqCst);
        let (pool, _) = waker.around();
        match self.errand {
            Errand::GiveWay(0) => {
                let before = self.guests.ended.fetch_add(1, Ordering::SeqCst);
                if before.wrapping_add(1) == self.guests.wanted {
                    self.guests.all_ended.store(true, Ordering::SeqCst);
                }
                Poll::Ready(1)
            }
            Errand::GiveWay(left) => {
                self.errand = Errand::GiveWay(left.saturating_sub(1));
                waker.wake_by_ref();
                Poll::Pending
            }
            Errand::SpinAndEnd => {
                let ended = self.guests.spin(&pool.rt());
                pool.shutdown();
                Poll::Ready(ended)
            }
            Errand::ShutDown => {
                pool.shutdown();
                waker.wake_by_ref();
                Poll::Pending
            }
            Errand::Stay => Poll::Pending,
        }
    }
}

/// A pool of guests whose Tasks are polled by hand.
pub type GuestPool<R> = Pool<R, Guest, Nobody>;

/// The Task of such a guest.
pub type GuestTask<'x, R> = PoolTask<'x, R, Guest, Nobody>;

/// The turns of a worker of such a pool.
pub type GuestTurns<'x, R> = Turns<'x, R, Guest, Nobody>;

/// The output of a guest that has answered.
pub fn output_of<'x, R: Wait + Drop + Copy>(task: &mut GuestTask<'x, R>) -> Option<u64> {
    match task.poll(&Nobody) {
        TaskPoll::Ready(Ok(output)) => Some(output),
        _ => None,
    }
}

/// Whether the task of a guest is closed.
pub fn is_closed<'x, R: Wait + Drop + Copy>(task: &mut GuestTask<'x, R>) -> bool {
    matches!(task.poll(&Nobody), TaskPoll::Ready(Err(_)))
}

/// How many shares there are of what guests count, and how many polls were counted.
pub fn shares_and_polls(guests: &Arc<Guests>) -> (usize, u64) {
    (
        Arc::strong_count(guests),
        guests.polls.load(Ordering::SeqCst),
    )
}
