//! The futures that are run on the pool.
ghost use Rattle.std.specs.Prelude.{⊤};

use crate::pool::tally::Tally;
use async_task::{Future, Poll, Yields};
use executor::{Key, Place, PoolWaker, keep_new_waker, wake_kept};
use executor_parts::Awaiter;
use std::alloc::{AllocError, Global};
use std::sync::atomic::{AtomicU64, Ordering};
use std::sync::{Arc, Wait};

// The waker by which these futures are polled.
type JobWaker<'x, R> = PoolWaker<'x, R, Job<R>, Awaiter<R>>;

// What a place of a row holds before its task waits, and once its wake came. Otherwise it is two more than the number of the waker.
const ABSENT: u64 = 0;

const WOKEN: u64 = 1;

/// A row of tasks: where the waker of each is kept.
#[derive(Drop)]
pub struct Row {
    numbers: Vec<AtomicU64>,
    tally: Arc<Tally>,
    passes_on: bool,
}

impl Row {
    /// A row of as many tasks as are counted, none of which waits yet. Where it passes on, a task that was woken wakes the next.
    pub fn new(alloc: Global, tally: &Arc<Tally>, passes_on: bool) -> Result<Arc<Row>, AllocError> {
        let mut numbers = Vec::new(alloc);
        for _ in 0..tally.wanted() {
            numbers.push(AtomicU64::new(ABSENT))?;
        }
        let row = Row {
            numbers,
            tally: Arc::try_clone(tally)?,
            passes_on,
        };
        Ok(Arc::new(alloc, row)?)
    }

    /// How many tasks it has.
    pub fn len(&self) -> usize {
        self.numbers.len()
    }

    /// Whether a task that was woken wakes the next.
    pub fn passes_on(&self) -> bool {
        self.passes_on
    }

    // Says that the waker of a task is kept under this number. False where its wake came before.
    fn waits(&self, at: usize, number: usize) -> bool {
        let Some(place) = self.numbers.get(at) else {
            return false;
        };
        let told = (number as u64).wrapping_add(2);
        place
            .compare_exchange(ABSENT, told, Ordering::SeqCst, Ordering::SeqCst)
            .is_ok()
    }

    /// Wakes a task of the row, or has it go on where it does not wait yet.
    pub fn wake<'x, R: Wait + Drop + Copy>(
        &self,
        place: Place<'x, R, Job<R>, Awaiter<R>>,
        at: usize,
    ) {
        let Some(number) = self.numbers.get(at) else {
            return;
        };
        let before = number.swap(WOKEN, Ordering::SeqCst);
        if before > WOKEN {
            wake_kept(place, (before - 2) as usize);
        }
    }
}

// The place of a task in a row.
#[derive(Drop)]
struct Link<R: Wait + Drop + Copy> {
    at: usize,
    row: Arc<Row>,
    // Where its waker is kept.
    key: Option<Key<R>>,
}

/// A future that first gives way `left` times, or waits for the wake of its place in a row. Then it is counted, and the last ends the pool.
#[derive(Drop)]
pub struct Job<R: Wait + Drop + Copy> {
    /// How often it still gives way.
    pub left: u64,
    /// Where it is counted.
    pub tally: Arc<Tally>,
    link: Option<Box<Link<R>>>,
}

impl<R: Wait + Drop + Copy> Job<R> {
    /// A future that gives way so often. An error says that its count has as many owners as can be.
    pub fn new(tally: &Arc<Tally>, left: u64) -> Result<Job<R>, AllocError> {
        let tally = Arc::try_clone(tally)?;
        Ok(Job {
            left,
            tally,
            link: None,
        })
    }

    /// The future of this place of a row. An error says that there was no memory.
    pub fn in_row(alloc: Global, row: &Arc<Row>, at: usize) -> Result<Job<R>, AllocError> {
        let link = Link {
            at,
            row: Arc::try_clone(row)?,
            key: None,
        };
        Ok(Job {
            left: 0,
            tally: Arc::try_clone(&row.tally)?,
            link: Some(Box::new(alloc, link)?),
        })
    }
}

impl<R: Wait + Drop + Copy> Link<R> {
    // Keeps the waker, and answers whether the task waits now. Where there is no memory the pool is ended, and the task waits for nothing.
    fn parks<'x>(&mut self, waker: &JobWaker<'x, R>) -> bool {
        let Some(key) = keep_new_waker(waker) else {
            waker.around().0.shutdown();
            return true;
        };
        let waits = self.row.waits(self.at, key.number());
        self.key = Some(key);
        waits
    }

    // Whether the task has to wait. Once it was woken, it wakes the next where its row passes on.
    fn waits<'x>(&mut self, waker: &JobWaker<'x, R>) -> bool {
        if self.key.is_none() && self.parks(waker) {
            return true;
        }
        if self.row.passes_on {
            self.row.wake(waker.around(), self.at.wrapping_add(1));
        }
        false
    }
}

impl<R: Wait + Drop + Copy> Yields for Job<R> {
    type Output = ();
}

impl<'x, R: Wait + Drop + Copy> Future<JobWaker<'x, R>> for Job<R> {
    ghost polled = { λ _ _ _ _. ⊤ };

    fn poll(&mut self, waker: &JobWaker<'x, R>) -> Poll<()> {
        if self.left > 0 {
            self.left -= 1;
            waker.wake_by_ref();
            return Poll::Pending;
        }
        if let Some(link) = &mut self.link {
            if link.waits(waker) {
                return Poll::Pending;
            }
        }
        if self.tally.count() {
            waker.around().0.shutdown();
        }
        Poll::Ready(())
    }
}
