//! Futures of two types in one pool, in boxes. The trait of the boxes names no waker and no runtime: a step is lent a ticket, which is plain data, and
//! what rings wakes by number. The prover takes no pool that is written out with a box, so all that has one here is generic in what takes the steps.
ghost use Rattle.std.specs.Prelude.{⊤};

use async_task::{Future, Poll, TaskPoll, Yields};
use executor::{Key, Pool, PoolTask, PoolWaker, keep_waker, place_for_waker, wake_kept};
use executor_parts::Nobody;
use std::alloc::Global;
use std::process::Abort;
use std::sync::atomic::{AtomicU32, AtomicU64, Ordering};
use std::sync::{Arc, Wait};
use std::thread::{self, Threads};

/// How many numbers can be rung for.
const NUMBERS: u32 = 64;

/// What the tasks of a pool count together.
#[derive(Drop)]
struct Shared {
    // What was rung for and is not delivered yet, a bit for each number.
    rung: AtomicU64,
    // How many tasks have not ended.
    unfinished: AtomicU64,
}

/// What a step is lent: the number of its task, and where it rings.
#[derive(Drop)]
struct Ticket {
    number: u32,
    shared: Arc<Shared>,
}

impl Ticket {
    /// Asks for the next step of the task of this number.
    fn ring(&self, number: u32) {
        let bit = 1u64.checked_shl(number).unwrap_or(0);
        self.shared.rung.fetch_or(bit, Ordering::SeqCst);
    }
}

/// A future that is lent a ticket in place of a waker.
trait Step: Drop {
    /// Carries the computation on. After `Poll::Pending` there is a further step once its number is rung.
    fn step(&mut self, ticket: &Ticket) -> Poll<u64>;
}

impl Step for Box<dyn Step + Send> {
    fn step(&mut self, ticket: &Ticket) -> Poll<u64> {
        (**self).step(ticket)
    }
}

/// Where one step waits for the number of another. Each has one more than what it tells of, and 0 where there is none.
#[derive(Drop)]
struct Meeting {
    brought: AtomicU64,
    waits: AtomicU32,
}

/// Doubles the number that is brought.
#[derive(Drop)]
struct Doubles(Arc<Meeting>);

impl Step for Doubles {
    // It waits before it looks, so that who brings the number sees it wait, or it sees the number.
    fn step(&mut self, ticket: &Ticket) -> Poll<u64> {
        let waits = ticket.number.saturating_add(1);
        self.0.waits.store(waits, Ordering::SeqCst);
        match self.0.brought.load(Ordering::SeqCst) {
            0 => Poll::Pending,
            brought => Poll::Ready(brought.wrapping_sub(1).wrapping_mul(2)),
        }
    }
}

/// Gives way once, then brings a number and rings for the step that waits for it.
#[derive(Drop)]
struct Brings {
    number: u64,
    gave_way: bool,
    meeting: Arc<Meeting>,
}

impl Step for Brings {
    fn step(&mut self, ticket: &Ticket) -> Poll<u64> {
        if !self.gave_way {
            self.gave_way = true;
            ticket.ring(ticket.number);
            return Poll::Pending;
        }
        let brought = self.number.wrapping_add(1);
        self.meeting.brought.store(brought, Ordering::SeqCst);
        let waits = self.meeting.waits.swap(0, Ordering::SeqCst);
        if waits > 0 {
            ticket.ring(waits.wrapping_sub(1));
        }
        Poll::Ready(self.number)
    }
}

/// The future of a task: what takes the steps, and the place of the waker.
#[derive(Drop)]
struct Ticketed<R: Wait + Drop + Copy, T: Step> {
    inner: T,
    shared: Arc<Shared>,
    own: Option<Key<R>>,
}

impl<R: Wait + Drop + Copy, T: Step> Yields for Ticketed<R, T> {
    type Output = u64;
}

type StepPool<R, T> = Pool<R, Ticketed<R, T>, Nobody>;

type StepTask<'x, R, T> = PoolTask<'x, R, Ticketed<R, T>, Nobody>;

type StepWaker<'x, R, T> = PoolWaker<'x, R, Ticketed<R, T>, Nobody>;

// Wakes the tasks that were rung for.
fn deliver<'x, R: Wait + Drop + Copy, T: Step>(waker: &StepWaker<'x, R, T>, rung: &AtomicU64) {
    let rung = rung.swap(0, Ordering::SeqCst);
    for number in 0..NUMBERS {
        if rung.checked_shr(number).unwrap_or(0) & 1 == 1 {
            wake_kept(waker.around(), number as usize);
        }
    }
}

impl<R: Wait + Drop + Copy, T: Step> Ticketed<R, T> {
    // Keeps the waker, and answers the ticket of its number. `None` where that was refused.
    fn keep<'x>(&mut self, waker: &StepWaker<'x, R, T>) -> Option<Ticket> {
        if self.own.is_none() {
            self.own = place_for_waker(waker.around());
        }
        let own = self.own.as_ref()?;
        if !keep_waker(waker, own) {
            return None;
        }
        let number = u32::try_from(own.number()).ok()?;
        if number >= NUMBERS {
            return None;
        }
        let shared = Arc::try_clone(&self.shared).ok()?;
        Some(Ticket { number, shared })
    }

    // The waker is kept before the step, so that what the step leaves behind may be rung for at once.
    fn take_step<'x>(&mut self, waker: &StepWaker<'x, R, T>) -> Poll<u64> {
        let Some(ticket) = self.keep(waker) else {
            return Poll::Ready(0);
        };
        let answer = self.inner.step(&ticket);
        deliver(waker, &ticket.shared.rung);
        answer
    }
}

impl<'x, R: Wait + Drop + Copy, T: Step> Future<StepWaker<'x, R, T>> for Ticketed<R, T> {
    ghost polled = { λ _ _ _ _. ⊤ };

    fn poll(&mut self, waker: &StepWaker<'x, R, T>) -> Poll<u64> {
        let answer = self.take_step(waker);
        if answer != Poll::Pending && self.shared.unfinished.fetch_sub(1, Ordering::SeqCst) == 1 {
            waker.around().0.shutdown();
        }
        answer
    }
}

fn spawned<'x, R: Wait + Abort + Drop + Copy, T: Step>(
    pool: &'x StepPool<R, T>,
    inner: T,
    shared: &Arc<Shared>,
) -> StepTask<'x, R, T> {
    let future = Ticketed {
        inner,
        shared: Arc::try_clone(shared).expect(&pool.rt(), "refused"),
        own: None,
    };
    pool.spawn(future).expect(&pool.rt(), "refused")
}

// The output of a Task, which is dropped.
fn output_of<R: Wait + Drop + Copy, T: Step>(mut task: StepTask<'_, R, T>) -> Option<u64> {
    match task.poll(&Nobody) {
        TaskPoll::Ready(answer) => answer.ok(),
        _ => None,
    }
}

// Is the worker of a number until the last task has ended.
fn work<R: Wait + Abort + Drop + Copy, T: Step>(pool: &StepPool<R, T>, worker: usize) {
    let mut turns = pool.turns(worker).expect(&pool.rt(), "refused");
    for _ in pool.rt().forever() {
        let Some(runnable) = turns.await_next() else {
            break;
        };
        runnable.run();
    }
}

// What two tasks of these steps answer, on two workers.
fn answers_of<R: Wait + Abort + Threads + Drop + Copy + Send + Sync, T: Step + Send>(
    rt: R,
    alloc: Global,
    steps: [T; 2],
) -> (Option<u64>, Option<u64>) {
    let pool = StepPool::new(rt, alloc, 2).expect(&rt, "refused");
    let shared = Shared {
        rung: AtomicU64::new(0),
        unfinished: AtomicU64::new(2),
    };
    let shared = Arc::new(alloc, shared).expect(&rt, "refused");
    let [first, second] = steps;
    let first = spawned(&pool, first, &shared);
    let second = spawned(&pool, second, &shared);
    thread::join(&rt, || work(&pool, 0), || work(&pool, 1));
    (output_of(first), output_of(second))
}

// A step in a box of its own. Stops where there is no memory.
fn boxed<R: Abort, T: Drop>(rt: &R, alloc: Global, step: T) -> Box<T> {
    Box::new(alloc, step).expect(rt, "refused")
}

// The answers of a step that doubles and of one that brings 21, in boxes.
fn boxed_answers<R: Wait + Abort + Threads + Drop + Copy + Send + Sync>(
    rt: R,
    alloc: Global,
) -> (Option<u64>, Option<u64>) {
    let meeting = Meeting {
        brought: AtomicU64::new(0),
        waits: AtomicU32::new(0),
    };
    let meeting = Arc::new(alloc, meeting).expect(&rt, "refused");
    let doubles = Doubles(Arc::try_clone(&meeting).expect(&rt, "refused"));
    let brings = Brings {
        number: 21,
        gave_way: false,
        meeting,
    };
    let doubles: Box<dyn Step + Send> = boxed(&rt, alloc, doubles);
    let brings: Box<dyn Step + Send> = boxed(&rt, alloc, brings);
    answers_of(rt, alloc, [doubles, brings])
}

#[test]
fn two_workers_run_boxed_futures(rt: HostRuntime) {
    let answers = boxed_answers(rt, rt.alloc());
    assert!(rt; answers == (Some(42), Some(21)));
}
