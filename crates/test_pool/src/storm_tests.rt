//! Storms of wakes: none is lost, also where threads delay at random within polls, between wakes, and between the turns of workers, which come and go; and a shutdown in the middle leaves nothing.
//! A storm is over once all tickets are taken, and the workers may sleep then, so a wake that is lost stops it.
ghost use Rattle.std.specs.Prelude.{⊤};

use crate::dice::Dice;
use async_task::{Future, Poll, TaskPoll, Yields};
use executor::{
    Key, Place, Pool, PoolTask, PoolWaker, Turns, collect, keep_waker, place_for_waker, wake_kept,
};
use executor_parts::Nobody;
use std::alloc::Global;
use std::collections::VecDeque;
use std::process::Abort;
use std::sync::atomic::{AtomicU64, Ordering};
use std::sync::{Arc, Wait};
use std::thread::{self, Threads};
use std::time::{Clock, Duration};

/// How often a thread looks whether all tickets are taken, before it takes a wake for lost. It sleeps between two looks, for some ten seconds in all.
const LOOKS: u64 = 100_000;

/// How often a pool with delays is shut down.
const SHUTDOWNS: u64 = 200;

/// Who gives tickets to the tasks.
#[derive(Clone, Copy)]
enum Giver {
    /// Two threads, each in so many rounds, give so many, and wait until all are taken.
    Two(u64, u64),
    /// One thread gives one to each of so many tasks, and waits until all are taken.
    One(u64),
    /// One thread gives so many, shuts the pool down, and gives as many again.
    Ending(u64),
}

/// What a storm is made of.
#[derive(Clone, Copy)]
struct Plan {
    workers: usize,
    tasks: u64,
    // How many tickets are passed on, each by the task that takes it to the next one.
    passes: u64,
    giver: Giver,
    // Whether threads delay, and workers come and go.
    delays: bool,
    seed: u64,
}

/// What the tasks of a pool share: the tickets of each, where the waker of each is kept, and how many tickets were given and taken.
#[derive(Drop)]
struct Ring {
    plan: Plan,
    tickets: Vec<AtomicU64>,
    places: Vec<usize>,
    given: AtomicU64,
    taken: AtomicU64,
}

impl Ring {
    // Gives a task a ticket, and wakes it by the waker that is kept of it.
    fn give<R: Wait + Clock + Drop + Copy>(&self, place: Place<'_, R, Link<R>, Nobody>, task: u64) {
        self.given.fetch_add(1, Ordering::SeqCst);
        let task = task.checked_rem(self.plan.tasks).unwrap_or(0) as usize;
        if let Some(tickets) = self.tickets.get(task) {
            tickets.fetch_add(1, Ordering::SeqCst);
        }
        if let Some(kept) = self.places.get(task) {
            wake_kept(place, *kept);
        }
    }

    // How many tickets this task had.
    fn take(&self, task: u64) -> u64 {
        match self.tickets.get(task as usize) {
            Some(tickets) => tickets.swap(0, Ordering::SeqCst),
            None => 0,
        }
    }

    // Whether all tickets are taken in the end.
    fn is_taken<R: Clock>(&self, rt: &R) -> bool {
        for _ in 0..LOOKS {
            let taken = self.taken.load(Ordering::SeqCst);
            if taken > self.plan.passes && taken == self.given.load(Ordering::SeqCst) {
                return true;
            }
            thread::sleep(rt, Duration::from_micros(50));
        }
        false
    }
}

/// A future that never ends. Each poll takes the tickets of its task, and may pass as many on to the next task. Its waker is kept, and a wake takes it out.
#[derive(Drop)]
struct Link<R: Wait + Drop + Copy> {
    task: u64,
    dice: Dice,
    key: Key<R>,
    ring: Arc<Ring>,
}

impl<R: Wait + Clock + Drop + Copy> Link<R> {
    fn pass_on(&mut self, place: Place<'_, R, Link<R>, Nobody>, tickets: u64) {
        for _ in 0..tickets {
            if self.ring.taken.fetch_add(1, Ordering::SeqCst) < self.ring.plan.passes {
                self.dice.delay(&place.0.rt());
                self.ring.give(place, self.task.wrapping_add(1));
            }
        }
    }
}

impl<R: Wait + Drop + Copy> Yields for Link<R> {
    type Output = u64;
}

impl<'x, R: Wait + Clock + Drop + Copy> Future<PoolWaker<'x, R, Link<R>, Nobody>> for Link<R> {
    ghost polled = { λ _ _ _ _. ⊤ };

    // A ticket that came before the waker was kept is taken by the second look.
    fn poll(&mut self, waker: &PoolWaker<'x, R, Link<R>, Nobody>) -> Poll<u64> {
        let place = waker.around();
        let rt = place.0.rt();
        self.dice.delay(&rt);
        let before = self.ring.take(self.task);
        if !keep_waker(waker, &self.key) {
            waker.wake_by_ref();
        }
        self.dice.delay(&rt);
        let after = self.ring.take(self.task);
        self.pass_on(place, before.saturating_add(after));
        Poll::Pending
    }
}

type RingPool<R> = Pool<R, Link<R>, Nobody>;

type RingTask<'x, R> = PoolTask<'x, R, Link<R>, Nobody>;

type RingTurns<'x, R> = Turns<'x, R, Link<R>, Nobody>;

// A place for the waker of each task.
fn new_keys<R: Wait + Abort + Drop + Copy>(pool: &RingPool<R>, plan: Plan) -> Vec<Key<R>> {
    let rt = pool.rt();
    let mut keys = Vec::new(pool.alloc());
    for task in 0..plan.tasks {
        let key = place_for_waker((pool, task as usize)).expect(&rt, "refused");
        keys.push(key).expect(&rt, "refused");
    }
    keys
}

// What tasks share whose wakers are kept at these places.
fn new_ring<R: Wait + Abort + Drop + Copy>(
    pool: &RingPool<R>,
    keys: &[Key<R>],
    plan: Plan,
) -> Arc<Ring> {
    let rt = pool.rt();
    let mut tickets = Vec::new(pool.alloc());
    let mut places = Vec::new(pool.alloc());
    for key in keys {
        tickets.push(AtomicU64::new(0)).expect(&rt, "refused");
        places.push(key.number()).expect(&rt, "refused");
    }
    let ring = Ring {
        plan,
        tickets,
        places,
        given: AtomicU64::new(0),
        taken: AtomicU64::new(0),
    };
    Arc::new(pool.alloc(), ring).expect(&rt, "refused")
}

// Spawns the tasks of a ring, from outside.
fn spawn_all<'x, R: Wait + Abort + Drop + Copy>(
    pool: &'x RingPool<R>,
    keys: Vec<Key<R>>,
    ring: &Arc<Ring>,
) -> Vec<RingTask<'x, R>> {
    let rt = pool.rt();
    let mut futures = VecDeque::new(pool.alloc());
    let mut task = 0u64;
    for key in keys {
        let dice = Dice {
            state: task,
            delays: ring.plan.delays,
        };
        let link = Link {
            task,
            dice,
            key,
            ring: Arc::try_clone(ring).expect(&rt, "refused"),
        };
        futures.push_back(link).expect(&rt, "refused");
        task = task.wrapping_add(1);
    }
    let mut tasks = Vec::new(pool.alloc());
    pool.spawn_many(pool.workers(), &mut futures, &mut tasks)
        .expect(&rt, "refused");
    tasks
}

// Is the worker of a number until the pool is shut down, as by `Pool::run`: whether there was such a worker.
fn work<R: Wait + Clock + Drop + Copy + 'static>(pool: &RingPool<R>, worker: usize) -> bool {
    pool.run(worker).is_ok()
}

// Some turns of a worker, until the pool is shut down.
fn take_some<R: Wait + Clock + Drop + Copy>(turns: &mut RingTurns<'_, R>, dice: &mut Dice) {
    let pool = turns.place().0;
    for _ in 0..dice.draw(20) {
        let interruptions = pool.bells().interruptions();
        if pool.is_shut_down() {
            return;
        }
        if let Some(runnable) = turns.take_turn(interruptions) {
            runnable.run();
        }
        dice.delay(&pool.rt());
    }
}

// Is a worker again and again, until the pool is shut down. False where it could not be one.
fn come_and_go<R: Wait + Clock + Drop + Copy>(pool: &RingPool<R>, worker: usize) -> bool {
    let rt = pool.rt();
    let mut dice = Dice {
        state: worker as u64,
        delays: true,
    };
    for _ in rt.forever() {
        if pool.is_shut_down() {
            return true;
        }
        let Ok(mut turns) = pool.turns(worker) else {
            return false;
        };
        take_some(&mut turns, &mut dice);
        drop(turns);
        dice.delay(&rt);
    }
    unreachable!()
}

// All workers of a pool, each on a thread: whether each could be one.
fn work_all<R: Wait + Clock + Abort + Threads + Drop + Copy + Send + Sync + 'static>(
    pool: &RingPool<R>,
    delays: bool,
) -> bool {
    let rt = pool.rt();
    let worked = thread::map_indices(
        &rt,
        pool.alloc(),
        pool.workers(),
        &|worker| if delays {
            come_and_go(pool, worker)
        } else {
            work(pool, worker)
        },
    );
    worked.expect(&rt, "refused").iter().all(|worked| *worked)
}

// Gives so many tickets, at queues and to tasks that are drawn.
fn give_some<R: Wait + Clock + Drop + Copy>(
    pool: &RingPool<R>,
    ring: &Ring,
    dice: &mut Dice,
    tickets: u64,
) {
    for _ in 0..tickets {
        let worker = dice.draw((ring.plan.workers as u64).saturating_add(1)) as usize;
        ring.give((pool, worker), dice.draw(ring.plan.tasks));
        dice.delay(&pool.rt());
    }
}

// All rounds of one thread. False where a wake was lost.
fn give_rounds<R: Wait + Clock + Drop + Copy>(
    pool: &RingPool<R>,
    ring: &Ring,
    seed: u64,
    rounds: u64,
    tickets: u64,
) -> bool {
    let mut dice = Dice {
        state: seed,
        delays: ring.plan.delays,
    };
    for _ in 0..rounds {
        give_some(pool, ring, &mut dice, tickets);
        if !ring.is_taken(&pool.rt()) {
            return false;
        }
    }
    true
}

// The rounds of two threads, after which the pool is shut down.
fn give_by_two<R: Wait + Clock + Threads + Drop + Copy + Send + Sync>(
    pool: &RingPool<R>,
    ring: &Ring,
    rounds: u64,
    tickets: u64,
) -> bool {
    let (one, other) = thread::join(
        &pool.rt(),
        || give_rounds(pool, ring, 11, rounds, tickets),
        || give_rounds(pool, ring, 12, rounds, tickets),
    );
    pool.shutdown();
    one && other
}

// Gives all tickets, and shuts the pool down. False where a wake was lost.
fn give_all<R: Wait + Clock + Threads + Drop + Copy + Send + Sync>(
    pool: &RingPool<R>,
    ring: &Ring,
) -> bool {
    let rt = pool.rt();
    match ring.plan.giver {
        Giver::Two(rounds, tickets) => give_by_two(pool, ring, rounds, tickets),
        Giver::One(tasks) => {
            for task in 0..tasks {
                ring.give((pool, ring.plan.workers), task);
            }
            let is_taken = ring.is_taken(&rt);
            pool.shutdown();
            is_taken
        }
        Giver::Ending(tickets) => {
            let mut dice = Dice {
                state: ring.plan.seed,
                delays: ring.plan.delays,
            };
            give_some(pool, ring, &mut dice, tickets);
            pool.shutdown();
            give_some(pool, ring, &mut dice, tickets);
            true
        }
    }
}

// Whether each task is closed, and nothing is left of them.
fn is_left_empty<R: Wait + Drop + Copy>(
    pool: &RingPool<R>,
    ring: &Arc<Ring>,
    mut tasks: Vec<RingTask<'_, R>>,
) -> bool {
    let mut closed = 0u64;
    for task in tasks.iter_mut() {
        if matches!(task.poll(&Nobody), TaskPoll::Ready(Err(_))) {
            closed = closed.wrapping_add(1);
        }
    }
    collect((pool, 0));
    closed == ring.plan.tasks
        && pool.queued() == 0
        && pool.kept_wakers() == 0
        && Arc::strong_count(ring) == 1
}

// A storm from its beginning to its end: whether each worker could be one, no wake was lost, and nothing is left.
fn rage<R: Wait + Clock + Abort + Threads + Drop + Copy + Send + Sync + 'static>(
    rt: R,
    alloc: Global,
    plan: Plan,
) -> [bool; 3] {
    let pool = RingPool::new(rt, alloc, plan.workers).expect(&rt, "refused");
    let keys = new_keys(&pool, plan);
    let ring = new_ring(&pool, &keys, plan);
    let tasks = spawn_all(&pool, keys, &ring);
    let (worked, taken) = thread::join(
        &rt,
        || work_all(&pool, plan.delays),
        || give_all(&pool, &ring),
    );
    let left = is_left_empty(&pool, &ring, tasks);
    [worked, taken, left]
}

// All wakes are 100,000.
#[test]
fn a_storm_loses_no_wake(rt: HostRuntime) {
    let plan = Plan {
        workers: 4,
        tasks: 100,
        passes: 0,
        giver: Giver::Two(1, 50_000),
        delays: false,
        seed: 0,
    };
    assert!(rt; rage(rt, rt.alloc(), plan) == [true; 3]);
}

#[test]
fn a_storm_with_delays_loses_no_wake(rt: HostRuntime) {
    let plan = Plan {
        workers: 3,
        tasks: 8,
        passes: 0,
        giver: Giver::Two(200, 3),
        delays: true,
        seed: 0,
    };
    assert!(rt; rage(rt, rt.alloc(), plan) == [true; 3]);
}

// One ticket goes round 2,000 times.
#[test]
fn a_chain_with_delays_loses_no_wake(rt: HostRuntime) {
    let plan = Plan {
        workers: 3,
        tasks: 8,
        passes: 2_000,
        giver: Giver::One(1),
        delays: true,
        seed: 0,
    };
    assert!(rt; rage(rt, rt.alloc(), plan) == [true; 3]);
}

// There are more workers than processors. A wake that is lost would leave a ticket lying, and it would not be passed on.
#[test]
fn sixty_four_workers_pass_all_tickets_on(rt: HostRuntime) {
    let plan = Plan {
        workers: 64,
        tasks: 10_000,
        passes: 40_000,
        giver: Giver::One(10_000),
        delays: false,
        seed: 0,
    };
    assert!(rt; rage(rt, rt.alloc(), plan) == [true; 3]);
}

// Tickets are passed on without an end, and more are given before the shutdown and after it, as the workers end. So each task is cancelled by a worker, or by a thread that wakes it.
#[test]
fn a_shutdown_in_a_storm_leaves_nothing(rt: HostRuntime) {
    let plan = Plan {
        workers: 4,
        tasks: 100,
        passes: u64::MAX,
        giver: Giver::Ending(20_000),
        delays: false,
        seed: 0,
    };
    assert!(rt; rage(rt, rt.alloc(), plan) == [true; 3]);
}

#[test]
fn a_shutdown_with_delays_leaves_nothing(rt: HostRuntime) {
    for seed in 0..SHUTDOWNS {
        let plan = Plan {
            workers: 3,
            tasks: 8,
            passes: u64::MAX,
            giver: Giver::Ending(8),
            delays: true,
            seed,
        };
        assert!(rt; rage(rt, rt.alloc(), plan) == [true; 3]);
    }
}
