//! A storm with delays at random: two threads push and interrupt in rounds, and three workers find, sleep and are woken.
//! A round is over once all items are taken, so a wake that is lost in any round stops the storm.

use crate::dice::Dice;
use std::alloc::Global;
use std::process::Abort;
use std::sync::Wait;
use std::sync::atomic::{AtomicBool, AtomicU64, Ordering};
use std::thread::{self, Threads};
use std::time::{Clock, Duration};
use work_queues::{Crew, NoLimit, Worker};

/// How many workers there are.
const WORKERS: usize = 3;

/// How many rounds each of two threads has.
const ROUNDS: u64 = 400;

/// How many items each queue has room for.
const ROOM: usize = 2;

/// How often a thread looks whether all items are taken, before it takes one for lost. It sleeps between two looks, for some ten seconds in all.
const LOOKS: u64 = 100_000;

/// What was pushed and taken: how many items, and their sum.
#[derive(Drop)]
struct Storm {
    crew: Crew<u64>,
    pushed: [AtomicU64; 2],
    taken: [AtomicU64; 2],
    over: AtomicBool,
}

fn add(counts: &[AtomicU64; 2], item: u64) {
    counts[1].fetch_add(item, Ordering::SeqCst);
    counts[0].fetch_add(1, Ordering::SeqCst);
}

fn count(counts: &[AtomicU64; 2]) -> u64 {
    counts[0].load(Ordering::SeqCst)
}

fn sum(counts: &[AtomicU64; 2]) -> u64 {
    counts[1].load(Ordering::SeqCst)
}

impl Storm {
    // Pushes an item at a queue that is drawn, and may interrupt workers after it. False where it was refused.
    fn push<R: Wait>(&self, rt: &R, dice: &mut Dice) -> bool {
        let item = dice.draw(1000);
        let queue = dice.draw(WORKERS as u64 + 1) as usize;
        add(&self.pushed, item);
        let is_pushed = self.crew.push(rt, queue, item).is_ok();
        match dice.draw(16) {
            0 => drop(self.crew.bells().interrupt()),
            1 => drop(self.crew.bells().interrupt_worker(queue)),
            _ => (),
        }
        is_pushed
    }

    // Whether all items are taken in the end.
    fn is_taken<R: Clock>(&self, rt: &R) -> bool {
        for _ in 0..LOOKS {
            if count(&self.taken) == count(&self.pushed) {
                return true;
            }
            thread::sleep(rt, Duration::from_micros(50));
        }
        false
    }

    // Some items, until all are taken. False where one is not.
    fn round<R: Wait + Clock>(&self, rt: &R, dice: &mut Dice) -> bool {
        for _ in 0..=dice.draw(4) {
            if !self.push(rt, dice) {
                return false;
            }
            dice.delay(rt);
        }
        self.is_taken(rt)
    }

    // All rounds. False where an item was lost.
    fn push_all<R: Wait + Clock>(&self, rt: &R, seed: u64) -> bool {
        let mut dice = Dice {
            state: seed,
            delays: true,
        };
        for _ in 0..ROUNDS {
            if !self.round(rt, &mut dice) {
                return false;
            }
        }
        true
    }

    // Takes items until the storm is over.
    fn find_all<R: Wait + Clock>(&self, rt: &R, worker: &mut Worker<u64>, seed: u64) {
        let mut dice = Dice {
            state: seed,
            delays: true,
        };
        for _ in rt.forever() {
            let interruptions = self.crew.bells().interruptions();
            if self.over.load(Ordering::SeqCst) {
                return;
            }
            match self.crew.find(rt, worker) {
                Some(item) => add(&self.taken, item),
                None => drop(self.crew.rest(rt, worker, interruptions, &NoLimit)),
            }
            dice.delay(rt);
        }
    }

    // Is a worker until the storm is over. False where there is none.
    fn work<R: Wait + Clock>(&self, rt: &R, alloc: Global, number: usize) -> bool {
        let Ok(mut worker) = self.crew.worker(alloc, number) else {
            return false;
        };
        self.find_all(rt, &mut worker, number as u64);
        self.crew.end_turns(rt, worker).is_empty()
    }

    // The rounds of both threads, and the end of the workers.
    fn rage<R: Wait + Clock + Threads + Sync>(&self, rt: &R) -> bool {
        let (one, other) = thread::join(rt, || self.push_all(rt, 11), || self.push_all(rt, 12));
        self.over.store(true, Ordering::SeqCst);
        self.crew.bells().interrupt_all();
        one && other
    }
}

fn new_storm<R: Abort>(rt: &R, alloc: Global) -> Storm {
    Storm {
        crew: Crew::new(alloc, alloc, WORKERS, ROOM).expect(rt, "refused"),
        pushed: [AtomicU64::new(0), AtomicU64::new(0)],
        taken: [AtomicU64::new(0), AtomicU64::new(0)],
        over: AtomicBool::new(false),
    }
}

#[test]
fn a_storm_loses_no_item_and_no_wake(rt: HostRuntime) {
    let storm = new_storm(&rt, rt.alloc());
    let (worked, ended) = thread::join(
        &rt,
        || thread::map_indices(
            &rt,
            rt.alloc(),
            WORKERS,
            &|number| storm.work(&rt, rt.alloc(), number),
        ),
        || storm.rage(&rt),
    );
    let worked = worked.expect(&rt, "refused").iter().all(|worked| *worked);
    let is_same = count(&storm.taken) == count(&storm.pushed)
        && sum(&storm.taken) == sum(&storm.pushed);
    assert!(rt; worked && ended && is_same);
}
