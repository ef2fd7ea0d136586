//! The rounds of a race: how its threads begin each together, and what is counted over all of them.

use rows_fixtures::counters::Counter;
use std::hint::spin_loop;
use std::process::Abort;
use std::sync::Wait;
use std::sync::atomic::{AtomicBool, AtomicU64, Ordering};

/// How many rounds of a race must meet what the race is for. More than there are rounds makes each race fail, and tell how often it met it.
pub const LEAST_MET: u64 = 1;

// How often a thread looks whether the others have come. After that it sleeps, or, where it is about to act, it acts.
const LOOKS: u32 = 1_000;

// Before it acts, a thread waits fewer turns than these, in each round another number, so that the acts of the threads meet at different points.
const DELAYS: u64 = 64;

// How often a thread comes to a meeting with the others in one round.
const MEETINGS: u64 = 3;

/// Where the threads of a race meet: before each round, right before they act, and after it. Rounds are counted from 0.
#[derive(Drop)]
pub struct Rounds {
    threads: u64,
    come: AtomicU64,
    over: AtomicBool,
}

impl Rounds {
    /// The rounds of a race of so many threads.
    pub fn new(threads: u64) -> Rounds {
        Rounds {
            threads,
            come: AtomicU64::new(0),
            over: AtomicBool::new(false),
        }
    }

    /// Ends the race in place of opening this round, in the one thread that decides it.
    pub fn end<R: Wait>(&self, rt: &R, round: u64) {
        self.over.store(true, Ordering::SeqCst);
        self.open(rt, round);
    }

    /// Whether the race was ended. Another thread asks right after it has opened a round.
    pub fn is_over(&self) -> bool {
        self.over.load(Ordering::SeqCst)
    }

    /// Opens a round, in each thread: all have come.
    pub fn open<R: Wait>(&self, rt: &R, round: u64) {
        self.await_all(rt, self.all(round, 1));
    }

    /// Lets a thread act, right after the others have come, and after a delay of its own. It does not wait long for a thread that
    /// cannot run. Threads are counted from 1.
    pub fn start(&self, round: u64, thread: u64) {
        self.come.fetch_add(1, Ordering::SeqCst);
        self.look(self.all(round, 2));
        for _ in 0..delay(round, thread) {
            spin_loop();
        }
    }

    /// Closes a round, in each thread: all have acted.
    pub fn close<R: Wait>(&self, rt: &R, round: u64) {
        self.await_all(rt, self.all(round, MEETINGS));
    }

    // How often threads have come once all are at this meeting of that round.
    fn all(&self, round: u64, meeting: u64) -> u64 {
        let meetings = round.wrapping_mul(MEETINGS).wrapping_add(meeting);
        self.threads.wrapping_mul(meetings)
    }

    // Comes, and waits until all have.
    fn await_all<R: Wait>(&self, rt: &R, all: u64) {
        let before = self.come.fetch_add(1, Ordering::SeqCst);
        if before.wrapping_add(1) >= all {
            return self.come.wake_all();
        }
        if self.look(all) {
            return;
        }
        for _ in rt.forever() {
            let seen = self.come.load(Ordering::SeqCst);
            if seen >= all {
                return;
            }
            self.come.park(rt, (seen & 0xffff_ffff) as u32);
        }
    }

    // Looks until all have come. False where they did not for so many looks.
    fn look(&self, all: u64) -> bool {
        for _ in 0..LOOKS {
            if self.come.load(Ordering::SeqCst) >= all {
                return true;
            }
            spin_loop();
        }
        false
    }
}

// How many turns a thread waits in that round: an upper digit of a linear congruential generator (Knuth's), so that threads differ.
fn delay(round: u64, thread: u64) -> u64 {
    let state = round
        .wrapping_mul(8)
        .wrapping_add(thread)
        .wrapping_mul(6364136223846793005)
        .wrapping_add(1442695040888963407);
    (state >> 33) % DELAYS
}

/// The calls of one thread, one after the other, for the others to see.
#[derive(Drop)]
pub struct Calls {
    /// How many have begun.
    pub begun: Counter,
    /// How many have ended. Another thread asks before a call of its own, and then `overlap` after it.
    pub ended: Counter,
}

impl Calls {
    /// No call yet.
    pub fn new() -> Calls {
        Calls {
            begun: Counter::new(),
            ended: Counter::new(),
        }
    }

    /// Whether one of these calls had not ended when so many had, and has begun by now.
    pub fn overlap(&self, ended_before: u64) -> bool {
        self.begun.get() > ended_before
    }
}

/// What is counted over all rounds of a race.
#[derive(Drop)]
pub struct Tally {
    /// How many rounds there were.
    pub rounds: Counter,
    /// How many rounds met what the race is for.
    pub met: Counter,
    /// How many rounds did not come to their end as they must.
    pub faults: Counter,
}

impl Tally {
    /// Nothing yet.
    pub fn new() -> Tally {
        Tally {
            rounds: Counter::new(),
            met: Counter::new(),
            faults: Counter::new(),
        }
    }

    /// Counts a round, by whether it met what the race is for, and whether it came to its end as it must.
    pub fn count(&self, met: bool, right: bool) {
        self.rounds.add_one();
        if met {
            self.met.add_one();
        }
        if !right {
            self.faults.add_one();
        }
    }

    /// Stops where fewer than `LEAST_MET` rounds met what the race is for, and tells how many did so, and what they did.
    pub fn assert_met<R: Abort>(&self, rt: &R, what: &str) {
        let met = self.met.get();
        assert!(rt; LEAST_MET <= met, "{met} {what}");
    }
}
