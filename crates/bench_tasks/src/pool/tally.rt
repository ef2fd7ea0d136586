//! The count of the tasks that ended, the time that they took, and the memory that they have.
ghost use Rattle.std.specs.Prelude.{◌≡◌, IfOk};

use crate::failure::Failure;
use crate::pool::memory::resident;
use std::alloc::{AllocError, Global};
use std::fs::Files;
use std::rt::Clock;
use std::sync::atomic::{AtomicU64, Ordering};
use std::sync::{Arc, Wait};
use std::thread;
use std::time::{Duration, Instant};

// How long to sleep between two looks at the count, in milliseconds.
const STEP: u64 = 5;

// So many looks that see no task end say that one is lost: 10 seconds.
const PATIENCE: u64 = 2000;

// A thread that does not sleep looks for so long, in seconds.
const AWAKE: u64 = 10;

/// How many tasks ended, and how many are to.
#[derive(Drop)]
pub struct Tally {
    ended: AtomicU64,
    wanted: u64,
}

impl Tally {
    /// No task ended yet, of so many. An error says that there was no memory.
    pub fn new(alloc: Global, wanted: u64) -> Result<Arc<Tally>, AllocError> {
        let tally = Tally {
            ended: AtomicU64::new(0),
            wanted,
        };
        Ok(Arc::new(alloc, tally)?)
    }

    /// Counts a task that ended, and answers whether it is the last.
    pub fn count(&self) -> bool {
        let before = self.ended.fetch_add(1, Ordering::SeqCst);
        before.wrapping_add(1) == self.wanted
    }

    /// How many tasks ended.
    pub fn ended(&self) -> u64 {
        self.ended.load(Ordering::SeqCst)
    }

    /// How many are to end.
    pub fn wanted(&self) -> u64
        ensures { result ≡ self.now.wanted }
    {
        self.wanted
    }

    /// Waits, awake, until more than `number` tasks have ended, and answers true; or for a long time, or until the clock fails, and answers false.
    pub fn passes<R: Clock + Wait>(&self, rt: &R, number: u64) -> bool {
        let Ok(began) = Instant::now(rt) else {
            return false;
        };
        for _ in rt.forever() {
            if self.ended() > number {
                return true;
            }
            if !is_patient(rt, &began) {
                return false;
            }
            thread::yield_now();
        }
        unreachable!()
    }

    /// Sleeps until all tasks have ended, and answers true; or until none has ended for a long time, and answers false.
    pub fn wait<R: Clock + Wait>(&self, rt: &R) -> bool {
        let mut seen = 0u64;
        let mut looks = 0u64;
        for _ in rt.forever() {
            let ended = self.ended();
            if ended == self.wanted {
                return true;
            }
            if ended != seen {
                seen = ended;
                looks = 0;
            }
            if looks >= PATIENCE {
                return false;
            }
            looks += 1;
            thread::sleep(rt, Duration::from_millis(STEP));
        }
        unreachable!()
    }
}

// Whether a thread that does not sleep may look on. It may not where the clock fails.
fn is_patient<R: Clock>(rt: &R, began: &Instant) -> bool {
    match began.elapsed(rt) {
        Ok(elapsed) => elapsed < Duration::from_secs(AWAKE),
        Err(_) => false,
    }
}

/// When a measurement began, and the memory that the program had then.
#[derive(Drop)]
pub struct Start {
    began: Instant,
    resident: Option<u64>,
}

/// What a measurement found.
#[derive(Clone, Copy)]
pub struct Measured {
    /// How many tasks ended.
    pub ended: u64,
    /// The time from before the first spawn until the threads had ended or, of a group, until all outputs were there.
    pub elapsed: Duration,
    /// By how much the memory of the program grew until all tasks were spawned. `None` where the system does not tell.
    pub grown: Option<u64>,
}

impl Start {
    /// Now. An error is that of the clock.
    pub fn new<R: Clock + Files>(rt: &R, alloc: Global) -> Result<Start, Failure> {
        let resident = resident(rt, alloc);
        let began = Instant::now(rt)?;
        Ok(Start { began, resident })
    }

    /// By how much the memory of the program grew until now.
    pub fn grown<R: Files>(&self, rt: &R, alloc: Global) -> Option<u64> {
        let before = self.resident?;
        Some(resident(rt, alloc)?.saturating_sub(before))
    }

    /// The time until now. An error is that of the clock.
    pub fn elapsed<R: Clock>(&self, rt: &R) -> Result<Duration, Failure> {
        Ok(self.began.elapsed(rt)?)
    }
}

impl Measured {
    /// What a measurement found whose tasks are counted. An error says that not all of them ended.
    pub fn new(tally: &Tally, elapsed: Duration, grown: Option<u64>) -> Result<Measured, Failure>
        ensures all { IfOk result (λ measured. measured.ended ≡ tally.now.wanted) }
    {
        let ended = tally.ended();
        if ended != tally.wanted() {
            return Err(Failure::Lost(ended, tally.wanted()));
        }
        Ok(Measured {
            ended,
            elapsed,
            grown,
        })
    }
}
