//! What the timers, their futures and their drivers have in common, and what shows that a call does not hold the lock.
use crate::entry::Driver;
use crate::entry::table::TimerTable;
use crate::ticks::Ticks;
use std::sync::{Mutex, MutexGuard, Wait};
use std::time::Clock;
use task_core::Wake;

/// Shows that this call does not hold the lock: while it does, this is borrowed. What runs foreign code, a wake or a drop, asks for it.
#[derive(Drop)]
pub struct Unlocked<'a, W: Drop> {
    table: &'a Mutex<TimerTable<W>>,
}

impl<W: Drop> Unlocked<'_, W> {
    // Takes the lock.
    pub(crate) fn lock<R: Wait>(&mut self, rt: &R) -> MutexGuard<'_, TimerTable<W>> {
        self.table.lock(rt)
    }
}

// A table under its lock, with what its calls wait by. No snapshot of the table stands here: with one the prover does not find that threads may share timers.
#[derive(Drop)]
pub(crate) struct Shared<R: Wait + Clock + Drop + Copy, W: Wake> {
    pub(crate) rt: R,
    pub(crate) ticks: Ticks,
    table: Mutex<TimerTable<W>>,
    pub(crate) earlier: Driver,
}

impl<R: Wait + Clock + Drop + Copy, W: Wake> Shared<R, W> {
    // Puts a table under a lock.
    pub(crate) fn new(rt: R, ticks: Ticks, table: TimerTable<W>) -> Shared<R, W> {
        Shared {
            rt,
            ticks,
            table: Mutex::new(table),
            earlier: Driver::new(),
        }
    }

    // The only way to the lock. A call makes one alone.
    pub(crate) fn unlocked(&self) -> Unlocked<'_, W> {
        Unlocked { table: &self.table }
    }
}
