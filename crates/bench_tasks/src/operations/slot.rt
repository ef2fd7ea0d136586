//! Surroundings with a place for one Runnable and no lock, for one thread.
ghost use Rattle.std.specs.Prelude.{⊤};

use async_task::{Runnable, Schedule, ScheduleInfo, Task, TaskWaker, Yields, spawn};
use executor_parts::Nobody;
use std::alloc::{AllocError, Allocator};
use std::cell::Cell;
use std::sync::Wait;

/// A place for one Runnable.
pub struct Slot<R: Wait + Drop + Copy, F: Yields, B: Allocator + Copy> {
    rt: R,
    alloc: B,
    held: Cell<Option<Runnable<R, F, ToSlot, (), Nobody, (), B>>>,
}

impl<R: Wait + Drop + Copy, F: Yields, B: Allocator + Copy> Drop for Slot<R, F, B> {
    // As a derived drop, which would stand field by field in each function that makes a place.
    fn drop(self) {
        let Slot {
            rt: _,
            alloc: _,
            held,
        } = self;
        drop(held);
    }
}

/// The schedule value of tasks whose Runnables go to the place that they carry.
#[derive(Drop)]
pub struct ToSlot;

/// A Runnable that carries a place.
pub type SlotRunnable<'x, R, F, B> = Runnable<R, F, ToSlot, (), Nobody, &'x Slot<R, F, B>, B>;

/// A Task that carries a place.
pub type SlotTask<'x, R, F, B> = Task<R, F, ToSlot, (), Nobody, &'x Slot<R, F, B>, B>;

/// A waker that carries a place.
pub type SlotWaker<'x, R, F, B> = TaskWaker<R, F, ToSlot, (), Nobody, &'x Slot<R, F, B>, B>;

/// A Runnable and its Task.
pub type SlotHandles<'x, R, F, B> = (SlotRunnable<'x, R, F, B>, SlotTask<'x, R, F, B>);

impl<'x, R: Wait + Drop + Copy, F: Yields, B: Allocator + Copy> Schedule<SlotRunnable<'x, R, F, B>>
    for ToSlot {
    ghost scheduled = { λ _ _ _. ⊤ };

    fn schedule(&self, runnable: SlotRunnable<'x, R, F, B>, _info: ScheduleInfo) {
        runnable.around().put(runnable);
    }
}

impl<R: Wait + Drop + Copy, F: Yields, B: Allocator + Copy> Slot<R, F, B> {
    /// An empty place.
    pub fn new(rt: R, alloc: B) -> Slot<R, F, B> {
        Slot {
            rt,
            alloc,
            held: Cell::new(None),
        }
    }

    /// Spawns a task.
    pub fn spawn(&self, future: F) -> Result<SlotHandles<'_, R, F, B>, AllocError> {
        match spawn(self.rt, self.alloc, future, ToSlot, self) {
            Ok(handles) => Ok(handles),
            Err(_) => Err(AllocError),
        }
    }

    /// Puts a Runnable there, and drops the one that was there.
    pub fn put<'x>(&'x self, runnable: SlotRunnable<'x, R, F, B>) {
        drop(self.held.replace(Some(runnable.with_around(()))));
    }

    /// Takes the Runnable away.
    pub fn take(&self) -> Option<SlotRunnable<'_, R, F, B>> {
        let held = self.held.replace(None)?;
        Some(held.with_around(self))
    }
}
