//! A test of a schedule value that keeps the last Runnable in a slot before its list.
ghost use Rattle.std.specs.Prelude.{⊤};

use async_task::{
    Builder, Future, ParkedRunnable, Poll, Runnable, Schedule, ScheduleInfo, Task, TaskWaker,
    WithInfo, Yields,
};
use rows_fixtures::flag::Flag;
use std::alloc::Global;
use std::collections::VecDeque;
use std::mem;
use std::process::Abort;
use std::sync::{Mutex, Wait};

// A future that wakes its task at each poll, and always answers pending.
#[derive(Drop)]
struct Yielding;

impl Yields for Yielding {
    type Output = ();
}

impl<'x, R: Wait + Drop + Copy> Future<SlotWaker<'x, R>> for Yielding {
    ghost polled = { λ _ _ _ _. ⊤ };

    fn poll(&mut self, waker: &SlotWaker<'x, R>) -> Poll<()> {
        waker.wake_by_ref();
        Poll::Pending
    }
}

// The schedule value: it is told by each call whether the task was woken while it ran.
#[derive(Drop)]
struct LastFirst;

// The handles of a task with a slot.
type SlotRunnable<'x, R> = Runnable<R, Yielding, WithInfo<LastFirst>, u64, Flag, &'x Slots<R>>;

type SlotTask<'x, R> = Task<R, Yielding, WithInfo<LastFirst>, u64, Flag, &'x Slots<R>>;

type SlotWaker<'x, R> = TaskWaker<R, Yielding, WithInfo<LastFirst>, u64, Flag, &'x Slots<R>>;

type SlotParked<R> = ParkedRunnable<R, Yielding, WithInfo<LastFirst>, u64, Flag>;

// A parked handle cannot be dropped: it is unparked first.
fn drop_parked<R: Wait + Drop + Copy>(parked: SlotParked<R>) {
    drop(parked.unpark(()));
}

// A slot of one Runnable, and the list beside it.
struct Slots<R: Wait + Drop + Copy> {
    rt: R,
    slot: Mutex<Option<SlotParked<R>>>,
    list: Mutex<VecDeque<SlotParked<R>>>,
}

impl<R: Wait + Drop + Copy> Slots<R> {
    fn new(rt: R, alloc: Global) -> Slots<R> {
        Slots {
            rt,
            slot: Mutex::new(None),
            list: Mutex::new(VecDeque::new(alloc)),
        }
    }

    // Puts a Runnable at the back of the list. Where there is no memory it is dropped, and the test does not find it.
    fn push_back(&self, parked: SlotParked<R>) {
        let pushed = self.list.lock(&self.rt).push_back(parked);
        if let Err(refused) = pushed {
            drop_parked(refused.value);
        }
    }

    // Puts a Runnable into the slot, and moves the one that stood there to the back of the list.
    fn put(&self, parked: SlotParked<R>) {
        let previous = {
            let mut slot = self.slot.lock(&self.rt);
            mem::replace(&mut *slot, Some(parked))
        };
        if let Some(previous) = previous {
            self.push_back(previous);
        }
    }

    // Takes the Runnable out of the slot.
    fn take(&self) -> Option<SlotRunnable<'_, R>> {
        let parked = self.slot.lock(&self.rt).take()?;
        Some(parked.unpark(self))
    }

    // Takes the Runnable out of the slot and runs it: its metadata, and what the run answers.
    fn run_last(&self) -> Option<(u64, bool)> {
        let runnable = self.take()?;
        let number = *runnable.metadata();
        Some((number, runnable.run().0))
    }

    // Whether the list has just the Runnables of tasks with these metadata, in this order.
    fn list_is(&self, expected: &[u64]) -> bool {
        let list = self.list.lock(&self.rt);
        for (index, number) in expected.iter().enumerate() {
            let Some(parked) = list.get(index) else {
                return false;
            };
            if parked.metadata() != number {
                return false;
            }
        }
        list.len() == expected.len()
    }
}

impl<R: Wait + Drop + Copy> Drop for Slots<R> {
    fn drop(self) {
        let Slots { rt, slot, list } = self;
        if let Some(parked) = slot.into_inner() {
            drop_parked(parked);
        }
        let mut list = list.into_inner();
        while let Some(parked) = list.pop_front() {
            drop_parked(parked);
        }
        list.destroy_empty();
        drop(rt);
    }
}

impl<'x, R: Wait + Drop + Copy> Schedule<SlotRunnable<'x, R>> for LastFirst {
    ghost scheduled = { λ _ _ _. ⊤ };

    fn schedule(&self, runnable: SlotRunnable<'x, R>, info: ScheduleInfo) {
        let slots = runnable.around();
        if info.woken_while_running {
            slots.push_back(runnable.park());
        } else {
            slots.put(runnable.park());
        }
    }
}

// Spawns a task with that metadata, and schedules its Runnable. Stops where there is no memory.
fn spawn_scheduled<R: Wait + Abort + Drop + Copy>(
    rt: R,
    alloc: Global,
    slots: &Slots<R>,
    number: u64,
) -> SlotTask<'_, R> {
    let schedule = WithInfo::from(LastFirst);
    let spawned = Builder::new()
        .metadata(number)
        .spawn(rt, alloc, |_| Yielding, schedule, slots);
    let (runnable, task) = spawned.expect(&rt, "refused");
    runnable.schedule();
    task
}

// Schedules three tasks and runs the last one: its metadata and what the run answered; and whether the list was right before
// the run, and after it the slot was empty and the list was right.
fn run_last_of_three<R: Wait + Abort + Drop + Copy>(
    rt: R,
    alloc: Global,
) -> (Option<(u64, bool)>, bool) {
    let slots = Slots::new(rt, alloc);
    let first = spawn_scheduled(rt, alloc, &slots, 1);
    let second = spawn_scheduled(rt, alloc, &slots, 2);
    let third = spawn_scheduled(rt, alloc, &slots, 3);
    let listed = slots.list_is(&[1, 2]);
    let ran = slots.run_last();
    let is_empty = slots.take().is_none();
    let listed_last = slots.list_is(&[1, 2, 3]);
    drop(first);
    drop(second);
    drop(third);
    (ran, listed && is_empty && listed_last)
}

#[test]
fn the_last_runnable_stands_in_the_slot(rt: HostRuntime) {
    let (ran, right) = run_last_of_three(rt, rt.alloc());
    assert!(rt; right && ran == Some((3, true)));
}
