//! The heap of priorities and the queue over it: memory that is refused, and what is dropped with a queue. Of what is only tested: the page of
//! `executor_parts`.

use crate::calls;
use executor_parts::PriorityHeap;
use rows_fixtures::behaviour::Behaviour;
use rows_fixtures::counters::Counts;
use rows_fixtures::counting::Counting;
use rows_fixtures::executor::{PriorityQueue, PriorityRunnable, PriorityScheduler, PriorityTask};
use rows_fixtures::fixture::Fixture;
use rows_fixtures::flag::Flag;
use rows_fixtures::future::RowFuture;
use std::alloc::{AllocError, Global};
use std::process::Abort;
use std::sync::Wait;

type Heap<R> = PriorityHeap<R, RowFuture, PriorityScheduler, Flag>;

// Room that no memory has.
const TOO_MUCH: usize = usize::MAX;

// An empty queue with that room. Stops where there is no memory.
fn queue_of<R: Wait + Abort + Drop + Copy>(
    fixture: &Fixture<'_, R>,
    room: usize,
) -> PriorityQueue<R> {
    fixture.priorities(room).expect(&fixture.rt, "refused")
}

// Spawns a task of that priority. Stops where there is no memory.
fn spawn<'x, R: Wait + Abort + Drop + Copy>(
    fixture: &Fixture<'_, R>,
    queue: &'x PriorityQueue<R>,
    priority: u64,
) -> (PriorityRunnable<'x, R>, PriorityTask<'x, R>) {
    let spawned = fixture.spawn_prior(queue, priority, Behaviour::Ready(priority));
    spawned.expect(&fixture.rt, "refused")
}

// Detaches a Task.
fn detach<R: Wait + Drop + Copy>(task: PriorityTask<'_, R>) {
    task.detach();
}

// Schedules a Runnable.
fn schedule<R: Wait + Drop + Copy>(runnable: PriorityRunnable<'_, R>) {
    runnable.schedule();
}

// Whether there is no heap with that room, and whether there is no queue.
fn refuses<R: Wait + Drop + Copy>(rt: R, alloc: Global, room: usize) -> [bool; 2] {
    let made: Result<Heap<R>, AllocError> = PriorityHeap::new(alloc, room);
    [made.is_err(), PriorityQueue::new(rt, alloc, room).is_err()]
}

#[test]
fn new_is_refused_for_memory(rt: HostRuntime) {
    let refused = refuses(rt, rt.alloc(), TOO_MUCH);
    assert!(rt; refused == [true; 2]);
}

// Schedules the Runnables of two tasks and detaches their Tasks, and drops the queue: what was counted before its drop.
fn leave_in_queue<R: Wait + Abort + Drop + Copy>(fixture: &Fixture<'_, R>) -> Counts {
    let queue = queue_of(fixture, 2);
    let (first_runnable, first) = spawn(fixture, &queue, 1);
    let (second_runnable, second) = spawn(fixture, &queue, 2);
    schedule(first_runnable);
    schedule(second_runnable);
    detach(first);
    detach(second);
    fixture.counts()
}

#[test]
fn what_is_left_in_the_queue_is_cancelled_with_it(rt: HostRuntime) {
    let counting = Counting::new(rt.alloc());
    let fixture = calls::fixture(rt, rt.alloc(), &counting);
    let queued = leave_in_queue(&fixture);
    assert!(rt; [queued, fixture.counts()] == [Counts(0, 2, 0, 0), Counts(0, 2, 2, 2)]);
}
