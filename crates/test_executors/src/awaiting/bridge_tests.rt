//! Tasks that the kit's `block_on`, `join` and `select` wait for, a bridge that is dropped, and refused memory. Of what is only tested: the page of `executor_parts::kit`.
ghost use Rattle.std.specs.Prelude.{⊤};

use crate::calls::{HEAP, fill};
use async_task::{Future, Poll, Runnable, Task, Wake, Yields, spawn};
use executor_parts::kit::{AwaitError, Awaits, KitAwaiter};
use futures::executor::block_on;
use futures::future::{Either, join, ready, select};
use linked_list_allocator::LocalHeap;
use rows_fixtures::surroundings::Nowhere;
use std::alloc::{AllocGlobal, Global};
use std::process::Abort;
use std::random::RandomSource;
use std::sync::atomic::{AtomicU64, Ordering};
use std::sync::{Arc, Wait};
use std::thread::{self, Threads};

// Gives way so often, and then answers. It counts its drop.
struct Count {
    left: u64,
    answer: u64,
    dropped: Arc<AtomicU64>,
}

impl Drop for Count {
    fn drop(self) {
        let Count {
            left: _,
            answer: _,
            dropped,
        } = self;
        dropped.fetch_add(1, Ordering::SeqCst);
    }
}

impl Yields for Count {
    type Output = u64;
}

impl<W: Wake> Future<W> for Count {
    ghost polled = { λ _ _ _ _. ⊤ };

    fn poll(&mut self, waker: &W) -> Poll<u64> {
        if self.left == 0 {
            return Poll::Ready(self.answer);
        }
        self.left -= 1;
        waker.wake_by_ref();
        Poll::Pending
    }
}

type Work<R> = Runnable<R, Count, Nowhere, (), KitAwaiter, ()>;

type Awaited<R> = Awaits<R, Count, Nowhere, (), (), Global>;

// What a bridge answers.
type Answer = Result<u64, AwaitError>;

// Nothing dropped yet.
fn none_dropped<R: Abort + Drop + Copy>(rt: R, alloc: Global) -> Arc<AtomicU64> {
    Arc::new(alloc, AtomicU64::new(0)).expect(&rt, "refused")
}

// A future that answers at its first poll.
fn answers<R: Abort + Drop + Copy>(rt: R, answer: u64, dropped: &Arc<AtomicU64>) -> Count {
    Count {
        left: 0,
        answer,
        dropped: Arc::try_clone(dropped).expect(&rt, "refused"),
    }
}

// A task that answers at its first poll: its Runnable, and its Task as a future of the kit.
fn bridged<R: Wait + Abort + Drop + Copy>(
    rt: R,
    alloc: Global,
    answer: u64,
    dropped: &Arc<AtomicU64>,
) -> (Work<R>, Awaited<R>) {
    let spawned = spawn(rt, alloc, answers(rt, answer, dropped), Nowhere, ());
    let (runnable, task) = spawned.expect(&rt, "refused");
    (runnable, Awaits::new(alloc, task).expect(&rt, "refused"))
}

// Runs: what the run answers.
fn run<R: Wait + Drop + Copy>(runnable: Work<R>) -> bool {
    runnable.run().0
}

// Lets the kit wait for a future.
fn wait_for<R: Wait + Abort + RandomSource + AllocGlobal, A: futures::Future>(
    rt: &R,
    awaited: A,
) -> A::Output
    requires { A.can_poll awaited }
{
    block_on(rt, awaited).expect(rt, "refused")
}

// Lets the kit wait for two futures at once.
fn wait_for_both<
    R: Wait + Abort + RandomSource + AllocGlobal,
    A: futures::Future<Output: Drop>,
    B: futures::Future<Output: Drop>,
>(rt: &R, left: A, right: B) -> (A::Output, B::Output)
    requires { A.can_poll left × B.can_poll right }
{
    block_on(rt, join(left, right)).expect(rt, "refused")
}

// Lets the kit wait for the first of two futures: what the left one gave, if it was the first.
fn wait_for_left<
    R: Wait + Abort + RandomSource + AllocGlobal,
    A: futures::Future,
    B: futures::Future<Output: Drop>,
>(rt: &R, left: &mut A, right: &mut B) -> Option<A::Output>
    requires { A.can_poll left.old × B.can_poll right.old }
{
    match block_on(rt, select(left, right)).expect(rt, "refused") {
        Either::Left((output, _)) => Some(output),
        Either::Right(_) => None,
    }
}

// Lets the kit wait for a task that another thread runs: what it answered, and how many futures were dropped.
fn wait_beside<R: Wait + Abort + Threads + RandomSource + AllocGlobal + Drop + Copy + Send + Sync>(
    rt: R,
    alloc: Global,
) -> (Answer, u64) {
    let dropped = none_dropped(rt, alloc);
    let (runnable, awaits) = bridged(rt, alloc, 7, &dropped);
    let (_, answer) = thread::join(&rt, move || run(runnable), move || wait_for(&rt, awaits));
    (answer, dropped.load(Ordering::SeqCst))
}

#[test]
fn the_kit_waits_for_a_task_that_another_thread_runs(rt: HostRuntime) {
    let (answer, dropped) = wait_beside(rt, rt.alloc());
    assert!(rt; answer == Ok(7));
    assert!(rt; dropped == 1);
}

// Lets the kit wait for two tasks at once, which another thread runs: what they answered.
fn join_beside<R: Wait + Abort + Threads + RandomSource + AllocGlobal + Drop + Copy + Send + Sync>(
    rt: R,
    alloc: Global,
) -> (Answer, Answer) {
    let dropped = none_dropped(rt, alloc);
    let (first, left) = bridged(rt, alloc, 1, &dropped);
    let (second, right) = bridged(rt, alloc, 2, &dropped);
    let run_both = move || {
        run(first);
        run(second)
    };
    let (_, answers) = thread::join(&rt, run_both, move || wait_for_both(&rt, left, right));
    answers
}

#[test]
fn the_kit_joins_two_tasks(rt: HostRuntime) {
    assert!(rt; join_beside(rt, rt.alloc()) == (Ok(1), Ok(2)));
}

// Lets the kit wait for the first of two tasks, and then runs the other one: what the first answered, whether the run woke anything, and how many futures
// were dropped.
fn select_first<R: Wait + Abort + RandomSource + AllocGlobal + Drop + Copy>(
    rt: R,
    alloc: Global,
) -> (Option<Answer>, bool, u64) {
    let dropped = none_dropped(rt, alloc);
    let (first, mut left) = bridged(rt, alloc, 1, &dropped);
    let (second, mut right) = bridged(rt, alloc, 2, &dropped);
    run(first);
    let won = wait_for_left(&rt, &mut left, &mut right);
    drop(right);
    let woken = run(second);
    (won, woken, dropped.load(Ordering::SeqCst))
}

#[test]
fn the_loser_of_a_select_is_cancelled(rt: HostRuntime) {
    let (won, woken, dropped) = select_first(rt, rt.alloc());
    assert!(rt; won == Some(Ok(1)) && !woken && dropped == 2);
}

// Drops a bridge before its task runs: whether the run woke anything, how many futures were dropped, and whether nothing else has their count then.
fn drop_bridge<R: Wait + Abort + Drop + Copy>(rt: R, alloc: Global) -> (bool, u64, bool) {
    let dropped = none_dropped(rt, alloc);
    let (runnable, awaits) = bridged(rt, alloc, 1, &dropped);
    drop(awaits);
    let woken = run(runnable);
    let futures = dropped.load(Ordering::SeqCst);
    (woken, futures, Arc::try_unwrap(dropped).is_ok())
}

#[test]
fn a_dropped_bridge_cancels_its_task_and_leaves_nothing(rt: HostRuntime) {
    let (woken, futures, alone) = drop_bridge(rt, rt.alloc());
    assert!(rt; !woken && futures == 1 && alone);
}

// The handles of a task whose memory, with that of its awaiter, is of a heap.
type HeapWork<'heap, R> = Runnable<
    R,
    Count,
    Nowhere,
    (),
    KitAwaiter<&'heap LocalHeap>,
    (),
    &'heap LocalHeap,
>;

type HeapJob<'heap, R> = Task<
    R,
    Count,
    Nowhere,
    (),
    KitAwaiter<&'heap LocalHeap>,
    (),
    &'heap LocalHeap,
>;

type HeapAwaited<'heap, R> = Awaits<R, Count, Nowhere, (), (), &'heap LocalHeap>;

// Wraps a Task while its heap is full: whether it was refused, and the Task.
fn wrap_in_full_heap<'heap, R: Wait + Abort + Drop + Copy>(
    rt: R,
    alloc: Global,
    heap: &'heap LocalHeap,
    task: HeapJob<'heap, R>,
) -> (bool, HeapJob<'heap, R>) {
    let filling = fill(rt, alloc, heap);
    let wrapped = Awaits::new(heap, task);
    drop(filling);
    match wrapped {
        Ok(awaits) => (false, awaits.into_task()),
        Err(refused) => (true, refused.task),
    }
}

// A task in a heap that answers 6 at its first poll: its Runnable, and its Task as a future of the kit, which was refused before.
fn bridged_later<'heap, R: Wait + Abort + Drop + Copy>(
    rt: R,
    alloc: Global,
    heap: &'heap LocalHeap,
    dropped: &Arc<AtomicU64>,
) -> (bool, HeapWork<'heap, R>, HeapAwaited<'heap, R>) {
    let spawned = spawn(rt, heap, answers(rt, 6, dropped), Nowhere, ());
    let (runnable, task) = spawned.expect(&rt, "refused");
    let (refused, task) = wrap_in_full_heap(rt, alloc, heap, task);
    (
        refused,
        runnable,
        Awaits::new(heap, task).expect(&rt, "refused"),
    )
}

// Lets the kit poll a future once, runs the task of it, and lets the kit wait for it: whether it was pending at its first poll, and what it gave.
fn wait_after_poll<
    R: Wait + Abort + RandomSource + AllocGlobal + Drop + Copy,
    A: futures::Future<Output: Drop>,
>(rt: R, mut awaited: A, runnable: HeapWork<'_, R>) -> (bool, A::Output)
    requires { (future : A) → A.can_poll future }
{
    let pending = wait_for_left(&rt, &mut awaited, &mut ready(())).is_none();
    runnable.run();
    (pending, wait_for(&rt, awaited))
}

// Wraps a Task, while its heap is full and later, and waits for it: whether the first bridge was refused, whether the second one was pending at its first
// poll, and what it answered.
fn wait_after_refusal<R: Wait + Abort + RandomSource + AllocGlobal + Drop + Copy>(
    rt: R,
    alloc: Global,
    heap: &LocalHeap,
    dropped: &Arc<AtomicU64>,
) -> (bool, (bool, Answer)) {
    let (refused, runnable, awaits) = bridged_later(rt, alloc, heap, dropped);
    (refused, wait_after_poll(rt, awaits, runnable))
}

#[test]
fn a_bridge_that_was_refused_memory_is_made_later(rt: HostRuntime) {
    let dropped = none_dropped(rt, rt.alloc());
    let heap = LocalHeap::new(rt.alloc(), HEAP).expect(&rt, "refused");
    let seen = wait_after_refusal(rt, rt.alloc(), &heap, &dropped);
    assert!(rt; seen == (true, (true, Ok(6))));
    assert!(rt; heap.used() == 0 && dropped.load(Ordering::SeqCst) == 1);
}
