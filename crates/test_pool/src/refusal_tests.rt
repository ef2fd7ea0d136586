//! Tests of pools whose queues are refused memory: what the Runnables stand in is of a small heap, which is filled.
ghost use Rattle.std.specs.Prelude.{⊤};

use crate::guest::{Guests, shares_and_polls};
use async_task::{Future, Poll, TaskPoll, Yields};
use executor::{Pool, PoolRunnable, PoolSpawnError, PoolTask, SpawnRefusal, Turns};
use executor_parts::Nobody;
use linked_list_allocator::LocalHeap;
use std::alloc::{AllocError, Global};
use std::process::Abort;
use std::sync::atomic::Ordering;
use std::sync::{Arc, Wait};

/// Room for the queues of a pool of one worker, and for what that has in its hands.
const POOL_HEAP: usize = 32_768;

/// The most blocks that a heap of twice that room hands out.
const BLOCKS: usize = 4096;

/// How many Runnables a queue of a pool has room for at first.
const ROOM: usize = 64;

// What fills a heap.
type Filling<'heap> = Vec<Vec<u8, &'heap LocalHeap>>;

// Takes what is left of a heap: whatever is asked of it afterwards is refused.
fn fill(alloc: Global, heap: &LocalHeap) -> Result<Filling<'_>, AllocError> {
    let mut filling = Vec::new(alloc);
    for _ in 0..BLOCKS {
        let Ok(block) = Vec::with_capacity(heap, 1) else {
            break;
        };
        filling.push(block)?;
    }
    Ok(filling)
}

/// A future that answers 1 at its first poll, whatever it is lent.
#[derive(Drop)]
struct Prompt {
    guests: Arc<Guests>,
}

impl Yields for Prompt {
    type Output = u64;
}

impl<W> Future<W> for Prompt {
    ghost polled = { λ _ _ _ _. ⊤ };

    fn poll(&mut self, _waker: &W) -> Poll<u64> {
        self.guests.polls.fetch_add(1, Ordering::SeqCst);
        Poll::Ready(1)
    }
}

type HeapPool<'heap, R> = Pool<R, Prompt, Nobody, &'heap LocalHeap>;

type HeapTask<'x, 'heap, R> = PoolTask<'x, R, Prompt, Nobody, &'heap LocalHeap>;

type HeapTurns<'x, 'heap, R> = Turns<'x, R, Prompt, Nobody, &'heap LocalHeap>;

// A pool of one worker, whose queues are of a heap.
fn new_pool<'heap, R: Wait + Abort + Drop + Copy>(
    rt: R,
    alloc: Global,
    heap: &'heap LocalHeap,
) -> HeapPool<'heap, R> {
    HeapPool::with_queues_in(rt, alloc, heap, 1).expect(&rt, "refused")
}

fn turns_of<'x, 'heap, R: Wait + Abort + Drop + Copy>(
    pool: &'x HeapPool<'heap, R>,
) -> HeapTurns<'x, 'heap, R> {
    pool.turns(0).expect(&pool.rt(), "refused")
}

// Spawns one task at the queue of a worker, or from outside.
fn spawn_prompt<'x, 'heap, R: Wait + Abort + Drop + Copy>(
    pool: &'x HeapPool<'heap, R>,
    worker: usize,
    guests: &Arc<Guests>,
) -> HeapTask<'x, 'heap, R> {
    let guests = Arc::try_clone(guests).expect(&pool.rt(), "refused");
    pool.spawn_on(worker, Prompt { guests })
        .expect(&pool.rt(), "refused")
}

// Why one more is refused at the queue of the worker. `None` where it is not, or the error has not its future.
fn refusal_of<R: Wait + Abort + Drop + Copy>(
    pool: &HeapPool<'_, R>,
    guests: &Arc<Guests>,
) -> Option<SpawnRefusal> {
    let before = Arc::strong_count(guests);
    let guests = Arc::try_clone(guests).expect(&pool.rt(), "refused");
    match pool.spawn_on(0, Prompt { guests }) {
        Ok(_) => None,
        Err(PoolSpawnError { given, reason }) => {
            (Arc::strong_count(&given.guests).saturating_sub(before) == 1).then_some(reason)
        }
    }
}

// Spawns so many tasks.
fn spawn_prompts<'x, 'heap, R: Wait + Abort + Drop + Copy>(
    pool: &'x HeapPool<'heap, R>,
    worker: usize,
    guests: &Arc<Guests>,
    count: usize,
) -> Vec<HeapTask<'x, 'heap, R>> {
    let rt = pool.rt();
    let mut tasks = Vec::new(pool.alloc());
    for _ in 0..count {
        tasks
            .push(spawn_prompt(pool, worker, guests))
            .expect(&rt, "refused");
    }
    tasks
}

// Runs the next task, and answers whether there was one.
fn tick<'x, 'heap, R: Wait + Drop + Copy>(turns: &mut HeapTurns<'x, 'heap, R>) -> bool {
    turns.tick()
}

// Runs tasks until none is left, at most one more than so many: how many ran.
fn run_prompts<'x, 'heap, R: Wait + Drop + Copy>(
    turns: &mut HeapTurns<'x, 'heap, R>,
    count: usize,
) -> usize {
    let mut ran = 0usize;
    for _ in 0..=count {
        if tick(turns) {
            ran = ran.saturating_add(1);
        }
    }
    ran
}

fn drop_turns<'x, 'heap, R: Wait + Drop + Copy>(turns: HeapTurns<'x, 'heap, R>) {
    drop(turns);
}

// Drops Tasks: how many there were.
fn drop_tasks<'x, 'heap, R: Wait + Drop + Copy>(tasks: Vec<HeapTask<'x, 'heap, R>>) -> usize {
    tasks.len()
}

fn drop_pool<'heap, R: Wait + Drop + Copy>(pool: HeapPool<'heap, R>) {
    drop(pool);
}

// How many of the tasks have answered 1, and how many are closed.
fn count_ends<R: Wait + Drop + Copy>(tasks: &mut Vec<HeapTask<'_, '_, R>>) -> (usize, usize) {
    let mut answered = 0usize;
    let mut closed = 0usize;
    for task in tasks.iter_mut() {
        match task.poll(&Nobody) {
            TaskPoll::Ready(Ok(1)) => answered = answered.saturating_add(1),
            TaskPoll::Ready(Err(_)) => closed = closed.saturating_add(1),
            _ => {}
        }
    }
    (answered, closed)
}

// Schedules a Runnable, if there is one.
fn schedule<'x, 'heap, R: Wait + Drop + Copy>(
    runnable: Option<PoolRunnable<'x, R, Prompt, Nobody, &'heap LocalHeap>>,
) {
    if let Some(runnable) = runnable {
        runnable.schedule();
    }
}

// What a pool comes to whose worker's queue is full while its heap is, and then has room again: why one more spawn was refused; how many tasks ran,
// answered and were closed, among them one whose Runnable the queue refused; and whether one more ran and answered.
fn fill_and_spawn<R: Wait + Abort + Drop + Copy>(
    rt: R,
    alloc: Global,
    heap: &LocalHeap,
    guests: &Arc<Guests>,
) -> (Option<SpawnRefusal>, usize, (usize, usize), (bool, bool)) {
    let pool = new_pool(rt, alloc, heap);
    let mut turns = turns_of(&pool);
    let mut tasks = spawn_prompts(&pool, 0, guests, 1);
    let runnable = turns.next();
    let filling = fill(alloc, heap).expect(&rt, "refused");
    let mut others = spawn_prompts(&pool, 0, guests, ROOM);
    let refused = refusal_of(&pool, guests);
    schedule(runnable);
    tasks.append(&mut others).expect(&rt, "refused");
    let ran = run_prompts(&mut turns, ROOM + 1);
    let ends = count_ends(&mut tasks);
    drop(filling);
    let mut later = spawn_prompt(&pool, 1, guests);
    let ran_later = tick(&mut turns);
    let answered = matches!(later.poll(&Nobody), TaskPoll::Ready(Ok(1)));
    drop(later);
    drop_turns(turns);
    drop_tasks(tasks);
    drop_tasks(others);
    drop_pool(pool);
    (refused, ran, ends, (ran_later, answered))
}

// The queue has room for 64 Runnables. A spawn that finds none has its future back; the Runnable of a wake that finds none is dropped, which closes its task. Nothing else is lost.
#[test]
fn a_pool_goes_on_past_what_its_queue_refuses(rt: HostRuntime) {
    let heap = LocalHeap::new(rt.alloc(), POOL_HEAP).expect(&rt, "refused");
    let guests = Guests::new(rt.alloc(), 0).expect(&rt, "refused");
    let (refused, ran, ends, later) = fill_and_spawn(rt, rt.alloc(), &heap, &guests);
    let left = shares_and_polls(&guests);
    assert!(rt; refused == Some(SpawnRefusal::NoMemory));
    assert!(rt; (ran, ends, later) == (64, (64, 1), (true, true)));
    assert!(rt; left == (1, 65));
    assert!(rt; heap.used() == 0);
}

// What becomes of 200 tasks where the one worker has Runnables in its hands as the pool is shut down: how many have answered and how many are closed,
// after the shutdown and once the worker has ended: it works until its end, or drops its turns at once.
fn shut_down_beside_full_hands<R: Wait + Abort + Drop + Copy>(
    rt: R,
    alloc: Global,
    heap: &LocalHeap,
    guests: &Arc<Guests>,
    works: bool,
) -> ((usize, usize), (usize, usize)) {
    let pool = new_pool(rt, alloc, heap);
    let mut turns = turns_of(&pool);
    let mut tasks = spawn_prompts(&pool, 1, guests, 200);
    let filling = fill(alloc, heap).expect(&rt, "refused");
    tick(&mut turns);
    pool.shutdown();
    let after_shutdown = count_ends(&mut tasks);
    if works {
        turns.work();
    }
    drop(filling);
    drop_turns(turns);
    let after_end = count_ends(&mut tasks);
    drop_tasks(tasks);
    drop_pool(pool);
    (after_shutdown, after_end)
}

// The batch is 100 of the 200: the worker runs one, its queue has room for 64, and 35 stay in its hands. An output that was taken is not there again.
#[test]
fn a_worker_that_ends_cancels_what_it_has_in_its_hands(rt: HostRuntime) {
    let heap = LocalHeap::new(rt.alloc(), 2 * POOL_HEAP).expect(&rt, "refused");
    let guests = Guests::new(rt.alloc(), 0).expect(&rt, "refused");
    let ends = shut_down_beside_full_hands(rt, rt.alloc(), &heap, &guests, true);
    let left = shares_and_polls(&guests);
    assert!(rt; ends == ((1, 164), (0, 200)));
    assert!(rt; left == (1, 1));
    assert!(rt; heap.used() == 0);
}

// The same where the turns are dropped after the shutdown: what they hand on is cancelled, too.
#[test]
fn turns_that_are_dropped_after_a_shutdown_leave_nothing(rt: HostRuntime) {
    let heap = LocalHeap::new(rt.alloc(), 2 * POOL_HEAP).expect(&rt, "refused");
    let guests = Guests::new(rt.alloc(), 0).expect(&rt, "refused");
    let ends = shut_down_beside_full_hands(rt, rt.alloc(), &heap, &guests, false);
    let left = shares_and_polls(&guests);
    assert!(rt; ends == ((1, 164), (0, 200)) && left == (1, 1) && heap.used() == 0);
}

// Turns are dropped with Runnables in their hands, without a shutdown: how many of 200 tasks the next turns of this worker run, and how many have then
// answered and how many are closed.
fn drop_turns_with_full_hands<R: Wait + Abort + Drop + Copy>(
    rt: R,
    alloc: Global,
    heap: &LocalHeap,
    guests: &Arc<Guests>,
) -> (usize, (usize, usize)) {
    let pool = new_pool(rt, alloc, heap);
    let mut turns = turns_of(&pool);
    let mut tasks = spawn_prompts(&pool, 1, guests, 200);
    let filling = fill(alloc, heap).expect(&rt, "refused");
    tick(&mut turns);
    drop(filling);
    drop_turns(turns);
    let mut next = turns_of(&pool);
    let ran = run_prompts(&mut next, 200);
    let ends = count_ends(&mut tasks);
    drop_turns(next);
    drop_tasks(tasks);
    drop_pool(pool);
    (ran, ends)
}

// The batch is 100 of the 200: one runs, 64 are in the worker's queue, and 35 in its hands. The queue for what comes from outside had room for all 200, and has 100 now: so it has room for the 35, and no task is closed.
#[test]
fn turns_that_are_dropped_hand_on_what_they_have(rt: HostRuntime) {
    let heap = LocalHeap::new(rt.alloc(), 2 * POOL_HEAP).expect(&rt, "refused");
    let guests = Guests::new(rt.alloc(), 0).expect(&rt, "refused");
    let (ran, ends) = drop_turns_with_full_hands(rt, rt.alloc(), &heap, &guests);
    let left = shares_and_polls(&guests);
    assert!(rt; ran == 199 && ends == (200, 0) && left == (1, 200) && heap.used() == 0);
}
