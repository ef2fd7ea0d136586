//! Tests of a spawn that is refused its one request for memory.
//! Of what is only tested (docs/PROOFS.md): Memory and limits.
ghost use Rattle.std.specs.Prelude.{⊤};

use crate::calls;
use async_task::{
    Builder, Future, Poll, Runnable, Schedule, ScheduleInfo, SpawnError, Task, TaskWaker, Yields,
    spawn,
};
use linked_list_allocator::LocalHeap;
use rows_fixtures::behaviour::Behaviour;
use rows_fixtures::counters::{Counter, Counters, Counts};
use rows_fixtures::counting::Counting;
use rows_fixtures::flag::Flag;
use rows_fixtures::future::RowFuture;
use rows_fixtures::output::{Output, is_ready_with};
use rows_fixtures::surroundings::Scheduler;
use std::alloc::{Allocator, Global};
use std::process::Abort;
use std::sync::{Arc, Wait};

// A schedule value has so many numbers, by which it shows that it is whole.
const WIDTH: usize = 64;

// The schedule value: it counts, and drops each Runnable.
#[derive(Drop)]
struct WideScheduler {
    inner: Scheduler,
    numbers: [u64; WIDTH],
}

impl WideScheduler {
    fn new<R: Abort + Drop + Copy>(rt: R, counters: &Arc<Counters>) -> WideScheduler {
        WideScheduler {
            inner: Scheduler::new(calls::share(rt, counters)),
            numbers: [3; WIDTH],
        }
    }
}

// The handles of such tasks. Their surroundings count the clones of wakers that their polls are refused.
type WideRunnable<'x, R, M, B> = Runnable<R, WideFuture, WideScheduler, M, Flag, &'x Counter, B>;

type WideTask<'x, R, M, B> = Task<R, WideFuture, WideScheduler, M, Flag, &'x Counter, B>;

type WideWaker<'x, R, M, B> = TaskWaker<R, WideFuture, WideScheduler, M, Flag, &'x Counter, B>;

impl<'x, R: Wait + Drop + Copy, M: Drop, B: Allocator + Copy> Schedule<WideRunnable<'x, R, M, B>>
    for WideScheduler {
    ghost scheduled = { λ _ _ _. ⊤ };

    fn schedule(&self, runnable: WideRunnable<'x, R, M, B>, _info: ScheduleInfo) {
        self.inner.count_call();
        drop(runnable);
    }
}

// The future: each poll clones the waker that it is lent, drops the clone, and answers as the futures of the rows do.
#[derive(Drop)]
struct WideFuture {
    inner: RowFuture,
}

impl WideFuture {
    fn new<R: Abort + Drop + Copy>(
        rt: R,
        behaviour: Behaviour,
        counters: &Arc<Counters>,
    ) -> WideFuture {
        WideFuture {
            inner: RowFuture::new(behaviour, calls::share(rt, counters)),
        }
    }
}

impl Yields for WideFuture {
    type Output = Output;
}

impl<'x, R: Wait + Drop + Copy, M: Drop, B: Allocator + Copy> Future<WideWaker<'x, R, M, B>>
    for WideFuture {
    ghost polled = { λ _ _ _ _. ⊤ };

    fn poll(&mut self, waker: &WideWaker<'x, R, M, B>) -> Poll<Output> {
        match waker.try_clone() {
            Ok(clone) => drop(clone),
            Err(_) => waker.around().add_one(),
        }
        self.inner.answer_alone()
    }
}

// The handles of such a task in a heap whose requests are counted.
type CountedRunnable<'x, 'heap, R, M> = WideRunnable<'x, R, M, &'heap Counting<&'heap LocalHeap>>;

type CountedTask<'x, 'heap, R, M> = WideTask<'x, R, M, &'heap Counting<&'heap LocalHeap>>;

// Ends a task that was spawned.
fn discard_both<R: Wait + Drop + Copy, M: Drop>(
    runnable: CountedRunnable<'_, '_, R, M>,
    task: CountedTask<'_, '_, R, M>,
) {
    runnable.discard();
    task.discard();
}

// Whether a task of that future and schedule value, over a heap with room, comes to its output 4. Stops where it is refused.
fn succeeds<R: Wait + Abort + Drop + Copy>(
    rt: R,
    alloc: Global,
    future: WideFuture,
    schedule: WideScheduler,
) -> bool {
    let flag = calls::flag(rt, alloc, 1);
    let heap = calls::heap(rt, alloc, calls::HEAP);
    let refused_clones = Counter::new();
    let spawned = spawn(rt, &heap, future, schedule, &refused_clones);
    let (runnable, mut task) = spawned.expect(&rt, "refused");
    runnable.run();
    let is_ready = is_ready_with(&task.poll(&flag), 4);
    drop(task);
    is_ready && heap.used() == 0 && refused_clones.get() == 0
}

// What a spawn over a heap came to, and whether all was as it has to be: granted, with one request, and nothing used at last; or
// refused its one request.
type Spawned = Result<bool, bool>;

// Uses what a refused spawn handed back, with a heap that has room: whether the schedule value was whole and the spawn succeeded.
fn use_refused<R: Wait + Abort + Drop + Copy>(
    rt: R,
    alloc: Global,
    refused: SpawnError<(), WideFuture, WideScheduler>,
) -> bool {
    let SpawnError {
        builder: _,
        maker,
        schedule,
    } = refused;
    let is_whole = schedule.numbers == [3; WIDTH];
    let has_succeeded = succeeds(rt, alloc, maker, schedule);
    is_whole && has_succeeded
}

// A spawn over a heap of that many blocks of 16 bytes. A refused spawn must have handed back the future and the schedule value,
// neither of them dropped, must have freed what it took, and must succeed with them where there is room.
fn spawn_in<R: Wait + Abort + Drop + Copy>(rt: R, alloc: Global, blocks: u16) -> Spawned {
    let counters = calls::counters(rt, alloc);
    let heap = calls::heap(rt, alloc, 16 * usize::from(blocks));
    let counting = Counting::new(&heap);
    let around = Counter::new();
    let future = WideFuture::new(rt, Behaviour::Ready(4), &counters);
    let schedule = WideScheduler::new(rt, &counters);
    match spawn(rt, &counting, future, schedule, &around) {
        Ok((runnable, task)) => {
            let requests = counting.allocations();
            discard_both(runnable, task);
            Ok(requests == 1 && heap.used() == 0)
        }
        Err(refused) => {
            let requests = counting.allocations();
            let is_freed = heap.used() == 0 && counters.counts() == Counts(0, 0, 0, 0);
            let is_used = use_refused(rt, alloc, refused);
            let is_over = counters.counts() == Counts(1, 0, 1, 1);
            let right = is_freed && is_used && is_over && counters.output_drops.get() == 1;
            Err(requests == 1 && right)
        }
    }
}

// The same of a spawn by a builder with metadata and a limit, which must hand the builder back too, with the maker uncalled.
fn build_in<R: Wait + Abort + Drop + Copy>(rt: R, alloc: Global, blocks: u16) -> Spawned {
    let counters = calls::counters(rt, alloc);
    let heap = calls::heap(rt, alloc, 16 * usize::from(blocks));
    let counting = Counting::new(&heap);
    let around = Counter::new();
    let calls = Counter::new();
    let future = WideFuture::new(rt, Behaviour::Ready(4), &counters);
    let maker = |_: &u64| {
        calls.add_one();
        future
    };
    let schedule = WideScheduler::new(rt, &counters);
    let builder = Builder::new().metadata(7u64).reference_limit(5);
    match builder.spawn(rt, &counting, maker, schedule, &around) {
        Ok((runnable, task)) => {
            discard_both(runnable, task);
            Ok(counting.allocations() == 1 && calls.get() == 1 && heap.used() == 0)
        }
        Err(refused) => {
            let requests = counting.allocations();
            let is_freed = heap.used() == 0 && counters.counts() == Counts(0, 0, 0, 0);
            let is_uncalled = calls.get() == 0;
            let is_used = use_builder(rt, alloc, refused);
            let is_over = calls.get() == 1 && counters.counts() == Counts(0, 0, 1, 1);
            Err(requests == 1 && is_freed && is_uncalled && is_used && is_over)
        }
    }
}

// Whether a builder shows the metadata 7 and the limit 5.
fn is_shown(alloc: Global, builder: &Builder<u64>) -> bool {
    match format!(in alloc; "{builder:?}") {
        Ok(shown) => shown.as_str() == "Builder { metadata: 7, limit: 5 }",
        Err(_) => false,
    }
}

// Whether the builder was handed back as it was given, and the schedule value; and whether a task of them and the maker,
// over a heap with room, has the metadata 7.
fn use_builder<R: Wait + Abort + Drop + Copy, G: FnOnce(&u64) -> WideFuture>(
    rt: R,
    alloc: Global,
    refused: SpawnError<u64, G, WideScheduler>,
) -> bool
    requires { G.IsAlwaysCallable refused.maker }
{
    let SpawnError {
        builder,
        maker,
        schedule,
    } = refused;
    let is_shown = is_shown(alloc, &builder);
    let is_whole = schedule.numbers == [3; WIDTH];
    let heap = calls::heap(rt, alloc, calls::HEAP);
    let around = Counter::new();
    let Ok((runnable, task)) = builder.spawn(rt, &heap, maker, schedule, &around) else {
        return false;
    };
    let metadata = *runnable.metadata();
    drop(runnable);
    drop(task);
    is_shown && is_whole && metadata == 7 && heap.used() == 0
}

// Heaps without room for a task, and with it, in blocks.
const FEW: u16 = 1;

const MANY: u16 = 256;

#[test]
fn a_refused_spawn_hands_everything_back(rt: HostRuntime) {
    let refused = spawn_in(rt, rt.alloc(), FEW);
    let spawned = spawn_in(rt, rt.alloc(), MANY);
    assert!(rt; [refused, spawned] == [Err(true), Ok(true)]);
}

#[test]
fn a_refused_builder_hands_everything_back(rt: HostRuntime) {
    let refused = build_in(rt, rt.alloc(), FEW);
    let spawned = build_in(rt, rt.alloc(), MANY);
    assert!(rt; [refused, spawned] == [Err(true), Ok(true)]);
}
