//! Spawns of a group that are refused memory.
ghost use Rattle.std.specs.Prelude.{⊤};

use super::number::Number;
use async_task::{Schedule, ScheduleInfo};
use executor_parts::{Awaiter, GroupSpawnError, TaskGroup};
use linked_list_allocator::LocalHeap;
use rows_fixtures::counting::Counting;
use std::alloc::{AllocError, Global};
use std::process::Abort;
use std::sync::Wait;

// A schedule value has so many numbers, by which it shows that it is whole.
const WIDTH: usize = 64;

// A heap that has room for a task and more, in blocks of 16 bytes.
const BLOCKS: u16 = 256;

// A schedule value that drops each Runnable, which cancels its task.
#[derive(Drop)]
struct Nowhere {
    numbers: [u64; WIDTH],
}

impl<N: Drop> Schedule<N> for Nowhere {
    ghost scheduled = { λ _ _ _. ⊤ };

    fn schedule(&self, _runnable: N, _info: ScheduleInfo) {}
}

// The memory of the tasks: a heap whose requests are counted. It owns the heap, since the prover does not take the drop of a
// group whose allocator has a reference behind a reference.
type Heap = Counting<LocalHeap>;

type HeapGroup<'heap, R> = TaskGroup<R, Number, Nowhere, (), Awaiter<R>, (), &'heap Heap>;

// The number of a member that came out, and whether it was closed.
type CameOut = Option<(usize, bool)>;

// What a spawn came to. Granted: what came out of the group. Refused: whether all was handed back, as `look_at_refused` tells.
type Spawned = Result<CameOut, bool>;

// A heap of that many blocks of 16 bytes.
fn heap_of<R: Abort + Drop + Copy>(rt: R, alloc: Global, blocks: u16) -> Heap {
    Counting::new(LocalHeap::new(alloc, 16 * usize::from(blocks)).expect(&rt, "refused"))
}

// Whether nothing of a heap of that many blocks is taken: all of it can be had at once.
fn is_unused(heap: &Heap, blocks: u16) -> bool {
    let all: Result<Vec<u8, &Heap>, AllocError> = Vec::with_capacity(
        heap,
        16 * usize::from(blocks),
    );
    all.is_ok()
}

// Waits for the next member.
fn next_of<R: Wait + Drop + Copy>(group: &mut HeapGroup<'_, R>) -> CameOut {
    match group.next() {
        Ok(Some(ended)) => Some((ended.number, ended.answer.is_err())),
        _ => None,
    }
}

// Whether a refused spawn handed back what it was given, and says that the group was not full.
fn is_handed_back(refused: &GroupSpawnError<Number, Nowhere>) -> bool {
    !refused.is_full && refused.future.0 == 5 && refused.schedule.numbers == [3; WIDTH]
}

// Spawns what was handed back where there is room: what comes out.
fn spawn_again<'heap, R: Wait + Drop + Copy>(
    group: &mut HeapGroup<'heap, R>,
    roomy: &'heap Heap,
    refused: GroupSpawnError<Number, Nowhere>,
) -> CameOut {
    let GroupSpawnError {
        is_full: _,
        future,
        schedule,
    } = refused;
    match group.spawn(roomy, future, schedule, ()) {
        Ok(_) => next_of(group),
        Err(_) => None,
    }
}

// Whether a refused spawn handed all back with the group as it was, nothing of the heap was taken then, and a member came out
// of the group, as it has to be, after a spawn of what was handed back, where there is room.
fn look_at_refused<'heap, R: Wait + Drop + Copy>(
    group: &mut HeapGroup<'heap, R>,
    refused: GroupSpawnError<Number, Nowhere>,
    heap: &'heap Heap,
    blocks: u16,
    roomy: &'heap Heap,
) -> bool {
    let is_whole = is_handed_back(&refused) && group.is_empty();
    let is_unused = is_unused(heap, blocks);
    let later = spawn_again(group, roomy, refused);
    is_whole && is_unused && later == Some((0, true))
}

// One spawn of a group, over a heap of that many blocks: how many requests it made, and what it came to. The group ends here.
fn spawn_once<'heap, R: Wait + Abort + Drop + Copy>(
    rt: R,
    alloc: Global,
    heap: &'heap Heap,
    blocks: u16,
    roomy: &'heap Heap,
) -> (u64, Spawned) {
    let mut group: HeapGroup<'heap, R> = TaskGroup::new(rt, alloc, 1).expect(&rt, "refused");
    let schedule = Nowhere {
        numbers: [3; WIDTH],
    };
    let spawned = group.spawn(heap, Number(5), schedule, ());
    let requests = heap.allocations();
    let seen = match spawned {
        Ok(_) => Ok(next_of(&mut group)),
        Err(refused) => Err(look_at_refused(&mut group, refused, heap, blocks, roomy)),
    };
    (requests, seen)
}

// The same with heaps of its own, and whether nothing of them is taken when the group has ended.
fn spawn_in<R: Wait + Abort + Drop + Copy>(
    rt: R,
    alloc: Global,
    blocks: u16,
) -> (u64, Spawned, bool) {
    let heap = heap_of(rt, alloc, blocks);
    let roomy = heap_of(rt, alloc, BLOCKS);
    let (requests, spawned) = spawn_once(rt, alloc, &heap, blocks, &roomy);
    let are_unused = is_unused(&heap, blocks) && is_unused(&roomy, BLOCKS);
    (requests, spawned, are_unused)
}

// The one request of a spawn is refused where there is no room. The group has its own memory before.
#[test]
fn a_group_hands_back_what_a_spawn_was_refused(rt: HostRuntime) {
    let refused = spawn_in(rt, rt.alloc(), 1);
    let spawned = spawn_in(rt, rt.alloc(), BLOCKS);
    assert!(rt; refused == (1, Err(true), true));
    assert!(rt; spawned == (1, Ok(Some((0, true))), true));
}
