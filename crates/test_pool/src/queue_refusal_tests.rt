//! Tests of queues that are refused memory: what the items stand in is of a small heap, which is filled. And which queue a worker looks at first.

ghost use Rattle.work_queues.specs.Duties.{IsClaim};

use linked_list_allocator::LocalHeap;
use std::alloc::{AllocError, Global};
use std::sync::{Arc, Wait};
use work_queues::bells::Claim;
use work_queues::{Bells, Board, Crew, Worker};

/// Room for two queues, and for what a worker has in its hands.
const HEAP: usize = 4096;

/// How many items each queue has room for.
const ROOM: usize = 2;

/// The least that a heap hands out: room for the items of one queue.
const BLOCK: usize = 16;

type HeapBoard<'heap> = Board<u64, &'heap LocalHeap>;

type HeapCrew<'heap> = Crew<u64, &'heap LocalHeap>;

type HeapWorker<'heap> = Worker<u64, &'heap LocalHeap>;

// What fills a heap.
type Filling<'heap> = Vec<Vec<u8, &'heap LocalHeap>>;

// Takes what is left of a heap: whatever is asked of it afterwards is refused.
fn fill(alloc: Global, heap: &LocalHeap) -> Result<Filling<'_>, AllocError> {
    let mut filling = Vec::new(alloc);
    for _ in 0..HEAP {
        let Ok(block) = Vec::with_capacity(heap, 1) else {
            break;
        };
        filling.push(block)?;
    }
    Ok(filling)
}

// Pushes 1 and 2 at the queue of the one worker, and answers whether both were taken.
fn push_two<R: Wait>(rt: &R, crew: &HeapCrew<'_>) -> bool {
    crew.push(rt, 0, 1).is_ok() && crew.push(rt, 0, 2).is_ok()
}

// Takes the items of the queue of the one worker.
fn pop_four<R: Wait>(rt: &R, crew: &HeapCrew<'_>) -> [Option<u64>; 4] {
    [
        crew.pop(rt, 0),
        crew.pop(rt, 0),
        crew.pop(rt, 0),
        crew.pop(rt, 0),
    ]
}

// The queue has room for two items. Each time the third is the one that is refused.
#[test]
fn a_refused_push_hands_the_item_back(rt: HostRuntime) {
    let heap = LocalHeap::new(rt.alloc(), HEAP).expect(&rt, "refused");
    let crew = HeapCrew::new(rt.alloc(), &heap, 1, ROOM).expect(&rt, "refused");
    let two = push_two(&rt, &crew);
    let filling = fill(rt.alloc(), &heap).expect(&rt, "refused");
    let refused = crew.push(&rt, 0, 3);
    let left = pop_four(&rt, &crew);
    let two_again = push_two(&rt, &crew);
    let refused_again = crew.push(&rt, 0, 4);
    drop(filling);
    let pushed = crew.push(&rt, 0, 5);
    let all = pop_four(&rt, &crew);
    drop(crew);
    assert!(rt; two && refused.err() == Some(3) && left == [Some(1), Some(2), None, None]);
    assert!(rt; two_again && refused_again.err() == Some(4));
    assert!(rt; pushed.is_ok() && all == [Some(1), Some(2), Some(5), None]);
    assert!(rt; heap.used() == 0);
}

// Pushes an item at the queue for what comes from outside: what became of it, and whether a worker was woken.
fn push_and_ring<R: Wait>(rt: &R, board: &HeapBoard<'_>, item: u64) -> (Result<(), u64>, bool) {
    let (pushed, woken) = board.push(rt, board.workers(), item);
    let wakes = woken.is_some();
    if let Some(woken) = woken {
        board.ring(woken);
    }
    match pushed {
        Ok(_) => (Ok(()), wakes),
        Err(back) => (Err(back), wakes),
    }
}

// The worker counts as asleep beside a full queue, so the push makes it awake, though the queue is refused memory.
#[test]
fn a_refused_push_wakes_a_worker(rt: HostRuntime) {
    let heap = LocalHeap::new(rt.alloc(), HEAP).expect(&rt, "refused");
    let bells = Bells::new(rt.alloc(), 1).expect(&rt, "refused");
    let bells = Arc::new(rt.alloc(), bells).expect(&rt, "refused");
    let own = Arc::try_clone(&bells).expect(&rt, "refused");
    let board = HeapBoard::new(rt.alloc(), &heap, own, ROOM).expect(&rt, "refused");
    let claim = bells.claim(0).expect(&rt, "refused");
    let first = push_and_ring(&rt, &board, 1);
    let second = push_and_ring(&rt, &board, 2);
    let filling = fill(rt.alloc(), &heap).expect(&rt, "refused");
    let lies = lie_down_and_push(&rt, &board, &bells, &claim);
    bells.settle(bells.give_back(claim));
    drop(filling);
    assert!(rt; first == (Ok(()), false) && second == (Ok(()), false));
    assert!(rt; lies == Some((Err(3), true)));
}

// The worker lies down, 3 is pushed, and it gets up.
fn lie_down_and_push<R: Wait>(
    rt: &R,
    board: &HeapBoard<'_>,
    bells: &Bells,
    claim: &Claim,
) -> Option<(Result<(), u64>, bool)>
    requires { IsClaim bells.now claim.now }
{
    match bells.lie_down(rt, None, claim) {
        Ok(sleeper) => {
            let third = push_and_ring(rt, board, 3);
            bells.settle(bells.get_up(sleeper));
            Some(third)
        }
        Err(look) => {
            bells.settle(look);
            None
        }
    }
}

// Pushes 1 to 10 at the queue for what comes from outside, and answers whether all were taken.
fn push_ten<R: Wait>(rt: &R, crew: &HeapCrew<'_>) -> bool {
    let mut taken = true;
    for item in 1..11u64 {
        taken = crew.push(rt, crew.workers(), item).is_ok() && taken;
    }
    taken
}

// What a worker finds in eleven looks. 0 stands for nothing.
fn find_eleven<'heap, R: Wait>(
    rt: &R,
    crew: &HeapCrew<'heap>,
    worker: &mut HeapWorker<'heap>,
) -> [u64; 11] {
    let mut found = [0; 11];
    for place in &mut found {
        *place = crew.find(rt, worker).unwrap_or(0);
    }
    found
}

// The first batch is 1 to 5: it runs 1, its queue has room for 2 and 3, and 4 and 5 stay in its hands. The second is 6 to 8.
#[test]
fn a_thief_that_is_refused_memory_loses_nothing(rt: HostRuntime) {
    let heap = LocalHeap::new(rt.alloc(), HEAP).expect(&rt, "refused");
    let crew = HeapCrew::new(rt.alloc(), &heap, 1, ROOM).expect(&rt, "refused");
    let mut worker = crew.worker(&heap, 0).expect(&rt, "refused");
    let taken = push_ten(&rt, &crew);
    let filling = fill(rt.alloc(), &heap).expect(&rt, "refused");
    let found = find_eleven(&rt, &crew, &mut worker);
    drop(filling);
    drop(crew.end_turns(&rt, worker));
    drop(crew);
    assert!(rt; taken && found == [1, 4, 5, 2, 3, 6, 7, 8, 9, 10, 0]);
    assert!(rt; heap.used() == 0);
}

// Pushes 11 at the queue for what comes from outside until it is refused memory, and takes its first item: then it has room for one.
fn leave_room_for_one<R: Wait>(rt: &R, crew: &HeapCrew<'_>) -> Option<u64> {
    for _ in 0..HEAP {
        if crew.push(rt, crew.workers(), 11).is_err() {
            break;
        }
    }
    crew.pop(rt, crew.workers())
}

// Takes all items of the queue for what comes from outside: the last one.
fn last_outside<R: Wait>(rt: &R, crew: &HeapCrew<'_>) -> Option<u64> {
    let mut last = None;
    for _ in 0..HEAP {
        match crew.pop(rt, crew.workers()) {
            Some(item) => last = Some(item),
            None => break,
        }
    }
    last
}

// It has 4 and 5 in its hands, and the queue for what comes from outside has room for one.
#[test]
fn a_worker_that_leaves_keeps_what_does_not_fit(rt: HostRuntime) {
    let heap = LocalHeap::new(rt.alloc(), HEAP).expect(&rt, "refused");
    let crew = HeapCrew::new(rt.alloc(), &heap, 1, ROOM).expect(&rt, "refused");
    let mut worker = crew.worker(&heap, 0).expect(&rt, "refused");
    let pushed = push_ten(&rt, &crew);
    let filling = fill(rt.alloc(), &heap).expect(&rt, "refused");
    let first = crew.find(&rt, &mut worker);
    let popped = leave_room_for_one(&rt, &crew);
    let mut kept = crew.end_turns(&rt, worker);
    let own = crew.pop(&rt, 0);
    let last = last_outside(&rt, &crew);
    drop(filling);
    let before = (first, popped) == (Some(1), Some(6));
    let after = (kept.pop_front(), kept.len(), own, last) == (Some(5), 0, Some(2), Some(4));
    assert!(rt; pushed && before && after);
}

// Whether a crew of one worker is refused its queues by this heap.
fn refuses_a_crew(alloc: Global, heap: &LocalHeap) -> bool {
    HeapCrew::new(alloc, heap, 1, ROOM).is_err()
}

// Whether a worker of this crew is refused its hands by this heap.
fn refuses_a_worker<'heap, R: Wait>(
    rt: &R,
    crew: &HeapCrew<'heap>,
    heap: &'heap LocalHeap,
) -> bool {
    match crew.worker(heap, 0) {
        Ok(worker) => {
            drop(crew.end_turns(rt, worker));
            false
        }
        Err(_) => true,
    }
}

// Of the heap of one block the first of two queues takes it, and the second is refused.
#[test]
fn a_crew_without_memory_is_refused(rt: HostRuntime) {
    let heap = LocalHeap::new(rt.alloc(), HEAP).expect(&rt, "refused");
    let crew = HeapCrew::new(rt.alloc(), &heap, 1, ROOM).expect(&rt, "refused");
    let filling = fill(rt.alloc(), &heap).expect(&rt, "refused");
    let full = heap.used();
    let refused = refuses_a_crew(rt.alloc(), &heap) && refuses_a_worker(&rt, &crew, &heap);
    let left = heap.used();
    drop(filling);
    drop(crew);
    let one_block = LocalHeap::new(rt.alloc(), BLOCK).expect(&rt, "refused");
    let half_refused = refuses_a_crew(rt.alloc(), &one_block);
    let two_blocks = LocalHeap::new(rt.alloc(), 2 * BLOCK).expect(&rt, "refused");
    let built = !refuses_a_crew(rt.alloc(), &two_blocks);
    assert!(rt; refused && left == full && heap.used() == 0);
    assert!(rt; half_refused && one_block.used() == 0);
    assert!(rt; built && two_blocks.used() == 0);
}

// How many zeros, which are items from outside, a worker finds in so many looks, and at which look it found the first and the last one.
fn looks_outside<R: Wait>(
    rt: &R,
    crew: &Crew<u64>,
    worker: &mut Worker<u64>,
    looks: u64,
) -> [u64; 3] {
    let mut found = [0u64; 3];
    for look in 1..=looks {
        if crew.find(rt, worker) == Some(0) {
            found[0] = found[0].saturating_add(1);
            found[1] = if found[1] == 0 { look } else { found[1] };
            found[2] = look;
        }
    }
    found
}

// The worker always has items of its own, and two wait outside.
#[test]
fn each_61st_look_is_first_for_what_came_from_outside(rt: HostRuntime) {
    let crew = Crew::new(rt.alloc(), rt.alloc(), 1, ROOM).expect(&rt, "refused");
    let mut taken = crew.push(&rt, 1, 0).is_ok() && crew.push(&rt, 1, 0).is_ok();
    for own in 1..201u64 {
        taken = crew.push(&rt, 0, own).is_ok() && taken;
    }
    let mut worker = crew.worker(rt.alloc(), 0).expect(&rt, "refused");
    let found = looks_outside(&rt, &crew, &mut worker, 150);
    drop(crew.end_turns(&rt, worker));
    assert!(rt; taken && found == [2, 61, 122]);
}

// How many zeros, which stand in the queues of others, worker 0 finds in so many looks, and how many of them at a 976th look. It always has items of its own, unless one is refused.
fn look_beside_others<R: Wait>(
    rt: &R,
    crew: &Crew<u64>,
    worker: &mut Worker<u64>,
    looks: u64,
) -> (u64, u64) {
    let mut found = (0u64, 0u64);
    for look in 1..=looks {
        if crew.find(rt, worker) == Some(0) {
            found.0 = found.0.saturating_add(1);
            found.1 = found.1.saturating_add(u64::from(look % 976 == 0));
        } else if crew.push(rt, 0, 1).is_err() {
            break;
        }
    }
    found
}

// Nobody runs workers 1 and 2. At each 976th look the queue of one of the three workers is first, of each in turn.
#[test]
fn a_busy_worker_finds_what_stands_in_the_queues_of_others(rt: HostRuntime) {
    let crew = Crew::new(rt.alloc(), rt.alloc(), 3, ROOM).expect(&rt, "refused");
    let others = crew.push(&rt, 1, 0).is_ok() && crew.push(&rt, 2, 0).is_ok();
    let own = crew.push(&rt, 0, 1).is_ok();
    let mut worker = crew.worker(rt.alloc(), 0).expect(&rt, "refused");
    let found = look_beside_others(&rt, &crew, &mut worker, 3 * 976);
    drop(crew.end_turns(&rt, worker));
    assert!(rt; others && own && found == (2, 2));
}
