//! `block_on` of a pool, of Tasks and of a Cancel: alone, and where the pool ends meanwhile. Beside another worker it stands in `awaiting_tests`. And a loop of one's own that does the same.
use crate::future_tests::calls::{
    block_on, drop_both, drop_pool, drop_turns, link_task, new_counts, new_pool, shut_down, tick,
    turns_of,
};
use crate::future_tests::link::{Counts, Errand, LinkTask, LinkTurns};
use async_task::TaskPoll;
use executor::{BellAwaiter, BlockOnError};
use std::alloc::Global;
use std::process::Abort;
use std::sync::{Arc, Wait};

// What a wait for a Task answers.
type Answer = Result<u64, BlockOnError>;

// What two waits for one task answer, beside another one that comes before; and how many owners have what they count.
fn wait_twice<R: Wait + Abort + Drop + Copy + 'static>(
    rt: R,
    alloc: Global,
) -> (Answer, Answer, usize) {
    let pool = new_pool(rt, alloc, 1);
    let counts = new_counts(&pool);
    let before = link_task(&pool, 1, 0, Errand::GiveWay(3), &counts);
    let mut task = link_task(&pool, 1, 0, Errand::GiveWay(10), &counts);
    let mut turns = turns_of(&pool);
    let first = block_on(&mut turns, &mut task);
    let second = block_on(&mut turns, &mut task);
    before.detach();
    drop_both(turns, task);
    let left = Arc::strong_count(&counts);
    drop_pool(pool);
    (first, second, left)
}

// The thread that waits runs the other task of the pool, too, as far as it comes before.
#[test]
fn block_on_runs_the_task_itself(rt: HostRuntime) {
    let (first, second, left) = wait_twice(rt, rt.alloc());
    assert!(rt; first == Ok(1) && second == Err(BlockOnError::Closed) && left == 1);
}

// What waits answer for a task that ends the pool, and for one that stays pending.
fn wait_for_the_end<R: Wait + Abort + Drop + Copy + 'static>(
    rt: R,
    alloc: Global,
) -> (Answer, Answer) {
    let pool = new_pool(rt, alloc, 1);
    let counts = new_counts(&pool);
    let mut ending = link_task(&pool, 1, 0, Errand::ShutDown, &counts);
    let mut staying = link_task(&pool, 1, 0, Errand::Stay, &counts);
    let mut turns = turns_of(&pool);
    let closed = block_on(&mut turns, &mut ending);
    let cancelled = block_on(&mut turns, &mut staying);
    drop_both(turns, ending);
    drop(staying);
    drop_pool(pool);
    (closed, cancelled)
}

#[test]
fn block_on_ends_with_the_pool(rt: HostRuntime) {
    let (closed, cancelled) = wait_for_the_end(rt, rt.alloc());
    assert!(rt; closed == Err(BlockOnError::Closed) && cancelled == closed);
}

// Cancels a task, and is the worker until its future is gone: what that wait answers, and how many owners have what the links count then. The Cancel is there
// still.
fn block_on_cancel<'x, R: Wait + Drop + Copy + 'static>(
    turns: &mut LinkTurns<'x, R>,
    task: LinkTask<'x, R>,
    counts: &Arc<Counts>,
) -> (Result<Option<u64>, BlockOnError>, usize) {
    let mut cancel = task.cancel();
    let answer = turns.block_on(&mut cancel);
    let left = Arc::strong_count(counts);
    drop(cancel);
    (answer, left)
}

// Whether a task ran that stays pending, and what comes of the wait for its Cancel.
fn wait_for_cancel<R: Wait + Abort + Drop + Copy + 'static>(
    rt: R,
    alloc: Global,
) -> (bool, (Result<Option<u64>, BlockOnError>, usize)) {
    let pool = new_pool(rt, alloc, 1);
    let counts = new_counts(&pool);
    let task = link_task(&pool, 1, 0, Errand::Stay, &counts);
    let mut turns = turns_of(&pool);
    let ran = tick(&mut turns);
    let seen = block_on_cancel(&mut turns, task, &counts);
    drop_turns(turns);
    drop_pool(pool);
    (ran, seen)
}

#[test]
fn block_on_of_a_cancel_waits_until_the_future_is_gone(rt: HostRuntime) {
    assert!(rt; wait_for_cancel(rt, rt.alloc()) == (true, (Ok(None), 1)));
}

// Is the worker until the task of a Task is over, or the pool is shut down: what that answers.
fn await_by_turns<'x, R: Wait + Drop + Copy>(
    turns: &mut LinkTurns<'x, R>,
    task: &mut LinkTask<'x, R>,
) -> Option<u64> {
    let (pool, worker) = turns.place();
    let awaiter = BellAwaiter::new(pool, worker)?;
    for _ in pool.rt().forever() {
        let interruptions = pool.bells().interruptions();
        match task.poll(&awaiter) {
            TaskPoll::Pending if pool.is_shut_down() => return None,
            TaskPoll::Pending => {
                if let Some(runnable) = turns.take_turn(interruptions) {
                    runnable.run();
                }
            }
            TaskPoll::Ready(answer) => return answer.ok(),
            TaskPoll::Refused => return None,
        }
    }
    unreachable!()
}

// What a loop of one's own has of a task beside another one, and of one that stays pending, after a shutdown.
fn await_in_a_loop<R: Wait + Abort + Drop + Copy>(
    rt: R,
    alloc: Global,
) -> (Option<u64>, Option<u64>) {
    let pool = new_pool(rt, alloc, 1);
    let counts = new_counts(&pool);
    let mut staying = link_task(&pool, 1, 0, Errand::Stay, &counts);
    let mut task = link_task(&pool, 1, 0, Errand::GiveWay(10), &counts);
    let mut turns = turns_of(&pool);
    let output = await_by_turns(&mut turns, &mut task);
    shut_down(&pool);
    let none = await_by_turns(&mut turns, &mut staying);
    drop_both(turns, task);
    drop(staying);
    drop_pool(pool);
    (output, none)
}

#[test]
fn a_loop_of_ones_own_awaits_a_task(rt: HostRuntime) {
    assert!(rt; await_in_a_loop(rt, rt.alloc()) == (Some(1), None));
}
