//! A Task that a pool keeps stays at its place after a poll that is refused its awaiter, and after one that is pending, until one is ready.
ghost use Rattle.std.specs.Prelude.{⊤};

use crate::calls::new_guests;
use crate::guest::{Errand, Guest};
use async_task::{TaskClosed, TaskPoll, Wake};
use executor::{Key, Pool, Turns, keep_task, place_for_task, poll_kept};
use std::alloc::Global;
use std::process::Abort;
use std::sync::Wait;

/// An awaiter that nobody hears. Of one that is single there is no clone: a poll that would keep one is refused.
#[derive(Drop)]
struct Deaf {
    is_single: bool,
}

impl Wake for Deaf {
    type Record = ();

    ghost woken = { λ _ _. ⊤ };

    ghost woken_by_ref = { λ _ _. ⊤ };

    ghost cloned = { λ _ _. ⊤ };

    ghost compared = { λ _ _ _. ⊤ };

    fn wake(self) {}

    fn wake_by_ref(&self) {}

    fn try_clone(&self) -> Result<Deaf, ()> {
        if self.is_single {
            return Err(());
        }
        Ok(Deaf { is_single: false })
    }

    fn will_wake(&self, _other: &Deaf) -> bool {
        false
    }
}

type DeafPool<R> = Pool<R, Guest, Deaf>;

// Runs the next task, and answers whether there was one.
fn run_next<R: Wait + Drop + Copy>(turns: &mut Turns<'_, R, Guest, Deaf>) -> bool {
    match turns.next() {
        Some(runnable) => {
            runnable.run();
            true
        }
        None => false,
    }
}

fn poll_at<R: Wait + Drop + Copy>(
    pool: &DeafPool<R>,
    key: &Key<R>,
    is_single: bool,
) -> Option<TaskPoll<Result<u64, TaskClosed>>> {
    poll_kept((pool, 0), key, &Deaf { is_single })
}

// Whether the Task of a guest that gives way once was kept; what polls of it answer before, between and after its two turns; and whether it had these.
fn keep_and_poll<R: Wait + Abort + Drop + Copy>(rt: R, alloc: Global) -> ([bool; 3], [bool; 5]) {
    let guests = new_guests(&rt, alloc, 0);
    let pool = DeafPool::new(rt, alloc, 1).expect(&rt, "refused");
    let key = place_for_task((&pool, 0)).expect(&rt, "refused");
    let guest = Guest::new(Errand::GiveWay(1), &guests).expect(&rt, "refused");
    let kept = keep_task(pool.spawn(guest).expect(&rt, "refused"), &key).is_ok();
    let mut turns = pool.turns(0).expect(&rt, "refused");
    let refused = matches!(poll_at(&pool, &key, true), Some(TaskPoll::Refused));
    let waits = matches!(poll_at(&pool, &key, false), Some(TaskPoll::Pending));
    let ran = run_next(&mut turns);
    let still_waits = matches!(poll_at(&pool, &key, false), Some(TaskPoll::Pending));
    let ran_again = run_next(&mut turns);
    let answers = matches!(poll_at(&pool, &key, true), Some(TaskPoll::Ready(Ok(1))));
    let is_gone = poll_at(&pool, &key, true).is_none();
    let polls = [refused, waits, still_waits, answers, is_gone];
    ([kept, ran, ran_again], polls)
}

// A poll that is ready needs no awaiter, and the last one finds no Task.
#[test]
fn a_kept_task_stays_until_it_is_ready(rt: HostRuntime) {
    let (went, polls) = keep_and_poll(rt, rt.alloc());
    assert!(rt; went == [true; 3] && polls == [true; 5]);
}
