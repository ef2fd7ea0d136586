//! The order of tasks: that in which they are spawned, and that of their turns on one worker.
ghost use Rattle.std.specs.Prelude.{⊤};

use crate::calls::{
    drop_pool, drop_task, drop_turns, guest_task, new_guests, new_pool, tick, turns_of,
};
use crate::guest::{Errand, output_of, shares_and_polls};
use async_task::{Future, Poll, TaskPoll, Yields};
use executor::{Pool, PoolTask};
use executor_parts::Nobody;
use std::alloc::Global;
use std::collections::VecDeque;
use std::process::Abort;
use std::sync::Wait;

/// A future that answers its number.
#[derive(Drop)]
struct Numbered {
    number: u64,
}

impl Yields for Numbered {
    type Output = u64;
}

impl<W> Future<W> for Numbered {
    ghost polled = { λ _ _ _ _. ⊤ };

    fn poll(&mut self, _waker: &W) -> Poll<u64> {
        Poll::Ready(self.number)
    }
}

type NumberedPool<R> = Pool<R, Numbered, Nobody>;

type NumberedTask<'x, R> = PoolTask<'x, R, Numbered, Nobody>;

// The Task of a future that answers 9, and behind it those of futures that answer 1 to 5, which are spawned together.
fn spawn_numbered<'x, R: Wait + Abort + Drop + Copy>(
    pool: &'x NumberedPool<R>,
) -> Vec<NumberedTask<'x, R>> {
    let rt = pool.rt();
    let mut futures = VecDeque::new(pool.alloc());
    for number in 1..6u64 {
        futures
            .push_back(Numbered { number })
            .expect(&rt, "refused");
    }
    let mut tasks = Vec::new(pool.alloc());
    let first = pool.spawn(Numbered { number: 9 }).expect(&rt, "refused");
    tasks.push(first).expect(&rt, "refused");
    pool.spawn_many(pool.workers(), &mut futures, &mut tasks)
        .expect(&rt, "refused");
    tasks
}

// What the tasks have answered, in the order of their Tasks, which are dropped. 0 stands for no answer.
fn answers_of<R: Wait + Abort + Drop + Copy>(
    rt: &R,
    alloc: Global,
    mut tasks: Vec<NumberedTask<'_, R>>,
) -> Vec<u64> {
    let mut answers = Vec::new(alloc);
    for task in tasks.iter_mut() {
        let answer = match task.poll(&Nobody) {
            TaskPoll::Ready(Ok(number)) => number,
            _ => 0,
        };
        answers.push(answer).expect(rt, "refused");
    }
    answers
}

// How many of seven turns ran a task, and what the tasks have answered.
fn run_numbered<R: Wait + Abort + Drop + Copy>(rt: R, alloc: Global) -> (u8, Vec<u64>) {
    let pool = NumberedPool::new(rt, alloc, 1).expect(&rt, "refused");
    let tasks = spawn_numbered(&pool);
    let mut turns = pool.turns(0).expect(&rt, "refused");
    let mut ran = 0u8;
    for _ in 0..7 {
        ran = ran.saturating_add(u8::from(turns.tick()));
    }
    (ran, answers_of(&rt, alloc, tasks))
}

// One Task is there before them.
#[test]
fn tasks_that_are_spawned_together_keep_their_order(rt: HostRuntime) {
    let (ran, answers) = run_numbered(rt, rt.alloc());
    assert!(rt; ran == 6 && answers.as_slice() == [9, 1, 2, 3, 4, 5].as_slice());
}

// What a task from outside answers beside one that wakes itself, and the polls, after 200 turns.
fn run_beside_busy<R: Wait + Abort + Drop + Copy + 'static>(
    rt: R,
    alloc: Global,
) -> (Option<u64>, (usize, u64)) {
    let guests = new_guests(&rt, alloc, 0);
    let pool = new_pool(rt, alloc, 1);
    let busy = guest_task(&pool, 0, Errand::GiveWay(1000), &guests);
    let mut task = guest_task(&pool, 1, Errand::GiveWay(0), &guests);
    let mut turns = turns_of(&pool, 0);
    for _ in 0..200 {
        tick(&mut turns);
    }
    let seen = (output_of(&mut task), shares_and_polls(&guests));
    drop_turns(turns);
    drop_task(task);
    drop_task(busy);
    drop_pool(pool);
    seen
}

// The one worker always has the task that wakes itself in its queue: each of the 200 turns is a poll. Once in 61 looks the worker looks outside first.
#[test]
fn a_task_that_wakes_itself_leaves_another_its_turn(rt: HostRuntime) {
    assert!(rt; run_beside_busy(rt, rt.alloc()) == (Some(1), (2, 200)));
}
