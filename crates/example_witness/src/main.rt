//! A queue of tasks that are due. By a witness it knows of its first one that nobody else has a Runnable of that task, and that nobody polls it.
#![tactic(auto)]

ghost use Rattle.std.specs.Prelude.{⊤, ℕ, IfSome};
ghost use Rattle.example_witness.specs.Sole.{IsSoleRunnable};

use async_task::{Future, Poll, Runnable, Schedule, ScheduleInfo, Task, Wake, Yields, spawn};
use std::alloc::AllocError;
use std::collections::VecDeque;
use std::io;
use std::sync::Wait;
use task_core::word::Word;

/// A future that adds two numbers.
#[derive(Drop)]
struct Sum(u32, u32);

impl Yields for Sum {
    type Output = u64;
}

impl<W> Future<W> for Sum {
    ghost polled = { λ _ _ _ _. ⊤ };

    fn poll(&mut self, _waker: &W) -> Poll<u64> {
        Poll::Ready(u64::from(self.0) + u64::from(self.1))
    }
}

/// As a schedule value it drops each Runnable, which cancels the task; as an awaiter it wakes nobody.
#[derive(Drop)]
struct Nobody;

impl<N: Drop> Schedule<N> for Nobody {
    ghost scheduled = { λ _ _ _. ⊤ };

    fn schedule(&self, _runnable: N, _info: ScheduleInfo) {}
}

impl Wake for Nobody {
    type Record = ();

    ghost woken = { λ _ _. ⊤ };

    ghost woken_by_ref = { λ _ _. ⊤ };

    ghost cloned = { λ _ _. ⊤ };

    ghost compared = { λ _ _ _. ⊤ };

    fn wake(self) {}

    fn wake_by_ref(&self) {}

    fn try_clone(&self) -> Result<Nobody, ()> {
        Ok(Nobody)
    }

    fn will_wake(&self, _other: &Nobody) -> bool {
        true
    }
}

/// The Runnables of tasks that are due, the oldest first.
#[derive(Drop)]
struct Queue<R: Wait + Drop + Copy> {
    due: VecDeque<Runnable<R, Sum, Nobody, (), Nobody, ()>>,
}

impl<R: Wait + Drop + Copy> Queue<R> {
    /// The word of the first task. `None` where the queue is empty.
    fn first_word(&mut self) -> Option<Word>
        ensures sole { IfSome result (λ word. (limit : ℕ) × IsSoleRunnable limit word) }
    {
        let first = self.due.front_mut()?;
        Some(first.witness())
    }

    /// Runs the first task.
    fn run_first(&mut self) {
        if let Some(first) = self.due.pop_front() {
            first.run();
        }
    }
}

fn main(rt: HostRuntime) -> io::Result<()> {
    let mut queue = Queue {
        due: VecDeque::new(rt.alloc()),
    };
    let spawned = spawn(rt, rt.alloc(), Sum(20, 22), Nobody, ())?;
    let (runnable, mut task): (_, Task<_, _, _, _, Nobody, ()>) = spawned;
    queue.due.push_back(runnable).ok().ok_or(AllocError)?;
    if let Some(word) = queue.first_word() {
        println!(rt;
            "queued: scheduled {}, running {}",
            word.scheduled(),
            word.running()
        )?;
    }
    queue.run_first();
    println!(rt; "{:?}", task.poll(&Nobody))
}
