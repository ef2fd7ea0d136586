//! A task whose future adds two numbers: it is spawned, run once, and polled for its output, which is proved to be the sum.
#![tactic(auto)]

ghost use Rattle.std.specs.Prelude.{◌≡◌, ◌+◌, ⊤, IfOk};
ghost use Rattle.task_cell.specs.PollPaths.{IfOutput};
ghost use Rattle.task_core.specs.declared.traits.Poll.{Poll};

use async_task::{
    Future, Poll, Schedule, ScheduleInfo, Task, TaskClosed, TaskPoll, Wake, Yields, spawn,
};
use std::alloc::{AllocError, Allocator};
use std::io;
use std::sync::Wait;

/// A future that adds two numbers.
#[derive(Drop)]
struct Sum(u32, u32);

impl Yields for Sum {
    type Output = u64;

    ghost moves = { λ sum answer _. answer ≡ Poll.Ready (sum.0 + sum.1) };
}

impl<W> Future<W> for Sum {
    ghost polled = { λ _ _ _ _. ⊤ };

    fn poll(&mut self, _waker: &W) -> Poll<u64> {
        Poll::Ready(u64::from(self.0) + u64::from(self.1))
    }
}

/// What stands here for an executor. As a schedule value it drops each Runnable, which cancels the task; as an awaiter it wakes nobody.
#[derive(Drop)]
struct Nobody;

impl<N: Drop> Schedule<N> for Nobody {
    ghost scheduled = { λ _ _ _. ⊤ };

    fn schedule(&self, _runnable: N, _info: ScheduleInfo) {}
}

impl Wake for Nobody {
    type Record = ();

    ghost woken = { λ _ _. ⊤ };

    ghost woken_by_ref = { λ _ _. ⊤ };

    ghost cloned = { λ _ _. ⊤ };

    ghost compared = { λ _ _ _. ⊤ };

    fn wake(self) {}

    fn wake_by_ref(&self) {}

    fn try_clone(&self) -> Result<Nobody, ()> {
        Ok(Nobody)
    }

    fn will_wake(&self, _other: &Nobody) -> bool {
        true
    }
}

/// Spawns the future, runs it, and polls its Task: an output is the sum of the two numbers.
fn add<R: Wait + Drop + Copy, B: Allocator + Copy>(
    rt: R,
    alloc: B,
    first: u32,
    second: u32,
) -> Result<TaskPoll<Result<u64, TaskClosed>>, AllocError>
    ensures sum { IfOk result (λ answer. IfOutput answer (λ output. output ≡ first + second)) }
{
    let spawned = spawn(rt, alloc, Sum(first, second), Nobody, ())?;
    let (runnable, mut task): (_, Task<_, _, _, _, Nobody, (), _>) = spawned;
    runnable.run();
    Ok(task.poll(&Nobody))
}

fn main(rt: HostRuntime) -> io::Result<()> {
    println!(rt; "{:?}", add(rt, rt.alloc(), 20, 22)?)
}
