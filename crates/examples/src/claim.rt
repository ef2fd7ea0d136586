//! A claim: the type of a future states that its output is below 100, and who takes the output from the Task has it with this fact.
ghost use Rattle.std.specs.Prelude.{⊤, ◌<◌, IfSome};

use crate::last::DropsRunnables;
use async_task::{Future, Poll, Task, TaskPoll, Yields, spawn};
use executor_parts::Nobody;
use std::alloc::Global;
use std::sync::Wait;

/// A future that answers what is left of a number after division by 100.
#[derive(Drop)]
struct Rest(u64);

impl Yields for Rest {
    type Output = u64;

    // What holds of each output: a poll whose answer may be 100 is refused.
    ghost meets = { λ output. output < 100 };
}

impl<W> Future<W> for Rest {
    ghost polled = { λ _ _ _ _. ⊤ };

    fn poll(&mut self, _waker: &W) -> Poll<u64> {
        Poll::Ready(self.0 % 100)
    }
}

type RestTask<R> = Task<R, Rest, DropsRunnables, (), Nobody, ()>;

// The output of a task that has ended. That it is below 100 is part of what the poll of a Task promises.
fn output_of<R: Wait + Drop + Copy>(task: &mut RestTask<R>) -> Option<u64>
    ensures { IfSome result (λ output. output < 100) }
{
    match task.poll(&Nobody) {
        TaskPoll::Ready(Ok(output)) => Some(output),
        _ => None,
    }
}

/// What is left of a number after division by 100, by a task. `None` where there is no memory for the task.
pub fn rest_of<R: Wait + Drop + Copy>(rt: R, alloc: Global, number: u64) -> Option<u64>
    ensures { IfSome result (λ output. output < 100) }
{
    let (runnable, task) = spawn(rt, alloc, Rest(number), DropsRunnables, ()).ok()?;
    let mut task: RestTask<R> = task;
    runnable.run();
    output_of(&mut task)
}
