//! Futures of two kinds in one executor, as the variants of an enum. It costs a branch a poll, and each task the memory
//! of the largest variant; a new kind of future is a new variant, so all kinds are named in one place.
ghost use Rattle.std.specs.Prelude.{⊤};

use crate::last::DropsRunnables;
use async_task::{Future, Poll, Task, TaskPoll, Yields, spawn};
use executor_parts::Nobody;
use std::alloc::Global;
use std::sync::Wait;

/// The futures of the executor.
#[derive(Drop)]
pub enum Kind {
    /// Adds two numbers.
    Sum(u32, u32),
    /// Counts the bytes of a text.
    Bytes(&'static str),
}

/// What they answer.
#[derive(Clone, Copy, Debug, PartialEq, Eq)]
pub enum Answer {
    /// Of a sum.
    Number(u64),
    /// Of a text.
    Length(usize),
}

impl Yields for Kind {
    type Output = Answer;
}

impl<W> Future<W> for Kind {
    ghost polled = { λ _ _ _ _. ⊤ };

    fn poll(&mut self, _waker: &W) -> Poll<Answer> {
        match self {
            Kind::Sum(left, right) => Poll::Ready(Answer::Number(
                u64::from(*left) + u64::from(*right),
            )),
            Kind::Bytes(text) => Poll::Ready(Answer::Length(text.len())),
        }
    }
}

/// What a task of this kind answers. `None` where there is no memory for the task.
pub fn answer_of<R: Wait + Drop + Copy>(rt: R, alloc: Global, kind: Kind) -> Option<Answer> {
    let (runnable, task) = spawn(rt, alloc, kind, DropsRunnables, ()).ok()?;
    let mut task: Task<_, _, _, _, Nobody, ()> = task;
    runnable.run();
    match task.poll(&Nobody) {
        TaskPoll::Ready(Ok(answer)) => Some(answer),
        _ => None,
    }
}
