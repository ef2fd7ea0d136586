//! A task that waits for a future of the kit. No wake of the kit reaches a task, so that future runs on a thread of its own, under the kit's `block_on`.
//! The task keeps its waker in a slot before it asks. Once the kit's future has answered, its thread fills the slot and wakes the task.
ghost use Rattle.std.specs.Prelude.{⊤};

use crate::line::{KeptWaker, Line, LineWaker};
use async_task::{Future, Poll, TaskPoll, Yields};
use executor_parts::Nobody;
use futures::channel::oneshot::{self, Receiver, Sender};
use futures::executor::block_on;
use futures::future::{join, ready};
use std::alloc::{AllocGlobal, Global};
use std::mem;
use std::random::RandomSource;
use std::sync::{Mutex, Wait};
use std::thread::{self, Threads};

/// A future that sends a number to a future of the kit, and answers what that made of it: `None` where it failed.
#[derive(Drop)]
struct Asks {
    number: u64,
    question: Option<Sender<u64>>,
}

impl Yields for Asks {
    type Output = Option<u64>;
}

/// Where the task looks for the answer.
#[derive(Drop)]
enum Slot<R: Wait + Drop + Copy> {
    /// No answer yet, and no waker.
    Empty,
    /// No answer yet, and the waker of the task that waits.
    Awaited(KeptWaker<R, Asks>),
    /// The answer.
    Filled(Option<u64>),
}

type Asking<R> = Line<R, Asks, Mutex<Slot<R>>>;

type AskWaker<'x, R> = LineWaker<'x, R, Asks, Mutex<Slot<R>>>;

impl<'x, R: Wait + Drop + Copy> Future<AskWaker<'x, R>> for Asks {
    ghost polled = { λ _ _ _ _. ⊤ };

    fn poll(&mut self, waker: &AskWaker<'x, R>) -> Poll<Option<u64>> {
        if let Some(answer) = look(waker) {
            return Poll::Ready(answer);
        }
        // The waker is in the slot by now, so the answer to this finds it there. If no one receives it, the slot is filled all the same.
        if let Some(question) = self.question.take() {
            drop(question.send(self.number));
        }
        Poll::Pending
    }
}

// Takes the answer. Where there is none yet, the slot keeps a clone of the waker; where that is refused, the task looks again.
fn look<R: Wait + Drop + Copy>(waker: &AskWaker<'_, R>) -> Option<Option<u64>> {
    let line = waker.around();
    let mut slot = line.shared.lock(&line.rt);
    if let Slot::Filled(answer) = &*slot {
        return Some(*answer);
    }
    let Ok(clone) = waker.try_clone() else {
        drop(slot);
        waker.wake_by_ref();
        return None;
    };
    let before = mem::replace(&mut *slot, Slot::Awaited(clone.with_around(())));
    drop(slot);
    drop(before);
    None
}

// On the thread of the kit: waits for the number and doubles it, fills the slot, and wakes the task. The slot is filled whatever failed.
fn double<R>(line: &Asking<R>, asked: Receiver<u64>)
where
    R: Wait + RandomSource + AllocGlobal + Drop + Copy,
{
    let answer = match block_on(&line.rt, join(asked, ready(2u64))) {
        Ok((Ok(number), factor)) => Some(number.wrapping_mul(factor)),
        _ => None,
    };
    let mut slot = line.shared.lock(&line.rt);
    let before = mem::replace(&mut *slot, Slot::Filled(answer));
    drop(slot);
    if let Slot::Awaited(waker) = before {
        waker.with_around(line).wake();
    }
}

// On the thread of the task: runs it until it has ended, asleep while the queue is empty.
fn ask<R: Wait + Drop + Copy>(line: &Asking<R>, alloc: Global, future: Asks) -> Option<u64> {
    let mut task = line.spawn(alloc, future)?;
    for _ in line.rt.forever() {
        match task.poll(&Nobody) {
            TaskPoll::Ready(Ok(answer)) => return answer,
            TaskPoll::Pending => {
                line.wait().run();
            }
            _ => return None,
        }
    }
    unreachable!()
}

// Runs the task on this thread, and the future of the kit on another one. `None` where there is no such thread, too.
fn ask_beside<R>(line: &Asking<R>, alloc: Global, future: Asks, asked: Receiver<u64>) -> Option<u64>
where
    R: Wait + RandomSource + AllocGlobal + Threads + Drop + Copy + Send + Sync,
{
    thread::scope(thread::scope_env(), &line.rt, |scope| {
        if scope.spawn(move || double(line, asked)).is_err() {
            return None;
        }
        ask(line, alloc, future)
    })
}

/// The double of a number, by a task that asks a future of the kit. `None` where memory or a thread was refused.
pub fn double_of<R>(rt: R, alloc: Global, number: u64) -> Option<u64>
where
    R: Wait + RandomSource + AllocGlobal + Threads + Drop + Copy + Send + Sync,
{
    let (sender, asked) = oneshot::channel(alloc).ok()?;
    let question = Some(sender);
    let line = Line::new(rt, alloc, Mutex::new(Slot::Empty));
    ask_beside(&line, alloc, Asks { number, question }, asked)
}
