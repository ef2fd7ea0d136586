//! Futures of several types in one executor, each in a box. A waker's type names the type of the future, so the trait of the boxes
//! has none: a step is lent a ticket, and the executor keeps the waker until the ticket is rung. The prover takes no line that is
//! written out with a box as its future; so all here is generic in what takes the steps, and only `main.rt` says that it is a box.
ghost use Rattle.std.specs.Prelude.{⊤};

use crate::line::{KeptWaker, Line, LineTask, LineWaker};
use async_task::{Future, Poll, TaskPoll, Yields};
use executor_parts::Nobody;
use std::alloc::Global;
use std::cell::Cell;
use std::collections::VecDeque;
use std::rc::Rc;
use std::sync::{Mutex, Wait};

/// What a future leaves where it waits. It names no task.
#[derive(Drop)]
pub struct Ticket(Rc<Cell<bool>>);

impl Ticket {
    /// A second ticket for the same task. `None` where it is refused.
    pub fn try_clone(&self) -> Option<Ticket> {
        Some(Ticket(self.0.clone().ok()?))
    }

    /// Asks for the next step.
    pub fn ring(&self) {
        self.0.set(true);
    }
}

/// A future that is lent a ticket in place of a waker.
pub trait Step: Drop {
    /// Carries the computation on. After `Poll::Pending` there is a further step once the ticket is rung.
    fn step(&mut self, ticket: &Ticket) -> Poll<u64>;
}

impl Step for Box<dyn Step> {
    fn step(&mut self, ticket: &Ticket) -> Poll<u64> {
        (**self).step(ticket)
    }
}

/// The future of a task: what takes the steps, and its ticket.
#[derive(Drop)]
struct Ticketed<T: Step> {
    inner: T,
    ticket: Ticket,
}

impl<T: Step> Yields for Ticketed<T> {
    type Output = u64;
}

/// The wakers of the tasks that wait, with their tickets.
#[derive(Drop)]
struct Waiting<R: Wait + Drop + Copy, F: Yields>(Mutex<VecDeque<(Ticket, KeptWaker<R, F>)>>);

type Steps<R, T> = Line<R, Ticketed<T>, Waiting<R, Ticketed<T>>>;

type StepTask<'x, R, T> = LineTask<'x, R, Ticketed<T>, Waiting<R, Ticketed<T>>>;

type StepWaker<'x, R, T> = LineWaker<'x, R, Ticketed<T>, Waiting<R, Ticketed<T>>>;

impl<'x, R: Wait + Drop + Copy, T: Step> Future<StepWaker<'x, R, T>> for Ticketed<T> {
    ghost polled = { λ _ _ _ _. ⊤ };

    fn poll(&mut self, waker: &StepWaker<'x, R, T>) -> Poll<u64> {
        let answer = self.inner.step(&self.ticket);
        // Where a clone is refused nothing wakes the task, which stays pending.
        if answer == Poll::Pending
            && let (Some(ticket), Ok(clone)) = (self.ticket.try_clone(), waker.try_clone())
        {
            let line = waker.around();
            let kept = (ticket, clone.with_around(()));
            drop(line.shared.0.lock(&line.rt).push_back(kept));
        }
        answer
    }
}

// Wakes a task whose ticket is rung, and answers whether there is one.
fn wake<R: Wait + Drop + Copy, T: Step>(line: &Steps<R, T>) -> bool {
    let mut waiting = line.shared.0.lock(&line.rt);
    let rung = waiting.iter().position(|(ticket, _)| ticket.0.take());
    let kept = rung.and_then(|place| waiting.remove(place));
    drop(waiting);
    let Some((_, waker)) = kept else {
        return false;
    };
    waker.with_around(line).wake();
    true
}

// Runs what is due, and wakes what was rung for, until there is neither.
fn run<R: Wait + Drop + Copy, T: Step>(line: &Steps<R, T>) {
    for _ in line.rt.forever() {
        if let Some(runnable) = line.next() {
            runnable.run();
        } else if !wake(line) {
            return;
        }
    }
}

// Spawns a task of these steps, with a ticket of its own.
fn spawn<R: Wait + Drop + Copy, T: Step>(
    line: &Steps<R, T>,
    alloc: Global,
    inner: T,
) -> Option<StepTask<'_, R, T>> {
    let ticket = Ticket(Rc::new(alloc, Cell::new(false)).ok()?);
    line.spawn(alloc, Ticketed { inner, ticket })
}

// What two tasks of a line answer.
fn answers_on<R: Wait + Drop + Copy, T: Step>(
    line: &Steps<R, T>,
    alloc: Global,
    steps: [T; 2],
) -> Option<(u64, u64)> {
    let [first, second] = steps;
    let mut first = spawn(line, alloc, first)?;
    let mut second = spawn(line, alloc, second)?;
    run(line);
    match (first.poll(&Nobody), second.poll(&Nobody)) {
        (TaskPoll::Ready(Ok(first)), TaskPoll::Ready(Ok(second))) => Some((first, second)),
        _ => None,
    }
}

/// What two tasks of these steps answer. `None` where memory was refused.
pub fn answers_of<R: Wait + Drop + Copy, T: Step>(
    rt: R,
    alloc: Global,
    steps: [T; 2],
) -> Option<(u64, u64)> {
    let waiting = Waiting(Mutex::new(VecDeque::new(alloc)));
    answers_on(&Line::new(rt, alloc, waiting), alloc, steps)
}
