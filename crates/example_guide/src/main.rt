//! A small executor: one thread runs the tasks and sleeps where none is due, another one waits for their answers.
#![tactic(auto)]

ghost use Rattle.std.specs.Prelude.{⊤, ◌≡◌};
ghost use Rattle.task_core.specs.Poll.{IfReady};

use async_task::{Future, Poll, Runnable, Schedule, ScheduleInfo, Task, TaskWaker, Yields, spawn};
use executor_parts::{Awaiter, block_on};
use std::alloc::{AllocError, Global};
use std::collections::VecDeque;
use std::sync::{Condvar, Mutex, Wait};
use std::{io, mem, thread};

// The handles of the executor. `X` is what a handle carries: `&Executor<R>`, and `()` in the state.
type Work<R, X> = Runnable<R, Delay, ToQueue, (), Awaiter<R>, X>;

type Job<R, X> = Task<R, Delay, ToQueue, (), Awaiter<R>, X>;

type Waker<R, X> = TaskWaker<R, Delay, ToQueue, (), Awaiter<R>, X>;

#[derive(Drop)]
struct State<R: Wait + Drop + Copy> {
    queue: VecDeque<Work<R, ()>>,
    kept: Vec<Waker<R, ()>>,
    time: Option<u64>, // `None` after the shutdown
}

#[derive(Drop)]
struct Executor<R: Wait + Drop + Copy> {
    rt: R,
    alloc: Global,
    state: Mutex<State<R>>,
    changed: Condvar,
}

#[derive(Drop)]
struct ToQueue;

impl<'x, R: Wait + Drop + Copy> Schedule<Work<R, &'x Executor<R>>> for ToQueue {
    ghost scheduled = { λ _ _ _. ⊤ };

    fn schedule(&self, runnable: Work<R, &'x Executor<R>>, _info: ScheduleInfo) {
        let executor = runnable.around();
        let mut state = executor.state.lock(&executor.rt);
        if state.time.is_none() {
            drop(state);
            return;
        }
        let pushed = state.queue.push_back(runnable.with_around(()));
        drop(state);
        drop(pushed);
        executor.changed.notify_one();
    }
}

impl<R: Wait + Drop + Copy> Schedule<Work<R, ()>> for ToQueue {
    ghost scheduled = { λ _ _ _. ⊤ };

    fn schedule(&self, _runnable: Work<R, ()>, _info: ScheduleInfo) {}
}

impl<R: Wait + Drop + Copy> Executor<R> {
    fn new(rt: R, alloc: Global) -> Executor<R> {
        Executor {
            rt,
            alloc,
            state: Mutex::new(State {
                queue: VecDeque::new(alloc),
                kept: Vec::new(alloc),
                time: Some(0),
            }),
            changed: Condvar::new(),
        }
    }

    fn spawn(&self, until: u64) -> Result<Job<R, &Executor<R>>, AllocError> {
        let spawned = spawn(self.rt, self.alloc, Delay(until), ToQueue, self);
        let (runnable, task) = spawned.ok().ok_or(AllocError)?;
        runnable.schedule();
        Ok(task)
    }

    // Runs what is in the queue, and sleeps where it is empty, until the shutdown.
    fn run(&self) {
        for _ in self.rt.forever() {
            let is_idle = |state: &mut State<R>| state.queue.is_empty() && state.time.is_some();
            let state = self.state.lock(&self.rt);
            let mut state = self.changed.wait_while(&self.rt, state, is_idle);
            let next = state.queue.pop_front();
            drop(state);
            let Some(runnable) = next else { return };
            runnable.with_around(self).run();
        }
    }

    // Sets the time, and wakes the tasks that wait. `None` stays: it ends `run`, and cancels the tasks.
    fn set_time(&self, time: Option<u64>) {
        let mut state = self.state.lock(&self.rt);
        state.time = state.time.and(time);
        let kept = mem::replace(&mut state.kept, Vec::new(self.alloc));
        drop(state);
        self.changed.notify_all();
        for waker in kept {
            waker.with_around(self).wake();
        }
    }
}

#[derive(Drop)]
struct Delay(u64);

impl Yields for Delay {
    type Output = u64;
}

impl<'x, R: Wait + Drop + Copy> Future<Waker<R, &'x Executor<R>>> for Delay {
    // A poll that is ready answers the time that the future waited for, and no poll changes it.
    ghost polled = { λ old _ answer new. IfReady answer (λ time. time ≡ old.0) × (new.0 ≡ old.0) };

    fn poll(&mut self, waker: &Waker<R, &'x Executor<R>>) -> Poll<u64> {
        let executor = waker.around();
        let mut state = executor.state.lock(&executor.rt);
        if state.time.is_some_and(|time| self.0 <= time) {
            return Poll::Ready(self.0);
        }
        let kept = match waker.try_clone() {
            Ok(clone) if state.time.is_some() => state.kept.push(clone.with_around(())).is_ok(),
            _ => false,
        };
        drop(state);
        if !kept {
            waker.wake_by_ref();
        }
        Poll::Pending
    }
}

fn main(rt: HostRuntime) -> io::Result<()> {
    let executor = &Executor::new(rt, rt.alloc());
    let mut soon = executor.spawn(1)?;
    let mut never = executor.spawn(3)?;
    let answers = thread::scope(thread::scope_env(), &rt, move |scope| {
        if scope.spawn(move || executor.run()).is_err() {
            executor.set_time(None);
            executor.run();
        }
        executor.set_time(Some(2));
        let soon = block_on(rt, rt.alloc(), &mut soon);
        executor.set_time(None);
        (soon, block_on(rt, rt.alloc(), &mut never))
    });
    println!(rt; "{answers:?}")
}
