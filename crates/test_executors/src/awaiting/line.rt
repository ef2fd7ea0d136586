//! An executor of one queue, with a waker and a Task kept for each number, and the mailbox that awaiters post to.
ghost use Rattle.std.specs.Prelude.{⊤};

use async_task::{
    Future, Poll, Runnable, Schedule, ScheduleInfo, Task, TaskPoll, TaskWaker, Yields, spawn,
};
use executor_parts::{Awaiter, Mailbox, TaskGroup};
use std::alloc::Global;
use std::collections::VecDeque;
use std::mem;
use std::process::Abort;
use std::sync::atomic::{AtomicU64, Ordering};
use std::sync::{Arc, Mutex, Wait};

/// What a member of a line does when it is polled.
#[derive(Clone, Copy)]
pub enum Errand {
    /// Answers at once.
    Answer(u64),
    /// Gives way once, and then answers.
    GiveWay(u64),
    /// Awaits the task of another number, and answers one more than it does. It answers 0 where that task was closed.
    Await(usize),
    /// Stays pending, and keeps no waker.
    Stay,
}

/// A future of a line.
#[derive(Drop)]
pub struct Member {
    number: usize,
    errand: Errand,
}

impl Yields for Member {
    type Output = u64;
}

/// The schedule value of a line.
#[derive(Drop)]
pub struct ToLine;

/// A Runnable of a line.
pub type LineRunnable<'x, R> = Runnable<R, Member, ToLine, (), Awaiter<R>, &'x Line<R>>;

/// A Task of a line.
pub type LineTask<'x, R> = Task<R, Member, ToLine, (), Awaiter<R>, &'x Line<R>>;

/// A waker of a line.
pub type LineWaker<'x, R> = TaskWaker<R, Member, ToLine, (), Awaiter<R>, &'x Line<R>>;

/// A group of Tasks of a line.
pub type LineGroup<'x, R> = TaskGroup<R, Member, ToLine, (), Awaiter<R>, &'x Line<R>>;

type KeptRunnable<R> = Runnable<R, Member, ToLine, (), Awaiter<R>, ()>;

type KeptTask<R> = Task<R, Member, ToLine, (), Awaiter<R>, ()>;

type KeptWaker<R> = TaskWaker<R, Member, ToLine, (), Awaiter<R>, ()>;

/// A queue, a store of wakers and one of Tasks, and a mailbox of the numbers whose wakers are to be woken.
pub struct Line<R: Wait + Drop + Copy> {
    /// What the line may wait by.
    pub rt: R,
    /// Where its tasks have their memory.
    pub alloc: Global,
    mailbox: Arc<Mailbox<R>>,
    /// How many tasks have answered a number of their own.
    pub answered: AtomicU64,
    queue: Mutex<VecDeque<KeptRunnable<R>>>,
    wakers: Mutex<Vec<Option<KeptWaker<R>>>>,
    tasks: Mutex<Vec<Option<KeptTask<R>>>>,
}

impl<R: Wait + Drop + Copy> Drop for Line<R> {
    // As a derived drop, which would stand field by field in each function that drops a line.
    fn drop(self) {
        let Line {
            rt: _,
            alloc: _,
            mailbox,
            answered,
            queue,
            wakers,
            tasks,
        } = self;
        drop(mailbox);
        drop(answered);
        drop(queue);
        drop(wakers);
        drop(tasks);
    }
}

impl<'x, R: Wait + Drop + Copy> Schedule<LineRunnable<'x, R>> for ToLine {
    ghost scheduled = { λ _ _ _. ⊤ };

    fn schedule(&self, runnable: LineRunnable<'x, R>, _info: ScheduleInfo) {
        let line = runnable.around();
        let pushed = line
            .queue
            .lock(&line.rt)
            .push_back(runnable.with_around(()));
        drop(pushed);
    }
}

impl<R: Wait + Drop + Copy> Schedule<KeptRunnable<R>> for ToLine {
    ghost scheduled = { λ _ _ _. ⊤ };

    fn schedule(&self, runnable: KeptRunnable<R>, _info: ScheduleInfo) {
        drop(runnable);
    }
}

impl<'x, R: Wait + Drop + Copy> Future<LineWaker<'x, R>> for Member {
    ghost polled = { λ _ _ _ _. ⊤ };

    fn poll(&mut self, waker: &LineWaker<'x, R>) -> Poll<u64> {
        match self.errand {
            Errand::Answer(number) => {
                waker.around().answered.fetch_add(1, Ordering::SeqCst);
                Poll::Ready(number)
            }
            Errand::GiveWay(number) => {
                self.errand = Errand::Answer(number);
                waker.wake_by_ref();
                Poll::Pending
            }
            Errand::Await(other) => waker.around().await_task(self.number, other, waker),
            Errand::Stay => Poll::Pending,
        }
    }
}

// Puts a value into a store: what was there, or the value itself where the store has no such number.
fn swap_at<R: Wait, V: Drop>(
    rt: &R,
    store: &Mutex<Vec<Option<V>>>,
    number: usize,
    value: Option<V>,
) -> Option<V> {
    match store.lock(rt).get_mut(number) {
        Some(place) => mem::replace(place, value),
        None => value,
    }
}

// A store with so many empty places. Stops where there is no memory.
fn empty_store<R: Abort, V: Drop>(rt: &R, alloc: Global, room: usize) -> Vec<Option<V>> {
    let mut store = Vec::with_capacity(alloc, room).expect(rt, "refused");
    for _ in 0..room {
        store.push(None).expect(rt, "refused");
    }
    store
}

impl<R: Wait + Abort + Drop + Copy> Line<R> {
    /// A line for the numbers below `room`. Stops where there is no memory.
    pub fn new(rt: R, alloc: Global, room: usize) -> Line<R> {
        let mailbox = Mailbox::new(rt, alloc, room).expect(&rt, "refused");
        let wakers = empty_store(&rt, alloc, room);
        let tasks = empty_store(&rt, alloc, room);
        Line {
            rt,
            alloc,
            mailbox,
            answered: AtomicU64::new(0),
            queue: Mutex::new(VecDeque::new(alloc)),
            wakers: Mutex::new(wakers),
            tasks: Mutex::new(tasks),
        }
    }

    /// Spawns a task of this number and schedules it. Stops where it is refused.
    pub fn spawn(&self, number: usize, errand: Errand) -> LineTask<'_, R> {
        let future = Member { number, errand };
        let spawned = spawn(self.rt, self.alloc, future, ToLine, self);
        let (runnable, task) = spawned.expect(&self.rt, "refused");
        runnable.schedule();
        task
    }

    /// Spawns a task of this number, schedules it and keeps its Task. Stops where it is refused.
    pub fn spawn_kept(&self, number: usize, errand: Errand) {
        self.keep_task(number, self.spawn(number, errand));
    }

    /// Takes the Task of a number out of the store. Stops where there is none.
    pub fn task_of(&self, number: usize) -> LineTask<'_, R> {
        match self.take_task(number) {
            Some(task) => task,
            None => panic!(self.rt; "no Task was kept"),
        }
    }
}

impl<R: Wait + Drop + Copy> Line<R> {
    /// Spawns a task of a group: the number that it got there, or `None` where the spawn was refused.
    pub fn spawn_in<'x>(&'x self, group: &mut LineGroup<'x, R>, errand: Errand) -> Option<usize> {
        let future = Member { number: 0, errand };
        group.spawn(self.alloc, future, ToLine, self).ok()
    }

    // Keeps the Task of a number, and drops the one that was there.
    fn keep_task<'x>(&'x self, number: usize, task: LineTask<'x, R>) {
        let kept = Some(task.with_around(()));
        drop(swap_at(&self.rt, &self.tasks, number, kept));
    }

    // Takes the Task of a number out of the store.
    fn take_task(&self, number: usize) -> Option<LineTask<'_, R>> {
        Some(swap_at(&self.rt, &self.tasks, number, None)?.with_around(self))
    }

    // One poll of the Task of `other`, on behalf of the task of `number`, whose waker is kept.
    fn await_task<'x>(
        &'x self,
        number: usize,
        other: usize,
        waker: &LineWaker<'x, R>,
    ) -> Poll<u64> {
        if !self.keep_waker(number, waker) {
            return Poll::Ready(0);
        }
        self.poll_kept(number, other)
    }

    /// One poll of the Task of `other`, which stays in the store where it is pending, by an awaiter of `number`: one more than its
    /// answer, or 0.
    pub fn poll_kept(&self, number: usize, other: usize) -> Poll<u64> {
        match Awaiter::new(&self.mailbox, number) {
            Some(awaiter) => self.poll_by(other, &awaiter),
            None => Poll::Ready(0),
        }
    }

    // Keeps a clone of the waker of a number, and drops the one that was there: whether there is a clone.
    fn keep_waker<'x>(&'x self, number: usize, waker: &LineWaker<'x, R>) -> bool {
        let Ok(clone) = waker.try_clone() else {
            return false;
        };
        let kept = Some(clone.with_around(()));
        drop(swap_at(&self.rt, &self.wakers, number, kept));
        true
    }

    // The same poll, by that awaiter.
    fn poll_by(&self, number: usize, awaiter: &Awaiter<R>) -> Poll<u64> {
        let Some(mut task) = self.take_task(number) else {
            return Poll::Ready(0);
        };
        let polled = task.poll(awaiter);
        if matches!(polled, TaskPoll::Pending) {
            self.keep_task(number, task);
            return Poll::Pending;
        }
        drop(task);
        match polled {
            TaskPoll::Ready(Ok(answer)) => Poll::Ready(answer.saturating_add(1)),
            _ => Poll::Ready(0),
        }
    }

    /// Runs what is queued, and wakes what was posted, until neither is left.
    pub fn run(&self) {
        for _ in self.rt.forever() {
            if !self.run_next() && !self.wake_next() {
                return;
            }
        }
    }

    // The Runnable that has waited longest.
    fn pop(&self) -> Option<KeptRunnable<R>> {
        self.queue.lock(&self.rt).pop_front()
    }

    /// Drops the Runnable that has waited longest, which cancels its task.
    pub fn drop_next(&self) {
        drop(self.pop());
    }

    // Runs the Runnable that has waited longest: whether there was one.
    fn run_next(&self) -> bool {
        let Some(runnable) = self.pop() else {
            return false;
        };
        runnable.with_around(self).run();
        true
    }

    // Wakes the waker of the number that was posted first: whether there was one.
    fn wake_next(&self) -> bool {
        let Some(number) = self.mailbox.take() else {
            return false;
        };
        if let Some(waker) = swap_at(&self.rt, &self.wakers, number, None) {
            waker.with_around(self).wake();
        }
        true
    }
}
