//! A single-threaded executor with three priorities and `block_on`; another thread may wake its tasks.
#![tactic(auto)]

ghost use Rattle.std.specs.Prelude.{⊤};

use async_task::{
    Builder, Future, Poll, Runnable, Schedule, ScheduleInfo, Task, TaskClosed, TaskPoll, TaskWaker,
    Yields,
};
use executor_parts::Nobody;
use std::alloc::{AllocError, Global};
use std::collections::VecDeque;
use std::sync::{Condvar, Mutex, Wait};
use std::thread::{self, Threads};
use std::{io, mem};

// The priorities, as numbers of queues: the metadata of a task.
const HIGH: usize = 0;

const NORMAL: usize = 1;

const LOW: usize = 2;

// The handles of the executor, with the surroundings `X` where they may be `()`.
type Work<R, X> = Runnable<R, Step, ToQueue, usize, Nobody, X>;

type Job<'x, R> = Task<R, Step, ToQueue, usize, Nobody, &'x Executor<R>>;

type Waker<R, X> = TaskWaker<R, Step, ToQueue, usize, Nobody, X>;

#[derive(Drop)]
struct Executor<R: Wait + Drop + Copy> {
    rt: R,
    alloc: Global,
    queues: Mutex<[VecDeque<Work<R, ()>>; 3]>,
    pushed: Condvar,
    log: Mutex<Vec<&'static str>>,
    inbox: Mutex<(Option<u64>, Option<Waker<R, ()>>)>,
}

#[derive(Drop)]
struct ToQueue;

impl<'x, R: Wait + Drop + Copy> Schedule<Work<R, &'x Executor<R>>> for ToQueue {
    ghost scheduled = { λ _ _ _. ⊤ };

    fn schedule(&self, work: Work<R, &'x Executor<R>>, _info: ScheduleInfo) {
        let executor = work.around();
        let priority = *work.metadata();
        let mut queues = executor.queues.lock(&executor.rt);
        let pushed = match queues.get_mut(priority) {
            Some(queue) => queue.push_back(work.with_around(())),
            None => Ok(()),
        };
        drop(queues);
        drop(pushed);
        executor.pushed.notify_one();
    }
}

impl<R: Wait + Drop + Copy> Schedule<Work<R, ()>> for ToQueue {
    ghost scheduled = { λ _ _ _. ⊤ };

    fn schedule(&self, _work: Work<R, ()>, _info: ScheduleInfo) {}
}

impl<R: Wait + Drop + Copy> Executor<R> {
    fn spawn(&self, priority: usize, step: Step) -> Result<Job<'_, R>, AllocError> {
        let builder = Builder::new().metadata(priority);
        let spawned = builder.spawn(self.rt, self.alloc, |_: &usize| step, ToQueue, self);
        let (runnable, task) = spawned.ok().ok_or(AllocError)?;
        runnable.schedule();
        Ok(task)
    }

    // The next Runnable: the first one of the highest priority that has any.
    fn wait(&self) -> Work<R, &Executor<R>> {
        let mut queues = self.queues.lock(&self.rt);
        for _ in self.rt.forever() {
            for queue in queues.iter_mut() {
                if let Some(work) = queue.pop_front() {
                    return work.with_around(self);
                }
            }
            queues = self.pushed.wait(&self.rt, queues);
        }
        unreachable!()
    }

    // Runs tasks on this thread until that of a Task is over, and sleeps where none is due.
    fn block_on(&self, task: &mut Job<'_, R>) -> Result<u64, TaskClosed> {
        for _ in self.rt.forever() {
            if let TaskPoll::Ready(answer) = task.poll(&Nobody) {
                return answer;
            }
            self.wait().run();
        }
        unreachable!()
    }

    fn receive<'x>(&'x self, waker: &Waker<R, &'x Executor<R>>) -> Poll<u64> {
        let mut inbox = self.inbox.lock(&self.rt);
        if let Some(message) = inbox.0.take() {
            return Poll::Ready(message);
        }
        let Ok(clone) = waker.try_clone() else {
            drop(inbox);
            waker.wake_by_ref();
            return Poll::Pending;
        };
        let before = inbox.1.replace(clone.with_around(()));
        drop(inbox);
        drop(before);
        Poll::Pending
    }

    fn send(&self, message: u64) {
        let mut inbox = self.inbox.lock(&self.rt);
        inbox.0 = Some(message);
        let waker = inbox.1.take();
        drop(inbox);
        if let Some(waker) = waker {
            waker.with_around(self).wake();
        }
    }
}

#[derive(Drop)]
enum Step {
    // Gives way the given number of times, and writes its name into the log each time.
    Count(&'static str, u64),
    // Waits for the message.
    Receive,
}

impl Yields for Step {
    type Output = u64;
}

impl<'x, R: Wait + Drop + Copy> Future<Waker<R, &'x Executor<R>>> for Step {
    ghost polled = { λ _ _ _ _. ⊤ };

    fn poll(&mut self, waker: &Waker<R, &'x Executor<R>>) -> Poll<u64> {
        let executor = waker.around();
        match self {
            Step::Count(_, 0) => Poll::Ready(0),
            Step::Count(name, left) => {
                *left -= 1;
                let _ = executor.log.lock(&executor.rt).push(*name);
                waker.wake_by_ref();
                Poll::Pending
            }
            Step::Receive => executor.receive(waker),
        }
    }
}

// Spawns four tasks, and waits for two of them.
fn run_all<R: Wait + Drop + Copy>(executor: &Executor<R>) -> Option<(u64, u64)> {
    let mut low = executor.spawn(LOW, Step::Count("low", 2)).ok()?;
    let normal = executor.spawn(NORMAL, Step::Count("normal", 2)).ok()?;
    let high = executor.spawn(HIGH, Step::Count("high", 2)).ok()?;
    let mut receive = executor.spawn(HIGH, Step::Receive).ok()?;
    let answer = executor.block_on(&mut receive).ok()?;
    let ended = executor.block_on(&mut low).ok()?;
    drop(normal);
    drop(high);
    Some((answer, ended))
}

// Runs the tasks on this thread, while another one sends them a message. Where there is no other, this one sends it first.
fn run_both<R: Wait + Threads + Drop + Copy + Send + Sync>(
    rt: R,
    executor: &Executor<R>,
) -> Option<(u64, u64)> {
    thread::scope(thread::scope_env(), &rt, |scope| {
        if scope.spawn(move || executor.send(42)).is_err() {
            executor.send(42);
        }
        run_all(executor)
    })
}

// What the tasks have written, which is not in the log then.
fn take_log<R: Wait + Drop + Copy>(executor: &Executor<R>) -> Vec<&'static str> {
    let mut log = executor.log.lock(&executor.rt);
    mem::replace(&mut *log, Vec::new(executor.alloc))
}

fn main(rt: HostRuntime) -> io::Result<()> {
    let alloc = rt.alloc();
    let executor = Executor {
        rt,
        alloc,
        queues: Mutex::new([
            VecDeque::new(alloc),
            VecDeque::new(alloc),
            VecDeque::new(alloc),
        ]),
        pushed: Condvar::new(),
        log: Mutex::new(Vec::new(alloc)),
        inbox: Mutex::new((None, None)),
    };
    let answers = run_both(rt, &executor);
    println!(rt; "{answers:?}")?;
    println!(rt; "{:?}", take_log(&executor))
}
