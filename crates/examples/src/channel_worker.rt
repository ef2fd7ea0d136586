//! One thread that waits on a channel of Runnables, and another that spawns tasks on it.
//! The schedule value sends to the channel; the worker sleeps where it is empty, and ends by a message.
ghost use Rattle.std.specs.Prelude.{⊤};

use async_task::{Future, Poll, Runnable, Schedule, ScheduleInfo, Task, Wake, Yields, spawn};
use crossbeam_channel::{Receiver, Sender, unbounded};
use executor_parts::{Awaiter, block_on};
use std::alloc::Global;
use std::sync::Wait;
use std::thread::{self, Threads};

/// A future that gives way as often as its number says, and answers the square of the number.
#[derive(Drop)]
struct Square {
    number: u64,
    left: u64,
}

impl Yields for Square {
    type Output = u64;
}

impl<W: Wake> Future<W> for Square {
    ghost polled = { λ _ _ _ _. ⊤ };

    fn poll(&mut self, waker: &W) -> Poll<u64> {
        if self.left == 0 {
            return Poll::Ready(self.number.wrapping_mul(self.number));
        }
        self.left -= 1;
        waker.wake_by_ref();
        Poll::Pending
    }
}

type Queued<R> = Runnable<R, Square, ToWorker, (), Awaiter<R>, ()>;

/// What the channel carries: a Runnable, or `None`, which ends the worker.
#[derive(Drop)]
struct Line<R: Wait + Drop + Copy> {
    rt: R,
    sender: Sender<Option<Queued<R>>>,
    receiver: Receiver<Option<Queued<R>>>,
}

/// The schedule value: a Runnable is sent to the worker.
#[derive(Drop)]
struct ToWorker;

type Work<'x, R> = Runnable<R, Square, ToWorker, (), Awaiter<R>, &'x Line<R>>;

impl<'x, R: Wait + Drop + Copy> Schedule<Work<'x, R>> for ToWorker {
    ghost scheduled = { λ _ _ _. ⊤ };

    fn schedule(&self, runnable: Work<'x, R>, _info: ScheduleInfo) {
        let line = runnable.around();
        // Where the channel cannot grow the Runnable is dropped, which cancels its task.
        drop(line.sender.send(&line.rt, Some(runnable.with_around(()))));
    }
}

impl<R: Wait + Drop + Copy> Line<R> {
    // Runs what is sent, until the message that ends it.
    fn work(&self) {
        for _ in self.rt.forever() {
            match self.receiver.recv(&self.rt) {
                Ok(Some(queued)) => {
                    queued.with_around(self).run();
                }
                _ => return,
            }
        }
    }

    // Spawns a task, and waits for its output.
    fn ask(&self, alloc: Global, number: u64) -> Option<u64> {
        let future = Square {
            number,
            left: number,
        };
        let (runnable, task) = spawn(self.rt, alloc, future, ToWorker, self).ok()?;
        let mut task: Task<_, _, _, _, Awaiter<R>, _> = task;
        runnable.schedule();
        block_on(self.rt, alloc, &mut task).ok()
    }

    // Asks, and ends the worker, also where there was no answer.
    fn ask_once(&self, alloc: Global, number: u64) -> Option<u64> {
        let answer = self.ask(alloc, number);
        drop(self.sender.send(&self.rt, None));
        answer
    }
}

// Asks, while another thread works. `None` where there is no such thread, too.
fn ask_worker<R: Wait + Threads + Drop + Copy + Send + Sync>(
    line: &Line<R>,
    alloc: Global,
    number: u64,
) -> Option<u64> {
    thread::scope(thread::scope_env(), &line.rt, |scope| {
        if scope.spawn(move || line.work()).is_err() {
            return None;
        }
        line.ask_once(alloc, number)
    })
}

/// The square of a number, by a task on another thread. `None` where there is no memory, or no such thread.
pub fn square_of<R: Wait + Threads + Drop + Copy + Send + Sync>(
    rt: R,
    alloc: Global,
    number: u64,
) -> Option<u64> {
    let (sender, receiver) = unbounded(alloc).ok()?;
    let line = Line {
        rt,
        sender,
        receiver,
    };
    ask_worker(&line, alloc, number)
}
