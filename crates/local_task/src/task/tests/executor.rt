//! An executor of one thread: a queue of indices, and three tasks that wake each other.

use super::{Awaiter, Pair, holds};
use crate::task::{LocalTask, Settled, Start};
use std::alloc::Global;
use std::collections::VecDeque;
use std::process::Abort;
use task_core::traits::{Poll, ScheduleInfo, TaskPoll};

// A future that wakes the task `next` at each poll, and its own at the first, if it says so. It answers its number after some polls.
#[derive(Drop)]
struct Relay {
    number: usize,
    next: usize,
    polls_left: u8,
    wakes_itself: bool,
}

type Task<'c> = LocalTask<Relay, usize, (), Awaiter<'c>>;

// What happened, and to which task.
type Event = (&'static str, usize);

#[derive(Drop)]
struct Executor<'c> {
    awaiters: &'c Pair,
    tasks: Vec<Task<'c>>,
    queue: VecDeque<usize>,
    events: Vec<Event>,
}

fn new_executor<'c>(rt: &impl Abort, alloc: Global, awaiters: &'c Pair) -> Executor<'c> {
    let mut executor = Executor {
        awaiters,
        tasks: Vec::new(alloc),
        queue: VecDeque::new(alloc),
        events: Vec::new(alloc),
    };
    for (number, next) in [(0, 1), (1, 2), (2, 0)] {
        let future = Relay {
            number,
            next,
            polls_left: 2,
            wakes_itself: number == 2,
        };
        executor
            .tasks
            .push(LocalTask::new((), future))
            .expect(rt, "refused");
        executor.queue.push_back(number).expect(rt, "refused");
    }
    executor
}

impl<'c> Executor<'c> {
    fn task(&mut self, rt: &impl Abort, number: usize) -> &mut Task<'c> {
        self.tasks.get_mut(number).expect(rt, "no such task")
    }

    fn note(&mut self, rt: &impl Abort, event: &'static str, number: usize) {
        self.events.push((event, number)).expect(rt, "refused");
    }

    // In the order that `Settled` states.
    fn act(&mut self, rt: &impl Abort, number: usize, settled: Settled<Relay, usize, Awaiter<'c>>) {
        if let Some(future) = settled.future {
            self.note(rt, "dropped", future.number);
        }
        drop(settled.output);
        self.queue_task(rt, number, settled.queue);
        if let Some(awaiter) = settled.wake {
            self.note(rt, "awaiter woken", awaiter.number);
        }
        drop(settled.dropped);
    }

    fn queue_task(&mut self, rt: &impl Abort, number: usize, queue: Option<ScheduleInfo>) {
        if let Some(info) = queue {
            let event = if info.woken_while_running {
                "queued again"
            } else {
                "queued"
            };
            self.note(rt, event, number);
            self.queue.push_back(number).expect(rt, "refused");
        }
    }

    fn wake(&mut self, rt: &impl Abort, number: usize) {
        let queue = self.task(rt, number).wake();
        self.queue_task(rt, number, queue);
    }

    fn poll(&mut self, rt: &impl Abort, future: &mut Relay) -> Poll<usize> {
        self.note(rt, "polled", future.number);
        self.wake(rt, future.next);
        if future.wakes_itself {
            future.wakes_itself = false;
            self.wake(rt, future.number);
        }
        if future.polls_left == 0 {
            return Poll::Ready(future.number);
        }
        future.polls_left -= 1;
        Poll::Pending
    }

    fn run(&mut self, rt: &impl Abort, number: usize) {
        match self.task(rt, number).start() {
            Start::Poll(future) => self.run_future(rt, number, future),
            Start::Ended(settled) => self.act(rt, number, settled),
            Start::NotDue => {}
        }
    }

    fn run_future(&mut self, rt: &impl Abort, number: usize, future: Relay) {
        let mut future = future;
        let polled = self.poll(rt, &mut future);
        let task = self.task(rt, number);
        holds(rt, task.is_started());
        let settled = task.settle(future, polled);
        self.act(rt, number, settled);
    }

    fn run_all(&mut self, rt: &impl Abort) {
        for _ in 0..20 {
            let Some(number) = self.queue.pop_front() else {
                break;
            };
            self.run(rt, number);
        }
    }

    // The Task is polled.
    fn poll_task(&mut self, rt: &impl Abort, number: usize) -> TaskPoll<Option<usize>> {
        let awaiter = self.awaiters.awaiter(number, false);
        let task = self.task(rt, number);
        holds(rt, task.has_task());
        let (answer, settled) = task.poll(&awaiter);
        self.act(rt, number, settled);
        answer
    }

    // All three Tasks are polled.
    fn poll_tasks(&mut self, rt: &impl Abort) -> [TaskPoll<Option<usize>>; 3] {
        [
            self.poll_task(rt, 0),
            self.poll_task(rt, 1),
            self.poll_task(rt, 2),
        ]
    }

    // The Task is dropped: whether nobody is left then.
    fn detach(&mut self, rt: &impl Abort, number: usize) -> bool {
        let task = self.task(rt, number);
        holds(rt, task.has_task());
        task.detach().emptied
    }
}

// The tasks are polled, queued, woken and ended in the order that their futures ask for.
const EVENTS: [Event; 21] = [
    ("polled", 0),
    ("polled", 1),
    ("polled", 2),
    ("queued", 0),
    ("queued again", 2),
    ("polled", 0),
    ("queued", 1),
    ("polled", 2),
    ("queued", 0),
    ("polled", 1),
    ("queued", 2),
    ("polled", 0),
    ("queued", 1),
    ("dropped", 0),
    ("awaiter woken", 0),
    ("polled", 2),
    ("dropped", 2),
    ("awaiter woken", 2),
    ("polled", 1),
    ("dropped", 1),
    ("awaiter woken", 1),
];

const PENDING: [TaskPoll<Option<usize>>; 3] = [
    TaskPoll::Pending,
    TaskPoll::Pending,
    TaskPoll::Pending,
];

const READY: [TaskPoll<Option<usize>>; 3] = [
    TaskPoll::Ready(Some(0)),
    TaskPoll::Ready(Some(1)),
    TaskPoll::Ready(Some(2)),
];

// Stops where the Tasks are not pending, all tasks run in that order, and the Tasks then are ready.
fn run_in_order(rt: &impl Abort, alloc: Global) {
    let awaiters = Pair::new();
    let mut executor = new_executor(rt, alloc, &awaiters);
    holds(rt, executor.poll_tasks(rt) == PENDING);
    executor.run_all(rt);
    holds(
        rt,
        executor.queue.is_empty() && executor.events.as_slice() == EVENTS.as_slice(),
    );
    holds(rt, executor.poll_tasks(rt) == READY);
    holds(
        rt,
        executor.detach(rt, 0) && executor.detach(rt, 1) && executor.detach(rt, 2),
    );
}

#[test]
fn tasks_of_one_thread_wake_each_other(rt: HostRuntime) {
    run_in_order(&rt, rt.alloc());
}
