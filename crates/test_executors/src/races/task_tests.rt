//! Races of each call that ends a Task, or awaits its output, with a run and a wake, on three threads.
ghost use Rattle.std.specs.Prelude.{⊤};

use crate::races::awaiter::RaceAwaiter;
use crate::races::handles;
use crate::races::raced::{RaceCancel, RaceOutput, RaceSurroundings, RaceTask};
use crate::races::rounds::{Calls, Rounds, Tally};
use async_task::{TaskClosed, TaskPoll};
use rows_fixtures::counters::Counter;
use std::alloc::Global;
use std::process::Abort;
use std::sync::Wait;
use std::thread;
use std::thread::{Threads, yield_now};

// How many rounds each race has. By hand there may be more.
const ROUNDS: u64 = 10_000;

// How often a thread looks for what it waits for, at most.
const TURNS: u32 = 10_000_000;

// What the first thread does with the Task.
#[derive(Clone, Copy)]
enum Act {
    Drop,
    Detach,
    // One poll.
    Poll,
    // A cancel, with one poll of it.
    Cancel,
    // Polls until there is an output, each after a wake.
    Await,
}

// What was answered to the first thread, and the handle that it has left. It is not dropped, but taken apart by `is_right`.
enum Left<'x, R: Wait + Drop + Copy> {
    Nothing,
    Task(RaceTask<'x, R>, TaskPoll<Result<RaceOutput, TaskClosed>>),
    Cancel(RaceCancel<'x, R>, TaskPoll<Option<RaceOutput>>),
}

impl Act {
    // Does it.
    fn perform<'x, R: Wait + Drop + Copy>(
        self,
        task: RaceTask<'x, R>,
        awaiter: &RaceAwaiter,
    ) -> Left<'x, R> {
        let mut task = task;
        match self {
            Act::Drop => {
                drop(task);
                Left::Nothing
            }
            Act::Detach => {
                handles::detach(task);
                Left::Nothing
            }
            Act::Poll => {
                let polled = handles::poll(&mut task, awaiter);
                Left::Task(task, polled)
            }
            Act::Cancel => {
                let mut cancel = task.cancel();
                let polled = handles::poll_cancel(&mut cancel, awaiter);
                Left::Cancel(cancel, polled)
            }
            Act::Await => {
                let polled = poll_until_ready(&mut task, awaiter);
                Left::Task(task, polled)
            }
        }
    }
}

// Polls a Task, and where it is pending once more after a wake.
fn poll_until_ready<R: Wait + Drop + Copy>(
    task: &mut RaceTask<'_, R>,
    awaiter: &RaceAwaiter,
) -> TaskPoll<Result<RaceOutput, TaskClosed>> {
    let polled = handles::poll(task, awaiter);
    if matches!(polled, TaskPoll::Pending) && await_wake(awaiter) {
        return handles::poll(task, awaiter);
    }
    polled
}

// Waits until the awaiter is woken. False where it never was.
fn await_wake(awaiter: &RaceAwaiter) -> bool {
    for _ in 0..TURNS {
        if awaiter.is_woken() {
            return true;
        }
        yield_now();
    }
    false
}

impl<'x, R: Wait + Drop + Copy> Left<'x, R> {
    // Whether the first thread was answered as it must be, once all threads have acted: what was pending is ready now, and
    // its awaiter was woken.
    fn is_right(self, awaiter: &RaceAwaiter) -> bool {
        match self {
            Left::Nothing => true,
            Left::Task(task, polled) => is_task_right(task, polled, awaiter),
            Left::Cancel(cancel, polled) => is_cancel_right(cancel, polled, awaiter),
        }
    }
}

// Whether a Task was answered as it must be: with an output, now or at a poll after a wake. Drops the Task.
fn is_task_right<R: Wait + Drop + Copy>(
    mut task: RaceTask<'_, R>,
    polled: TaskPoll<Result<RaceOutput, TaskClosed>>,
    awaiter: &RaceAwaiter,
) -> bool {
    let waits = matches!(polled, TaskPoll::Pending);
    let ready = matches!(polled, TaskPoll::Ready(Ok(_)));
    drop(polled);
    ready
        || waits
            && awaiter.is_woken()
            && matches!(handles::poll(&mut task, awaiter), TaskPoll::Ready(Ok(_)))
}

// Whether a Cancel was answered as it must be: ready, or without an output at a poll after a wake. Drops the Cancel.
fn is_cancel_right<R: Wait + Drop + Copy>(
    mut cancel: RaceCancel<'_, R>,
    polled: TaskPoll<Option<RaceOutput>>,
    awaiter: &RaceAwaiter,
) -> bool {
    let waits = matches!(polled, TaskPoll::Pending);
    let ready = matches!(polled, TaskPoll::Ready(_));
    drop(polled);
    ready
        || waits
            && awaiter.is_woken()
            && matches!(
                handles::poll_cancel(&mut cancel, awaiter),
                TaskPoll::Ready(None)
            )
}

// What the threads of a race share.
#[derive(Drop)]
struct Race<R: Wait + Drop + Copy> {
    rt: R,
    rounds: Rounds,
    surroundings: RaceSurroundings<R>,
    runs: Calls,
    wakes: Calls,
    acted: Counter,
    tally: Tally,
}

impl<R: Wait + Drop + Copy> Race<R> {
    // What the second thread does: it runs whatever is queued, until the other two have acted and nothing is left.
    fn run_all(&self) {
        for round in 0..ROUNDS {
            self.rounds.open(&self.rt, round);
            self.rounds.start(round, 2);
            self.run_queued(round.wrapping_add(1).wrapping_mul(2));
            self.rounds.close(&self.rt, round);
        }
    }

    // Runs what is queued, until so many acts were done and nothing is left.
    fn run_queued(&self, acts: u64) {
        for _ in 0..TURNS {
            let is_over = self.acted.get() == acts;
            if let Some(runnable) = self.surroundings.receive() {
                self.runs.begun.add_one();
                handles::run(runnable);
                self.runs.ended.add_one();
            } else if is_over {
                return;
            } else {
                yield_now();
            }
        }
    }

    // What the third thread does: what the future waits for happens, and the task is woken.
    fn wake_all(&self) {
        for round in 0..ROUNDS {
            self.rounds.open(&self.rt, round);
            let waker = self.surroundings.take_kept();
            self.rounds.start(round, 3);
            self.wakes.begun.add_one();
            self.surroundings.happen();
            if let Some(waker) = waker {
                waker.wake();
            }
            self.wakes.ended.add_one();
            self.acted.add_one();
            self.rounds.close(&self.rt, round);
        }
    }
}

impl<R: Wait + Abort + Drop + Copy> Race<R> {
    fn new(rt: R, alloc: Global) -> Race<R> {
        Race {
            rt,
            rounds: Rounds::new(3),
            surroundings: RaceSurroundings::new(rt, alloc),
            runs: Calls::new(),
            wakes: Calls::new(),
            acted: Counter::new(),
            tally: Tally::new(),
        }
    }

    // What the first thread does in one round. Whether its act overlapped a run or the wake is counted, and whether all ended as it must.
    fn act_once(&self, alloc: Global, act: Act, round: u64) {
        let awaiter = RaceAwaiter::new(&self.rt, alloc);
        let (runnable, task) = self.surroundings.spawn(false);
        self.surroundings
            .keep(handles::waker_of(&self.rt, &runnable));
        self.surroundings.queue(runnable);
        self.rounds.open(&self.rt, round);
        self.rounds.start(round, 1);
        let runs_before = self.runs.ended.get();
        let wakes_before = self.wakes.ended.get();
        let left = act.perform(task, &awaiter);
        let met = self.runs.overlap(runs_before) || self.wakes.overlap(wakes_before);
        self.acted.add_one();
        self.rounds.close(&self.rt, round);
        let answered = left.is_right(&awaiter);
        let none_lost = awaiter.all_ended();
        let ended = self.surroundings.ended(round.wrapping_add(1));
        self.tally.count(met, answered && none_lost && ended);
    }
}

// All rounds of a race, by three threads.
fn play<R: Wait + Threads + Abort + Drop + Copy + Send + Sync>(
    race: &Race<R>,
    alloc: Global,
    act: Act,
) {
    let rt = race.rt;
    thread::scope(thread::scope_env(), &rt, |scope| {
        if scope.spawn(move || race.run_all()).is_err() {
            return;
        }
        if scope.spawn(move || race.wake_all()).is_err() {
            panic!(rt; "no third thread");
        }
        for round in 0..ROUNDS {
            race.act_once(alloc, act, round);
        }
    });
}

// A race: each round must come to its end as it must, and some must meet what the race is for.
fn race_act<R: Wait + Threads + Abort + Drop + Copy + Send + Sync>(rt: R, alloc: Global, act: Act) {
    let race = Race::new(rt, alloc);
    play(&race, alloc, act);
    let all_right = race.tally.rounds.get() == ROUNDS && race.tally.faults.get() == 0;
    let [outputs, polls, schedules] = race.surroundings.counts();
    // Each Runnable is polled once where the task stays open until its future is ready, whatever the schedule.
    let leaves_open = matches!(act, Act::Detach | Act::Poll | Act::Await);
    let all_polled = polls == ROUNDS.wrapping_add(schedules);
    // These end with an output, whatever the schedule.
    let gets_output = matches!(act, Act::Poll | Act::Await);
    assert!(rt; all_right && (all_polled || !leaves_open));
    assert!(rt; outputs == ROUNDS || !gets_output, "{outputs} outputs");
    race.tally
        .assert_met(&rt, "acts overlapped a run or a wake");
}

#[test]
fn a_drop_beside_a_run_and_a_wake(rt: HostRuntime) {
    race_act(rt, rt.alloc(), Act::Drop);
}

#[test]
fn a_detach_beside_a_run_and_a_wake(rt: HostRuntime) {
    race_act(rt, rt.alloc(), Act::Detach);
}

#[test]
fn a_poll_beside_a_run_and_a_wake(rt: HostRuntime) {
    race_act(rt, rt.alloc(), Act::Poll);
}

#[test]
fn a_cancel_beside_a_run_and_a_wake(rt: HostRuntime) {
    race_act(rt, rt.alloc(), Act::Cancel);
}

#[test]
fn an_await_beside_a_run_and_a_wake(rt: HostRuntime) {
    race_act(rt, rt.alloc(), Act::Await);
}
