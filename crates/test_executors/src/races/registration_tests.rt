//! Races of a poll that registers its awaiter with a party that ends the task, and so takes out the awaiter of the poll before.

use crate::races::awaiter::RaceAwaiter;
use crate::races::handles;
use crate::races::raced::{RaceOutput, RaceSurroundings, RaceTask};
use crate::races::rounds::{LEAST_MET, Rounds, Tally};
use async_task::{TaskClosed, TaskPoll};
use std::alloc::Global;
use std::process::Abort;
use std::sync::Wait;
use std::thread;
use std::thread::Threads;

// How many rounds each race has at least. By hand there may be more.
const ROUNDS: u64 = 30_000;

// How many rounds a race has at most: it goes on where no poll met a notifier, as on a processor that both threads share.
const MOST_ROUNDS: u64 = 20 * ROUNDS;

// The awaiter of a round's second poll is cloned fewer turns than these after the future was dropped, in each round another number: so
// the poll begins to register at another point beside the notifier.
const TURNS: u64 = 16;

// How the second thread ends the task.
#[derive(Clone, Copy)]
enum Ending {
    // It runs the Runnable, and the future answers ready.
    Run,
    // It drops the Runnable, which cancels the task.
    Discard,
}

impl Ending {
    // Whether this is the answer of a poll of a task that ended so.
    fn is_told_by(self, polled: &TaskPoll<Result<RaceOutput, TaskClosed>>) -> bool {
        match self {
            Ending::Run => matches!(polled, TaskPoll::Ready(Ok(_))),
            Ending::Discard => matches!(polled, TaskPoll::Ready(Err(_))),
        }
    }

    // Ends the task whose Runnable is queued.
    fn end<R: Wait + Drop + Copy>(self, surroundings: &RaceSurroundings<R>) {
        match self {
            Ending::Run => {
                surroundings.run_next();
            }
            Ending::Discard => {
                surroundings.discard_next();
            }
        }
    }
}

// What the second thread does.
fn end_all<R: Wait + Drop + Copy>(
    rt: &R,
    rounds: &Rounds,
    surroundings: &RaceSurroundings<R>,
    ending: Ending,
) {
    for round in 0..MOST_ROUNDS {
        rounds.open(rt, round);
        if rounds.is_over() {
            return;
        }
        rounds.start(round, 2);
        ending.end(surroundings);
        rounds.close(rt, round);
    }
}

// Whether a poll of a Task beside its end, which was answered so, tells of that end: at once, or, where it was pending, by a wake
// and at the next poll. Drops the Task.
fn is_told<R: Wait + Drop + Copy>(
    mut task: RaceTask<'_, R>,
    awaiter: &RaceAwaiter,
    polled: TaskPoll<Result<RaceOutput, TaskClosed>>,
    ending: Ending,
) -> bool {
    let waits = matches!(polled, TaskPoll::Pending);
    let told = ending.is_told_by(&polled);
    drop(polled);
    let told_later = waits
        && awaiter.is_woken()
        && ending.is_told_by(&handles::poll(&mut task, awaiter));
    drop(task);
    told || told_later
}

// One round: a second poll of the Task, beside the end. Whether it met the notifier where it began to register, which alone
// wakes by reference; and whether it came to its end as it must: ready, or woken and then ready; each clone ended.
fn poll_once<R: Wait + Abort + Drop + Copy>(
    rt: &R,
    alloc: Global,
    rounds: &Rounds,
    surroundings: &RaceSurroundings<R>,
    ending: Ending,
    round: u64,
) -> (bool, bool) {
    let first = RaceAwaiter::new(rt, alloc);
    let second = surroundings.late_awaiter(round, round % TURNS);
    let (runnable, mut task) = surroundings.spawn(true);
    let registered = handles::is_pending(&mut task, &first);
    surroundings.queue(runnable);
    rounds.open(rt, round);
    rounds.start(round, 1);
    let polled = handles::poll(&mut task, &second);
    rounds.close(rt, round);
    let [_, _, _, reference_wakes] = second.counts();
    let told = is_told(task, &second, polled, ending);
    let all_ended = first.all_ended() && second.all_ended();
    let right = registered && told && all_ended && surroundings.ended(round.wrapping_add(1));
    (reference_wakes != 0, right)
}

// All rounds of a race, by two threads.
fn play<R: Wait + Threads + Abort + Drop + Copy + Send + Sync>(
    rt: R,
    alloc: Global,
    rounds: &Rounds,
    surroundings: &RaceSurroundings<R>,
    tally: &Tally,
    ending: Ending,
) {
    thread::scope(thread::scope_env(), &rt, |scope| {
        let ends = scope.spawn(move || end_all(&rt, rounds, surroundings, ending));
        if ends.is_err() {
            return;
        }
        for round in 0..MOST_ROUNDS {
            if round >= ROUNDS && tally.met.get() >= LEAST_MET {
                return rounds.end(&rt, round);
            }
            let (met, right) = poll_once(&rt, alloc, rounds, surroundings, ending, round);
            tally.count(met, right);
        }
    });
}

// A race, in which some polls must meet a notifier: how many rounds there were, how many of them did not come to their end as
// they must, and how many outputs there were, polls, and Runnables that were scheduled.
fn race<R: Wait + Threads + Abort + Drop + Copy + Send + Sync>(
    rt: R,
    alloc: Global,
    ending: Ending,
) -> (u64, u64, [u64; 3]) {
    let surroundings = RaceSurroundings::new(rt, alloc);
    let rounds = Rounds::new(2);
    let tally = Tally::new();
    play(rt, alloc, &rounds, &surroundings, &tally, ending);
    tally.assert_met(&rt, "polls met a notifier");
    (
        tally.rounds.get(),
        tally.faults.get(),
        surroundings.counts(),
    )
}

// Each round has the Runnable of the spawn and no other: it is polled once.
#[test]
fn a_poll_registers_beside_a_run_that_completes(rt: HostRuntime) {
    let (all, faults, counts) = race(rt, rt.alloc(), Ending::Run);
    assert!(rt; ROUNDS <= all && faults == 0 && counts == [all, all, 0]);
}

// Each round has the Runnable of the spawn and no other: it is dropped, and never polled.
#[test]
fn a_poll_registers_beside_a_drop_of_the_runnable(rt: HostRuntime) {
    let (all, faults, counts) = race(rt, rt.alloc(), Ending::Discard);
    assert!(rt; ROUNDS <= all && faults == 0 && counts == [0; 3]);
}

// The second poll of a task, whose first awaiter is dropped by it while the second thread ends the task. Whether that thread came
// while it was dropped, and the poll is ready as the task ended.
fn poll_beside<'x, R: Wait + Threads + Drop + Copy + Send + Sync>(
    rt: &R,
    surroundings: &'x RaceSurroundings<R>,
    mut task: RaceTask<'x, R>,
    first: &RaceAwaiter,
    second: &RaceAwaiter,
    ending: Ending,
) -> bool {
    let rendezvous = first.rendezvous();
    rendezvous.arm();
    thread::scope(thread::scope_env(), rt, |scope| {
        let ends = scope.spawn(move || {
            let dropping = rendezvous.await_poll();
            ending.end(surroundings);
            rendezvous.release();
            dropping
        });
        let Ok(ends) = ends else {
            return false;
        };
        let polled = handles::poll(&mut task, second);
        ends.join(rt) && ending.is_told_by(&polled)
    })
}

// A poll that finds a notifier where its registration ends, whatever the schedule: while it drops the awaiter of the poll
// before, the second thread ends the task. Whether the poll is ready, its own clone was woken, and the other was dropped.
fn poll_meeting<R: Wait + Threads + Abort + Drop + Copy + Send + Sync>(
    rt: R,
    alloc: Global,
    ending: Ending,
) -> bool {
    let surroundings = RaceSurroundings::new(rt, alloc);
    let first = RaceAwaiter::new(&rt, alloc);
    let second = RaceAwaiter::new(&rt, alloc);
    let (runnable, mut task) = surroundings.spawn(true);
    let registered = handles::is_pending(&mut task, &first);
    surroundings.queue(runnable);
    let told = poll_beside(&rt, &surroundings, task, &first, &second, ending);
    let counted = first.counts() == [1, 0, 1, 0] && second.counts() == [1, 1, 0, 0];
    let met = first.rendezvous().met();
    registered && told && counted && met && surroundings.ended(1)
}

#[test]
fn a_registration_ends_beside_a_notifier(rt: HostRuntime) {
    let run = poll_meeting(rt, rt.alloc(), Ending::Run);
    let discard = poll_meeting(rt, rt.alloc(), Ending::Discard);
    assert!(rt; run && discard);
}
