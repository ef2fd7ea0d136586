//! Tests of turns that end at a deadline: of one worker, and of one beside another that sleeps.

use crate::calls::{
    drop_pool, drop_turns, guest_task, new_guests, new_pool, refusal_of_run, shut_down, turns_of,
};
use crate::dice::Dice;
use crate::guest::{Errand, GuestPool, GuestTurns, Guests};
use executor::Settings;
use std::alloc::Global;
use std::hint::spin_loop;
use std::process::Abort;
use std::sync::atomic::{AtomicU64, Ordering};
use std::sync::{Arc, Wait};
use std::thread::{self, Threads};
use std::time::{Clock, Duration, Instant};

// How often a task comes about the time of a deadline.
const ROUNDS: u64 = 40;

// How many seconds are longer than any wake takes.
const LONG: u64 = 10;

// Whether a worker of this pool finds no Runnable until a deadline, and how long that takes.
fn rest_until<R: Wait + Clock + Abort + Drop + Copy>(
    pool: GuestPool<R>,
    short: Duration,
) -> (bool, Duration) {
    let rt = pool.rt();
    let mut turns = turns_of(&pool, 0);
    let begin = Instant::now(&rt).expect(&rt, "refused");
    let deadline = begin.checked_add(short).expect(&rt, "refused");
    let none = turns.await_next_until(deadline).is_none();
    let rested = begin.elapsed(&rt).expect(&rt, "refused");
    drop_turns(turns);
    drop_pool(pool);
    (none, rested)
}

#[test]
fn a_worker_with_nothing_to_do_sleeps_until_its_deadline(rt: HostRuntime) {
    let short = Duration::from_millis(20);
    let (none, rested) = rest_until(new_pool(rt, rt.alloc(), 1), short);
    assert!(rt; none && short <= rested && rested.as_secs() < LONG);
}

// A pool of one worker whose searches have no end of their own.
fn pool_of_searches<R: Wait + Abort + Drop + Copy>(rt: R, alloc: Global) -> GuestPool<R> {
    let settings = Settings::new().search_looks(usize::MAX);
    GuestPool::with_settings(rt, alloc, alloc, 1, settings).expect(&rt, "refused")
}

#[test]
fn a_search_ends_at_its_deadline(rt: HostRuntime) {
    let short = Duration::from_millis(20);
    let (none, rested) = rest_until(pool_of_searches(rt, rt.alloc()), short);
    assert!(rt; none && short <= rested && rested.as_secs() < LONG);
}

// Whether a turn finds no Runnable until a deadline, and how long that takes.
fn turn_until<R: Wait + Clock + Abort + Drop + Copy>(rt: R, alloc: Global) -> (bool, Duration) {
    let pool = new_pool(rt, alloc, 1);
    let mut turns = turns_of(&pool, 0);
    let begin = Instant::now(&rt).expect(&rt, "refused");
    let deadline = begin.checked_add(Duration::from_millis(20));
    let deadline = deadline.expect(&rt, "refused");
    let interruptions = pool.bells().interruptions();
    let none = turns.take_turn_until(interruptions, deadline).is_none();
    let rested = begin.elapsed(&rt).expect(&rt, "refused");
    drop_turns(turns);
    drop_pool(pool);
    (none, rested)
}

// Its rest may end for no reason, so it is not asked how short it is.
#[test]
fn a_turn_with_nothing_to_do_rests_no_longer_than_its_deadline(rt: HostRuntime) {
    let (none, rested) = turn_until(rt, rt.alloc());
    assert!(rt; none && rested.as_secs() < LONG);
}

// Whether a worker whose deadline has come hears an interruption and finds nothing, and whether that is due again.
fn hear_at_deadline<R: Wait + Clock + Abort + Drop + Copy>(rt: R, alloc: Global) -> (bool, bool) {
    let pool = new_pool(rt, alloc, 1);
    let mut turns = turns_of(&pool, 0);
    pool.bells().interrupt();
    let counted = pool.bells().interruptions();
    let now = Instant::now(&rt).expect(&rt, "refused");
    let none = turns.await_next_until(now).is_none();
    let is_passed_on = pool.bells().is_due() && pool.bells().interruptions() > counted;
    drop_turns(turns);
    drop_pool(pool);
    (none, is_passed_on)
}

#[test]
fn an_interruption_that_is_heard_at_a_deadline_is_passed_on(rt: HostRuntime) {
    assert!(rt; hear_at_deadline(rt, rt.alloc()) == (true, true));
}

/// A worker that waits until a deadline again and again, and a thread that spawns a task each time.
#[derive(Drop)]
struct Meeting<'a, R: Wait + Drop + Copy> {
    pool: &'a GuestPool<R>,
    guests: &'a Arc<Guests>,
    // The round that has begun.
    round: &'a AtomicU64,
    // How many microseconds the worker waits at most.
    wait: u64,
    // Within how many the task comes.
    spread: u64,
}

// Whether a number comes to be so much before long.
fn comes_to<R: Clock>(rt: &R, number: &AtomicU64, wanted: u64) -> bool {
    let Ok(begin) = Instant::now(rt) else {
        return false;
    };
    for _ in 0..u64::MAX {
        if number.load(Ordering::SeqCst) >= wanted {
            return true;
        }
        if begin.elapsed(rt).map_or(LONG, |it| it.as_secs()) >= LONG {
            return false;
        }
        thread::sleep(rt, Duration::from_micros(20));
    }
    false
}

// Keeps its thread for so long, without a sleep.
fn spin<R: Clock>(rt: &R, micros: u64) {
    let Ok(begin) = Instant::now(rt) else {
        return;
    };
    for _ in 0..u64::MAX {
        if begin.elapsed(rt).map_or(u128::MAX, |it| it.as_micros()) >= u128::from(micros) {
            return;
        }
        spin_loop();
    }
}

impl<'a, R: Wait + Clock + Abort + Drop + Copy> Meeting<'a, R> {
    // Spawns a task from outside in each round. It ends where no round begins any more.
    fn spawn_all(&self) {
        let rt = self.pool.rt();
        let mut dice = Dice {
            state: 1,
            delays: false,
        };
        for round in 1..ROUNDS + 1 {
            if !comes_to(&rt, self.round, round) || self.pool.is_shut_down() {
                return;
            }
            spin(&rt, dice.draw(self.spread));
            let outside = self.pool.workers();
            guest_task(self.pool, outside, Errand::GiveWay(0), self.guests).detach();
        }
    }

    // Whether another worker falls asleep before long.
    fn other_sleeps(&self) -> bool {
        let rt = self.pool.rt();
        let Ok(begin) = Instant::now(&rt) else {
            return false;
        };
        for _ in 0..u64::MAX {
            if self.pool.bells().sleepers() == 1 {
                return true;
            }
            if begin.elapsed(&rt).map_or(LONG, |it| it.as_secs()) >= LONG {
                return false;
            }
            thread::sleep(&rt, Duration::from_micros(20));
        }
        false
    }

    // One round of the worker: waits for the task until its deadline, and then without a call of the pool. False where nobody runs it.
    fn meet(&self, turns: &mut GuestTurns<'_, R>, round: u64) -> bool {
        let rt = self.pool.rt();
        if !self.other_sleeps() {
            return false;
        }
        let now = Instant::now(&rt).expect(&rt, "refused");
        let wait = Duration::from_micros(self.wait);
        let deadline = now.checked_add(wait).expect(&rt, "refused");
        self.round.store(round, Ordering::SeqCst);
        if let Some(runnable) = turns.await_next_until(deadline) {
            runnable.run();
        }
        comes_to(&rt, &self.guests.ended, round)
    }

    // All rounds of the worker, and the end of the pool. False where a task was run by nobody.
    fn meet_all(&self) -> bool {
        let mut turns = turns_of(self.pool, 0);
        let mut all_ran = true;
        for round in 1..ROUNDS + 1 {
            all_ran = all_ran && self.meet(&mut turns, round);
        }
        shut_down(self.pool);
        self.round.store(u64::MAX, Ordering::SeqCst);
        drop_turns(turns);
        all_ran
    }
}

// Runs worker 1, who spawns, and the worker that waits, each on a thread. False where a task was run by nobody.
fn meet_in_threads<R: Wait + Clock + Abort + Threads + Drop + Copy + Send + Sync + 'static>(
    rt: &R,
    meeting: &Meeting<'_, R>,
) -> bool {
    let beside = || {
        thread::join(
            rt,
            || refusal_of_run(meeting.pool, 1),
            || meeting.spawn_all(),
        );
    };
    let (_, all_ran) = thread::join(rt, beside, || meeting.meet_all());
    all_ran
}

// Whether each task is run that comes while worker 0 waits until a deadline, or soon after it, and worker 1 sleeps.
fn meet_by_deadlines<R: Wait + Clock + Abort + Threads + Drop + Copy + Send + Sync + 'static>(
    rt: R,
    alloc: Global,
    wait: u64,
    spread: u64,
) -> bool {
    let pool = new_pool(rt, alloc, 2);
    let guests = new_guests(&rt, alloc, ROUNDS);
    let round = AtomicU64::new(0);
    let meeting = Meeting {
        pool: &pool,
        guests: &guests,
        round: &round,
        wait,
        spread,
    };
    meet_in_threads(&rt, &meeting)
}

// The worker mostly searches until its deadline, and a push wakes nobody meanwhile.
#[test]
fn a_task_that_comes_while_a_search_ends_at_its_deadline_is_run(rt: HostRuntime) {
    assert!(rt; meet_by_deadlines(rt, rt.alloc(), 200, 600));
}

// The worker sleeps before its deadline, and may be the one that a push wakes.
#[test]
fn a_task_that_comes_while_a_sleep_ends_at_its_deadline_is_run(rt: HostRuntime) {
    assert!(rt; meet_by_deadlines(rt, rt.alloc(), 5000, 6000));
}
