//! Tests of the search and the sleep of workers: one searches at a time, whom a push then wakes, what a worker sees and finds of the queues, and that a sleep ends.
ghost use Rattle.std.specs.Prelude.{◌≡◌, Ok};
ghost use Rattle.std.specs.Arc.{arc_value};

use std::alloc::Global;
use std::process::Abort;
use std::sync::{Arc, Wait};
use std::thread;
use std::thread::yield_now;
use std::time::{Clock, Duration, Instant};
use work_queues::bells::Look;
use work_queues::{Bells, Board, Crew, NoLimit, Worker};

/// How many items each queue has room for.
const ROOM: usize = 2;

/// No worker was woken.
const NOBODY: usize = 9;

/// How many seconds are longer than any wake takes, and shorter than a test may run.
const LONG: u64 = 20;

fn bells_of<R: Abort>(rt: &R, alloc: Global, workers: usize) -> Arc<Bells> {
    let bells = Bells::new(alloc, workers).expect(rt, "refused");
    Arc::new(alloc, bells).expect(rt, "refused")
}

fn board_of<R: Abort>(rt: &R, alloc: Global, bells: &Arc<Bells>) -> Board<u64>
    ensures { arc_value result.bells ≡ arc_value bells.now }
{
    let own = Arc::try_clone(bells).expect(rt, "refused");
    Board::new(alloc, alloc, own, ROOM).expect(rt, "refused")
}

// Pushes an item at a queue, and wakes whom it wakes, which is the answer.
fn push<R: Wait>(rt: &R, board: &Board<u64>, queue: usize) -> usize {
    match board.push(rt, queue.min(board.workers()), 7).1 {
        Some(woken) => {
            let worker = woken.worker();
            board.ring(woken);
            worker
        }
        None => NOBODY,
    }
}

// Takes the item of a queue.
fn pop<R: Wait>(rt: &R, board: &Board<u64>, queue: usize) -> Option<u64> {
    let (item, woken) = board.pop(rt, queue.min(board.workers()));
    if let Some(woken) = woken {
        board.ring(woken);
    }
    item
}

// The search or the sleep that a look allowed. Stops where it did not: a look is a duty, so no `expect` ends it.
fn allowed<R: Abort, T>(rt: &R, asked: Result<T, Look>) -> T
    ensures { asked ≡ Ok result }
{
    match asked {
        Ok(allowed) => allowed,
        Err(_) => panic!(rt; "a look allows nothing"),
    }
}

// Ends looks, and wakes whom they wake, which is the answer.
fn pay(bells: &Bells, look: Look) -> usize
    requires { look.place.seat.table_id ≡ bells.now.table.shared.table_id }
{
    match bells.pay(look) {
        Some(woken) => {
            let worker = woken.worker();
            bells.ring(woken);
            worker
        }
        None => NOBODY,
    }
}

// Looks that are owed, as worker 2 leaves.
fn look<R: Abort>(rt: &R, bells: &Bells) -> Look
    ensures { result.place.seat.table_id ≡ bells.now.table.shared.table_id }
{
    let claim = bells.claim(2).expect(rt, "refused");
    bells.give_back(claim)
}

// Whether a worker may begin a search. It ends at once.
fn may_search(bells: &Bells) -> bool {
    match bells.begin_search(None) {
        Ok(search) => {
            bells.settle(bells.end_search(search));
            true
        }
        Err(look) => {
            bells.settle(look);
            false
        }
    }
}

#[test]
fn one_worker_searches_at_a_time(rt: HostRuntime) {
    let bells = bells_of(&rt, rt.alloc(), 2);
    let search = allowed(&rt, bells.begin_search(None));
    let beside = may_search(&bells);
    bells.settle(bells.end_search(search));
    let after = may_search(&bells);
    assert!(rt; !beside && after);
}

// Worker 1 sleeps while another one searches, which takes the first item. It is woken for the second one as the search ends.
#[test]
fn a_push_wakes_nobody_while_one_searches(rt: HostRuntime) {
    let bells = bells_of(&rt, rt.alloc(), 2);
    let board = board_of(&rt, rt.alloc(), &bells);
    let claim = bells.claim(1).expect(&rt, "refused");
    let sleeper = allowed(&rt, bells.lie_down(&rt, None, &claim));
    let search = allowed(&rt, bells.begin_search(None));
    let during = push(&rt, &board, 2);
    let taken = pop(&rt, &board, 2);
    let ended = pay(&bells, bells.end_search(search));
    let search = allowed(&rt, bells.begin_search(None));
    let again = push(&rt, &board, 0);
    let left = pay(&bells, bells.end_search(search));
    bells.settle(bells.get_up(sleeper));
    bells.settle(bells.give_back(claim));
    assert!(rt; during == NOBODY && taken == Some(7) && ended == NOBODY);
    assert!(rt; again == NOBODY && left == 1);
}

// Workers 0 and 1 sleep. Each push wakes one, until none is left.
#[test]
fn each_push_wakes_one_of_two_sleepers(rt: HostRuntime) {
    let bells = bells_of(&rt, rt.alloc(), 2);
    let board = board_of(&rt, rt.alloc(), &bells);
    let first = bells.claim(0).expect(&rt, "refused");
    let second = bells.claim(1).expect(&rt, "refused");
    let one = allowed(&rt, bells.lie_down(&rt, None, &first));
    let other = allowed(&rt, bells.lie_down(&rt, None, &second));
    let woken = (
        push(&rt, &board, 2),
        push(&rt, &board, 2),
        push(&rt, &board, 2),
    );
    bells.settle(bells.get_up(one));
    bells.settle(bells.get_up(other));
    bells.settle(bells.give_back(first));
    bells.settle(bells.give_back(second));
    assert!(rt; woken == (0, 1, NOBODY));
}

// Two interruptions wake two workers, or are heard by one.
#[test]
fn an_interruption_is_due_until_it_is_heard(rt: HostRuntime) {
    let bells = bells_of(&rt, rt.alloc(), 2);
    let claim = bells.claim(0).expect(&rt, "refused");
    bells.interrupt();
    let mut sleeper = allowed(&rt, bells.lie_down(&rt, None, &claim));
    let sees = bells.sees_something(&mut sleeper);
    bells.settle(bells.get_up(sleeper));
    bells.interrupt_worker(0);
    let lies = match bells.lie_down(&rt, None, &claim) {
        Ok(sleeper) => {
            bells.settle(bells.get_up(sleeper));
            true
        }
        Err(look) => {
            bells.settle(look);
            false
        }
    };
    bells.settle(bells.give_back(claim));
    assert!(rt; sees && !lies && bells.interruptions() == 2);
}

// Whether worker 0 and worker 1 see something to take.
fn seen(board: &Board<u64>) -> (bool, bool) {
    (board.has_some_for(0), board.has_some_for(1))
}

// All workers are awake, so none is woken.
#[test]
fn a_worker_sees_what_it_can_take(rt: HostRuntime) {
    let bells = bells_of(&rt, rt.alloc(), 2);
    let board = board_of(&rt, rt.alloc(), &bells);
    let nothing = seen(&board);
    let woken = push(&rt, &board, 0);
    let of_the_first = seen(&board);
    let taken = pop(&rt, &board, 0);
    let nothing_again = seen(&board);
    let woken_again = push(&rt, &board, 2);
    let from_outside = seen(&board);
    assert!(rt; nothing == (false, false) && nothing_again == (false, false));
    assert!(rt; of_the_first == (true, true) && from_outside == (true, true));
    assert!(rt; taken == Some(7) && woken == NOBODY && woken_again == NOBODY);
}

// What a worker leaves in its queue is found by another one, which does not sleep beside it.
#[test]
fn what_a_worker_leaves_is_found(rt: HostRuntime) {
    let crew = Crew::new(rt.alloc(), rt.alloc(), 2, ROOM).expect(&rt, "refused");
    let mut thief = crew.worker(rt.alloc(), 1).expect(&rt, "refused");
    let pushed = crew.push(&rt, 0, 5u64).is_ok();
    crew.rest(&rt, &mut thief, crew.bells().interruptions(), &NoLimit);
    let found = crew.find(&rt, &mut thief);
    let nothing = crew.find(&rt, &mut thief);
    drop(crew.end_turns(&rt, thief));
    assert!(rt; pushed && found == Some(5) && nothing.is_none());
}

// The second crew has no worker of the thief's number, which sleeps by the bells of its own.
#[test]
fn a_worker_of_another_crew_finds_what_is_there(rt: HostRuntime) {
    let crew = Crew::<u64>::new(rt.alloc(), rt.alloc(), 2, ROOM).expect(&rt, "refused");
    let other = Crew::new(rt.alloc(), rt.alloc(), 1, ROOM).expect(&rt, "refused");
    let mut thief = crew.worker(rt.alloc(), 1).expect(&rt, "refused");
    let pushed = other.push(&rt, 0, 5u64).is_ok();
    let found = other.find(&rt, &mut thief);
    let most = Duration::from_millis(1);
    other.rest(&rt, &mut thief, other.bells().interruptions(), &most);
    drop(other.end_turns(&rt, thief));
    assert!(rt; pushed && found == Some(5));
}

// Whom a look wakes beside an item from outside, once worker 0 has paid where it owed nothing, and once it has paid where its search has seen the item. Worker 1 sleeps.
fn wakes_of_two_looks<R: Wait + Abort>(
    rt: &R,
    crew: &Crew<u64>,
    worker: &mut Worker<u64>,
) -> (usize, usize) {
    let bells = crew.bells();
    let claim = bells.claim(1).expect(rt, "refused");
    let sleeper = allowed(rt, bells.lie_down(rt, None, &claim));
    worker.pay();
    let first = pay(bells, look(rt, bells));
    bells.settle(bells.get_up(sleeper));
    crew.rest(rt, worker, bells.interruptions(), &NoLimit);
    let sleeper = allowed(rt, bells.lie_down(rt, None, &claim));
    worker.pay();
    let second = pay(bells, look(rt, bells));
    bells.settle(bells.get_up(sleeper));
    bells.settle(bells.give_back(claim));
    (first, second)
}

// The second look finds nobody who is still asleep.
#[test]
fn a_worker_that_pays_wakes_another_one_if_it_owes_a_look(rt: HostRuntime) {
    let crew = Crew::new(rt.alloc(), rt.alloc(), 3, ROOM).expect(&rt, "refused");
    let mut worker = crew.worker(rt.alloc(), 0).expect(&rt, "refused");
    let pushed = crew.push(&rt, 3, 5u64).is_ok();
    let woken = wakes_of_two_looks(&rt, &crew, &mut worker);
    let found = crew.find(&rt, &mut worker);
    drop(crew.end_turns(&rt, worker));
    assert!(rt; pushed && woken == (1, NOBODY) && found == Some(5));
}

// How many seconds a worker rests that finds nothing and may sleep for `LONG`.
fn rest_of<R: Wait + Clock>(rt: &R, crew: &Crew<u64>, worker: &mut Worker<u64>) -> u64 {
    let Ok(begin) = Instant::now(rt) else {
        return LONG;
    };
    let most = Duration::from_secs(LONG);
    crew.rest(rt, worker, crew.bells().interruptions(), &most);
    match begin.elapsed(rt) {
        Ok(rested) => rested.as_secs(),
        Err(_) => LONG,
    }
}

// Waits until a worker counts as asleep. False where none does for so many looks.
fn awaits_a_sleeper(bells: &Bells) -> bool {
    for _ in 0..100_000_000u64 {
        if bells.sleepers() != 0 {
            return true;
        }
        yield_now();
    }
    false
}

// A worker sleeps, and is woken by a push. What it then finds, and whether that took less time than it would have slept.
#[test]
fn a_push_ends_a_sleep(rt: HostRuntime) {
    let crew = Crew::new(rt.alloc(), rt.alloc(), 2, ROOM).expect(&rt, "refused");
    let mut worker = crew.worker(rt.alloc(), 0).expect(&rt, "refused");
    let (rested, pushed) = thread::join(
        &rt,
        || rest_of(&rt, &crew, &mut worker),
        || awaits_a_sleeper(crew.bells()) && crew.push(&rt, 2, 5u64).is_ok(),
    );
    let found = crew.find(&rt, &mut worker);
    drop(crew.end_turns(&rt, worker));
    assert!(rt; pushed && found == Some(5) && rested < LONG);
}

// The same by an interruption that is meant for the worker.
#[test]
fn an_interruption_ends_a_sleep(rt: HostRuntime) {
    let crew = Crew::<u64>::new(rt.alloc(), rt.alloc(), 2, ROOM).expect(&rt, "refused");
    let mut worker = crew.worker(rt.alloc(), 1).expect(&rt, "refused");
    let (rested, slept) = thread::join(
        &rt,
        || rest_of(&rt, &crew, &mut worker),
        || {
            let slept = awaits_a_sleeper(crew.bells());
            crew.bells().interrupt_worker(1);
            slept
        },
    );
    drop(crew.end_turns(&rt, worker));
    assert!(rt; slept && rested < LONG);
}
