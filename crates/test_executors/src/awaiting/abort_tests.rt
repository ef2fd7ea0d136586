//! Aborts of the members of a group by its handles: while the owner sleeps, of a member that came out before, several of one member, after a detach, and many
//! from another thread while members come and go.
use super::came_out::{CameOut, abort_handle_of, group_of, next_of};
use super::line::{Errand, Line, LineGroup};
use super::script::{Script, play};
use async_task::TaskClosed;
use executor_parts::AbortHandle;
use std::alloc::Global;
use std::collections::VecDeque;
use std::process::Abort;
use std::sync::atomic::{AtomicU64, Ordering};
use std::sync::{Mutex, Wait};
use std::thread::{self, Threads};

// How often a thread gives way to another one that is to fall asleep.
const YIELDS: usize = 500;

// How many members come and go beside aborts, and how many there are at a time.
const MEMBERS: u64 = 4_000;

const ROOM: usize = 32;

// Spawns a member, and makes its handle. Stops where either is refused.
fn spawn_abortable<'x, R: Wait + Abort + Drop + Copy>(
    line: &'x Line<R>,
    group: &mut LineGroup<'x, R>,
    errand: Errand,
) -> AbortHandle<R> {
    let number = line.spawn_in(group, errand).expect(&line.rt, "refused");
    abort_handle_of(line, group, number)
}

// Aborts a member once another thread had time to fall asleep, and runs the line until that thread says that it has ended.
fn abort_and_run<R: Wait + Drop + Copy>(line: &Line<R>, handle: AbortHandle<R>, ended: &AtomicU64) {
    for _ in 0..YIELDS {
        thread::yield_now();
    }
    handle.abort();
    run_until(line, ended);
}

// Runs the line until another thread says that it has ended.
fn run_until<R: Wait + Drop + Copy>(line: &Line<R>, ended: &AtomicU64) {
    for _ in line.rt.forever() {
        line.run();
        if ended.load(Ordering::SeqCst) > 0 {
            return;
        }
        thread::yield_now();
    }
}

// Waits for the next member, and says so.
fn wait_and_say<R: Wait + Drop + Copy>(group: &mut LineGroup<'_, R>, ended: &AtomicU64) -> CameOut {
    let next = next_of(group);
    ended.fetch_add(1, Ordering::SeqCst);
    next
}

// Waits for a member on one thread, and aborts it on another.
fn wait_and_abort<R: Wait + Threads + Drop + Copy + Send + Sync>(
    line: &Line<R>,
    group: &mut LineGroup<'_, R>,
    handle: AbortHandle<R>,
) -> CameOut {
    let ended = AtomicU64::new(0);
    let (_, next) = thread::join(
        &line.rt,
        || abort_and_run(line, handle, &ended),
        || wait_and_say(group, &ended),
    );
    next
}

// What comes out of a group whose only member never ends by itself, while another thread aborts it.
fn abort_while_asleep<R: Wait + Abort + Threads + Drop + Copy + Send + Sync>(
    rt: R,
    alloc: Global,
) -> CameOut {
    let line = Line::new(rt, alloc, 1);
    let mut group = group_of(&line, 1);
    let handle = spawn_abortable(&line, &mut group, Errand::Stay);
    line.run();
    wait_and_abort(&line, &mut group, handle)
}

#[test]
fn an_abort_wakes_the_owner_that_sleeps(rt: HostRuntime) {
    let seen = abort_while_asleep(rt, rt.alloc());
    assert!(rt; seen == Some((0, Err(TaskClosed))));
}

const SCRIPTS: [Script; 4] = [
    // An abort of a member that came out is nothing to a later one of its number.
    (
        1,
        "spawn 0 answer 44; run; next 0 gives 44; spawn 0 give_way 45; abort 0; look nothing; run; next 0 gives 45",
    ),
    // An abort of a member that came out takes no other abort away.
    (
        1,
        "spawn 0 answer 44; run; next 0 gives 44; spawn 0 give_way 45; abort 1; abort 0; look nothing; run; next 0 closed",
    ),
    // Further aborts of a member are nothing: two before its future is gone, and one after that.
    (
        2,
        "spawn 0 stay; clone_handle 0; run; abort 0; abort 1; look nothing; run; abort 0; next 0 closed; \
         spawn 0 answer 46; run; next 0 gives 46; next nothing",
    ),
    // An abort of a member that has ended or was let go does nothing, also without its group.
    (
        1,
        "spawn 0 answer 47; run; abort 0; next 0 gives 47; spawn 0 give_way 48; detach_all; abort 1; look nothing; run; \
         drop_empty; abort 1; answered 2",
    ),
];

#[test]
fn aborts_answer_as_their_scripts_say(rt: HostRuntime) {
    play(rt, rt.alloc(), &SCRIPTS);
}

// Handles on their way from the owner of a group to the thread that aborts.
type Handles<R> = Mutex<VecDeque<AbortHandle<R>>>;

// How many members came out closed and with an output, and the sum of the outputs of those that nobody aborts.
#[derive(Clone, Copy, PartialEq, Eq)]
struct Tally {
    closed: u64,
    answered: u64,
    unasked: u64,
}

// What the member of a turn does: each second one never ends by itself.
fn errand_of(turn: u64) -> Errand {
    if turn % 2 == 0 {
        Errand::Stay
    } else {
        Errand::GiveWay(turn)
    }
}

// Whether nobody aborts the member of a turn.
fn is_unasked(turn: u64) -> bool {
    turn % 4 == 1
}

// Takes the next member out, and counts it: whether there was one.
fn count_next<R: Wait + Drop + Copy>(group: &mut LineGroup<'_, R>, tally: &mut Tally) -> bool {
    let Some((_, answer)) = next_of(group) else {
        return false;
    };
    match answer {
        Ok(turn) => {
            tally.answered = tally.answered.wrapping_add(1);
            if is_unasked(turn) {
                tally.unasked = tally.unasked.wrapping_add(turn);
            }
        }
        Err(_) => tally.closed = tally.closed.wrapping_add(1),
    }
    true
}

// Spawns the members, and hands out the handles of those that are to be aborted. Where the group is full, it counts what comes out first.
fn spawn_all<'x, R: Wait + Abort + Drop + Copy>(
    line: &'x Line<R>,
    group: &mut LineGroup<'x, R>,
    handles: &Handles<R>,
    tally: &mut Tally,
) {
    for turn in 0..MEMBERS {
        if group.is_full() {
            count_next(group, tally);
        }
        let handle = spawn_abortable(line, group, errand_of(turn));
        if !is_unasked(turn) {
            let pushed = handles.lock(&line.rt).push_back(handle);
            pushed.expect(&line.rt, "refused");
        }
    }
}

// Has all members come and go, and then says so: what came out.
fn own<R: Wait + Abort + Drop + Copy>(
    line: &Line<R>,
    handles: &Handles<R>,
    ended: &AtomicU64,
) -> Tally {
    let mut group = group_of(line, ROOM);
    let mut tally = Tally {
        closed: 0,
        answered: 0,
        unasked: 0,
    };
    spawn_all(line, &mut group, handles, &mut tally);
    for _ in line.rt.forever() {
        if !count_next(&mut group, &mut tally) {
            break;
        }
    }
    ended.fetch_add(1, Ordering::SeqCst);
    tally
}

// Aborts the members whose handles come, until the owner has ended.
fn abort_all<R: Wait + Drop + Copy>(rt: R, handles: &Handles<R>, ended: &AtomicU64) {
    for _ in rt.forever() {
        let handle = handles.lock(&rt).pop_front();
        match handle {
            Some(handle) => drop(handle.abort()),
            None if ended.load(Ordering::SeqCst) > 0 => return,
            None => thread::yield_now(),
        }
    }
}

// One thread has the group, and one aborts three of four members: what comes out.
fn own_beside_aborts<R: Wait + Abort + Threads + Drop + Copy + Send + Sync>(
    line: &Line<R>,
    ended: &AtomicU64,
) -> Tally {
    let handles = Mutex::new(VecDeque::new(line.alloc));
    let (_, tally) = thread::join(
        &line.rt,
        || abort_all(line.rt, &handles, ended),
        || own(line, &handles, ended),
    );
    tally
}

// The same, while a third thread runs the tasks.
fn storm<R: Wait + Abort + Threads + Drop + Copy + Send + Sync>(rt: R, alloc: Global) -> Tally {
    let line = Line::new(rt, alloc, 1);
    let ended = AtomicU64::new(0);
    let (_, tally) = thread::join(
        &rt,
        || run_until(&line, &ended),
        || own_beside_aborts(&line, &ended),
    );
    tally
}

// The turns 1, 5, 9 .. 3997 are those of members that nobody aborts.
#[test]
fn members_that_are_aborted_beside_others_come_out_once(rt: HostRuntime) {
    let tally = storm(rt, rt.alloc());
    assert!(rt; tally.unasked == 1_999_000);
    assert!(rt; tally.closed >= 2_000 && tally.closed <= 3_000);
    assert!(rt; tally.closed.wrapping_add(tally.answered) == MEMBERS);
}
