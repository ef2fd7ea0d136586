//! Groups: the order in which members come out, those that ended before their push, a group that is full, the ways to let all go, and what waits after them.
use super::came_out::{CameOut, group_of};
use super::line::{Errand, Line, LineGroup};
use super::script::{Script, play};
use executor_parts::{NextUntilError, TaskGroup, left_until};
use std::alloc::{AllocError, Global};
use std::process::Abort;
use std::sync::Wait;
use std::time::{Clock, Duration, Instant};

const SCRIPTS: [Script; 10] = [
    // Members come out in the order in which they end.
    (
        3,
        "push give_way 10; push answer 11; push answer 12; run; next 1 gives 11; next 2 gives 12; next 0 gives 10; next nothing",
    ),
    // Tasks that ended before their push come out.
    (
        2,
        "push_ended answer 15; push_closed answer 16; next 0 gives 15; next 1 closed; next nothing",
    ),
    // An abort of all cancels, a detach lets all go on, and a drop cancels.
    (
        2,
        "push give_way 20; push give_way 20; push_full stay; abort_all; run; answered 0",
    ),
    (
        2,
        "push give_way 20; push give_way 20; push_full stay; detach_all; run; answered 2",
    ),
    (
        2,
        "push give_way 20; push give_way 20; push_full stay; drop_group; run; answered 0",
    ),
    // A detach lets a member go on whose number, 1, is not below how many are left.
    (
        2,
        "push answer 23; run; push give_way 24; next 0 gives 23; detach_all; run; answered 2",
    ),
    // One look passes over the number of no member: 1 still waits before 0.
    (
        2,
        "push give_way 30; push answer 31; run; abort_all; push answer 32; run; look 0 gives 32",
    ),
    // A full group spawns nothing.
    (
        1,
        "spawn 0 give_way 13; spawn_full answer 14; run; next 0 gives 13",
    ),
    // The id of a member that came out cancels nobody, though another one has its number.
    (
        1,
        "push answer 44; keep_id 0; run; next 0 gives 44; push give_way 45; cancel_nobody; run; next 0 gives 45",
    ),
    // Members that are cancelled come out once their futures are gone.
    (
        3,
        "push stay; push answer 41; push stay; run; keep_id 0; cancel_kept; cancel_all; run; \
         next 1 gives 41; next 0 closed; next 2 closed; next nothing",
    ),
];

#[test]
fn groups_answer_as_their_scripts_say(rt: HostRuntime) {
    play(rt, rt.alloc(), &SCRIPTS);
}

// Whether a group with room for more members than memory can hold is refused.
fn refuses_group<R: Wait + Drop + Copy>(rt: R, alloc: Global) -> bool {
    let group: Result<LineGroup<'_, R>, AllocError> = TaskGroup::new(rt, alloc, usize::MAX);
    group.is_err()
}

#[test]
fn a_group_that_no_memory_can_hold_is_refused(rt: HostRuntime) {
    assert!(rt; refuses_group(rt, rt.alloc()));
}

// What comes out of a group until a deadline.
fn next_until<R: Wait + Clock + Drop + Copy>(
    group: &mut LineGroup<'_, R>,
    deadline: Instant,
) -> Result<CameOut, NextUntilError> {
    match group.next_until(deadline) {
        Ok(Some(ended)) => Ok(Some((ended.number, ended.answer))),
        Ok(None) => Ok(None),
        Err(error) => Err(error),
    }
}

// Waits until a deadline for a member that nobody runs, and with the same deadline once it was run: what comes out each time, and whether the deadline
// had passed after the first wait.
fn wait_twice<R: Wait + Clock + Abort + Drop + Copy>(
    rt: R,
    alloc: Global,
) -> ([Result<CameOut, NextUntilError>; 2], bool) {
    let line = Line::new(rt, alloc, 1);
    let mut group = group_of(&line, 1);
    line.spawn_in(&mut group, Errand::GiveWay(50));
    let begin = Instant::now(&rt).expect(&rt, "refused");
    let deadline = begin.checked_add(Duration::from_millis(20));
    let deadline = deadline.expect(&rt, "refused");
    let first = next_until(&mut group, deadline);
    let passed = left_until(&rt, deadline).is_zero();
    line.run();
    ([first, next_until(&mut group, deadline)], passed)
}

#[test]
fn a_wait_for_a_member_elapses_at_its_deadline(rt: HostRuntime) {
    let (seen, passed) = wait_twice(rt, rt.alloc());
    assert!(rt; passed && seen == [Err(NextUntilError::Elapsed), Ok(Some((0, Ok(50))))]);
}
