//! Tests of a Task, of a FallibleTask and of a Cancel.
//! Of what is only tested (docs/PROOFS.md): Drops, Paths, Handles.

use crate::handles::check::check_script;

// What a Task leaves that is let go, before the first run or after it.
const LEFT: [&str; 11] = [
    // A scheduled task was cancelled: its run polls nothing.
    "spawn pending; push; drop_task; counted 0 0 0 0; \
     receive; runnable_shows 109; run; told; counted 0 0 1 1; outputs 0; queued 0",
    "spawn pending; push; cancel; drop_task; counted 0 0 0 0; \
     receive; runnable_shows 109; run; told; counted 0 0 1 1; outputs 0; queued 0",
    "spawn ready 4; push; discard; counted 0 0 0 0; \
     receive; runnable_shows 109; run; told; counted 0 0 1 1; outputs 0; queued 0",
    "spawn ready 4; push; fallible; discard; counted 0 0 0 0; \
     receive; runnable_shows 109; run; told; counted 0 0 1 1; outputs 0; queued 0",
    // A scheduled task goes on: its run polls the future, and drops the output that nobody can claim.
    "spawn ready 4; push; fallible; detach; counted 0 0 0 0; \
     receive; runnable_shows 101; run; told; counted 1 0 1 1; outputs 1; queued 0",
    // An idle task without another handle was closed: the run of a further Runnable drops the future.
    "spawn pending; run; drop_task; counted 1 1 0 0; \
     receive; runnable_shows 109; run; told false; counted 1 1 1 1; outputs 0; queued 0",
    "spawn pending; run; cancel; drop_task; counted 1 1 0 0; \
     receive; runnable_shows 109; run; told false; counted 1 1 1 1; outputs 0; queued 0",
    "spawn pending; run; detach; counted 1 1 0 0; \
     receive; runnable_shows 109; run; told false; counted 1 1 1 1; outputs 0; queued 0",
    // A task had completed: its output was dropped, and nothing is left.
    "spawn ready 1; run; drop_task; counted 1 0 1 1; queued 0; told; outputs 1",
    "spawn ready 1; run; cancel; drop_task; counted 1 0 1 1; queued 0; told; outputs 1",
    "spawn ready 1; run; detach; counted 1 0 1 1; queued 0; told; outputs 1",
];

// A drop, a discard and the drop of a Cancel that was not polled do the same. A detach ends a task only if no other handle of it is left.
#[test]
fn a_task_that_is_let_go_is_cancelled_or_goes_on(rt: HostRuntime) {
    for text in LEFT {
        check_script(rt, rt.alloc(), text);
    }
}

// Of a discard: 1 Runnable is queued, beside the waker (209). Its run polls nothing and drops the future. The waker keeps the schedule value, and wakes nobody.
// Of a detach: none is queued, and the task stays open. The Runnable of the wake shows only itself (101), and its run polls once more. No handle is left after
// this run, so it hands a closing Runnable over, whose run drops the future.
const LEFT_IDLE: [&str; 3] = [
    "spawn pending; waker; run; discard; counted 1 1 0 0; receive; runnable_shows 209; run; counted 1 1 1 0; \
     wake; queued 0; counted 1 1 1 1",
    "spawn pending; waker; run; fallible; discard; counted 1 1 0 0; receive; runnable_shows 209; run; counted 1 1 1 0; \
     wake; queued 0; counted 1 1 1 1",
    "spawn pending; waker; run; fallible; detach; counted 1 0 0 0; queued 0; \
     wake; receive; runnable_shows 101; run; counted 2 2 0 0; receive; run; counted 2 2 1 1",
];

#[test]
fn an_idle_task_with_a_waker_is_cancelled_or_goes_on(rt: HostRuntime) {
    for text in LEFT_IDLE {
        check_script(rt, rt.alloc(), text);
    }
}

// The output is handed out once: a later poll answers that none will come, and registers nothing.
#[test]
fn a_fallible_task_answers_each_call(rt: HostRuntime) {
    check_script(
        rt,
        rt.alloc(),
        "spawn ready 4; fallible; makers 1; unfinished; poll 1 waits; run; makers 1; finished; shows 014; \
         poll 1 gives 4; poll 1 closed; shows 01C; ends 1 1 1 0; counted 1 0 1 0; detach; ends 1 1 1 0; counted 1 0 1 1",
    );
}

// The cancel of an idle task hands its Runnable to the queue that the Cancel carries.
#[test]
fn handles_go_on_with_other_surroundings(rt: HostRuntime) {
    check_script(
        rt,
        rt.alloc(),
        "spawn pending; runnable_around; run; around; unfinished; fallible; around; cancel; around; unfinished; drop_task; \
         queued 1; counted 1 1 0 0",
    );
}
