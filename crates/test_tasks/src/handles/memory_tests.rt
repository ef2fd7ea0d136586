//! Tests of memory: after the spawns, no call on a handle asks for any. Each script counts the blocks of its tasks after its spawns and at its end, so that what
//! it does would go the same where no memory is left.
//! Of what is only tested (docs/PROOFS.md): Memory and limits.

use crate::handles::check::check_script;

// A drop of the Runnable and a detach, then the other way round. The drop alone gives no memory back.
#[test]
fn drops_and_detaches_ask_for_no_memory(rt: HostRuntime) {
    check_script(
        rt,
        rt.alloc(),
        "spawn ready 1; push; spawn ready 1; push; next_task; receive; blocks 2; runnable_makers 2; discard_runnable; \
         finished; makers 2; counted 0 0 1 0; given_back 0; detach; counted 0 0 1 1; next_task; detach; counted 0 0 1 1; \
         receive; drop_runnable; counted 0 0 2 2; blocks 2; freed",
    );
}

// A Task's drop and a run, and three calls of `schedule`.
#[test]
fn cancels_and_schedules_ask_for_no_memory(rt: HostRuntime) {
    check_script(
        rt,
        rt.alloc(),
        "spawn ready 1; push; spawn pending; push; next_task; receive; blocks 2; drop_task; counted 0 0 0 0; given_back 0; \
         run; counted 0 0 1 1; receive; schedule; receive; schedule; receive; schedule; receive; counted 0 3 1 1; \
         next_task; drop_task; drop_runnable; counted 0 3 2 2; blocks 2; freed",
    );
}

// Two wakers and a clone of the second one wake the task, each after a run. The last but one is discarded.
#[test]
fn wakers_ask_for_no_memory(rt: HostRuntime) {
    check_script(
        rt,
        rt.alloc(),
        "spawn pending; blocks 1; waker; waker; run; wake_by_ref; receive; clone_waker; run; wake; counted 2 2 0 0; \
         receive; run; discard_waker; wake; counted 3 3 0 0; given_back 0; drop_task; receive; drop_runnable; \
         counted 3 3 1 1; blocks 1; freed",
    );
}

// Polls of a Task, a FallibleTask and a Cancel that register an awaiter, and those that find the task ended: each awaiter is cloned once, and woken once.
#[test]
fn polls_ask_for_no_memory(rt: HostRuntime) {
    check_script(
        rt,
        rt.alloc(),
        "spawn ready 1; push; spawn ready 1; push; spawn ready 1; push; cancel; next_task; next_task; fallible; \
         next_task; next_task; blocks 3; poll 1 waits; next_task; poll 1 waits; next_task; poll 1 waits; next_task; \
         given_back 0; receive; run; receive; drop_runnable; receive; run; poll 1 gives 1; drop_task; \
         next_task; poll 1 closed; drop_task; next_task; poll 1 closed; drop_task; ends 1 3 3 0; counted 1 0 3 3; \
         blocks 3; freed",
    );
}
