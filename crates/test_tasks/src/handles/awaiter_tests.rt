//! Tests of stored awaiters: which one a task keeps, and how each clone ends.
//! Of what is only tested (docs/PROOFS.md): Drops.

use crate::handles::check::check_script;

// The task is polled twice while it is scheduled, once while it is idle, and once after it was woken. Each poll drops the awaiter of the one before, and the run
// that completes wakes the last awaiter alone.
#[test]
fn the_last_of_four_awaiters_is_woken(rt: HostRuntime) {
    check_script(
        rt,
        rt.alloc(),
        "spawn keep 5; poll 0 waits; poll 1 waits; shows 131; ends 0 1 0 1; ends 1 1 0 0; ends 2 0 0 0; ends 3 0 0 0; \
         run; poll 2 waits; shows 130; take_stored; wake; poll 3 waits; \
         ends 0 1 0 1; ends 1 1 0 1; ends 2 1 0 1; ends 3 1 0 0; receive; run; shows 114; \
         ends 0 1 0 1; ends 1 1 0 1; ends 2 1 0 1; ends 3 1 1 0; poll 0 gives 5; drop_task",
    );
}

// The drop wakes the awaiter, and the run polls nothing. Of an idle task, the drop hands a Runnable over besides.
#[test]
fn the_drop_of_a_task_wakes_its_awaiter(rt: HostRuntime) {
    check_script(
        rt,
        rt.alloc(),
        "spawn pending; push; poll 1 waits; shows 131; drop_task; ends 1 1 1 0; counted 0 0 0 0; \
         receive; runnable_shows 109; run; ends 1 1 1 0; counted 0 0 1 1",
    );
    check_script(
        rt,
        rt.alloc(),
        "spawn pending; push; receive; run; poll 1 waits; shows 030; drop_task; ends 1 1 1 0; counted 1 1 0 0; \
         receive; runnable_shows 109; run; ends 1 1 1 0; counted 1 1 1 1",
    );
}

// Where a pending task is detached before its run, or loses its Task after it, a closing Runnable is handed over, which the schedule value drops.
const LIVES: [&str; 7] = [
    "drop_each; spawn ready 1; poll 1 waits; run; drop_task; ends 1 1 1 0; counted 1 0 1 1",
    "drop_each; spawn ready 1; poll 1 waits; drop_runnable; drop_task; ends 1 1 1 0; counted 0 0 1 1",
    "drop_each; spawn ready 1; poll 1 waits; drop_task; run; ends 1 1 1 0; counted 0 0 1 1",
    "drop_each; spawn ready 1; poll 1 waits; detach; run; ends 1 1 1 0; counted 1 0 1 1",
    "drop_each; spawn pending; poll 1 waits; drop_task; run; ends 1 1 1 0; counted 0 0 1 1",
    "drop_each; spawn pending; poll 1 waits; detach; run; ends 1 1 0 1; counted 1 1 1 1",
    "drop_each; spawn pending; poll 1 waits; run; drop_task; ends 1 1 1 0; counted 1 1 1 1",
];

// A stored clone ends once: woken by value where the task ends as an awaited one, and dropped where nobody holds the task.
#[test]
fn a_stored_awaiter_ends_once(rt: HostRuntime) {
    for text in LIVES {
        check_script(rt, rt.alloc(), text);
    }
}
