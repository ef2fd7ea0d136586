//! Tests of wakes that a call makes too often, which only a wake that is acted on at once shows, or a poll beside the end of a run.

use crate::handles::check::check_script;

// The schedule value runs each Runnable before it returns. The run of the spawn polls, and that of the wake: a second wake by it would find the task idle once
// more.
#[test]
fn a_wake_by_value_wakes_once(rt: HostRuntime) {
    check_script(
        rt,
        rt.alloc(),
        "run_each; spawn pending; waker; run; wake; counted 2 1 0 0; detach; counted 2 2 1 1",
    );
}

// A Cancel is polled during the poll of the future, and while the output is dropped. The second poll takes its own awaiter before the run does that waits in
// the output's drop, and drops it unwoken: it answers by itself.
#[test]
fn a_poll_that_takes_its_own_awaiter_wakes_nobody(rt: HostRuntime) {
    check_script(
        rt,
        rt.alloc(),
        "arm_output; spawn ready 1; cancel | run | poll 1 waits; await_output; poll 1 closed; release_output | \
         met_output; ends 1 1 0 1",
    );
}
