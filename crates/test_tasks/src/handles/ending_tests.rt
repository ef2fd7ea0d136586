//! Tests of the ways in which a task ends: in which order its parts are dropped, and that its block is given back with the last handle.
//! Of what is only tested (docs/PROOFS.md): Drops.

use crate::handles::check::check_script;

// Each way: the events of a life, and after each call whether the task has its one block, of which nothing is left at last.
const LIVES: [&str; 10] = [
    // A poll that is ready hands the output out, and the poller drops it. The Task is the last handle.
    "spawn ready 1; held; run; noted future; held; poll 1 gives 1; noted output; held; \
     drop_task; noted kept kept; freed; blocks 1; tags 1; counted 1 0 1 1",
    // The run drops an output that nobody can claim, after the future, and is the last handle.
    "spawn ready 1; held; detach; noted; held; \
     run; noted future output kept kept; freed; blocks 1; tags 1; counted 1 0 1 1",
    // The run drops it also where a waker is left, which is the last handle.
    "spawn ready 1; held; waker; detach; noted; held; run; noted future output; held; \
     drop_waker; noted kept kept; freed; blocks 1; tags 1; counted 1 0 1 1",
    // The drop of the Task drops the output. The block stays until the last of two wakers is dropped.
    "spawn ready 1; held; waker; waker; run; noted future; held; drop_task; noted output; held; drop_waker; noted; held; \
     drop_waker; noted kept kept; freed; blocks 1; tags 1; counted 1 0 1 1",
    // The drop of the Task closes the task, and its Runnable, which is run, drops the future. The waker is the last handle.
    "spawn ready 1; held; waker; drop_task; noted; held; run; noted future; held; \
     drop_waker; noted kept kept; freed; blocks 1; tags 1; counted 0 0 1 1",
    // The drop of the Task hands a Runnable over, and then wakes the awaiter. The future is dropped by that Runnable, the last handle.
    "spawn pending; held; run; noted; held; poll 1 waits; noted; held; drop_task; noted handed woken; held; \
     receive; run; noted future kept kept; freed; blocks 1; tags 1; counted 1 1 1 1",
    // The run drops the future after its poll, and is the last handle. It hands nothing over, though the task was woken.
    "spawn cancel; held; keep_task; run; noted future kept kept; freed; blocks 1; tags 1; counted 1 0 1 1",
    // The drop of the Runnable drops the future. The Task is the last handle.
    "spawn ready 1; held; drop_runnable; noted future; held; \
     drop_task; noted kept kept; freed; blocks 1; tags 1; counted 0 0 1 1",
    // The last waker hands a Runnable over, which drops the future and is the last handle. The awaiter is dropped unwoken as the slots are emptied, before the
    // memory goes.
    "spawn pending; held; waker; poll 1 waits; noted; held; detach; noted; held; run; noted; held; \
     drop_waker; noted handed; held; \
     receive; run; noted future unwoken kept kept; freed; blocks 1; tags 1; counted 1 1 1 1",
    // The detach hands a Runnable over, and has no handle left. The schedule value drops it, the last handle, and is kept with its block until it returns.
    "drop_each; spawn pending; held; run; noted; held; \
     detach; noted handed future returned kept kept; freed; blocks 1; tags 1; counted 1 1 1 1",
];

// The parts of a task are dropped once, in their order, and its block goes with the last handle, or with the call of the schedule value.
#[test]
fn a_task_ends_in_order_and_its_block_goes_last(rt: HostRuntime) {
    for text in LIVES {
        check_script(rt, rt.alloc(), text);
    }
}

// The maker was called once, with the metadata. A parked handle shows the metadata, and is the same handle once it is unparked.
#[test]
fn parked_handles_show_what_the_maker_was_called_with(rt: HostRuntime) {
    check_script(
        rt,
        rt.alloc(),
        "spawn pending; runnable_parks 111; parks 111; discard_runnable; drop_task; made 1; tags 1",
    );
}
