//! Tests of the limit of references: which waker is refused, and what a refusal leaves.
//! Of what is only tested (docs/PROOFS.md): Memory and limits.

use crate::handles::check::check_script;

// At a limit of 0 or 1 the Runnable of the spawn is all that may be: each waker is refused, and the word is as it was.
#[test]
fn a_limit_refuses_wakers(rt: HostRuntime) {
    for text in [
        "spawn_limited 0 pending; waker_refused; runnable_shows 111; drop_runnable; drop_task",
        "spawn_limited 1 pending; waker_refused; runnable_shows 111; drop_runnable; drop_task",
    ] {
        check_script(rt, rt.alloc(), text);
    }
}

// At a limit of 3 the second waker of a Runnable is given and the third refused, until a waker was dropped.
#[test]
fn a_runnable_gives_wakers_up_to_the_limit(rt: HostRuntime) {
    check_script(
        rt,
        rt.alloc(),
        "spawn_limited 3 pending; waker; runnable_shows 211; waker; runnable_shows 311; waker_refused; runnable_shows 311; \
         drop_waker; runnable_shows 211; waker; runnable_shows 311",
    );
}

// A waker whose clone was refused still wakes: where wakers have reached the limit, the Runnable of a wake is one reference more.
#[test]
fn a_waker_is_cloned_up_to_the_limit(rt: HostRuntime) {
    check_script(
        rt,
        rt.alloc(),
        "spawn_limited 2 pending; waker; run; clone_waker; shows 210; clone_refused; shows 210; drop_waker; shows 110; \
         clone_waker; shows 210; wake_by_ref; shows 311; clone_refused; drop_waker; drop_waker; shows 111; queued 1; \
         receive; run; drop_task",
    );
}

// At a limit of two references: the waker of a Runnable, a clone of a waker, and in the run a clone of the waker that is lent are refused while there is a waker; so
// are clones of a waker and of its clone after the run. No share of the cell stays behind.
#[test]
fn a_refused_waker_keeps_no_memory(rt: HostRuntime) {
    check_script(
        rt,
        rt.alloc(),
        "drop_each; spawn_limited 2 keep_pending; waker; waker_refused; clone_refused; run; none_stored; counted 1 0 0 0; \
         clone_waker; clone_refused; drop_waker; drop_waker; held; drop_task; freed; counted 1 1 1 1",
    );
}
