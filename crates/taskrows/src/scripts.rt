//! The rows that are scripts, one after another as their comments say. Those with `|` have a second thread run, and the first one acts during its poll.

/// The Runnable is dropped, then the Task is detached.
pub const DROP_AND_DETACH: &str = "spawn ready 1; drop_runnable; counted 0 0 1 0; detach";

/// The Task is detached, then the Runnable is dropped.
pub const DETACH_AND_DROP: &str = "spawn ready 1; detach; counted 0 0 0 0; drop_runnable";

/// The Task is detached, then the run completes and drops the output.
pub const DETACH_AND_RUN: &str = "spawn ready 1; detach; counted 0 0 0 0; run; outputs 1";

/// The run completes, then the Task is detached, which drops the output.
pub const RUN_AND_DETACH: &str =
    "spawn ready 1; run; counted 1 0 1 0; outputs 0; detach; outputs 1";

/// The Task is dropped, which cancels; then the run drops the future unpolled.
pub const CANCEL_AND_RUN: &str = "spawn ready 1; drop_task; counted 0 0 0 0; run";

/// The Task is polled before and after the run, which wakes its awaiter; the second poll gets the output.
pub const CANCEL_JOIN: &str =
    "spawn ready 1; poll 1 waits; woken 1 0; run; woken 1 1; poll 1 gives 1; counted 1 0 1 0; drop_task; woken 1 1";

/// A waker of the Runnable wakes the task after each of two runs.
pub const WAKER: &str =
    "spawn pending; waker; run; wake_by_ref; queued 1; receive; run; wake; queued 1; told false false";

/// Clones of the waker that the future kept: one wakes the task, and one the completed task, which changes nothing.
pub const CLONE: &str =
    "spawn keep 1; detach; run; take_stored; clone_waker; drop_waker; clone_waker; clone_waker; wake; receive; run; counted 2 1 1 0; wake; counted 2 1 1 0; \
     queued 0; drop_waker; take_stored; drop_waker";

/// The wakers that the future kept wake a detached task: the first its second run, the second nobody.
pub const WAKE: &str =
    "spawn keep 1; detach; run; counted 1 0 0 0; take_stored; wake; counted 1 1 0 0; receive; run; counted 2 1 1 0; take_stored; wake";

/// The Runnable of a wake is dropped, which closes the task: a further wake changes nothing.
pub const WAKE_DROPPED: &str =
    "spawn keep 1; detach; run; take_stored; wake_by_ref; receive; drop_runnable; counted 1 1 1 0; queued 0; wake; queued 0";

/// The last waker of a detached task is dropped, which schedules a closing Runnable: its run drops the future unpolled.
pub const DROP_LAST_WAKER: &str =
    "spawn keep_pending; run; take_stored; detach; counted 1 0 0 0; drop_waker; counted 1 1 0 0; queued 1; told false; receive; run";

/// A task that may have two references: a waker beyond them is refused, also where a wake has made a Runnable.
pub const LIMIT: &str =
    "spawn_limited 2 pending; waker; waker_refused; runnable_shows 211; run; shows 110; wake_by_ref; queued 1; shows 211; clone_refused; shows 211";

/// The last run of a detached task ends pending and schedules a closing Runnable, whose run drops the future unpolled.
pub const LAST_RUN: &str =
    "spawn pending; detach; run; counted 1 1 0 0; queued 1; told false; receive; run";

/// The Runnable is dropped, which closes the task and wakes the awaiter: each later poll answers that no output will come.
pub const CLOSED_POLL: &str =
    "spawn ready 1; poll 1 waits; woken 1 0; drop_runnable; woken 1 1; finished; poll 1 closed; poll 1 closed; fallible; poll 1 closed; poll 1 closed; \
     woken 1 1";

/// A second poll whose clone is refused leaves the stored awaiter, which the run then wakes.
pub const REFUSED_CLONE: &str =
    "spawn ready 1; poll 1 waits; woken 1 0; refuse_clone 2; poll 2 refused; woken 1 0; shows 131; run; woken 1 1; woken 2 0";

/// The first thread wakes the task while it is polled: the run schedules its Runnable once more.
pub const WAKE_DURING_RUN: &str = "spawn pending; waker | run again | wake_by_ref | told true";

/// The first poll of a Cancel cancels the task: the run drops the future unpolled, and then the Cancel is ready.
pub const CANCEL_FUTURE: &str =
    "spawn ready 1; cancel; poll 1 waits; finished; woken 1 0; counted 0 0 0 0; run; woken 1 1; counted 0 0 1 0; poll 1 closed; woken 1 1";

/// The run of a task that was detached while it was awaited wakes the awaiter.
pub const AWAITER_COMPLETES: &str =
    "spawn ready 1; poll 1 waits; woken 1 0; detach; woken 1 0; run; woken 1 1";

/// The last run of a task that was detached while it was awaited forgets the awaiter, which is dropped unwoken.
pub const AWAITER_ORPHAN: &str =
    "spawn pending; poll 1 waits; woken 1 0; detach; run; counted 1 1 0 0; queued 1; told false; receive; run; ends 1 1 0 1";

/// A Runnable is scheduled three times, and goes through the queue each time.
pub const SCHEDULE_COUNTER: &str =
    "spawn pending; schedule; queued 1; receive; schedule; queued 1; receive; schedule; queued 1; told false false false";

/// The output of a future is what the Task's poll answers.
pub const SUM: &str = "spawn sum 1 2; run; poll 1 gives 3";

/// A Cancel of a task that has completed gets the output.
pub const RUN_AND_CANCEL: &str =
    "spawn ready 1; run; counted 1 0 1 0; outputs 0; cancel; poll 1 gives 1; outputs 1; drop_task; outputs 1";

/// The schedule value drops the Runnable, which closes the task, and returns before it is dropped itself.
pub const DROP_IN_SCHEDULE: &str =
    "drop_each; spawn ready 1; schedule; noted handed future returned; fallible; poll 1 closed";

/// The first thread drops the Task while the future is polled: the run drops the future, and nothing is scheduled.
pub const CANCEL_DURING_RUN: &str =
    "spawn keep_pending; run; take_stored; wake; receive | run | drop_task; counted 2 1 0 0; outputs 0 | queued 0; told false; counted 2 1 1 0; \
     take_stored; drop_waker";

/// The first thread wakes the task while the future is polled, and then drops the Task: the run drops the future.
pub const WAKE_AND_CANCEL: &str =
    "spawn keep_pending; run; take_stored; wake_by_ref; receive | run | wake; counted 2 1 0 0; drop_task; counted 2 1 0 0 | take_stored; drop_waker";

/// The first thread drops the Task while the future is polled, and then wakes: the run drops the future.
pub const CANCEL_AND_WAKE: &str =
    "spawn keep_pending; run; take_stored; wake_by_ref; receive | run | drop_task; counted 2 1 0 0; wake; counted 2 1 0 0 | take_stored; drop_waker";

/// The first thread detaches the Task while the future is polled: the run drops the output.
pub const DETACH_DURING_RUN: &str =
    "spawn ready 1 | run | detach; counted 1 0 0 0; outputs 0 | outputs 1";

/// The first thread drops the Task while the future is polled, which then answers ready: the run drops the output.
pub const DROP_DURING_RUN: &str =
    "spawn ready 1 | run | drop_task; counted 1 0 0 0; outputs 0 | outputs 1";

/// The first thread polls the Task while the future is polled: the run wakes the awaiter, and a second poll gets the output.
pub const POLL_DURING_RUN: &str =
    "spawn ready 1 | run | poll 1 waits; woken 1 0 | woken 1 1; poll 1 gives 1; woken 1 1";

/// The first poll of a Cancel cancels the task also where its awaiter cannot be cloned.
pub const CANCEL_REFUSED: &str =
    "spawn ready 1; refuse_clone 1; cancel; poll 1 refused; runnable_shows 119; finished; run; poll 1 closed; woken 1 0";

/// Three Runnables are dropped with the queue's contents, which closes their tasks and wakes their awaiters.
pub const CLEAR_QUEUE: &str =
    "spawn ready 1; schedule; poll 1 waits; woken 1 0; spawn ready 2; schedule; poll 2 waits; woken 2 0; spawn ready 3; schedule; poll 3 waits; woken 3 0; \
     queued 3; clear; queued 0; next_task; woken 1 1; poll 1 closed; woken 1 1; next_task; woken 2 1; poll 2 closed; woken 2 1; next_task; woken 3 1; poll \
     3 closed; woken 3 1";

/// The schedule value drops the Runnable of a wake, which closes the task: a further wake changes nothing.
pub const WAKE_INTO_DROP: &str =
    "drop_each; spawn pending; waker; run; wake_by_ref; finished; wake; counted 1 1 1 0; detach";

/// The poll drops the Task, and answers ready: the run drops the output, since nobody can ask for it.
pub const DROP_IN_POLL: &str = "spawn drop_task 1; keep_task; run; none_kept; outputs 1";
