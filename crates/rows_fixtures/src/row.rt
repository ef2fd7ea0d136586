//! The worked rows: their numbers, their names, and which of them need threads.

use std::fmt;

/// A row, and its number.
#[derive(Clone, Copy)]
pub enum Row {
    /// A Runnable's drop, then `detach`.
    DropAndDetach = 1,
    /// `detach`, then the Runnable's drop.
    DetachAndDrop = 2,
    /// `detach`, then a run that completes.
    DetachAndRun = 3,
    /// A run that completes, then `detach`.
    RunAndDetach = 4,
    /// The Task's drop, then a run.
    CancelAndRun = 5,
    /// A poll of the Task before the run and one after it.
    CancelJoin = 6,
    /// A waker that wakes twice, by reference and by value.
    Waker = 7,
    /// Clones of a waker, and a wake of a task that has completed.
    WakerClone = 8,
    /// Two wakes of a detached task, the second after it has completed.
    WakerWake = 9,
    /// A wake whose Runnable is dropped, then one more wake.
    WakeDropped = 10,
    /// The drop of the last waker of a detached task that is pending.
    DropLastWaker = 11,
    /// A waker beyond the limit of references.
    Limit = 12,
    /// `detach`, then a run that ends pending.
    LastRun = 13,
    /// Polls of a Task whose Runnable was dropped.
    ClosedPoll = 14,
    /// A poll whose awaiter refuses to be cloned, after one that stored another awaiter.
    RefusedClone = 15,
    /// A wake by another thread during a poll.
    WakeDuringRun = 16,
    /// A Cancel that is polled before the run and after it.
    CancelFuture = 17,
    /// Three tasks with metadata, run in the order of it.
    Priorities = 18,
    /// A task of one thread.
    Local = 20,
    /// A poll of the Task, `detach`, and a run that completes.
    AwaiterCompletes = 21,
    /// A poll of the Task, `detach`, and a run that ends pending.
    AwaiterOrphan = 22,
    /// `schedule`, three times.
    ScheduleCounter = 23,
    /// A future that adds, and a poll of its Task.
    Sum = 24,
    /// A run that completes, then a Cancel that is polled.
    RunAndCancel = 25,
    /// A schedule value that drops the Runnable.
    DropInSchedule = 26,
    /// The Task's drop by another thread during a poll.
    CancelDuringRun = 27,
    /// A wake and then the Task's drop, by another thread during a poll.
    WakeAndCancel = 29,
    /// The Task's drop and then a wake, by another thread during a poll.
    CancelAndWake = 30,
    /// `detach` by another thread during a poll that answers ready.
    DetachDuringRun = 31,
    /// The Task's drop by another thread during a poll that answers ready.
    DropDuringRun = 32,
    /// A poll of the Task by another thread during a poll of the future.
    PollDuringRun = 33,
    /// A Cancel whose awaiter refuses to be cloned.
    CancelRefused = 34,
    /// Three Runnables that are dropped out of the queue.
    ClearQueue = 35,
    /// A wake whose Runnable the schedule value drops.
    WakeIntoDrop = 36,
    /// A poll that drops the Task.
    DropInPoll = 37,
    /// Four tasks of given priorities, two of them alike.
    Priority = 38,
    /// A task that wakes itself during its first poll, beside one of lower priority.
    PriorityYield = 39,
    /// Two tasks, and a queue with room for one.
    PriorityFull = 40,
}

impl Row {
    /// The rows, in order of number.
    pub const ALL: [Row; 38] = [
        Row::DropAndDetach,
        Row::DetachAndDrop,
        Row::DetachAndRun,
        Row::RunAndDetach,
        Row::CancelAndRun,
        Row::CancelJoin,
        Row::Waker,
        Row::WakerClone,
        Row::WakerWake,
        Row::WakeDropped,
        Row::DropLastWaker,
        Row::Limit,
        Row::LastRun,
        Row::ClosedPoll,
        Row::RefusedClone,
        Row::WakeDuringRun,
        Row::CancelFuture,
        Row::Priorities,
        Row::Local,
        Row::AwaiterCompletes,
        Row::AwaiterOrphan,
        Row::ScheduleCounter,
        Row::Sum,
        Row::RunAndCancel,
        Row::DropInSchedule,
        Row::CancelDuringRun,
        Row::WakeAndCancel,
        Row::CancelAndWake,
        Row::DetachDuringRun,
        Row::DropDuringRun,
        Row::PollDuringRun,
        Row::CancelRefused,
        Row::ClearQueue,
        Row::WakeIntoDrop,
        Row::DropInPoll,
        Row::Priority,
        Row::PriorityYield,
        Row::PriorityFull,
    ];

    /// The rows that need no threads, in order of number.
    pub const WITHOUT_THREADS: [Row; 31] = [
        Row::DropAndDetach,
        Row::DetachAndDrop,
        Row::DetachAndRun,
        Row::RunAndDetach,
        Row::CancelAndRun,
        Row::CancelJoin,
        Row::Waker,
        Row::WakerClone,
        Row::WakerWake,
        Row::WakeDropped,
        Row::DropLastWaker,
        Row::Limit,
        Row::LastRun,
        Row::ClosedPoll,
        Row::RefusedClone,
        Row::CancelFuture,
        Row::Priorities,
        Row::Local,
        Row::AwaiterCompletes,
        Row::AwaiterOrphan,
        Row::ScheduleCounter,
        Row::Sum,
        Row::RunAndCancel,
        Row::DropInSchedule,
        Row::CancelRefused,
        Row::ClearQueue,
        Row::WakeIntoDrop,
        Row::DropInPoll,
        Row::Priority,
        Row::PriorityYield,
        Row::PriorityFull,
    ];

    /// The rows that need threads, in order of number.
    pub const THREADS: [Row; 7] = [
        Row::WakeDuringRun,
        Row::CancelDuringRun,
        Row::WakeAndCancel,
        Row::CancelAndWake,
        Row::DetachDuringRun,
        Row::DropDuringRun,
        Row::PollDuringRun,
    ];

    /// The name that is printed.
    pub fn name(self) -> &'static str {
        match self {
            Row::DropAndDetach => "drop_and_detach",
            Row::DetachAndDrop => "detach_and_drop",
            Row::DetachAndRun => "detach_and_run",
            Row::RunAndDetach => "run_and_detach",
            Row::CancelAndRun => "cancel_and_run",
            Row::CancelJoin => "cancel_join",
            Row::Waker => "waker",
            Row::WakerClone => "clone",
            Row::WakerWake => "wake",
            Row::WakeDropped => "wake_dropped",
            Row::DropLastWaker => "drop_last_waker",
            Row::Limit => "limit",
            Row::LastRun => "last_run",
            Row::ClosedPoll => "closed_poll",
            Row::RefusedClone => "refused_clone",
            Row::WakeDuringRun => "wake_during_run",
            Row::CancelFuture => "cancel_future",
            Row::Priorities => "priorities",
            Row::Local => "local",
            Row::AwaiterCompletes => "awaiter_completes",
            Row::AwaiterOrphan => "awaiter_orphan",
            Row::ScheduleCounter => "schedule_counter",
            Row::Sum => "sum",
            Row::RunAndCancel => "run_and_cancel",
            Row::DropInSchedule => "drop_in_schedule",
            Row::CancelDuringRun => "cancel_during_run",
            Row::WakeAndCancel => "wake_and_cancel",
            Row::CancelAndWake => "cancel_and_wake",
            Row::DetachDuringRun => "detach_during_run",
            Row::DropDuringRun => "drop_during_run",
            Row::PollDuringRun => "poll_during_run",
            Row::CancelRefused => "cancel_refused",
            Row::ClearQueue => "clear_queue",
            Row::WakeIntoDrop => "wake_into_drop",
            Row::DropInPoll => "drop_in_poll",
            Row::Priority => "priority",
            Row::PriorityYield => "priority_yield",
            Row::PriorityFull => "priority_full",
        }
    }
}

impl fmt::Display for Row {
    fn fmt<W: fmt::Write>(&self, f: &mut fmt::Formatter<W>) -> fmt::Result {
        let number = *self as u8;
        let name = self.name();
        write!(f, "{number:02} {name}")
    }
}
