//! The benchmarks of one thread: their names, and what one operation of each does.

mod executing;
mod spawning;
mod waking;

use crate::failure::Failure;
use std::alloc::Allocator;
use std::sync::Wait;

/// A benchmark of one thread, by what one operation of it is.
#[derive(Clone, Copy)]
pub enum Benchmark {
    /// A spawn, a run to the output, a poll of the Task and its drop.
    SpawnRunPollDrop,
    /// A spawn, a detach and a run to the output.
    SpawnDetachRun,
    /// As the first, with a poll before the run, which registers an awaiter.
    SpawnPollRunPollDrop,
    /// A wake of an idle task and a run of it, by a place without a lock.
    WakeRunSlot,
    /// The same by a queue under a lock.
    WakeRunQueue,
    /// A run of a task that its own poll wakes, by a place without a lock.
    SelfWakeRunSlot,
    /// A wake of a scheduled task.
    WakeScheduled,
    /// A wake of a completed task.
    WakeCompleted,
    /// A question whether a completed task is finished.
    IsFinished,
    /// A poll of the Task of a scheduled task, which registers the awaiter.
    RegisterAwaiter,
    /// A clone of a waker, and its drop.
    CloneDrop,
    /// A spawn, a drop of the Runnable and one of the Task.
    SpawnDropDrop,
    /// A task of 1,000 in one queue, from its spawn to its end.
    Execute1000,
    /// The same, where each task gives way 10 times.
    Execute1000Yield10,
    /// The same with 10,000 tasks.
    Execute10000Yield10,
}

impl Benchmark {
    /// All of them, in the order in which they are printed.
    pub const ALL: [Benchmark; 15] = [
        Benchmark::SpawnRunPollDrop,
        Benchmark::SpawnDetachRun,
        Benchmark::SpawnPollRunPollDrop,
        Benchmark::WakeRunSlot,
        Benchmark::WakeRunQueue,
        Benchmark::SelfWakeRunSlot,
        Benchmark::WakeScheduled,
        Benchmark::WakeCompleted,
        Benchmark::IsFinished,
        Benchmark::RegisterAwaiter,
        Benchmark::CloneDrop,
        Benchmark::SpawnDropDrop,
        Benchmark::Execute1000,
        Benchmark::Execute1000Yield10,
        Benchmark::Execute10000Yield10,
    ];

    /// The name that is printed.
    pub fn name(self) -> &'static str {
        match self {
            Benchmark::SpawnRunPollDrop => "a_spawn_run_poll_drop",
            Benchmark::SpawnDetachRun => "a2_spawn_detach_run",
            Benchmark::SpawnPollRunPollDrop => "a3_spawn_poll_run_poll_drop",
            Benchmark::WakeRunSlot => "b_wake_run_slot",
            Benchmark::WakeRunQueue => "b_wake_run_mutex_queue",
            Benchmark::SelfWakeRunSlot => "b2_self_wake_run_slot",
            Benchmark::WakeScheduled => "b3_wake_by_ref_scheduled",
            Benchmark::WakeCompleted => "b4_wake_by_ref_completed",
            Benchmark::IsFinished => "b5_task_is_finished",
            Benchmark::RegisterAwaiter => "b6_task_poll_pending_register",
            Benchmark::CloneDrop => "c_waker_clone_drop",
            Benchmark::SpawnDropDrop => "d_spawn_drop_drop",
            Benchmark::Execute1000 => "e_executor_n1000_k0_per_task",
            Benchmark::Execute1000Yield10 => "e_executor_n1000_k10_per_task",
            Benchmark::Execute10000Yield10 => "e_executor_n10000_k10_per_task",
        }
    }

    /// The name under which the allocations of one operation are printed, where they are.
    pub fn heap_name(self) -> Option<&'static str> {
        match self {
            Benchmark::SpawnRunPollDrop => Some("a_heap"),
            Benchmark::WakeRunQueue => Some("b_heap"),
            Benchmark::CloneDrop => Some("c_heap"),
            Benchmark::SpawnDropDrop => Some("d_heap"),
            Benchmark::Execute1000 => Some("e_executor_n1000_k0_heap_per_task"),
            Benchmark::Execute1000Yield10 => Some("e_executor_n1000_k10_heap_per_task"),
            Benchmark::Execute10000Yield10 => Some("e_executor_n10000_k10_heap_per_task"),
            _ => None,
        }
    }

    /// The benchmark of that name.
    pub fn named(name: &str) -> Option<Benchmark> {
        for benchmark in Benchmark::ALL {
            if benchmark.name() == name {
                return Some(benchmark);
            }
        }
        None
    }
}

/// Does `count` operations, or the next whole number of executors' tasks: how many it did.
pub fn perform<R: Wait + Drop + Copy, B: Allocator + Copy>(
    benchmark: Benchmark,
    rt: R,
    alloc: B,
    count: u64,
) -> Result<u64, Failure> {
    let done = match benchmark {
        Benchmark::SpawnRunPollDrop => spawning::run_and_poll(rt, alloc, count),
        Benchmark::SpawnDetachRun => spawning::detach_and_run(rt, alloc, count),
        Benchmark::SpawnPollRunPollDrop => spawning::poll_run_and_poll(rt, alloc, count),
        Benchmark::WakeRunSlot => waking::wake_and_run_by_slot(rt, alloc, count),
        Benchmark::WakeRunQueue => waking::wake_and_run_by_queue(rt, alloc, count),
        Benchmark::SelfWakeRunSlot => waking::wake_in_run(rt, alloc, count),
        Benchmark::WakeScheduled => waking::wake_scheduled(rt, alloc, count),
        Benchmark::WakeCompleted => waking::wake_completed(rt, alloc, count),
        Benchmark::IsFinished => waking::is_finished(rt, alloc, count),
        Benchmark::RegisterAwaiter => waking::register_awaiter(rt, alloc, count),
        Benchmark::CloneDrop => waking::clone_and_drop(rt, alloc, count),
        Benchmark::SpawnDropDrop => spawning::drop_both(rt, alloc, count),
        Benchmark::Execute1000 => return executing::execute(rt, alloc, 1000, 0, count),
        Benchmark::Execute1000Yield10 => return executing::execute(rt, alloc, 1000, 10, count),
        Benchmark::Execute10000Yield10 => {
            return executing::execute(rt, alloc, 10_000, 10, count);
        }
    };
    done?;
    Ok(count)
}
