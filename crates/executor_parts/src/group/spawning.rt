//! Spawning a task of a group.
ghost use Rattle.std.specs.Prelude.{◌≡◌, ◌↔◌, ◌<◌, ◌+◌, ◌^◌, false, Some, IsTrue, IsErr, IfOk, IfErr, OnErr, OnOk};
ghost use Rattle.slab.specs.Slab.{slab_len};
ghost use Rattle.task_core.specs.Yielded.{Yielded};
ghost use Rattle.task_cell.specs.Handed.{HandedOver};
ghost use Rattle.executor_parts.specs.Members.{Joins};
ghost use Rattle.executor_parts.specs.Generations.{StaySpent, generation_at};
ghost use Rattle.executor_parts.specs.Outputs.{GivesAlso};

use super::TaskGroup;
use crate::errors::GroupSpawnError;
use crate::posts::Posts;
use async_task::{Runnable, Schedule, SpawnError, Yields, spawn};
use std::alloc::Allocator;
use std::sync::Wait;

impl<
    R: Wait + Drop + Copy,
    F: Yields,
    Q: Drop,
    A: Posts<R>,
    X: Copy,
    B: Allocator + Copy,
> TaskGroup<R, F, Q, (), A, X, B>
where
    Q: Schedule<Runnable<R, F, Q, (), A, X, B>>,
{
    /// Spawns a task of the group, under a number that no other member has, and schedules it.
    ///
    /// `alloc` is where the memory of the task comes from, `schedule` what takes its Runnables, `around` what its handles carry.
    /// An `Err` hands the future and the schedule value back, and says whether the group was full; otherwise there was no memory.
    pub fn spawn(
        &mut self,
        alloc: B,
        future: F,
        schedule: Q,
        around: X,
    ) -> Result<usize, GroupSpawnError<F, Q>>
        ensures full { slab_len self.old.members ≡ self.old.members.capacity → IsErr result }
        ensures why { IfErr result (λ refused. IsTrue refused.is_full ↔ (slab_len self.old.members ≡ self.old.members.capacity)) }
        ensures returned { IfErr result (λ refused. (refused.future ≡ future) × (refused.schedule ≡ schedule)) }
        ensures unchanged { OnErr result (self.new ≡ self.old) }
        ensures scheduled { OnOk result ((cell : _) × (cell.1.schedule ≡ schedule) × HandedOver Q.scheduled cell around false) }
        ensures joins { IfOk result (λ number. Joins self.old.members self.new.members number) }
        ensures member { IfOk result (λ number. generation_at self.new.members number ≡ Some self.old.joined) }
        ensures joined { OnOk result (self.old.joined + 1 < 2 ^ 64 → self.new.joined ≡ self.old.joined + 1) }
        ensures spent { StaySpent self.old.joined self.old.members self.new.joined self.new.members }
        ensures gives { IfOk result (λ number. GivesAlso self.old.members self.new.members number (Yielded F.Yields.moves future)) }
        ensures room { self.new.members.capacity ≡ self.old.members.capacity }
    {
        let is_full = self.is_full();
        if is_full {
            return Err(GroupSpawnError {
                is_full,
                future,
                schedule,
            });
        }
        match spawn(self.rt, alloc, future, schedule, around) {
            Ok((runnable, task)) => {
                let number = self.join(task);
                runnable.schedule();
                Ok(number)
            }
            Err(
                SpawnError {
                    builder: _,
                    maker: future,
                    schedule,
                },
            ) => Err(GroupSpawnError {
                is_full,
                future,
                schedule,
            }),
        }
    }
}
