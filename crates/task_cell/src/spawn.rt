//! The start of a cell: its memory, and the future that is put in.
ghost use Rattle.std.specs.Prelude.{◌≡◌, ◌<◌, ◌^◌, [], IfOk, IfErr};
ghost use Rattle.task_steps.specs.Spawns.{opening_runnable, opening_task};
ghost use Rattle.task_steps.specs.Standing.{as_runnable, as_task};
ghost use Rattle.task_cell.specs.Belongs.{IsOf, IsSame, limit_in, spawned_in};
ghost use Rattle.task_cell.specs.Calls.{Stands, deeds, limit_of};

use crate::cell::{Cell, Party, Share};
use atomic_table::Split;
use std::alloc::Allocator;
use task_core::Yields;
use task_steps::table::{Kept, Laid, View, lay};

// The Task gets a seat of its own.
pub(crate) struct Opening;

impl Split<View> for Opening {
    ghost left = { opening_runnable };

    ghost right = { opening_task };
}

/// The memory of a task, with what its handles will see. It must be filled with the future.
pub struct LaidCell<R, F: Yields, Q, M, A, B: Allocator + Copy> {
    laid: Laid<F, Kept<F>, A, Cell<R, Q, M, B>, B>,
    ghost fitting: { (laid.whole.value.value.limit < 2 ^ 55) × (laid.whole.alloc ≡ laid.whole.value.value.alloc) },
}

impl<R: Drop, F: Yields, Q: Drop, M: Drop, A: Drop, B: Allocator + Copy> LaidCell<
    R,
    F,
    Q,
    M,
    A,
    B,
> {
    /// Finds the memory of a task; or hands back what was given, where memory was refused. `limit` is the limit of references.
    pub fn make(rt: R, alloc: B, schedule: Q, metadata: M, limit: u64) -> Result<Self, (Q, M)>
        requires { limit < 2 ^ 55 }
        ensures given { IfOk result (λ made. let cell = made.laid.whole.value.value in (cell.metadata ≡ metadata) × (cell.schedule ≡ schedule) × (cell.limit ≡ limit)) }
        ensures refused { IfErr result (λ back. (back.0 ≡ schedule) × (back.1 ≡ metadata)) }
    {
        let cell = Cell {
            schedule,
            metadata,
            limit,
            rt,
            alloc,
        };
        match lay(alloc, cell) {
            Ok(laid) => Ok(LaidCell { laid }),
            Err(
                Cell {
                    schedule,
                    metadata,
                    limit: _,
                    rt: _,
                    alloc: _,
                },
            ) => Err((schedule, metadata)),
        }
    }

    /// What the builder was given as metadata.
    pub fn metadata(&self) -> &M
        ensures { result.now ≡ self.now.laid.whole.value.value.metadata }
    {
        &self.laid.value().metadata
    }

    /// Puts the future in: the shares and the parties of the Runnable and of the Task.
    pub fn fill(
        self,
        future: F,
    ) -> (
        Share<R, F, Q, M, A, B>,
        Share<R, F, Q, M, A, B>,
        Party<F, Kept<F>, A>,
        Party<F, Kept<F>, A>,
    )
        ensures same { IsSame result.0 result.1 }
        ensures given { (result.0.block.value ≡ self.laid.whole.value.value) × (limit_in result.0 ≡ self.laid.whole.value.value.limit) }
        ensures spawned { spawned_in result.0 ≡ future }
        ensures cell { IsOf result.0 result.2 × IsOf result.0 result.3 }
        ensures limit { (limit_of result.2 ≡ limit_in result.0) × (limit_of result.3 ≡ limit_in result.0) }
        ensures runnable { Stands as_runnable result.2 × (deeds result.2 ≡ []) }
        ensures task { Stands (as_task 0) result.3 × (deeds result.3 ≡ []) }
    {
        let LaidCell { laid } = self;
        let limit = laid.value().limit;
        let (first, second, seat) = laid.fill(limit, future);
        let first = Share { block: first };
        let second = Share { block: second };
        let mut runnable = Party { seat };
        let task = first.split::<Opening>(&mut runnable);
        (first, second, runnable, task)
    }
}
