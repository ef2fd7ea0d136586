//! The schedule value of the examples whose tasks are run by hand.
//! It drops each Runnable that it is given, which cancels the task: none of these tasks is woken.
ghost use Rattle.std.specs.Prelude.{⊤};

use async_task::{Schedule, ScheduleInfo};

/// A schedule value that drops each Runnable.
#[derive(Drop)]
pub struct DropsRunnables;

impl<N: Drop> Schedule<N> for DropsRunnables {
    ghost scheduled = { λ _ _ _. ⊤ };

    fn schedule(&self, _runnable: N, _info: ScheduleInfo) {}
}
