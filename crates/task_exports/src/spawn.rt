//! The beginning of a cell.
ghost use Rattle.std.specs.Prelude.{◌≡◌, false};
ghost use Rattle.task_exports.specs.Answers.{Made};

use crate::answers::{DONE, MISSED};
use crate::hand::{Elsewhere, Hand};
use crate::handle::{Handle, put};
use std::alloc::Global;
use task_cell::LaidCell;
use task_core::word::LIMIT;

/// Makes a cell: 12, with its Runnable and its Task; 0, memory was refused.
#[unsafe(no_mangle)]
pub extern "C" fn async_task_new(alloc: Global, runnable: &mut Handle, task: &mut Handle) -> u32
    requires room { (runnable.old.there ≡ false) × (task.old.there ≡ false) }
    ensures { Made result runnable.new task.new }
{
    match LaidCell::make((), alloc, (), (), LIMIT) {
        Ok(laid) => {
            let (first, second, of_runnable, of_task) = laid.fill(Elsewhere);
            put(
                runnable,
                Hand {
                    share: first.into_maybe(),
                    party: of_runnable,
                },
            );
            put(
                task,
                Hand {
                    share: second.into_maybe(),
                    party: of_task,
                },
            );
            DONE
        }
        Err(_) => MISSED,
    }
}
