//! The steps of the calls by name: which acts each makes, by the word that it finds.
ghost use Rattle.task_steps.specs.Knows.{known};
ghost use Rattle.task_steps.specs.Values.{values_of};
ghost use Rattle.std.specs.Prelude.{List, Bool, true, not};
ghost use Rattle.task_core.specs.Word.{State, state_of};
ghost use Rattle.task_core.specs.declared.acts.Act.{Act};

use crate::kept::Kept;
use crate::table::{TaskPlace, Terms, View};
use counted_block::{BlockPlay, CountPlay};
use task_core::Yields;

/// The acts of a step, by the word that it finds.
pub trait Script {
    ghost acts: { State → List Act };
}

/// A step that gives a handle up, and its share of the block with it: others are left where it `gives`, by the word that it finds, and else that was the last.
pub trait Giving: Script {
    ghost gives: { State → Bool };
}

/// A step that makes its acts whatever it finds, a load, a fetch or a store. It tells what its party knows of the word by what it has seen before.
pub struct Knowing<P: Script> {
    script: P,
}

impl<F: Yields, A, P: Script> BlockPlay<TaskPlace<F, Kept<F>, A>, View, Terms<F>> for Knowing<P> {
    ghost then = { λ terms. known (values_of F.Yields terms.future.value) P.acts };
}

impl<F: Yields, A, P: Giving> CountPlay<TaskPlace<F, Kept<F>, A>, View, Terms<F>> for Knowing<P> {
    ghost counts = { λ _ _. true };

    ghost lasts = { λ _ n. not (P.gives (state_of n)) };
}
