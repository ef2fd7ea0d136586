//! The table of a cell, what its seats know, and how steps on it are made. Each step keeps the rule of the table.
//! It stands on the machine of `task_laws`, on the kit's `atomic_table`, and on `counted_block`.
//! A user calls nothing of it; `task_cell` builds its calls of these steps.
//! All that is public is so for `task_cell` and its claims.
//! The page is README.md, beside the code.
#![tactic(auto)]

pub mod attempt;
pub mod found;
pub mod kept;
pub mod places;
pub mod script;
pub mod table;

ghost use Rattle.task_steps.specs.Left.{EmptyAtClose};
ghost use Rattle.task_steps.specs.Values.{values_of};

pub use script::Knowing;
use task_core::Yields;

/// Wherever the rule of a cell's table holds, and a party has emptied the places, as who closes the last share has, nothing lies there: neither future, nor output, nor awaiter.
pub fn laws<F: Yields, A>()
    ensures empty { (spawned : F) → EmptyAtClose (values_of F.Yields spawned) A }
{}
