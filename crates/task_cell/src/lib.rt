//! The cell of a task, on one atomic word; its Runnables, and its wakers.
//! It stands on the rule and the places of `task_steps`. Each call has a file, which begins with the changes of the word that it makes; `attempt.rt` has how one is tried.
//! A user calls `Runnable`, `TaskWaker`, and the forms in which they are kept, by way of `async_task`.
//! `Cell`, `Party`, `EndedCall`, `Share` and `Kept` are public for `async_task`, and to carry the claims on the path of each call; with them `MaybeShare`, `LastShare` and `CellHold` for `task_exports`, which makes the steps one by one.
//! The pages are README.md, beside the code, and docs/RULES.md.
#![tactic(auto)]

mod attempt;
mod awaiter;
mod cell;
mod closing;
mod debug;
mod poll;
mod reference;
mod run;
mod runnable;
mod share;
mod spawn;
mod wake;
mod waker;

pub use cell::{Cell, CellHold, EndedCall, LastShare, MaybeShare, Party, Share};
pub use runnable::{ParkedRunnable, Runnable};
pub use spawn::LaidCell;
pub use task_steps::table::Kept;
pub use waker::{ParkedWaker, StoredWaker, TaskWaker};
