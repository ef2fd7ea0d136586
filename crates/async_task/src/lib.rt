//! A task for executors: the builder that spawns it, its Task, and the handles of the cell.
//! It stands on the cell of `task_cell`.
//! A user calls all of it: `spawn` and `Builder`, `Task`, `FallibleTask` and `Cancel`, `Runnable` and `TaskWaker`, and the forms in which they are kept.
//! No call is public only to carry a claim.
//! The pages are docs/GUIDE.md, docs/API.md and docs/RULES.md.
#![tactic(auto)]

pub mod builder;
pub mod cancel;
mod debug;
pub mod fallible;
pub mod parked;
pub mod task;

pub use builder::{Builder, SpawnError, spawn};
pub use cancel::Cancel;
pub use fallible::FallibleTask;
pub use parked::ParkedTask;
pub use task::{Task, TaskClosed};
pub use task_cell::{EndedCall, ParkedRunnable, ParkedWaker, Runnable, StoredWaker, TaskWaker};
pub use task_core::{Future, Poll, Schedule, ScheduleInfo, TaskPoll, Wake, WithInfo, Yields};
