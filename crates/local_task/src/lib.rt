//! A task for executors of one thread, as one owned value.
//! It stands on the traits of `task_core`.
//! A user calls `LocalTask`; `Start` and `Settled` are answers of its runs.
//! `laws` is public to carry the claim on every list of calls.
//! The page is docs/RULES.md, section 9.
#![tactic(auto)]

pub mod task;

pub use task::{LocalTask, Settled, Start, laws};
pub use task_core::{Poll, ScheduleInfo, TaskPoll, Wake};
