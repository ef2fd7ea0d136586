//! The word of a task and the steps on it, the names of what a party does, and the traits of an executor's own types.
//! It stands on std alone.
//! A user implements `Future`, `Wake` and `Schedule`, and meets `Poll`, `TaskPoll`, `ScheduleInfo` and `Yields` there.
//! `word` and `acts` are public for the crates above, whose claims speak in them.
//! The pages are docs/RULES.md for the traits and docs/MACHINE.md for the word.
#![tactic(auto)]

pub mod acts;
pub mod by_row;
pub mod table;
pub mod traits;
pub mod word;

pub use traits::{Future, Poll, Schedule, ScheduleInfo, TaskPoll, Wake, WithInfo, Yields};
