//! The machine of moves as a program: it plays steps, says where it stands and why a step is not allowed, and reads steps from lines and prints a row of a
//! table for each.
//! It stands on `task_laws`, whose machine its contracts name, on `task_progress` for the steps that a party has left, and on the kit's `strsim`.
//! A user calls `replay`, or steps a `player` and asks `refusal` for the reason. The program `replay_trace` calls `arguments::answer`, which prints; tests
//! use the other modules of what is read and printed too.
//! Nothing is public only to carry a claim.
//! The page is README.md; that of what is read and printed is the page of `replay_trace`.
#![tactic(auto)]

pub mod arguments;
mod holders;
pub mod input;
mod line;
pub mod machine;
pub mod names;
pub mod nearest;
pub mod player;
pub mod progress;
mod reason;
pub mod refusal;
pub mod row;
mod table;
pub mod trace;
mod ways;

pub use machine::{Machine, ReplayError, Slots, Step, replay};
