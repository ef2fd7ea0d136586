//! The cell of a task for callers that are not Rattle, in steps: each export makes the steps of a call up to the next act of foreign code, and answers which act is due.
//!
//! The future, the output, the awaiter, the schedule function and the metadata lie in the caller's memory. The cell has tokens in their places, so that the order of the acts is its own.
//! No export waits, and none calls foreign code. The page is README.md, beside the code.
#![tactic(auto)]

pub mod answers;
pub mod bits;
pub mod caller;
pub mod calls;
pub mod cancel;
pub mod detach;
pub mod discard;
pub mod ends;
pub mod grip;
pub mod hand;
pub mod handle;
pub mod hold;
pub mod lent;
pub mod look;
pub mod poll;
pub mod poll_exports;
pub mod register;
pub mod run;
pub mod schedule;
pub mod spawn;
pub mod step;
pub mod task_answers;
pub mod waker;
