//! The tests of the machine as a program: lives of a task, replayed, each reason to refuse a step, memory that is refused, and what is read and printed.

mod lives;
mod memory;
mod refusals;
mod stops;
mod told;
mod trace;
mod turns;
