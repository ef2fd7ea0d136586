//! The handles of a task: what no worked row makes, of the builder, and of Tasks and wakers. Most tests are scripts.

mod awaiter_tests;
mod builder_tests;
mod check;
mod ending_tests;
mod lent_tests;
mod limit_tests;
mod memory_tests;
mod poll_tests;
mod size_tests;
mod task_tests;
mod waker_tests;
