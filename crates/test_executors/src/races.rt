//! Threads that race: what they do to one task, round after round, must come to the same end in whatever order they come.
//! Of what is only tested (docs/PROOFS.md): Threads.

mod awaiter;
mod handles;
mod raced;
mod registration_tests;
mod rounds;
mod task_tests;
mod waker_tests;
