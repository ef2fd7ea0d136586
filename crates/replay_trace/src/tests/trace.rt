//! The lines that `replay_trace` reads, and what it prints: whole inputs, how far each party is, and writers that fail.

mod input_tests;
mod progress_tests;
mod trace_tests;
