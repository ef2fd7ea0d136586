//! What rows and tests stand on: a future, an output, a schedule value, a metadata and an awaiter that count and note what happens to them; a queue, and stores
//! of handles; scripts of calls, and their player; how a row ended, and what an allocator was asked for; a writer that fails; and the rows, with what `taskrows`
//! prints of them.
//! It stands on `async_task` and `executor_parts`.
//! A user calls nothing of it; rows and tests do, and `bench_tasks` of the allocator that counts.
//! Nothing is public only to carry a claim.
//! The page is that of `taskrows`.
#![tactic(auto)]

pub mod behaviour;
pub mod counters;
pub mod counting;
pub mod executor;
pub mod fixture;
pub mod flag;
pub mod future;
pub mod held;
pub mod limited;
pub mod outcome;
pub mod output;
pub mod player;
pub mod rendezvous;
pub mod report;
pub mod row;
pub mod script;
mod shown;
pub mod surroundings;
pub mod words;
