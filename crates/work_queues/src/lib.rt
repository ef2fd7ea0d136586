//! The queues of a pool of workers, and their sleep: what a pool keeps of its items, whatever they are.
//! It stands on the kit's `atomic_table`: one table has the rule of sleep (`Bells`), and one has the queues (`Board`).
//! A user of a pool calls only `interrupt` and `interruptions` of its `Bells`. A pool calls `Crew`, `Worker` and `Bells`, and has a `Limit` for each rest.
//! `Board`, `Queue`, the duties in `bells`, `shift` and the structs of `rule`, `watch`, `room` and `view` are public to carry the claims, and for the tests of `test_pool`.
//! The page is README.md.
#![tactic(auto)]

pub mod bells;
pub mod board;
pub mod crew;
pub mod limit;
pub mod moving;
pub mod queue;
pub mod room;
pub mod rule;
pub mod settings;
pub mod view;
pub mod watch;

pub use bells::Bells;
pub use board::Board;
pub use crew::{Crew, Worker, WorkerCounts, WorkerError};
pub use limit::{Limit, NoLimit};
pub use moving::shift;
pub use settings::Settings;
