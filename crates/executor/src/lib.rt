//! A pool of threads that run the tasks of `async_task` and steal from one another.
//! It stands on `async_task`, on `work_queues`, which has the queues and the sleep of the workers, on the awaiters and groups of `executor_parts`, and on the kit's `slab` and `thiserror`.
//! A user calls `Pool`, `Turns` for loops of its own, and the functions of `kept`, and has groups as `PoolGroup`; a future reaches the pool by `waker.around()`, and keeps `Key`s. `Store` also serves other executors, and so do the wakers of `shared_waker`, which any future may keep.
//! `Rung` and what it names are public to carry the claim of a wake; the claims on queues and sleep are those of `work_queues`.
//! The page is docs/EXECUTOR_POOL.md.
#![tactic(auto)]

pub mod bell_awaiter;
mod deadlines;
mod debug;
mod due;
mod ending;
pub mod errors;
pub mod generic;
mod hooks;
pub mod kept;
pub mod kept_group;
mod mail;
pub mod members;
mod numbers;
mod parts;
pub mod pool;
mod posted;
mod ringing;
pub mod shared;
pub mod shared_waker;
mod spawning;
mod stage;
pub mod start;
pub mod store;
pub mod turns;

pub use bell_awaiter::BellAwaiter;
pub use errors::{NextMemberError, PoolSpawnError, SpawnRefusal, TurnsError};
pub use executor_parts::BlockOnError;
pub use kept::{
    KeptTask, KeptWaker, await_kept, collect, keep_new_waker, keep_task, keep_waker,
    place_for_task, place_for_waker, poll_kept, wake_kept, wake_posted,
};
pub use kept_group::KeptGroup;
pub use members::PoolGroup;
pub use numbers::PoolNumbers;
pub use pool::{Place, Pool, PoolRunnable, PoolTask, PoolWaker, ToPool};
pub use ringing::{PoolListener, Rung};
pub use shared::WithShared;
pub use start::{Team, Works};
pub use store::{Key, Store, Walk};
pub use turns::Turns;
pub use work_queues::{Settings, WorkerCounts};
