//! Parts for executors of your own: awaiters with a mailbox at which threads sleep, `block_on`, groups of tasks, a heap of Runnables by priority, and `kit`, a Task as a future of the kit.
//! It stands on the Task and the Runnable of `async_task`, on std's deque, heap, lock and condition variable, and on the kit's `slab`, `futures` and `thiserror`.
//! A user makes a `Mailbox`, gives its `Awaiter`s to polls, and takes the numbers out; or calls `block_on`, of what is `Awaited`; or awaits with `Nobody`; or makes a `TaskGroup`, whose members come out as `Ended` and which other threads abort by an `AbortHandle`; or keeps Runnables in a `PriorityHeap`. Who has an awaiter of another kind writes `Posts`, and `Listener` for who sleeps elsewhere.
//! `Numbers`, what a mailbox keeps under its lock, is public only to carry the claims on what is posted and taken. `Ended` has a ghost field by which its output meets what its future's type states.
//! The page is README.md, beside the code.
#![tactic(auto)]

mod abort_handle;
mod awaited;
mod blocking;
mod deadline;
mod debug;
mod ended;
mod errors;
mod group;
mod heap;
mod id;
pub mod kit;
mod listener;
mod mailbox;
mod nobody;
mod numbers;
mod posts;
mod requests;
mod shared;

pub use abort_handle::AbortHandle;
pub use awaited::Awaited;
pub use blocking::{BlockOnError, block_on};
pub use deadline::left_until;
pub use ended::Ended;
pub use errors::{AwaiterRefused, GroupFull, GroupSpawnError, NextUntilError};
pub use group::TaskGroup;
pub use heap::{PrioritizedRunnable, PriorityHeap};
pub use id::MemberId;
pub use listener::Listener;
pub use mailbox::contents::{Listens, Posted};
pub use mailbox::{Awaiter, Mailbox};
pub use nobody::Nobody;
pub use numbers::Numbers;
pub use posts::Posts;
pub use requests::AbortAsked;
