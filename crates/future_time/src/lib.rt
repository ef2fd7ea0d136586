//! Timers for futures of every executor: `sleep`, `sleep_until`, `interval` and `timeout`; and a registry that notes when futures are polled.
//! It stands on the traits of `task_core`, on the wheel of the kit's `futures`, and on `slab` and `thiserror`.
//! A user makes `Timers`, has a thread drive them by `run` or calls `fire`, and makes the futures by their methods; or makes a `TaskRegistry`, and has it watch futures.
//! `TimerTable` and `WatchTable` with what they take and hand out, the lock of the first, `Ticks` and `Waited` are public only to carry the claims.
//! The page is README.md.
#![tactic(auto)]

mod entry;
mod interval;
mod order;
mod registry;
mod shared;
mod sleep;
mod ticks;
mod timeout;
mod timers;

pub use entry::table::{Ended, TimerTable};
pub use entry::{
    Closing, Driver, Due, Elapsed, Entry, Firing, Look, Looked, Notice, Own, Rest, Spare, TimerKey,
};
pub use interval::{Interval, Tick};
pub use registry::table::{LastPoll, Polling, WatchKey, WatchTable, WatchedTask};
pub use registry::{TaskRegistry, Watched};
pub use shared::Unlocked;
pub use sleep::{Closed, Sleep};
pub use ticks::Ticks;
pub use timeout::{Refused, Timeout, TimeoutError, Waited};
pub use timers::{TimerError, Timers};
