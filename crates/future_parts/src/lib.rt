//! Futures for every executor. Combinators: `ready`, `pending`, `yield_now`, `join`, `join_all` and `race`. What tasks share: a oneshot, a bounded channel, `Notify`, a semaphore and a mutex. A tracker of tasks, and threads for jobs that block.
//! It stands on the traits of `task_core`, on std's deque and lock, on `crossbeam_channel`, and on `thiserror`.
//! A user makes one by the function of its name, or by `Notify::new`, `Semaphore::new` or `AsyncMutex::new`, and gives the futures to an executor, or polls them in a future of its own.
//! `Half` and `KeptOutput`, what a `join` has of its futures, and `Single`, `Messages`, `Notices`, `Lent` and `KeptValue`, what lies under the locks, with what they consist of and what shows that a lock is free, are public only to carry the claims.
//! Each is a module. What it keeps under its lock stands in the folder of its name; of a oneshot in `asked`, beside the `Own` that it takes apart. `asked`, `due` and `shared` are what all of these stand on.
//! The page is README.md, beside the code.
#![tactic(auto)]

mod asked;
mod blocking;
mod channels;
mod due;
mod instant;
mod joining;
mod make;
mod mutex;
mod notify;
mod oneshots;
mod racing;
mod semaphore;
mod shared;
mod tracker;

pub use asked::line::{Line, Waiter};
pub use asked::permits::{Numbers, Permits, Sweep};
pub use asked::single::{OneReceiverEnd, OneSenderEnd, Single};
pub use asked::{Answer, Asked, Own, Place};
pub use blocking::{BlockingJobs, BlockingThread, Job, blocking_jobs};
pub use channels::messages::{
    Bounds, Messages, Received, ReceiverEnd, SenderEnd, Sent, TryReceiveError, TrySendError,
};
pub use channels::{Receiver, Receiving, Sender, Sending, channel};
pub use due::{Due, Spare, Step};
pub use instant::{Pending, Ready, YieldNow, yield_now};
pub use joining::Join;
pub use joining::all::{JoinAll, join_all};
pub use joining::half::{Half, KeptOutput};
pub use make::{join, pending, race, ready};
pub use mutex::kept_value::{KeptValue, ValueLease};
pub use mutex::{AsyncMutex, Guard, Lock};
pub use notify::notices::{Notice, Notices};
pub use notify::{Notified, Notify};
pub use oneshots::{OneReceiver, OneSender, oneshot};
pub use racing::{Race, Raced};
pub use semaphore::lent::{Lease, Lent};
pub use semaphore::{Acquire, Permit, Semaphore};
pub use shared::{Begins, Shared, Unlocked};
pub use tracker::{TaskTracker, Tracked, task_tracker};
