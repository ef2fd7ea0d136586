//! A Task as a future of the kit's crate `futures`, which sleeps until the task is over.
//! A user spawns a task whose type of awaiter is `KitAwaiter`, and wraps its Task in an `Awaits`, which makes that awaiter.
//! The reverse is left out: a wake of the kit rings a `Doorbell`, a closed type that calls no code of a user.
//! The page is KIT.md.

mod awaiter;
mod awaits;
mod debug;
mod slot;

pub use awaiter::KitAwaiter;
pub use awaits::{AwaitError, Awaits, AwaitsRefused};
