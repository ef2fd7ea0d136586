//! Wakers that any future may keep: their type names no future, so a library can offer futures that keep them.

mod blocking;
mod desk;
mod has_desk;
mod pool;
mod seat;
mod share;
mod sharing;

pub use blocking::block_on;
pub use desk::{Desk, MailWaker};
pub use has_desk::HasDesk;
pub use pool::PoolSharedWaker;
pub use seat::SharedWaker;
pub use share::Share;
pub use sharing::Sharing;
