//! The block below the cell, `counted_block`, from above, in safe code: a pointer that several owners share, and the calls that it does not make.

#[cfg(test)]
mod block_ending_tests;
mod keeper;
mod law;
mod pointer;
#[cfg(test)]
mod pointer_tests;
#[cfg(test)]
mod slot_tests;

pub use keeper::Keeper;
pub use law::{Law, View};
pub use pointer::Pointer;
