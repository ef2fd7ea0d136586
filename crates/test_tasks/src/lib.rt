//! The tests of handles that no worked row makes; of the block below the cell; and of what `taskrows` prints and an allocator counts.
//! It stands on `rows_fixtures`, `async_task` and `counted_block`. The pointer over a block alone is public. The page is docs/PROOFS.md, of the block that of `counted_block`.
#![tactic(auto)]

mod blocks;
#[cfg(test)]
mod count_tests;
#[cfg(test)]
mod handles;
#[cfg(test)]
mod row_tests;

pub use blocks::{Keeper, Law, Pointer, View};
