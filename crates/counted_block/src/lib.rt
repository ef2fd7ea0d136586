//! One heap block: a word of the user's, a word of holds, two slots and a value. Its memory goes by the words: how many shares of it are out is a function of the first, under a rule of the user's, and the second counts the holds.
//!
//! A crate above it writes safe code, and proves facts about plain data.
#![tactic(auto)]

mod bare;
mod closing;
mod counts;
mod hold;
mod inner;
mod last;
mod lends;
mod making;
mod place;
mod remains;
mod rule;
mod seat;
mod seen;
mod share;
mod slots;
mod walking;

pub use bare::Bare;
pub use hold::Hold;
pub use inner::Inner;
pub use last::LastShare;
pub use place::Place;
pub use rule::{BlockPlay, BlockRule, CountPlay};
pub use seat::{Ledger, Seat};
pub use seen::Seen;
pub use share::{MaybeShare, Share};
