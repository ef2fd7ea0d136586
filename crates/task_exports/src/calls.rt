//! The calls of the interface, as a caller makes them of the exports: it does what each answer asks for, and an answer that it does not know ends its process, which is `None`. They are generic in the caller, and no part of the archive.
//!
//! A handle lies in a place. To an export that gets it by its bits it crosses by `by_bits`, and comes back.

/// Calls an export by the bits of the handle at a place, and puts back what it leaves: what it answers.
macro_rules! by_bits {
    ($h:ident, $export:ident $(, $told:expr)?) => {{
        let (bits, address) = $crate::calls::crossing::lend($h);
        $crate::calls::crossing::back($h, address, $export(bits $(, $told)?))
    }};
}

pub mod cancel;
pub mod crossing;
pub mod detach;
pub mod discard;
pub mod ends;
pub mod hold;
pub mod lending;
pub mod poll;
pub mod run;
pub mod spawn;
pub mod waker;
