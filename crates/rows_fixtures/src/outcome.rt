//! How a row ended.
ghost use Rattle.std.specs.Prelude.{◌≡◌, ◌↔◌, IsTrue};

use crate::counters::Counts;
use std::alloc::AllocError;
use std::fmt;

/// What a row lacks that has no outcome.
#[derive(Clone, Copy, Debug)]
pub enum Missing {
    /// There is no memory for it.
    Memory,
    /// No second thread can be started.
    Thread,
}

impl From<AllocError> for Missing {
    fn from(_refused: AllocError) -> Missing {
        Missing::Memory
    }
}

impl fmt::Display for Missing {
    fn fmt<W: fmt::Write>(&self, f: &mut fmt::Formatter<W>) -> fmt::Result {
        f.write_str(match self {
            Missing::Memory => "NO MEMORY",
            Missing::Thread => "NO THREAD",
        })
    }
}

/// What a row answers.
#[derive(Clone, Copy, Debug)]
pub struct Outcome {
    /// The counters at its end.
    pub counts: Counts,
    /// Whether all that it saw is what the row states.
    pub agrees: bool,
}

impl Outcome {
    /// The end of a row with these counters: it agrees where what it saw did, and where its counters are the expected ones.
    pub fn of(counts: Counts, agrees: bool, expected: Counts) -> Outcome
        ensures counts { result.counts ≡ counts }
        ensures agrees { IsTrue result.agrees ↔ (IsTrue agrees × (counts ≡ expected)) }
    {
        Outcome {
            counts,
            agrees: agrees && counts == expected,
        }
    }
}
