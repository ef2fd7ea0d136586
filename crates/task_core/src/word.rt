//! The word of a task: eight flags and a count of references.
ghost use Rattle.std.specs.Prelude.{◌≡◌, ◌<◌, ◌+◌, ◌-◌, ◌^◌, ◌&&◌, ◌||◌, not, nat_eq, nat_lt};
ghost use Rattle.task_core.specs.Word.{State, state_of, number_of, is_open, orphan_word, with_flags, without_flags};

use std::marker::Model;

/// A Runnable exists, or is due when the run ends. Set by the spawn and by a wake of an open task, and as an idle task is cancelled or loses its last handle, since a Runnable then drops the future. It can stand beside `RUNNING`, and beside `CLOSED` until the Runnable of a cancelled task is run or dropped, never beside `COMPLETED`.
pub const SCHEDULED: u64 = 0x01;

/// A run is polling the future. It can stand beside `SCHEDULED`, if a wake came during the poll, and beside `CLOSED`, if a cancel did, never beside `COMPLETED`.
pub const RUNNING: u64 = 0x02;

/// The future has answered `Poll::Ready`. Never cleared. Until `CLOSED` stands too, the output is there.
pub const COMPLETED: u64 = 0x04;

/// The task was cancelled, or its output was claimed or given up. Never cleared: no poll of the future begins any more, and a wake changes nothing.
pub const CLOSED: u64 = 0x08;

/// The Task exists. It stands from the spawn on, and is never set again once it was detached.
pub const TASK: u64 = 0x10;

/// An awaiter is stored that must be woken. Only a poll of the Task sets it, as it ends its registering; who takes the awaiter clears it.
pub const AWAITER: u64 = 0x20;

/// The Task is storing an awaiter. It stands within one poll of the Task. Beside `NOTIFYING` it says that a notifier came meanwhile: the poll takes the awaiter in its place.
pub const REGISTERING: u64 = 0x40;

/// A party is taking the awaiter, or came while the Task was storing one. It stands until that party or that poll has taken it: who finds it leaves the awaiter to them.
pub const NOTIFYING: u64 = 0x80;

/// One reference: Runnables, runs and wakers are counted above the flags.
pub const REFERENCE: u64 = 0x100;

/// The largest limit of references, `(1 << 55) - 1`: a count at it can still grow without reaching the end of the number.
pub const LIMIT: u64 = 36_028_797_018_963_967;

/// Eight flags and a count of references. Contracts see it as a `State`, and memory holds it as a number.
#[tactic(auto, using(crate::proofs::Bits::words))]
#[derive(Clone, Copy, Debug, PartialEq, Eq)]
pub struct Word(u64);

impl Model for Word {
    ghost use Rattle.task_core.specs.Word.{State, state_of, number_of};
    ghost use Rattle.task_core.specs.Number.{number_of_state_of};

    ghost Value = { State };

    ghost view = { λ w. state_of w.0 };

    ghost inverse = { λ w. record { 0 = number_of w } };

    ghost inverse_ok = { λ w h i. record { 0 = number_of_state_of w.0 i } };
}

/// Reading a word, and writing its flags and its count.
#[tactic(auto, using(crate::proofs::Bits::words))]
impl Word {
    /// The word that a number found in memory stands for. Each number stands for one.
    pub fn from_bits(bits: u64) -> Word
        ensures { result ≡ state_of bits }
    {
        Word(bits)
    }

    /// The number that stands in memory for this word.
    pub fn bits(self) -> u64
        ensures { result ≡ number_of self }
    {
        self.0
    }

    /// Whether a Runnable exists, or is due when the run ends.
    pub fn scheduled(self) -> bool
        ensures { result ≡ self.scheduled }
    {
        self.0 & SCHEDULED != 0
    }

    /// Whether a run is polling the future.
    pub fn running(self) -> bool
        ensures { result ≡ self.running }
    {
        self.0 & RUNNING != 0
    }

    /// Whether the future has answered `Poll::Ready`.
    pub fn completed(self) -> bool
        ensures { result ≡ self.completed }
    {
        self.0 & COMPLETED != 0
    }

    /// Whether the task was cancelled, or its output was claimed or given up.
    pub fn closed(self) -> bool
        ensures { result ≡ self.closed }
    {
        self.0 & CLOSED != 0
    }

    /// Whether the Task exists.
    pub fn task(self) -> bool
        ensures { result ≡ self.task }
    {
        self.0 & TASK != 0
    }

    /// Whether an awaiter is stored that must be woken.
    pub fn awaiter(self) -> bool
        ensures { result ≡ self.awaiter }
    {
        self.0 & AWAITER != 0
    }

    /// Whether the Task is storing an awaiter.
    pub fn registering(self) -> bool
        ensures { result ≡ self.registering }
    {
        self.0 & REGISTERING != 0
    }

    /// Whether a party is taking the awaiter.
    pub fn notifying(self) -> bool
        ensures { result ≡ self.notifying }
    {
        self.0 & NOTIFYING != 0
    }

    /// How many Runnables, runs and wakers there are.
    pub fn references(self) -> u64
        ensures { result ≡ self.references }
    {
        self.0 / REFERENCE
    }

    /// Whether the task is neither completed nor closed.
    pub fn is_open(self) -> bool
        ensures { result ≡ is_open self }
    {
        !self.completed() && !self.closed()
    }

    /// Whether the task is completed or closed.
    pub fn is_over(self) -> bool
        ensures { result ≡ not (is_open self) }
    {
        self.completed() || self.closed()
    }

    pub(crate) fn with(self, flags: u64) -> Word
        requires { flags < 256 }
        ensures { result ≡ with_flags flags self }
    {
        Word(self.0 | flags)
    }

    pub(crate) fn without(self, flags: u64) -> Word
        requires { flags < 256 }
        ensures { result ≡ without_flags flags self }
    {
        Word(self.0 & !flags)
    }

    pub(crate) fn with_reference(self) -> Word
        requires { self.references < 2 ^ 56 - 1 }
        ensures { result ≡ record self { references = self.references + 1 } }
    {
        Word(self.0 + REFERENCE)
    }

    // A count of none stays as it is.
    pub(crate) fn without_reference(self) -> Word
        ensures { result ≡ record self { references = self.references - 1 } }
    {
        Word(self.0.checked_sub(REFERENCE).unwrap_or(self.0))
    }

    // Of a task that no handle holds any more: it is closed and scheduled once more, so that its future is dropped by a run.
    pub(crate) fn orphan() -> Word
        ensures { result ≡ orphan_word }
    {
        Word(SCHEDULED | CLOSED | REFERENCE)
    }
}
