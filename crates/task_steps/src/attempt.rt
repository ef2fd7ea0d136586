//! Changes of the word that are tried until they are made, by compare and exchange.
ghost use Rattle.std.specs.Prelude.{◌≡◌, ◌<◌};
ghost use Rattle.task_core.specs.Word.{HasRoom, state_of};
ghost use Rattle.task_steps.specs.Attempt.{Attempt, next_of, counts_on, lasts_on};
ghost use Rattle.task_steps.specs.Attempts.{observed, attempted};
ghost use Rattle.task_steps.specs.Shares.{counted};
ghost use Rattle.task_steps.specs.Values.{values_of};

use crate::kept::Kept;
use crate::table::{TaskPlace, Terms, View};
use counted_block::{BlockPlay, CountPlay};
use task_core::Yields;
use task_core::word::Word;

/// A change of the word: on which words it is made, what it finds and writes, which words end the attempt, and the acts of both.
pub trait Change {
    /// What the change finds: its row, or the word itself.
    type Row: Drop;

    ghost attempt: { Attempt Self.Row };

    /// The word to write on this one, and its row, or `None` where the change can't be made on it. `limit` is the limit of references.
    fn next(word: Word, limit: u64) -> Option<(Word, Self::Row)>
        requires room { HasRoom word }
        ensures { result ≡ next_of Self.attempt limit word };

    /// Whether this word ends the attempt.
    fn is_end(word: Word, limit: u64) -> bool
        ensures { result ≡ Self.attempt.ends limit word };
}

/// What one try of a change has come to.
pub enum TriedOnce<Row, M, K> {
    /// The change was made, found this, and brought or left that.
    Made(Row, M),
    /// This word ended the attempt, and what was given for it is back.
    Ended(Word, K),
    /// This word was seen, on which the change is to be tried again.
    Again(Word, K),
}

/// A load of an attempt.
pub struct Observing<P: Change> {
    change: P,
}

impl<F: Yields, A, P: Change> BlockPlay<TaskPlace<F, Kept<F>, A>, View, Terms<F>> for Observing<P> {
    ghost then = { λ terms. observed (values_of F.Yields terms.future.value) P.attempt };
}

/// A compare and exchange of an attempt.
pub struct Attempting<P: Change> {
    change: P,
}

impl<F: Yields, A, P: Change> BlockPlay<TaskPlace<F, Kept<F>, A>, View, Terms<F>>
    for Attempting<P> {
    ghost then = { λ terms. attempted (values_of F.Yields terms.future.value) P.attempt };
}

impl<F: Yields, A, P: Change> CountPlay<TaskPlace<F, Kept<F>, A>, View, Terms<F>>
    for Attempting<P> {
    ghost counts = { counted (counts_on P.attempt) };

    ghost lasts = { λ _ n. lasts_on P.attempt (state_of n) };
}
