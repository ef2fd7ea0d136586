//! What a seat of the bells knows and owes.
ghost use Rattle.std.specs.Prelude.{ℕ};
ghost use Rattle.std.specs.Borrow.{ftrue};

use std::marker::Model;

/// Plain data of the proofs. No value of it is made.
pub struct View {
    /// One more than the number of the word to which it has the right, or 0.
    pub ghost right: { ℕ },
    /// What that word shows, if it is the flag of a queue.
    pub ghost value: { ℕ },
    /// 1 where it owes looks.
    pub ghost owes: { ℕ },
    /// The flags below this one need no look.
    pub ghost seen: { ℕ },
    /// The workers below this one need none.
    pub ghost from: { ℕ },
    /// 1 where it is the searcher.
    pub ghost searching: { ℕ },
    /// 0, or 1 where it counts as a sleeper, or one more than the word of the worker that it put to sleep, or two more where that was interrupted.
    pub ghost asleep: { ℕ },
    /// What it knows of interruptions: 0 nothing, or `due`, `not_due`, `taken` or `roused`.
    pub ghost interruption: { ℕ },
    /// One more than the word of the worker that it has interrupted, or 0.
    pub ghost interrupted: { ℕ },
}

impl Model for View {
    ghost also_owns = { λ _. ftrue };
}
