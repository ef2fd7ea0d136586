// What the user of a block says of it.
ghost use Rattle.std.specs.Prelude.{ℕ, Bool};
ghost use Rattle.atomic_table.specs.Table.{Me, State, Step};
ghost use Rattle.counted_block.specs.declared.place.Place.{Place};

/// A rule of one word and two slots, which also says how many shares are out.
///
/// So no step that moves the word can lose a share or make one up: it has to show what becomes of `out`.
pub trait BlockRule<S, W, V, K> {
    // What holds of the word, the values at home and all views between any two steps.
    ghost holds: { K → State (Place S W) V → Type 0 };
    // The view of the first seat.
    ghost first: { K → V };
    // How many shares are out where the word is this number. Only the word decides, so a thread that finds a number knows the count too. Where none is out, somebody has the last share, or the block is closed.
    ghost out: { ℕ → ℕ };
}

/// What a step tells its caller.
pub trait BlockPlay<S, V, K> {
    // By the key of the block, what the step is, the seat before it, the number that it found, and the seat after it.
    ghost then: { K → Step S → Me S V → ℕ → Me S V → Type 0 };
}

/// What a step tells its caller, and whether it changes by one how many shares are out.
pub trait CountPlay<S, V, K>: BlockPlay<S, V, K> {
    // Whether it does, by the number that the step found in the word.
    ghost counts: { Step S → ℕ → Bool };
    // Whether none is out after it, by the same number: then the last share is left.
    ghost lasts: { Step S → ℕ → Bool };
}
