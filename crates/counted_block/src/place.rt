// What lies in a slot, as contracts say it.

/// What lies in a slot: `First` in the slot 0, `Second` in the slot 1. Contracts alone speak of it, and no value of it is made.
pub enum Place<S, W> {
    /// In the slot 0.
    First(S),
    /// In the slot 1.
    Second(W),
}
