// What lies in the block, as the user fills it and gets it back.

/// The words, the slots, and the value beside them.
#[derive(Drop)]
pub struct Inner<S, W, T> {
    /// The user's word. A new block begins with it, and the rule says how many shares it stands for.
    pub word: u64,
    /// How many holds there are, with 2^63 more once the last share is gone. A new block has 0 here.
    pub holds: u64,
    /// The slot 0.
    pub first: S,
    /// The slot 1.
    pub second: W,
    /// What each share and each hold can look at. It never changes while the block is shared.
    pub value: T,
}
