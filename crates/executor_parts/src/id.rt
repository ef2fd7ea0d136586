//! What tells a member of a group from another one that has its number later.
ghost use Rattle.std.specs.Prelude.{◌≡◌};

/// A member of a group, by its number and its generation: how many had joined the group before it. It owns nothing, so it may be copied and kept.
///
/// Once the member has come out, it refers to nobody: a member that has the number then has another generation. Only the last of 2^64 generations is given out again. Give it to the group that it is of: in another group it may refer to another member.
#[derive(Clone, Copy, Debug, PartialEq, Eq)]
pub struct MemberId {
    pub(crate) number: usize,
    pub(crate) generation: u64,
}

impl MemberId {
    /// The number that `push` or `spawn` gave the member.
    pub fn number(&self) -> usize
        ensures { result ≡ self.now.number }
    {
        self.number
    }
}

// A member, and its generation.
#[derive(Drop)]
pub(crate) struct Entry<T> {
    pub(crate) generation: u64,
    pub(crate) member: T,
}
