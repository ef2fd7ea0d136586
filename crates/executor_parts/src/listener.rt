//! Who is told of a post without waiting at the mailbox.
use crate::nobody::Nobody;

/// Somebody who is told once that a number was posted to a mailbox, as a worker that sleeps elsewhere.
pub trait Listener: Drop {
    /// A number was posted, and may be taken out. The mailbox is not locked meanwhile. No clause says what a listener does then: that is its own.
    fn tell(self);
}

impl Listener for Nobody {
    fn tell(self) {}
}
