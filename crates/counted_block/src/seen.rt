//! What a seat knew, for contracts.
ghost use Rattle.std.specs.Borrow.{ftrue};

use std::marker::{Model, PhantomData};

/// What a seat knew when it was asked, as contracts see it. It has no bytes and owns nothing, so only the clause of `Seat::seen` ties it.
pub struct Seen<V> {
    pub(crate) marker: PhantomData<V>,
    pub ghost view: { V },
}

impl<V> Model for Seen<V> {
    ghost also_owns = { λ _. ftrue };
}

impl<V> Drop for Seen<V> {
    fn drop(self) {
        let Self { marker: _ } = self;
    }
}

unsafe impl<V> Send for Seen<V> {}

unsafe impl<V> Sync for Seen<V> {}
