// A box as its pointer, with the right to have the box again. A block is made of one, and ends as one.
ghost use Rattle.std.specs.Prelude.{◌≡◌};
ghost use Rattle.std.specs.Box.Ownership.{box_owns};
ghost use Rattle.std.specs.Box.{box_allocator};

use std::alloc::Allocator;
use std::marker::{Model, PhantomData};

/// The value of a box, and the right to free its memory. It has no `Drop`: `into_box` gives the box back.
///
/// The allocator is not kept, so that a pointer to a block is one word.
pub struct Bare<X, A: Allocator> {
    pub(crate) at: *mut X,
    pub(crate) marker: PhantomData<A>,
    pub ghost value: { X },
    pub ghost heap: { A },
}

impl<X, A: Allocator> Model for Bare<X, A> {
    ghost also_owns = { λ l. box_owns (A.dealloc_token l.heap) X.row l.at l.value };
}

impl<X: Drop, A: Allocator> Bare<X, A> {
    /// Turns a box into its value and the right to free it. `whole` is the box. Its allocator is forgotten, and has to be named again by `into_box`.
    pub fn of(whole: Box<X, A>) -> Bare<X, A>
        ensures { (result.value ≡ whole.value) × (result.heap ≡ box_allocator whole) }
    {
        let at = Box::into_raw(whole);
        Bare {
            at,
            marker: PhantomData,
        }
    }
}

impl<X, A: Allocator> Bare<X, A> {
    /// Gives the box back. `alloc` is the allocator that it was made by.
    pub fn into_box(self, alloc: A) -> Box<X, A>
        requires { self.heap ≡ alloc }
        ensures { result.value ≡ self.value }
    {
        let Bare { at, marker: _ } = self;
        unsafe { Box::from_raw(alloc, at) }
    }
}
