// What keeps a value after its owners.
ghost use Rattle.std.specs.Prelude.{◌≡◌, IfSome};

use crate::blocks::law::{Law, View};
use counted_block::Hold;
use std::alloc::Allocator;

/// It sees the value, and is no owner. It may outlive them all.
pub struct Keeper<T, A: Allocator + Copy> {
    pub(crate) hold: Hold<(), (), View, (), Law, T, A>,
    pub(crate) alloc: A,
    ghost kept: { hold.heap ≡ alloc },
}

impl<T, A: Allocator + Copy> Keeper<T, A> {
    /// The value.
    pub fn value(&self) -> &T
        ensures { result.now ≡ self.now.hold.value }
    {
        self.hold.value()
    }

    /// Ends this keeper. The last one gets the value if no owner is left.
    pub fn give_up(self) -> Option<T>
        ensures { IfSome result (λ x. x ≡ self.hold.value) }
    {
        let Keeper { hold, alloc } = self;
        let bare = hold.release()?;
        let inner = Box::into_inner(bare.into_box(alloc));
        Some(inner.value)
    }
}

impl<T: Drop, A: Allocator + Copy> Drop for Keeper<T, A> {
    fn drop(self) {
        if let Some(value) = self.give_up() {
            drop(value);
        }
    }
}
