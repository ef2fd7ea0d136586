// One owner of a value that several share.
ghost use Rattle.std.specs.Prelude.{◌≡◌, ◌<◌, IfOk, IfSome};
ghost use Rattle.test_tasks.specs.Counting.{view};

use crate::blocks::keeper::Keeper;
use crate::blocks::law::{Enter, Gain, Law, Part, View};
use counted_block::{Bare, Inner, Seat, Share};
use std::alloc::{AllocFailed, Allocator};

/// So many owners there are never.
const MOST: u64 = (1 << 62) - 1;

/// So often a clone tries again where others step between its load and its exchange.
const TRIES: u64 = 1 << 32;

/// One owner of a value, which may cross threads. There is no count but the word of the block.
pub struct Pointer<T, A: Allocator + Copy> {
    share: Share<(), (), View, (), Law, T, A>,
    seat: Seat<(), (), View>,
    alloc: A,
    ghost seated: { (seat.block ≡ share.id) × (seat.me.0 ≡ view 1) × (share.heap ≡ alloc) },
}

impl<T, A: Allocator + Copy> Pointer<T, A> {
    /// A value with one owner, or the value where there is no memory.
    pub fn new(alloc: A, value: T) -> Result<Pointer<T, A>, AllocFailed<T>>
    where
        T: Drop,
    {
        let inner = Inner {
            word: 1,
            holds: 0,
            first: (),
            second: (),
            value,
        };
        match Box::new(alloc, inner) {
            Ok(block) => {
                let (share, seat) = Share::new(Bare::of(block), &());
                Ok(Pointer { share, seat, alloc })
            }
            Err(AllocFailed { value: inner }) => Err(AllocFailed { value: inner.value }),
        }
    }

    /// The value.
    pub fn value(&self) -> &T
        ensures { result.now ≡ self.now.share.value }
    {
        self.share.value()
    }

    // One owner more if the word is `old`, else the word.
    fn gain_from(&self, old: u64) -> Result<Pointer<T, A>, u64>
        requires { old < 4611686018427387903 }
        ensures { IfOk result (λ p. p.share.value ≡ self.now.share.value) }
    {
        let (_, mut seat) = self.share.load_new_seat::<Enter>();
        let (found, maybe) = self.share.gain::<Gain>(&mut seat, old, old + 1);
        if found == old {
            Ok(Pointer {
                share: maybe.share(),
                seat,
                alloc: self.alloc,
            })
        } else {
            maybe.none();
            Err(found)
        }
    }

    /// One owner more. None if there are as many as may be, or if others stepped between at each try.
    pub fn try_clone(&self) -> Option<Pointer<T, A>>
        ensures { IfSome result (λ p. p.share.value ≡ self.now.share.value) }
    {
        let mut old = self.share.peek();
        for _ in 0..TRIES {
            if old >= MOST {
                return None;
            }
            match self.gain_from(old) {
                Ok(more) => return Some(more),
                Err(found) => old = found,
            }
        }
        None
    }

    /// What keeps the value without an owner. None if as many keep it as may.
    pub fn keep(&self) -> Option<Keeper<T, A>>
        ensures { IfSome result (λ k. k.hold.value ≡ self.now.share.value) }
    {
        let hold = self.share.hold()?;
        Some(Keeper {
            hold,
            alloc: self.alloc,
        })
    }

    /// Ends this owner. The last one gets the value, unless somebody keeps it.
    pub fn give_up(self) -> Option<T>
        ensures { IfSome result (λ x. x ≡ self.share.value) }
    {
        let Pointer {
            share,
            mut seat,
            alloc,
        } = self;
        let (found, maybe) = share.part::<Part>(&mut seat, 1);
        if found != 1 {
            maybe.none();
            return None;
        }
        let bare = maybe.last().close(&mut seat)?;
        let inner = Box::into_inner(bare.into_box(alloc));
        Some(inner.value)
    }
}

impl<T: Drop, A: Allocator + Copy> Drop for Pointer<T, A> {
    fn drop(self) {
        if let Some(value) = self.give_up() {
            drop(value);
        }
    }
}
