//! An allocator that counts what it is asked for.
ghost use Rattle.std.specs.Prelude.{◌≡◌};

use std::alloc::{AllocError, Allocator};
use std::sync::atomic::{AtomicU64, Ordering};

/// An allocator that counts each call, and hands it on to the allocator below it.
///
/// A call of `allocate` that is refused counts too. A block that grows or shrinks is a new one, and the old one is given back.
/// A `&` to it is an allocator that can be copied.
#[derive(Drop)]
pub struct Counting<B: Allocator> {
    below: B,
    allocations: AtomicU64,
    bytes: AtomicU64,
    returns: AtomicU64,
    returned_bytes: AtomicU64,
}

impl<B: Allocator> Counting<B> {
    /// An allocator over `below` that has counted nothing.
    pub fn new(below: B) -> Counting<B>
        ensures { result.below ≡ below }
    {
        Counting {
            below,
            allocations: AtomicU64::new(0),
            bytes: AtomicU64::new(0),
            returns: AtomicU64::new(0),
            returned_bytes: AtomicU64::new(0),
        }
    }

    /// How often `allocate` was called.
    pub fn allocations(&self) -> u64 {
        self.allocations.load(Ordering::SeqCst)
    }

    /// How many bytes these calls asked for.
    pub fn bytes(&self) -> u64 {
        self.bytes.load(Ordering::SeqCst)
    }

    /// How often `deallocate` was called.
    pub fn returns(&self) -> u64 {
        self.returns.load(Ordering::SeqCst)
    }

    /// How many bytes these calls gave back.
    pub fn returned_bytes(&self) -> u64 {
        self.returned_bytes.load(Ordering::SeqCst)
    }

    // The allocator below, once a request for so many bytes is counted.
    fn below_counted(&self, size: usize) -> &B
        ensures { result.now ≡ self.now.below }
    {
        self.allocations.fetch_add(1, Ordering::SeqCst);
        self.bytes.fetch_add(size as u64, Ordering::SeqCst);
        &self.below
    }

    // The allocator below, once a block of so many bytes is counted that is given back.
    fn below_returned(&self, size: usize) -> &B
        ensures { result.now ≡ self.now.below }
    {
        self.returns.fetch_add(1, Ordering::SeqCst);
        self.returned_bytes.fetch_add(size as u64, Ordering::SeqCst);
        &self.below
    }
}

// The right to give a block back is the one of the allocator below.
unsafe impl<B: Allocator> Allocator for Counting<B> {
    ghost dealloc_token = { λ counting asked place. B.dealloc_token counting.below asked place };

    fn allocate(&self, size: usize, align: usize) -> Result<*mut u8, AllocError> {
        self.below_counted(size).allocate(size, align)
    }

    unsafe fn deallocate(&self, place: *mut u8, size: usize, align: usize) {
        self.below_returned(size).deallocate(place, size, align);
    }
}
