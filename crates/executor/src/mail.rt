//! The mail of a pool: the numbers of kept wakers that awaiters have posted and no worker has taken yet.
ghost use Rattle.std.specs.Prelude.{◌<◌, ◌/◌, IfOk};
ghost use Rattle.executor.specs.Parts.{InParts};

use crate::parts::{PARTS, number_of, part_of, slot_of};
use crate::posted::{Post, Posted, Room};
use std::alloc::{AllocError, Global};
use std::sync::atomic::{AtomicU64, AtomicUsize, Ordering};
use std::sync::{Arc, Wait};

/// The posted numbers of the parts of the store of wakers.
#[derive(Drop)]
pub(crate) struct Mail<R: Wait + Drop + Copy> {
    rt: R,
    parts: Vec<Posted>,
    // The parts that have numbers, a bit for each.
    due: Arc<AtomicU64>,
    // The part that is looked at first. It moves on, so that a part which always has a number keeps no other one waiting.
    first: AtomicUsize,
    ghost parted: { InParts (λ posted. posted.part) parts.items },
}

/// A look that found no posted number. Only `Mail::none_posted` makes one.
#[derive(Drop)]
pub(crate) struct NonePosted(());

impl<R: Wait + Drop + Copy> Mail<R> {
    ghost use Rattle.executor.specs.Posts.{IsPost};

    // No numbers yet, and room for none. An error says that there was no memory. No clause says so, since the numbers are under the locks of the parts.
    pub(crate) fn new(rt: R, alloc: Global) -> Result<Arc<Mail<R>>, AllocError> {
        let due = Arc::new(alloc, AtomicU64::new(0))?;
        let mut parts = Vec::new(alloc);
        for part in 0..PARTS {
            parts.push(Posted::new(alloc, &due, part)?)?;
        }
        let mail = Mail {
            rt,
            parts,
            due,
            first: AtomicUsize::new(0),
        };
        Ok(Arc::new(alloc, mail)?)
    }

    // Has room for this number, and all below it of its part. An error says that there was no memory: nothing has changed then.
    pub(crate) fn make_room(&self, number: usize) -> Result<Room, AllocError>
        ensures { IfOk result (λ room. number / 8 < room.below) }
    {
        self.parts[part_of(number)].make_room(&self.rt, slot_of(number))
    }

    // Posts a number.
    pub(crate) fn post(&self, number: usize) -> Post
        ensures { IsPost number result }
    {
        self.parts[part_of(number)].post(&self.rt, slot_of(number))
    }

    // A look at the bits of all parts. `None` where a number may wait. No clause says what the word shows: it is over as it is answered.
    pub(crate) fn none_posted(&self) -> Option<NonePosted> {
        if self.due.load(Ordering::SeqCst) != 0 {
            return None;
        }
        Some(NonePosted(()))
    }

    // Takes out a number: that which has waited longest in its part. No clause says which, since the numbers are under the locks of the parts.
    pub(crate) fn take(&self) -> Option<usize> {
        if self.none_posted().is_some() {
            return None;
        }
        let first = self.first.load(Ordering::SeqCst);
        for step in 0..PARTS {
            let at = part_of(first.wrapping_add(step));
            if let Some(slot) = self.parts.get(at)?.take(&self.rt) {
                if first != at.wrapping_add(1) {
                    self.first.store(at.wrapping_add(1), Ordering::SeqCst);
                }
                return Some(number_of(at, slot));
            }
        }
        None
    }
}
