//! Handles that futures keep by number: a store, whose keys give their places back when they are dropped.
ghost use Rattle.std.specs.Prelude.{◌≡◌, ◌≢◌, ◌<◌, ◌≤◌, ◌+◌, ◌%◌, ◌↔◌, ℕ, IfOk, IfErr, IfSome, IsNone, IsSome, OnErr, OnOk};
ghost use Rattle.std.specs.Arc.{arc_value};
ghost use Rattle.slab.specs.Slab.{Updates, get};
ghost use Rattle.executor.specs.Parts.{InParts};
ghost use Rattle.executor.specs.Places.{held};
ghost use Rattle.executor.specs.Posts.{IsPost};
ghost use Rattle.executor.specs.StoreParts.{part_number};

use crate::parts::{PARTS, number_of, part_of, slot_of};
use crate::posted::{Post, Posted, Room};
use slab::Slab;
use std::alloc::{AllocError, Global};
use std::sync::atomic::{AtomicU64, Ordering};
use std::sync::{Arc, Mutex, Wait};

/// What a part of a store shares with its keys.
#[derive(Drop)]
struct Returned {
    // The slots whose keys were dropped.
    slots: Posted,
    // How often a call was given a key of this part, and asked whose it is.
    asked: AtomicU64,
}

/// A part of a store: places, each with a handle or none.
#[derive(Drop)]
struct Part<H> {
    places: Mutex<Slab<Option<H>>>,
    returned: Arc<Returned>,
}

/// Handles by number. A future keeps the key, and what it waits for the number.
pub struct Store<H> {
    parts: Vec<Part<H>>,
    // The parts that have slots to be freed, a bit for each.
    due: Arc<AtomicU64>,
    ghost parted: { InParts part_number parts.items },
}

impl<H: Drop> Drop for Store<H> {
    // As a derived drop, which would stand field by field where a `Pool` is made.
    fn drop(self) {
        let Store { parts, due } = self;
        drop(parts);
        drop(due);
    }
}

/// Where a walk over the places of a store stands: `Walk::default()` is its beginning.
#[derive(Debug, Drop, Default)]
pub struct Walk {
    part: usize,
    slot: usize,
}

/// The right to a place of a store. Dropped, it gives the place back, and the store drops what is in it at its next `collect`.
#[must_use]
pub struct Key<R: Wait + Drop + Copy> {
    rt: R,
    returned: Arc<Returned>,
    number: usize,
    ghost own: { (arc_value returned).slots.part ≡ number % 8 },
}

impl<R: Wait + Drop + Copy> Drop for Key<R> {
    fn drop(self) {
        let Key {
            rt,
            returned,
            number,
        } = self;
        give_back(&rt, &returned, number);
        drop(returned);
    }
}

// Gives the place of a number back to its part. There is room for the slot since the place was taken.
fn give_back<R: Wait>(rt: &R, returned: &Returned, number: usize) -> Post
    requires { returned.now.slots.part ≡ number % 8 }
    ensures { IsPost number result }
{
    returned.slots.post(rt, slot_of(number))
}

impl<R: Wait + Drop + Copy> Key<R> {
    /// The number of its place. No other key of the store has it while this one lives.
    pub fn number(&self) -> usize
        ensures { result ≡ self.now.number }
    {
        self.number
    }
}

// Takes the handle out of a place, if there is one. The place stays.
fn take_out<H: Drop>(places: &mut Slab<Option<H>>, slot: usize) -> Option<H>
    ensures taken { result ≡ held places.old slot }
    ensures others { (other : ℕ) → other ≢ slot → get places.new other ≡ get places.old other }
    ensures empty { IsSome (get places.old slot) → get places.new slot ≡ Some None }
    ensures missing { IsNone (get places.old slot) → places.new ≡ places.old }
{
    places.get_mut(slot)?.take()
}

// Takes a slot, with this in it, once there is room to post it. An error has it back: there was no memory.
fn insert_into<R: Wait, H: Drop>(
    places: &mut Slab<Option<H>>,
    slots: &Posted,
    rt: &R,
    handle: Option<H>,
) -> Result<(usize, Room), Option<H>>
    ensures room { IfOk result (λ at. at.0 < at.1.below) }
    ensures refused { IfErr result (λ back. back ≡ handle) }
{
    let Ok(room) = slots.make_room(rt, places.vacant_key()) else {
        return Err(handle);
    };
    match places.insert(handle) {
        Ok(slot) => Ok((slot, room)),
        Err(failed) => Err(failed.value),
    }
}

// Puts a handle into a place, and answers the one that was there. `Err` has this one back: there is no such place.
fn put_into<H: Drop>(places: &mut Slab<Option<H>>, slot: usize, handle: H) -> Result<Option<H>, H>
    ensures before { IfOk result (λ before. before ≡ held places.old slot) }
    ensures there { OnOk result (Updates places.old places.new slot (Some (Some handle))) }
    ensures refused { IfErr result (λ back. back ≡ handle) }
    ensures missing { OnErr result (IsNone (get places.old slot) × (places.new ≡ places.old)) }
{
    match places.get_mut(slot) {
        Some(place) => Ok(place.replace(handle)),
        None => Err(handle),
    }
}

// Frees a place, and answers the handle that was there, if there is one.
fn free<H: Drop>(places: &mut Slab<Option<H>>, slot: usize) -> Option<H>
    ensures taken { result ≡ held places.old slot }
    ensures freed { Updates places.old places.new slot None }
{
    places.try_remove(slot).flatten()
}

impl<H: Drop> Part<H> {
    fn new(alloc: Global, due: &Arc<AtomicU64>, part: usize) -> Result<Part<H>, AllocError>
        requires { part < 8 }
        ensures { IfOk result (λ made. part_number made ≡ part) }
    {
        let returned = Returned {
            slots: Posted::new(alloc, due, part)?,
            asked: AtomicU64::new(0),
        };
        Ok(Part {
            places: Mutex::new(Slab::new(alloc)),
            returned: Arc::new(alloc, returned)?,
        })
    }

    // Takes a slot, with this in it. An error has it back: there was no memory.
    fn insert<R: Wait>(&self, rt: &R, handle: Option<H>) -> Result<(usize, Room), Option<H>>
        ensures room { IfOk result (λ at. at.0 < at.1.below) }
        ensures refused { IfErr result (λ back. back ≡ handle) }
    {
        let mut places = self.places.lock(rt);
        insert_into(&mut *places, &self.returned.slots, rt, handle)
    }

    // Whether a key is of this part: whether the count of its part, which grows here, is that of this one. The caller has the lock of the places:
    // meanwhile nobody asks this part, and the count grows for another one only where a thread gives a key of this part to another store.
    // No clause says so, since other parts share the count of a key.
    fn knows<R: Wait + Drop + Copy>(&self, key: &Key<R>) -> bool {
        let before = self.returned.asked.load(Ordering::SeqCst);
        key.returned.asked.fetch_add(1, Ordering::SeqCst);
        self.returned.asked.load(Ordering::SeqCst) != before
    }

    fn put<R: Wait + Drop + Copy>(&self, rt: &R, key: &Key<R>, handle: H) -> Result<Option<H>, H>
        ensures refused { IfErr result (λ back. back ≡ handle) }
    {
        let mut places = self.places.lock(rt);
        if !self.knows(key) {
            return Err(handle);
        }
        put_into(&mut *places, slot_of(key.number), handle)
    }

    // Frees the places of keys that were dropped, under one lock, up to one that has a handle, and answers that. No clause says which, since they are under the lock: `free` has the clauses.
    fn collect<R: Wait>(&self, rt: &R) -> Option<H> {
        if !self.returned.slots.may_wait() {
            return None;
        }
        let mut places = self.places.lock(rt);
        let mut numbers = self.returned.slots.lock(rt);
        for _ in 0..=numbers.room() {
            let Some(slot) = numbers.take() else {
                break;
            };
            if let Some(handle) = free(&mut *places, slot) {
                return Some(handle);
            }
        }
        if numbers.is_empty() {
            self.returned.slots.none_waits(&*numbers);
        }
        None
    }
}

impl<H: Drop> Store<H> {
    ghost use Rattle.executor.specs.Keys.{IsKeyOf};

    /// An empty store. An error says that there was no memory. No clause says that it is empty, since its places are under locks.
    pub fn new(alloc: Global) -> Result<Store<H>, AllocError> {
        let due = Arc::new(alloc, AtomicU64::new(0))?;
        let mut parts = Vec::new(alloc);
        for part in 0..PARTS {
            parts.push(Part::new(alloc, &due, part)?)?;
        }
        Ok(Store { parts, due })
    }

    /// Takes a place, which is empty. `None` where there was no memory for it.
    ///
    /// `worker` is the number of the calling thread, which may be any: threads whose numbers leave different remainders by 8 do not wait for one another.
    pub fn reserve<R: Wait + Drop + Copy>(&self, rt: R, worker: usize) -> Option<Key<R>>
        ensures own { IfSome result (IsKeyOf self.now) }
        ensures part { IfSome result (λ key. key.number % 8 ≡ worker % 8) }
    {
        self.insert(rt, worker, None).ok()
    }

    /// Takes a place as `reserve` does, with this handle in it, under one lock. An error has the handle back.
    pub fn reserve_with<R: Wait + Drop + Copy>(
        &self,
        rt: R,
        worker: usize,
        handle: H,
    ) -> Result<Key<R>, H>
        ensures own { IfOk result (IsKeyOf self.now) }
        ensures part { IfOk result (λ key. key.number % 8 ≡ worker % 8) }
        ensures refused { IfErr result (λ back. back ≡ handle) }
    {
        match self.insert(rt, worker, Some(handle)) {
            Ok(key) => Ok(key),
            Err(Some(handle)) => Err(handle),
            Err(None) => unreachable!(),
        }
    }

    // Takes a place, with this in it. An error has it back: there was no memory.
    fn insert<R: Wait + Drop + Copy>(
        &self,
        rt: R,
        worker: usize,
        handle: Option<H>,
    ) -> Result<Key<R>, Option<H>>
        ensures own { IfOk result (IsKeyOf self.now) }
        ensures part { IfOk result (λ key. key.number % 8 ≡ worker % 8) }
        ensures refused { IfErr result (λ back. back ≡ handle) }
    {
        let at = part_of(worker);
        let part = &self.parts[at];
        let Ok(returned) = Arc::try_clone(&part.returned) else {
            return Err(handle);
        };
        match part.insert(&rt, handle) {
            Ok((slot, _)) => Ok(Key {
                rt,
                returned,
                number: number_of(at, slot),
            }),
            Err(handle) => Err(handle),
        }
    }

    /// Puts a handle into the place of a key, and answers the handle that was there. `Err` has this one back, where the key is of another store; then
    /// no place has changed.
    pub fn put<R: Wait + Drop + Copy>(
        &self,
        rt: &R,
        key: &Key<R>,
        handle: H,
    ) -> Result<Option<H>, H>
        ensures refused { IfErr result (λ back. back ≡ handle) }
    {
        self.parts[part_of(key.number)].put(rt, key, handle)
    }

    /// Takes the handle out of the place of a key, if there is one. `None` also where the key is of another store. No clause says which handle, since the places are under a lock, and a handle does not tell where it was.
    pub fn take_of<R: Wait + Drop + Copy>(&self, rt: &R, key: &Key<R>) -> Option<H> {
        let part = &self.parts[part_of(key.number)];
        let mut places = part.places.lock(rt);
        if !part.knows(key) {
            return None;
        }
        take_out(&mut *places, slot_of(key.number))
    }

    /// Takes the handle out of the place of a number, if there is one. The place stays that of its key. As of `take_of`, no clause says which handle.
    pub fn take<R: Wait>(&self, rt: &R, number: usize) -> Option<H> {
        let part = &self.parts[part_of(number)];
        let mut places = part.places.lock(rt);
        take_out(&mut *places, slot_of(number))
    }

    /// Frees the places of keys that were dropped, up to one that has a handle, and answers that handle. `None` where no such key is left. As of `take_of`, no clause says which handle.
    pub fn collect<R: Wait>(&self, rt: &R) -> Option<H> {
        if self.due.load(Ordering::SeqCst) == 0 {
            return None;
        }
        for part in self.parts.iter() {
            if let Some(handle) = part.collect(rt) {
                return Some(handle);
            }
        }
        None
    }

    /// Takes the handle out of the next place that has one, in a walk over all places. The place stays that of its key. `None` where the walk is over. As of `take_of`, no clause says which handle.
    pub fn take_next<R: Wait>(&self, rt: &R, walk: &mut Walk) -> Option<H>
        ensures over { IsNone result → 8 ≤ walk.new.part }
    {
        for _ in rt.forever() {
            if let Some(handle) = self.take_at(rt, walk)? {
                return Some(handle);
            }
        }
        unreachable!()
    }

    // Takes the next handle of the part at which a walk stands, under one lock. `None` where the walk is over, and `Some(None)` where the part has no more.
    fn take_at<R: Wait>(&self, rt: &R, walk: &mut Walk) -> Option<Option<H>>
        ensures over { IsNone result ↔ 8 ≤ walk.old.part }
        ensures stays { IsNone result → walk.new ≡ walk.old }
        ensures found { IfSome result (λ found. IfSome found (λ _. (walk.new.part ≡ walk.old.part) × (walk.old.slot < walk.new.slot))) }
        ensures passed { IfSome result (λ found. IsNone found → (walk.new.part ≡ walk.old.part + 1) × (walk.new.slot ≡ 0)) }
    {
        let part = self.parts.get(walk.part)?;
        let mut places = part.places.lock(rt);
        for slot in walk.slot..places.capacity() {
            if let Some(handle) = take_out(&mut *places, slot) {
                walk.slot = slot.saturating_add(1);
                return Some(Some(handle));
            }
        }
        walk.part = walk.part.saturating_add(1);
        walk.slot = 0;
        Some(None)
    }

    /// How many places have a key, or are not collected yet. No clause says how many: each part is counted while it is locked.
    pub fn len<R: Wait>(&self, rt: &R) -> usize {
        let mut taken = 0usize;
        for part in self.parts.iter() {
            taken = taken.saturating_add(part.places.lock(rt).len());
        }
        taken
    }
}
