//! Numbers that were posted and that nobody has taken yet, under a lock: those of kept wakers that are due, and those of places whose keys were dropped.
ghost use Rattle.std.specs.Prelude.{◌≡◌, ◌≤◌, ◌<◌, ◌^◌, ◌++◌, ◌∷◌, [], true, false, IfOk, OnOk};
ghost use Rattle.executor_parts.specs.Posted.{posted, room_of, waits};

use executor_parts::Numbers;
use std::alloc::{AllocError, Global};
use std::sync::atomic::{AtomicU64, AtomicUsize, Ordering};
use std::sync::{Arc, Mutex, MutexGuard, Wait};

/// Numbers of one part that wait, each at most once, in the order in which they were posted. Room for a number is taken with its place, so a post needs no memory.
#[derive(Drop)]
pub(crate) struct Posted {
    alloc: Global,
    numbers: Mutex<Numbers>,
    // A bit for each part. That of this part says whether a number waits: where none does, no lock is taken. It is written under the lock.
    due: Arc<AtomicU64>,
    part: usize,
    // Below it there is room, which stays: then `make_room` takes no lock. It is written under the lock.
    room: AtomicUsize,
    ghost below: { part < 8 },
}

/// A number was posted to a part: it joined those that wait there, unless it waited already or there was no room for it. Only a post makes one.
#[derive(Drop)]
pub struct Post {
    part: usize,
    slot: usize,
    joined: bool,
}

impl Post {
    // Whether the number joined the others.
    pub(crate) fn joined(&self) -> bool
        ensures { result ≡ self.now.joined }
    {
        self.joined
    }
}

/// There is room for the numbers below this one, and stays. Only a look at the room makes one.
#[derive(Drop)]
pub(crate) struct Room {
    below: usize,
}

// Has room for the numbers below `room`, and at least twice as many as before where there was less. What waits keeps its order. Where memory is refused nothing has changed.
fn widen(numbers: &mut Numbers, alloc: Global, room: usize) -> Result<(), AllocError>
    ensures room { OnOk result (room ≤ room_of numbers.new) }
    ensures order { posted numbers.new ≡ posted numbers.old }
{
    let before = numbers.room();
    if room <= before {
        return Ok(());
    }
    let mut wider = Numbers::new(alloc, room.max(before.saturating_mul(2)))?;
    while let Some(number) = numbers.take() {
        wider.post(number);
    }
    *numbers = wider;
    Ok(())
}

// Posts a number to those of a part.
fn post_to(numbers: &mut Numbers, part: usize, slot: usize) -> Post
    ensures at { (result.part ≡ part) × (result.slot ≡ slot) }
    ensures joins { result.joined ≡ true → posted numbers.new ≡ posted numbers.old ++ slot ∷ [] }
    ensures stays { result.joined ≡ false → posted numbers.new ≡ posted numbers.old }
    ensures waits { result.joined ≡ false → slot < room_of numbers.old → waits numbers.old slot ≡ true }
{
    let joined = slot < numbers.room() && numbers.post(slot);
    Post { part, slot, joined }
}

impl Posted {
    // No numbers of this part yet, and room for none. `due` has the bits of all parts. An error says that there was no memory.
    pub(crate) fn new(
        alloc: Global,
        due: &Arc<AtomicU64>,
        part: usize,
    ) -> Result<Posted, AllocError>
        requires { part < 8 }
        ensures { IfOk result (λ posted. posted.part ≡ part) }
    {
        Ok(Posted {
            alloc,
            numbers: Mutex::new(Numbers::new(alloc, 0)?),
            due: Arc::try_clone(due)?,
            part,
            room: AtomicUsize::new(0),
        })
    }

    // Has room for this number and all below it. An error says that there was no memory: nothing has changed then.
    pub(crate) fn make_room<R: Wait>(&self, rt: &R, number: usize) -> Result<Room, AllocError>
        ensures { IfOk result (λ room. number < room.below) }
    {
        let below = self.room.load(Ordering::SeqCst);
        if number < below {
            return Ok(Room { below });
        }
        let room = number.checked_add(1).ok_or(AllocError)?;
        let mut numbers = self.lock(rt);
        widen(&mut *numbers, self.alloc, room)?;
        let below = numbers.room();
        self.room.store(below, Ordering::SeqCst);
        Ok(Room { below })
    }

    // Posts a number.
    pub(crate) fn post<R: Wait>(&self, rt: &R, slot: usize) -> Post
        ensures { (result.part ≡ self.now.part) × (result.slot ≡ slot) }
    {
        let mut numbers = self.lock(rt);
        let post = post_to(&mut *numbers, self.part, slot);
        if post.joined && !self.may_wait() {
            self.due.fetch_or(self.bit(), Ordering::SeqCst);
        }
        post
    }

    // Takes out the number that has waited longest. No clause says which, since the numbers are under the lock: `Numbers::take` has the clauses.
    pub(crate) fn take<R: Wait>(&self, rt: &R) -> Option<usize> {
        if !self.may_wait() {
            return None;
        }
        let mut numbers = self.lock(rt);
        let taken = numbers.take();
        if numbers.is_empty() {
            self.none_waits(&*numbers);
        }
        taken
    }

    // The numbers that wait. Who has taken the last says so by `none_waits`, before another thread has them. No clause says which they are: other threads change them before the lock is taken.
    pub(crate) fn lock<R: Wait>(&self, rt: &R) -> MutexGuard<'_, Numbers> {
        self.numbers.lock(rt)
    }

    // Says that no number waits, as these, which are those of this part. No clause says so, since all parts share the word.
    pub(crate) fn none_waits(&self, numbers: &Numbers)
        requires { posted numbers.now ≡ [] }
    {
        self.due.fetch_and(!self.bit(), Ordering::SeqCst);
    }

    // Whether a number may wait. No clause says what the word shows: it is over as it is answered.
    pub(crate) fn may_wait(&self) -> bool {
        self.due.load(Ordering::SeqCst) & self.bit() != 0
    }

    // The bit of this part.
    fn bit(&self) -> u64
        ensures { result ≡ 2 ^ self.now.part }
    {
        1 << self.part
    }
}
