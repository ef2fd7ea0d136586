//! The aborts that a group was asked for.
ghost use Rattle.std.specs.Prelude.{◌≡◌, ◌≢◌, ◌<◌, ℕ, None, IfOk, IfSome, Some};
ghost use Rattle.executor_parts.specs.Requested.{later, requested, room_of};

use crate::id::MemberId;
use crate::listener::Listener;
use crate::mailbox::Mailbox;
use crate::mailbox::contents::Posted;
use std::alloc::{AllocError, Global};
use std::sync::Wait;
use std::sync::atomic::{AtomicBool, Ordering};

/// For each number the last member of it whose abort was asked for, by its generation. All its memory is taken at once.
///
/// What was asked for stays: it is compared with the generation of the member that has the number, so it is nothing to a later one.
#[derive(Debug, Drop)]
pub(crate) struct Requests {
    generations: Vec<Option<u64>>,
}

/// A member's abort was asked for, and after that its number was posted. Only a request makes one.
#[derive(Drop)]
pub struct AbortAsked {
    id: MemberId,
    posted: Posted,
    ghost of_member: { posted.number ≡ id.number },
}

/// A request is there that nobody looks for yet. It has no `Drop`: it ends in `note`.
#[must_use]
pub(crate) struct Asked {
    id: MemberId,
}

/// A request that who has the number finds. It has no `Drop`: it ends in `post`.
#[must_use]
pub(crate) struct Noted {
    id: MemberId,
}

/// What a look for requests of a number found. Only a look makes one.
#[derive(Drop)]
pub(crate) struct Found {
    number: usize,
    generation: Option<u64>,
}

impl Found {
    // The number, and the generation of the last member of it whose abort was asked for.
    pub(crate) fn into_parts(self) -> (usize, Option<u64>)
        ensures { (result.0 ≡ self.number) × (result.1 ≡ self.generation) }
    {
        let Found { number, generation } = self;
        (number, generation)
    }
}

/// Whether an abort was ever asked for: most groups are asked for none, and take no lock then.
#[derive(Drop)]
pub(crate) struct WasAsked(AtomicBool);

impl WasAsked {
    /// None was.
    pub(crate) fn new() -> WasAsked {
        WasAsked(AtomicBool::new(false))
    }

    /// That there is no request of a number. `None` where there may be one.
    pub(crate) fn nothing(&self, number: usize) -> Option<Found>
        ensures { IfSome result (λ found. found.number ≡ number) }
    {
        if self.0.load(Ordering::SeqCst) {
            return None;
        }
        Some(Found {
            number,
            generation: None,
        })
    }
}

impl Asked {
    // Has who takes a number look for requests.
    pub(crate) fn note(self, was_asked: &WasAsked) -> Noted
        ensures { result.id ≡ self.id }
    {
        let Asked { id } = self;
        was_asked.0.store(true, Ordering::SeqCst);
        Noted { id }
    }
}

impl Noted {
    // Posts the number of the member.
    pub(crate) fn post<R: Wait + Drop + Copy, L: Listener>(
        self,
        mailbox: &Mailbox<R, L>,
    ) -> AbortAsked
        ensures { result.id ≡ self.id }
    {
        let Noted { id } = self;
        let (_, posted) = mailbox.post_number(id.number);
        AbortAsked { id, posted }
    }
}

impl Requests {
    /// No requests yet, with memory for those of all numbers below `room`.
    pub(crate) fn new(alloc: Global, room: usize) -> Result<Requests, AllocError>
        ensures none { IfOk result (λ requests. (number : ℕ) → requested requests number ≡ None) }
        ensures room { IfOk result (λ requests. room_of requests ≡ room) }
    {
        let generations = vec![in alloc; None; room]?;
        Ok(Requests { generations })
    }

    /// Asks for the abort of a member. Where that of a later member of its number was asked for already, nothing changes: so who is late never takes a request
    /// of another away. Nor does anything change for a number that is not below the room.
    pub(crate) fn ask(&mut self, id: MemberId) -> Asked
        ensures asked { result.id ≡ id }
        ensures latest { id.number < room_of self.old → requested self.new id.number ≡ Some (later (requested self.old id.number) id.generation) }
        ensures others { (other : ℕ) → other ≢ id.number → requested self.new other ≡ requested self.old other }
        ensures room { room_of self.new ≡ room_of self.old }
    {
        if id.number >= self.generations.len() {
            return Asked { id };
        }
        let generation = match self.generations[id.number] {
            Some(before) => before.max(id.generation),
            None => id.generation,
        };
        self.generations[id.number] = Some(generation);
        Asked { id }
    }

    /// The generation of the last member of this number whose abort was asked for.
    pub(crate) fn of(&self, number: usize) -> Found
        ensures number { result.number ≡ number }
        ensures generation { result.generation ≡ requested self.now number }
    {
        let generation = match self.generations.get(number) {
            Some(asked) => *asked,
            None => None,
        };
        Found { number, generation }
    }
}
