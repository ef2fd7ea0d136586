//! What a group shares with the handles that abort its members.
ghost use Rattle.std.specs.Prelude.{◌≡◌};

use crate::errors::AwaiterRefused;
use crate::id::MemberId;
use crate::listener::Listener;
use crate::mailbox::Mailbox;
use crate::mailbox::contents::Posted;
use crate::requests::{AbortAsked, Found, Requests, WasAsked};
use std::alloc::{AllocError, Global};
use std::sync::{Arc, Mutex, Wait};

/// The mailbox of a group, and the aborts that were asked for.
#[derive(Drop)]
pub(crate) struct Shared<R: Wait + Drop + Copy, L: Listener> {
    rt: R,
    pub(crate) mailbox: Arc<Mailbox<R, L>>,
    was_asked: WasAsked,
    requests: Mutex<Requests>,
}

/// The poll of a member was refused its awaiter, and its number posted, so that a later call polls it again. It has no `Drop`: it ends in `tell`.
#[must_use]
pub(crate) struct Refusal(pub(crate) Posted);

impl Refusal {
    /// What the call answers.
    pub(crate) fn tell(self) -> AwaiterRefused {
        let Refusal(_) = self;
        AwaiterRefused
    }
}

impl<R: Wait + Drop + Copy, L: Listener> Shared<R, L> {
    /// For the numbers below `room`. An `Err` says that memory was refused; nothing stays allocated then.
    pub(crate) fn new(rt: R, alloc: Global, room: usize) -> Result<Arc<Shared<R, L>>, AllocError> {
        let mailbox = Mailbox::new(rt, alloc, room)?;
        let requests = Mutex::new(Requests::new(alloc, room)?);
        let shared = Shared {
            rt,
            mailbox,
            was_asked: WasAsked::new(),
            requests,
        };
        Ok(Arc::new(alloc, shared)?)
    }

    /// Asks for the abort of a member, and posts its number: the request is there before whoever takes the number looks for it.
    pub(crate) fn ask(&self, id: MemberId) -> AbortAsked
        ensures { result.id ≡ id }
    {
        let asked = self.requests.lock(&self.rt).ask(id);
        asked.note(&self.was_asked).post(&self.mailbox)
    }

    /// The generation of the last member of this number whose abort was asked for.
    pub(crate) fn asked(&self, number: usize) -> Found
        ensures { result.number ≡ number }
    {
        match self.was_asked.nothing(number) {
            Some(nothing) => nothing,
            None => self.requests.lock(&self.rt).of(number),
        }
    }

    /// Posts the number of a member, so that the group looks at it.
    pub(crate) fn post(&self, number: usize) -> Posted
        ensures { result.number ≡ number }
    {
        self.mailbox.post_number(number).1
    }
}
