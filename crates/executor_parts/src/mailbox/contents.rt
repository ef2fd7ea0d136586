//! What is under the lock of a mailbox, and what a call has to do once that is free.
ghost use Rattle.std.specs.Prelude.{◌≡◌, ◌≤◌, ◌++◌, ◌∷◌, [], None, Some, true, false, not, IfOk, IfErr, IsNone, OnErr, option_to_list};
ghost use Rattle.executor_parts.specs.Posted.{posted, room_of, waits};

use crate::listener::Listener;
use crate::numbers::Numbers;
use std::alloc::{AllocError, Global};
use std::sync::{Condvar, Mutex, MutexGuard, Wait};

/// The numbers that wait, and who is told of the next post.
#[derive(Drop)]
pub struct Contents<L: Listener> {
    numbers: Numbers,
    listener: Option<L>,
}

/// A number was posted, or is not below the room. Only a mailbox makes one.
#[derive(Drop)]
pub struct Posted {
    number: usize,
}

/// A post, of which others are to be told. It has no `Drop`: it ends in `tell`.
#[must_use]
pub struct News<L: Listener> {
    number: usize,
    joined: bool,
    listener: Option<L>,
}

/// A listener that is not told any more, or none. It has no `Drop`: it ends in `discard`.
#[must_use]
pub struct Before<L: Listener> {
    listener: Option<L>,
}

/// Somebody listens. Only a mailbox makes one.
#[derive(Drop)]
pub struct Listens(());

impl<L: Listener> Contents<L> {
    /// No number, for those below `room`, and no listener.
    pub fn new(alloc: Global, room: usize) -> Result<Contents<L>, AllocError>
        ensures empty { IfOk result (λ contents. (posted contents.numbers ≡ []) × (contents.listener ≡ None)) }
        ensures room { IfOk result (λ contents. room_of contents.numbers ≡ room) }
    {
        Ok(Contents {
            numbers: Numbers::new(alloc, room)?,
            listener: None,
        })
    }

    /// Posts a number. The listener is gone then. An `Err` says that the number is not below the room; nothing has changed then.
    pub fn post(&mut self, number: usize) -> Result<News<L>, Posted>
        ensures number { IfOk result (λ news. news.number ≡ number) }
        ensures joined { IfOk result (λ news. news.joined ≡ not (waits self.old.numbers number)) }
        ensures joins { IfOk result (λ news. news.joined ≡ true → posted self.new.numbers ≡ posted self.old.numbers ++ number ∷ []) }
        ensures stays { IfOk result (λ news. news.joined ≡ false → posted self.new.numbers ≡ posted self.old.numbers) }
        ensures listener { IfOk result (λ news. (news.listener ≡ self.old.listener) × (self.new.listener ≡ None)) }
        ensures above { IfErr result (λ none. (none.number ≡ number) × (room_of self.old.numbers ≤ number)) }
        ensures unchanged { OnErr result (self.new ≡ self.old) }
    {
        if number >= self.numbers.room() {
            return Err(Posted { number });
        }
        let joined = self.numbers.post(number);
        let listener = self.listener.take();
        Ok(News {
            number,
            joined,
            listener,
        })
    }

    /// Takes out the number that has waited longest, as `Numbers::take`.
    pub fn take(&mut self) -> Option<usize>
        ensures none { IsNone result → posted self.old.numbers ≡ [] }
        ensures first { posted self.old.numbers ≡ option_to_list result ++ posted self.new.numbers }
        ensures listener { self.new.listener ≡ self.old.listener }
    {
        self.numbers.take()
    }

    /// Has the next post tell this listener, in place of the one before.
    pub fn listen(&mut self, listener: L) -> (Before<L>, Listens)
        ensures listens { self.new.listener ≡ Some listener }
        ensures before { result.0.listener ≡ self.old.listener }
        ensures numbers { self.new.numbers ≡ self.old.numbers }
    {
        let before = self.listener.replace(listener);
        (Before { listener: before }, Listens(()))
    }
}

impl<L: Listener> News<L> {
    /// Wakes a thread that waits for a number, where one has joined the others, and tells the listener.
    pub fn tell(self, posted: &Condvar, _unlocked: &Unlocked<'_, L>) -> Posted
        ensures { result.number ≡ self.number }
    {
        let News {
            number,
            joined,
            listener,
        } = self;
        if joined {
            posted.notify_one();
        }
        if let Some(listener) = listener {
            listener.tell();
        }
        Posted { number }
    }
}

impl<L: Listener> Before<L> {
    /// Drops the listener, which is foreign code, so the lock has to be free.
    pub fn discard(self, _unlocked: &Unlocked<'_, L>) {
        let Before { listener } = self;
        drop(listener);
    }
}

/// Shows that this call does not hold the lock: while it does, this is borrowed.
#[derive(Drop)]
pub struct Unlocked<'a, L: Listener> {
    contents: &'a Mutex<Contents<L>>,
}

impl<'a, L: Listener> Unlocked<'a, L> {
    // A call makes one alone.
    pub(crate) fn new(contents: &'a Mutex<Contents<L>>) -> Unlocked<'a, L> {
        Unlocked { contents }
    }

    // Takes the lock.
    pub(crate) fn lock<R: Wait>(&mut self, rt: &R) -> MutexGuard<'_, Contents<L>> {
        self.contents.lock(rt)
    }
}
