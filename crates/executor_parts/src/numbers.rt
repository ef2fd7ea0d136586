//! What a mailbox keeps under its lock: numbers below a room, each at most once, in the order in which they were posted.
ghost use Rattle.std.specs.Prelude.{◌≡◌, ◌↔◌, ◌≤◌, ◌<◌, ◌++◌, ◌∷◌, ℕ, [], true, false, not, nat_eq, length, option_to_list, IfOk, IfSome, IsNone, IsTrue};
ghost use Rattle.std.specs.List.{IsDistinct, list_any};
ghost use Rattle.std.specs.VecDeque.{deque_capacity};
ghost use Rattle.std.proofs.Props.{props};
ghost use Rattle.executor_parts.specs.Numbers.{IsMarked};

use std::alloc::{AllocError, Global};
use std::collections::VecDeque;

/// Numbers that wait to be taken, each at most once, with all memory for them reserved.
#[derive(Debug, Drop)]
pub struct Numbers {
    posted: VecDeque<usize>,
    waits: Vec<bool>,
    ghost distinct: { IsDistinct nat_eq posted.items } by { Prim.hlevel props },
    ghost marked: { IsMarked waits.items posted.items },
    ghost reserved: { length waits.items ≤ deque_capacity posted },
}

impl Numbers {
    ghost use Rattle.executor_parts.specs.Posted.{posted, room_of, waits};

    /// No numbers yet, with memory for all that are below `room`.
    pub fn new(alloc: Global, room: usize) -> Result<Numbers, AllocError>
        ensures empty { IfOk result (λ numbers. posted numbers ≡ []) }
        ensures room { IfOk result (λ numbers. room_of numbers ≡ room) }
    {
        let posted = VecDeque::with_capacity(alloc, room)?;
        let waits = vec![in alloc; false; room]?;
        Ok(Numbers { posted, waits })
    }

    /// Whether no number waits.
    pub fn is_empty(&self) -> bool
        ensures { IsTrue result ↔ (posted self.now ≡ []) }
    {
        self.posted.is_empty()
    }

    /// How many numbers there are to be posted: those below this one.
    pub fn room(&self) -> usize
        ensures { result ≡ room_of self.now }
    {
        self.waits.len()
    }

    /// Posts a number, which needs no memory. True where it joins the others; a number that waits already stays where it is.
    pub fn post(&mut self, number: usize) -> bool
        requires { number < room_of self.old }
        ensures first { result ≡ not (waits self.old number) }
        ensures joins { result ≡ true → posted self.new ≡ posted self.old ++ number ∷ [] }
        ensures stays { result ≡ false → posted self.new ≡ posted self.old }
        ensures room { room_of self.new ≡ room_of self.old }
    {
        if self.waits[number] {
            return false;
        }
        self.waits[number] = true;
        self.posted.push_back_reserved(number);
        true
    }

    /// Takes out the number that has waited longest; `None` where none waits.
    pub fn take(&mut self) -> Option<usize>
        ensures none { IsNone result → posted self.old ≡ [] }
        ensures first { posted self.old ≡ option_to_list result ++ posted self.new }
        ensures below { IfSome result (λ number. number < room_of self.old) }
        ensures room { room_of self.new ≡ room_of self.old }
    {
        let number = self.posted.pop_front()?;
        self.waits[number] = false;
        Some(number)
    }
}
