//! Who holds the slots of a task.
ghost use Rattle.std.specs.Prelude.{◌≡◌};
ghost use Rattle.task_laws.specs.Holders as owners;

use crate::machine::Machine;
use std::alloc::Allocator;
use std::fmt;
use task_laws::positions::{NotifyingCall, Position};

/// One of the three slots.
#[derive(Clone, Copy)]
pub enum Slot {
    /// The future.
    Future,
    /// The output.
    Output,
    /// The clone of an awaiter.
    Awaiter,
}

/// Who may touch what lies in a slot.
#[derive(Clone, Copy)]
pub enum Holder {
    /// The slot is empty.
    Empty,
    /// It lies in the cell, for whoever takes it next.
    Cell,
    /// It lies there, and this party alone may touch it.
    Party(u64),
}

impl fmt::Display for Holder {
    fn fmt<W: fmt::Write>(&self, f: &mut fmt::Formatter<W>) -> fmt::Result {
        match *self {
            Holder::Empty => write!(f, "empty"),
            Holder::Cell => write!(f, "cell"),
            Holder::Party(party) => write!(f, "party {party}"),
        }
    }
}

/// Which party of a machine may touch what lies in each slot, as far as it was told of the steps.
#[derive(Clone, Copy)]
pub struct Holders {
    future: Option<u64>,
    output: Option<u64>,
    awaiter: Option<u64>,
}

impl Holders {
    /// After the spawn no party holds a slot.
    pub fn new() -> Holders {
        Holders {
            future: None,
            output: None,
            awaiter: None,
        }
    }

    /// Is told of a step, by which only its party has moved. There were `before` parties before it.
    pub fn note<A: Allocator>(&mut self, machine: &Machine<A>, party: u64, before: usize) {
        self.note_party(machine, party);
        for added in before as u64..machine.parties() as u64 {
            self.note_party(machine, added);
        }
    }

    // Is told of where a party stands that has moved, or was added.
    fn note_party<A: Allocator>(&mut self, machine: &Machine<A>, party: u64) {
        self.future = moved(machine, Slot::Future, self.future, party);
        self.output = moved(machine, Slot::Output, self.output, party);
        self.awaiter = moved(machine, Slot::Awaiter, self.awaiter, party);
    }

    /// Who holds that slot.
    pub fn held_by<A: Allocator>(&self, machine: &Machine<A>, slot: Slot) -> Holder {
        let party = match slot {
            Slot::Future => self.future,
            Slot::Output => self.output,
            Slot::Awaiter => self.awaiter,
        };
        match party {
            _ if !is_full(machine, slot) => Holder::Empty,
            Some(party) => Holder::Party(party),
            None => Holder::Cell,
        }
    }
}

// Which party may touch what lies in the slot, where it was `holder` before that one has moved.
fn moved<A: Allocator>(
    machine: &Machine<A>,
    slot: Slot,
    holder: Option<u64>,
    party: u64,
) -> Option<u64> {
    match machine.position(party) {
        Some(position) if owns(slot, position) => Some(party),
        _ if holder == Some(party) => None,
        _ => holder,
    }
}

fn is_full<A: Allocator>(machine: &Machine<A>, slot: Slot) -> bool {
    let slots = machine.slots();
    match slot {
        Slot::Future => slots.future,
        Slot::Output => slots.output,
        Slot::Awaiter => slots.awaiter.is_some(),
    }
}

fn owns(slot: Slot, position: Position) -> bool {
    match slot {
        Slot::Future => has_future(position),
        Slot::Output => has_output(position),
        Slot::Awaiter => has_awaiter(position),
    }
}

// Whether a party there may touch the future.
fn has_future(position: Position) -> bool
    ensures { result ≡ owners.owns_future position }
{
    match position {
        Position::Starting | Position::Polling | Position::Pending | Position::Ready => true,
        Position::FutureInHand(_) => true,
        _ => false,
    }
}

// Whether a party there may touch the output.
fn has_output(position: Position) -> bool
    ensures { result ≡ owners.owns_output position }
{
    match position {
        Position::ReadyFutureDropped | Position::OutputStored | Position::OutputInHand(_) => true,
        Position::OutputCloser | Position::TookOutput(_) => true,
        Position::Notifier(NotifyingCall::OfClaim(_))
        | Position::Taker(NotifyingCall::OfClaim(_)) => true,
        Position::Releaser(_, NotifyingCall::OfClaim(_)) => true,
        Position::AwaiterInHand(_, NotifyingCall::OfClaim(_)) => true,
        _ => false,
    }
}

// Whether a party there has the clone of an awaiter.
fn has_awaiter(position: Position) -> bool
    ensures { result ≡ owners.owns_awaiter position }
{
    match position {
        Position::Taker(_) | Position::Releaser(_, _) | Position::Storing(_) => true,
        Position::OldAwaiterInHand(_, _) | Position::Registered(_) | Position::TookBack(_) => true,
        Position::Emptier(_, _) => true,
        _ => false,
    }
}
