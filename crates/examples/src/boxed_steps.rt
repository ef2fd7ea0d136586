//! Two types of futures for the boxes of `boxed.rt`. They know a ticket, and neither a task nor a waker: the first waits, and the second
//! rings its ticket.
use crate::boxed::{Step, Ticket};
use async_task::Poll;
use std::cell::Cell;
use std::rc::Rc;

/// Where one future waits for the number of another.
#[derive(Default, Drop)]
pub struct Place {
    number: Cell<Option<u64>>,
    waits: Cell<Option<Ticket>>,
}

/// Doubles the number that comes to its place.
#[derive(Drop)]
pub struct Doubles(pub Rc<Place>);

impl Step for Doubles {
    fn step(&mut self, ticket: &Ticket) -> Poll<u64> {
        if let Some(number) = self.0.number.get() {
            return Poll::Ready(number.saturating_mul(2));
        }
        self.0.waits.set(ticket.try_clone());
        Poll::Pending
    }
}

/// Brings a number to its place, and rings the ticket that was left there.
#[derive(Drop)]
pub struct Brings(pub u64, pub Rc<Place>);

impl Step for Brings {
    fn step(&mut self, _ticket: &Ticket) -> Poll<u64> {
        self.1.number.set(Some(self.0));
        if let Some(ticket) = self.1.waits.take() {
            ticket.ring();
        }
        Poll::Ready(self.0)
    }
}
