//! A line of waiters: wakers under numbers, in the order in which they came.
ghost use Rattle.std.specs.Prelude.{◌≡◌, ◌<◌, ◌≤◌, ◌+◌, ◌^◌, ◌++◌, ◌∷◌, [], ℕ, None, Some, IfOk, IfErr, IfSome, IsOk, OnErr, OnOk, length, is_none, nat_eq, option_map, slice_get, slice_set};
ghost use Rattle.std.specs.List.{All, position, remove};
ghost use Rattle.std.specs.VecDeque.{deque_capacity};

use super::Place;
use std::alloc::{AllocError, Global};
use std::collections::VecDeque;
use std::mem;

/// The numbers of a line end before this one, which it would reach after centuries of joins alone.
const LAST: u64 = u64::MAX - 1;

/// A waker in a line, with the number of its place.
#[derive(Drop)]
pub struct Waiter<W> {
    pub(crate) number: u64,
    pub(crate) waker: W,
}

/// Waiters, the one that came first in front. Memory for some is reserved, and further ones ask for it.
#[derive(Drop)]
pub struct Line<W> {
    pub(crate) waiters: VecDeque<Waiter<W>>,
    pub(crate) next: u64,
    pub(crate) room: usize,
    ghost small: { next + 1 < 2 ^ 64 },
    ghost reserved: { room ≤ deque_capacity waiters },
    ghost below: { All (λ waiter. waiter.number < next) waiters.items },
}

impl<W> Line<W> {
    ghost use Rattle.future_parts.specs.declared.asked.line.Waiter.{Waiter as AWaiter};
    ghost use Rattle.future_parts.specs.Asked.{waiting, spot, FirstOut};

    /// An empty line, with memory for `room` waiters.
    pub fn new(alloc: Global, room: usize) -> Result<Line<W>, AllocError>
        ensures empty { IfOk result (λ line. waiting line ≡ []) }
        ensures room { IfOk result (λ line. line.room ≡ room) }
        ensures next { IfOk result (λ line. line.next ≡ 0) }
    {
        let waiters = VecDeque::with_capacity(alloc, room)?;
        Ok(Line {
            waiters,
            next: 0,
            room,
        })
    }

    /// Where the waiter of a place stands. `None` where none stands there.
    pub fn position(&self, place: &Place) -> Option<usize>
        ensures spot { result ≡ spot place.now.number (waiting self.now) }
        ensures bound { IfSome result (λ index. index < length (waiting self.now)) }
    {
        match place.number {
            Some(number) => self.index_of(number),
            None => None,
        }
    }

    // Where the waiter with this number stands.
    fn index_of(&self, number: u64) -> Option<usize>
        ensures position { result ≡ position (λ waiter. nat_eq waiter.number number) (waiting self.now) }
        ensures bound { IfSome result (λ index. index < length (waiting self.now)) }
    {
        self.waiters
            .iter()
            .position(|waiter| waiter.number == number)
    }

    /// Gives the waiter at an index another waker. Answers the one before.
    pub fn renew(&mut self, index: usize, waker: W) -> W
        requires { index < length (waiting self.old) }
        ensures waiter { (before : AWaiter W) × (slice_get (waiting self.old) index ≡ Some before) × (waiting self.new ≡ slice_set (waiting self.old) index (record { number = before.number; waker = waker })) × (result ≡ before.waker) }
        ensures next { self.new.next ≡ self.old.next }
        ensures room { self.new.room ≡ self.old.room }
    {
        mem::replace(&mut self.waiters[index].waker, waker)
    }

    /// Lets a waker join at the end, and gives its number to the place. Memory is asked for only beyond what is reserved.
    ///
    /// An error says that it was refused, or that all numbers were given out. It hands the waker back, and nothing has changed.
    pub fn join(&mut self, place: &mut Place, waker: W) -> Result<(), W>
        ensures joins { OnOk result (waiting self.new ≡ waiting self.old ++ record { number = self.old.next; waker = waker } ∷ []) }
        ensures number { OnOk result (place.new.number ≡ Some self.old.next) }
        ensures next { OnOk result (self.new.next ≡ self.old.next + 1) }
        ensures room { self.new.room ≡ self.old.room }
        ensures back { IfErr result (λ back. back ≡ waker) }
        ensures stays { OnErr result ((waiting self.new ≡ waiting self.old) × (self.new.next ≡ self.old.next) × (place.new.number ≡ place.old.number)) }
        ensures reserved { length (waiting self.old) < self.old.room → self.old.next + 2 < 2 ^ 64 → IsOk result }
    {
        if self.next >= LAST {
            return Err(waker);
        }
        let number = self.next;
        match self.waiters.push_back(Waiter { number, waker }) {
            Ok(()) => {
                self.next += 1;
                place.number = Some(number);
                Ok(())
            }
            Err(failed) => {
                let Waiter { number: _, waker } = failed.value;
                Err(waker)
            }
        }
    }

    /// The number of the waiter that came first. `None` where none waits.
    pub fn first_number(&self) -> Option<u64>
        ensures { result ≡ option_map (λ waiter. waiter.number) (slice_get (waiting self.now) 0) }
    {
        self.waiters.front().map(|waiter| waiter.number)
    }

    /// Takes out the waker that came first. `None` where none waits.
    pub fn take_first(&mut self) -> Option<W>
        ensures first { FirstOut (waiting self.old) result (waiting self.new) }
        ensures next { self.new.next ≡ self.old.next }
        ensures room { self.new.room ≡ self.old.room }
    {
        let Waiter { number: _, waker } = self.waiters.pop_front()?;
        Some(waker)
    }

    /// Takes out the waker at an index. The others keep their order.
    pub fn take_at(&mut self, index: usize) -> W
        requires { index < length (waiting self.old) }
        ensures waiter { (before : AWaiter W) × (slice_get (waiting self.old) index ≡ Some before) × (result ≡ before.waker) }
        ensures others { waiting self.new ≡ remove (waiting self.old) index }
        ensures next { self.new.next ≡ self.old.next }
        ensures room { self.new.room ≡ self.old.room }
    {
        match self.waiters.remove(index) {
            Some(Waiter { number: _, waker }) => waker,
            None => unreachable!(),
        }
    }
}
