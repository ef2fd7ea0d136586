//! A gate that futures wait at. It has the waker of the first poll alone: each later wake is by that one.
ghost use Rattle.std.specs.Prelude.{⊤};

use std::alloc::Global;
use std::process::Abort;
use std::sync::{Arc, Mutex, Wait};
use task_core::{Future, Poll, Wake, Yields};

#[derive(Drop)]
struct Waiting<W: Wake> {
    waker: Option<W>,
    is_open: bool,
    polls: u64,
}

/// What a future that waits and those who wake it share.
#[derive(Drop)]
pub struct Gate<W: Wake> {
    waiting: Mutex<Waiting<W>>,
}

/// A closed gate. Stops where there is no memory.
pub fn new_gate<R: Abort, W: Wake>(rt: &R, alloc: Global) -> Arc<Gate<W>> {
    let waiting = Waiting {
        waker: None,
        is_open: false,
        polls: 0,
    };
    let gate = Gate {
        waiting: Mutex::new(waiting),
    };
    Arc::new(alloc, gate).expect(rt, "refused")
}

impl<W: Wake> Gate<W> {
    /// A clone of the waker of the first poll. `None` where there was none, or no clone is to be had.
    pub fn waker<R: Wait>(&self, rt: &R) -> Option<W> {
        self.waiting.lock(rt).waker.as_ref()?.try_clone().ok()
    }

    /// Opens the gate, and wakes nobody.
    pub fn open<R: Wait>(&self, rt: &R) {
        self.waiting.lock(rt).is_open = true;
    }

    /// Opens the gate, wakes by the waker of the first poll, and answers whether there was one.
    pub fn open_and_wake<R: Wait>(&self, rt: &R) -> bool {
        self.open(rt);
        match self.waker(rt) {
            Some(waker) => {
                waker.wake();
                true
            }
            None => false,
        }
    }

    /// How often futures looked at it.
    pub fn polls<R: Wait>(&self, rt: &R) -> u64 {
        self.waiting.lock(rt).polls
    }
}

/// Is ready with a number once its gate is open.
#[derive(Drop)]
pub struct Passes<R: Wait + Drop + Copy, W: Wake> {
    rt: R,
    gate: Arc<Gate<W>>,
    answer: u64,
}

/// A future that waits at this gate. Stops where the gate has as many owners as can be counted.
pub fn waits_at<R: Wait + Abort + Drop + Copy, W: Wake>(
    rt: R,
    gate: &Arc<Gate<W>>,
    answer: u64,
) -> Passes<R, W> {
    Passes {
        rt,
        gate: Arc::try_clone(gate).expect(&rt, "refused"),
        answer,
    }
}

impl<R: Wait + Drop + Copy, W: Wake> Yields for Passes<R, W> {
    type Output = u64;
}

impl<R: Wait + Drop + Copy, W: Wake> Future<W> for Passes<R, W> {
    ghost polled = { λ _ _ _ _. ⊤ };

    fn poll(&mut self, waker: &W) -> Poll<u64> {
        let mut waiting = self.gate.waiting.lock(&self.rt);
        waiting.polls = waiting.polls.saturating_add(1);
        if waiting.is_open {
            return Poll::Ready(self.answer);
        }
        if waiting.waker.is_none() {
            waiting.waker = waker.try_clone().ok();
        }
        Poll::Pending
    }
}
