//! How the calls of a script are made inside foreign code.
//!
//! A value of the task cannot own handles of that task: its type would hold itself. So a value whose code is called asks, and waits until a thread that
//! has the handles has made the calls. In such a call other foreign code may ask in turn, of the next thread. No two of these threads ever go at once.

use crate::log::Log;
use crate::script::{Call, Inside, Moment};
use std::alloc::Global;
use std::sync::atomic::{AtomicUsize, Ordering};
use std::sync::{Mutex, Wait};
use std::thread::{Parker, yield_now};

/// How many threads make calls inside foreign code, and so how deep it is reached.
pub const DEPTH: usize = 2;

// The turn when the script has ended.
const OVER: usize = 3;

/// Where foreign code asks for the calls that a script has for it, and notes what is done to it.
#[derive(Drop)]
pub struct Stage {
    /// What happened so far.
    pub log: Log,
    // The number of the thread whose turn it is, 0 for the thread that plays the script, or `OVER`. Who has the turn alone takes the two locks.
    turn: AtomicUsize,
    // What foreign code has not asked for yet.
    inside: Mutex<Vec<Inside>>,
    // The calls that the thread has to make whose turn it is.
    asked: Mutex<Option<Vec<Call>>>,
    // Where the threads sleep whose turn it is not.
    parkers: (Parker, Parker),
}

impl Stage {
    /// A stage on which nothing has happened. `inside` are the calls inside foreign code.
    pub fn new(alloc: Global, inside: Vec<Inside>) -> Stage {
        Stage {
            log: Log::new(alloc),
            turn: AtomicUsize::new(0),
            inside: Mutex::new(inside),
            asked: Mutex::new(None),
            parkers: (Parker::new(), Parker::new()),
        }
    }

    /// Has the calls made that the script has next for this moment, and waits for their end. None are made where it has none left, or where foreign code
    /// is reached too deep.
    pub fn reach(&self, moment: Moment) {
        let turn = self.turn.load(Ordering::SeqCst);
        if turn < DEPTH && self.ask(moment) {
            self.give(turn.saturating_add(1));
            self.await_turn(turn);
        }
    }

    /// The next calls of the thread of this number, of 1 to `DEPTH`: it sleeps until it is asked. `None` says that the script has ended.
    pub fn next<R: Wait>(&self, rt: &R, number: usize) -> Option<Vec<Call>> {
        for _ in rt.forever() {
            let turn = self.turn.load(Ordering::SeqCst);
            if turn == number || turn == OVER {
                break;
            }
            self.parker(number).park(rt);
        }
        self.asked.lock(rt).take()
    }

    /// Says that the thread of this number has made its calls.
    pub fn finish(&self, number: usize) {
        self.turn.store(number.saturating_sub(1), Ordering::SeqCst);
    }

    /// Says that the script has ended.
    pub fn end(&self) {
        self.give(OVER);
        self.parkers.0.unpark();
    }

    // Takes the calls that come next at a moment, for the next thread, and answers whether there are any.
    fn ask(&self, moment: Moment) -> bool {
        let Some(calls) = self.take_calls(moment) else {
            return false;
        };
        let Some(mut asked) = self.asked.try_lock() else {
            return false;
        };
        *asked = Some(calls);
        true
    }

    fn take_calls(&self, moment: Moment) -> Option<Vec<Call>> {
        let mut inside = self.inside.try_lock()?;
        let place = inside.iter().position(|inside| inside.moment == moment)?;
        Some(inside.remove(place).calls)
    }

    // Gives the turn to the thread of that number.
    fn give(&self, number: usize) {
        self.turn.store(number, Ordering::SeqCst);
        self.parker(number).unpark();
    }

    fn parker(&self, number: usize) -> &Parker {
        if number == 1 {
            &self.parkers.0
        } else {
            &self.parkers.1
        }
    }

    // Waits for the turn of the thread of that number. What asks has no leave to sleep: it is dropped, or is not passed the runtime.
    fn await_turn(&self, number: usize) {
        for _ in 0..u64::MAX {
            if self.turn.load(Ordering::SeqCst) == number {
                return;
            }
            yield_now();
        }
    }
}
