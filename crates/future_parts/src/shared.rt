//! A state under a lock, what contracts see of how it began, and what shows that a call does not hold that lock.
use crate::due::{Due, Step};
use std::sync::{Mutex, MutexGuard, Wait};
use task_core::Wake;

/// A state of which contracts see how it began, by an `N`.
///
/// That is plain data, and no snapshot of the state: with one the prover does not find that threads may share the object.
pub trait Begins<N> {
    // The state begins as this says.
    ghost begins: { Self → N → Type 0 };

    /// How the state begins.
    fn first(&self) -> N
        ensures { begins self.now result };
}

/// A state under a lock, and how it began.
#[derive(Drop)]
pub struct Shared<S: Drop, N: Drop> {
    lock: Mutex<S>,
    pub(crate) first: N,
}

impl<N: Drop, S: Begins<N> + Drop> Shared<S, N> {
    /// Puts a state under a lock.
    pub fn new(state: S) -> Shared<S, N>
        ensures { S.begins state result.first }
    {
        let first = state.first();
        Shared {
            lock: Mutex::new(state),
            first,
        }
    }
}

impl<S: Drop, N: Drop> Shared<S, N> {
    // The only way to the lock. A call makes one alone.
    pub(crate) fn unlocked(&self) -> Unlocked<'_, S> {
        Unlocked { lock: &self.lock }
    }

    // Takes the lock for a step that ends a duty, and wakes without it whom that leaves due.
    pub(crate) fn wake_after<R: Wait, W: Wake, D, G: FnOnce(&mut S, D) -> Due<W>>(
        &self,
        rt: &R,
        duty: D,
        step: G,
    )
        requires { G.IsAlwaysCallable step }
    {
        let mut unlocked = self.unlocked();
        let due = step(&mut *unlocked.lock(rt), duty);
        due.wake(&unlocked);
    }

    // Carries a duty out, step by step: takes the lock for each, and wakes without it.
    pub(crate) fn wake_each<R: Wait, W: Wake, D, G: Fn(&mut S, D) -> Step<W, D>>(
        &self,
        rt: &R,
        begun: D,
        step: G,
    )
        requires { G.IsAlwaysCallable step }
    {
        let mut unlocked = self.unlocked();
        let mut duty = begun;
        for _ in rt.forever() {
            let next = step(&mut *unlocked.lock(rt), duty);
            match next {
                Step::Next(due, rest) => {
                    due.wake(&unlocked);
                    duty = rest;
                }
                Step::Done => return,
            }
        }
        unreachable!()
    }
}

/// Shows that this call does not hold the lock: while it does, this is borrowed. What runs foreign code, a wake or a drop, asks for it.
#[derive(Drop)]
pub struct Unlocked<'a, S: Drop> {
    lock: &'a Mutex<S>,
}

impl<S: Drop> Unlocked<'_, S> {
    // Takes the lock.
    pub(crate) fn lock<R: Wait>(&mut self, rt: &R) -> MutexGuard<'_, S> {
        self.lock.lock(rt)
    }
}
