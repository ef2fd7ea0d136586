//! The awaiter of a race.
ghost use Rattle.std.specs.Prelude.{⊤};

use async_task::Wake;
use rows_fixtures::counters::{Counter, Counters};
use rows_fixtures::rendezvous::Rendezvous;
use std::alloc::Global;
use std::hint::spin_loop;
use std::process::Abort;
use std::sync::Arc;

// How many turns a clone takes that waits for nothing.
const CLONE: u64 = 4;

// How often a clone looks whether the future has been dropped.
const LOOKS: u32 = 1_000;

// What a clone waits for: that so many futures were dropped.
#[derive(Drop)]
struct Drops {
    counters: Arc<Counters>,
    future_drops: u64,
}

impl Drops {
    // It does not wait long for a thread that cannot run.
    fn wait(&self) {
        for _ in 0..LOOKS {
            if self.counters.future_drops.get() >= self.future_drops {
                break;
            }
            spin_loop();
        }
    }
}

// What an awaiter and its clones share.
#[derive(Drop)]
struct Shared {
    after: Option<Drops>,
    turns: u64,
    clones: Counter,
    wakes: Counter,
    reference_wakes: Counter,
    drops: Counter,
    rendezvous: Rendezvous,
}

/// An awaiter that counts what becomes of it and its clones. Its drop comes to a meeting with a second thread, if one is armed.
pub struct RaceAwaiter {
    shared: Arc<Shared>,
}

impl RaceAwaiter {
    /// An awaiter that has counted nothing. Stops where there is no memory.
    pub fn new<R: Abort>(rt: &R, alloc: Global) -> RaceAwaiter {
        RaceAwaiter::make(rt, alloc, None, CLONE)
    }

    /// An awaiter that is cloned so many turns after so many futures were dropped: right before their runs take out an awaiter.
    /// Stops where there is no memory.
    pub fn after_drop<R: Abort>(
        rt: &R,
        alloc: Global,
        counters: Arc<Counters>,
        future_drops: u64,
        turns: u64,
    ) -> RaceAwaiter {
        let after = Drops {
            counters,
            future_drops,
        };
        RaceAwaiter::make(rt, alloc, Some(after), turns)
    }

    fn make<R: Abort>(rt: &R, alloc: Global, after: Option<Drops>, turns: u64) -> RaceAwaiter {
        let shared = Shared {
            after,
            turns,
            clones: Counter::new(),
            wakes: Counter::new(),
            reference_wakes: Counter::new(),
            drops: Counter::new(),
            rendezvous: Rendezvous::new(),
        };
        RaceAwaiter {
            shared: Arc::new(alloc, shared).expect(rt, "refused"),
        }
    }

    /// How many clones were made, how many of them were woken by value, and how many dropped. Last how many wakes were by
    /// reference: only a poll does so, which finds a notifier where it begins to register.
    pub fn counts(&self) -> [u64; 4] {
        let shared = &*self.shared;
        [
            shared.clones.get(),
            shared.wakes.get(),
            shared.drops.get(),
            shared.reference_wakes.get(),
        ]
    }

    /// Whether all clones have ended: were woken by value, or dropped. For each wake by reference a clone was dropped.
    pub fn all_ended(&self) -> bool {
        let [clones, wakes, drops, reference_wakes] = self.counts();
        clones == wakes.wrapping_add(drops) && reference_wakes <= drops
    }

    /// Whether it was woken, by value or by reference.
    pub fn is_woken(&self) -> bool {
        let [_, wakes, _, reference_wakes] = self.counts();
        wakes != 0 || reference_wakes != 0
    }

    /// Where a drop meets a second thread.
    pub fn rendezvous(&self) -> &Rendezvous {
        &self.shared.rendezvous
    }
}

impl Drop for RaceAwaiter {
    fn drop(self) {
        let RaceAwaiter { shared } = self;
        shared.rendezvous.meet();
        shared.drops.add_one();
        drop(shared);
    }
}

impl Wake for RaceAwaiter {
    type Record = ();

    ghost woken = { λ _ _. ⊤ };

    ghost woken_by_ref = { λ _ _. ⊤ };

    ghost cloned = { λ _ _. ⊤ };

    ghost compared = { λ _ _ _. ⊤ };

    fn wake(self) {
        let RaceAwaiter { shared } = self;
        shared.wakes.add_one();
        drop(shared);
    }

    fn wake_by_ref(&self) {
        self.shared.reference_wakes.add_one();
    }

    // It takes some turns, so that a notifier may come between the first look of a poll and its registration.
    fn try_clone(&self) -> Result<RaceAwaiter, ()> {
        if let Some(drops) = &self.shared.after {
            drops.wait();
        }
        for _ in 0..self.shared.turns {
            spin_loop();
        }
        let Ok(shared) = Arc::try_clone(&self.shared) else {
            return Err(());
        };
        shared.clones.add_one();
        Ok(RaceAwaiter { shared })
    }

    // Each is woken, so that the count of wakes tells who awaits.
    fn will_wake(&self, _other: &RaceAwaiter) -> bool {
        false
    }
}
