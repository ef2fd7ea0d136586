//! How far a pool has come to its end.
ghost use Rattle.std.specs.Prelude.{◌≡◌, ◌≤◌, ◌+◌};
ghost use Rattle.std.specs.Arc.{arc_value};

use crate::kept::KeptCancelled;
use std::alloc::Allocator;
use std::sync::Wait;
use std::sync::atomic::{AtomicU64, Ordering};
use work_queues::Crew;
use work_queues::bells::{AllInterrupted, NothingShown};
use work_queues::board::{AllVisited, Reserved};

const OPEN: u64 = 0;

const CLOSED: u64 = 1;

const FINISHING: u64 = 2;

const SHUT_DOWN: u64 = 3;

/// Whether a pool takes tasks, and whether its workers end. It only goes on: from open to closed, then to finishing, and from each to shut down. Threads share the word, so no clause says what it shows.
#[derive(Drop)]
pub(crate) struct Stage {
    word: AtomicU64,
}

/// A look that found no shutdown. Only `Stage::look` makes one.
#[derive(Drop)]
pub(crate) struct NotShutDown(());

/// The pool takes no more tasks, which spawns that have a queue and workers that sleep do not know yet. It has no `Drop`, so it ends in `Stage::end`.
pub(crate) struct Closing(());

/// The pool was shut down, and has to cancel what it has left. It has no `Drop`, so it ends in `end`.
pub(crate) struct Cancelling(());

impl Cancelling {
    // What was kept is cancelled, and no queue shows a Runnable.
    pub(crate) fn end(self, kept: KeptCancelled, _none: NothingShown)
        requires { (8 ≤ kept.wakers.part) × (8 ≤ kept.tasks.part) }
    {
        let Cancelling(()) = self;
        drop(kept);
    }
}

impl Stage {
    // The stage of a pool that takes tasks. No clause says so, since threads share the word.
    pub(crate) fn new() -> Stage {
        Stage {
            word: AtomicU64::new(OPEN),
        }
    }

    // Whether the pool takes tasks. Who asks has a queue, for which `end` waits: what was spawned before that is found there. No clause says what the word shows.
    pub(crate) fn is_open<T, B: Allocator>(&self, _reserved: &Reserved<T, B>) -> bool {
        self.word.load(Ordering::SeqCst) == OPEN
    }

    // Whether a worker ends that finds nothing. No clause says what the word shows.
    pub(crate) fn is_finishing(&self) -> bool {
        self.word.load(Ordering::SeqCst) == FINISHING
    }

    // A look for a shutdown, of which nothing is seen. No clause says what the word shows.
    pub(crate) fn look(&self) -> Option<NotShutDown> {
        if self.word.load(Ordering::SeqCst) == SHUT_DOWN {
            return None;
        }
        Some(NotShutDown(()))
    }

    // The pool takes no more tasks. `None` where that was so already. No clause says so: only this and `shut_down` make a `Closing`, and only `end` ends it.
    pub(crate) fn close(&self) -> Option<Closing> {
        if self.go_on(OPEN, CLOSED) {
            return Some(Closing(()));
        }
        None
    }

    // The pool is shut down from here on. As of `close`, no clause says so.
    pub(crate) fn shut_down(&self) -> (Closing, Cancelling) {
        self.word.store(SHUT_DOWN, Ordering::SeqCst);
        (Closing(()), Cancelling(()))
    }

    // Waits until what was spawned before is in a queue. From then on workers end that find nothing, and each looks once more. A pool that was shut down stays so.
    pub(crate) fn end<R: Wait, T, B: Allocator>(
        &self,
        closing: Closing,
        rt: &R,
        crew: &Crew<T, B>,
    ) -> (AllVisited, AllInterrupted)
        ensures passed { result.0.next ≡ (arc_value crew.now.bells).workers + 1 }
        ensures told { result.1.next ≡ (arc_value crew.now.bells).workers }
    {
        let Closing(()) = closing;
        let passed = crew.pass(rt);
        self.go_on(CLOSED, FINISHING);
        (passed, crew.bells().interrupt_all())
    }

    // Goes on from one stage to a later one. False where the word showed another one. No clause says what it shows.
    fn go_on(&self, from: u64, to: u64) -> bool {
        self.word
            .compare_exchange(from, to, Ordering::SeqCst, Ordering::SeqCst)
            .is_ok()
    }
}
