//! A heap of Runnables, which hands out the one of greatest priority first.
ghost use Rattle.std.specs.Prelude.{◌≡◌, ◌↔◌, ◌≤◌, ◌∷◌, nat_eq, [], length, All, IsErr, IsNone, IfErr, IfNone, IfOk, IfSome, OnErr, OnOk, IsPermutation};
ghost use Rattle.std.specs.BinaryHeap.{IsHeap, heap_capacity, heap_items, heap_len};
ghost use Rattle.std.specs.Cmp.{partial_order_from_own_ties};
ghost use Rattle.std.specs.Cmp.Rules.{comparing};
ghost use Rattle.std.specs.Ordering.{as_partial_cmp, nat_cmp, on};
ghost use Rattle.std.proofs.Common.{rules};
ghost use Rattle.std.proofs.Props.{props};
ghost use Rattle.executor_parts.specs.Priority.{priority_of};

use std::alloc::{AllocError, Global};
use std::cmp::Ordering;
use std::collections::BinaryHeap;
use std::sync::Wait;
use task_cell::Runnable;
use task_core::{Wake, Yields};

/// A Runnable as the heap holds it: its metadata is its priority, and it has no surroundings.
pub type PrioritizedRunnable<R, F, Q, A> = Runnable<R, F, Q, u64, A, ()>;

// A Runnable, which is compared by its priority alone.
#[derive(Drop)]
struct Entry<R: Wait + Drop + Copy, F: Yields, Q: Drop, A: Wake> {
    runnable: PrioritizedRunnable<R, F, Q, A>,
}

impl<R: Wait + Drop + Copy, F: Yields, Q: Drop, A: Wake> PartialEq for Entry<R, F, Q, A> {
    ghost eq = { on (λ entry. priority_of entry.runnable) nat_eq };

    ghost laws = { Prim.search (comparing, rules) };

    fn eq(&self, other: &Entry<R, F, Q, A>) -> bool {
        self.runnable.metadata() == other.runnable.metadata()
    }
}

impl<R: Wait + Drop + Copy, F: Yields, Q: Drop, A: Wake> Eq for Entry<R, F, Q, A> {
    ghost laws = { Prim.search (comparing, rules) };
}

impl<R: Wait + Drop + Copy, F: Yields, Q: Drop, A: Wake> PartialOrd for Entry<R, F, Q, A> {
    ghost partial_cmp = { as_partial_cmp (on (λ entry. priority_of entry.runnable) nat_cmp) };

    ghost laws = { partial_order_from_own_ties (Prim.search (comparing, rules)) (Prim.search (comparing, rules)) };

    fn partial_cmp(&self, other: &Entry<R, F, Q, A>) -> Option<Ordering> {
        Some(self.cmp(other))
    }
}

impl<R: Wait + Drop + Copy, F: Yields, Q: Drop, A: Wake> Ord for Entry<R, F, Q, A> {
    ghost cmp = { on (λ entry. priority_of entry.runnable) nat_cmp };

    ghost total = { Prim.search (comparing, rules) };

    ghost matches_partial_cmp = { Prim.search (comparing, rules) };

    ghost matches_eq = { Prim.search (comparing, rules) };

    fn cmp(&self, other: &Entry<R, F, Q, A>) -> Ordering {
        self.runnable.metadata().cmp(other.runnable.metadata())
    }
}

/// Runnables without surroundings, and room for a fixed number of them. Their metadata is their priority, and the greatest comes out first.
///
/// What is left is dropped with the heap, which cancels its tasks.
#[derive(Drop)]
pub struct PriorityHeap<R: Wait + Drop + Copy, F: Yields, Q: Drop, A: Wake> {
    heap: BinaryHeap<Entry<R, F, Q, A>>,
    room: usize,
    ghost ordered: { IsHeap (on (λ entry. priority_of entry.runnable) nat_cmp) (heap_items heap) } by { Prim.hlevel props },
    ghost bounded: { (heap_len heap ≤ room) × (room ≤ heap_capacity heap) },
}

impl<R: Wait + Drop + Copy, F: Yields, Q: Drop, A: Wake> PriorityHeap<R, F, Q, A> {
    ghost use Rattle.executor_parts.specs.PriorityHeap.{entries, room_of};

    /// An empty heap with room for that many Runnables. All its memory is taken here.
    pub fn new(alloc: Global, room: usize) -> Result<PriorityHeap<R, F, Q, A>, AllocError>
        ensures empty { IfOk result (λ heap. entries heap ≡ []) }
        ensures room { IfOk result (λ heap. room_of heap ≡ room) }
    {
        let heap = BinaryHeap::with_capacity(alloc, room)?;
        Ok(PriorityHeap { heap, room })
    }

    /// Puts a Runnable in, and takes no memory for it. It is handed back where the heap holds as many as it has room for.
    pub fn push(
        &mut self,
        runnable: PrioritizedRunnable<R, F, Q, A>,
    ) -> Result<(), PrioritizedRunnable<R, F, Q, A>>
        ensures full { IsErr result ↔ (length (entries self.old) ≡ room_of self.old) }
        ensures room { room_of self.new ≡ room_of self.old }

        // It joins those that were there.
        ensures added { OnOk result (IsPermutation (runnable ∷ entries self.old) (entries self.new)) }

        // Where it is handed back, nothing has changed.
        ensures returned { IfErr result (λ returned. returned ≡ runnable) }
        ensures unchanged { OnErr result (entries self.new ≡ entries self.old) }
    {
        if self.heap.len() == self.room {
            return Err(runnable);
        }
        match self.heap.push(Entry { runnable }) {
            Ok(()) => Ok(()),
            Err(refused) => Err(refused.value.runnable),
        }
    }

    /// Takes out a Runnable of greatest priority; `None` where there is none. Of several, any may come.
    pub fn pop(&mut self) -> Option<PrioritizedRunnable<R, F, Q, A>>
        ensures empty { IsNone result ↔ (entries self.old ≡ []) }
        ensures room { room_of self.new ≡ room_of self.old }
        ensures unchanged { IfNone result (entries self.new ≡ entries self.old) }

        // It was there, none is above it, and the others stay.
        ensures greatest { IfSome result (λ runnable. All (λ other. priority_of other ≤ priority_of runnable) (entries self.old)) }
        ensures others { IfSome result (λ runnable. IsPermutation (entries self.old) (runnable ∷ entries self.new)) }
    {
        let entry = self.heap.pop()?;
        Some(entry.runnable)
    }
}
