//! A replay comes to its end if there is memory, and says so if there is none; it keeps none.
//! Of what is only tested (crates/task_replay/README.md): Memory.

use crate::tests::turns::{END, GAIN};
use linked_list_allocator::LocalHeap;
use std::alloc::Global;
use std::process::Abort;
use task_core::word::LIMIT;
use task_replay::{ReplayError, Step, replay};

// Whether a replay with this much memory comes to its end. Stops where it fails for another reason, ends at another word than that of nine references, or keeps
// memory.
fn has_memory<R: Abort>(rt: &R, alloc: Global, size: usize, steps: &[Step]) -> bool {
    let heap = LocalHeap::new(alloc, size).expect(rt, "refused");
    let has_memory = match replay(&heap, LIMIT, steps) {
        Ok(machine) => {
            assert!(rt; machine.word().bits() == 0x911);
            true
        }
        Err(error) => {
            assert!(rt; error == ReplayError::NoMemory);
            false
        }
    };
    assert!(rt; heap.used() == 0);
    has_memory
}

// Each heap is one block larger than the one before: so each request of the list of parties is refused, until one heap is large enough.
#[test]
fn refused_memory_is_told(rt: HostRuntime) {
    let mut steps = Vec::new(rt.alloc());
    for _ in 0..8 {
        steps.extend_from_slice(&[GAIN, END]).expect(&rt, "refused");
    }
    let mut refusals = 0u32;
    for blocks in 0..256usize {
        if has_memory(&rt, rt.alloc(), 16 * blocks, steps.as_slice()) {
            assert!(rt; refusals > 3);
            return;
        }
        refusals = refusals.saturating_add(1);
    }
    panic!(rt; "no heap was large enough")
}
