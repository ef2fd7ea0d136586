//! Tests of a pointer: its block is freed once, after the last owner or the last keeper, whichever thread ends that.

use crate::blocks::keeper::Keeper;
use crate::blocks::pointer::Pointer;
use linked_list_allocator::LocalHeap;
use std::alloc::Global;
use std::process::Abort;
use std::sync::Arc;
use std::thread::{self, Threads};

// A heap with nothing in it.
fn new_heap<R: Abort>(rt: &R, alloc: Global) -> LocalHeap {
    LocalHeap::new(alloc, 4096).expect(rt, "refused")
}

// What two owners get as they give up, and whether the heap has the block before, between and after.
fn end_two<R: Abort>(rt: &R, alloc: Global) -> ([Option<u64>; 2], [bool; 3]) {
    let heap = new_heap(rt, alloc);
    let first = Pointer::new(&heap, 7).expect(rt, "refused");
    let second = first.try_clone().expect(rt, "refused");
    let both = heap.used() > 0;
    let early = first.give_up();
    let one = heap.used() > 0;
    let late = second.give_up();
    ([early, late], [both, one, heap.used() > 0])
}

// What the last owner and then a keeper get, and the keeper sees between; and whether the heap has the block then and at the end.
fn outlive<R: Abort>(rt: &R, alloc: Global) -> ([Option<u64>; 2], u64, [bool; 2]) {
    let heap = new_heap(rt, alloc);
    let owner = Pointer::new(&heap, 7).expect(rt, "refused");
    let keeper = owner.keep().expect(rt, "refused");
    let early = owner.give_up();
    let seen = *keeper.value();
    let kept = heap.used() > 0;
    let late = keeper.give_up();
    ([early, late], seen, [kept, heap.used() > 0])
}

// How many have a counted value once two owners and a keeper of it are dropped, one after the other; and whether the heap has the block then.
fn drop_all<R: Abort>(rt: &R, alloc: Global) -> ([usize; 3], bool) {
    let heap = new_heap(rt, alloc);
    let counted = Arc::new(alloc, 7u64).expect(rt, "refused");
    let value = Arc::try_clone(&counted).expect(rt, "refused");
    let first = Pointer::new(&heap, value).expect(rt, "refused");
    let second = first.try_clone().expect(rt, "refused");
    let keeper = second.keep().expect(rt, "refused");
    drop(first);
    let one = Arc::strong_count(&counted);
    drop(second);
    let none = Arc::strong_count(&counted);
    drop(keeper);
    let last = Arc::strong_count(&counted);
    ([one, none, last], heap.used() > 0)
}

// The last one gets the value, or drops it.
#[test]
fn the_last_owner_or_keeper_frees_the_block(rt: HostRuntime) {
    assert!(rt; end_two(&rt, rt.alloc()) == ([None, Some(7)], [true, true, false]));
    assert!(rt; outlive(&rt, rt.alloc()) == ([None, Some(7)], 7, [true, false]));
    assert!(rt; drop_all(&rt, rt.alloc()) == ([2, 2, 1], false));
}

// Makes some owners more and ends them, and then this one.
fn clone_and_end(owner: Pointer<u64, Global>) -> Option<u64> {
    for _ in 0..1000u32 {
        if let Some(more) = owner.try_clone() {
            drop(more);
        }
    }
    owner.give_up()
}

// Two owners on two threads: what each gets.
fn end_on_two<R: Threads + Abort>(rt: &R, alloc: Global) -> (Option<u64>, Option<u64>) {
    let first = Pointer::new(alloc, 7).expect(rt, "refused");
    let second = first.try_clone().expect(rt, "refused");
    thread::join(
        rt,
        move || clone_and_end(first),
        move || clone_and_end(second),
    )
}

// An owner ends on one thread, and a keeper on another: what each gets.
fn keep_on_two<R: Threads + Abort>(rt: &R, alloc: Global) -> (Option<u64>, Option<u64>) {
    let owner = Pointer::new(alloc, 7).expect(rt, "refused");
    let keeper: Keeper<u64, Global> = owner.keep().expect(rt, "refused");
    thread::join(rt, move || clone_and_end(owner), move || keeper.give_up())
}

// Stops where not one of the two gets the value, in 20 rounds of each.
fn one_gets_the_value<R: Threads + Abort>(rt: &R, alloc: Global) {
    for _ in 0..20u32 {
        for ends in [end_on_two(rt, alloc), keep_on_two(rt, alloc)] {
            assert!(rt; ends == (Some(7), None) || ends == (None, Some(7)));
        }
    }
}

#[test]
fn one_of_two_threads_gets_the_value(rt: HostRuntime) {
    one_gets_the_value(&rt, rt.alloc());
}
