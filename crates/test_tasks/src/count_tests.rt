//! What the counting allocator counts.
//! Of what is only tested (docs/PROOFS.md): Memory and limits.

use rows_fixtures::counting::Counting;
use std::alloc::{AllocError, Allocator};

// How many blocks were asked for, and of how many bytes.
fn counted<B: Allocator>(counting: &Counting<B>) -> (u64, u64) {
    (counting.allocations(), counting.bytes())
}

// How many blocks were given back, and of how many bytes.
fn returned<B: Allocator>(counting: &Counting<B>) -> (u64, u64) {
    (counting.returns(), counting.returned_bytes())
}

// Five `u32` are 20 bytes, fourteen 56, and a `u64` is 8. A row that grows is a new block, for which the old one is given back.
#[test]
fn blocks_are_counted_with_their_bytes(rt: HostRuntime) {
    let counting = Counting::new(rt.alloc());
    let none = counted(&counting);
    let mut row = Vec::with_capacity(&counting, 5).expect(&rt, "refused");
    row.push(1u32).expect(&rt, "refused");
    let of_row = counted(&counting);
    let kept = returned(&counting);
    drop(Box::new(&counting, 7u64).expect(&rt, "refused"));
    let of_box = counted(&counting);
    row.try_reserve_exact(13).expect(&rt, "refused");
    let grown = counted(&counting);
    let left = returned(&counting);
    drop(row);
    assert!(rt; none == (0, 0) && of_row == (1, 20) && of_box == (2, 28));
    assert!(rt; grown == (3, 84) && counted(&counting) == grown);
    assert!(rt; [kept, left, returned(&counting)] == [(0, 0), (2, 28), (3, 84)]);
}

// No machine has so much memory. The allocator below is asked too.
#[test]
fn a_refused_request_is_counted(rt: HostRuntime) {
    let below = Counting::new(rt.alloc());
    let above = Counting::new(&below);
    let refused: Result<Vec<u8, _>, AllocError> = Vec::with_capacity(&above, 1 << 60);
    assert!(rt; refused.is_err());
    assert!(rt; counted(&above) == (1, 1 << 60) && counted(&below) == (1, 1 << 60));
    assert!(rt; returned(&above) == (0, 0));
}
