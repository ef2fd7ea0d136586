//! Tests of a block that begins with two shares: an exchange ends one of them, a fetch the other. The last share is a share once more, and after it has closed the block the seat still notes what it knows.
ghost use Rattle.std.specs.Prelude.{◌≡◌, ◌==◌, true, false};
ghost use Rattle.test_tasks.specs.Stages.{Staged};

use counted_block::{Bare, BlockPlay, BlockRule, CountPlay, Inner, Place, Share};
use linked_list_allocator::LocalHeap;

/// The seat knows the stage: 0 with two shares, 1 with one, 2 with none, and 3 once it has noted the end.
struct Stages;

impl BlockRule<u8, u16, u64, ()> for Stages {
    ghost holds = { λ _ s. Staged s };

    ghost first = { λ _. 0 };

    ghost out = { λ n. n };
}

/// One of the two shares ends.
struct Halve;

impl BlockPlay<Place<u8, u16>, u64, ()> for Halve {
    ghost then = { λ _ _ _ n after. (n ≡ 2) × (after.0 ≡ 1) };
}

impl CountPlay<Place<u8, u16>, u64, ()> for Halve {
    ghost counts = { λ _ n. n == 2 };

    ghost lasts = { λ _ _. false };
}

/// The other one ends.
struct EndOther;

impl BlockPlay<Place<u8, u16>, u64, ()> for EndOther {
    ghost then = { λ _ _ _ n after. (n ≡ 1) × (after.0 ≡ 2) };
}

impl CountPlay<Place<u8, u16>, u64, ()> for EndOther {
    ghost counts = { λ _ _. true };

    ghost lasts = { λ _ _. true };
}

/// The last share looks.
struct Look;

impl BlockPlay<Place<u8, u16>, u64, ()> for Look {
    ghost then = { λ _ _ _ n after. (n ≡ 0) × (after.0 ≡ 2) };
}

/// It is a share again.
struct Revive;

impl BlockPlay<Place<u8, u16>, u64, ()> for Revive {
    ghost then = { λ _ _ _ n after. (n ≡ 0) × (after.0 ≡ 1) };
}

/// The seat notes that all is over.
struct NoteEnd;

impl BlockPlay<Place<u8, u16>, u64, ()> for NoteEnd {
    ghost then = { λ _ _ _ _ after. after.0 ≡ 3 };
}

// The word that the exchange found, the value and the second slot that the block had, and whether its memory was given back before the note.
fn halve_close_and_note(heap: &LocalHeap) -> Option<(u64, u64, u16, bool)> {
    let inner = Inner {
        word: 2,
        holds: 0,
        first: 10,
        second: 300,
        value: 7,
    };
    let block = Box::new(heap, inner).ok()?;
    let (share, other, mut seat) = Share::<u8, u16, u64, (), Stages, u64, &LocalHeap>::new_pair(
        Bare::of(block),
        &(),
    );
    let (found, maybe) = share.part_exchange::<Halve>(&mut seat, 2, 1);
    let ledger = maybe.none();
    let (_, maybe) = other.part::<EndOther>(&mut seat, 1);
    let last = maybe.last();
    last.load::<Look>(&mut seat);
    let (_, again) = last.revive::<Revive>(&mut seat, 1);
    let (_, maybe) = again.part::<EndOther>(&mut seat, 1);
    let bare = maybe.last().close(&mut seat)?;
    let inner = Box::into_inner(bare.into_box(heap));
    let is_freed = heap.used() == 0;
    ledger.note::<NoteEnd>(&mut seat);
    Some((found, inner.value, inner.second, is_freed))
}

#[test]
fn a_seat_notes_after_its_block_is_gone(rt: HostRuntime) {
    let heap = LocalHeap::new(rt.alloc(), 4096).expect(&rt, "refused");
    let seen = halve_close_and_note(&heap);
    assert!(rt; seen == Some((2, 7, 300, true)));
}
