//! Tests of plain access to the slots: a thread takes both, reads and writes them, and closes the block while another thread releases a hold.
ghost use Rattle.std.specs.Prelude.{◌≡◌, ℕ, true, [], ◌∷◌};
ghost use Rattle.counted_block.specs.declared.place.Place.TheVariants.{First, Second};
ghost use Rattle.test_tasks.specs.Stages.{Taken};

use counted_block::{Bare, BlockPlay, BlockRule, CountPlay, Hold, Inner, Place, Seat, Share};
use std::alloc::Global;
use std::thread::{self, Threads};

/// The rule of one share and one seat, which knows the stage: 0 before it takes the slots, 1 with them, and 2 once it has given the share up.
struct OneSeat;

impl BlockRule<u8, u16, u64, ()> for OneSeat {
    ghost holds = { λ _ s. Taken s };

    ghost first = { λ _. 0 };

    ghost out = { λ n. n };
}

/// The seat takes both slots, the second one last.
struct Take;

impl BlockPlay<Place<u8, u16>, u64, ()> for Take {
    ghost then = { λ _ _ _ _ after. (x : ℕ) × (y : ℕ) × (after ≡ (1, (1, Second y) ∷ (0, First x) ∷ [])) };
}

/// The share is given up.
struct Part;

impl BlockPlay<Place<u8, u16>, u64, ()> for Part {
    ghost then = { λ _ _ before n after. (n ≡ 1) × (after ≡ (2, before.1)) };
}

impl CountPlay<Place<u8, u16>, u64, ()> for Part {
    ghost counts = { λ _ _. true };

    ghost lasts = { λ _ _. true };
}

type OneShare = Share<u8, u16, u64, (), OneSeat, (), Global>;

type OneHold = Hold<u8, u16, u64, (), OneSeat, (), Global>;

// The slots of a block that has ended.
fn slots_of(alloc: Global, bare: Bare<Inner<u8, u16, ()>, Global>) -> (u8, u16)
    requires { bare.heap ≡ alloc }
{
    let inner = Box::into_inner(bare.into_box(alloc));
    (inner.first, inner.second)
}

/// A share and its seat, which has no slot yet.
struct Writer {
    share: OneShare,
    seat: Seat<u8, u16, u64>,
    alloc: Global,
    ghost seated: { (share.heap ≡ alloc) × (seat.block ≡ share.id) × (seat.id ≡ 0) × (seat.me ≡ (0, [])) },
}

impl Writer {
    // What an exchange of the second slot finds, and each of two of the first, between which one is added. And the slots, if this ends the block.
    fn write_and_close(self) -> (u16, u8, u8, Option<(u8, u16)>) {
        let Writer {
            share,
            mut seat,
            alloc,
        } = self;
        share.load::<Take>(&mut seat);
        let second = share.swap_second(&mut seat, 700);
        seat.turn();
        let was = share.swap_first(&mut seat, 7);
        *seat.first_mut(&share) += 1;
        let left = share.swap_first(&mut seat, 9);
        let (_, maybe) = share.part::<Part>(&mut seat, 1);
        let slots = match maybe.last().close(&mut seat) {
            Some(bare) => Some(slots_of(alloc, bare)),
            None => None,
        };
        (second, was, left, slots)
    }
}

impl Drop for Writer {
    fn drop(self) {
        self.write_and_close();
    }
}

/// A hold of the same block.
struct Keeper {
    hold: OneHold,
    alloc: Global,
    ghost kept: { hold.heap ≡ alloc },
}

impl Keeper {
    // The slots, if this ends the block.
    fn release(self) -> Option<(u8, u16)> {
        let Keeper { hold, alloc } = self;
        match hold.release() {
            Some(bare) => Some(slots_of(alloc, bare)),
            None => None,
        }
    }
}

impl Drop for Keeper {
    fn drop(self) {
        self.release();
    }
}

// What each gets as the share ends on one thread and the hold on another.
fn end_on_two<R: Threads>(
    rt: &R,
    alloc: Global,
) -> Option<((u16, u8, u8, Option<(u8, u16)>), Option<(u8, u16)>)> {
    let inner = Inner {
        word: 1,
        holds: 0,
        first: 1,
        second: 300,
        value: (),
    };
    let block = Box::new(alloc, inner).ok()?;
    let (share, seat) = OneShare::new(Bare::of(block), &());
    let writer = Writer { share, seat, alloc };
    let hold = writer.share.hold()?;
    let keeper = Keeper { hold, alloc };
    Some(thread::join(
        rt,
        move || writer.write_and_close(),
        move || keeper.release(),
    ))
}

#[test]
fn one_of_two_threads_gets_the_slots(rt: HostRuntime) {
    let ended = end_on_two(&rt, rt.alloc());
    let by_share = Some(((300, 1, 8, Some((9, 700))), None));
    let by_hold = Some(((300, 1, 8, None), Some((9, 700))));
    assert!(rt; ended == by_share || ended == by_hold);
}
