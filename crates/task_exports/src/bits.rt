//! Handles that cross by their bits, in a register.
ghost use Rattle.std.specs.Prelude.{◌≡◌, Option, Some, None};
ghost use Rattle.task_exports.specs.Places.{owned, owned_at, owned_if};
ghost use Rattle.task_exports.specs.declared.hand.Hand.{Hand};

use crate::hand::Hand;
use std::marker::Model;

/// A handle by its bits, which are the address of its block: the caller keeps them while an export has the handle, and has it again by what that leaves.
#[repr(C)]
pub struct Bits {
    pub(crate) at: *const u64,
    pub ghost hand: { Hand },
}

impl Model for Bits {
    ghost use Rattle.task_exports.specs.Places.{owned_at};

    ghost also_owns = { λ h. owned_at h.at h.hand };
}

/// What an export leaves of a handle: all but its bits, which are the caller's still. Or what it brings of another one, or of the record of its call, which has the same bits. It has no bytes.
#[repr(C)]
pub struct Left {
    pub ghost hand: { Hand },
}

impl Model for Left {
    ghost use Rattle.task_exports.specs.Places.{owned};

    ghost also_owns = { λ h. owned h.hand };
}

/// The record of the call, which has the same bits; or none. It has no bytes.
#[repr(C)]
pub struct Brought {
    pub ghost hand: { Option Hand },
}

impl Model for Brought {
    ghost use Rattle.task_exports.specs.Places.{owned_if};

    ghost also_owns = { λ h. owned_if h.hand };
}

/// What an export answers, and leaves.
#[repr(C)]
pub struct Answer {
    pub number: u32,
    pub left: Left,
}

/// What an export answers, and brings: a second handle of the same cell, or the record of the call, which the caller forgets.
#[repr(C)]
pub struct Brings {
    pub number: u32,
    pub brought: Left,
}

/// What an export answers, leaves and brings by which a call may end that hands its own share on: the record of the call then, which the caller forgets.
#[repr(C)]
pub struct Ends {
    pub number: u32,
    pub left: Left,
    pub brought: Brought,
}

/// The handle that has these bits.
pub fn open(h: Bits) -> Hand
    ensures { result ≡ h.hand }
{
    let Bits { at } = h;
    let mut bits = at;
    let place = &raw mut bits;
    unsafe {
        // The place is taken as a handle's, whose one field with bytes is this pointer.
        *place = at;
        (place as *mut Hand).read()
    }
}

/// What is left of a handle beside its bits.
pub fn close(hand: Hand) -> Left
    ensures { result.hand ≡ hand }
{
    let mut bits = 0u64;
    let place = &raw mut bits as *mut Hand;
    unsafe { place.write(hand) };
    Left {}
}

/// What a record is beside its bits.
pub fn bring(hand: Hand) -> Brought
    ensures { result.hand ≡ Some hand }
{
    let mut bits = 0u64;
    let place = &raw mut bits as *mut Hand;
    unsafe { place.write(hand) };
    Brought {}
}

/// No record.
pub fn bring_none() -> Brought
    ensures { result.hand ≡ None }
{
    Brought {}
}

/// What there is of a record beside its bits.
pub fn bring_if(hand: Option<Hand>) -> Brought
    ensures { result.hand ≡ hand }
{
    match hand {
        Some(hand) => bring(hand),
        None => bring_none(),
    }
}
