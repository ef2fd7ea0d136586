//! How the handle at a place crosses to an export by its bits, and how what that leaves and brings comes back.
ghost use Rattle.std.specs.Prelude.{◌≡◌, IfSome, Some, None, is_some, true, false};
ghost use Rattle.task_exports.specs.CallPaths.{hands_on};
ghost use Rattle.task_exports.specs.Hands.{IsRecordOf, SameBits};
ghost use Rattle.task_exports.specs.Places.{address_of};
ghost use Rattle.task_exports.specs.declared.hand.Hand.{Hand};

use crate::answers::{SCHEDULE, SCHEDULE_WOKEN};
use crate::bits::{Answer, Bits, Brought, Ends, Left, open};
use crate::hand::Hand;
use crate::handle::{Handle, put, take};
use std::marker::Model;

/// The bits of a handle alone, which its caller keeps while an export has the handle. They own nothing.
#[derive(Drop)]
pub struct Address {
    at: *const u64,
    pub ghost hand: { Hand },
}

impl Model for Address {
    ghost use Rattle.task_exports.specs.Places.{address_of};

    ghost also_owns = { λ a. address_of a.at a.hand };
}

/// A handle by its bits, and these alone.
pub fn cross(hand: Hand) -> (Bits, Address)
    ensures { (result.0.hand ≡ hand) × (result.1.hand ≡ hand) }
{
    let mut word = 0u64;
    let place = &raw mut word as *mut Hand;
    unsafe { place.write(hand) };
    let at = unsafe { (place as *mut *const u64).read() };
    (Bits { at }, Address { at })
}

/// What an export has left of the handle that has these bits, with the bits.
pub fn again(address: Address, left: Left) -> Bits
    requires { SameBits address.hand left.hand }
    ensures { result.hand ≡ left.hand }
{
    let Address { at } = address;
    let Left {} = left;
    Bits { at }
}

/// The record that an export has brought, as what is left of a handle.
pub fn one(brought: Brought) -> Left
    requires { is_some brought.hand ≡ true }
    ensures { brought.hand ≡ Some result.hand }
{
    let Brought {} = brought;
    Left {}
}

/// An export has brought none.
pub fn none(brought: Brought)
    requires { brought.hand ≡ None }
{
    let Brought {} = brought;
}

/// The handle at `h`, for an export that gets it by its bits. The place is room meanwhile.
pub fn lend(h: &mut Handle) -> (Bits, Address)
    requires { h.old.there ≡ true }
    ensures handle { (result.0.hand ≡ h.old.hand) × (result.1.hand ≡ h.old.hand) }
    ensures room { h.new.there ≡ false }
{
    cross(take(h))
}

/// Puts back what an export has left of the handle: what it answered.
pub fn back(h: &mut Handle, address: Address, answer: Answer) -> u32
    requires room { h.old.there ≡ false }
    requires bits { SameBits address.hand answer.left.hand }
    ensures { (h.new.hand ≡ answer.left.hand) × (h.new.there ≡ true) × (result ≡ answer.number) }
{
    let Answer { number, left } = answer;
    put(h, open(again(address, left)));
    number
}

/// What an export has brought beside the handle at `h`, which has the same bits.
pub fn fetch(h: &mut Handle, brought: Left) -> Hand
    requires handle { h.old.there ≡ true }
    requires bits { SameBits h.old.hand brought.hand }
    ensures handle { (h.new.hand ≡ h.old.hand) × (h.new.there ≡ true) }
    ensures brought { result ≡ brought.hand }
{
    let (bits, address) = lend(h);
    put(h, open(bits));
    open(again(address, brought))
}

/// The record that an export has brought beside the handle at `h`, where `there` says that it has.
pub fn fetch_if(h: &mut Handle, brought: Brought, there: bool) -> Option<Hand>
    requires handle { h.old.there ≡ true }
    requires bits { IfSome brought.hand (λ k. SameBits h.old.hand k) }
    requires there { is_some brought.hand ≡ there }
    ensures handle { (h.new.hand ≡ h.old.hand) × (h.new.there ≡ true) }
    ensures brought { result ≡ brought.hand }
{
    if there {
        Some(fetch(h, one(brought)))
    } else {
        none(brought);
        None
    }
}

/// Puts back what an export has left of the handle that may have handed its share on: what it answered, and the record of its call then.
pub fn end(h: &mut Handle, address: Address, answer: Ends) -> (u32, Option<Hand>)
    requires room { h.old.there ≡ false }
    requires bits { SameBits address.hand answer.left.hand }
    requires record { IfSome answer.brought.hand (λ k. IsRecordOf address.hand k) }
    requires there { is_some answer.brought.hand ≡ hands_on answer.number }
    ensures { (h.new.hand ≡ answer.left.hand) × (h.new.there ≡ true) × (result.0 ≡ answer.number) × (result.1 ≡ answer.brought.hand) }
{
    let Ends {
        number,
        left,
        brought,
    } = answer;
    let number = back(h, address, Answer { number, left });
    let ended = fetch_if(
        h,
        brought,
        (number == SCHEDULE) | (number == SCHEDULE_WOKEN),
    );
    (number, ended)
}
