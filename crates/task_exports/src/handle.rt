//! The caller's memory for a handle.
ghost use Rattle.std.specs.Prelude.{◌≡◌, Bool, true, false};
ghost use Rattle.task_exports.specs.Places.{hand_if};
ghost use Rattle.task_exports.specs.declared.hand.Hand.{Hand};

use crate::hand::Hand;
use std::marker::Model;

/// A place of 8 bytes in the caller's memory, which has a handle, or is room for one.
#[repr(C)]
pub struct Handle {
    at: *mut u64,
    pub ghost hand: { Hand },
    pub ghost there: { Bool },
}

impl Model for Handle {
    ghost use Rattle.task_exports.specs.Places.{hand_if};

    ghost also_owns = { λ h. hand_if h.there h.at h.hand };
}

/// Takes the handle out: the place is room then.
pub fn take(h: &mut Handle) -> Hand
    requires { h.old.there ≡ true }
    ensures { (result ≡ h.old.hand) × (h.new.there ≡ false) }
{
    unsafe { (h.at as *mut Hand).read() }
}

/// Puts a handle into room.
pub fn put(h: &mut Handle, hand: Hand)
    requires { h.old.there ≡ false }
    ensures { (h.new.hand ≡ hand) × (h.new.there ≡ true) }
{
    unsafe { (h.at as *mut Hand).write(hand) }
}
