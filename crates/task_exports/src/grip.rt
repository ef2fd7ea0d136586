//! The caller's memory for a hold.
ghost use Rattle.std.specs.Prelude.{◌≡◌, Bool, true, false};
ghost use Rattle.task_exports.specs.Places.{grip_if};
ghost use Rattle.task_exports.specs.declared.hand.Grip.{Grip};

use crate::hand::Grip;
use std::marker::Model;

/// A place of 8 bytes in the caller's memory, which has a hold, or is room for one.
#[repr(C)]
pub struct Hold {
    at: *mut u64,
    pub ghost grip: { Grip },
    pub ghost there: { Bool },
}

impl Model for Hold {
    ghost use Rattle.task_exports.specs.Places.{grip_if};

    ghost also_owns = { λ h. grip_if h.there h.at h.grip };
}

/// Takes the hold out: the place is room then.
pub fn take_hold(h: &mut Hold) -> Grip
    requires { h.old.there ≡ true }
    ensures { (result ≡ h.old.grip) × (h.new.there ≡ false) }
{
    unsafe { (h.at as *mut Grip).read() }
}

/// Puts a hold into room.
pub fn put_hold(h: &mut Hold, grip: Grip)
    requires { h.old.there ≡ false }
    ensures { (h.new.grip ≡ grip) × (h.new.there ≡ true) }
{
    unsafe { (h.at as *mut Grip).write(grip) }
}
