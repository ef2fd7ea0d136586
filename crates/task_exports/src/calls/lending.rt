//! How the share of the handle at a place is lent to an export that wakes or gains.
ghost use Rattle.std.specs.Prelude.{◌≡◌, true, false};
ghost use Rattle.task_exports.specs.Answers.{Gains, IsFull, Wakes};
ghost use Rattle.task_exports.specs.Lent.{IsShareOf};
ghost use Rattle.task_exports.specs.declared.hand.Hand.{Hand};

use crate::bits::Brings;
use crate::calls::crossing::fetch;
use crate::hand::{Hand, Lent};
use crate::handle::{Handle, put, take};
use crate::lent::{async_task_gain, async_task_wake};

/// Wakes by what a `&` to a share has, which the export is lent.
pub fn wake_share(lent: &Lent) -> Brings
    ensures { (x : Hand) → IsShareOf x lent.now → Wakes x result.brought.hand result.number }
{
    let place = lent as *const Lent as *const *const u64;
    async_task_wake(unsafe { *place })
}

/// Gains by what a `&` to a share has, which the export is lent.
pub fn gain_share(lent: &Lent) -> Brings
    ensures { (x : Hand) → IsShareOf x lent.now → Gains x result.brought.hand result.number }
{
    let place = lent as *const Lent as *const *const u64;
    async_task_gain(unsafe { *place })
}

/// Wakes by the handle at `h`, which lends its share for the call. What the export brings is put at `out`: what it answered.
pub fn wake_at(h: &mut Handle, out: &mut Handle) -> u32
    requires handle { IsFull h.old }
    requires room { out.old.there ≡ false }
    ensures lent { IsFull h.new × (h.new.hand.party ≡ h.old.hand.party) }
    ensures answer { (out.new.there ≡ true) × Wakes h.old.hand out.new.hand result }
{
    let Hand { share, party } = take(h);
    let lent = Lent {
        share: share.share(),
    };
    let Brings { number, brought } = wake_share(&lent);
    let Lent { share } = lent;
    let share = share.into_maybe();
    put(h, Hand { share, party });
    put(out, fetch(h, brought));
    number
}

/// Gains by the handle at `h`, which lends its share for the call. What the export brings is put at `out`: what it answered.
pub fn gain_at(h: &mut Handle, out: &mut Handle) -> u32
    requires handle { IsFull h.old }
    requires room { out.old.there ≡ false }
    ensures lent { IsFull h.new × (h.new.hand.party ≡ h.old.hand.party) }
    ensures answer { (out.new.there ≡ true) × Gains h.old.hand out.new.hand result }
{
    let Hand { share, party } = take(h);
    let lent = Lent {
        share: share.share(),
    };
    let Brings { number, brought } = gain_share(&lent);
    let Lent { share } = lent;
    let share = share.into_maybe();
    put(h, Hand { share, party });
    put(out, fetch(h, brought));
    number
}
