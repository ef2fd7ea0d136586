//! Calls by a share of the cell that its owner lends: any number of them may go on at once.
ghost use Rattle.std.specs.Prelude.{◌≡◌};
ghost use Rattle.task_exports.specs.Answers.{Gains, Wakes};
ghost use Rattle.task_exports.specs.Lent.{IsShareOf, IsOfCell, Loan, lent, lent_back};
ghost use Rattle.task_exports.specs.declared.hand.Hand.{Hand};
ghost use types.Logic.{sem};

use crate::answers::{DONE, LIMIT, MISSED, SCHEDULE};
use crate::bits::{Brings, close};
use crate::hand::{CellShare, Hand, Lent};

/// Wakes the task by a share of its cell: what there is then, and the answer. Where there is no Runnable, and where each try has missed, that is the record of the call.
pub fn wake_by(share: &CellShare) -> (Hand, u32)
    ensures { (x : Hand) → IsOfCell x share.now → Wakes x result.0 result.1 }
{
    match share.wake_some() {
        Ok(Ok((brought, runnable))) => {
            let due = Hand {
                share: brought.into_maybe(),
                party: runnable,
            };
            (due, SCHEDULE)
        }
        Ok(Err(record)) => {
            let told = Hand {
                share: share.gone(),
                party: record,
            };
            (told, DONE)
        }
        Err(record) => {
            let missed = Hand {
                share: share.gone(),
                party: record,
            };
            (missed, MISSED)
        }
    }
}

/// Gains a reference by a share of the cell: what there is then, and the answer. Where there is no waker, that is the record of the call.
pub fn gain_by(share: &CellShare) -> (Hand, u32)
    ensures { (x : Hand) → IsOfCell x share.now → Gains x result.0 result.1 }
{
    match share.gain_some() {
        Ok(Ok((brought, waker))) => {
            let new = Hand {
                share: brought.into_maybe(),
                party: waker,
            };
            (new, DONE)
        }
        Ok(Err(record)) => {
            let told = Hand {
                share: share.gone(),
                party: record,
            };
            (told, LIMIT)
        }
        Err(record) => {
            let tried = Hand {
                share: share.gone(),
                party: record,
            };
            (tried, MISSED)
        }
    }
}

fn bring_woken(lent: &Lent) -> Brings
    ensures { (x : Hand) → IsShareOf x lent.now → Wakes x result.brought.hand result.number }
{
    let (hand, number) = wake_by(&lent.share);
    let brought = close(hand);
    Brings { number, brought }
}

fn bring_gained(lent: &Lent) -> Brings
    ensures { (x : Hand) → IsShareOf x lent.now → Gains x result.brought.hand result.number }
{
    let (hand, number) = gain_by(&lent.share);
    let brought = close(hand);
    Brings { number, brought }
}

/// Wakes the task by a share that is lent for it: 10, there is a Runnable with the same bits, which is to be scheduled; 12, nothing is due; 0, each try has missed. In 12 and 0 what is brought is the record of the call, which the caller forgets.
#[unsafe(no_mangle)]
pub extern "C" fn async_task_wake(at: *const u64) -> Brings
    ghost loan: { Loan }
    requires* loan { sem 𝓛 (lent loan) }
    requires bits { at ≡ loan.lent.share.block.at }
    ensures* back { sem 𝓛 (lent_back loan) }
    ensures answer { (x : Hand) → IsShareOf x loan.lent → Wakes x result.brought.hand result.number }
{
    let mut bits = at;
    let place = &raw mut bits;
    let lent = unsafe {
        // The place is taken as that of a share, whose one field with bytes is this pointer.
        *place = at;
        &*(place as *const Lent)
    };
    bring_woken(lent)
}

/// Gains a reference for a new waker, by a share that is lent for it: 12, there is the waker, with the same bits; 13, the count is at its limit; 0, each try has missed. In 13 and 0 what is brought is the record of the call, which the caller forgets.
#[unsafe(no_mangle)]
pub extern "C" fn async_task_gain(at: *const u64) -> Brings
    ghost loan: { Loan }
    requires* loan { sem 𝓛 (lent loan) }
    requires bits { at ≡ loan.lent.share.block.at }
    ensures* back { sem 𝓛 (lent_back loan) }
    ensures answer { (x : Hand) → IsShareOf x loan.lent → Gains x result.brought.hand result.number }
{
    let mut bits = at;
    let place = &raw mut bits;
    let lent = unsafe {
        // The place is taken as that of a share, whose one field with bytes is this pointer.
        *place = at;
        &*(place as *const Lent)
    };
    bring_gained(lent)
}
