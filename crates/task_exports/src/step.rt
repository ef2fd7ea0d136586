//! A step of a party, made by a handle that stays.
ghost use Rattle.std.specs.Prelude.{◌≡◌, ℕ, true};
ghost use Rattle.task_cell.specs.Belongs.{IsOf, limit_in};
ghost use Rattle.task_cell.specs.Calls.{limit_of};
ghost use Rattle.task_exports.specs.Answers.{IsFull};
ghost use Rattle.task_exports.specs.Hands.{IsLive};
ghost use Rattle.task_exports.specs.Parties.{CellParty, Keeps, Stays};

use crate::bits::{Answer, Bits, close, open};
use crate::hand::{CellParty, CellShare, Hand};
use crate::handle::{Handle, put, take};

/// A step that leaves the handle in its place: from where its party makes it, and what it comes to, by the number that it answers.
pub trait Step {
    ghost starts: { Self → CellParty → Type 0 };

    ghost does: { Self → CellParty → CellParty → ℕ → Type 0 };

    /// Makes the step by this share and its party: its answer.
    fn make(self, share: &CellShare, party: &mut CellParty) -> u32
        requires cell { IsOf share.now party.old × (limit_of party.old ≡ limit_in share.now) }
        requires starts { Self.starts self party.old }
        ensures does { Self.does self party.old party.new result };
}

// Makes a step by a handle that is at hand, and has it again.
fn make_with<S: Step>(step: S, hand: Hand) -> (Hand, u32)
    requires handle { IsLive hand }
    requires starts { S.starts step hand.party }
    ensures handle { Stays hand result.0 }
    ensures does { S.does step hand.party result.0.party result.1 }
{
    let Hand { share, mut party } = hand;
    let share = share.share();
    let answer = step.make(&share, &mut party);
    let share = share.into_maybe();
    (Hand { share, party }, answer)
}

/// Makes a step by the handle that lies in this place, and lies there again then.
pub fn make_at<S: Step>(step: S, h: &mut Handle) -> u32
    requires handle { IsFull h.old }
    requires starts { S.starts step h.old.hand.party }
    ensures handle { Keeps h.old h.new }
    ensures does { S.does step h.old.hand.party h.new.hand.party result }
{
    let (hand, answer) = make_with(step, take(h));
    put(h, hand);
    answer
}

/// Makes a step by the handle that has these bits, and has them still then.
pub fn make_by<S: Step>(step: S, h: Bits) -> Answer
    requires handle { IsLive h.hand }
    requires starts { S.starts step h.hand.party }
    ensures handle { Stays h.hand result.left.hand }
    ensures does { S.does step h.hand.party result.left.hand.party result.number }
{
    let (hand, answer) = make_with(step, open(h));
    let left = close(hand);
    Answer {
        number: answer,
        left,
    }
}
