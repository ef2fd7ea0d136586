//! What one worker keeps for itself, and what it owes.
ghost use Rattle.std.specs.Prelude.{◌≡◌, IfSome, IsNone, IsSome};
ghost use Rattle.std.specs.Arc.{arc_value};
ghost use Rattle.std.proofs.Props.{props};
ghost use Rattle.work_queues.specs.Duties.{IsClaim, WasDue, WasNotDue};

use crate::bells::{Bells, Claim, Due, Heard, Look, NotDue, Parked};
use crate::limit::Limit;
use std::alloc::{Allocator, Global};
use std::collections::VecDeque;
use std::mem;
use std::sync::{Arc, Wait};

/// What a worker has done since it was made. Each number wraps.
#[derive(Clone, Copy, Debug, Default, PartialEq, Eq)]
pub struct WorkerCounts {
    /// How many items `find` has answered.
    pub found: u64,
    /// How many items it has moved out of the queues of other workers.
    pub stolen: u64,
    /// How often it lay down to sleep.
    pub sleeps: u64,
}

/// What one worker keeps for itself. While it lives, no other one has its number. It has no `Drop`, so it ends in `Crew::end_turns`.
pub struct Worker<T, A: Allocator = Global> {
    pub(super) number: usize,
    // How often it has looked since it last looked at the queue for what comes from outside first, and how often it has done that.
    pub(super) looks: u64,
    pub(super) visits: u64,
    pub(super) counts: WorkerCounts,
    pub(super) batch: VecDeque<T, A>,
    pub(super) bells: Arc<Bells>,
    pub(super) claim: Claim,
    // Looks that it owes until it has found an item: it was woken, or pushes have left theirs to its search.
    pub(super) owed: Option<Look>,
    // An interruption that it has heard and not yet answered.
    pub(super) heard: Option<Heard>,
    ghost claimed: { IsClaim (arc_value bells) claim × (claim.number ≡ number) },
    ghost owes: { IfSome owed (λ look. look.place.seat.table_id ≡ (arc_value bells).table.shared.table_id) } by { Prim.hlevel props },
}

// A worker lay down, and slept, unless it was interrupted or saw something. Only `Worker::lie_down` makes one.
#[derive(Drop)]
pub(super) struct LainDown {
    slept: Option<Parked>,
}

impl<T, A: Allocator> Worker<T, A> {
    ghost use Rattle.work_queues.specs.Settled.{OwesNothing};

    /// Its number: that of its queue.
    pub fn number(&self) -> usize
        ensures { result ≡ self.now.number }
    {
        self.number
    }

    /// What it has done.
    pub fn counts(&self) -> WorkerCounts
        ensures { result ≡ self.now.counts }
    {
        self.counts
    }

    // Ends the looks that it owes: where a flag shows something, another worker is woken.
    fn pay_looks(&mut self)
        ensures owed { IsNone self.new.owed }
        ensures kept { (self.new.heard ≡ self.old.heard) × (self.new.batch ≡ self.old.batch) × (self.new.bells ≡ self.old.bells) }
    {
        if let Some(look) = self.owed.take() {
            self.bells.settle(look);
        }
    }

    /// Ends what it owes, where it owes something: it has looked once more, for items and for what interruptions are for.
    pub fn settle(&mut self)
        ensures owes { OwesNothing self.new }
        ensures batch { self.new.batch ≡ self.old.batch }
    {
        self.pay_looks();
        if let Some(heard) = self.heard.take() {
            self.bells.answer(heard, &self.claim);
        }
    }

    /// Has another worker do what it owes, where it owes something: it looks no more for now. Where a queue shows an item, one that sleeps is woken, if none searches. An interruption that it has heard is due again, which is the answer.
    pub fn pay(&mut self) -> Option<Due>
        ensures owes { OwesNothing self.new }
        ensures due { (IsSome self.old.heard → IsSome result) × IfSome result (WasDue (arc_value self.old.bells)) }
        ensures batch { self.new.batch ≡ self.old.batch }
    {
        self.pay_looks();
        let heard = self.heard.take()?;
        Some(self.bells.pass_on(heard))
    }

    // Lies down, looks at each flag, and sleeps if none shows anything.
    pub(super) fn lie_down<R: Wait, L: Limit>(
        &mut self,
        rt: &R,
        look: Look,
        interruptions: u64,
        limit: &L,
    ) -> (Look, LainDown)
        requires { look.place.seat.table_id ≡ (arc_value self.old.bells).table.shared.table_id }
        ensures look { result.0.place.seat.table_id ≡ (arc_value self.old.bells).table.shared.table_id }
        ensures slept { IfSome result.1.slept (λ parked. L.lasts limit.now parked.most) }
        ensures kept { (self.new.bells ≡ self.old.bells) × (self.new.owed ≡ self.old.owed) × (self.new.batch ≡ self.old.batch) }
    {
        self.counts.sleeps = self.counts.sleeps.wrapping_add(1);
        let mut sleeper = match self.bells.lie_down(rt, Some(look), &self.claim) {
            Ok(sleeper) => sleeper,
            Err(look) => return (look, LainDown { slept: None }),
        };
        let mut slept = None;
        if !self.bells.sees_something(&mut sleeper) {
            if let Some(none) = self.bells.none_since(interruptions) {
                slept = Some(self.bells.sleep(rt, &sleeper, &none, limit));
            }
        }
        (self.bells.get_up(sleeper), LainDown { slept })
    }

    // It owes these looks until it has found an item.
    pub(super) fn owe(&mut self, look: Look)
        requires { look.place.seat.table_id ≡ (arc_value self.old.bells).table.shared.table_id }
        ensures owed { IsSome self.new.owed }
        ensures kept { (self.new.bells ≡ self.old.bells) × (self.new.batch ≡ self.old.batch) }
    {
        if let Some(before) = mem::replace(&mut self.owed, Some(look)) {
            self.bells.settle(before);
        }
    }

    // It has looked once more for what it has heard, and hears what is due now. `None` where it has heard an interruption.
    pub(super) fn hear(&mut self) -> Option<NotDue>
        ensures heard { IsNone result → IsSome self.new.heard }
        ensures not_due { IfSome result (WasNotDue (arc_value self.old.bells)) }
        ensures kept { (self.new.owed ≡ self.old.owed) × (self.new.batch ≡ self.old.batch) }
    {
        let (heard, not_due) = match self.bells.hear() {
            Ok(not_due) => (None, Some(not_due)),
            Err(heard) => (Some(heard), None),
        };
        if let Some(before) = mem::replace(&mut self.heard, heard) {
            self.bells.answer(before, &self.claim);
        }
        not_due
    }
}
