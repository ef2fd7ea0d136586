//! The table of a cell: its one word, its places, and what a seat knows.
ghost use Rattle.std.specs.Prelude.{◌≡◌, ◌<◌, ◌^◌, [], true, None, IfOk, IfErr};
ghost use Rattle.task_core.specs.Poll.{IfReady};
ghost use Rattle.task_steps.specs.Rule.{opening_view};
ghost use Rattle.task_steps.specs.declared.table.TheConstants.{OPENING};
ghost use Rattle.task_steps.specs.declared.table.Slot.{Slot};
ghost use Rattle.task_steps.specs.Seats.{is_spent};

pub use crate::kept::{Kept, StoredAwaiter};
pub use counted_block::{
    Bare, BlockRule, Hold, Inner, LastShare, Ledger, MaybeShare, Place, Seat, Share,
};
use std::alloc::{AllocFailed, Allocator};
use std::collections::LinkedList;
use std::snapshot::Snapshot;
use task_core::acts::Act;
use task_core::word::{REFERENCE, SCHEDULED, TASK, Word};
use task_core::{Future, Poll, Yields};
use task_laws::positions::Position;

/// What lies in the place of the work, which is the first.
#[derive(Drop)]
pub enum Slot<F, T> {
    /// Nothing.
    Empty,
    /// The future, until it is dropped.
    Future(F),
    /// The output, until it is handed out or dropped.
    Output(T),
}

/// An act, and the word that it found, where it is a row or a load.
pub struct Deed {
    /// The act.
    pub act: Act,
    /// The word; `None` where the act is private.
    pub found: Option<Word>,
}

/// A party: where it stands, and what it did, newest first.
pub struct Member {
    /// Where it stands.
    pub at: Position,
    /// What it did.
    pub deeds: LinkedList<Deed>,
    /// What it has seen since, where it tries to change the word.
    pub tries: Option<Tries>,
}

/// What a party has seen that tries to change the word, since its last act.
pub struct Tries {
    /// The word that it saw last.
    pub seen: Word,
    /// How often it has found another word than it saw last.
    pub misses: u64,
}

/// What a seat knows: its parties. It is seen by contracts alone, and no value of it is made.
pub struct View {
    /// The limit of references.
    pub limit: u64,
    /// The parties of the seat; the first one steps.
    pub members: LinkedList<Member>,
}

/// What a task is spawned with, as the rule of its table knows it.
#[derive(Drop)]
pub struct Terms<F> {
    /// The limit of references.
    pub limit: u64,
    /// The future, as contracts see it.
    pub future: Snapshot<F>,
}

/// The rule of the table: there is an interleaving of the machine that ends in the present word, and what lies in the place of the work comes from the future that was spawned.
pub struct Law;

impl<F: Yields, A> BlockRule<Slot<F, Kept<F>>, Stored<A>, View, Terms<F>> for Law {
    ghost use Rattle.task_steps.specs.Rule.{RuleHolds, opening_view};
    ghost use Rattle.task_steps.specs.Shares.{shares_out};
    ghost use Rattle.task_steps.specs.Values.{values_of};

    ghost holds = { λ terms. RuleHolds (values_of F.Yields terms.future.value) terms.limit };

    ghost first = { λ terms. opening_view terms.limit };

    ghost out = { shares_out };
}

/// What lies in the place of the awaiter, which is the second.
pub type Stored<A> = Option<StoredAwaiter<A>>;

/// What lies in a place of a task's block, as contracts see it: the work in the first, an awaiter or none in the second.
pub type TaskPlace<F, T, A> = Place<Slot<F, T>, Stored<A>>;

/// A share of a task's block: one word, a place for the future and then the output, one for the awaiter, and what all handles see.
pub type Block<F, A, V, B> = Share<Slot<F, Kept<F>>, Stored<A>, View, Terms<F>, Law, V, B>;

/// A share that a step may have made or left.
pub type MaybeBlock<F, A, V, B> = MaybeShare<
    Slot<F, Kept<F>>,
    Stored<A>,
    View,
    Terms<F>,
    Law,
    V,
    B,
>;

/// What the owner of the last share of a task's block keeps, once no handle is left.
pub type LastBlock<F, A, V, B> = LastShare<Slot<F, Kept<F>>, Stored<A>, View, Terms<F>, Law, V, B>;

/// A hold of a task's block.
pub type BlockHold<F, A, V, B> = Hold<Slot<F, Kept<F>>, Stored<A>, View, Terms<F>, Law, V, B>;

/// What is left of a share for its seats.
pub type BlockLedger<F, A, V, B> = Ledger<Slot<F, Kept<F>>, Stored<A>, View, Terms<F>, Law, V, B>;

/// The seat of a task's block.
pub type TaskSeat<F, T, A> = Seat<Slot<F, T>, Stored<A>, View>;

/// The word of a task that was just spawned: scheduled, with its Task, and one reference.
const OPENING: u64 = SCHEDULED | TASK | REFERENCE;

/// The memory of a task, one allocation, with what all handles will see. Its future is still to come, so it must be filled.
pub struct Laid<F, T, A, V, B: Allocator> {
    whole: Box<Inner<Slot<F, T>, Stored<A>, V>, B>,
    ghost opens: { (whole.value.word ≡ OPENING) × (whole.value.holds ≡ 0) × (whole.value.second ≡ None) },
}

/// Finds the memory of a task. `alloc` is the allocator, and `value` what all handles will see. Where memory is refused, the value is given back.
pub fn lay<F, T, A, V: Drop, B: Allocator>(alloc: B, value: V) -> Result<Laid<F, T, A, V, B>, V>
where
    F: Drop,
    T: Drop,
    A: Drop,
    ensures laid { IfOk result (λ laid. (laid.whole.value.value ≡ value) × (laid.whole.alloc ≡ alloc)) }
    ensures refused { IfErr result (λ back. back ≡ value) }
{
    let inner = Inner {
        word: OPENING,
        holds: 0,
        first: Slot::Empty,
        second: None,
        value,
    };
    match Box::new(alloc, inner) {
        Ok(whole) => Ok(Laid { whole }),
        Err(AllocFailed { value: inner }) => Err(inner.value),
    }
}

impl<F, T, A, V, B: Allocator> Laid<F, T, A, V, B> {
    /// What all handles will see.
    pub fn value(&self) -> &V
        ensures { result.now ≡ self.now.whole.value.value }
    {
        &self.whole.value
    }
}

impl<F: Yields, A: Drop, V: Drop, B: Allocator> Laid<F, Kept<F>, A, V, B> {
    /// Puts the future in: the shares of the Runnable and of the Task, and the first seat. `limit` is the limit of references.
    pub fn fill(
        self,
        limit: u64,
        future: F,
    ) -> (
        Block<F, A, V, B>,
        Block<F, A, V, B>,
        TaskSeat<F, Kept<F>, A>,
    )
        requires { limit < 2 ^ 55 }
        ensures share { (result.0.key.limit ≡ limit) × (result.0.key.future.value ≡ future) × (result.0.value ≡ self.whole.value.value) × (result.0.heap ≡ self.whole.alloc) }
        ensures other { (result.1.id ≡ result.0.id) × (result.1.key ≡ result.0.key) × (result.1.value ≡ result.0.value) × (result.1.heap ≡ result.0.heap) }
        ensures seat { (result.2.block ≡ result.0.id) × (result.2.me ≡ (opening_view limit, [])) }
    {
        let Laid { mut whole } = self;
        let terms = Terms {
            limit,
            future: Snapshot::of(&future),
        };
        whole.first = Slot::Future(future);
        Share::new_pair(Bare::of(whole), &terms)
    }
}

/// Polls the future once, where it lies, in a place that has one. `waker` is what the poll is lent.
pub fn polled<W, F: Future<W>>(slot: &mut Slot<F, Kept<F>>, waker: &W) -> Poll<F::Output>
    requires { (f : F) × (slot.old ≡ Slot.Future f) }
    ensures meets { IfReady result F.Yields.meets }
    ensures once { (f : F) × (g : F) × (slot.old ≡ Slot.Future f) × (slot.new ≡ Slot.Future g) × F.polled f waker.now result g × F.Yields.moves f result g }
{
    match slot {
        Slot::Future(future) => future.poll(waker),
        _ => unreachable!(),
    }
}

/// Lets a seat go that nobody will step with again, and that has no place of the table: its one party has ended, or was lent for a call and has made one.
pub fn discard<F, T, A>(seat: TaskSeat<F, T, A>)
    requires spent { is_spent seat.me.0 ≡ true }
    requires places { seat.me.1 ≡ [] }
{
    let Seat { .. } = seat;
}
