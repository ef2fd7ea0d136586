//! How far a party is in its call: how many steps it has left at most, and an act that it may make now.
ghost use Rattle.std.specs.Prelude.{◌≡◌, ◌≤◌, ◌||◌, nat_lt, if◌then◌else◌, Some, IfSome, slice_get};
ghost use Rattle.task_progress.specs.StepsLeft as bound;
ghost use Rattle.task_progress.specs.Waiting as waiting;
ghost use Rattle.task_replay.specs.Replay.{Standing, StepsTo};
ghost use Rattle.task_replay.specs.Progress.{act_at, act_of};

use crate::player::Player;
use std::alloc::Allocator;
use task_core::acts::Act;
use task_core::acts::Act::*;
use task_core::word::Word;
use task_laws::positions::{NotifyingCall, OnceDelivered, Position};

/// How many steps a party there makes at most until its call ends, whatever the others do. None is left between two calls.
pub fn steps_left(position: Position) -> u64
    ensures { result ≡ bound.steps_left position }
{
    match position {
        Position::At(_) => 0,
        Position::CallEnding(_, _) | Position::Answering(_, _) => 1,
        Position::Deliverer(_, OnceDelivered::ThenNotifies(_)) => 6,
        Position::Deliverer(_, _) | Position::TookOutput(_) => 2,
        Position::OrphanHolder | Position::Detacher => 3,
        Position::OutputCloser => 4,
        Position::SawOutput(_) => 7,
        Position::PendingFutureDropped | Position::FutureGone(_) => 8,
        Position::OutputInHand(_) | Position::Looking(_) => 8,
        Position::Pending | Position::OutputStored | Position::FutureInHand(_) => 9,
        Position::UnusedClone(_) | Position::CloneInHand(_) => 9,
        Position::ReadyFutureDropped | Position::TookBack(_) => 10,
        Position::Ready | Position::Registered(_) => 11,
        Position::Polling | Position::OldAwaiterInHand(_, _) => 12,
        Position::Starting | Position::Storing(_) => 13,
        Position::HasClone(_) => 14,
        Position::Registrar(_) => 15,
        Position::GivingUp(hand, _) => 3 + awaiters_in_hand(hand),
        Position::Emptier(hand, _) => 2 + awaiters_in_hand(hand),
        Position::Notifier(way) => 4 + steps_on(way),
        Position::Taker(way) => 3 + steps_on(way),
        Position::Releaser(hand, way) => 1 + awaiters_in_hand(hand) + steps_on(way),
        Position::AwaiterInHand(_, way) => 1 + steps_off(way),
    }
}

// 1 where an awaiter is in hand.
fn awaiters_in_hand(hand: Option<u64>) -> u64
    ensures number { result ≡ bound.awaiters_in_hand hand }
    ensures few { result ≤ 1 }
{
    match hand {
        None => 0,
        Some(_) => 1,
    }
}

// The steps that are left on a way once no awaiter is in hand.
fn steps_on(way: NotifyingCall) -> u64
    ensures number { result ≡ bound.steps_on way }
    ensures few { result ≤ 3 }
{
    match way {
        NotifyingCall::OfRun | NotifyingCall::OfDrop => 3,
        NotifyingCall::OfCancel(_) | NotifyingCall::OfPoll(_) => 1,
        NotifyingCall::OfClaim(_) => 2,
    }
}

// The steps that are left once the awaiter in hand was woken or dropped.
fn steps_off(way: NotifyingCall) -> u64
    ensures number { result ≡ bound.steps_off way }
    ensures few { result ≤ 3 }
{
    match way {
        NotifyingCall::OfDrop => 3,
        NotifyingCall::OfRun | NotifyingCall::OfCancel(_) | NotifyingCall::OfPoll(_) => 1,
        NotifyingCall::OfClaim(_) => 2,
    }
}

/// An act that this party may make now, wherever the others stand. `None` where it is between two calls, and where there is no party of this number.
pub fn next_act<A: Allocator>(player: &Player<A>, party: u64) -> Option<Act>
    ensures act { result ≡ act_of player.now.machine.word (slice_get player.now.machine.parties party) }
    ensures allowed { IfSome result (λ act. (next : Standing) × StepsTo player.now.machine (record { party = party; act = act }) (Some next)) }
{
    let machine = player.machine();
    match machine.position(party) {
        Some(position) => act_there(machine.word(), position),
        None => None,
    }
}

/// The act of a party that stands there, where the word is this one.
pub fn act_there(word: Word, position: Position) -> Option<Act>
    ensures { result ≡ act_at word position }
{
    match position {
        Position::At(_) => None,
        _ => Some(act_in_call(word, position)),
    }
}

// The act of a party in a call.
fn act_in_call(word: Word, position: Position) -> Act
    ensures { result ≡ waiting.next_act word position }
{
    match position {
        Position::Deliverer(_, _) => HandOver,
        Position::Starting => StartPoll,
        Position::Polling => AnswerPending,
        Position::Pending => act_of_pending(word),
        Position::Ready | Position::FutureInHand(_) => DropFuture,
        Position::ReadyFutureDropped => StoreOutput,
        Position::OutputStored => either(word.task(), Complete, CompleteDetached),
        Position::PendingFutureDropped => EndClosed,
        Position::FutureGone(_) => Unschedule,
        Position::OutputInHand(_) | Position::OutputCloser => DropOutput,
        Position::GivingUp(_, _) => either(is_shared(word), GiveUpReference, GiveUpLastReference),
        Position::Emptier(_, _) => EmptySlots,
        Position::Notifier(_) => either(is_taken(word), MissNotify, BeginNotify),
        Position::Taker(_) => TakeAwaiter,
        Position::Releaser(_, _) => EndNotify,
        Position::AwaiterInHand(_, _) | Position::CloneInHand(_) => WakeAwaiter,
        Position::OrphanHolder => CloseOrphan,
        Position::Registrar(_) => CloneAwaiter,
        Position::HasClone(_) => either(word.notifying(), FindNotify, BeginRegister),
        Position::UnusedClone(_) | Position::OldAwaiterInHand(_, _) => DropAwaiter,
        Position::Storing(_) => StoreAwaiter,
        Position::Registered(_) => either(word.notifying(), TakeAwaiter, EndRegister),
        Position::TookBack(_) => EndRegisterNotified,
        Position::Looking(_) => Look,
        Position::SawOutput(_) => ClaimOutput,
        Position::TookOutput(_) => HandOutOutput,
        Position::Detacher => either(word.references() == 0, DetachLast, Detach),
        Position::At(_) | Position::CallEnding(_, _) | Position::Answering(_, _) => EndCall,
    }
}

// The act of a run whose poll answered Pending.
fn act_of_pending(word: Word) -> Act
    ensures { result ≡ waiting.next_act word Position.Pending }
{
    if word.closed() {
        DropFuture
    } else if word.scheduled() {
        Reschedule
    } else {
        either(is_shared(word), EndIdle, EndOrphaned)
    }
}

fn either(first: bool, act: Act, other: Act) -> Act
    ensures { result ≡ (if first then act else other) }
{
    if first { act } else { other }
}

// Whether a handle is left beside the one whose reference is at hand.
fn is_shared(word: Word) -> bool
    ensures { result ≡ (nat_lt 1 word.references || word.task) }
{
    word.references() > 1 || word.task()
}

// Whether another party is at the awaiter's slot.
fn is_taken(word: Word) -> bool
    ensures { result ≡ (word.notifying || word.registering) }
{
    word.notifying() || word.registering()
}
