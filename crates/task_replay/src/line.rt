//! The lines of the table of moves: what a party does at its position by an act, whatever the word and the slots are.
ghost use Rattle.std.specs.Prelude.{◌≡◌, ◌<◌, ◌-◌, ◌^◌, []};
ghost use Rattle.std.specs.Option.{option_map};
ghost use Rattle.task_laws.specs.Line as table;
ghost use Rattle.task_laws.specs.Lines.{line};
ghost use Rattle.task_replay.specs.Line.{guard_of, edit_of, next_of, line_of, bare};
ghost use Rattle.task_replay.specs.Replay.{begun};

use crate::line::Guard::*;
use crate::line::Next::*;
use crate::line::SlotEdit::*;
use crate::ways::{after_giving_up, after_handing_over, after_taking, after_waking, notifies};
use task_core::acts::Act;
use task_core::acts::Act::*;
use task_laws::positions::Answer::*;
use task_laws::positions::NotifyingCall::*;
use task_laws::positions::OnceDelivered::*;
use task_laws::positions::PollAnswer::{HasOutput, IsRefused};
use task_laws::positions::Position::*;
use task_laws::positions::Rest::*;
use task_laws::positions::WithoutPoll::*;
use task_laws::positions::{NotifyingCall, Position, Rest};

/// What a line asks beside what its row finds. The variants are those of the table.
#[derive(Clone, Copy)]
pub(crate) enum Guard {
    Always,
    IsClaimed,
    IsClosed,
    IsNotified,
    MayAsk(Rest),
    MayGain(Rest),
    MayWake(Rest),
    MayDrop(NotifyingCall),
}

/// What it does to the slots.
#[derive(Clone, Copy)]
pub(crate) enum SlotEdit {
    KeepsSlots,
    DropsFuture,
    StoresOutput,
    EndsOutput,
    EmptiesAwaiter,
    StoresAwaiter(u64),
}

/// Where the party goes.
#[derive(Clone, Copy)]
pub(crate) enum Next {
    MovesTo(Position),
    Notifies(NotifyingCall),
    EndsRun,
    EndsDetached,
    Delivers(u64),
    Answers(u64),
    LooksFirst(u64),
    LooksAgain(u64),
    StoresOver(u64),
    Releases(NotifyingCall),
}

/// A line: what it asks, what it does to the slots, where the party goes, and the party that it adds.
#[derive(Clone, Copy)]
pub(crate) struct Line(pub Guard, pub SlotEdit, pub Next, pub Option<Position>);

/// The line of an act at a position. `None` where the table has none.
#[rattlefmt::skip]
pub(crate) fn line_of(act: Act, position: Position) -> Option<Line>
    requires { begun position < 2 ^ 64 - 1 }
    ensures { bare (line act position) ≡ option_map line_of result }
{
    let line = match (act, position) {
        // references
        (GainReference, At(r)) => Line(MayGain(r), KeepsSlots, MovesTo(CallEnding(Gained(true), r)), Some(At(Waker))),
        (FindLimit, At(r)) => asks(MayAsk(r), CallEnding(Gained(false), r)),
        (RefuseGain, At(r)) => asks(MayAsk(r), CallEnding(Gained(false), r)),
        (DropWaker, At(Waker)) => moves_to(CallEnding(Nothing, Ended)),
        (DropLastWaker, At(Waker)) => moves_to(Emptier(None, Nothing)),
        (OrphanTask, At(Waker)) => moves_to(OrphanHolder),
        (CloseOrphan, OrphanHolder) => moves_to(Deliverer(false, ThenEnds(Nothing))),
        (GiveUpReference, GivingUp(hand, answer)) => moves_to(after_giving_up(hand, answer)),
        (GiveUpLastReference, GivingUp(hand, answer)) => moves_to(Emptier(hand, answer)),
        // wakes
        (WakeOver, At(r)) => asks(MayWake(r), CallEnding(Nothing, r)),
        (WakeScheduled, At(r)) => asks(MayWake(r), CallEnding(Nothing, r)),
        (WakeRunning, At(r)) => asks(MayWake(r), CallEnding(Nothing, r)),
        (WakeIdle, At(r)) => Line(MayWake(r), KeepsSlots, MovesTo(CallEnding(Nothing, r)), Some(Deliverer(false, ThenEnds(Nothing)))),
        // closes
        (DiscardOpen, At(Runnable)) => moves_to(FutureInHand(DroppedRunnable)),
        (DiscardClosed, At(Runnable)) => moves_to(FutureInHand(DroppedRunnable)),
        (CancelOver, At(Task(n))) => moves_to(CallEnding(Nothing, Task(n))),
        (CancelBusy, At(Task(n))) => moves_on(Notifies(OfCancel(n))),
        (CancelIdle, At(Task(n))) => moves_on(Delivers(n)),
        (ClaimOutput, At(Task(n))) => moves_on(Notifies(OfClaim(n + 1))),
        (ClaimOutput, SawOutput(n)) => moves_on(Notifies(OfClaim(n))),
        (GiveUpOutput, At(Task(_))) => moves_to(OutputCloser),
        (DetachOrphan, At(Task(_))) => moves_to(Deliverer(false, ThenEnds(Nothing))),
        (DetachLast, At(Task(_)) | Detacher) => moves_to(Emptier(None, Nothing)),
        (Detach, At(Task(_)) | Detacher) => moves_to(CallEnding(Nothing, Ended)),
        // runs
        (TakeUpClosed, At(Runnable)) => moves_to(FutureInHand(ClosedRun)),
        (StartRun, At(Runnable)) => moves_to(Starting),
        (Unschedule, FutureGone(ClosedRun)) => moves_on(Notifies(OfRun)),
        (Unschedule, FutureGone(DroppedRunnable)) => moves_on(Notifies(OfDrop)),
        (Complete, OutputStored) => moves_on(EndsRun),
        (CompleteDetached, OutputStored) => moves_on(EndsDetached),
        (EndClosed, PendingFutureDropped) => moves_on(Notifies(OfRun)),
        (Reschedule, Pending) => moves_to(Deliverer(true, ThenEnds(Ran(true)))),
        (EndIdle, Pending) => moves_to(CallEnding(Ran(false), Ended)),
        (EndOrphaned, Pending) => moves_to(Deliverer(false, ThenEnds(Ran(false)))),
        // the handshake
        (BeginNotify, Notifier(way)) => moves_to(Taker(way)),
        (MissNotify, Notifier(way)) => moves_to(after_taking(None, way)),
        (FindNotify, HasClone(i)) => moves_to(UnusedClone(i)),
        (BeginRegister, HasClone(i)) => moves_to(Storing(i)),
        (EndNotify, Releaser(hand, way)) => moves_to(after_taking(hand, way)),
        (EndRegister, Registered(i)) => moves_to(Looking(i)),
        (EndRegisterNotified, TookBack(i)) => moves_to(CloneInHand(i)),
        // loads
        (Look, At(Lent)) => Line(Always, KeepsSlots, MovesTo(At(Lent)), Some(At(Lent))),
        (Look, At(Task(n))) => Line(IsClaimed, KeepsSlots, LooksFirst(n + 1), None),
        (Look, Looking(i)) => moves_on(LooksAgain(i)),
        (LookFinished, At(Task(n))) => moves_on(Answers(n)),
        // the future and its output
        (StartPoll, Starting) => moves_to(Polling),
        (AnswerPending, Polling) => moves_to(Pending),
        (AnswerReady, Polling) => moves_to(Ready),
        (DropFuture, Ready) => changes(DropsFuture, ReadyFutureDropped),
        (DropFuture, Pending) => Line(IsClosed, DropsFuture, MovesTo(PendingFutureDropped), None),
        (DropFuture, FutureInHand(closer)) => changes(DropsFuture, FutureGone(closer)),
        (StoreOutput, ReadyFutureDropped) => changes(StoresOutput, OutputStored),
        (DropOutput, OutputInHand(due)) => changes(EndsOutput, notifies(due, OfRun)),
        (DropOutput, OutputCloser) => changes(EndsOutput, Detacher),
        (HandOutOutput, TookOutput(i)) => changes(EndsOutput, Answering(i, HasOutput)),
        // the awaiter
        (CloneAwaiter, Registrar(i)) => moves_to(HasClone(i)),
        (RefuseClone, Registrar(i)) => moves_to(Answering(i, IsRefused)),
        (StoreAwaiter, Storing(i)) => Line(Always, StoresAwaiter(i), StoresOver(i), None),
        (TakeAwaiter, Registered(i)) => Line(IsNotified, EmptiesAwaiter, MovesTo(TookBack(i)), None),
        (TakeAwaiter, Taker(way)) => Line(Always, EmptiesAwaiter, Releases(way), None),
        (WakeAwaiter, CloneInHand(i)) => moves_to(Looking(i)),
        (WakeAwaiter, AwaiterInHand(_, way)) => moves_to(after_waking(way)),
        (DropAwaiter, OldAwaiterInHand(i, _)) => moves_to(Registered(i)),
        (DropAwaiter, UnusedClone(i)) => moves_to(Looking(i)),
        (DropAwaiter, AwaiterInHand(_, way)) => asks(MayDrop(way), after_waking(way)),
        // ends
        (HandOver, At(Runnable)) => Line(Always, KeepsSlots, MovesTo(CallEnding(Nothing, Ended)), Some(At(Runnable))),
        (HandOver, Deliverer(_, next)) => Line(Always, KeepsSlots, MovesTo(after_handing_over(next)), Some(At(Runnable))),
        (EmptySlots, Emptier(hand, answer)) => changes(EmptiesAwaiter, after_giving_up(hand, answer)),
        (EndCall, CallEnding(_, rest)) => moves_to(At(rest)),
        (EndCall, Answering(i, _)) => moves_to(At(Task(i))),
        _ => return None,
    };
    Some(line)
}

// The party goes on.
fn moves_to(position: Position) -> Line
    ensures { line_of result ≡ table.moves_to position [] }
{
    moves_on(MovesTo(position))
}

// The party goes on to a position that hangs on what it finds.
fn moves_on(next: Next) -> Line
    ensures { line_of result ≡ table.moves_on (next_of next) [] }
{
    Line(Always, KeepsSlots, next, None)
}

// The party goes on where the guard holds.
fn asks(guard: Guard, position: Position) -> Line
    ensures { line_of result ≡ record (table.moves_to position []) { guard = guard_of guard } }
{
    Line(guard, KeepsSlots, MovesTo(position), None)
}

// The party goes on, and changes a slot.
fn changes(edit: SlotEdit, position: Position) -> Line
    ensures { line_of result ≡ table.changes (edit_of edit) position [] }
{
    Line(Always, edit, MovesTo(position), None)
}
