//! What a party leaves by an act: the word by its row, and all else by its line.
ghost use Rattle.std.specs.Prelude.{◌≡◌, ◌<◌, ◌-◌, ◌^◌, Some};
ghost use Rattle.std.specs.Option.{option_map};
ghost use Rattle.task_laws.specs.Line as table;
ghost use Rattle.task_laws.specs.Asks as asks;
ghost use Rattle.task_laws.specs.Table.{rule};
ghost use Rattle.task_replay.specs.Line.{HoldsAt, edit_of, next_of, line_of};
ghost use Rattle.task_replay.specs.Replay.{begun, slots_of, scene_of, untold, outcome_of};

use crate::line::Guard::*;
use crate::line::Next::*;
use crate::line::SlotEdit::*;
use crate::line::{Guard, Line, Next, SlotEdit, line_of};
use crate::machine::Slots;
use crate::ways::notifies;
use task_core::acts::Act;
use task_core::word::Word;
use task_laws::positions::Answer::*;
use task_laws::positions::NotifyingCall::*;
use task_laws::positions::OnceDelivered::*;
use task_laws::positions::PollAnswer::IsPending;
use task_laws::positions::Position;
use task_laws::positions::Position::*;
use task_laws::positions::Rest::*;

/// What a party finds.
#[derive(Clone, Copy)]
pub(crate) struct Scene {
    /// Up to this many references wakers are gained.
    pub limit: u64,
    /// The word.
    pub word: Word,
    /// The slots.
    pub slots: Slots,
}

/// What a party leaves.
#[derive(Clone, Copy)]
pub(crate) struct Effect {
    /// The word.
    pub word: Word,
    /// The slots.
    pub slots: Slots,
    /// Its own next position.
    pub next: Position,
    /// The party that it adds.
    pub added: Option<Position>,
}

/// What the party at this position leaves by an act, in the scene that it finds. `None` where it may not make that act there.
pub(crate) fn rule_of_act(scene: Scene, act: Act, position: Position) -> Option<Effect>
    requires references { scene.word.references < 2 ^ 56 - 1 }
    requires polls { begun position < 2 ^ 64 - 1 }
    ensures { untold (rule (scene_of scene) act position) ≡ option_map outcome_of result }
{
    let line = line_of(act, position)?;
    let written = scene.word.by_row(scene.limit, act)?;
    leaves(&scene, written, line)
}

// What the line leaves in a scene, where the party has written that word.
fn leaves(scene: &Scene, written: Word, line: Line) -> Option<Effect>
    ensures { untold (table.leaves (scene_of scene.now) written (Some (line_of line))) ≡ option_map outcome_of result }
{
    let Line(guard, edit, next, added) = line;
    if !holds(scene.word, guard) {
        return None;
    }
    Some(Effect {
        word: written,
        slots: edited(scene.slots, edit),
        next: next_of(scene, next),
        added,
    })
}

/// Whether the guard of a line holds where that word is found.
pub(crate) fn holds(word: Word, guard: Guard) -> bool
    ensures { HoldsAt word guard result }
{
    match guard {
        Always => true,
        IsClaimed => !(word.completed() && !word.closed()),
        IsClosed => word.closed(),
        IsNotified => word.notifying(),
        MayGain(Lent) => is_held(word),
        MayAsk(rest) | MayGain(rest) => matches!(rest, Runnable | Waker | Lent),
        MayWake(Waker) => true,
        MayWake(Lent) => is_held(word) || word.is_over(),
        MayWake(_) => false,
        MayDrop(way) => matches!(way, OfPoll(_) | OfClaim(_)),
    }
}

// Whether the task has a handle: the Task, or one that holds a reference.
fn is_held(word: Word) -> bool
    ensures { result ≡ asks.is_held word }
{
    word.task() || word.references() > 0
}

// The slots, edited.
fn edited(slots: Slots, edit: SlotEdit) -> Slots
    ensures { slots_of result ≡ table.edited (edit_of edit) (slots_of slots) }
{
    let mut slots = slots;
    match edit {
        KeepsSlots => {}
        DropsFuture => slots.future = false,
        StoresOutput => slots.output = true,
        EndsOutput => slots.output = false,
        EmptiesAwaiter => slots.awaiter = None,
        StoresAwaiter(i) => slots.awaiter = Some(i),
    }
    slots
}

// Where the party goes.
fn next_of(scene: &Scene, next: Next) -> Position
    ensures { result ≡ table.next_of (scene_of scene.now) (next_of next) }
{
    let word = scene.word;
    match next {
        MovesTo(position) => position,
        Notifies(way) => notifies(word.awaiter(), way),
        EndsRun if word.closed() => OutputInHand(word.awaiter()),
        EndsRun => notifies(word.awaiter(), OfRun),
        EndsDetached => OutputInHand(word.awaiter()),
        Delivers(n) if word.awaiter() => Deliverer(false, ThenNotifies(n)),
        Delivers(n) => Deliverer(false, ThenTask(n)),
        Answers(n) => CallEnding(Finished(word.is_over()), Task(n)),
        LooksFirst(i) | LooksAgain(i) if word.closed() && !(word.scheduled() || word.running()) => {
            Notifier(OfPoll(i))
        }
        LooksFirst(i) => Registrar(i),
        LooksAgain(i) if word.completed() && !word.closed() => SawOutput(i),
        LooksAgain(i) => Answering(i, IsPending),
        StoresOver(i) => match scene.slots.awaiter {
            Some(old) => OldAwaiterInHand(i, old),
            None => Registered(i),
        },
        Releases(way) => Releaser(scene.slots.awaiter, way),
    }
}
