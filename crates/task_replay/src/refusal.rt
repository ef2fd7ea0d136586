//! Why a machine does not allow a step. Each reason is found by the table of moves itself, tried at other words.
ghost use Rattle.std.specs.Prelude.{◌≡◌, ◌<◌, ◌≤◌, ◌+◌, ◌-◌, ◌^◌, Some, None, IsSome, IsNone, IfSome, true, false, slice_get};
ghost use Rattle.task_laws.specs.Table as table;
ghost use Rattle.task_laws.specs.Table.{rule};
ghost use Rattle.task_laws.specs.declared.positions.Position.{Position};
ghost use Rattle.task_replay.specs.Replay.{Standing, StepsTo, begun, scene_of, scene_at};
ghost use Rattle.task_replay.specs.Refusal.{IsMade, IsNeverMade, FitsAt, IsReason};
ghost use Rattle.task_core.specs.declared.word.TheConstants.{LIMIT};

use crate::line::line_of;
use crate::machine::Step;
use crate::player::Player;
use crate::table::{Scene, holds, rule_of_act};
use std::alloc::Allocator;
use task_core::acts::Act;
use task_core::word::{CLOSED, LIMIT, NOTIFYING, REFERENCE, TASK, Word};
use task_laws::positions::Position;

/// Why a machine does not allow a step.
#[derive(Clone, Copy, Debug, PartialEq, Eq)]
pub enum Refusal {
    /// There is no party of this number.
    NoParty,
    /// The act is never made from this position, whatever the limit, the word and the slots.
    NeverThere(Position),
    /// The word does not fit, and nothing else: the row asks for another one, or a lent waker for one by which the task has a handle. At the word told here,
    /// with all else as it is, the machine allows the step. None is told where no word that was tried fits, as for a gain below a limit of 0.
    UnfitWord(Option<Word>),
}

/// What a player tells of a step that it has not made.
impl<A: Allocator> Player<A> {
    /// Why the machine does not allow this step. `None` where it does.
    pub fn refusal(&self, step: Step) -> Option<Refusal>
        ensures allowed { IsNone result → (next : Standing) × StepsTo self.now.machine step (Some next) }
        ensures refused { IsSome result → StepsTo self.now.machine step None }
        ensures reason { IfSome result (IsReason (scene_at self.now.machine) step.act (slice_get self.now.machine.parties step.party)) }
    {
        let Some(position) = self.machine().position(step.party) else {
            return Some(Refusal::NoParty);
        };
        refusal_at(self.machine().scene(), step.act, position)
    }

    /// Whether the party of this step ever makes its act from where it stands, at some word. No party of that number makes none.
    pub fn is_made_there(&self, step: Step) -> bool
        ensures made { result ≡ true → (p : Position) × ((slice_get self.now.machine.parties step.party ≡ Some p) × IsMade step.act p) }
        ensures never { result ≡ false → (p : Position) → slice_get self.now.machine.parties step.party ≡ Some p → IsNeverMade step.act p }
    {
        match self.machine().position(step.party) {
            Some(position) => is_made(step.act, position),
            None => false,
        }
    }
}

// Why the act is refused at this position.
fn refusal_at(scene: Scene, act: Act, position: Position) -> Option<Refusal>
    requires references { scene.word.references ≤ LIMIT + 1 }
    requires polls { begun position < 2 ^ 64 - 1 }
    ensures allowed { IsNone result → IsSome (rule (scene_of scene) act position) }
    ensures refused { IsSome result → rule (scene_of scene) act position ≡ None }
    ensures reason { IfSome result (IsReason (scene_of scene) act (Some position)) }
{
    if fits(scene, act, position) {
        return None;
    }
    if !is_made(act, position) {
        return Some(Refusal::NeverThere(position));
    }
    Some(Refusal::UnfitWord(nearest_word(&scene, act, position)))
}

// Whether the act may be made at this position, in this scene.
fn fits(scene: Scene, act: Act, position: Position) -> bool
    requires references { scene.word.references ≤ LIMIT + 1 }
    requires polls { begun position < 2 ^ 64 - 1 }
    ensures allowed { result ≡ true → IsSome (rule (scene_of scene) act position) }
    ensures refused { result ≡ false → rule (scene_of scene) act position ≡ None }
{
    rule_of_act(scene, act, position).is_some()
}

// Whether the table has a line for the act at this position whose guard ever holds: it does so at the word that favours each guard, of a task that is
// closed, with its Task there and a notifier at work.
fn is_made(act: Act, position: Position) -> bool
    requires { begun position < 2 ^ 64 - 1 }
    ensures made { result ≡ true → IsMade act position }
    ensures never { result ≡ false → IsNeverMade act position }
{
    let word = Word::from_bits(CLOSED | TASK | NOTIFYING);
    match line_of(act, position) {
        Some(line) => holds(word, line.0),
        None => false,
    }
}

// A word at which the act may be made, all else as it is: with the count that was found, if there is one, else with one near it, or at the limit.
fn nearest_word(scene: &Scene, act: Act, position: Position) -> Option<Word>
    requires { begun position < 2 ^ 64 - 1 }
    ensures { IfSome result (FitsAt (scene_of scene.now) act (Some position)) }
{
    let found = scene.word.references();
    for count in [found, found.saturating_sub(1), 0, 1, 2, scene.limit] {
        let word = fitting_word(scene, act, position, count);
        if word.is_some() {
            return word;
        }
    }
    None
}

// A word with that count, or at the largest limit where it is above that, and with as few flags turned as may be.
fn fitting_word(scene: &Scene, act: Act, position: Position, count: u64) -> Option<Word>
    requires { begun position < 2 ^ 64 - 1 }
    ensures { IfSome result (FitsAt (scene_of scene.now) act (Some position)) }
{
    let lowest = count.min(LIMIT + 1) * REFERENCE;
    let mut nearest = None;
    let mut fewest = 9;
    for flags in 0..REFERENCE {
        let word = Word::from_bits(lowest + flags);
        if fits_nearer(scene, act, position, word, fewest) {
            nearest = Some(word);
            fewest = flags_turned(scene, word);
        }
    }
    nearest
}

// Whether this word fits, and fewer flags than that are turned.
fn fits_nearer(scene: &Scene, act: Act, position: Position, word: Word, fewest: u32) -> bool
    requires references { word.references ≤ LIMIT + 1 }
    requires polls { begun position < 2 ^ 64 - 1 }
    ensures { result ≡ true → FitsAt (scene_of scene.now) act (Some position) word }
{
    let at_word = Scene {
        limit: scene.limit,
        word,
        slots: scene.slots,
    };
    fits(at_word, act, position) && flags_turned(scene, word) < fewest
}

// In how many flags the word differs from the one that was found.
fn flags_turned(scene: &Scene, word: Word) -> u32 {
    ((word.bits() ^ scene.word.bits()) % REFERENCE).count_ones()
}
