//! The machine of moves, played: a list of steps from the opening state, and the machine at its end.
//!
//! It is the machine that `task_laws::laws` speaks of, without its trace. So what the laws say of a list of steps holds of the one that is replayed.

ghost use Rattle.std.specs.Prelude.{◌≡◌, ◌<◌, ◌-◌, ◌^◌, Some, None, false, IfOk, IfErr, OnOk, OnErr, min, ◌++◌, length, slice_get, if◌then◌else◌};
ghost use Rattle.task_laws.specs.Machine as machine;
ghost use Rattle.task_laws.specs.declared.positions.Position.{Position};
ghost use Rattle.task_laws.specs.Machine.{run, opening};
ghost use Rattle.task_replay.specs.Line.{listed};
ghost use Rattle.task_replay.specs.Replay.{standing, stands, slots_of, scene_of, scene_at, begun, StepsTo, IsRight};

use crate::player::Player;
use crate::table::{Scene, rule_of_act};
use std::alloc::{AllocError, Allocator, Global};
use std::marker::Model;
use task_core::acts::Act;
use task_core::word::{LIMIT, REFERENCE, SCHEDULED, TASK, Word};
use task_laws::positions::{Position, Rest};

/// One step of the machine. Contracts see it as the step that the laws speak of.
#[derive(Clone, Copy, Debug, PartialEq, Eq)]
pub struct Step {
    /// The Runnable of the spawn is party 0, the Task party 1, and party 2 the waker that is lent to each call by reference. Each party that a step adds
    /// takes the next number.
    pub party: u64,
    /// What that party does.
    pub act: Act,
}

impl Model for Step {
    ghost use Rattle.task_laws.specs.Machine as machine;

    ghost Value = { machine.Step };

    ghost view = { λ s. record { party = s.party; act = s.act } };

    ghost inverse = { λ s. record { party = s.party; act = s.act } };

    ghost inverse_ok = { λ s h i. s };
}

/// What the three slots of a task hold.
#[derive(Clone, Copy, Debug, PartialEq, Eq)]
pub struct Slots {
    /// Whether the future is there.
    pub future: bool,
    /// Whether an output is there.
    pub output: bool,
    /// The clone of an awaiter, by the number of the poll that stored it.
    pub awaiter: Option<u64>,
}

/// Why a replay did not come to its end.
#[derive(Clone, Copy, Debug, PartialEq, Eq)]
pub enum ReplayError {
    /// The machine allows the steps before this one, counted from 0, and not this one.
    NotAllowed(usize),
    /// The list of parties was to grow, and memory was refused. The steps may be allowed or not.
    NoMemory,
}

impl From<AllocError> for ReplayError {
    ghost use Rattle.task_replay.specs.declared.machine.ReplayError.TheVariants.{NoMemory};

    ghost from_gives = { λ refused error. error ≡ NoMemory };

    fn from(_refused: AllocError) -> ReplayError {
        ReplayError::NoMemory
    }
}

/// How the machine stands after some steps. Contracts see it as a `Standing`: the machine of the laws without its trace.
#[derive(Drop)]
#[derive_where(Debug)]
pub struct Machine<A: Allocator = Global> {
    limit: u64,
    word: Word,
    slots: Slots,
    parties: Vec<Position, A>,
}

impl<A: Allocator> Model for Machine<A> {
    ghost use Rattle.task_replay.specs.Replay.{Standing, slots_of};

    ghost Value = { Standing };

    ghost view = { λ m. record { limit = m.limit; word = m.word; slots = slots_of m.slots; parties = m.parties.items } };
}

/// What can be seen of a machine.
impl<A: Allocator> Machine<A> {
    /// The word of the task.
    pub fn word(&self) -> Word
        ensures { result ≡ self.now.word }
    {
        self.word
    }

    /// What the three slots hold: the future, the output, and the clone of an awaiter.
    pub fn slots(&self) -> Slots
        ensures { slots_of result ≡ self.now.slots }
    {
        self.slots
    }

    /// How many parties there have been.
    pub fn parties(&self) -> usize
        ensures { result ≡ length self.now.parties }
    {
        self.parties.len()
    }

    /// Where a party stands. `None` where there is no party of this number.
    pub fn position(&self, party: u64) -> Option<Position>
        ensures { result ≡ slice_get self.now.parties party }
    {
        self.parties.get(party as usize).copied()
    }
}

/// How a machine is played.
impl<A: Allocator> Machine<A> {
    // After a spawn: party 0 is the Runnable, party 1 the Task, and party 2 the waker that is lent to each call by reference.
    pub(crate) fn opened(alloc: A, limit: u64) -> Result<Machine<A>, AllocError>
        ensures { IfOk result (λ now. now ≡ standing (opening limit)) }
    {
        let mut parties = Vec::new(alloc);
        parties.extend_from_slice(&[
            Position::At(Rest::Runnable),
            Position::At(Rest::Task(0)),
            Position::At(Rest::Lent),
        ])?;
        let slots = Slots {
            future: true,
            output: false,
            awaiter: None,
        };
        Ok(Machine {
            limit,
            word: Word::from_bits(SCHEDULED | TASK | REFERENCE),
            slots,
            parties,
        })
    }

    // What a party finds.
    pub(crate) fn scene(&self) -> Scene
        ensures { scene_of result ≡ scene_at self.now }
    {
        Scene {
            limit: self.limit,
            word: self.word,
            slots: self.slots,
        }
    }

    // One party more, or none.
    fn add(&mut self, added: Option<Position>) -> Result<(), AllocError>
        ensures grown { OnOk result (self.new ≡ record (self.old) { parties = self.old.parties ++ listed added }) }
        ensures refused { OnErr result (self.new ≡ self.old) }
    {
        match added {
            Some(added) => self.parties.push(added).or(Err(AllocError)),
            None => Ok(()),
        }
    }

    // One step, and whether it is allowed. A machine that does not make it stands as before.
    pub(crate) fn step(&mut self, next: Step) -> Result<bool, AllocError>
        requires references { self.old.word.references < 2 ^ 56 - 1 }
        requires polls { (p : Position) → slice_get self.old.parties next.party ≡ Some p → begun p < 2 ^ 64 - 1 }
        ensures answered { IfOk result (λ yes. StepsTo self.old next (if yes then Some self.new else None)) }
        ensures unchanged { IfOk result (λ yes. yes ≡ false → self.new ≡ self.old) }
        ensures refused { OnErr result (self.new ≡ self.old) }
    {
        let Some(position) = self.position(next.party) else {
            return Ok(false);
        };
        let Some(effect) = rule_of_act(self.scene(), next.act, position) else {
            return Ok(false);
        };
        self.add(effect.added)?;
        self.parties[next.party as usize] = effect.next;
        self.word = effect.word;
        self.slots = effect.slots;
        Ok(true)
    }
}

/// Plays the steps, the first one first, from the state after a spawn, and answers the machine after the last one. The list of parties takes its
/// memory from `alloc`. Up to `limit` references wakers are gained; a limit above `LIMIT` is taken as `LIMIT`. It waits for nobody.
pub fn replay<A: Allocator>(alloc: A, limit: u64, steps: &[Step]) -> Result<Machine<A>, ReplayError>
    ensures machine { IfOk result (λ now. stands (run (min limit LIMIT) steps.now) ≡ Some now) }
    ensures refusal { IfErr result (λ error. IsRight (min limit LIMIT) steps.now error) }
{
    let mut player = Player::new(alloc, limit)?;
    for (i, step) in steps.iter().enumerate() {
        match player.advance(*step) {
            Ok(true) => {}
            Ok(false) => return Err(ReplayError::NotAllowed(i)),
            Err(_) => return Err(ReplayError::NoMemory),
        }
    }
    Ok(player.into_machine())
}
