//! A machine that is played one step at a time. It needs memory for its parties, and none for the steps that it has made.
ghost use Rattle.std.specs.Prelude.{◌≡◌, ◌+◌, ◌<◌, ◌≤◌, ◌-◌, ◌^◌, ◌↔◌, Some, None, Ok, Err, false, OnOk, OnErr, IfOk, min, if◌then◌else◌};
ghost use Rattle.task_laws.specs.Machine.{opening};
ghost use Rattle.task_replay.specs.Replay.{standing, Played, StepsTo};
ghost use Rattle.task_core.specs.declared.word.TheConstants.{LIMIT};

use crate::machine::{Machine, Step};
use std::alloc::{AllocError, Allocator, Global};
use task_core::word::LIMIT;

/// So many steps a player makes, and no more: its Task's polls are counted in 64 bits.
pub const STEPS: u64 = u64::MAX - 1;

/// Why a player did not make a step. It stands as before.
#[derive(Clone, Copy, Debug, PartialEq, Eq)]
pub enum PlayError {
    /// The machine does not allow this step here.
    NotAllowed,
    /// The player has made `STEPS` steps. This one may be allowed or not.
    Exhausted,
    /// The list of parties was to grow, and memory was refused. The step is allowed.
    NoMemory,
}

impl From<AllocError> for PlayError {
    ghost use Rattle.task_replay.specs.declared.player.PlayError.TheVariants.{NoMemory};

    ghost from_gives = { λ refused error. error ≡ NoMemory };

    fn from(_refused: AllocError) -> PlayError {
        PlayError::NoMemory
    }
}

/// A machine and how many steps it has made. There is a list of that many steps from the opening state whose run, of which `task_laws::laws` speaks, ends in
/// this machine.
#[derive(Drop)]
#[derive_where(Debug)]
pub struct Player<A: Allocator = Global> {
    machine: Machine<A>,
    steps: u64,
    ghost played: { ∥ Played machine steps ∥₁ },
    ghost limited: { machine.limit ≤ LIMIT },
    ghost counted: { steps < 2 ^ 64 - 1 },
}

impl<A: Allocator> Player<A> {
    /// The machine after a spawn: party 0 is the Runnable, party 1 the Task, and party 2 the waker that is lent to each call by reference. The list of
    /// parties takes its memory from `alloc`. Up to `limit` references wakers are gained; a limit above `LIMIT` is taken as `LIMIT`.
    pub fn new(alloc: A, limit: u64) -> Result<Player<A>, AllocError>
        ensures opened { IfOk result (λ player. player.machine ≡ standing (opening (min limit LIMIT))) }
        ensures unplayed { IfOk result (λ player. player.steps ≡ 0) }
    {
        match Machine::opened(alloc, limit.min(LIMIT)) {
            Ok(machine) => Ok(Player { machine, steps: 0 }),
            Err(refused) => Err(refused),
        }
    }

    /// Makes a step where the machine allows it. It waits for nobody.
    pub fn play(&mut self, step: Step) -> Result<(), PlayError>
        ensures allowed { OnOk result (StepsTo self.old.machine step (Some self.new.machine)) }
        ensures counted { OnOk result (self.new.steps ≡ self.old.steps + 1) }
        ensures not_allowed { result ≡ Err PlayError.NotAllowed → StepsTo self.old.machine step None }
        ensures exhausted { (result ≡ Err PlayError.Exhausted) ↔ (self.old.steps ≡ STEPS) }
        ensures unchanged { OnErr result (self.new.machine ≡ self.old.machine) }
        ensures uncounted { OnErr result (self.new.steps ≡ self.old.steps) }
    {
        if self.steps == STEPS {
            return Err(PlayError::Exhausted);
        }
        match self.advance(step) {
            Ok(true) => Ok(()),
            Ok(false) => Err(PlayError::NotAllowed),
            Err(_) => Err(PlayError::NoMemory),
        }
    }

    /// The machine as it stands.
    pub fn machine(&self) -> &Machine<A>
        ensures machine { result.now ≡ self.now.machine }
        ensures reached { ∥ Played self.now.machine self.now.steps ∥₁ }
    {
        &self.machine
    }

    /// How many steps it has made.
    pub fn steps(&self) -> u64
        ensures { result ≡ self.now.steps }
    {
        self.steps
    }

    /// The machine as it stands, for good.
    pub fn into_machine(self) -> Machine<A>
        ensures machine { result ≡ self.machine }
        ensures reached { ∥ Played self.machine self.steps ∥₁ }
    {
        let Player { machine, .. } = self;
        machine
    }

    // One step, and whether it is allowed.
    pub(crate) fn advance(&mut self, step: Step) -> Result<bool, AllocError>
        requires { self.old.steps < STEPS }
        ensures answered { IfOk result (λ yes. StepsTo self.old.machine step (if yes then Some self.new.machine else None)) }
        ensures counted { IfOk result (λ yes. self.new.steps ≡ (if yes then self.old.steps + 1 else self.old.steps)) }
        ensures unchanged { IfOk result (λ yes. yes ≡ false → self.new.machine ≡ self.old.machine) }
        ensures refused { OnErr result (self.new.machine ≡ self.old.machine) }
        ensures uncounted { OnErr result (self.new.steps ≡ self.old.steps) }
    {
        let allowed = self.machine.step(step)?;
        if allowed {
            self.steps += 1;
        }
        Ok(allowed)
    }
}
