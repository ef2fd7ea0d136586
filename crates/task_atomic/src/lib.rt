//! What each call does to a task, as its callers see it: atomic acts on a small task, whatever other calls do meanwhile; that the paths which the
//! contracts of the public calls promise are these acts, made in the interleaving that the rule of a cell speaks of; that an interleaving in which calls
//! nest is a run of the abstract task of a cell; and that lists of calls of a task of one thread are such runs.
//! It stands on `task_laws`, `async_task` and `local_task`, and takes from `task_progress` how a table of moves is run.
//! A user calls nothing of it: the contracts of `atomic`, `calls`, `code`, `sequential` and `runs` are the theorems.
//! `wrong_table` is public to show that a table which meets the laws, and by which a call acts twice, is refused.
//! The page is README.md.
#![tactic(auto)]

ghost use Rattle.task_atomic.specs.Atomic.{StepsAreAtomic, StepsAreRuns};
ghost use Rattle.task_atomic.specs.Calls.{CallsEndByAnswers, CallsMakeTheirActs};
ghost use Rattle.task_atomic.specs.CodeActs.{CallsAreActs, CellsAreRuns, DeedsAreActs};
ghost use Rattle.task_atomic.specs.Deeds.{DeedsAreSteps};
ghost use Rattle.task_atomic.specs.Finds.{RowsFind};
ghost use Rattle.task_atomic.specs.Nesting.{CallsInTurnNest, NestedCallsAreWhole, WholeRunsNest};
ghost use Rattle.task_atomic.specs.Paths.{PathsAreActs};
ghost use Rattle.task_atomic.specs.Registered.{OpenTaskKeepsAwaiter, PendingIsRegistered};
ghost use Rattle.task_atomic.specs.Runs.{CallsAreRuns};
ghost use Rattle.task_atomic.specs.Tables.{CancelsAgain};
ghost use Rattle.task_atomic.specs.Witnessed.{WitnessesExplain};
ghost use Rattle.task_cell.specs.Woken.{WokeStored};
ghost use Rattle.task_cell.specs.Handed.{HandedOver, PolledOnce};
ghost use Rattle.task_laws.specs.Table.{rule};
ghost use Rattle.task_steps.specs.Values.{values_of};

use std::alloc::Allocator;
use std::sync::Wait;
use task_cell::{Runnable, TaskWaker};
use task_core::{Future, Schedule, Wake, Yields};

/// What holds of every interleaving of the machine, for every limit of references and any number of parties. It has no body: the contract is the claim.
pub fn atomic()
    ensures steps { StepsAreAtomic }
    ensures refines { StepsAreRuns }
    ensures finds { RowsFind }
    ensures calls { CallsMakeTheirActs rule }
    ensures ends { CallsEndByAnswers }
    ensures pending { PendingIsRegistered }
    ensures kept { OpenTaskKeepsAwaiter }
{}

/// A table of moves that differs from the machine's own in one row, by which a cancel may close the task twice: the laws hold by it, but not the clause
/// `calls` of [`atomic`].
pub fn wrong_table()
    ensures cancels_again { CancelsAgain }
{}

/// Each path that a call on a task may take is these acts on the small task, in this order, with the call's answer (`paths`): for every cell and all
/// surroundings, and for the facts that the contracts of `async_task` and `task_cell` state. The act of a deed is that of the machine's step (`deeds`).
pub fn calls<
    R: Wait + Drop + Copy,
    F: Yields,
    Q: Drop,
    M: Drop,
    A: Wake,
    X: Copy,
    B: Allocator + Copy,
>()
where
    Q: Schedule<Runnable<R, F, Q, M, A, X, B>>,
    F: Future<TaskWaker<R, F, Q, M, A, X, B>>,
    ensures deeds { DeedsAreSteps }
    ensures paths { (spawned : _) (cell : _) (around : _) → PathsAreActs (HandedOver Q.scheduled cell around) (PolledOnce F.polled spawned cell around) (WokeStored A.woken) A.cloned A.woken A.woken_by_ref A.compared }
{}

/// Wherever the rule of a cell holds, its interleaving is a run of the small task that ends in the present word, in which each party of a seat did last
/// what the seat knows (`cells`). In it a deed is its act, made at that moment (`deeds`), and a call made the acts of its path, in their order, between
/// its first deed and its answer (`calls`). A caller that has a witness, as `Task::witness` gives, has that for its task and its calls (`witnesses`).
pub fn code<F: Yields, A>()
    ensures cells { (spawned : F) → CellsAreRuns (values_of F.Yields spawned) A }
    ensures deeds { DeedsAreActs }
    ensures calls { CallsAreActs }
    ensures witnesses { WitnessesExplain }
{}

/// An interleaving of the rule in which calls nest, so that none is made while another is open, but where that one runs foreign code, is a whole run of
/// the machine, and so a run of the abstract task (`nested`); no other is a whole run (`whole`). Deeds and their parties show whether calls nest, and calls
/// that are made one after another do (`turns`).
pub fn sequential()
    ensures nested { NestedCallsAreWhole }
    ensures whole { WholeRunsNest }
    ensures turns { CallsInTurnNest }
{}

/// Every list of calls of a `LocalTask`, each made where its condition holds, is a run of the abstract task, with the same answers, Runnables, ends and
/// wakes in the same order: the calls between `start` and `settle` are nested in the run that is open there.
pub fn runs<F, T, A>()
    ensures calls { CallsAreRuns F T A }
{}
