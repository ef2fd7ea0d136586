//! Progress of the machine: how many steps calls make, that none waits for another, and where they lead.
//! It stands on the machine of `task_laws`.
//! A user calls nothing of it: the contract of `progress` is the theorem.
//! `wrong_tables` is public to show that two tables which spin or wait are refused.
//! The page is README.md, beside the code.
#![tactic(auto)]

ghost use Rattle.task_progress.specs.StepsLeft.{OpenCallsBoundSteps, StepsAreBounded};
ghost use Rattle.task_progress.specs.OwnSteps.{EachPartyIsBounded};
ghost use Rattle.task_progress.specs.Attempts.{LockFree, MissesAfterLook};
ghost use Rattle.task_progress.specs.Carried.{DueWakesAreCarried, DueWakesLeadToPolls};
ghost use Rattle.task_progress.specs.Waiting.{NoCallWaits, WhatTaskSawStays};
ghost use Rattle.task_progress.specs.Ending.{AllCallsEnd, EachEndsAlone, NeverStuck};
ghost use Rattle.task_progress.specs.AtRest.{AllComeToRest, DueWakesArePolled, DueWakesStay, WithoutWorkAtRest};
ghost use Rattle.task_progress.specs.AtRest.{ClosedLeadsToRest, ClosedMakesNoRunnable, RunsLeadToRest};
ghost use Rattle.task_progress.specs.Tables.{LooksAgain, Progresses, WaitsForNotifier};
ghost use Rattle.task_laws.specs.Table.{rule};

/// What holds of every interleaving of the machine of moves, for every limit and any number of parties:
///
/// - Each call makes at most 16 steps, of which at most five write the word (`steps`), and each party makes no more than that for each of its calls
///   (`own_steps`). In a stretch in which no call ends, all steps are those of the calls that are open at its end (`open_calls`).
/// - An exchange of one party misses at most once for each write of another party. So in a stretch in which no call ends, the calls that are open bound
///   the misses as well as the steps (`lock_free`). From a look of a party on, it misses at most as often as others write the word (`call_misses`).
/// - Each party in a call may step now, wherever the others stand (`may_step`), and its call ends by its own steps alone while all others stand still
///   (`ends_alone`). What the Task has seen and goes on by, no other party takes back (`task_saw`).
/// - All calls in progress can end without a new one (`calls_end`), and a run without new calls never sticks before they have (`never_stuck`).
/// - A wake that is due stays due while no call begins, or the task is over (`wake_stays_due`). Where no call is in progress, one Runnable exists, and
///   its run polls (`wake_is_polled`).
/// - While a wake is due, also while calls go on beginning, one party carries it: no step takes it further from a poll, and each of its own brings it
///   closer, but those that pass the Runnable on or take a waker of it (`wake_is_carried`). At most four such steps are made before a poll begins, or
///   the task is over (`wake_leads_to_poll`).
/// - After every list of steps, the rest of the calls in progress and at most two runs more can lead to rest, and a due wake to a poll, unless the task
///   was over once those calls had ended (`comes_to_rest`); what foreign code answers is chosen, also of a poll in progress. Once a run has started,
///   calls that end lead to rest, or to a closed task (`run_leads_to_rest`). A closed task makes no Runnable more (`closed_makes_none`), and without
///   one it is at rest whenever no call is in progress (`closed_leads_to_rest`).
/// - Where no call is in progress and no Runnable exists, an open task has a waker or its Task. One that is over has dropped its future once, has woken
///   the awaiter of a pending poll, and has ended its output, unless the Task may still claim it (`at_rest`).
pub fn progress()
    ensures steps { StepsAreBounded }
    ensures own_steps { EachPartyIsBounded }
    ensures open_calls { OpenCallsBoundSteps }
    ensures lock_free { LockFree }
    ensures call_misses { MissesAfterLook }
    ensures may_step { NoCallWaits }
    ensures ends_alone { EachEndsAlone }
    ensures task_saw { WhatTaskSawStays }
    ensures calls_end { AllCallsEnd }
    ensures never_stuck { NeverStuck }
    ensures wake_stays_due { DueWakesStay }
    ensures wake_is_polled { DueWakesArePolled }
    ensures wake_is_carried { DueWakesAreCarried }
    ensures wake_leads_to_poll { DueWakesLeadToPolls }
    ensures comes_to_rest { AllComeToRest }
    ensures run_leads_to_rest { RunsLeadToRest }
    ensures closed_makes_none { ClosedMakesNoRunnable }
    ensures closed_leads_to_rest { ClosedLeadsToRest }
    ensures at_rest { WithoutWorkAtRest }
{}

/// Two tables of moves that differ from the machine's own in one row do not progress, as the machine's own does (`own`):
///
/// - Where a notifier that misses looks again (`looks_again`), one call makes any number of steps while all others stand still.
/// - Where a poll waits for a notifier in place of giving its registration up (`waits`), a party in a call has no act while that notifier stands still.
///   The laws hold all the same.
pub fn wrong_tables()
    ensures own { Progresses rule }
    ensures looks_again { LooksAgain }
    ensures waits { WaitsForNotifier }
{}
