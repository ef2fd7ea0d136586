//! What each row does, and the counters at its end.
ghost use Rattle.std.specs.Prelude.{◌≡◌, IfOk};
ghost use Rattle.taskrows.specs.Row.{AgreesAt, AgreesAs};
ghost use Rattle.taskrows.specs.Row as rows;

use crate::priority::Order;
use crate::{local, priority, scripts};
use rows_fixtures::counters::Counts;
use rows_fixtures::counting::Counting;
use rows_fixtures::fixture::Fixture;
use rows_fixtures::outcome::{Missing, Outcome};
use rows_fixtures::row::Row;
use rows_fixtures::script;
use std::alloc::Global;
use std::sync::Wait;
use std::thread::Threads;

/// Runs a row in surroundings of its own, unless memory for them or for what it spawns is refused, or the second thread that it needs.
pub fn run<R>(row: Row, rt: R, alloc: Global) -> Result<Outcome, Missing>
where
    R: Wait + Threads + Drop + Copy + Send + Sync,
    ensures { IfOk result (AgreesAs row) }
{
    let counting = Counting::new(alloc);
    let fixture = Fixture::new(rt, alloc, &counting)?;
    run_in(&fixture, alloc, row, counts_of(row))
}

fn run_in<R>(
    fixture: &Fixture<'_, R>,
    alloc: Global,
    row: Row,
    counts: Counts,
) -> Result<Outcome, Missing>
where
    R: Wait + Threads + Drop + Copy + Send + Sync,
    ensures { IfOk result (AgreesAt counts) }
{
    match row {
        Row::Local => Ok(local::local(fixture, counts)?),
        _ => match order_of(row) {
            Some(order) => Ok(priority::play(fixture, alloc, order, counts)?),
            None => play(fixture, alloc, steps_of(row), counts),
        },
    }
}

// Plays a script: the row's end, which agrees where each step was as it says.
fn play<R>(
    fixture: &Fixture<'_, R>,
    alloc: Global,
    steps: &str,
    counts: Counts,
) -> Result<Outcome, Missing>
where
    R: Wait + Threads + Drop + Copy + Send + Sync,
    ensures { IfOk result (AgreesAt counts) }
{
    let played = script::play(fixture, alloc, steps)?;
    Ok(Outcome::of(played.counts, played.failed.is_none(), counts))
}

// The tasks of a row that runs them by priority.
fn order_of(row: Row) -> Option<&'static Order> {
    let order = match row {
        Row::Priorities => priority::PRIORITIES,
        Row::Priority => priority::PRIORITY,
        Row::PriorityYield => priority::PRIORITY_YIELD,
        Row::PriorityFull => priority::PRIORITY_FULL,
        _ => return None,
    };
    Some(order)
}

// The script of a row that has one. Of the others it is no step, which fails.
fn steps_of(row: Row) -> &'static str {
    match row {
        Row::DropAndDetach => scripts::DROP_AND_DETACH,
        Row::DetachAndDrop => scripts::DETACH_AND_DROP,
        Row::DetachAndRun => scripts::DETACH_AND_RUN,
        Row::RunAndDetach => scripts::RUN_AND_DETACH,
        Row::CancelAndRun => scripts::CANCEL_AND_RUN,
        Row::CancelJoin => scripts::CANCEL_JOIN,
        Row::Waker => scripts::WAKER,
        Row::WakerClone => scripts::CLONE,
        Row::WakerWake => scripts::WAKE,
        Row::WakeDropped => scripts::WAKE_DROPPED,
        Row::DropLastWaker => scripts::DROP_LAST_WAKER,
        Row::Limit => scripts::LIMIT,
        Row::LastRun => scripts::LAST_RUN,
        Row::ClosedPoll => scripts::CLOSED_POLL,
        Row::RefusedClone => scripts::REFUSED_CLONE,
        Row::WakeDuringRun => scripts::WAKE_DURING_RUN,
        Row::CancelFuture => scripts::CANCEL_FUTURE,
        Row::AwaiterCompletes => scripts::AWAITER_COMPLETES,
        Row::AwaiterOrphan => scripts::AWAITER_ORPHAN,
        Row::ScheduleCounter => scripts::SCHEDULE_COUNTER,
        Row::Sum => scripts::SUM,
        Row::RunAndCancel => scripts::RUN_AND_CANCEL,
        Row::DropInSchedule => scripts::DROP_IN_SCHEDULE,
        Row::CancelDuringRun => scripts::CANCEL_DURING_RUN,
        Row::WakeAndCancel => scripts::WAKE_AND_CANCEL,
        Row::CancelAndWake => scripts::CANCEL_AND_WAKE,
        Row::DetachDuringRun => scripts::DETACH_DURING_RUN,
        Row::DropDuringRun => scripts::DROP_DURING_RUN,
        Row::PollDuringRun => scripts::POLL_DURING_RUN,
        Row::CancelRefused => scripts::CANCEL_REFUSED,
        Row::ClearQueue => scripts::CLEAR_QUEUE,
        Row::WakeIntoDrop => scripts::WAKE_INTO_DROP,
        Row::DropInPoll => scripts::DROP_IN_POLL,
        _ => "none",
    }
}

// Polls, schedule calls, drops of futures and drops of schedule values.
fn counts_of(row: Row) -> Counts
    ensures { result ≡ rows.counts_of row }
{
    match row {
        Row::DropAndDetach | Row::DetachAndDrop | Row::CancelAndRun => Counts(0, 0, 1, 1),
        Row::DetachAndRun | Row::RunAndDetach | Row::CancelJoin => Counts(1, 0, 1, 1),
        Row::AwaiterCompletes | Row::RunAndCancel | Row::DropInPoll => Counts(1, 0, 1, 1),
        Row::DetachDuringRun | Row::DropDuringRun => Counts(1, 0, 1, 1),
        Row::Waker => Counts(2, 2, 0, 0),
        Row::WakerClone | Row::WakerWake | Row::CancelDuringRun => Counts(2, 1, 1, 1),
        Row::WakeAndCancel | Row::CancelAndWake => Counts(2, 1, 1, 1),
        Row::WakeDropped | Row::DropLastWaker | Row::LastRun => Counts(1, 1, 1, 1),
        Row::AwaiterOrphan | Row::WakeIntoDrop => Counts(1, 1, 1, 1),
        Row::Limit | Row::WakeDuringRun => Counts(1, 1, 0, 0),
        Row::ClosedPoll | Row::CancelFuture | Row::CancelRefused => Counts(0, 0, 1, 0),
        Row::RefusedClone | Row::Sum | Row::PollDuringRun => Counts(1, 0, 1, 0),
        Row::Priorities => Counts(3, 3, 3, 0),
        Row::Local => Counts(1, 1, 1, 0),
        Row::ScheduleCounter => Counts(0, 3, 0, 0),
        Row::DropInSchedule => Counts(0, 1, 1, 0),
        Row::ClearQueue => Counts(0, 3, 3, 0),
        Row::Priority => Counts(4, 4, 4, 0),
        Row::PriorityYield => Counts(3, 3, 2, 0),
        Row::PriorityFull => Counts(1, 2, 2, 0),
    }
}
