//! The row of a task of one thread.
ghost use Rattle.std.specs.Prelude.{IfOk};
ghost use Rattle.taskrows.specs.Row.{AgreesAt};

use async_task::{ScheduleInfo, TaskPoll, Wake};
use local_task::{LocalTask, Settled, Start};
use rows_fixtures::behaviour::Behaviour;
use rows_fixtures::counters::Counts;
use rows_fixtures::fixture::Fixture;
use rows_fixtures::flag::Flag;
use rows_fixtures::future::RowFuture;
use rows_fixtures::outcome::Outcome;
use rows_fixtures::output::Output;
use std::alloc::AllocError;
use std::sync::Wait;

type Local = LocalTask<RowFuture, Output, (), Flag>;

// What a call left to do, once it is done.
#[derive(Clone, Copy, PartialEq, Eq)]
struct Done {
    future: bool,
    queue: Option<ScheduleInfo>,
    wake: bool,
    emptied: bool,
}

// There was nothing to do.
const NOTHING: Done = Done {
    future: false,
    queue: None,
    wake: false,
    emptied: false,
};

// Does what is left to do, in order: an order to queue is counted.
fn act<R: Wait + Drop + Copy>(
    fixture: &Fixture<'_, R>,
    settled: Settled<RowFuture, Output, Flag>,
) -> Done {
    let Settled {
        future,
        output,
        queue,
        wake,
        dropped,
        emptied,
    } = settled;
    let done = Done {
        future: future.is_some(),
        queue,
        wake: wake.is_some(),
        emptied,
    };
    drop(future);
    drop(output);
    if queue.is_some() {
        fixture.counters.schedules.add_one();
    }
    if let Some(awaiter) = wake {
        awaiter.wake();
    }
    drop(dropped);
    done
}

// Whether the task is polled and woken meanwhile, and is to be queued again.
fn is_woken_while_running<R: Wait + Drop + Copy>(
    fixture: &Fixture<'_, R>,
    task: &mut Local,
) -> bool {
    let Start::Poll(mut future) = task.start() else {
        return false;
    };
    let polled = future.answer_alone();
    let unqueued = task.wake().is_none();
    if !task.is_started() {
        return false;
    }
    let info = ScheduleInfo {
        woken_while_running: true,
    };
    let again = Done {
        queue: Some(info),
        ..NOTHING
    };
    act(fixture, task.settle(future, polled)) == again && unqueued
}

// Whether a cancel closes the task, with nothing to queue or to wake.
fn is_cancelled<R: Wait + Drop + Copy>(fixture: &Fixture<'_, R>, task: &mut Local) -> bool {
    task.has_task() && act(fixture, task.cancel()) == NOTHING && task.is_finished()
}

// Whether the task ends unpolled, and is not emptied.
fn ends_unpolled<R: Wait + Drop + Copy>(fixture: &Fixture<'_, R>, task: &mut Local) -> bool {
    let Start::Ended(settled) = task.start() else {
        return false;
    };
    let ended = Done {
        future: true,
        ..NOTHING
    };
    act(fixture, settled) == ended
}

// Whether a poll of the Task answers ready without an output.
fn is_closed<R: Wait + Drop + Copy>(
    fixture: &Fixture<'_, R>,
    task: &mut Local,
    flag: &Flag,
) -> bool {
    if !task.has_task() {
        return false;
    }
    let (answer, settled) = task.poll(flag);
    matches!(answer, TaskPoll::Ready(None)) && act(fixture, settled) == NOTHING
}

// Whether a detach leaves nobody.
fn is_emptied<R: Wait + Drop + Copy>(fixture: &Fixture<'_, R>, task: &mut Local) -> bool {
    let emptied = Done {
        emptied: true,
        ..NOTHING
    };
    task.has_task() && act(fixture, task.detach()) == emptied && task.is_emptied()
}

/// A task of one thread is woken while its future is polled, cancelled while it is queued again, and ends without a second poll.
pub fn local<R: Wait + Drop + Copy>(
    fixture: &Fixture<'_, R>,
    counts: Counts,
) -> Result<Outcome, AllocError>
    ensures { IfOk result (AgreesAt counts) }
{
    let flag = fixture.flag(1)?;
    let mut task = LocalTask::new((), fixture.future(Behaviour::Pending)?);
    let agrees = task.is_queued()
        & is_woken_while_running(fixture, &mut task)
        & is_cancelled(fixture, &mut task)
        & ends_unpolled(fixture, &mut task)
        & is_closed(fixture, &mut task, &flag)
        & is_emptied(fixture, &mut task);
    Ok(fixture.end(agrees, counts))
}
