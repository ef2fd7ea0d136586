//! The rows of the executor by priority. In each, the tasks are spawned and scheduled in the order given.
ghost use Rattle.std.specs.Prelude.{IfOk};
ghost use Rattle.taskrows.specs.Row.{AgreesAt};

use async_task::{TaskClosed, TaskPoll};
use rows_fixtures::behaviour::Behaviour;
use rows_fixtures::counters::Counts;
use rows_fixtures::executor::{PriorityQueue, PriorityTask};
use rows_fixtures::fixture::Fixture;
use rows_fixtures::flag::Flag;
use rows_fixtures::outcome::Outcome;
use rows_fixtures::output::is_ready_with;
use std::alloc::{AllocError, Global};
use std::sync::Wait;

/// Tasks that are run by priority.
pub struct Order {
    room: usize,
    /// Of each the priority, and what its future does.
    tasks: &'static [(u64, Behaviour)],
    turns: &'static [Turn],
}

/// What is done then, and seen.
enum Turn {
    /// Runs the Runnable of greatest priority: that priority, and what the run answers.
    Runs(u64, bool),
    /// There is no Runnable.
    Empty,
    /// So many schedule calls there were, and in so many the task was woken while it ran.
    Scheduled(u64, u64),
    /// Polls the Task of that place, which answers ready with that number.
    Gives(usize, u64),
    /// Polls the Task of that place, which answers that the task is closed.
    Closed(usize),
}

use Turn::*;

/// Three tasks are scheduled in ascending order of priority, and run in descending order.
pub const PRIORITIES: &Order = &Order {
    room: 3,
    tasks: &[
        (1, Behaviour::Ready(1)),
        (2, Behaviour::Ready(2)),
        (3, Behaviour::Ready(3)),
    ],
    turns: &[
        Runs(3, false),
        Runs(2, false),
        Runs(1, false),
        Empty,
        Gives(0, 1),
        Gives(1, 2),
        Gives(2, 3),
    ],
};

/// Four tasks of priority 2, 3, 2 and 1 are run in descending order.
pub const PRIORITY: &Order = &Order {
    room: 4,
    tasks: &[
        (2, Behaviour::Ready(2)),
        (3, Behaviour::Ready(3)),
        (2, Behaviour::Ready(2)),
        (1, Behaviour::Ready(1)),
    ],
    turns: &[
        Runs(3, false),
        Runs(2, false),
        Runs(2, false),
        Runs(1, false),
        Empty,
    ],
};

/// A task that is woken while it runs goes through the queue again, and comes before one of lower priority.
pub const PRIORITY_YIELD: &Order = &Order {
    room: 2,
    tasks: &[(5, Behaviour::Yield(5)), (1, Behaviour::Ready(1))],
    turns: &[
        Scheduled(2, 0),
        Runs(5, true),
        Scheduled(3, 1),
        Runs(5, false),
        Runs(1, false),
        Empty,
    ],
};

/// A Runnable that finds the queue full is dropped, which closes its task, though its priority is greater.
pub const PRIORITY_FULL: &Order = &Order {
    room: 1,
    tasks: &[(1, Behaviour::Ready(1)), (2, Behaviour::Ready(2))],
    turns: &[Runs(1, false), Empty, Closed(1)],
};

/// Spawns and schedules the tasks, and takes the turns: the row's end, which agrees where each was as it says.
pub fn play<R: Wait + Drop + Copy>(
    fixture: &Fixture<'_, R>,
    alloc: Global,
    order: &Order,
    counts: Counts,
) -> Result<Outcome, AllocError>
    ensures { IfOk result (AgreesAt counts) }
{
    let queue = fixture.priorities(order.room)?;
    play_by(fixture, alloc, &queue, order, counts)
}

// Plays a row over the tasks with this queue.
fn play_by<R: Wait + Drop + Copy>(
    fixture: &Fixture<'_, R>,
    alloc: Global,
    queue: &PriorityQueue<R>,
    order: &Order,
    counts: Counts,
) -> Result<Outcome, AllocError>
    ensures { IfOk result (AgreesAt counts) }
{
    let flag = fixture.flag(1)?;
    let mut tasks = Vec::new(alloc);
    for &(priority, behaviour) in order.tasks {
        schedule(fixture, queue, &mut tasks, priority, behaviour)?;
    }
    let mut agrees = true;
    for turn in order.turns {
        agrees &= takes(fixture, queue, &mut tasks, &flag, turn);
    }
    Ok(fixture.end(agrees, counts))
}

// Spawns such a task, schedules its Runnable and keeps its Task.
fn schedule<'x, R: Wait + Drop + Copy>(
    fixture: &Fixture<'_, R>,
    queue: &'x PriorityQueue<R>,
    tasks: &mut Vec<PriorityTask<'x, R>>,
    priority: u64,
    behaviour: Behaviour,
) -> Result<(), AllocError> {
    let Ok((runnable, task)) = fixture.spawn_prior(queue, priority, behaviour) else {
        return Err(AllocError);
    };
    runnable.schedule();
    tasks.push(task).or(Err(AllocError))
}

// Whether a turn is as it says.
fn takes<R: Wait + Drop + Copy>(
    fixture: &Fixture<'_, R>,
    queue: &PriorityQueue<R>,
    tasks: &mut Vec<PriorityTask<'_, R>>,
    flag: &Flag,
    turn: &Turn,
) -> bool {
    match *turn {
        Runs(priority, answer) => queue.run_next() == Some((priority, answer)),
        Empty => queue.run_next().is_none(),
        Scheduled(calls, woken) => {
            fixture.counts().1 == calls && fixture.counters.woken_calls.get() == woken
        }
        Gives(place, number) => gives(tasks.get_mut(place), flag, number),
        Closed(place) => is_closed(tasks.get_mut(place), flag),
    }
}

fn gives<R: Wait + Drop + Copy>(
    task: Option<&mut PriorityTask<'_, R>>,
    flag: &Flag,
    number: u64,
) -> bool {
    match task {
        Some(task) => is_ready_with(&task.poll(flag), number),
        None => false,
    }
}

fn is_closed<R: Wait + Drop + Copy>(task: Option<&mut PriorityTask<'_, R>>, flag: &Flag) -> bool {
    match task {
        Some(task) => matches!(task.poll(flag), TaskPoll::Ready(Err(TaskClosed))),
        None => false,
    }
}
