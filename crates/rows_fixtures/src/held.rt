//! The handle that awaits the task of a script.

use crate::fixture::Fixture;
use crate::flag::Flag;
use crate::future::RowFuture;
use crate::output::Output;
use crate::surroundings::{Memory, RowTask, Scheduler, Surroundings, Tag};
use async_task::{Cancel, FallibleTask, TaskClosed, TaskPoll};
use std::alloc::AllocError;
use std::sync::Wait;

/// A FallibleTask of the rows.
pub type RowFallible<'x, 'm, R> = FallibleTask<
    R,
    RowFuture,
    Scheduler,
    Tag,
    Flag,
    &'x Surroundings<'m, R>,
    Memory<'m>,
>;

/// A Cancel of the rows.
pub type RowCancel<'x, 'm, R> = Cancel<
    R,
    RowFuture,
    Scheduler,
    Tag,
    Flag,
    &'x Surroundings<'m, R>,
    Memory<'m>,
>;

/// A Task, or what it was made.
#[derive(Drop)]
pub enum Held<'x, 'm, R: Wait + Drop + Copy> {
    /// A Task.
    Task(RowTask<'x, 'm, R>),
    /// A FallibleTask.
    Fallible(RowFallible<'x, 'm, R>),
    /// A Cancel.
    Cancel(RowCancel<'x, 'm, R>),
}

impl<'x, 'm, R: Wait + Drop + Copy> Held<'x, 'm, R> {
    /// Polls it. A Task answers as the other two.
    pub fn poll(&mut self, awaiter: &Flag) -> TaskPoll<Option<Output>> {
        match self {
            Held::Task(task) => poll_task(task, awaiter),
            Held::Fallible(task) => task.poll(awaiter),
            Held::Cancel(task) => task.poll(awaiter),
        }
    }

    /// Whether its task is finished.
    pub fn is_finished(&mut self) -> bool {
        match self {
            Held::Task(task) => task.is_finished(),
            Held::Fallible(task) => task.is_finished(),
            Held::Cancel(task) => task.is_finished(),
        }
    }

    /// The word that a witness finds.
    pub fn finds(&mut self) -> u64 {
        match self {
            Held::Task(task) => task.witness().bits(),
            Held::Fallible(task) => task.witness().bits(),
            Held::Cancel(task) => task.witness().bits(),
        }
    }

    /// How many makers were called, by its metadata, if it shows that.
    pub fn makers(&self) -> Option<u64> {
        match self {
            Held::Task(task) => Some(task.metadata().makers()),
            Held::Fallible(task) => Some(task.metadata().makers()),
            Held::Cancel(_) => None,
        }
    }

    /// Whether it shows its name, and the flags and the count of that word.
    pub fn shows(&self, fixture: &Fixture<'m, R>, word: u64) -> Result<bool, AllocError> {
        match self {
            Held::Task(task) => fixture.shows(task, "Task", word),
            Held::Fallible(task) => fixture.shows(task, "FallibleTask", word),
            Held::Cancel(task) => fixture.shows(task, "Cancel", word),
        }
    }

    /// Detaches it, if it can be.
    pub fn detach(self) -> Option<bool> {
        match self {
            Held::Task(task) => {
                task.detach();
                Some(true)
            }
            Held::Fallible(task) => {
                task.detach();
                Some(true)
            }
            Held::Cancel(_) => None,
        }
    }

    /// Discards it, if it can be.
    pub fn discard(self) -> Option<bool> {
        match self {
            Held::Task(task) => {
                task.discard();
                Some(true)
            }
            Held::Fallible(task) => {
                task.discard();
                Some(true)
            }
            Held::Cancel(_) => None,
        }
    }

    /// A FallibleTask of a Task.
    pub fn fallible(self) -> Option<Held<'x, 'm, R>> {
        match self {
            Held::Task(task) => Some(Held::Fallible(task.fallible())),
            _ => None,
        }
    }

    /// A Cancel of a Task or of a FallibleTask.
    pub fn cancel(self) -> Option<Held<'x, 'm, R>> {
        match self {
            Held::Task(task) => Some(Held::Cancel(task.cancel())),
            Held::Fallible(task) => Some(Held::Cancel(task.cancel())),
            Held::Cancel(_) => None,
        }
    }

    /// The same handle, once it was given other surroundings and these again.
    pub fn around(self, fixture: &'x Fixture<'m, R>) -> Held<'x, 'm, R> {
        let surroundings = &fixture.surroundings;
        match self {
            Held::Task(task) => Held::Task(task.with_around(()).with_around(surroundings)),
            Held::Fallible(task) => {
                Held::Fallible(task.with_around(()).with_around(surroundings))
            }
            Held::Cancel(task) => Held::Cancel(task.with_around(()).with_around(surroundings)),
        }
    }
}

fn poll_task<'m, R: Wait + Drop + Copy>(
    task: &mut RowTask<'_, 'm, R>,
    awaiter: &Flag,
) -> TaskPoll<Option<Output>> {
    match task.poll(awaiter) {
        TaskPoll::Pending => TaskPoll::Pending,
        TaskPoll::Refused => TaskPoll::Refused,
        TaskPoll::Ready(Ok(output)) => TaskPoll::Ready(Some(output)),
        TaskPoll::Ready(Err(TaskClosed)) => TaskPoll::Ready(None),
    }
}
