//! What a change has found, and what a word says to who found it.
ghost use Rattle.std.specs.Prelude.{◌≡◌, not, ◌&&◌};
ghost use Rattle.task_laws.specs.Table.{is_held as has_handle};
ghost use Rattle.task_steps.specs.WakerScripts.{others_left, dropped_by};
ghost use Rattle.task_steps.specs.PollScripts.{has_output, has_ended, has_to_wait};

use task_core::acts::Act::{ClaimOutput, DropWaker, GiveUpReference};
use task_core::word::Word;

/// What a wake of an open task found.
#[derive(Drop)]
pub enum Woken {
    /// The task was scheduled.
    Scheduled,
    /// The task was running.
    Running,
    /// The task waited for a wake, and a Runnable is to be handed over.
    Idle,
}

/// Whether the task has a handle: its Task, or one that holds a reference.
pub fn is_held(word: Word) -> bool
    ensures { result ≡ has_handle word }
{
    word.task() || word.references() > 0
}

/// What a waker's drop found.
pub enum Dropped {
    /// Other handles were left.
    Shared,
    /// No other handle was left, and the task was over.
    Last,
    /// No other handle was left, and the task was open.
    Orphaned,
}

/// What the drop found that took its reference off this word.
pub fn dropped_as(word: Word) -> Dropped
    ensures { result ≡ dropped_by word }
{
    if word.fits(0, DropWaker) {
        Dropped::Shared
    } else if word.is_open() {
        Dropped::Orphaned
    } else {
        Dropped::Last
    }
}

/// Whether the party that took its reference off this word had the last handle.
pub fn is_last(word: Word) -> bool
    ensures { result ≡ not (others_left word) }
{
    !word.fits(0, GiveUpReference)
}

/// How a run of an open task ends whose poll answered Pending.
#[derive(Drop)]
pub enum PendingEnd {
    /// The task was woken meanwhile: the run's Runnable is to be handed over.
    Rescheduled,
    /// The task waits for a wake, and the call has ended.
    Idle,
    /// No handle is left: a closing Runnable is to be handed over.
    Orphaned,
}

/// Whether somebody may claim the output of a run that finds this word.
pub fn keeps_output(found: Word) -> bool
    ensures { result ≡ (found.task && not found.closed) }
{
    found.task() && !found.closed()
}

/// What a cancel found that closed the task, and whether an awaiter is to be taken.
#[derive(Drop)]
pub enum Cancelled {
    /// The task was scheduled or running.
    Busy(bool),
    /// The task waited for a wake, and a Runnable is to be handed over.
    Idle(bool),
}

/// What a detach found.
#[derive(Drop)]
pub enum Detached {
    /// The task was completed, and nobody had claimed the output.
    Unclaimed,
    /// Other handles were left.
    Shared,
    /// No other handle was left, and the task was closed.
    Last,
    /// No other handle was left, and the task was open.
    Orphaned,
}

/// The output is there, and nobody has taken it.
pub fn has_output(word: Word) -> bool
    ensures { result ≡ has_output word }
{
    word.fits(0, ClaimOutput)
}

/// The task is closed, and no Runnable or run holds the future.
pub fn has_ended(word: Word) -> bool
    ensures { result ≡ has_ended word }
{
    word.closed() && !(word.scheduled() || word.running())
}

/// A poll that has registered waits on.
pub fn has_to_wait(word: Word) -> bool
    ensures { result ≡ has_to_wait word }
{
    if word.closed() {
        word.scheduled() || word.running()
    } else {
        !word.completed()
    }
}
