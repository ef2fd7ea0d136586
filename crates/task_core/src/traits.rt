//! What an executor's own types promise to a task: futures, awaiters and schedule values, each with the facts that its methods state.
ghost use Rattle.std.specs.Prelude.{◌≡◌, ⊤, Bool, Result};
ghost use Rattle.task_core.specs.Poll.{IfReady};
ghost use Rattle.task_core.specs.declared.traits.Poll.{Poll};
ghost use Rattle.task_core.specs.declared.traits.ScheduleInfo.{ScheduleInfo};

/// What a poll of a future answers.
#[derive(Debug, PartialEq, Eq, Drop)]
pub enum Poll<T> {
    /// There is no output yet. The future wakes the waker that it was lent, or a clone of it, once a further poll can help.
    Pending,
    /// The output. The future is not polled again.
    Ready(T),
}

/// What a poll of a task's handle answers.
#[derive(Debug, PartialEq, Eq, Drop)]
pub enum TaskPoll<T> {
    /// There is no answer yet. A clone of the awaiter is registered, and is woken once there is one.
    Pending,
    /// The answer. Polls of the handle end here.
    Ready(T),
    /// The awaiter refused to be cloned: nothing was registered, so nothing will be woken for this poll. Poll again.
    Refused,
}

/// What yields an output: the part of a future that knows no waker.
///
/// It is `Drop`, since a task that is cancelled drops its future unfinished, and so is its output, since a task may be dropped with its output in it.
pub trait Yields: Drop {
    /// What the future computes.
    type Output: Drop;

    // What holds of each output. Without a definition nothing is said of it.
    ghost meets: { Self.Output → Type 0 } = { λ _. ⊤ };

    // What a poll does: the future before it, its answer, and the future after it. Without a definition nothing is said of it. By it the output that a task hands out is known from the future that was spawned.
    ghost moves: { Self → Poll Self.Output → Self → Type 0 } = { λ _ _ _. ⊤ };
}

/// A future that is polled with a waker of type `W`.
pub trait Future<W>: Yields {
    // What a poll did: the future before it, the waker that it was lent, its answer, and the future after it.
    ghost polled: { Self → W → Poll Self.Output → Self → Type 0 };

    /// Carries the computation on.
    ///
    /// `waker` is lent for this poll alone. A future that answers `Poll::Pending` keeps a clone of it, and wakes that clone once a further poll can help.
    /// An output that is answered meets `meets`, and `moves` and `polled` hold of the call. After `Poll::Ready` there is no further call.
    fn poll(&mut self, waker: &W) -> Poll<Self::Output>
        ensures meets { IfReady result Self.Yields.meets }
        ensures moves { Self.Yields.moves self.old result self.new }
        ensures fact { polled self.old waker.now result self.new };
}

/// What can be woken: an awaiter, which a handle registers to learn that its task is over.
pub trait Wake: Sized + Drop {
    /// What a wake answers, and a clone that is refused: the record of the call, by which its clause says what was done; `()` where there is nothing to show.
    type Record: Drop;

    // What a wake that consumes the awaiter did, by its record.
    ghost woken: { Self → Self.Record → Type 0 };

    // What a wake that leaves the awaiter in place did, by its record.
    ghost woken_by_ref: { Self → Self.Record → Type 0 };

    // What a clone gave of an awaiter: the record of the call where it was refused.
    ghost cloned: { Self → Result Self Self.Record → Type 0 };

    // What a comparison of two awaiters answered.
    ghost compared: { Self → Self → Bool → Type 0 };

    /// Wakes what waits, and gives the awaiter up. `woken` holds of the call and its record.
    fn wake(self) -> Self::Record
        ensures { woken self result };

    /// Wakes what waits, and keeps the awaiter. `woken_by_ref` holds of the call and its record.
    fn wake_by_ref(&self) -> Self::Record
        ensures { woken_by_ref self.now result };

    /// A second awaiter that wakes the same, or the record of the call where there is none to be had, as for want of memory. `cloned` holds of the call.
    fn try_clone(&self) -> Result<Self, Self::Record>
        ensures { cloned self.now result };

    /// Whether a wake of `other` wakes the same as a wake of this one. `false` is always a right answer. `compared` holds of the call.
    fn will_wake(&self, other: &Self) -> bool
        ensures { compared self.now other.now result };
}

/// What a schedule value is told beside the Runnable.
#[derive(Clone, Copy, Debug, PartialEq, Eq)]
pub struct ScheduleInfo {
    /// Whether the task was woken while it ran, so that the run itself hands the Runnable over. An executor may then put it behind others that wait.
    pub woken_while_running: bool,
}

/// What schedules a Runnable of type `N`: the executor's side of a task.
pub trait Schedule<N> {
    // What a call did: the schedule value, the Runnable that it was handed, and what it was told beside it.
    ghost scheduled: { Self → N → ScheduleInfo → Type 0 };

    /// Takes a Runnable over, to be run later, or dropped.
    ///
    /// `info` tells why it was scheduled. `scheduled` holds of the call.
    fn schedule(&self, runnable: N, info: ScheduleInfo)
        ensures { scheduled self.now runnable info };
}

/// A schedule value that is handed both the Runnable and the `ScheduleInfo`, marked so by its type.
///
/// It schedules as the value inside does.
#[derive(Debug, Drop)]
pub struct WithInfo<Q>(pub Q);

/// Any schedule value may be marked: the value stands inside, unchanged.
impl<Q> From<Q> for WithInfo<Q> {
    ghost from_gives = { λ schedule marked. marked ≡ record { 0 = schedule } };

    fn from(schedule: Q) -> WithInfo<Q> {
        WithInfo(schedule)
    }
}

impl<N, Q: Schedule<N>> Schedule<N> for WithInfo<Q> {
    ghost scheduled = { λ marked runnable info. Q.scheduled marked.0 runnable info };

    fn schedule(&self, runnable: N, info: ScheduleInfo) {
        self.0.schedule(runnable, info)
    }
}
