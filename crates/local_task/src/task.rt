//! A task for executors of one thread: one owned value, whose owner keeps the queue. It asks for no memory and waits for nobody.
//!
//! Each call is a row of the abstract task, as the whole calls on a shared cell are. Calls may stand between `start` and `settle`: the poll of a future
//! may wake its own task, or drop its Task.
ghost use Rattle.std.specs.Prelude.{◌≡◌, true, false, if◌then◌else◌};
ghost use Rattle.local_task.specs.LocalCalls.{CallsAreSound};

#[cfg(test)]
mod tests;

use std::marker::Model;
use std::mem;
use task_core::traits::{Poll, ScheduleInfo, TaskPoll, Wake};
use task_core::word::LIMIT;

/// What is left to do after a call. The owner does it in the order of the fields: it drops `future` and `output`, puts the task into its queue if
/// `queue` is there, wakes `wake`, and drops `dropped`.
#[derive(Debug, PartialEq, Eq, Drop)]
pub struct Settled<F, T, A> {
    /// The future, which is polled no more.
    pub future: Option<F>,
    /// An output that nobody claims any more.
    pub output: Option<T>,
    /// The task is to be put into the queue, once. `woken_while_running` tells whether it was woken between `start` and `settle`.
    pub queue: Option<ScheduleInfo>,
    /// The awaiter of the last poll that answered Pending, to be woken.
    pub wake: Option<A>,
    /// An awaiter that nobody has to wake.
    pub dropped: Option<A>,
    /// Nobody is left, neither the Task nor a waker, and nothing in the task.
    pub emptied: bool,
}

impl<F: Drop, T: Drop, A: Drop> Settled<F, T, A> {
    // There is nothing to do.
    fn nothing() -> Settled<F, T, A>
        ensures { result ≡ record {
          future = None;
          output = None;
          queue = None;
          wake = None;
          dropped = None;
          emptied = false;
        } }
    {
        Settled {
            future: None,
            output: None,
            queue: None,
            wake: None,
            dropped: None,
            emptied: false,
        }
    }

    // What the task held is to be dropped.
    fn dropping(future: Option<F>, output: Option<T>) -> Settled<F, T, A>
        ensures { result ≡ record {
          future = future;
          output = output;
          queue = None;
          wake = None;
          dropped = None;
          emptied = false;
        } }
    {
        let mut settled = Settled::nothing();
        settled.future = future;
        settled.output = output;
        settled
    }

    // An awaiter is to be dropped, or else woken.
    fn of_awaiter(awaiter: A, is_dropped: bool) -> Settled<F, T, A>
        ensures { result ≡ record {
          future = None;
          output = None;
          queue = None;
          wake = if is_dropped then None else Some awaiter;
          dropped = if is_dropped then Some awaiter else None;
          emptied = false;
        } }
    {
        let mut settled = Settled::nothing();
        if is_dropped {
            settled.dropped = Some(awaiter);
        } else {
            settled.wake = Some(awaiter);
        }
        settled
    }

    // The task is to be queued.
    fn queued(woken_while_running: bool) -> Settled<F, T, A>
        ensures { result ≡ record {
          future = None;
          output = None;
          queue = Some (record { woken_while_running = woken_while_running });
          wake = None;
          dropped = None;
          emptied = false;
        } }
    {
        let mut settled = Settled::nothing();
        settled.queue = Some(info(woken_while_running));
        settled
    }
}

// Why a task is to be queued.
fn info(woken_while_running: bool) -> ScheduleInfo
    ensures { result ≡ record { woken_while_running = woken_while_running } }
{
    ScheduleInfo {
        woken_while_running,
    }
}

/// What `LocalTask::start` answers.
#[derive(Debug, PartialEq, Eq, Drop)]
pub enum Start<F, T, A> {
    /// The future, to be polled once. `LocalTask::settle` takes it back, with the answer of the poll.
    Poll(F),
    /// The task was closed: it has ended, and its future is not polled.
    Ended(Settled<F, T, A>),
    /// The task was not queued: nothing has changed.
    NotDue,
}

// Whether the task was closed while it still has its future.
#[derive(Clone, Copy)]
enum Status {
    Open,
    Closed,
}

use Status::{Closed, Open};

// Where the future is, or what came of it.
#[derive(Drop)]
enum Stage<F, T> {
    Idle(F),
    Queued(F, Status),
    Polling(Status),
    Woken(Status),
    Completed(T),
    Ended,
}

/// A task of one thread, as a value. Contracts see it as the abstract task, with the metadata beside it.
///
/// Its handles are the owner's affair: the one Task, the wakers, and the Runnable, which is the task's place in the queue. The owner says by a call what
/// was done to one of them. A waker may be any value of the owner's, as an index.
#[derive(Drop)]
pub struct LocalTask<F, T, M, A> {
    metadata: M,
    stage: Stage<F, T>,
    has_task: bool,
    wakers: u64,
    awaiter: Option<A>,
    forgotten: bool,
}

impl<F, T, M, A> Model for LocalTask<F, T, M, A> {
    ghost use Rattle.std.specs.Prelude.{◌≤◌};
    ghost use Rattle.task_core.specs.declared.word.TheConstants.{LIMIT};
    ghost use Rattle.local_task.specs.LocalTask.{Owned, phase_of, is_closed, future_of, output_of, awaiter_of};

    ghost Value = { Owned F T M A };

    ghost view = { λ t. record {
      task = record {
        phase = phase_of t.stage;
        closed = is_closed t.stage;
        has_task = t.has_task;
        wakers = t.wakers;
        future = future_of t.stage;
        output = output_of t.stage;
        awaiter = awaiter_of t.forgotten t.awaiter;
      };
      metadata = t.metadata;
    } };

    ghost invariant = { λ t. t.wakers ≤ LIMIT };
}

/// For every list of calls from a new task on, each made where its condition holds: what is true of a task between any two calls. The contract of each
/// call is its row of the list.
pub fn laws<F, T, A>()
    ensures calls { CallsAreSound F T A LIMIT }
{}

/// What can be seen of a task.
impl<F, T, M, A> LocalTask<F, T, M, A> {
    ghost use Rattle.task_core.specs.Local as local;

    /// The metadata that `new` was given.
    pub fn metadata(&self) -> &M
        ensures { result.now ≡ self.now.metadata }
    {
        &self.metadata
    }

    /// How many wakers there are.
    pub fn wakers(&self) -> u64
        ensures { result ≡ self.now.task.wakers }
    {
        self.wakers
    }

    /// Whether the Task is there: neither detached nor dropped.
    pub fn has_task(&self) -> bool
        ensures { result ≡ self.now.task.has_task }
    {
        self.has_task
    }

    /// Whether the task is in the queue, or is to be put there: `start` is due.
    pub fn is_queued(&self) -> bool
        ensures { result ≡ local.is_queued self.now.task.phase }
    {
        matches!(self.stage, Stage::Queued(_, _))
    }

    /// Whether `start` has handed the future out: `settle` is due.
    pub fn is_started(&self) -> bool
        ensures { result ≡ local.is_started self.now.task.phase }
    {
        matches!(self.stage, Stage::Polling(_) | Stage::Woken(_))
    }

    /// Whether the task is completed or closed.
    pub fn is_finished(&self) -> bool
        ensures { result ≡ local.finished self.now.task }
    {
        match self.stage {
            Stage::Idle(_) => false,
            Stage::Queued(_, status) => matches!(status, Closed),
            Stage::Polling(status) | Stage::Woken(status) => matches!(status, Closed),
            Stage::Completed(_) | Stage::Ended => true,
        }
    }

    /// Whether the future has gone, and neither the Task nor a waker is left.
    pub fn is_emptied(&self) -> bool
        ensures { result ≡ local.is_emptied self.now.task }
    {
        self.is_done() && !self.has_task && self.wakers == 0
    }

    // The future has gone.
    fn is_done(&self) -> bool
        ensures { result ≡ local.is_done self.now.task.phase }
    {
        matches!(self.stage, Stage::Completed(_) | Stage::Ended)
    }

    // A Runnable, or the run that took it up, holds a reference.
    fn holds_reference(&self) -> bool
        ensures { result ≡ local.holds_reference self.now.task.phase }
    {
        self.is_queued() || self.is_started()
    }

    // Whether there are fewer references than the limit.
    fn has_room(&self) -> bool
        ensures { result ≡ local.has_room LIMIT self.now.task }
    {
        let held = if self.holds_reference() { 1 } else { 0 };
        self.wakers + held < LIMIT
    }
}

/// The calls of the executor.
impl<F: Drop, T: Drop, M, A: Drop> LocalTask<F, T, M, A> {
    ghost use Rattle.task_core.specs.Local.{opening_task, starts, settles, discards};
    ghost use Rattle.task_core.specs.Local as local;
    ghost use Rattle.local_task.specs.LocalTask.{effect_of, started_of};

    /// A task with its Task and without wakers. It is queued: the owner puts it into the queue. `future` is what `start` will hand out; `metadata` is kept
    /// beside it.
    pub fn new(metadata: M, future: F) -> LocalTask<F, T, M, A>
        ensures task { result.task ≡ opening_task future }
        ensures metadata { result.metadata ≡ metadata }
    {
        LocalTask {
            metadata,
            stage: Stage::Queued(future, Open),
            has_task: true,
            wakers: 0,
            awaiter: None,
            forgotten: false,
        }
    }

    /// The task was taken from the queue: its future is to be polled, or the task was closed and has ended. A task that is not queued stays as it is.
    pub fn start(&mut self) -> Start<F, T, A>
        ensures effect { started_of self.new.task result ≡ starts self.old.task }
        ensures metadata { self.new.metadata ≡ self.old.metadata }
    {
        let (stage, start) = match mem::replace(&mut self.stage, Stage::Ended) {
            Stage::Queued(future, Open) => (Stage::Polling(Open), Start::Poll(future)),
            Stage::Queued(future, Closed) => return Start::Ended(self.finish(future, None)),
            stage => (stage, Start::NotDue),
        };
        self.stage = stage;
        start
    }

    /// `future`, which `start` handed out, was polled and has answered `polled`. One that answered Pending stays in the task, unless the task was closed
    /// meanwhile. The task is queued again if it was woken meanwhile, and for the last time if nobody is left to wake it.
    pub fn settle(&mut self, future: F, polled: Poll<T>) -> Settled<F, T, A>
        requires { local.is_started self.old.task.phase ≡ true }
        ensures effect { effect_of self.new.task result ≡ settles future polled self.old.task }
        ensures metadata { self.new.metadata ≡ self.old.metadata }
    {
        match polled {
            Poll::Ready(output) => self.complete(future, output),
            Poll::Pending => self.suspend(future),
        }
    }

    // The future answered Ready.
    fn complete(&mut self, future: F, output: T) -> Settled<F, T, A>
        requires { local.is_started self.old.task.phase ≡ true }
        ensures effect { effect_of self.new.task result ≡ settles future (Poll.Ready output) self.old.task }
        ensures metadata { self.new.metadata ≡ self.old.metadata }
    {
        let (stage, output) = if self.has_task && !self.is_finished() {
            (Stage::Completed(output), None)
        } else {
            (Stage::Ended, Some(output))
        };
        self.stage = stage;
        self.finish(future, output)
    }

    // The future answered Pending.
    fn suspend(&mut self, future: F) -> Settled<F, T, A>
        requires { local.is_started self.old.task.phase ≡ true }
        ensures effect { effect_of self.new.task result ≡ settles future Poll.Pending self.old.task }
        ensures metadata { self.new.metadata ≡ self.old.metadata }
    {
        if self.is_finished() {
            self.stage = Stage::Ended;
            return self.finish(future, None);
        }
        if matches!(self.stage, Stage::Woken(_)) {
            self.stage = Stage::Queued(future, Open);
            return Settled::queued(true);
        }
        self.stage = Stage::Idle(future);
        self.end_if_abandoned()
    }

    /// The Runnable was dropped in place of being run: the task is closed and ends, and its future is not polled.
    pub fn discard_runnable(&mut self) -> Settled<F, T, A>
        requires { local.is_queued self.old.task.phase ≡ true }
        ensures effect { effect_of self.new.task result ≡ discards self.old.task }
        ensures metadata { self.new.metadata ≡ self.old.metadata }
    {
        match mem::replace(&mut self.stage, Stage::Ended) {
            Stage::Queued(future, _) => self.finish(future, None),
            _ => unreachable!(),
        }
    }
}

/// The calls of wakers.
impl<F: Drop, T: Drop, M, A: Drop> LocalTask<F, T, M, A> {
    ghost use Rattle.std.specs.Prelude.{◌<◌};
    ghost use Rattle.task_core.specs.Local.{becomes, wakes, has_room, gains_waker, drops_waker};
    ghost use Rattle.task_core.specs.Local as local;
    ghost use Rattle.local_task.specs.LocalTask.{effect_of, queued_of};

    /// A waker wakes the task. `Some` where the owner is to put it into the queue; a task that is queued, over, or between `start` and `settle`
    /// is not put there by this call.
    pub fn wake(&mut self) -> Option<ScheduleInfo>
        ensures effect { queued_of self.new.task result ≡ wakes self.old.task }
        ensures metadata { self.new.metadata ≡ self.old.metadata }
    {
        let is_idle = matches!(self.stage, Stage::Idle(_));
        self.stage = match mem::replace(&mut self.stage, Stage::Ended) {
            Stage::Idle(future) => Stage::Queued(future, Open),
            Stage::Polling(Open) => Stage::Woken(Open),
            stage => stage,
        };
        if is_idle { Some(info(false)) } else { None }
    }

    /// There is one waker more. `false` where the references, the wakers and that of a Runnable or a run, have reached `LIMIT`: nothing has changed.
    pub fn add_waker(&mut self) -> bool
        requires { local.is_emptied self.old.task ≡ false }
        ensures effect { becomes self.new.task ≡ gains_waker LIMIT self.old.task }
        ensures room { result ≡ has_room LIMIT self.old.task }
        ensures metadata { self.new.metadata ≡ self.old.metadata }
    {
        if !self.has_room() {
            return false;
        }
        self.wakers += 1;
        true
    }

    /// A waker was dropped. Where nobody is left to wake an idle task, it is closed and queued, for its future to be dropped.
    pub fn drop_waker(&mut self) -> Settled<F, T, A>
        requires { 0 < self.old.task.wakers }
        ensures effect { effect_of self.new.task result ≡ drops_waker self.old.task }
        ensures metadata { self.new.metadata ≡ self.old.metadata }
    {
        self.wakers -= 1;
        self.end_if_abandoned()
    }
}

/// The calls of the Task.
impl<F: Drop, T: Drop, M, A: Drop> LocalTask<F, T, M, A> {
    ghost use Rattle.task_core.specs.Local.{cancels, detaches};
    ghost use Rattle.local_task.specs.LocalTask.{effect_of};

    /// The Task cancels the task: it is closed, unless it is over. An idle one is queued, for its future to be dropped.
    pub fn cancel(&mut self) -> Settled<F, T, A>
        requires { self.old.task.has_task ≡ true }
        ensures effect { effect_of self.new.task result ≡ cancels self.old.task }
        ensures metadata { self.new.metadata ≡ self.old.metadata }
    {
        if self.is_finished() {
            return Settled::nothing();
        }
        let settled = self.close();
        self.take_awaiter(settled)
    }

    /// The Task is given up, and the task goes on. An output that the Task has not claimed is dropped. An idle task without wakers is closed and
    /// queued, for its future to be dropped. The Task's drop is a `cancel` and then a `detach`.
    pub fn detach(&mut self) -> Settled<F, T, A>
        requires { self.old.task.has_task ≡ true }
        ensures effect { effect_of self.new.task result ≡ detaches self.old.task }
        ensures metadata { self.new.metadata ≡ self.old.metadata }
    {
        self.has_task = false;
        match mem::replace(&mut self.stage, Stage::Ended) {
            Stage::Completed(output) => {
                let settled = Settled::dropping(None, Some(output));
                self.empty(settled)
            }
            stage => {
                self.stage = stage;
                self.end_if_abandoned()
            }
        }
    }
}

/// A poll of the Task.
impl<F: Drop, T: Drop, M, A: Wake> LocalTask<F, T, M, A> {
    ghost use Rattle.local_task.specs.LocalTask.{answered_of, Claims, Registers};
    ghost use Rattle.task_core.specs.Local as local;

    /// The Task is polled by `awaiter`. Where the future has gone the answer is ready: with the output, or with `None` if the task was closed or the output
    /// claimed. Else it is Pending, and a clone of the awaiter is stored in place of the one before; or `Refused`, where the awaiter refuses to be
    /// cloned: nothing has changed.
    pub fn poll(&mut self, awaiter: &A) -> (TaskPoll<Option<T>>, Settled<F, T, A>)
        requires { self.old.task.has_task ≡ true }
        ensures done { local.is_done self.old.task.phase ≡ true →
            Claims (λ a same. A.compared a awaiter.now same) self.old.task (answered_of self.new.task result) }
        ensures not_done { local.is_done self.old.task.phase ≡ false →
            Registers (A.cloned awaiter.now) self.old.task (answered_of self.new.task result) }
        ensures metadata { self.new.metadata ≡ self.old.metadata }
    {
        if self.is_done() {
            self.claim(awaiter)
        } else {
            self.register(awaiter)
        }
    }

    // The future has gone: the output is handed out, if it is there, and the stored awaiter is woken, unless the caller's wakes the same.
    fn claim(&mut self, awaiter: &A) -> (TaskPoll<Option<T>>, Settled<F, T, A>)
        requires { local.is_done self.old.task.phase ≡ true }
        ensures done { Claims (λ a same. A.compared a awaiter.now same) self.old.task (answered_of self.new.task result) }
        ensures metadata { self.new.metadata ≡ self.old.metadata }
    {
        let output = match mem::replace(&mut self.stage, Stage::Ended) {
            Stage::Completed(output) => Some(output),
            _ => None,
        };
        let Some(stored) = self.awaiter.take() else {
            return (TaskPoll::Ready(output), Settled::nothing());
        };
        let same = stored.will_wake(awaiter);
        (TaskPoll::Ready(output), Settled::of_awaiter(stored, same))
    }

    // The task is not over: a clone of the awaiter is stored.
    fn register(&mut self, awaiter: &A) -> (TaskPoll<Option<T>>, Settled<F, T, A>)
        ensures not_done { Registers (A.cloned awaiter.now) self.old.task (answered_of self.new.task result) }
        ensures metadata { self.new.metadata ≡ self.old.metadata }
    {
        let Ok(clone) = awaiter.try_clone() else {
            return (TaskPoll::Refused, Settled::nothing());
        };
        let mut settled = Settled::nothing();
        settled.dropped = mem::replace(&mut self.awaiter, Some(clone));
        self.forgotten = false;
        (TaskPoll::Pending, settled)
    }
}

// The parts of the calls.
impl<F: Drop, T: Drop, M, A: Drop> LocalTask<F, T, M, A> {
    ghost use Rattle.task_core.specs.Local.{becomes, takes, empties, loses_at, cancels_at};
    ghost use Rattle.local_task.specs.LocalTask.{effect_of};

    // The future has gone: the awaiter is taken, and the task is emptied if nobody is left.
    fn finish(&mut self, future: F, output: Option<T>) -> Settled<F, T, A>
        ensures effect { effect_of self.new.task result ≡
            empties (takes (record (becomes self.old.task) { future = Some future; output = output })) }
        ensures metadata { self.new.metadata ≡ self.old.metadata }
    {
        let settled = self.take_awaiter(Settled::dropping(Some(future), output));
        self.empty(settled)
    }

    // An awaiter that is not forgotten is handed out, to be woken.
    fn take_awaiter(&mut self, mut settled: Settled<F, T, A>) -> Settled<F, T, A>
        ensures effect { effect_of self.new.task result ≡ takes (effect_of self.old.task settled) }
        ensures metadata { self.new.metadata ≡ self.old.metadata }
    {
        settled.wake = if self.forgotten {
            None
        } else {
            self.awaiter.take()
        };
        settled
    }

    // Where nobody is left, a stored awaiter is handed out, to be dropped.
    fn empty(&mut self, mut settled: Settled<F, T, A>) -> Settled<F, T, A>
        ensures effect { effect_of self.new.task result ≡ empties (effect_of self.old.task settled) }
        ensures metadata { self.new.metadata ≡ self.old.metadata }
    {
        if !self.has_task && self.wakers == 0 && !self.holds_reference() {
            settled.dropped = self.awaiter.take();
            settled.emptied = true;
        }
        settled
    }

    // Where nobody is left, an idle task is closed and queued, and one that is done is emptied.
    fn end_if_abandoned(&mut self) -> Settled<F, T, A>
        ensures effect { effect_of self.new.task result ≡ empties (loses_at self.old.task.phase self.old.task) }
        ensures metadata { self.new.metadata ≡ self.old.metadata }
    {
        let is_idle = matches!(self.stage, Stage::Idle(_));
        if self.has_task || self.wakers > 0 || !is_idle {
            return self.empty(Settled::nothing());
        }
        self.forgotten = true;
        self.close()
    }

    // The task is closed, if it is not over, and queued if it is idle.
    fn close(&mut self) -> Settled<F, T, A>
        ensures effect { effect_of self.new.task result ≡ cancels_at self.old.task.phase self.old.task }
        ensures metadata { self.new.metadata ≡ self.old.metadata }
    {
        let is_idle = matches!(self.stage, Stage::Idle(_));
        self.stage = match mem::replace(&mut self.stage, Stage::Ended) {
            Stage::Idle(future) | Stage::Queued(future, _) => Stage::Queued(future, Closed),
            Stage::Polling(_) => Stage::Polling(Closed),
            Stage::Woken(_) => Stage::Woken(Closed),
            stage => stage,
        };
        if is_idle {
            Settled::queued(false)
        } else {
            Settled::nothing()
        }
    }
}
