//! What a task is made of, and its awaiters: values that note what is done to them.
ghost use Rattle.std.specs.Prelude.{⊤};

use crate::handles::{CarriedRunnable, CarriedWaker, HeldRunnable};
use crate::script::Moment;
use crate::stage::Stage;
use async_task::{Future, Poll, Schedule, ScheduleInfo, Wake, Yields};
use std::fmt;
use std::sync::{Arc, Wait};

/// The output of the future.
pub struct Output {
    stage: Arc<Stage>,
}

impl Drop for Output {
    fn drop(self) {
        let Output { stage } = self;
        stage.log.note("output_dropped");
        stage.reach(Moment::OutputDrop);
    }
}

/// The future, which does what the script says.
pub struct ScriptFuture {
    // The word at which its next poll begins.
    next: usize,
    stage: Arc<Stage>,
}

impl ScriptFuture {
    /// The future of a script, before its first poll.
    pub fn new(stage: Arc<Stage>) -> ScriptFuture {
        ScriptFuture { next: 0, stage }
    }

    // Ready with an output, or pending where there is none.
    fn ready(&self) -> Poll<Output> {
        match Arc::try_clone(&self.stage) {
            Ok(stage) => Poll::Ready(Output { stage }),
            Err(_) => {
                self.stage.log.lose();
                Poll::Pending
            }
        }
    }
}

impl Drop for ScriptFuture {
    fn drop(self) {
        let ScriptFuture { next: _, stage } = self;
        stage.log.note("future_dropped");
        stage.reach(Moment::FutureDrop);
    }
}

impl Yields for ScriptFuture {
    type Output = Output;
}

impl<'x, R: Wait + Drop + Copy> Future<CarriedWaker<'x, R>> for ScriptFuture {
    ghost polled = { λ _ _ _ _. ⊤ };

    fn poll(&mut self, waker: &CarriedWaker<'x, R>) -> Poll<Output> {
        self.stage.log.begin("future_polled");
        if waker.around().play_poll(&mut self.next, waker) {
            self.stage.log.end("ready");
            self.ready()
        } else {
            self.stage.log.end("pending");
            Poll::Pending
        }
    }
}

/// The metadata.
pub struct Metadata {
    stage: Arc<Stage>,
}

impl Metadata {
    /// Metadata that notes here.
    pub fn new(stage: Arc<Stage>) -> Metadata {
        Metadata { stage }
    }
}

impl fmt::Debug for Metadata {
    fn fmt<W: fmt::Write>(&self, f: &mut fmt::Formatter<W>) -> fmt::Result {
        f.write_str("Metadata")
    }
}

impl Drop for Metadata {
    fn drop(self) {
        let Metadata { stage } = self;
        stage.log.note("metadata_dropped");
        stage.reach(Moment::MetadataDrop);
    }
}

/// The schedule value.
pub struct Scheduler {
    stage: Arc<Stage>,
}

impl Scheduler {
    /// A schedule value that notes here.
    pub fn new(stage: Arc<Stage>) -> Scheduler {
        Scheduler { stage }
    }
}

impl Drop for Scheduler {
    fn drop(self) {
        let Scheduler { stage } = self;
        stage.log.note("schedule_dropped");
        stage.reach(Moment::ScheduleDrop);
    }
}

impl<'x, R: Wait + Drop + Copy> Schedule<CarriedRunnable<'x, R>> for Scheduler {
    ghost scheduled = { λ _ _ _. ⊤ };

    fn schedule(&self, runnable: CarriedRunnable<'x, R>, info: ScheduleInfo) {
        self.stage.log.begin(if info.woken_while_running {
            "scheduled_woken"
        } else {
            "scheduled"
        });
        runnable.around().accept(runnable);
        self.stage.reach(Moment::Schedule);
        self.stage.log.end("");
    }
}

// No call is made with a handle that carries nothing.
impl<R: Wait + Drop + Copy> Schedule<HeldRunnable<R>> for Scheduler {
    ghost scheduled = { λ _ _ _. ⊤ };

    fn schedule(&self, _runnable: HeldRunnable<R>, _info: ScheduleInfo) {
        self.stage.log.note("scheduled_bare");
    }
}

/// An awaiter.
pub struct Awaiter {
    number: u8,
    stage: Arc<Stage>,
}

impl Awaiter {
    /// An awaiter of that number, 0 or 1, which its clones have too.
    pub fn new(number: u8, stage: Arc<Stage>) -> Awaiter {
        Awaiter { number, stage }
    }
}

impl Drop for Awaiter {
    fn drop(self) {
        let Awaiter { number, stage } = self;
        stage.log.note_of("dropped", number);
        stage.reach(Moment::AwaiterDrop);
    }
}

impl Wake for Awaiter {
    type Record = ();

    ghost woken = { λ _ _. ⊤ };

    ghost woken_by_ref = { λ _ _. ⊤ };

    ghost cloned = { λ _ _. ⊤ };

    ghost compared = { λ _ _ _. ⊤ };

    fn wake(self) {
        let Awaiter { number, stage } = self;
        stage.log.note_of("woken", number);
        stage.reach(Moment::AwaiterWake);
    }

    fn wake_by_ref(&self) {
        self.stage.log.note_of("woken_by_ref", self.number);
        self.stage.reach(Moment::AwaiterWake);
    }

    fn try_clone(&self) -> Result<Awaiter, ()> {
        let Ok(stage) = Arc::try_clone(&self.stage) else {
            return Err(());
        };
        stage.log.note_of("cloned", self.number);
        stage.reach(Moment::AwaiterClone);
        Ok(Awaiter {
            number: self.number,
            stage,
        })
    }

    fn will_wake(&self, other: &Awaiter) -> bool {
        self.number == other.number
    }
}
