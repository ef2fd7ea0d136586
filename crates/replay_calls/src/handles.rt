//! The handles of the task of a script, and the calls on them. A handle is taken out for each call, so that no lock is held while it is made.

use crate::script::{Call, Way, Word};
use crate::stage::Stage;
use crate::values::{Awaiter, Metadata, Output, Scheduler, ScriptFuture};
use async_task::{Builder, Cancel, FallibleTask, Runnable, Task, TaskClosed, TaskPoll, TaskWaker};
use std::alloc::{AllocError, Global};
use std::sync::{Arc, Mutex, Wait};

/// A Runnable with its surroundings.
pub type CarriedRunnable<'x, R> = Runnable<
    R,
    ScriptFuture,
    Scheduler,
    Metadata,
    Awaiter,
    &'x Handles<R>,
>;

/// A waker with its surroundings.
pub type CarriedWaker<'x, R> = TaskWaker<
    R,
    ScriptFuture,
    Scheduler,
    Metadata,
    Awaiter,
    &'x Handles<R>,
>;

/// A Runnable as it is kept.
pub type HeldRunnable<R> = Runnable<R, ScriptFuture, Scheduler, Metadata, Awaiter, ()>;

type CarriedTask<'x, R> = Task<R, ScriptFuture, Scheduler, Metadata, Awaiter, &'x Handles<R>>;

type HeldWaker<R> = TaskWaker<R, ScriptFuture, Scheduler, Metadata, Awaiter, ()>;

// What is left of the Task.
#[derive(Drop)]
enum HeldTask<R: Wait + Drop + Copy> {
    Task(Task<R, ScriptFuture, Scheduler, Metadata, Awaiter, ()>),
    Fallible(FallibleTask<R, ScriptFuture, Scheduler, Metadata, Awaiter, ()>),
    Cancel(Cancel<R, ScriptFuture, Scheduler, Metadata, Awaiter, ()>),
}

/// The handles of a task, which are its surroundings too. They are kept without surroundings.
#[derive(Drop)]
pub struct Handles<R: Wait + Drop + Copy> {
    rt: R,
    alloc: Global,
    stage: Arc<Stage>,
    way: Way,
    polls: Vec<Word>,
    awaiters: (Awaiter, Awaiter),
    runnable: Mutex<Option<HeldRunnable<R>>>,
    wakers: Mutex<Vec<HeldWaker<R>>>,
    task: Mutex<Option<HeldTask<R>>>,
}

impl<R: Wait + Drop + Copy> Handles<R> {
    /// No handles yet, of a task that notes on this stage. `way` and `polls` are those of a script.
    pub fn new(
        rt: R,
        alloc: Global,
        stage: Arc<Stage>,
        way: Way,
        polls: Vec<Word>,
    ) -> Result<Handles<R>, AllocError> {
        let awaiters = (
            Awaiter::new(0, Arc::try_clone(&stage)?),
            Awaiter::new(1, Arc::try_clone(&stage)?),
        );
        Ok(Handles {
            rt,
            alloc,
            stage,
            way,
            polls,
            awaiters,
            runnable: Mutex::new(None),
            wakers: Mutex::new(Vec::new(alloc)),
            task: Mutex::new(None),
        })
    }

    /// Spawns the task, makes the calls of a script, and drops all handles that are left.
    pub fn play(&self, calls: &[Call]) -> Result<(), AllocError> {
        self.spawn()?;
        for call in calls {
            self.call_outside(*call);
        }
        self.end();
        Ok(())
    }

    /// Makes the calls inside foreign code that the thread of this number is asked for, until the script has ended.
    pub fn serve(&self, number: usize) {
        for _ in self.rt.forever() {
            let Some(calls) = self.stage.next(&self.rt, number) else {
                return;
            };
            self.stage.log.begin("inside");
            for call in calls.iter() {
                self.call_outside(*call);
            }
            self.stage.log.end("");
            self.stage.finish(number);
        }
    }

    // Spawns the task, and keeps its Runnable and its Task.
    fn spawn(&self) -> Result<(), AllocError> {
        let future = ScriptFuture::new(Arc::try_clone(&self.stage)?);
        let schedule = Scheduler::new(Arc::try_clone(&self.stage)?);
        let builder = Builder::new().metadata(Metadata::new(Arc::try_clone(&self.stage)?));
        let spawned = builder.spawn(self.rt, self.alloc, |_| future, schedule, self);
        let (runnable, task): (CarriedRunnable<'_, R>, CarriedTask<'_, R>) = spawned.map_err(
            |_| AllocError,
        )?;
        self.keep_runnable(runnable);
        self.keep_task(task);
        Ok(())
    }

    /// Takes a Runnable that was scheduled.
    pub fn accept<'x>(&'x self, runnable: CarriedRunnable<'x, R>) {
        match self.way {
            Way::Keeps => self.keep_runnable(runnable),
            Way::Shows => {
                self.stage.log.show(&runnable);
                self.keep_runnable(runnable);
            }
            Way::Drops => drop(runnable),
        }
    }

    /// Plays the poll that begins at the word `next`, moves `next` behind it, and answers whether the poll is ready.
    pub fn play_poll<'x>(&'x self, next: &mut usize, lent: &CarriedWaker<'x, R>) -> bool {
        for word in self.polls.iter().skip(*next) {
            *next = next.saturating_add(1);
            match word {
                Word::Polled | Word::Pending | Word::Inside(_) | Word::Done => return false,
                Word::Ready => return true,
                Word::Call(Call::Keep) => self.keep_clone("keep", lent),
                Word::Call(Call::WakeLent) => self.wake_by("wake_lent", lent),
                Word::Call(call) => self.call(*call),
            }
        }
        false
    }

    // A call that is made outside of a poll.
    fn call_outside(&self, call: Call) {
        match call {
            Call::Run => self.run(),
            Call::Schedule => self.schedule(),
            Call::DropRunnable => {
                self.drop_runnable();
            }
            Call::Waker => self.waker(),
            _ => self.call(call),
        }
    }

    // Drops all handles that are left, also those that come meanwhile.
    fn end(&self) {
        self.stage.log.begin("end");
        for _ in self.rt.forever() {
            if !(self.drop_waker() || self.drop_task() || self.drop_runnable()) {
                break;
            }
        }
        self.stage.log.end("");
    }

    // A call that may be made inside a poll too.
    fn call(&self, call: Call) {
        match call {
            Call::Wake => self.wake(),
            Call::WakeByRef => self.wake_by_ref(),
            Call::CloneWaker => self.clone_waker(),
            Call::DropWaker => {
                self.drop_waker();
            }
            Call::Poll(number) => self.poll(number),
            Call::Fallible => self.fallible(),
            Call::Cancel => self.cancel(),
            Call::Detach => self.detach(),
            Call::DropTask => {
                self.drop_task();
            }
            Call::IsFinished => self.is_finished(),
            Call::Show => self.show(),
            _ => {}
        }
    }
}

/// The calls on the Runnable.
impl<R: Wait + Drop + Copy> Handles<R> {
    fn keep_runnable<'x>(&'x self, runnable: CarriedRunnable<'x, R>) {
        *self.runnable.lock(&self.rt) = Some(runnable.with_around(()));
    }

    fn runnable(&self) -> Option<CarriedRunnable<'_, R>> {
        let held = self.runnable.lock(&self.rt).take()?;
        Some(held.with_around(self))
    }

    fn run(&self) {
        let Some(runnable) = self.runnable() else {
            return;
        };
        self.stage.log.begin("run");
        let (woken, _) = runnable.run();
        self.stage.log.end_with(woken);
    }

    fn schedule(&self) {
        let Some(runnable) = self.runnable() else {
            return;
        };
        self.stage.log.begin("schedule");
        runnable.schedule();
        self.stage.log.end("");
    }

    fn drop_runnable(&self) -> bool {
        let Some(runnable) = self.runnable() else {
            return false;
        };
        self.stage.log.begin("drop_runnable");
        drop(runnable);
        self.stage.log.end("");
        true
    }

    fn waker(&self) {
        let Some(runnable) = self.runnable() else {
            return;
        };
        self.stage.log.note("waker");
        self.keep_waker(runnable.waker().ok());
        self.keep_runnable(runnable);
    }
}

/// The calls on wakers.
impl<R: Wait + Drop + Copy> Handles<R> {
    fn keep_waker<'x>(&'x self, given: Option<CarriedWaker<'x, R>>) {
        let Some(waker) = given else {
            self.stage.log.note("refused");
            return;
        };
        let pushed = self.wakers.lock(&self.rt).push(waker.with_around(()));
        if pushed.is_err() {
            self.stage.log.lose();
        }
    }

    // The waker that was kept last.
    fn last_waker(&self) -> Option<CarriedWaker<'_, R>> {
        let last = self.wakers.lock(&self.rt).pop();
        Some(last?.with_around(self))
    }

    fn keep_clone<'x>(&'x self, call: &str, waker: &CarriedWaker<'x, R>) {
        self.stage.log.note(call);
        self.keep_waker(waker.try_clone().ok());
    }

    fn wake_by<'x>(&'x self, call: &str, waker: &CarriedWaker<'x, R>) {
        self.stage.log.begin(call);
        waker.wake_by_ref();
        self.stage.log.end("");
    }

    fn wake(&self) {
        let Some(waker) = self.last_waker() else {
            return;
        };
        self.stage.log.begin("wake");
        waker.wake();
        self.stage.log.end("");
    }

    fn wake_by_ref(&self) {
        let Some(waker) = self.last_waker() else {
            return;
        };
        self.wake_by("wake_by_ref", &waker);
        self.keep_waker(Some(waker));
    }

    fn clone_waker(&self) {
        let Some(waker) = self.last_waker() else {
            return;
        };
        self.keep_clone("clone", &waker);
        self.keep_waker(Some(waker));
    }

    fn drop_waker(&self) -> bool {
        let Some(waker) = self.last_waker() else {
            return false;
        };
        self.stage.log.begin("drop_waker");
        drop(waker);
        self.stage.log.end("");
        true
    }
}

/// The calls on the Task.
impl<R: Wait + Drop + Copy> Handles<R> {
    fn held_task(&self) -> Option<HeldTask<R>> {
        self.task.lock(&self.rt).take()
    }

    fn hold_task(&self, held: Option<HeldTask<R>>) {
        *self.task.lock(&self.rt) = held;
    }

    fn keep_task(&self, task: CarriedTask<'_, R>) {
        self.hold_task(Some(HeldTask::Task(task.with_around(()))));
    }

    fn poll(&self, number: u8) {
        let Some(task) = self.held_task() else {
            return;
        };
        self.stage
            .log
            .begin(if number == 0 { "poll0" } else { "poll1" });
        let awaiter = if number == 0 {
            &self.awaiters.0
        } else {
            &self.awaiters.1
        };
        match task {
            HeldTask::Task(task) => self.poll_task(task.with_around(self), awaiter),
            HeldTask::Fallible(task) => self.poll_fallible(task, awaiter),
            HeldTask::Cancel(task) => self.poll_cancel(task, awaiter),
        }
    }

    fn poll_task<'x>(&'x self, task: CarriedTask<'x, R>, awaiter: &Awaiter) {
        let mut task = task;
        let answer = match task.poll(awaiter) {
            TaskPoll::Pending => TaskPoll::Pending,
            TaskPoll::Refused => TaskPoll::Refused,
            TaskPoll::Ready(Ok(output)) => TaskPoll::Ready(Some(output)),
            TaskPoll::Ready(Err(TaskClosed)) => TaskPoll::Ready(None),
        };
        self.keep_task(task);
        self.end_poll(answer);
    }

    fn poll_fallible(
        &self,
        task: FallibleTask<R, ScriptFuture, Scheduler, Metadata, Awaiter, ()>,
        awaiter: &Awaiter,
    ) {
        let mut task = task.with_around(self);
        let answer = task.poll(awaiter);
        self.hold_task(Some(HeldTask::Fallible(task.with_around(()))));
        self.end_poll(answer);
    }

    // A Cancel that is ready is dropped, as a future that was awaited.
    fn poll_cancel(
        &self,
        task: Cancel<R, ScriptFuture, Scheduler, Metadata, Awaiter, ()>,
        awaiter: &Awaiter,
    ) {
        let mut task = task.with_around(self);
        let answer = task.poll(awaiter);
        if matches!(answer, TaskPoll::Ready(_)) {
            drop(task);
        } else {
            self.hold_task(Some(HeldTask::Cancel(task.with_around(()))));
        }
        self.end_poll(answer);
    }

    fn end_poll(&self, answer: TaskPoll<Option<Output>>) {
        self.stage.log.end(match &answer {
            TaskPoll::Pending => "pending",
            TaskPoll::Refused => "refused",
            TaskPoll::Ready(Some(_)) => "output",
            TaskPoll::Ready(None) => "closed",
        });
    }

    fn fallible(&self) {
        let changed = match self.held_task() {
            Some(HeldTask::Task(task)) => HeldTask::Fallible(task.fallible()),
            Some(other) => other,
            None => return,
        };
        self.hold_task(Some(changed));
    }

    fn cancel(&self) {
        let changed = match self.held_task() {
            Some(HeldTask::Task(task)) => HeldTask::Cancel(task.cancel()),
            Some(HeldTask::Fallible(task)) => HeldTask::Cancel(task.cancel()),
            Some(other) => other,
            None => return,
        };
        self.hold_task(Some(changed));
    }

    fn detach(&self) {
        match self.held_task() {
            Some(HeldTask::Task(task)) => {
                self.stage.log.begin("detach");
                task.with_around(self).detach();
                self.stage.log.end("");
            }
            Some(HeldTask::Fallible(task)) => {
                self.stage.log.begin("detach");
                task.with_around(self).detach();
                self.stage.log.end("");
            }
            other => self.hold_task(other),
        }
    }

    fn drop_task(&self) -> bool {
        let Some(task) = self.held_task() else {
            return false;
        };
        self.stage.log.begin("drop_task");
        match task {
            HeldTask::Task(task) => drop(task.with_around(self)),
            HeldTask::Fallible(task) => drop(task.with_around(self)),
            HeldTask::Cancel(task) => drop(task.with_around(self)),
        }
        self.stage.log.end("");
        true
    }

    fn is_finished(&self) {
        let mut held = self.held_task();
        match &mut held {
            Some(HeldTask::Task(task)) => self.note_finished(task.is_finished()),
            Some(HeldTask::Fallible(task)) => self.note_finished(task.is_finished()),
            _ => {}
        }
        self.hold_task(held);
    }

    fn note_finished(&self, answer: bool) {
        self.stage.log.begin("is_finished");
        self.stage.log.end_with(answer);
    }

    fn show(&self) {
        let held = self.held_task();
        match &held {
            Some(HeldTask::Task(task)) => self.stage.log.show(task),
            Some(HeldTask::Fallible(task)) => self.stage.log.show(task),
            _ => {}
        }
        self.hold_task(held);
    }
}
