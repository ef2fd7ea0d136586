//! The player of a script: the handles of its tasks and its awaiters, and the steps. A step is a call on these handles, with what it answers, or a look at what
//! is left. The player has a handle no more that a call takes.

use crate::behaviour::Behaviour;
use crate::counters::{Counts, Event};
use crate::fixture::Fixture;
use crate::flag::Flag;
use crate::held::Held;
use crate::output::{Output, is_some_with};
use crate::surroundings::{RowRunnable, RowWaker};
use crate::words::Words;
use async_task::{TaskPoll, Wake};
use std::alloc::{AllocError, Global};
use std::collections::VecDeque;
use std::mem;
use std::sync::Wait;

// More words than a look has.
const WORDS: usize = 16;

/// The handles and the awaiters of a script.
#[derive(Drop)]
pub struct Player<'x, 'm, R: Wait + Drop + Copy> {
    /// What the script works with.
    pub fixture: &'x Fixture<'m, R>,
    /// The Runnable.
    pub runnable: Option<RowRunnable<'x, 'm, R>>,
    /// The step after those that were made was not as it says.
    pub has_failed: bool,
    /// There was no memory for a step.
    pub is_refused: bool,
    awaiters: &'x [Flag],
    task: Option<Held<'x, 'm, R>>,
    other_tasks: VecDeque<Held<'x, 'm, R>>,
    wakers: VecDeque<RowWaker<'x, 'm, R>>,
    // How many steps were as they say.
    made: usize,
}

impl<'x, 'm, R: Wait + Drop + Copy> Player<'x, 'm, R> {
    /// A player without handles. Its awaiters have the numbers from 0 on.
    pub fn new(
        fixture: &'x Fixture<'m, R>,
        alloc: Global,
        awaiters: &'x [Flag],
    ) -> Player<'x, 'm, R> {
        Player {
            fixture,
            runnable: None,
            has_failed: false,
            is_refused: false,
            awaiters,
            task: None,
            other_tasks: VecDeque::new(alloc),
            wakers: VecDeque::new(alloc),
            made: 0,
        }
    }

    /// Makes these steps, until one is not as it says.
    pub fn play(&mut self, steps: &str) {
        for step in steps.split(';') {
            if self.has_failed || !self.is_right(step) {
                self.has_failed = true;
                return;
            }
            self.made = self.made.saturating_add(1);
        }
    }

    /// The place of the step that was not as it says, if one was not.
    pub fn failed(&self) -> Option<usize> {
        self.has_failed.then_some(self.made)
    }

    // Makes a step: whether it was as it says.
    fn is_right(&mut self, step: &str) -> bool {
        let mut words = Words::of(step);
        let name = words.next();
        self.step(name, &mut words) == Some(true) && words.are_read()
    }

    // Makes a step: whether it was as it says, or `None` where there is no such step, or not what it is made on.
    fn step(&mut self, name: &str, words: &mut Words<'_>) -> Option<bool> {
        match name {
            // Nothing.
            "" => Some(true),
            // Spawns a task whose future behaves so.
            "spawn" => self.spawn(words, u64::MAX),
            // The same, of a task which may have that many references.
            "spawn_limited" => self.spawn_limited(words),
            // Takes the Runnable that has waited longest out of the queue.
            "receive" => self.receive(),
            // Puts the Runnable into the queue, or schedules it.
            "push" => self.push(),
            "schedule" => self.schedule(),
            // Runs it: `again` where that answers true.
            "run" => self.run(words),
            "drop_runnable" => self.drop_runnable(),
            "discard_runnable" => self.discard_runnable(),
            "forget_runnable" => self.forget_runnable(),
            // It shows the flags and the count of that word, also parked; and a witness of it finds that word.
            "runnable_shows" => self.runnable_shows(words),
            "runnable_parks" => self.park_runnable(words),
            "runnable_finds" => self.runnable_finds(words),
            // Its metadata has counted so many calls of makers.
            "runnable_makers" => self.runnable_makers(words),
            // Gives it its surroundings anew.
            "runnable_around" => self.runnable_around(),
            // Makes a waker of it, or is refused one.
            "waker" => self.waker(),
            "waker_refused" => self.is_waker_refused(),
            _ => self.step_of_waker(name, words),
        }
    }

    // A call is made on the waker that came last, but for a drop.
    fn step_of_waker(&mut self, name: &str, words: &mut Words<'_>) -> Option<bool> {
        match name {
            // Takes the waker out of the store.
            "take_stored" => self.take_stored(),
            "none_stored" => self.is_none_stored(),
            "clone_waker" => self.clone_waker(),
            // Each waker is refused a clone.
            "clone_refused" => self.is_clone_refused(),
            "wake_by_ref" => self.wake_by_ref(),
            "wake" => self.wake(),
            // The same, as of an awaiter of any type: a clone is woken, which it does not know.
            "awaiter_wakes_clone" => self.awaiter_wakes_clone(),
            "awaiter_wakes_by_ref" => self.awaiter_wakes_by_ref(),
            "awaiter_wakes" => self.awaiter_wakes(),
            // It does not know the waker that came first.
            "knows_no_other" => self.knows_no_other(),
            // Drops the waker that came first.
            "drop_waker" => self.drop_waker(),
            "discard_waker" => self.discard_waker(),
            "forget_waker" => self.forget_waker(),
            "waker_shows" => self.waker_shows(words),
            "waker_parks" => self.park_waker(words),
            "waker_finds" => self.waker_finds(words),
            _ => self.step_of_task(name, words),
        }
    }

    fn step_of_task(&mut self, name: &str, words: &mut Words<'_>) -> Option<bool> {
        match name {
            // Polls the Task, FallibleTask or Cancel with the awaiter of that number.
            "poll" => self.poll(words),
            "finished" => self.is_finished(),
            "unfinished" => self.is_unfinished(),
            "shows" => self.task_shows(words),
            "parks" => self.park_task(words),
            "finds" => self.task_finds(words),
            // Its metadata has counted so many calls of makers.
            "makers" => self.task_makers(words),
            "around" => self.task_around(),
            "detach" => self.detach(),
            "drop_task" => self.drop_task(),
            "discard" => self.discard(),
            // Makes it a FallibleTask, or a Cancel.
            "fallible" => self.make_fallible(),
            "cancel" => self.make_cancel(),
            // Puts it into the store, out of which the future takes it.
            "keep_task" => self.keep_task(),
            "none_kept" => self.is_none_kept(),
            // Puts it behind the other Tasks of the script.
            "next_task" => self.next_task(),
            _ => self.look(name, words),
        }
    }

    // Looks at what is left, or changes what the surroundings or an awaiter do next.
    fn look(&self, name: &str, words: &mut Words<'_>) -> Option<bool> {
        match name {
            // Polls, schedule calls, drops of futures and drops of schedule values.
            "counted" => self.counted(words),
            // The events since the last look at them.
            "noted" => self.noted(words),
            // What the calls of the schedule value were told since the last look at that.
            "told" => self.told(words),
            // Whether a block is held, and whether all are given back.
            "held" => Some(self.is_held()),
            "freed" => Some(self.is_freed()),
            // Clones of an awaiter, its wakes, and clones that were dropped unwoken.
            "ends" => self.ends(words),
            "woken" => self.woken(words),
            "refuse_clone" => self.refuse_clone(words),
            _ => self.look_at_number(name, words),
        }
    }

    // Looks at a number, which is the next word.
    fn look_at_number(&self, name: &str, words: &mut Words<'_>) -> Option<bool> {
        let counters = &self.fixture.counters;
        let memory = self.fixture.memory;
        let number = match name {
            "outputs" => counters.output_drops.get(),
            "made" => counters.makers.get(),
            "tags" => counters.metadata_drops.get(),
            "queued" => self.fixture.surroundings.queued() as u64,
            // How often memory was asked for, and given back.
            "blocks" => memory.allocations(),
            "given_back" => memory.returns(),
            _ => return self.change(name),
        };
        Some(words.number() == Some(number))
    }

    fn change(&self, name: &str) -> Option<bool> {
        let surroundings = &self.fixture.surroundings;
        let meeting = &self.fixture.counters.output_meeting;
        match name {
            "clear" => surroundings.clear(),
            // The schedule value drops each Runnable, or runs it.
            "drop_each" => surroundings.drop_each(),
            "run_each" => surroundings.run_each(),
            // The drop of an output comes to a meeting. There is no meeting of the poll any more.
            "arm_output" => meeting.arm(),
            "await_output" => {
                surroundings.rendezvous.release();
                return Some(meeting.await_poll());
            }
            "release_output" => meeting.release(),
            "met_output" => return Some(meeting.met()),
            _ => return None,
        }
        Some(true)
    }

    // There was no memory for a step.
    fn is_without_memory(&mut self) -> bool {
        self.is_refused = true;
        false
    }

    fn is_shown(&mut self, shown: Result<bool, AllocError>) -> Option<bool> {
        match shown {
            Ok(is_shown) => Some(is_shown),
            Err(_) => Some(self.is_without_memory()),
        }
    }
}

/// The steps of Runnables.
impl<'x, 'm, R: Wait + Drop + Copy> Player<'x, 'm, R> {
    // The Task of an earlier spawn is behind the new one.
    fn spawn(&mut self, words: &mut Words<'_>, references: u64) -> Option<bool> {
        let behaviour = Behaviour::read(words)?;
        let Ok((runnable, task)) = self.fixture.spawn(behaviour, references) else {
            return Some(self.is_without_memory());
        };
        drop(self.runnable.replace(runnable));
        match self.task.replace(Held::Task(task)) {
            Some(former) => Some(self.keep_behind(former)),
            None => Some(true),
        }
    }

    fn spawn_limited(&mut self, words: &mut Words<'_>) -> Option<bool> {
        let references = words.number()?;
        self.spawn(words, references)
    }

    fn receive(&mut self) -> Option<bool> {
        let runnable = self.fixture.surroundings.receive()?;
        Some(self.put_runnable(runnable))
    }

    // There was no Runnable.
    fn put_runnable(&mut self, runnable: RowRunnable<'x, 'm, R>) -> bool {
        self.runnable.replace(runnable).is_none()
    }

    fn push(&mut self) -> Option<bool> {
        self.fixture.surroundings.push(self.runnable.take()?);
        Some(true)
    }

    fn schedule(&mut self) -> Option<bool> {
        self.runnable.take()?.schedule();
        Some(true)
    }

    fn run(&mut self, words: &mut Words<'_>) -> Option<bool> {
        let answer = match words.next() {
            "" => false,
            "again" => true,
            _ => return None,
        };
        let (is_rescheduled, _) = self.runnable.take()?.run();
        Some(is_rescheduled == answer)
    }

    fn drop_runnable(&mut self) -> Option<bool> {
        Some(self.runnable.take().is_some())
    }

    fn discard_runnable(&mut self) -> Option<bool> {
        self.runnable.take()?.discard();
        Some(true)
    }

    fn forget_runnable(&mut self) -> Option<bool> {
        mem::forget(self.runnable.take()?);
        Some(true)
    }

    fn runnable_shows(&mut self, words: &mut Words<'_>) -> Option<bool> {
        let word = words.bits()?;
        let shown = self
            .fixture
            .shows(self.runnable.as_ref()?, "Runnable", word);
        self.is_shown(shown)
    }

    fn park_runnable(&mut self, words: &mut Words<'_>) -> Option<bool> {
        let word = words.bits()?;
        let parked = self.runnable.take()?.park();
        let shown = self.fixture.shows(&parked, "ParkedRunnable", word);
        let is_made = parked.metadata().makers() == self.fixture.counters.makers.get();
        let unparked = parked.unpark(&self.fixture.surroundings);
        let is_none = self.put_runnable(unparked);
        Some(self.is_shown(shown)? && is_made && is_none)
    }

    fn runnable_finds(&mut self, words: &mut Words<'_>) -> Option<bool> {
        let word = words.bits()?;
        Some(self.runnable.as_mut()?.witness().bits() == word)
    }

    fn runnable_makers(&self, words: &mut Words<'_>) -> Option<bool> {
        let makers = words.number()?;
        Some(self.runnable.as_ref()?.metadata().makers() == makers)
    }

    fn runnable_around(&mut self) -> Option<bool> {
        let bare = self.runnable.take()?.with_around(());
        let runnable = bare.with_around(&self.fixture.surroundings);
        Some(self.put_runnable(runnable))
    }

    fn waker(&mut self) -> Option<bool> {
        let made = self.runnable.as_ref()?.waker().ok();
        Some(self.keep_waker(made))
    }

    fn is_waker_refused(&self) -> Option<bool> {
        Some(self.runnable.as_ref()?.waker().is_err())
    }
}

/// The steps of wakers.
impl<'x, 'm, R: Wait + Drop + Copy> Player<'x, 'm, R> {
    fn keep_waker(&mut self, made: Option<RowWaker<'x, 'm, R>>) -> bool {
        let is_kept = match made {
            Some(waker) => self.wakers.push_back(waker).is_ok(),
            None => false,
        };
        is_kept || self.is_without_memory()
    }

    fn take_stored(&mut self) -> Option<bool> {
        let stored = self.fixture.surroundings.take_kept()?;
        Some(self.keep_waker(Some(stored)))
    }

    fn is_none_stored(&self) -> Option<bool> {
        Some(self.fixture.surroundings.take_kept().is_none())
    }

    fn clone_waker(&mut self) -> Option<bool> {
        let clone = self.wakers.back()?.try_clone().ok();
        Some(self.keep_waker(clone))
    }

    fn is_clone_refused(&self) -> Option<bool> {
        let mut is_refused = !self.wakers.is_empty();
        for waker in &self.wakers {
            is_refused &= waker.try_clone().is_err();
        }
        Some(is_refused)
    }

    fn wake_by_ref(&self) -> Option<bool> {
        self.wakers.back()?.wake_by_ref();
        Some(true)
    }

    fn wake(&mut self) -> Option<bool> {
        self.wakers.pop_back()?.wake();
        Some(true)
    }

    fn awaiter_wakes_clone(&self) -> Option<bool> {
        wakes_clone(self.wakers.back()?)
    }

    fn awaiter_wakes_by_ref(&self) -> Option<bool> {
        wakes_by_ref(self.wakers.back()?)
    }

    fn awaiter_wakes(&mut self) -> Option<bool> {
        wakes(self.wakers.pop_back()?)
    }

    fn knows_no_other(&self) -> Option<bool> {
        let last = self.wakers.back()?;
        let first = self.wakers.front()?;
        Some(!last.will_wake(first))
    }

    fn waker_finds(&self, words: &mut Words<'_>) -> Option<bool> {
        let word = words.bits()?;
        Some(self.wakers.back()?.witness().bits() == word)
    }

    fn drop_waker(&mut self) -> Option<bool> {
        Some(self.wakers.pop_front().is_some())
    }

    fn discard_waker(&mut self) -> Option<bool> {
        self.wakers.pop_back()?.discard();
        Some(true)
    }

    fn forget_waker(&mut self) -> Option<bool> {
        mem::forget(self.wakers.pop_back()?);
        Some(true)
    }

    fn waker_shows(&mut self, words: &mut Words<'_>) -> Option<bool> {
        let word = words.bits()?;
        let shown = self.fixture.shows(self.wakers.back()?, "TaskWaker", word);
        self.is_shown(shown)
    }

    // The waker shows the word parked, and stored.
    fn park_waker(&mut self, words: &mut Words<'_>) -> Option<bool> {
        let word = words.bits()?;
        let surroundings = &self.fixture.surroundings;
        let parked = self.wakers.pop_back()?.park();
        let as_parked = self.fixture.shows(&parked, "ParkedWaker", word);
        let stored = parked.unpark(surroundings).stored();
        let as_stored = self.fixture.shows(&stored, "StoredWaker", word);
        let is_kept = self.keep_waker(Some(stored.with_around(surroundings)));
        Some(self.is_shown(as_parked)? && self.is_shown(as_stored)? && is_kept)
    }
}

/// The steps of Tasks, FallibleTasks and Cancels.
impl<'x, 'm, R: Wait + Drop + Copy> Player<'x, 'm, R> {
    // What is polled is held, and no output is dropped before the look at the answer.
    fn poll(&mut self, words: &mut Words<'_>) -> Option<bool> {
        let flag = self.flag(words)?;
        let drops = self.fixture.counters.output_drops.get();
        let polled = self.task.as_mut()?.poll(flag);
        let is_kept = self.fixture.counters.output_drops.get() == drops && self.is_held();
        Some(is_answer(&polled, words) && is_kept)
    }

    fn is_finished(&mut self) -> Option<bool> {
        Some(self.task.as_mut()?.is_finished())
    }

    fn is_unfinished(&mut self) -> Option<bool> {
        Some(!self.task.as_mut()?.is_finished())
    }

    fn task_finds(&mut self, words: &mut Words<'_>) -> Option<bool> {
        let word = words.bits()?;
        Some(self.task.as_mut()?.finds() == word)
    }

    fn task_makers(&self, words: &mut Words<'_>) -> Option<bool> {
        let makers = words.number()?;
        Some(self.task.as_ref()?.makers()? == makers)
    }

    fn task_shows(&mut self, words: &mut Words<'_>) -> Option<bool> {
        let word = words.bits()?;
        let shown = self.task.as_ref()?.shows(self.fixture, word);
        self.is_shown(shown)
    }

    fn park_task(&mut self, words: &mut Words<'_>) -> Option<bool> {
        let word = words.bits()?;
        let Held::Task(task) = self.task.take()? else {
            return None;
        };
        let parked = task.park();
        let shown = self.fixture.shows(&parked, "ParkedTask", word);
        let is_made = parked.metadata().makers() == self.fixture.counters.makers.get();
        let unparked = Held::Task(parked.unpark(&self.fixture.surroundings));
        let is_none = self.put_task(unparked);
        Some(self.is_shown(shown)? && is_made && is_none)
    }

    fn task_around(&mut self) -> Option<bool> {
        let task = self.task.take()?.around(self.fixture);
        Some(self.put_task(task))
    }

    // There was no Task.
    fn put_task(&mut self, task: Held<'x, 'm, R>) -> bool {
        self.task.replace(task).is_none()
    }

    fn detach(&mut self) -> Option<bool> {
        self.task.take()?.detach()
    }

    fn drop_task(&mut self) -> Option<bool> {
        Some(self.task.take().is_some())
    }

    fn discard(&mut self) -> Option<bool> {
        self.task.take()?.discard()
    }

    fn make_fallible(&mut self) -> Option<bool> {
        let task = self.task.take()?.fallible()?;
        Some(self.put_task(task))
    }

    fn make_cancel(&mut self) -> Option<bool> {
        let task = self.task.take()?.cancel()?;
        Some(self.put_task(task))
    }

    fn keep_task(&mut self) -> Option<bool> {
        let Held::Task(task) = self.task.take()? else {
            return None;
        };
        self.fixture.surroundings.keep_task(task);
        Some(true)
    }

    fn is_none_kept(&self) -> Option<bool> {
        Some(self.fixture.surroundings.take_task().is_none())
    }

    fn keep_behind(&mut self, task: Held<'x, 'm, R>) -> bool {
        self.other_tasks.push_back(task).is_ok() || self.is_without_memory()
    }

    fn next_task(&mut self) -> Option<bool> {
        let is_kept = match self.task.take() {
            Some(task) => self.keep_behind(task),
            None => true,
        };
        let next = self.other_tasks.pop_front()?;
        Some(self.put_task(next) && is_kept)
    }
}

/// The looks.
impl<'x, 'm, R: Wait + Drop + Copy> Player<'x, 'm, R> {
    // The awaiter of the number that is the next word.
    fn flag(&self, words: &mut Words<'_>) -> Option<&'x Flag> {
        let number = usize::try_from(words.number()?).ok()?;
        let awaiters = self.awaiters;
        awaiters.get(number)
    }

    fn counted(&self, words: &mut Words<'_>) -> Option<bool> {
        let polls = words.number()?;
        let schedules = words.number()?;
        let futures = words.number()?;
        let schedulers = words.number()?;
        Some(self.fixture.counts() == Counts(polls, schedules, futures, schedulers))
    }

    fn ends(&self, words: &mut Words<'_>) -> Option<bool> {
        let ends = self.flag(words)?.ends();
        let clones = words.number()?;
        let wakes = words.number()?;
        Some(ends == (clones, wakes, words.number()?))
    }

    fn noted(&self, words: &mut Words<'_>) -> Option<bool> {
        let mut events = 0;
        for _ in 0..WORDS {
            if words.are_read() {
                break;
            }
            let Some(event) = Event::named(words.next()) else {
                return None;
            };
            events = event.after(events);
        }
        Some(self.fixture.counters.take_events() == events)
    }

    fn woken(&self, words: &mut Words<'_>) -> Option<bool> {
        let (_, wakes, _) = self.flag(words)?.ends();
        Some(words.number() == Some(wakes))
    }

    fn refuse_clone(&self, words: &mut Words<'_>) -> Option<bool> {
        self.flag(words)?.refuse_next_clone();
        Some(true)
    }

    fn told(&self, words: &mut Words<'_>) -> Option<bool> {
        let surroundings = &self.fixture.surroundings;
        let mut agrees = true;
        for _ in 0..WORDS {
            if words.are_read() {
                break;
            }
            let told = told_by(words.next());
            agrees &= told.is_some() && surroundings.take_info() == told;
        }
        Some(agrees && surroundings.take_info().is_none())
    }

    // Whether a block is held.
    fn is_held(&self) -> bool {
        let memory = self.fixture.memory;
        memory.allocations() != memory.returns()
    }

    // Whether all blocks were given back, with all their bytes.
    fn is_freed(&self) -> bool {
        let memory = self.fixture.memory;
        !self.is_held() && memory.bytes() == memory.returned_bytes()
    }
}

// What a word says of `woken_while_running`, if it says that.
fn told_by(word: &str) -> Option<bool> {
    match word {
        "true" => Some(true),
        "false" => Some(false),
        _ => None,
    }
}

// Whether a poll answered as these words say.
fn is_answer(polled: &TaskPoll<Option<Output>>, words: &mut Words<'_>) -> bool {
    match words.next() {
        "waits" => matches!(polled, TaskPoll::Pending),
        "refused" => matches!(polled, TaskPoll::Refused),
        "closed" => matches!(polled, TaskPoll::Ready(None)),
        "gives" => gives(polled, words.number()),
        _ => false,
    }
}

// Whether a poll is ready with that number.
fn gives(polled: &TaskPoll<Option<Output>>, number: Option<u64>) -> bool {
    match number {
        Some(number) => is_some_with(polled, number),
        None => false,
    }
}

// Clones any awaiter, and wakes the clone: whether the awaiter did not know it.
fn wakes_clone<W: Wake>(awaiter: &W) -> Option<bool> {
    let clone = awaiter.try_clone().ok()?;
    let is_known = awaiter.will_wake(&clone);
    clone.wake();
    Some(!is_known)
}

fn wakes_by_ref<W: Wake>(awaiter: &W) -> Option<bool> {
    awaiter.wake_by_ref();
    Some(true)
}

fn wakes<W: Wake>(awaiter: W) -> Option<bool> {
    awaiter.wake();
    Some(true)
}
