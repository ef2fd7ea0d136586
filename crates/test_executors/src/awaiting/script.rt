//! Scripts of calls on a group of a line: a text of steps with `;` between them. A step is a call on the group or on its line, and states what that has to answer.
use super::came_out::{CameOut, abort_handle_of, group_of, look, next_of};
use super::line::{Errand, Line, LineGroup, LineTask};
use async_task::TaskClosed;
use executor_parts::{AbortHandle, MemberId};
use rows_fixtures::words::Words;
use std::alloc::Global;
use std::mem;
use std::process::Abort;
use std::sync::Wait;
use std::sync::atomic::Ordering;

/// Steps on an empty group, and its room.
pub type Script = (usize, &'static str);

// A group, and what was kept of its members.
#[derive(Drop)]
struct Player<'x, R: Wait + Drop + Copy> {
    line: &'x Line<R>,
    group: LineGroup<'x, R>,
    handles: Vec<AbortHandle<R>>,
    id: Option<MemberId>,
}

impl<'x, R: Wait + Abort + Drop + Copy> Player<'x, R> {
    // Makes one call: whether it answered as stated, or `None` where there is no such call.
    fn take(&mut self, name: &str, words: &mut Words<'_>) -> Option<bool> {
        match name {
            // Spawns a task and pushes its Task, for which there is room, or is none.
            "push" => Some(self.push(errand_of(words)?)),
            "push_full" => Some(!self.push(errand_of(words)?)),
            // The same of a task that was run before, or whose Runnable was dropped before.
            "push_ended" => Some(self.push_ended(errand_of(words)?)),
            "push_closed" => Some(self.push_closed(errand_of(words)?)),
            // Spawns a member of that number, or none, since the group is full. The handle that aborts it is kept; handles are counted from 0.
            "spawn" => {
                let number = number_of(words)?;
                Some(self.spawn(errand_of(words)?) == Some(number))
            }
            "spawn_full" => Some(self.spawn(errand_of(words)?).is_none()),
            // Keeps a clone of this handle, which has the id of the same member.
            "clone_handle" => Some(self.clone_handle(number_of(words)?)),
            "abort" => Some(self.abort(number_of(words)?)),
            // Runs what is queued.
            "run" => {
                self.line.run();
                Some(true)
            }
            // So many tasks have answered a number of their own.
            "answered" => Some(self.line.answered.load(Ordering::SeqCst) == words.number()?),
            _ => self.take_of_group(name, words),
        }
    }

    // Makes one call on the group alone.
    fn take_of_group(&mut self, name: &str, words: &mut Words<'_>) -> Option<bool> {
        match name {
            // Keeps the id of the member of this number.
            "keep_id" => {
                self.id = self.group.id(number_of(words)?);
                Some(self.id.is_some())
            }
            // Cancels by the id that was kept, which refers to a member, or to none.
            "cancel_kept" => self.cancel_kept(true),
            "cancel_nobody" => self.cancel_kept(false),
            "cancel_all" => Some(self.group.cancel_all().is_ok()),
            // Takes all members out, and cancels their tasks, or lets them go on.
            "abort_all" => {
                self.group.abort_all();
                Some(self.group.is_empty())
            }
            "detach_all" => {
                self.group.detach_all();
                Some(self.group.is_empty())
            }
            // Drops the group, which has members, or has none. A new one stands in its place.
            "drop_group" => Some(!self.drop_group()),
            "drop_empty" => Some(self.drop_group()),
            // Waits for the next member, or looks for one that has ended.
            "next" => Some(next_of(&mut self.group) == came_out(words)?),
            "look" => Some(look(&mut self.group) == Ok(came_out(words)?)),
            _ => None,
        }
    }

    fn push(&mut self, errand: Errand) -> bool {
        let task = self.line.spawn(0, errand);
        push_task(&mut self.group, task)
    }

    fn push_ended(&mut self, errand: Errand) -> bool {
        let task = self.line.spawn(0, errand);
        self.line.run();
        push_task(&mut self.group, task)
    }

    fn push_closed(&mut self, errand: Errand) -> bool {
        let task = self.line.spawn(0, errand);
        self.line.drop_next();
        push_task(&mut self.group, task)
    }

    fn spawn(&mut self, errand: Errand) -> Option<usize> {
        let number = self.line.spawn_in(&mut self.group, errand)?;
        let handle = abort_handle_of(self.line, &self.group, number);
        self.keep(handle);
        Some(number)
    }

    fn clone_handle(&mut self, place: usize) -> bool {
        let Some(handle) = self.handles.get(place) else {
            return false;
        };
        let clone = handle.try_clone().expect(&self.line.rt, "refused");
        let is_same = clone.id() == handle.id();
        self.keep(clone);
        is_same
    }

    fn keep(&mut self, handle: AbortHandle<R>) {
        self.handles.push(handle).expect(&self.line.rt, "refused");
    }

    fn abort(&self, place: usize) -> bool {
        let Some(handle) = self.handles.get(place) else {
            return false;
        };
        handle.abort();
        true
    }

    fn cancel_kept(&mut self, refers: bool) -> Option<bool> {
        Some(self.group.cancel(self.id?) == Ok(refers))
    }

    fn drop_group(&mut self) -> bool {
        let dropped = mem::replace(&mut self.group, group_of(self.line, 1));
        dropped.is_empty()
    }
}

// Pushes a Task: whether there was room.
fn push_task<'x, R: Wait + Drop + Copy>(
    group: &mut LineGroup<'x, R>,
    task: LineTask<'x, R>,
) -> bool {
    group.push(task).is_ok()
}

fn number_of(words: &mut Words<'_>) -> Option<usize> {
    usize::try_from(words.number()?).ok()
}

fn errand_of(words: &mut Words<'_>) -> Option<Errand> {
    match words.next() {
        "answer" => Some(Errand::Answer(words.number()?)),
        "give_way" => Some(Errand::GiveWay(words.number()?)),
        "stay" => Some(Errand::Stay),
        _ => None,
    }
}

// What is to come out: nothing, or the member of a number, with its answer or closed.
fn came_out(words: &mut Words<'_>) -> Option<CameOut> {
    let number = words.next();
    if number == "nothing" {
        return Some(None);
    }
    let number = number.parse::<usize>().ok()?;
    match words.next() {
        "closed" => Some(Some((number, Err(TaskClosed)))),
        "gives" => Some(Some((number, Ok(words.number()?)))),
        _ => None,
    }
}

// Takes the steps of a script. Stops where one does not answer as stated.
fn play_on<R: Wait + Abort + Drop + Copy>(line: &Line<R>, alloc: Global, room: usize, steps: &str) {
    let mut player = Player {
        line,
        group: group_of(line, room),
        handles: Vec::new(alloc),
        id: None,
    };
    for step in steps.split(';') {
        let mut words = Words::of(step);
        let right = player.take(words.next(), &mut words) == Some(true) && words.are_read();
        assert!(line.rt; right, "{step} of {steps}");
    }
}

/// Plays scripts, each on a line of its own. Stops where a call does not answer as stated.
pub fn play<R: Wait + Abort + Drop + Copy>(rt: R, alloc: Global, scripts: &[Script]) {
    for &(room, steps) in scripts {
        play_on(&Line::new(rt, alloc, 1), alloc, room, steps);
    }
}
