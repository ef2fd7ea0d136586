//! A script: what the future does when it is polled, and the calls that are made on the handles, also inside foreign code.

use std::alloc::{AllocError, Global};

/// A word of a script.
#[derive(Clone, Copy, Debug, PartialEq, Eq)]
pub enum Word {
    /// The words up to the next `Pending` or `Ready` are of a poll of the future.
    Polled,
    /// The poll answers pending.
    Pending,
    /// The poll answers ready.
    Ready,
    /// The words up to the next `Done` are calls inside foreign code.
    Inside(Moment),
    /// These end.
    Done,
    /// A call.
    Call(Call),
}

/// A call. One that has no handle to be made on is passed over.
#[derive(Clone, Copy, Debug, PartialEq, Eq)]
pub enum Call {
    /// A run of the Runnable.
    Run,
    /// `schedule` of the Runnable.
    Schedule,
    /// The Runnable's drop.
    DropRunnable,
    /// A waker of the Runnable.
    Waker,
    /// A clone of the waker that is lent to a poll.
    Keep,
    /// A wake by the waker that is lent to a poll.
    WakeLent,
    /// A wake by value, with the last waker that was kept.
    Wake,
    /// A wake by reference, with the same.
    WakeByRef,
    /// A clone of the same.
    CloneWaker,
    /// A drop of the same.
    DropWaker,
    /// A poll of the Task, FallibleTask or Cancel, with the awaiter of that number.
    Poll(u8),
    /// The Task becomes a FallibleTask.
    Fallible,
    /// The Task or FallibleTask becomes a Cancel.
    Cancel,
    /// `detach` of the Task or FallibleTask.
    Detach,
    /// The drop of the Task, FallibleTask or Cancel.
    DropTask,
    /// `is_finished` of the Task or FallibleTask.
    IsFinished,
    /// The Debug text of the Task or FallibleTask.
    Show,
}

/// Foreign code in which calls are made.
#[derive(Clone, Copy, Debug, PartialEq, Eq)]
pub enum Moment {
    /// The schedule function, once it has kept or dropped the Runnable.
    Schedule,
    /// The drop of the future.
    FutureDrop,
    /// The drop of the output.
    OutputDrop,
    /// The drop of the metadata.
    MetadataDrop,
    /// The drop of the schedule value.
    ScheduleDrop,
    /// The clone of an awaiter.
    AwaiterClone,
    /// The wake of an awaiter.
    AwaiterWake,
    /// The drop of an awaiter.
    AwaiterDrop,
}

/// Calls inside foreign code.
#[derive(Drop)]
pub struct Inside {
    /// Where they are made.
    pub moment: Moment,
    /// The calls.
    pub calls: Vec<Call>,
}

/// What the schedule value does with each Runnable.
#[derive(Clone, Copy, Debug, PartialEq, Eq)]
pub enum Way {
    /// It keeps it.
    Keeps,
    /// It notes its Debug text, and keeps it.
    Shows,
    /// It drops it.
    Drops,
}

/// A script.
#[derive(Drop)]
pub struct Script {
    /// What the schedule value does.
    pub way: Way,
    /// What the polls of the future do, each up to its answer. A poll after the last one answers pending.
    pub polls: Vec<Word>,
    /// The calls inside foreign code. The first of a moment are made when it comes first, the second when it comes again.
    pub inside: Vec<Inside>,
    /// The calls.
    pub calls: Vec<Call>,
}

impl Word {
    /// The word that is written so.
    pub fn named(text: &str) -> Option<Word> {
        let word = match text {
            "polled" => Word::Polled,
            "pending" => Word::Pending,
            "ready" => Word::Ready,
            "done" => Word::Done,
            _ => return Word::named_in(text),
        };
        Some(word)
    }

    fn named_in(text: &str) -> Option<Word> {
        let moment = match text {
            "in_schedule" => Moment::Schedule,
            "in_future_drop" => Moment::FutureDrop,
            "in_output_drop" => Moment::OutputDrop,
            "in_metadata_drop" => Moment::MetadataDrop,
            "in_schedule_drop" => Moment::ScheduleDrop,
            "in_awaiter_clone" => Moment::AwaiterClone,
            "in_awaiter_wake" => Moment::AwaiterWake,
            "in_awaiter_drop" => Moment::AwaiterDrop,
            _ => return Call::named(text).map(|call| Word::Call(call)),
        };
        Some(Word::Inside(moment))
    }
}

impl Call {
    /// The call that is written so.
    pub fn named(text: &str) -> Option<Call> {
        let call = match text {
            "run" => Call::Run,
            "schedule" => Call::Schedule,
            "drop_runnable" => Call::DropRunnable,
            "waker" => Call::Waker,
            "keep" => Call::Keep,
            "wake_lent" => Call::WakeLent,
            "wake" => Call::Wake,
            "wake_by_ref" => Call::WakeByRef,
            "clone" => Call::CloneWaker,
            "drop_waker" => Call::DropWaker,
            "poll0" => Call::Poll(0),
            "poll1" => Call::Poll(1),
            "fallible" => Call::Fallible,
            "cancel" => Call::Cancel,
            "detach" => Call::Detach,
            "drop_task" => Call::DropTask,
            "is_finished" => Call::IsFinished,
            "show" => Call::Show,
            _ => return None,
        };
        Some(call)
    }
}

// Whose words are being read.
#[derive(Clone, Copy)]
enum Part {
    Calls,
    Poll,
    Inside,
}

impl Script {
    /// The script of a line, or `None` where the line is none: what the schedule value does, and then the words of polls and calls.
    pub fn read(alloc: Global, line: &str) -> Result<Option<Script>, AllocError> {
        let mut words = line.split_ascii_whitespace();
        let way = match words.next() {
            Some("keeps") => Way::Keeps,
            Some("shows") => Way::Shows,
            Some("drops") => Way::Drops,
            _ => return Ok(None),
        };
        let mut script = Script {
            way,
            polls: Vec::new(alloc),
            inside: Vec::new(alloc),
            calls: Vec::new(alloc),
        };
        let mut part = Part::Calls;
        for text in words {
            let Some(word) = Word::named(text) else {
                return Ok(None);
            };
            let Some(next) = script.add(alloc, word, part)? else {
                return Ok(None);
            };
            part = next;
        }
        Ok(if matches!(part, Part::Calls) {
            Some(script)
        } else {
            None
        })
    }

    // Adds a word of this part: the part of the next word, or `None` where the word may not stand there.
    fn add(&mut self, alloc: Global, word: Word, part: Part) -> Result<Option<Part>, AllocError> {
        let next = match (part, word) {
            (Part::Calls, Word::Polled) => Part::Poll,
            (Part::Poll, Word::Pending | Word::Ready) => {
                self.polls.push(word)?;
                Part::Calls
            }
            (Part::Poll, Word::Call(_)) => {
                self.polls.push(word)?;
                Part::Poll
            }
            (Part::Calls, Word::Inside(moment)) => {
                let calls = Vec::new(alloc);
                self.inside.push(Inside { moment, calls })?;
                Part::Inside
            }
            (Part::Inside, Word::Done) => Part::Calls,
            (Part::Inside, Word::Call(call)) => {
                if let Some(inside) = self.inside.last_mut() {
                    inside.calls.push(call)?;
                }
                Part::Inside
            }
            (Part::Calls, Word::Call(call)) => {
                self.calls.push(call)?;
                Part::Calls
            }
            _ => return Ok(None),
        };
        Ok(Some(next))
    }
}
