//! The outputs of the rows' futures, and what a poll of a Task answered.
ghost use Rattle.std.specs.Prelude.{◌≡◌, ◌↔◌, IsTrue};
ghost use Rattle.rows_fixtures.specs.Polled.{IsReadyWith, IsSomeWith};

use crate::counters::{Counters, Event};
use std::sync::Arc;
use task_core::TaskPoll;

/// The output of a future of the rows: a number, whose drop is counted, and comes to a meeting where that is armed.
pub struct Output {
    /// The number.
    pub number: u64,
    counters: Arc<Counters>,
}

impl Output {
    /// An output of that number, whose drop is counted here.
    pub fn new(number: u64, counters: Arc<Counters>) -> Output
        ensures { result.number ≡ number }
    {
        Output { number, counters }
    }
}

impl Drop for Output {
    fn drop(self) {
        let Output {
            number: _,
            counters,
        } = self;
        counters.output_drops.add_one();
        counters.note(Event::Output);
        counters.output_meeting.meet();
        drop(counters);
    }
}

/// Whether a Task's poll answered ready with that number.
pub fn is_ready_with<E>(polled: &TaskPoll<Result<Output, E>>, number: u64) -> bool
    ensures { IsTrue result ↔ IsReadyWith polled.now number }
{
    match polled {
        TaskPoll::Ready(Ok(output)) => output.number == number,
        _ => false,
    }
}

/// Whether a poll of a Cancel or of a FallibleTask answered ready with that number.
pub fn is_some_with(polled: &TaskPoll<Option<Output>>, number: u64) -> bool
    ensures { IsTrue result ↔ IsSomeWith polled.now number }
{
    match polled {
        TaskPoll::Ready(Some(output)) => output.number == number,
        _ => false,
    }
}
