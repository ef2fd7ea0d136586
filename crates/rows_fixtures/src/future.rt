//! The futures of the rows.
ghost use Rattle.std.specs.Prelude.{◌≡◌, false};
ghost use Rattle.task_core.specs.Poll.{IfReady};

use crate::behaviour::Behaviour;
use crate::counters::{Counters, Event};
use crate::executor::PriorityWaker;
use crate::output::Output;
use crate::surroundings::{RowWaker, Scheduler};
use async_task::{Future, Poll, TaskWaker, Wake, Yields};
use std::alloc::Allocator;
use std::mem;
use std::sync::{Arc, Wait};

/// A future that counts its polls and its drop.
pub struct RowFuture {
    /// What it does when it is polled.
    pub behaviour: Behaviour,
    polled: bool,
    counters: Arc<Counters>,
}

impl RowFuture {
    ghost use Rattle.rows_fixtures.specs.Behaviour.{IsPolled};

    /// A future that does this and counts here.
    pub fn new(behaviour: Behaviour, counters: Arc<Counters>) -> RowFuture
        ensures behaviour { result.behaviour ≡ behaviour }
        ensures unpolled { result.polled ≡ false }
        ensures counters { result.counters ≡ counters }
    {
        RowFuture {
            behaviour,
            polled: false,
            counters,
        }
    }

    // What a poll answers.
    fn answer(&mut self) -> Poll<Output>
        ensures { IsPolled self.old.behaviour result self.new.behaviour }
    {
        let again = mem::replace(&mut self.polled, true);
        match self.behaviour.answer(again) {
            Some(number) => self.ready(number),
            None => Poll::Pending,
        }
    }

    /// A poll that does nothing but answer.
    pub fn answer_alone(&mut self) -> Poll<Output>
        ensures { IsPolled self.old.behaviour result self.new.behaviour }
    {
        self.counters.begin_poll();
        let answer = self.answer();
        self.counters.end_poll();
        answer
    }

    // Ready with that number. Where the counters cannot be shared once more it is pending, and no row agrees with that.
    fn ready(&self, number: u64) -> Poll<Output>
        ensures { IfReady result (λ output. output.number ≡ number) }
    {
        match Arc::try_clone(&self.counters) {
            Ok(counters) => Poll::Ready(Output::new(number, counters)),
            Err(_) => Poll::Pending,
        }
    }
}

impl Drop for RowFuture {
    fn drop(self) {
        let RowFuture {
            behaviour: _,
            polled: _,
            counters,
        } = self;
        counters.future_drops.add_one();
        counters.note(Event::Future);
        drop(counters);
    }
}

impl Yields for RowFuture {
    type Output = Output;
}

impl<'x, 'm, R: Wait + Drop + Copy> Future<RowWaker<'x, 'm, R>> for RowFuture {
    ghost use Rattle.rows_fixtures.specs.Behaviour.{IsPolled};

    ghost polled = { λ old _ answer new. IsPolled old.behaviour answer new.behaviour };

    fn poll(&mut self, waker: &RowWaker<'x, 'm, R>) -> Poll<Output> {
        self.counters.begin_poll();
        let answer = self.answer();
        let surroundings = waker.around();
        if self.behaviour.keeps_waker() {
            surroundings.keep(waker);
        }
        if self.behaviour.yields() && matches!(answer, Poll::Pending) {
            waker.wake_by_ref();
        }
        if self.behaviour.drops_task() {
            drop(surroundings.take_task());
        }
        surroundings.rendezvous.meet();
        self.counters.end_poll();
        answer
    }
}

impl<'x, R: Wait + Drop + Copy> Future<PriorityWaker<'x, R>> for RowFuture {
    ghost use Rattle.rows_fixtures.specs.Behaviour.{IsPolled};

    ghost polled = { λ old _ answer new. IsPolled old.behaviour answer new.behaviour };

    // There are no stores and no meeting by the side of a queue in order of priority.
    fn poll(&mut self, waker: &PriorityWaker<'x, R>) -> Poll<Output> {
        self.counters.begin_poll();
        let answer = self.answer();
        if self.behaviour.yields() && matches!(answer, Poll::Pending) {
            waker.wake_by_ref();
        }
        self.counters.end_poll();
        answer
    }
}

impl<R: Wait + Drop + Copy, M: Drop, A: Wake, B: Allocator + Copy> Future<
    TaskWaker<R, RowFuture, Scheduler, M, A, (), B>,
> for RowFuture {
    ghost use Rattle.rows_fixtures.specs.Behaviour.{IsPolled};

    ghost polled = { λ old _ answer new. IsPolled old.behaviour answer new.behaviour };

    // Where a waker carries no surroundings, there are no stores and no meeting.
    fn poll(&mut self, _waker: &TaskWaker<R, RowFuture, Scheduler, M, A, (), B>) -> Poll<Output> {
        self.answer_alone()
    }
}
