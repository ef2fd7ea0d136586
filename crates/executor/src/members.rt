//! Groups of tasks of a pool: a worker that waits for the next member that ends.
ghost use Rattle.std.specs.Prelude.{◌≡◌, ◌≢◌, ◌↔◌, true};
ghost use Rattle.slab.specs.Slab.{slab_len};
ghost use Rattle.executor_parts.specs.Members.{is_over};
ghost use Rattle.executor.specs.Members.{TakesMember};
ghost use Rattle.work_queues.specs.Settled.{OwesNothing};

use crate::bell_awaiter::BellAwaiter;
use crate::deadlines::Deadline;
use crate::errors::NextMemberError;
use crate::pool::{Place, PoolWaker, ToPool};
use crate::turns::{Turns, run_if_any};
use async_task::{Future, Yields};
use executor_parts::{AwaiterRefused, Ended, TaskGroup};
use std::alloc::{Allocator, Global};
use std::sync::Wait;
use std::time::{Clock, Instant};
use work_queues::{Bells, Limit, NoLimit};

/// A group of tasks of a pool. Push the Tasks that `spawn` answers.
pub type PoolGroup<'x, R, F, B = Global, M = ()> = TaskGroup<
    R,
    F,
    ToPool,
    M,
    BellAwaiter<R>,
    Place<'x, R, F, BellAwaiter<R>, B, M>,
>;

// The group listens: what ended before is found by a look after this. Only `Turns::listens` makes one.
#[derive(Drop)]
struct Listening(());

impl Listening {
    fn next<'x, R: Wait + Drop + Copy, F: Yields, B: Allocator + Copy, M: Drop>(
        &self,
        group: &mut PoolGroup<'x, R, F, B, M>,
    ) -> Result<Option<Ended<F>>, AwaiterRefused>
        ensures { TakesMember group.old.members result group.new.members }
    {
        group.try_next()
    }
}

impl<'x, R: Wait + Drop + Copy, F: Yields, B: Allocator + Copy, M: Drop> Turns<
    'x,
    R,
    F,
    BellAwaiter<R>,
    B,
    M,
> {
    /// Is the worker until a member of the group ends, and takes that out, as `TaskGroup::next` does. It sleeps where there is nothing to do. `None` where the group is empty. After an error the group is as it was.
    pub fn next_member(
        &mut self,
        group: &mut PoolGroup<'x, R, F, B, M>,
    ) -> Result<Option<Ended<F>>, NextMemberError>
    where
        F: Future<PoolWaker<'x, R, F, BellAwaiter<R>, B, M>>,
        ensures over { is_over result ≡ true ↔ slab_len group.old.members ≡ 0 }
        ensures takes { TakesMember group.old.members result group.new.members }
        ensures no_deadline { result ≢ Err NextMemberError.Elapsed }
        ensures settled { OwesNothing self.new.worker }
    {
        if group.is_empty() {
            self.worker.pay();
            return Ok(None);
        }
        let pool = self.pool;
        let place = self.place();
        let bells: &Bells = pool.bells();
        for _ in pool.rt.forever() {
            let interruptions = bells.interruptions();
            let next = self.look(group);
            if !matches!(next, Ok(None)) {
                self.worker.pay();
                return next;
            }
            run_if_any(self.turn(place, interruptions, &NoLimit), place);
        }
        unreachable!()
    }

    // Has the next end of a member ring the bell of this worker. `None` where it has no bell.
    fn listens(&self, group: &PoolGroup<'x, R, F, B, M>) -> Option<Listening> {
        group.listen(self.bell()?);
        Some(Listening(()))
    }

    // Takes the next member that has ended out of the group, as `TaskGroup::try_next` does, and has the next end of one ring the bell of this worker; without a bell it refuses. `Ok(None)` where none has ended yet, unless the pool ends.
    fn look(
        &mut self,
        group: &mut PoolGroup<'x, R, F, B, M>,
    ) -> Result<Option<Ended<F>>, NextMemberError>
        ensures takes { TakesMember group.old.members result group.new.members }
        ensures no_deadline { result ≢ Err NextMemberError.Elapsed }
    {
        let ends = self.ends();
        let Some(listening) = self.listens(group) else {
            return Err(NextMemberError::Refused);
        };
        match listening.next(group) {
            Ok(None) if ends => Err(NextMemberError::ShutDown),
            Ok(next) => Ok(next),
            Err(_) => Err(NextMemberError::Refused),
        }
    }
}

impl<'x, R: Wait + Clock + Drop + Copy, F: Yields, B: Allocator + Copy, M: Drop> Turns<
    'x,
    R,
    F,
    BellAwaiter<R>,
    B,
    M,
> {
    /// As `next_member`, but `Elapsed` at the deadline, if no member has ended then. It looks at least once, also where the deadline has passed. A poll that lasts beyond the deadline is waited for. Where the clock of the runtime has no answer, the call does not sleep, and answers `Elapsed`.
    pub fn next_member_until(
        &mut self,
        group: &mut PoolGroup<'x, R, F, B, M>,
        deadline: Instant,
    ) -> Result<Option<Ended<F>>, NextMemberError>
    where
        F: Future<PoolWaker<'x, R, F, BellAwaiter<R>, B, M>>,
        ensures over { is_over result ≡ true ↔ slab_len group.old.members ≡ 0 }
        ensures takes { TakesMember group.old.members result group.new.members }
        ensures settled { OwesNothing self.new.worker }
    {
        if group.is_empty() {
            self.worker.pay();
            return Ok(None);
        }
        let pool = self.pool;
        let place = self.place();
        let limit = Deadline {
            rt: pool.rt,
            at: deadline,
        };
        let bells: &Bells = pool.bells();
        for _ in pool.rt.forever() {
            let interruptions = bells.interruptions();
            let next = self.look(group);
            if !matches!(next, Ok(None)) {
                self.worker.pay();
                return next;
            }
            if limit.is_over() {
                self.worker.pay();
                return Err(NextMemberError::Elapsed);
            }
            run_if_any(self.turn(place, interruptions, &limit), place);
        }
        unreachable!()
    }
}
