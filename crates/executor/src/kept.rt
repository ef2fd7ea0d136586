//! Wakers and Tasks that futures keep: the pool has them by number, and a future has the keys.
ghost use Rattle.std.specs.Prelude.{⊤, ◌≡◌, ◌≤◌, ◌↔◌, IfSome, IfErr, IsSome, IsTrue};
ghost use Rattle.std.specs.Arc.{arc_value};
ghost use Rattle.task_cell.specs.PollPaths.{IfOutput};
ghost use Rattle.executor.specs.Outputs.{IsYielded};
ghost use Rattle.executor.specs.Wakes.{IsForKept};

use crate::bell_awaiter::BellAwaiter;
use crate::due::DueRunnable;
use crate::pool::{Place, Pool, PoolTask, PoolWaker, ToPool};
use crate::store::{Key, Walk};
use async_task::{
    Runnable, Schedule, ScheduleInfo, StoredWaker, Task, TaskClosed, TaskPoll, Wake, Yields,
};
use std::alloc::Allocator;
use std::sync::Wait;

/// A waker as the pool keeps it. It cannot wake, before it gets a place back.
pub type KeptWaker<R, F, A, M = ()> = StoredWaker<R, F, ToPool, M, A>;

/// A Task as the pool keeps it.
pub type KeptTask<R, F, A, M = ()> = Task<R, F, ToPool, M, A, ()>;

// A handle with `()` has no queue at hand. This crate wakes none, and drops one only where a queue has no memory for it, after a shutdown, and with the pool: the Runnable that may be due then is cancelled.
impl<R: Wait + Drop + Copy, F: Yields, A: Wake, M: Drop> Schedule<Runnable<R, F, ToPool, M, A, ()>>
    for ToPool {
    ghost scheduled = { λ _ _ _. ⊤ };

    fn schedule(&self, runnable: Runnable<R, F, ToPool, M, A, ()>, _info: ScheduleInfo) {
        DueRunnable::new(runnable).cancel();
    }
}

/// Takes a place for a waker, and room for its number in the mail of the pool. `None` where there was no memory for them. The worker of `place`, which is that of `waker.around()` in a poll, only decides which lock is taken.
pub fn place_for_waker<'x, R: Wait + Drop + Copy, F: Yields, A: Wake, B: Allocator + Copy, M: Drop>(
    place: Place<'x, R, F, A, B, M>,
) -> Option<Key<R>> {
    let (pool, worker) = place;
    let key = pool.wakers.reserve(pool.rt, worker)?;
    match pool.mail.make_room(key.number()) {
        Ok(_) => Some(key),
        Err(_) => None,
    }
}

/// Takes a place as `place_for_waker` does, and keeps a clone of this waker there, as `keep_waker` does: for the first poll that waits, under one lock. `None` where there was no memory for it, or the clone was refused.
pub fn keep_new_waker<'x, R: Wait + Drop + Copy, F: Yields, A: Wake, B: Allocator + Copy, M: Drop>(
    waker: &PoolWaker<'x, R, F, A, B, M>,
) -> Option<Key<R>> {
    let place = waker.around();
    let (pool, worker) = place;
    let clone = waker.try_clone().ok()?;
    let kept = pool.wakers.reserve_with(pool.rt, worker, clone.stored());
    let key = match kept {
        Ok(key) => key,
        Err(clone) => {
            drop_waker(place, Some(clone));
            return None;
        }
    };
    if pool.mail.make_room(key.number()).is_err() {
        drop_waker(place, pool.wakers.take(&pool.rt, key.number()));
        return None;
    }
    wake_after_shutdown(place, &key);
    Some(key)
}

/// Keeps a clone of a waker at the place of a key, and drops what was there. False where the clone was refused, or the key is not one of
/// `place_for_waker` of this pool: every place is as it was then. After a shutdown the waker is woken at once, which cancels its task.
pub fn keep_waker<'x, R: Wait + Drop + Copy, F: Yields, A: Wake, B: Allocator + Copy, M: Drop>(
    waker: &PoolWaker<'x, R, F, A, B, M>,
    key: &Key<R>,
) -> bool {
    keep_at(waker, key).is_some()
}

// A task's waker was kept under this number, and a look for a shutdown came after it. Only `wake_after_shutdown` makes one.
#[derive(Drop)]
struct WakerKept {
    number: usize,
}

impl WakerKept {
    // An awaiter that has a worker wake that task, as `BellAwaiter::of_kept`.
    fn awaiter<R: Wait + Drop + Copy, F: Yields, A: Wake, B: Allocator + Copy, M: Drop>(
        self,
        pool: &Pool<R, F, A, B, M>,
    ) -> Option<BellAwaiter<R>>
        ensures { IfSome result (λ awaiter. IsForKept awaiter.wakes (arc_value pool.now.crew.bells) (arc_value pool.now.mail) self.number) }
    {
        BellAwaiter::of_kept(pool, self.number)
    }
}

// Keeps a clone of a waker at the place of a key, as `keep_waker` does.
fn keep_at<'x, R: Wait + Drop + Copy, F: Yields, A: Wake, B: Allocator + Copy, M: Drop>(
    waker: &PoolWaker<'x, R, F, A, B, M>,
    key: &Key<R>,
) -> Option<WakerKept> {
    let place = waker.around();
    let pool = place.0;
    let clone = waker.try_clone().ok()?;
    match pool.wakers.put(&pool.rt, key, clone.stored()) {
        Ok(before) => {
            drop_waker(place, before);
            Some(wake_after_shutdown(place, key))
        }
        Err(clone) => {
            drop_waker(place, Some(clone));
            None
        }
    }
}

/// Wakes the task whose waker is kept under this number, on the queue of the worker of this place. False where no waker is there. The waker is gone after it.
pub fn wake_kept<'x, R: Wait + Drop + Copy, F: Yields, A: Wake, B: Allocator + Copy, M: Drop>(
    place: Place<'x, R, F, A, B, M>,
    number: usize,
) -> bool {
    wake_taken(place, place.0.wakers.take(&place.0.rt, number))
}

/// Wakes a task whose number an awaiter posted, as `wake_kept` does, and where more are posted has a worker look for them. False where none is posted. Each worker does it between its turns, and a loop around `Turns::tick` has to.
pub fn wake_posted<'x, R: Wait + Drop + Copy, F: Yields, A: Wake, B: Allocator + Copy, M: Drop>(
    place: Place<'x, R, F, A, B, M>,
) -> bool {
    match place.0.mail.take() {
        Some(number) => {
            wake_kept(place, number);
            // This worker may be in a long poll before it takes the next one.
            if place.0.mail.none_posted().is_none() {
                place.0.bells().interrupt();
            }
            true
        }
        None => false,
    }
}

/// Takes a place for a Task, as `place_for_waker` does for a waker. `None` where there was no memory for it.
pub fn place_for_task<'x, R: Wait + Drop + Copy, F: Yields, A: Wake, B: Allocator + Copy, M: Drop>(
    place: Place<'x, R, F, A, B, M>,
) -> Option<Key<R>> {
    let (pool, worker) = place;
    pool.tasks.reserve(pool.rt, worker)
}

/// Keeps a Task at the place of a key, and drops what was there, which cancels that task. After a shutdown the Task is dropped at once, too.
///
/// `Err` has the Task back, where the key is not one of `place_for_task` of this pool: every place is as it was then.
pub fn keep_task<'x, R: Wait + Drop + Copy, F: Yields, A: Wake, B: Allocator + Copy, M: Drop>(
    task: PoolTask<'x, R, F, A, B, M>,
    key: &Key<R>,
) -> Result<(), PoolTask<'x, R, F, A, B, M>>
    ensures refused { IfErr result (λ back. (back.inner ≡ task.entry.inner) × (back.around ≡ task.entry.around)) }
{
    let place = task.around();
    let pool = place.0;
    match pool.tasks.put(&pool.rt, key, task.with_around(())) {
        Ok(before) => {
            drop_task(place, before);
            if pool.is_shut_down() {
                drop_task(place, pool.tasks.take(&pool.rt, key.number()));
            }
            Ok(())
        }
        Err(task) => Err(task.with_around(place)),
    }
}

/// Polls the Task at the place of a key, with this awaiter. `None` where there is no Task, as while another thread polls it, or the key is not one of
/// `place_for_task` of this pool. A Task that answers `Ready` is gone after it, and any other is there still, unless the pool was shut down. The output is one that the future of a task has answered, and meets what its type states.
pub fn poll_kept<'x, R: Wait + Drop + Copy, F: Yields, A: Wake, B: Allocator + Copy, M: Drop>(
    place: Place<'x, R, F, A, B, M>,
    key: &Key<R>,
    awaiter: &A,
) -> Option<TaskPoll<Result<F::Output, TaskClosed>>>
    ensures meets { IfSome result (λ answer. IfOutput answer (λ output. ∥ F.Yields.meets output ∥₁)) }
    ensures yielded { IfSome result (λ answer. IfOutput answer (IsYielded F.Yields.moves)) }
{
    let kept = place.0.tasks.take_of(&place.0.rt, key)?;
    let mut task = kept.with_around(place);
    let answer = task.poll(awaiter);
    if matches!(answer, TaskPoll::Ready(_)) {
        drop(task);
    } else {
        drop(keep_task(task, key));
    }
    Some(answer)
}

// Drops the Task at the place of a key, where there is one, which cancels its task.
pub(crate) fn drop_kept<
    'x,
    R: Wait + Drop + Copy,
    F: Yields,
    A: Wake,
    B: Allocator + Copy,
    M: Drop,
>(place: Place<'x, R, F, A, B, M>, key: &Key<R>) {
    drop_task(place, place.0.tasks.take_of(&place.0.rt, key));
}

/// Polls the Task at the place `awaited` for the task of this waker, which is woken where that Task may have an answer: it keeps the waker at its place
/// first, and then polls as `poll_kept` does. So no wake is missed where the task that waits is pending after it.
///
/// `Refused` also says that the waker was not kept, as where `own` is not one of `place_for_waker` of this pool.
pub fn await_kept<'x, R: Wait + Drop + Copy, F: Yields, B: Allocator + Copy, M: Drop>(
    waker: &PoolWaker<'x, R, F, BellAwaiter<R>, B, M>,
    own: &Key<R>,
    awaited: &Key<R>,
) -> Option<TaskPoll<Result<F::Output, TaskClosed>>>
    ensures meets { IfSome result (λ answer. IfOutput answer (λ output. ∥ F.Yields.meets output ∥₁)) }
    ensures yielded { IfSome result (λ answer. IfOutput answer (IsYielded F.Yields.moves)) }
{
    let place = waker.around();
    let Some(kept) = keep_at(waker, own) else {
        return Some(TaskPoll::Refused);
    };
    match kept.awaiter(place.0) {
        Some(awaiter) => poll_kept(place, awaited, &awaiter),
        None => Some(TaskPoll::Refused),
    }
}

/// Drops what is left at the places of keys that were dropped: wakers, and Tasks, whose tasks are cancelled. False where nothing was. Each worker does it at its first turn, at each 64th one after it, and before it rests.
pub fn collect<'x, R: Wait + Drop + Copy, F: Yields, A: Wake, B: Allocator + Copy, M: Drop>(
    place: Place<'x, R, F, A, B, M>,
) -> bool {
    let pool = place.0;
    let mut drops = false;
    for _ in pool.rt.forever() {
        // A Task, or else a waker, that is left at the place of a key that was dropped.
        if !drop_task(place, pool.tasks.collect(&pool.rt))
            && !drop_waker(place, pool.wakers.collect(&pool.rt))
        {
            return drops;
        }
        drops = true;
    }
    unreachable!()
}

// Wakes the task whose waker was just kept at the place of this key, where the shutdown may have looked there before.
fn wake_after_shutdown<'x, R: Wait + Drop + Copy, F: Yields, A: Wake, B: Allocator + Copy, M: Drop>(
    place: Place<'x, R, F, A, B, M>,
    key: &Key<R>,
) -> WakerKept
    ensures { result.number ≡ key.now.number }
{
    let number = key.number();
    if place.0.is_shut_down() {
        wake_kept(place, number);
    }
    WakerKept { number }
}

// Drops this Task, where there is one, which cancels its task. False where there is none.
fn drop_task<'x, R: Wait + Drop + Copy, F: Yields, A: Wake, B: Allocator + Copy, M: Drop>(
    place: Place<'x, R, F, A, B, M>,
    task: Option<KeptTask<R, F, A, M>>,
) -> bool
    ensures { IsTrue result ↔ IsSome task }
{
    task.map(|task| drop(task.with_around(place))).is_some()
}

// Drops this waker, where there is one. False where there is none.
fn drop_waker<'x, R: Wait + Drop + Copy, F: Yields, A: Wake, B: Allocator + Copy, M: Drop>(
    place: Place<'x, R, F, A, B, M>,
    waker: Option<KeptWaker<R, F, A, M>>,
) -> bool {
    waker.map(|waker| drop(waker.with_around(place))).is_some()
}

// Wakes the task of this waker, where there is one. False where there is none.
fn wake_taken<'x, R: Wait + Drop + Copy, F: Yields, A: Wake, B: Allocator + Copy, M: Drop>(
    place: Place<'x, R, F, A, B, M>,
    waker: Option<KeptWaker<R, F, A, M>>,
) -> bool
    ensures { IsTrue result ↔ IsSome waker }
{
    waker.map(|waker| waker.with_around(place).wake()).is_some()
}

/// How far the walks over the kept wakers and Tasks came. Only `cancel_kept` makes one.
#[derive(Drop)]
pub(crate) struct KeptCancelled {
    wakers: Walk,
    tasks: Walk,
}

// Cancels what is kept, after the shutdown: all wakers are woken, and then all Tasks are dropped.
pub(crate) fn cancel_kept<
    'x,
    R: Wait + Drop + Copy,
    F: Yields,
    A: Wake,
    B: Allocator + Copy,
    M: Drop,
>(place: Place<'x, R, F, A, B, M>) -> KeptCancelled
    ensures { (8 ≤ result.wakers.part) × (8 ≤ result.tasks.part) }
{
    let pool = place.0;
    let mut wakers = Walk::default();
    let mut tasks = Walk::default();
    for _ in pool.rt.forever() {
        if !wake_taken(place, pool.wakers.take_next(&pool.rt, &mut wakers))
            && !drop_task(place, pool.tasks.take_next(&pool.rt, &mut tasks))
        {
            collect(place);
            return KeptCancelled { wakers, tasks };
        }
    }
    unreachable!()
}
