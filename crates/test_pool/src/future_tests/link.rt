//! A future that awaits tasks of its own kind in the same pool, and what such futures count together.
ghost use Rattle.std.specs.Prelude.{⊤};

use async_task::{Future, Poll, TaskPoll, Yields};
use executor::{
    BellAwaiter, KeptGroup, Key, Pool, PoolTask, PoolWaker, Turns, await_kept, keep_task,
    keep_waker, place_for_task, place_for_waker,
};
use std::alloc::{AllocError, Global};
use std::sync::atomic::{AtomicU64, Ordering};
use std::sync::{Arc, Wait};

/// How often another thread wakes a task.
pub const KNOCKS: u64 = 1000;

/// What the links of a chain count together.
#[derive(Drop)]
pub struct Counts {
    /// How often those were polled that await another one.
    pub waiting: AtomicU64,
    /// How often the last one was polled.
    pub last: AtomicU64,
    /// One more than the number of the waker that `Knocks` keeps.
    pub number: AtomicU64,
    /// How often it has kept it.
    pub rounds: AtomicU64,
}

impl Counts {
    /// Nothing counted yet.
    pub fn new(alloc: Global) -> Result<Arc<Counts>, AllocError> {
        let counts = Counts {
            waiting: AtomicU64::new(0),
            last: AtomicU64::new(0),
            number: AtomicU64::new(0),
            rounds: AtomicU64::new(0),
        };
        Ok(Arc::new(alloc, counts)?)
    }
}

/// What the last link of a chain does.
#[derive(Clone, Copy)]
pub enum Errand {
    /// Gives way so often, and then answers 1.
    GiveWay(u64),
    /// Is pending until it was woken so often by the number of its waker, and then answers 1.
    Knocks(u64),
    /// Stays pending, and keeps no waker.
    Stay,
    /// Ends the pool, wakes itself, and is pending.
    ShutDown,
    /// Spawns so many links that give way twice, awaits them as a group, and answers what they do together.
    Group(u64),
    /// Spawns so many links that stay pending, aborts one of them and then all, and answers how many come out closed.
    Abort(u64),
}

/// The places of a link that waits: of its waker, and of the Tasks that it still awaits.
#[derive(Drop)]
struct Places<R: Wait + Drop + Copy> {
    own: Key<R>,
    first: Option<Key<R>>,
    second: Option<Key<R>>,
}

/// A future that does its errand where no link is below it. Otherwise it spawns one with one link less below it, and where it has a second errand one more with none, awaits them, and answers one more than they do together. What was refused or closed counts as 0.
#[derive(Drop)]
pub struct Link<R: Wait + Drop + Copy> {
    below: u64,
    errand: Errand,
    second: Option<Errand>,
    places: Option<Places<R>>,
    sum: u64,
    own: Option<Key<R>>,
    group: Option<KeptGroup<R>>,
    counts: Arc<Counts>,
}

impl<R: Wait + Drop + Copy> Yields for Link<R> {
    type Output = u64;
}

/// A pool of links.
pub type LinkPool<R> = Pool<R, Link<R>, BellAwaiter<R>>;

/// The Task of a link.
pub type LinkTask<'x, R> = PoolTask<'x, R, Link<R>, BellAwaiter<R>>;

/// The turns of a worker of links.
pub type LinkTurns<'x, R> = Turns<'x, R, Link<R>, BellAwaiter<R>>;

type LinkWaker<'x, R> = PoolWaker<'x, R, Link<R>, BellAwaiter<R>>;

/// Spawns a link with so many below it, of which the last one does this errand. Where there is a second errand it awaits one more, which does that.
pub fn spawn_link<'x, R: Wait + Drop + Copy>(
    pool: &'x LinkPool<R>,
    worker: usize,
    below: u64,
    errand: Errand,
    second: Option<Errand>,
    counts: &Arc<Counts>,
) -> Result<LinkTask<'x, R>, AllocError> {
    let counts = Arc::try_clone(counts)?;
    let link = Link {
        below,
        errand,
        second,
        places: None,
        sum: 0,
        own: None,
        group: None,
        counts,
    };
    Ok(pool.spawn_on(worker, link)?)
}

// Spawns a link for another one, and keeps its Task.
fn spawn_kept<'x, R: Wait + Drop + Copy>(
    waker: &LinkWaker<'x, R>,
    below: u64,
    errand: Errand,
    counts: &Arc<Counts>,
) -> Option<Key<R>> {
    let place = waker.around();
    let key = place_for_task(place)?;
    match spawn_link(place.0, place.1, below, errand, None, counts) {
        Ok(task) => keep_task(task, &key).is_ok().then_some(key),
        Err(_) => None,
    }
}

// One poll of the link at a place, for that of this waker. Where it is not pending the place is given up: its answer, 0 where it was closed or refused.
fn poll_link<'x, R: Wait + Drop + Copy>(
    waker: &LinkWaker<'x, R>,
    own: &Key<R>,
    place: &mut Option<Key<R>>,
) -> Poll<u64> {
    let awaited = match &*place {
        Some(awaited) => await_kept(waker, own, awaited),
        None => None,
    };
    let answer = match awaited {
        Some(TaskPoll::Pending) => return Poll::Pending,
        Some(TaskPoll::Ready(Ok(answer))) => answer,
        _ => 0,
    };
    *place = None;
    Poll::Ready(answer)
}

// Adds an answer to a sum. False where there is none yet.
fn add_answer(sum: &mut u64, answer: Poll<u64>) -> bool {
    match answer {
        Poll::Ready(answer) => {
            *sum = sum.saturating_add(answer);
            true
        }
        Poll::Pending => false,
    }
}

impl<R: Wait + Drop + Copy> Link<R> {
    // Spawns the links that this one awaits.
    fn spawn_next<'x>(&self, waker: &LinkWaker<'x, R>) -> Option<Places<R>> {
        let own = place_for_waker(waker.around())?;
        let below = self.below.saturating_sub(1);
        let first = spawn_kept(waker, below, self.errand, &self.counts);
        let second = match self.second {
            Some(errand) => spawn_kept(waker, 0, errand, &self.counts),
            None => None,
        };
        Some(Places { own, first, second })
    }

    // One poll of each of these, which are spawned by the first.
    fn await_next<'x>(&mut self, waker: &LinkWaker<'x, R>) -> Poll<u64> {
        if self.places.is_none() {
            self.places = self.spawn_next(waker);
        }
        let Some(places) = &mut self.places else {
            return Poll::Ready(0);
        };
        let first = poll_link(waker, &places.own, &mut places.first);
        let second = poll_link(waker, &places.own, &mut places.second);
        let first_is_over = add_answer(&mut self.sum, first);
        let second_is_over = add_answer(&mut self.sum, second);
        if first_is_over && second_is_over {
            return Poll::Ready(self.sum.saturating_add(1));
        }
        Poll::Pending
    }

    // Keeps the waker, and then says that it was kept once more.
    fn waits_for_knock<'x>(&mut self, waker: &LinkWaker<'x, R>) -> bool {
        if self.own.is_none() {
            self.own = place_for_waker(waker.around());
        }
        let Some(own) = &self.own else {
            return false;
        };
        if !keep_waker(waker, own) {
            return false;
        }
        self.counts
            .number
            .store((own.number() as u64).wrapping_add(1), Ordering::SeqCst);
        self.counts.rounds.fetch_add(1, Ordering::SeqCst);
        true
    }

    // One poll of the last link.
    fn do_errand<'x>(&mut self, waker: &LinkWaker<'x, R>) -> Poll<u64> {
        match self.errand {
            Errand::GiveWay(0) | Errand::Knocks(0) => Poll::Ready(1),
            Errand::GiveWay(left) => {
                self.errand = Errand::GiveWay(left.saturating_sub(1));
                waker.wake_by_ref();
                Poll::Pending
            }
            Errand::Knocks(left) => {
                self.errand = Errand::Knocks(left.saturating_sub(1));
                if self.waits_for_knock(waker) {
                    Poll::Pending
                } else {
                    Poll::Ready(0)
                }
            }
            Errand::Stay => Poll::Pending,
            Errand::ShutDown => {
                waker.around().0.shutdown();
                waker.wake_by_ref();
                Poll::Pending
            }
            Errand::Group(links) => self.await_group(waker, links),
            Errand::Abort(links) => abort_group(waker, links, &self.counts),
        }
    }

    // One poll of a group of so many links, which the first poll spawns.
    fn await_group<'x>(&mut self, waker: &LinkWaker<'x, R>, links: u64) -> Poll<u64> {
        if self.group.is_none() {
            self.group = spawn_group(waker, links, Errand::GiveWay(2), &self.counts);
        }
        match &mut self.group {
            Some(group) => add_ended(group, waker, &mut self.sum, 0),
            None => Poll::Ready(0),
        }
    }
}

// How many of a group of so many links come out closed once all were looked at, one was aborted, and then all. 0 where they do not at once, or a number of no member is known.
fn abort_group<'x, R: Wait + Drop + Copy>(
    waker: &LinkWaker<'x, R>,
    links: u64,
    counts: &Arc<Counts>,
) -> Poll<u64> {
    let Some(mut group) = spawn_group(waker, links, Errand::Stay, counts) else {
        return Poll::Ready(0);
    };
    let waits = matches!(group.next(waker), TaskPoll::Pending);
    if !waits || !group.abort(waker.around(), 0) || group.abort(waker.around(), links as usize) {
        return Poll::Ready(0);
    }
    group.abort_all(waker.around());
    let mut closed = 0;
    match add_ended(&mut group, waker, &mut closed, 1) {
        Poll::Ready(closed) => Poll::Ready(closed),
        Poll::Pending => Poll::Ready(0),
    }
}

// A group of so many links with this errand. `None` where one was refused.
fn spawn_group<'x, R: Wait + Drop + Copy>(
    waker: &LinkWaker<'x, R>,
    links: u64,
    errand: Errand,
    counts: &Arc<Counts>,
) -> Option<KeptGroup<R>> {
    let (pool, worker) = waker.around();
    let mut group = KeptGroup::new(waker.around(), links as usize)?;
    for _ in 0..links {
        let task = spawn_link(pool, worker, 0, errand, None, counts).ok()?;
        group.push(task).ok()?;
    }
    Some(group)
}

// Adds the answers of the members that have ended, this for one that is closed. Once there is no member, their sum.
fn add_ended<'x, R: Wait + Drop + Copy>(
    group: &mut KeptGroup<R>,
    waker: &LinkWaker<'x, R>,
    sum: &mut u64,
    closed: u64,
) -> Poll<u64> {
    for _ in 0..=group.len() {
        match group.next(waker) {
            TaskPoll::Ready(Some((_, answer))) => {
                *sum = sum.saturating_add(answer.unwrap_or(closed));
            }
            TaskPoll::Ready(None) => return Poll::Ready(*sum),
            TaskPoll::Pending => return Poll::Pending,
            TaskPoll::Refused => return Poll::Ready(0),
        }
    }
    Poll::Ready(0)
}

impl<'x, R: Wait + Drop + Copy> Future<LinkWaker<'x, R>> for Link<R> {
    ghost polled = { λ _ _ _ _. ⊤ };

    fn poll(&mut self, waker: &LinkWaker<'x, R>) -> Poll<u64> {
        if self.below > 0 {
            self.counts.waiting.fetch_add(1, Ordering::SeqCst);
            return self.await_next(waker);
        }
        self.counts.last.fetch_add(1, Ordering::SeqCst);
        self.do_errand(waker)
    }
}
