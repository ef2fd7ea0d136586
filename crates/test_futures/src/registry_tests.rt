//! A registry of futures: what it shows of each, by a clock that the test sets, and when one leaves it.
//! Of what is only tested (the page of `future_time`): what a registry shows.
ghost use Rattle.std.specs.Prelude.{⊤};

use crate::calls::{after, now};
use crate::counter::{Counter, poll};
use future_parts::{YieldNow, yield_now};
use future_time::{LastPoll, TaskRegistry, Watched, WatchedTask};
use std::alloc::Global;
use std::io;
use std::process::Abort;
use std::sync::Wait;
use std::sync::atomic::{AtomicU64, Ordering};
use std::thread::{self, Threads};
use std::time::{Clock, Duration, Instant};
use task_core::{Future, Poll, Yields};

/// A clock that cannot be read shows this.
const STOPPED: u64 = u64::MAX;

/// A runtime whose clock shows as many milliseconds as the test says.
#[derive(Clone, Copy, Drop)]
struct ByHand<'a, R> {
    rt: R,
    millis: &'a AtomicU64,
}

impl<'a, R: Wait> Wait for ByHand<'a, R> {}

impl<'a, R> Clock for ByHand<'a, R> {
    fn monotonic(&self) -> io::Result<Duration> {
        match self.millis.load(Ordering::SeqCst) {
            STOPPED => Err(io::Error::other("stopped")),
            millis => Ok(Duration::from_millis(millis)),
        }
    }

    fn since_1970(&self) -> io::Result<Duration> {
        self.monotonic()
    }
}

type Registry<'a, R> = TaskRegistry<ByHand<'a, R>, u64>;

fn registry<'a, R: Wait + Abort + Drop + Copy>(
    rt: R,
    alloc: Global,
    millis: &'a AtomicU64,
) -> Registry<'a, R> {
    TaskRegistry::new(ByHand { rt, millis }, alloc).expect(&rt, "refused")
}

// The instant at which the clock shows `millis` milliseconds.
fn at<R: Abort>(rt: &R, millis: u64) -> Instant {
    let shown = AtomicU64::new(millis);
    Instant::now(&ByHand {
        rt: (),
        millis: &shown,
    })
    .expect(rt, "refused")
}

// A future that is ready at its second poll, watched under the number `name` from `millis` milliseconds on.
fn watch<'a, R: Wait + Abort + Drop + Copy>(
    rt: &R,
    registry: &Registry<'a, R>,
    clock: &AtomicU64,
    name: u64,
    millis: u64,
) -> Watched<ByHand<'a, R>, YieldNow, u64> {
    clock.store(millis, Ordering::SeqCst);
    registry.watch(name, yield_now()).ok().expect(rt, "refused")
}

// The first two futures that were not polled since `since` milliseconds, and how many there are.
fn shown<'a, R: Wait + Abort + Drop + Copy>(
    rt: &R,
    registry: &Registry<'a, R>,
    since: u64,
) -> (Option<WatchedTask<u64>>, Option<WatchedTask<u64>>, usize) {
    let tasks = registry
        .not_polled_since(at(rt, since))
        .expect(rt, "refused");
    (tasks.get(0).copied(), tasks.get(1).copied(), tasks.len())
}

fn task(name: u64, last_poll: LastPoll) -> Option<WatchedTask<u64>> {
    Some(WatchedTask { name, last_poll })
}

#[test]
fn a_registry_shows_what_was_not_polled_since(rt: HostRuntime) {
    let clock = AtomicU64::new(0);
    let registry = registry(rt, rt.alloc(), &clock);
    let waker = Counter::new(&rt, rt.alloc());
    let first = watch(&rt, &registry, &clock, 1, 10);
    let mut second = watch(&rt, &registry, &clock, 2, 20);
    clock.store(30, Ordering::SeqCst);
    let answer = poll(&mut second, &waker);
    let waits = task(1, LastPoll::NotYet(at(&rt, 10)));
    let polled = task(2, LastPoll::Ended(at(&rt, 30)));
    assert!(rt; answer == Poll::Pending && waker.wakes() == 1);
    assert!(rt; shown(&rt, &registry, 10) == (None, None, 0));
    assert!(rt; shown(&rt, &registry, 30) == (waits, None, 1));
    assert!(rt; shown(&rt, &registry, 31) == (waits, polled, 2));
    drop(first);
    assert!(rt; shown(&rt, &registry, 31) == (polled, None, 1));
}

#[test]
fn a_future_leaves_as_it_is_ready_or_dropped(rt: HostRuntime) {
    let clock = AtomicU64::new(0);
    let registry = registry(rt, rt.alloc(), &clock);
    let waker = Counter::new(&rt, rt.alloc());
    let mut first = watch(&rt, &registry, &clock, 1, 10);
    let second = watch(&rt, &registry, &clock, 2, 20);
    let answers = [poll(&mut first, &waker), poll(&mut first, &waker)];
    let left = registry.len();
    let later = poll(&mut first, &waker);
    drop(second);
    drop(first);
    assert!(rt; answers == [Poll::Pending, Poll::Ready(())] && left == 1);
    assert!(rt; later == Poll::Ready(()) && registry.len() == 0);
}

/// A future whose poll answers how it stands itself.
struct LooksAtItself<'a, R: Wait + Abort + Drop + Copy> {
    rt: R,
    registry: Registry<'a, R>,
}

impl<'a, R: Wait + Abort + Drop + Copy> Drop for LooksAtItself<'a, R> {
    fn drop(self) {
        let LooksAtItself { rt: _, registry } = self;
        drop(registry);
    }
}

impl<'a, R: Wait + Abort + Drop + Copy> Yields for LooksAtItself<'a, R> {
    type Output = Option<WatchedTask<u64>>;
}

impl<'a, R: Wait + Abort + Drop + Copy> Future<Counter> for LooksAtItself<'a, R> {
    ghost polled = { λ _ _ _ _. ⊤ };

    fn poll(&mut self, _waker: &Counter) -> Poll<Option<WatchedTask<u64>>> {
        Poll::Ready(shown(&self.rt, &self.registry, 100).0)
    }
}

fn look_at_itself<R: Wait + Abort + Drop + Copy>(
    rt: R,
    alloc: Global,
    clock: &AtomicU64,
) -> Poll<Option<WatchedTask<u64>>> {
    let registry = registry(rt, alloc, clock);
    let looks = LooksAtItself {
        rt,
        registry: registry.try_clone().expect(&rt, "refused"),
    };
    let mut watched = registry.watch(7, looks).ok().expect(&rt, "refused");
    clock.store(50, Ordering::SeqCst);
    poll(&mut watched, &Counter::new(&rt, alloc))
}

#[test]
fn a_poll_that_runs_is_told_as_such(rt: HostRuntime) {
    let clock = AtomicU64::new(10);
    let found = look_at_itself(rt, rt.alloc(), &clock);
    assert!(rt; found == Poll::Ready(task(7, LastPoll::Running(at(&rt, 50)))));
}

#[test]
fn the_instant_stays_where_the_clock_cannot_be_read(rt: HostRuntime) {
    let clock = AtomicU64::new(0);
    let registry = registry(rt, rt.alloc(), &clock);
    let waker = Counter::new(&rt, rt.alloc());
    let mut first = watch(&rt, &registry, &clock, 1, 10);
    clock.store(STOPPED, Ordering::SeqCst);
    let answer = poll(&mut first, &waker);
    let refused = registry.watch(2, yield_now()).is_err();
    let polled = task(1, LastPoll::Ended(at(&rt, 10)));
    assert!(rt; answer == Poll::Pending && refused);
    assert!(rt; shown(&rt, &registry, 11) == (polled, None, 1));
}

// Whether a future that is refused its place is handed back, and one that is not is watched.
fn survives<R: Wait + Abort + Drop + Copy>(
    rt: R,
    alloc: Global,
    clock: &AtomicU64,
    waker: &Counter,
) -> bool {
    let rt = ByHand { rt, millis: clock };
    let Ok(registry) = TaskRegistry::new(rt, alloc) else {
        return true;
    };
    match registry.watch(1, yield_now()) {
        Ok(mut watched) => poll(&mut watched, waker) == Poll::Pending && registry.len() == 1,
        Err(mut back) => poll(&mut back, waker) == Poll::Pending && registry.len() == 0,
    }
}

#[test]
fn a_refusal_hands_the_future_back(rt: HostRuntime) {
    let clock = AtomicU64::new(0);
    let waker = Counter::new(&rt, rt.alloc());
    let right = survives(rt, rt.alloc(), &clock, &waker);
    assert!(rt; right);
}

/// How often each thread does what it does.
const ROUNDS: u64 = 1_000;

// Watches a future until it is ready, again and again. False where one is refused.
fn watch_often<R: Wait + Clock + Drop + Copy>(
    registry: &TaskRegistry<R, u64>,
    waker: &Counter,
) -> bool {
    for name in 0..ROUNDS {
        let Ok(mut watched) = registry.watch(name, yield_now()) else {
            return false;
        };
        poll(&mut watched, waker);
        if poll(&mut watched, waker) != Poll::Ready(()) {
            return false;
        }
    }
    true
}

// The most futures that a list has shown, of many.
fn list_often<R: Wait + Clock + Abort + Drop + Copy>(
    rt: &R,
    registry: &TaskRegistry<R, u64>,
) -> usize {
    let ahead = after(rt, now(rt), 3_600_000);
    let mut most = 0;
    for _ in 0..ROUNDS {
        let shown = registry.not_polled_since(ahead).expect(rt, "refused");
        most = most.max(shown.len());
    }
    most
}

// A future that is watched as another thread polls it, and then futures that come and go beside lists: what the poll answered, whether all came, the most that a list has shown, and how many are left.
fn watch_beside_lists<R: Wait + Clock + Abort + Threads + Drop + Copy + Send + Sync>(
    rt: R,
    alloc: Global,
    waker: &Counter,
) -> (Poll<()>, bool, usize, usize) {
    let registry = TaskRegistry::new(rt, alloc).expect(&rt, "refused");
    let mut stays = registry
        .watch(ROUNDS, yield_now())
        .ok()
        .expect(&rt, "refused");
    let (answer, _) = thread::join(&rt, || poll(&mut stays, waker), || registry.len());
    let (all, most) = thread::join(
        &rt,
        || watch_often(&registry, waker),
        || list_often(&rt, &registry),
    );
    (answer, all, most, registry.len())
}

#[test]
fn threads_share_a_registry(rt: HostRuntime) {
    let waker = Counter::new(&rt, rt.alloc());
    let (answer, all, most, left) = watch_beside_lists(rt, rt.alloc(), &waker);
    assert!(rt; answer == Poll::Pending && all);
    assert!(rt; most >= 1 && most <= 2 && left == 1);
}
