//! A tracker: when the end comes, and that a future is gone before it.
//! Of what is only tested (the page of `future_parts`): Outer calls.
ghost use Rattle.std.specs.Prelude.{⊤};

use crate::counter::{Counter, output};
use crate::steps::{Steps, after_polls, no_polls, seen};
use future_parts::{Receiver, TaskTracker, Tracked, task_tracker};
use std::alloc::Global;
use std::process::Abort;
use std::sync::atomic::{AtomicU64, Ordering};
use std::sync::{Arc, Wait};
use task_core::{Poll, Wake};

type Ends<R, W> = (TaskTracker<R, W>, Receiver<R, (), W>);

fn ends<R: Wait + Abort + Drop + Copy, W: Wake>(rt: R, alloc: Global) -> Ends<R, W> {
    task_tracker(rt, alloc).expect(&rt, "refused")
}

// A future that is ready at its first poll. Stops where there are as many as can be counted.
fn track<R: Wait + Abort + Drop + Copy, W: Wake>(
    rt: &R,
    tracker: &TaskTracker<R, W>,
    polls: &Arc<AtomicU64>,
) -> Tracked<R, Steps, W> {
    let tracked = tracker.track(after_polls(rt, 0, 7, polls)).ok();
    tracked.expect(rt, "refused")
}

// What is counted, and what a poll by which the end is awaited answers.
fn look<R: Wait + Drop + Copy>(
    gone: &mut Receiver<R, (), Counter>,
    waker: &Counter,
) -> (usize, Poll<Option<()>>) {
    (gone.sender_count(), gone.poll_receive(waker))
}

#[test]
fn the_end_comes_once_trackers_and_futures_are_gone(rt: HostRuntime) {
    let waker = Counter::new(&rt, rt.alloc());
    let polls = no_polls(&rt, rt.alloc());
    let (tracker, mut gone): Ends<HostRuntime, Counter> = ends(rt, rt.alloc());
    let other = tracker.try_clone().expect(&rt, "refused");
    let mut first = track(&rt, &tracker, &polls);
    drop(tracker);
    let second = track(&rt, &other, &polls);
    let open = look(&mut gone, &waker);
    drop(other);
    drop(second);
    let answer = output(&mut first, &waker);
    let left = look(&mut gone, &waker);
    let early = waker.wakes();
    drop(first);
    let over = look(&mut gone, &waker);
    assert!(rt; open == (3, Poll::Pending) && left == (1, Poll::Pending));
    assert!(rt; answer == Some(7) && early == 0 && waker.wakes() == 1);
    assert!(rt; over == (0, Poll::Ready(None)));
}

/// A waker that notes how many futures are left when it wakes.
#[derive(Drop)]
struct Looks {
    polls: Arc<AtomicU64>,
    left: Arc<AtomicU64>,
}

impl Wake for Looks {
    type Record = ();

    ghost woken = { λ _ _. ⊤ };

    ghost woken_by_ref = { λ _ _. ⊤ };

    ghost cloned = { λ _ _. ⊤ };

    ghost compared = { λ _ _ _. ⊤ };

    fn wake(self) {
        self.wake_by_ref();
    }

    fn wake_by_ref(&self) {
        self.left
            .store(Arc::strong_count(&self.polls) as u64, Ordering::SeqCst);
    }

    fn try_clone(&self) -> Result<Looks, ()> {
        let Ok(polls) = Arc::try_clone(&self.polls) else {
            return Err(());
        };
        let Ok(left) = Arc::try_clone(&self.left) else {
            return Err(());
        };
        Ok(Looks { polls, left })
    }

    fn will_wake(&self, _other: &Looks) -> bool {
        false
    }
}

// The test, the waker and its clone own the polls; the future does not any more.
#[test]
fn a_future_is_gone_before_the_end_comes(rt: HostRuntime) {
    let polls = no_polls(&rt, rt.alloc());
    let left = no_polls(&rt, rt.alloc());
    let (tracker, mut gone): Ends<HostRuntime, Looks> = ends(rt, rt.alloc());
    let future = track(&rt, &tracker, &polls);
    drop(tracker);
    let waker = Looks {
        polls: Arc::try_clone(&polls).expect(&rt, "refused"),
        left: Arc::try_clone(&left).expect(&rt, "refused"),
    };
    let waits = gone.poll_receive(&waker);
    drop(future);
    assert!(rt; waits == Poll::Pending && seen(&left).0 == 3);
}
