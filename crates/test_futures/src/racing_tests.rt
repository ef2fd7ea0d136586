//! `race`: when a part is dropped, what is polled until then, and that a drop leaves nothing.
//! Of what is only tested (the page of `future_parts`): Parts.
use crate::counter::{Counter, poll};
use crate::steps::{after_polls, no_polls, seen};
use future_parts::{Raced, join, pending, race, ready};
use task_core::Poll;

// The second one is not polled where the first one is ready.
#[test]
fn the_first_one_of_a_race_has_the_precedence(rt: HostRuntime) {
    let waker = Counter::new(&rt, rt.alloc());
    let first = no_polls(&rt, rt.alloc());
    let second = no_polls(&rt, rt.alloc());
    let mut either = race(
        after_polls(&rt, 1, 10, &first),
        after_polls(&rt, 1, 20, &second),
    );
    let answers = (poll(&mut either, &waker), poll(&mut either, &waker));
    let halfway = (seen(&first), seen(&second));
    drop(either);
    assert!(rt; answers == (Poll::Pending, Poll::Ready(Raced::First(10))));
    assert!(rt; halfway == ((2, 1), (1, 1)));
    assert!(rt; (seen(&first), seen(&second)) == ((2, 0), (1, 0)));
}

// A race that is over is dropped by the join that awaits it, and the loser with it.
#[test]
fn a_join_drops_a_race_that_is_over(rt: HostRuntime) {
    let waker = Counter::new(&rt, rt.alloc());
    let polls = no_polls(&rt, rt.alloc());
    let either = race(ready(1u64), after_polls(&rt, 5, 20, &polls));
    let mut both = join(either, pending::<bool>());
    let answer = poll(&mut both, &waker);
    assert!(rt; answer == Poll::Pending);
    assert!(rt; seen(&polls) == (0, 0));
}
