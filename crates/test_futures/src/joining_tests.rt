//! `join`: when a part is dropped, what is polled and woken until then, and that a drop leaves nothing.
//! Of what is only tested (the page of `future_parts`): Parts.
use crate::counter::{Counter, poll};
use crate::steps::{after_polls, no_polls, seen};
use future_parts::join;
use task_core::Poll;

// The first one is ready at the second poll, and then dropped and not polled again. The second one is ready at the fourth.
#[test]
fn join_answers_both_outputs_and_drops_the_one_that_is_ready(rt: HostRuntime) {
    let waker = Counter::new(&rt, rt.alloc());
    let first = no_polls(&rt, rt.alloc());
    let second = no_polls(&rt, rt.alloc());
    let mut both = join(
        after_polls(&rt, 1, 10, &first),
        after_polls(&rt, 3, 20, &second),
    );
    let early = (poll(&mut both, &waker), poll(&mut both, &waker));
    let halfway = (seen(&first), seen(&second));
    let late = (poll(&mut both, &waker), poll(&mut both, &waker));
    let after = (seen(&first), seen(&second));
    assert!(rt; early == (Poll::Pending, Poll::Pending));
    assert!(rt; halfway == ((2, 0), (2, 1)));
    assert!(rt; late == (Poll::Pending, Poll::Ready((10, 20))));
    assert!(rt; after == ((2, 0), (4, 0)));
    assert!(rt; waker.wakes() == 4);
}

// One of its futures has ended, and the other one has not.
#[test]
fn a_join_that_is_dropped_half_way_leaves_nothing(rt: HostRuntime) {
    let waker = Counter::new(&rt, rt.alloc());
    let polls = no_polls(&rt, rt.alloc());
    let mut both = join(
        after_polls(&rt, 0, 10, &polls),
        after_polls(&rt, 5, 20, &polls),
    );
    let answer = poll(&mut both, &waker);
    let halfway = seen(&polls);
    drop(both);
    assert!(rt; answer == Poll::Pending);
    assert!(rt; (halfway, seen(&polls)) == ((2, 1), (2, 0)));
}
