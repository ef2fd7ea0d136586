//! A oneshot: its value, and ends that go.
//! Of what is only tested (the page of `future_parts`): Outer calls.
use crate::counter::{Counter, poll};
use crate::token::{Token, make_token, no_tokens, tokens};
use future_parts::{OneReceiver, OneSender, oneshot};
use std::alloc::Global;
use std::process::Abort;
use std::sync::Wait;
use task_core::Poll;

type Ends<R, T> = (OneSender<R, T, Counter>, OneReceiver<R, T, Counter>);

fn ends<R: Wait + Abort + Drop + Copy, T: Drop>(rt: R, alloc: Global) -> Ends<R, T> {
    oneshot(rt, alloc).expect(&rt, "refused")
}

#[test]
fn the_value_wakes_who_waits_for_it(rt: HostRuntime) {
    let waker = Counter::new(&rt, rt.alloc());
    let (sender, mut receiver): Ends<HostRuntime, u64> = ends(rt, rt.alloc());
    let early = (poll(&mut receiver, &waker), poll(&mut receiver, &waker));
    let waiting = waker.seen();
    let sent = sender.send(7);
    let woken = waker.seen();
    let late = (poll(&mut receiver, &waker), poll(&mut receiver, &waker));
    assert!(rt; early == (Poll::Pending, Poll::Pending) && waiting == (0, 1));
    assert!(rt; sent == Ok(()) && woken == (1, 0));
    assert!(rt; late == (Poll::Ready(Some(7)), Poll::Ready(None)));
}

#[test]
fn a_sender_that_goes_is_an_answer(rt: HostRuntime) {
    let waker = Counter::new(&rt, rt.alloc());
    let (sender, mut receiver): Ends<HostRuntime, u64> = ends(rt, rt.alloc());
    let early = poll(&mut receiver, &waker);
    drop(sender);
    let woken = waker.seen();
    let late = poll(&mut receiver, &waker);
    assert!(rt; early == Poll::Pending && woken == (1, 0) && late == Poll::Ready(None));
}

// Of the first pair the receiver goes before the send, of the second one after it.
#[test]
fn a_receiver_that_goes_leaves_no_value(rt: HostRuntime) {
    let waker = Counter::new(&rt, rt.alloc());
    let count = no_tokens(&rt, rt.alloc());
    let (sender, mut receiver): Ends<HostRuntime, Token> = ends(rt, rt.alloc());
    let is_early = matches!(poll(&mut receiver, &waker), Poll::Pending);
    drop(receiver);
    let kept = waker.seen();
    let back = sender
        .send(make_token(&rt, &count, 1))
        .err()
        .map(Token::number);
    let (sender, receiver): Ends<HostRuntime, Token> = ends(rt, rt.alloc());
    let sent = sender.send(make_token(&rt, &count, 2)).is_ok();
    let before = tokens(&count);
    drop(receiver);
    assert!(rt; is_early && kept == (0, 0) && back == Some(1));
    assert!(rt; sent && (before, tokens(&count)) == (1, 0));
}
