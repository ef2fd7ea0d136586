//! A channel: the order of messages, room, and ends that go.
//! Of what is only tested (the page of `future_parts`): Outer calls.
use crate::counter::{Counter, is_ready, output, poll};
use crate::token::{Token, make_token, no_tokens, tokens};
use future_parts::{Receiver, Sender, TryReceiveError, TrySendError, channel};
use std::alloc::Global;
use std::process::Abort;
use std::sync::{Arc, Wait};
use task_core::Poll;

type Ends<R, T> = (Sender<R, T, Counter>, Receiver<R, T, Counter>);

// A channel with room for so many messages, and for two waiters on each side. Stops where there is no memory.
fn ends<R: Wait + Abort + Drop + Copy, T: Drop>(rt: R, alloc: Global, bound: usize) -> Ends<R, T> {
    channel(rt, alloc, bound, 2).expect(&rt, "refused")
}

#[test]
fn messages_come_in_the_order_in_which_they_were_sent(rt: HostRuntime) {
    let (sender, receiver): Ends<HostRuntime, u64> = ends(rt, rt.alloc(), 2);
    let sent = (sender.try_send(1), sender.try_send(2), sender.try_send(3));
    let received = (
        receiver.try_receive(),
        receiver.try_receive(),
        receiver.try_receive(),
    );
    let over = sender.try_send(4);
    drop(sender);
    let left = (receiver.try_receive(), receiver.try_receive());
    assert!(rt; sent == (Ok(()), Ok(()), Err(TrySendError::Full(3))));
    assert!(rt; received == (Ok(1), Ok(2), Err(TryReceiveError::Empty)) && over == Ok(()));
    assert!(rt; left == (Ok(4), Err(TryReceiveError::Closed)));
}

// The receiver waits first, and then the sender.
#[test]
fn a_message_wakes_who_waits_for_it_and_room_who_waits_for_room(rt: HostRuntime) {
    let waker = Counter::new(&rt, rt.alloc());
    let other = Counter::new(&rt, rt.alloc());
    let (mut sender, mut receiver): Ends<HostRuntime, u64> = ends(rt, rt.alloc(), 1);
    let early = receiver.poll_receive(&waker);
    let waiting = waker.seen();
    let mut first = Some(1);
    let sent = sender.poll_send(&mut first, &other);
    let woken = waker.seen();
    let mut second = Some(2);
    let full = sender.poll_send(&mut second, &other);
    let received = receiver.poll_receive(&waker);
    let roomy = other.seen();
    let again = sender.poll_send(&mut second, &other);
    let last = output(&mut receiver.receive(), &waker);
    assert!(rt; early == Poll::Pending && waiting == (0, 1) && sent == Poll::Ready(Ok(())));
    assert!(rt; woken == (1, 0) && full == Poll::Pending && received == Poll::Ready(Some(1)));
    assert!(rt; roomy == (1, 0) && again == Poll::Ready(Ok(())) && last == Some(Some(2)));
    assert!(rt; (first, second) == (None, None));
}

// A message that is assigned to a receiver cannot be taken by another call, and goes on where that one gives up.
#[test]
fn a_message_of_a_receive_that_is_dropped_is_not_lost(rt: HostRuntime) {
    let waker = Counter::new(&rt, rt.alloc());
    let other = Counter::new(&rt, rt.alloc());
    let (sender, mut receiver): Ends<HostRuntime, u64> = ends(rt, rt.alloc(), 1);
    let mut second = receiver.try_clone().expect(&rt, "refused");
    let mut waits = receiver.receive();
    let early = (is_ready(&mut waits, &waker), second.poll_receive(&other));
    let sent = sender.try_send(7);
    let stolen = second.try_receive();
    drop(waits);
    let woken = (waker.seen(), other.seen());
    let late = second.poll_receive(&other);
    assert!(rt; early == (false, Poll::Pending) && sent == Ok(()));
    assert!(rt; stolen == Err(TryReceiveError::Empty));
    assert!(rt; woken == ((1, 0), (1, 0)) && late == Poll::Ready(Some(7)));
    drop(sender);
}

// The number of the token that a send handed back once it was polled.
fn number_back(polled: Poll<Result<(), Token>>) -> Option<u64> {
    match polled {
        Poll::Ready(Err(back)) => Some(back.number()),
        Poll::Ready(Ok(())) | Poll::Pending => None,
    }
}

// The number of the token that a closed channel handed back.
fn number_of_closed(sent: Result<(), TrySendError<Token>>) -> Option<u64> {
    match sent {
        Err(TrySendError::Closed(back)) => Some(back.number()),
        Err(TrySendError::Full(_back)) => None,
        Ok(()) => None,
    }
}

// Two messages are in the channel, a third one waits for room, and a receiver has taken one.
fn leave_in_the_middle<R: Wait + Abort + Drop + Copy>(
    rt: R,
    alloc: Global,
    count: &Arc<()>,
) -> ([usize; 4], [Option<u64>; 3], (u64, usize)) {
    let waker = Counter::new(&rt, alloc);
    let (mut sender, receiver): Ends<R, Token> = ends(rt, alloc, 2);
    let mut sent = 0usize;
    for number in 1..4u64 {
        if sender.try_send(make_token(&rt, count, number)).is_ok() {
            sent = sent.saturating_add(1);
        }
    }
    let taken = receiver.try_receive().ok().map(Token::number);
    let refilled = sender.try_send(make_token(&rt, count, 4)).is_ok();
    let mut waiting = Some(make_token(&rt, count, 5));
    let is_pending = matches!(sender.poll_send(&mut waiting, &waker), Poll::Pending);
    let before = tokens(count);
    drop(receiver);
    let left = tokens(count);
    let back = number_back(sender.poll_send(&mut waiting, &waker));
    let late = number_of_closed(sender.try_send(make_token(&rt, count, 6)));
    let is_early = is_pending && refilled;
    drop(sender);
    let after = if is_early { tokens(count) } else { usize::MAX };
    (
        [sent, before, left, after],
        [taken, back, late],
        waker.seen(),
    )
}

#[test]
fn a_receiver_that_goes_leaves_no_message_and_hands_sends_back(rt: HostRuntime) {
    let count = no_tokens(&rt, rt.alloc());
    let (counts, numbers, woken) = leave_in_the_middle(rt, rt.alloc(), &count);
    assert!(rt; counts == [2, 3, 1, 0] && numbers == [Some(1), Some(5), Some(6)]);
    assert!(rt; woken == (1, 0));
}

// A sender is cloned where the receivers are gone, a receiver where the senders are.
#[test]
fn an_end_is_cloned_where_the_other_side_is_gone(rt: HostRuntime) {
    let (sender, receiver): Ends<HostRuntime, u64> = ends(rt, rt.alloc(), 1);
    drop(receiver);
    let more = sender.try_clone().map(|sender| sender.try_send(7));
    let (sender, receiver): Ends<HostRuntime, u64> = ends(rt, rt.alloc(), 1);
    drop(sender);
    let others = receiver.try_clone().map(|receiver| receiver.try_receive());
    assert!(rt; more == Some(Err(TrySendError::Closed(7))));
    assert!(rt; others == Some(Err(TryReceiveError::Closed)));
}

// Both receivers wait when the last sender goes.
#[test]
fn the_last_sender_that_goes_wakes_all_receivers(rt: HostRuntime) {
    let waker = Counter::new(&rt, rt.alloc());
    let (sender, mut receiver): Ends<HostRuntime, u64> = ends(rt, rt.alloc(), 1);
    let mut second = receiver.try_clone().expect(&rt, "refused");
    let other = sender.try_clone().expect(&rt, "refused");
    let early = (receiver.poll_receive(&waker), second.poll_receive(&waker));
    drop(sender);
    let one_left = waker.seen();
    drop(other);
    let none_left = waker.seen();
    let late = (receiver.poll_receive(&waker), second.poll_receive(&waker));
    assert!(rt; early == (Poll::Pending, Poll::Pending));
    assert!(rt; (one_left, none_left) == ((0, 2), (2, 0)));
    assert!(rt; late == (Poll::Ready(None), Poll::Ready(None)));
}

// A send that is dropped half way takes its message with it, and room that was assigned to it goes to the next one.
#[test]
fn room_of_a_send_that_is_dropped_is_not_lost(rt: HostRuntime) {
    let waker = Counter::new(&rt, rt.alloc());
    let other = Counter::new(&rt, rt.alloc());
    let count = no_tokens(&rt, rt.alloc());
    let (mut sender, receiver): Ends<HostRuntime, Token> = ends(rt, rt.alloc(), 1);
    let mut second = sender.try_clone().expect(&rt, "refused");
    let sent = sender.try_send(make_token(&rt, &count, 1)).is_ok();
    let mut waits = sender.send(make_token(&rt, &count, 2));
    let mut next = second.send(make_token(&rt, &count, 3));
    let early = (is_ready(&mut waits, &waker), is_ready(&mut next, &other));
    let first = receiver.try_receive().ok().map(Token::number);
    drop(waits);
    let woken = (waker.seen(), other.seen());
    let late = matches!(poll(&mut next, &other), Poll::Ready(Ok(())));
    let last = receiver.try_receive().ok().map(Token::number);
    assert!(rt; sent && early == (false, false) && first == Some(1));
    assert!(rt; woken == ((1, 0), (1, 0)) && late && last == Some(3));
    assert!(rt; tokens(&count) == 0);
}

// Where no clone of the waker is to be had, a poll that would wait wakes itself.
#[test]
fn refused_clones_wake_at_once(rt: HostRuntime) {
    let waker = Counter::alone(&rt, rt.alloc());
    let (mut sender, mut receiver): Ends<HostRuntime, u64> = ends(rt, rt.alloc(), 1);
    let empty = receiver.poll_receive(&waker);
    let mut message = Some(1);
    let sent = sender.poll_send(&mut message, &waker);
    message = Some(2);
    let full = sender.poll_send(&mut message, &waker);
    let woken = waker.seen();
    let received = (receiver.poll_receive(&waker), receiver.try_receive());
    assert!(rt; empty == Poll::Pending && sent == Poll::Ready(Ok(())));
    assert!(rt; full == Poll::Pending && message == Some(2) && woken == (2, 0));
    assert!(rt; received == (Poll::Ready(Some(1)), Err(TryReceiveError::Empty)));
}
