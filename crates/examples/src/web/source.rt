//! Where the requests come from.
use async_task::{Poll, Wake};
use future_parts::Sender;
use std::sync::Wait;
use std::time::Duration;

/// How many requests there are.
const REQUESTS: u64 = 1000;

/// Sends all requests, one at each poll, and goes: then the channel ends.
#[derive(Drop)]
pub struct Source<R: Wait + Drop + Copy, W: Wake> {
    sender: Sender<R, Duration, W>,
    next: Option<Duration>,
    sent: u64,
}

// How long it takes to serve the request of this number: of each hundredth, longer than anyone waits.
fn request(number: u64) -> Duration {
    match number % 100 {
        99 => Duration::from_secs(3600),
        _ => Duration::from_millis(1),
    }
}

impl<R: Wait + Drop + Copy, W: Wake> Source<R, W> {
    /// Sends by this end of the channel.
    pub fn new(sender: Sender<R, Duration, W>) -> Source<R, W> {
        Source {
            sender,
            next: Some(request(0)),
            sent: 0,
        }
    }

    /// Sends the next request once there is room, and is ready once there are no more.
    pub fn poll(&mut self, waker: &W) -> Poll<()> {
        match self.sender.poll_send(&mut self.next, waker) {
            Poll::Pending => return Poll::Pending,
            Poll::Ready(Err(_)) => return Poll::Ready(()),
            Poll::Ready(Ok(())) => self.sent = self.sent.saturating_add(1),
        }
        if self.sent >= REQUESTS {
            return Poll::Ready(());
        }
        self.next = Some(request(self.sent));
        waker.wake_by_ref();
        Poll::Pending
    }
}
