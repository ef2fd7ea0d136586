//! The futures that are measured.
ghost use Rattle.std.specs.Prelude.{⊤};

use async_task::{Future, Poll, Wake, Yields};

/// A future that is ready at its first poll.
#[derive(Drop)]
pub struct Ready(pub u64);

impl Yields for Ready {
    type Output = u64;
}

impl<W> Future<W> for Ready {
    ghost polled = { λ _ _ _ _. ⊤ };

    fn poll(&mut self, _waker: &W) -> Poll<u64> {
        Poll::Ready(self.0)
    }
}

/// A future that is never ready.
#[derive(Drop)]
pub struct Pending;

impl Yields for Pending {
    type Output = ();
}

impl<W> Future<W> for Pending {
    ghost polled = { λ _ _ _ _. ⊤ };

    fn poll(&mut self, _waker: &W) -> Poll<()> {
        Poll::Pending
    }
}

/// A future that wakes its own task and gives way a number of times, and then answers how often it was polled.
#[derive(Drop)]
pub struct Yielding {
    left: u64,
    polls: u64,
}

impl Yielding {
    /// A future that gives way that many times.
    pub fn new(times: u64) -> Yielding {
        Yielding {
            left: times,
            polls: 0,
        }
    }
}

impl Yields for Yielding {
    type Output = u64;
}

impl<W: Wake> Future<W> for Yielding {
    ghost polled = { λ _ _ _ _. ⊤ };

    fn poll(&mut self, waker: &W) -> Poll<u64> {
        self.polls = self.polls.wrapping_add(1);
        if self.left == 0 {
            return Poll::Ready(self.polls);
        }
        self.left -= 1;
        waker.wake_by_ref();
        Poll::Pending
    }
}
