//! A future that is ready after so many polls, counts them, and has a share of a token as long as it is there.
ghost use Rattle.std.specs.Prelude.{⊤};

use std::alloc::Global;
use std::process::Abort;
use std::sync::Arc;
use std::sync::atomic::{AtomicU64, Ordering};
use task_core::{Future, Poll, Wake, Yields};

/// Pending for `left` polls, each of which wakes the waker, and then ready with `answer`.
#[derive(Drop)]
pub struct Steps {
    left: u64,
    answer: u64,
    polls: Arc<AtomicU64>,
}

/// A count of polls. Its owners tell which futures that share it are there. Stops where there is no memory.
pub fn no_polls<R: Abort>(rt: &R, alloc: Global) -> Arc<AtomicU64> {
    Arc::new(alloc, AtomicU64::new(0)).expect(rt, "refused")
}

/// A future that counts its polls there. Stops where the count has as many owners as can be counted.
pub fn after_polls<R: Abort>(rt: &R, left: u64, answer: u64, polls: &Arc<AtomicU64>) -> Steps {
    Steps {
        left,
        answer,
        polls: Arc::try_clone(polls).expect(rt, "refused"),
    }
}

/// How many polls were counted, and how many futures count them there.
pub fn seen(polls: &Arc<AtomicU64>) -> (u64, usize) {
    (
        polls.load(Ordering::SeqCst),
        Arc::strong_count(polls).saturating_sub(1),
    )
}

impl Yields for Steps {
    type Output = u64;
}

impl<W: Wake> Future<W> for Steps {
    ghost polled = { λ _ _ _ _. ⊤ };

    fn poll(&mut self, waker: &W) -> Poll<u64> {
        self.polls.fetch_add(1, Ordering::SeqCst);
        if self.left == 0 {
            return Poll::Ready(self.answer);
        }
        self.left -= 1;
        waker.wake_by_ref();
        Poll::Pending
    }
}
