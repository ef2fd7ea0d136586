//! Counts futures until they are gone, for an end that waits for them.
ghost use Rattle.std.specs.Prelude.{◌≡◌, IfErr, IfOk, IfSome};
ghost use Rattle.std.specs.Arc.{arc_value};

use crate::channels::{Receiver, Sender, channel};
use std::alloc::{AllocError, Global};
use std::sync::Wait;
use task_core::{Future, Poll, Wake, Yields};

/// A tracker, and the receiver by which the end of all that it tracks is awaited: `receive` answers `None` once each tracker and each tracked future is gone, and `sender_count` how many there are until then.
///
/// `rt` is what the calls take the lock by, `alloc` where the memory comes from: all of it is taken here. `W` is the waker of the future that waits. An error says that memory was refused.
pub fn task_tracker<R: Wait + Drop + Copy, W: Wake>(
    rt: R,
    alloc: Global,
) -> Result<(TaskTracker<R, W>, Receiver<R, (), W>), AllocError>
    ensures one { IfOk result (λ ends. arc_value ends.1.state ≡ arc_value ends.0.token.state) }
{
    let (token, receiver) = channel(rt, alloc, 1, 1)?;
    Ok((TaskTracker { token }, receiver))
}

/// Tracks futures. Drop it to accept no more.
#[derive(Drop)]
pub struct TaskTracker<R: Wait + Drop + Copy, W: Wake> {
    token: Sender<R, (), W>,
}

impl<R: Wait + Drop + Copy, W: Wake> TaskTracker<R, W> {
    /// A second tracker, for another thread that spawns. It asks for no memory. `None` says that there are as many as can be counted.
    pub fn try_clone(&self) -> Option<TaskTracker<R, W>>
        ensures one { IfSome result (λ other. arc_value other.token.state ≡ arc_value self.now.token.state) }
    {
        let token = self.token.try_clone()?;
        Some(TaskTracker { token })
    }

    /// The future, which counts until it is dropped. It asks for no memory. An error hands the future back: there are as many as can be counted.
    pub fn track<F: Yields>(&self, future: F) -> Result<Tracked<R, F, W>, F>
        ensures future { IfOk result (λ tracked. tracked.future ≡ future) }
        ensures one { IfOk result (λ tracked. arc_value tracked.token.state ≡ arc_value self.now.token.state) }
        ensures refused { IfErr result (λ back. back ≡ future) }
    {
        match self.token.try_clone() {
            Some(token) => Ok(Tracked { future, token }),
            None => Err(future),
        }
    }
}

/// A future that is tracked until it is dropped.
pub struct Tracked<R: Wait + Drop + Copy, F: Yields, W: Wake> {
    future: F,
    token: Sender<R, (), W>,
}

impl<R: Wait + Drop + Copy, F: Yields, W: Wake> Drop for Tracked<R, F, W> {
    // The future is gone before who waits can be told.
    fn drop(self) {
        let Tracked { future, token } = self;
        drop(future);
        drop(token);
    }
}

impl<R: Wait + Drop + Copy, F: Yields, W: Wake> Yields for Tracked<R, F, W> {
    type Output = F::Output;

    ghost meets = { F.Yields.meets };

    ghost moves = { λ old answer new. F.Yields.moves old.future answer new.future };
}

impl<R: Wait + Drop + Copy, F: Future<V>, W: Wake, V> Future<V> for Tracked<R, F, W> {
    ghost polled = { λ old waker answer new. F.polled old.future waker answer new.future };

    fn poll(&mut self, waker: &V) -> Poll<F::Output> {
        self.future.poll(waker)
    }
}
