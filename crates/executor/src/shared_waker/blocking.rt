//! Waiting for a future on a thread that does nothing else.
ghost use Rattle.std.specs.Prelude.{IfOk};

use async_task::{Future, Poll};
use executor_parts::{Awaiter, Mailbox};
use std::alloc::{AllocError, Global};
use std::sync::Wait;

/// Polls a future on this thread until it is ready, and sleeps between its wakes. No task is made.
///
/// `rt` is what the thread waits by, `alloc` where the memory of its mailbox comes from. The output meets what the type of the future states. An error says that there was no memory, and the future was not polled: it is dropped.
pub fn block_on<R: Wait + Drop + Copy, F: Future<Awaiter<R>>>(
    rt: R,
    alloc: Global,
    mut future: F,
) -> Result<F::Output, AllocError>
    ensures meets { IfOk result (λ output. ∥ F.Yields.meets output ∥₁) }
{
    let mailbox = Mailbox::new(rt, alloc, 1)?;
    let waker = Awaiter::new(&mailbox, 0).ok_or(AllocError)?;
    for _ in rt.forever() {
        match future.poll(&waker) {
            Poll::Ready(output) => return Ok(output),
            Poll::Pending => {
                mailbox.wait();
            }
        }
    }
    unreachable!()
}
