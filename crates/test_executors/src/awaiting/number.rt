//! A future that answers its number.
ghost use Rattle.std.specs.Prelude.{⊤};

use async_task::{Future, Poll, Yields};

/// A future that answers its number.
#[derive(Drop)]
pub struct Number(pub u64);

impl Yields for Number {
    type Output = u64;
}

impl<W> Future<W> for Number {
    ghost polled = { λ _ _ _ _. ⊤ };

    fn poll(&mut self, _waker: &W) -> Poll<u64> {
        Poll::Ready(self.0)
    }
}
