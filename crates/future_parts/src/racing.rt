//! A future that awaits the first of two futures that is ready.
ghost use Rattle.std.specs.Prelude.{◌≡◌};
ghost use Rattle.future_parts.specs.Racing.{AfterFirst, MeetsOne};

use task_core::{Future, Poll, Yields};

/// Which future of a race was ready, and its output.
#[derive(Debug, PartialEq, Eq, Drop)]
pub enum Raced<T, U> {
    /// The first one.
    First(T),
    /// The second one. The first one was not ready at that poll.
    Second(U),
}

/// The future of `race`.
#[derive(Drop)]
pub struct Race<A: Yields, B: Yields> {
    pub(crate) first: A,
    pub(crate) second: B,
}

impl<A: Yields, B: Yields> Yields for Race<A, B> {
    type Output = Raced<A::Output, B::Output>;

    ghost meets = { MeetsOne A.Yields.meets B.Yields.meets };
}

impl<W, A: Future<W>, B: Future<W>> Future<W> for Race<A, B> {
    // The first one was polled by this waker, and then the second one, if the first was pending.
    ghost polled = { λ old waker answer new. (own : _) × A.polled old.first waker own new.first × AfterFirst B.polled own old.second waker answer new.second };

    fn poll(&mut self, waker: &W) -> Poll<Raced<A::Output, B::Output>> {
        if let Poll::Ready(output) = self.first.poll(waker) {
            return Poll::Ready(Raced::First(output));
        }
        match self.second.poll(waker) {
            Poll::Ready(output) => Poll::Ready(Raced::Second(output)),
            Poll::Pending => Poll::Pending,
        }
    }
}
