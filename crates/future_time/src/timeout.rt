//! A future that is awaited for at most a given time.
ghost use Rattle.std.specs.Prelude.{◌≡◌, IfOk, IfErr};
ghost use Rattle.task_core.specs.Poll.{IfReady};
ghost use Rattle.std.specs.Arc.{arc_value};
ghost use Rattle.future_time.specs.Timeouts.{BothPolled, TimeoutPolled, IsTimeout};

use crate::entry::Elapsed;
use crate::sleep::{Closed, Sleep};
use crate::timers::{TimerError, Timers};
use std::sync::Wait;
use std::time::{Clock, Duration};
use std::{fmt, io};
use task_core::{Future, Poll, Wake, Yields};
use thiserror::Error;

/// Why a timeout has no output of its future.
#[derive(Clone, Copy, Debug, PartialEq, Eq, Error)]
#[error("{}", self.words())]
pub enum TimeoutError {
    /// The time is over.
    Elapsed(Elapsed),
    /// The timers were closed before.
    Closed,
}

impl TimeoutError {
    fn words(&self) -> &'static str {
        match self {
            TimeoutError::Elapsed(_) => "the time is over",
            TimeoutError::Closed => "the timers were closed",
        }
    }
}

impl From<TimeoutError> for io::Error {
    fn from(error: TimeoutError) -> io::Error {
        io::Error::other(error.words())
    }
}

/// A future for which there is no timer, handed back.
#[derive(Drop, Error)]
#[error("{}", self.error.words())]
pub struct Refused<F> {
    /// The future, which was not polled.
    pub future: F,
    /// Why there is no timer.
    pub error: TimerError,
}

impl<F> fmt::Debug for Refused<F> {
    fn fmt<W: fmt::Write>(&self, f: &mut fmt::Formatter<W>) -> fmt::Result {
        f.debug_struct("Refused")
            .field("error", &self.error)
            .finish_non_exhaustive()
    }
}

impl<F: Drop> From<Refused<F>> for io::Error {
    fn from(refused: Refused<F>) -> io::Error {
        io::Error::from(refused.error)
    }
}

// What a timeout has until it is over.
#[derive(Drop)]
pub struct Waited<F, S> {
    pub(crate) future: F,
    pub(crate) sleep: S,
}

/// The future of `Timers::timeout`.
#[derive(Drop)]
pub struct Timeout<R: Wait + Clock + Drop + Copy, W: Wake, F: Yields> {
    pub(crate) waited: Option<Waited<F, Sleep<R, W>>>,
}

impl<R: Wait + Clock + Drop + Copy, W: Wake> Timers<R, W> {
    /// A future that answers the output of `future`, or an error once that time is over, counted from this call. Each poll polls `future` first. At the end the future and the timer are dropped at once.
    ///
    /// Its memory is asked for here. Where there is no timer the future is handed back.
    pub fn timeout<F: Yields>(
        &self,
        duration: Duration,
        future: F,
    ) -> Result<Timeout<R, W, F>, Refused<F>>
        ensures waits { IfOk result (λ timeout. IsTimeout (arc_value self.now.shared).ticks.start duration future timeout.waited) }
        ensures future { IfErr result (λ refused. refused.future ≡ future) }
    {
        match self.sleep(duration) {
            Ok(sleep) => Ok(Timeout {
                waited: Some(Waited { future, sleep }),
            }),
            Err(error) => Err(Refused { future, error }),
        }
    }
}

impl<R: Wait + Clock + Drop + Copy, W: Wake, F: Yields> Yields for Timeout<R, W, F> {
    type Output = Result<F::Output, TimeoutError>;

    ghost meets = { λ output. IfOk output (λ it. ∥ F.Yields.meets it ∥₁) };
}

// Polls the future, and the timer where that is pending.
fn poll_both<R: Wait + Clock + Drop + Copy, W: Wake, F: Future<W>>(
    waited: &mut Waited<F, Sleep<R, W>>,
    waker: &W,
) -> Poll<Result<F::Output, TimeoutError>>
    ensures meets { IfReady result (λ output. IfOk output (λ it. ∥ F.Yields.meets it ∥₁)) }
    ensures polled { BothPolled F.polled W.cloned W.woken_by_ref waited.old waker.now result waited.new }
{
    if let Poll::Ready(output) = waited.future.poll(waker) {
        return Poll::Ready(Ok(output));
    }
    match waited.sleep.poll(waker) {
        Poll::Ready(Ok(elapsed)) => Poll::Ready(Err(TimeoutError::Elapsed(elapsed))),
        Poll::Ready(Err(Closed)) => Poll::Ready(Err(TimeoutError::Closed)),
        Poll::Pending => Poll::Pending,
    }
}

impl<R: Wait + Clock + Drop + Copy, W: Wake, F: Future<W>> Future<W> for Timeout<R, W, F> {
    ghost polled = { λ old waker answer new. TimeoutPolled F.polled W.cloned W.woken_by_ref old.waited waker answer new.waited };

    fn poll(&mut self, waker: &W) -> Poll<Result<F::Output, TimeoutError>> {
        let Some(waited) = &mut self.waited else {
            return Poll::Pending;
        };
        let answer = poll_both(waited, waker);
        if let Poll::Ready(_) = answer {
            self.waited = None;
        }
        answer
    }
}
