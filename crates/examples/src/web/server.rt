//! A server: it takes requests, and serves each while it has a permit, until a timeout.
use crate::web::job::Tally;
use async_task::{Future, Poll, Wake};
use future_parts::{Acquire, Permit, Receiver, Semaphore};
use future_time::{Sleep, Timeout, Timers};
use std::sync::Wait;
use std::time::{Clock, Duration};

/// How many milliseconds a request may take.
const PATIENCE: u64 = 1_000;

/// Serves one request after another until none is left.
#[derive(Drop)]
pub struct Server<R: Wait + Clock + Drop + Copy, W: Wake> {
    requests: Receiver<R, Duration, W>,
    permits: Semaphore<R, W>,
    timers: Timers<R, W>,
    stage: Stage<R, W>,
}

/// How far a server is.
#[derive(Drop)]
enum Stage<R: Wait + Clock + Drop + Copy, W: Wake> {
    /// It waits for a request.
    Idle,
    /// It has one, and waits for a permit.
    Asks(Duration, Acquire<R, W>),
    /// It serves it.
    Serves(Permit<R, W>, Timeout<R, W, Sleep<R, W>>),
}

impl<R: Wait + Clock + Drop + Copy, W: Wake> Server<R, W> {
    /// A server that has served nothing yet.
    pub fn new(
        requests: Receiver<R, Duration, W>,
        permits: Semaphore<R, W>,
        timers: Timers<R, W>,
    ) -> Server<R, W> {
        Server {
            requests,
            permits,
            timers,
            stage: Stage::Idle,
        }
    }

    /// Goes to the next stage, where that can be, and is ready once there are no more requests.
    pub fn poll(&mut self, waker: &W, tally: &Tally) -> Poll<()> {
        let next = match &mut self.stage {
            Stage::Idle => match self.requests.poll_receive(waker) {
                Poll::Ready(None) => return Poll::Ready(()),
                Poll::Ready(Some(request)) => ask(&self.permits, request),
                Poll::Pending => return Poll::Pending,
            },
            Stage::Asks(request, acquire) => match acquire.poll(waker) {
                Poll::Ready(permit) => serve(&self.timers, *request, permit),
                Poll::Pending => return Poll::Pending,
            },
            Stage::Serves(_, timeout) => match timeout.poll(waker) {
                Poll::Ready(answer) => {
                    tally.count(answer.is_ok());
                    Stage::Idle
                }
                Poll::Pending => return Poll::Pending,
            },
        };
        self.stage = next;
        waker.wake_by_ref();
        Poll::Pending
    }
}

// Waits for a permit. A request for which there are too many handles is lost.
fn ask<R: Wait + Clock + Drop + Copy, W: Wake>(
    permits: &Semaphore<R, W>,
    request: Duration,
) -> Stage<R, W> {
    match permits.try_clone() {
        Some(permits) => Stage::Asks(request, permits.acquire()),
        None => Stage::Idle,
    }
}

// Begins to serve. A request for which there is no timer is lost.
fn serve<R: Wait + Clock + Drop + Copy, W: Wake>(
    timers: &Timers<R, W>,
    request: Duration,
    permit: Permit<R, W>,
) -> Stage<R, W> {
    let Ok(service) = timers.sleep(request) else {
        return Stage::Idle;
    };
    match timers.timeout(Duration::from_millis(PATIENCE), service) {
        Ok(timeout) => Stage::Serves(permit, timeout),
        Err(_) => Stage::Idle,
    }
}
