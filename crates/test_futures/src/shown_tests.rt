//! What the errors of futures say, and how those are shown that hold a value.
//! Of what is only tested (the pages of `future_parts` and `future_time`): what errors say.
use future_parts::{TryReceiveError, TrySendError};
use future_time::{Closed, Refused, TimeoutError, TimerError};
use std::alloc::Global;
use std::error::Error;
use std::fmt::Debug;
use std::io;
use std::process::Abort;

fn shown<R: Abort, T: Debug>(rt: &R, alloc: Global, value: &T) -> String {
    format!(in alloc; "{value:?}").expect(rt, "refused")
}

// Whether an error says this, and its `io::Error` as well.
fn says<R: Abort, E: Error>(rt: &R, alloc: Global, error: E, words: &str) -> bool
where
    io::Error: From<E>,
{
    let text = format!(in alloc; "{error}").expect(rt, "refused");
    let of_io = format!(in alloc; "{}", io::Error::from(error)).expect(rt, "refused");
    text.as_str() == words && of_io.as_str() == words
}

#[test]
fn a_channel_says_what_it_refuses(rt: HostRuntime) {
    let full = TrySendError::Full(5u64);
    let closed = TrySendError::Closed(5u64);
    let texts = (
        shown(&rt, rt.alloc(), &full),
        shown(&rt, rt.alloc(), &closed),
    );
    assert!(rt; texts.0.as_str() == "Full(..)" && texts.1.as_str() == "Closed(..)");
    assert!(rt; says(&rt, rt.alloc(), full, "the channel is full"));
    assert!(rt; says(&rt, rt.alloc(), closed, "all receivers are gone"));
    assert!(rt;
        says(
            &rt,
            rt.alloc(),
            TryReceiveError::Empty,
            "no message is here"
        )
    );
    assert!(rt;
        says(
            &rt,
            rt.alloc(),
            TryReceiveError::Closed,
            "all senders are gone"
        )
    );
}

#[test]
fn timers_say_what_they_refuse(rt: HostRuntime) {
    let refused = Refused {
        future: 5u64,
        error: TimerError::Clock,
    };
    let text = shown(&rt, rt.alloc(), &refused);
    assert!(rt; text.as_str() == "Refused { error: Clock, .. }");
    assert!(rt; says(&rt, rt.alloc(), refused, "the clock has no such time"));
    assert!(rt;
        says(
            &rt,
            rt.alloc(),
            TimerError::Refused,
            "no memory for the timer"
        )
    );
    assert!(rt; says(&rt, rt.alloc(), Closed, "the timers were closed"));
    assert!(rt;
        says(
            &rt,
            rt.alloc(),
            TimeoutError::Closed,
            "the timers were closed"
        )
    );
}
