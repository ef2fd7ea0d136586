//! How long a wait may last that ends at a deadline.
ghost use Rattle.std.specs.Prelude.{◌≡◌, ◌-◌, IfOk, OnErr};
ghost use Rattle.std.specs.Duration.{as_nanos};
ghost use Rattle.std.specs.Time.{instant_nanos};

use std::io;
use std::time::{Clock, Duration, Instant};

/// How long it is until the deadline, by the clock of the runtime. Nothing once it has passed, or where that clock has no answer.
///
/// No clause says how long: only the runtime knows what its clock answers.
pub fn left_until<R: Clock>(rt: &R, deadline: Instant) -> Duration {
    left_from(Instant::now(rt), deadline)
}

// How long it is from what a clock answered.
fn left_from(now: io::Result<Instant>, deadline: Instant) -> Duration
    ensures left { IfOk now (λ now. as_nanos result ≡ instant_nanos deadline - instant_nanos now) }
    ensures none { OnErr now (as_nanos result ≡ 0) }
{
    match now {
        Ok(now) => deadline.saturating_duration_since(now),
        Err(_) => Duration::from_secs(0),
    }
}

/// A deadline was over, by the clock of the runtime. Only a look at that clock makes one.
#[derive(Drop)]
pub(crate) struct Over(());

// How long it is until the deadline. An error says that it is over, or that the clock has no answer. As of `left_until`, no clause says when.
pub(crate) fn time_until<R: Clock>(rt: &R, deadline: Instant) -> Result<Duration, Over> {
    let left = left_until(rt, deadline);
    if left.is_zero() {
        return Err(Over(()));
    }
    Ok(left)
}
