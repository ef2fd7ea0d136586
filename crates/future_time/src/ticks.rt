//! Between instants and ticks of a millisecond.
ghost use Rattle.std.specs.Prelude.{◌≡◌, ◌+◌, ◌-◌, ◌*◌, ◌^◌, ◌<◌, ◌≤◌, IfSome, IsNone};
ghost use Rattle.std.specs.Duration.{as_nanos};
ghost use Rattle.std.specs.Time.{instant_nanos, FitsClock};

use std::time::{Duration, Instant};

const NANOS_PER_TICK: u128 = 1_000_000;

// No clock reaches it: `tick_at` answers less.
pub(crate) const LAST_TICK: u64 = u64::MAX;

/// Counts ticks from an instant on.
#[derive(Clone, Copy)]
pub struct Ticks {
    pub(crate) start: Instant,
}

// How many ticks a duration takes, rounded up. One that takes more than can be counted takes the last tick.
pub(crate) fn ticks_of(duration: Duration) -> u64
    ensures no_less { result < LAST_TICK → as_nanos duration ≤ result * NANOS_PER_TICK }
    ensures least { result * NANOS_PER_TICK < as_nanos duration + NANOS_PER_TICK }
{
    let nanos = duration.as_nanos();
    let ticks = nanos / NANOS_PER_TICK + u128::from(nanos % NANOS_PER_TICK != 0);
    ticks.min(u128::from(LAST_TICK)) as u64
}

impl Ticks {
    // The first tick that is not before an instant; the last one where that cannot be counted.
    pub(crate) fn tick_for(&self, deadline: Instant) -> u64
        ensures not_before { result < LAST_TICK → instant_nanos deadline ≤ instant_nanos self.now.start + result * NANOS_PER_TICK }
        ensures least { result * NANOS_PER_TICK < (instant_nanos deadline - instant_nanos self.now.start) + NANOS_PER_TICK }
    {
        ticks_of(deadline.duration_since(self.start))
    }

    // The last tick that is not after an instant. It is below the last one of all.
    pub(crate) fn tick_at(&self, now: Instant) -> u64
        ensures not_after { result * NANOS_PER_TICK ≤ instant_nanos now - instant_nanos self.now.start }
        ensures below_last { result < LAST_TICK }
    {
        let ticks = now.duration_since(self.start).as_millis();
        ticks.min(u128::from(LAST_TICK - 1)) as u64
    }

    // The instant of a tick. `None` where the clock does not reach it.
    pub(crate) fn instant_of(&self, tick: u64) -> Option<Instant>
        ensures { IfSome result (λ at. instant_nanos at ≡ instant_nanos self.now.start + tick * NANOS_PER_TICK) }
    {
        self.start.checked_add(Duration::from_millis(tick))
    }

    // How long it is from an instant until a tick.
    pub(crate) fn until(&self, tick: u64, now: Instant) -> Duration
        ensures { as_nanos result ≡ tick * NANOS_PER_TICK - (instant_nanos now - instant_nanos self.now.start) }
    {
        Duration::from_millis(tick).saturating_sub(now.duration_since(self.start))
    }
}
