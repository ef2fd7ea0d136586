//! Times of operations: how long one takes, how many there were in a second, and the median and the least of repeated measurements.

use crate::failure::Failure;
use std::fmt;
use std::time::Duration;

/// A number in hundredths, as of a nanosecond, which is shown with two decimals.
#[derive(Drop)]
pub struct Hundredths(pub u64);

impl fmt::Display for Hundredths {
    fn fmt<W: fmt::Write>(&self, f: &mut fmt::Formatter<W>) -> fmt::Result {
        let whole = self.0 / 100;
        let rest = self.0 % 100;
        write!(f, "{whole}.{rest:02}")
    }
}

/// The time of one operation, in hundredths of a nanosecond, where `count` operations took `elapsed`. Of no operations it is the greatest number.
pub fn hundredths_of_one(elapsed: Duration, count: u64) -> u64 {
    let hundredths = elapsed.as_nanos().saturating_mul(100);
    let one = hundredths
        .checked_div(u128::from(count))
        .unwrap_or(u128::MAX);
    u64::try_from(one).unwrap_or(u64::MAX)
}

/// What repeated measurements gave.
#[derive(Drop)]
pub struct Summary {
    /// The median; of an even number of measurements, the greater of the two in the middle.
    pub median: u64,
    /// The least.
    pub least: u64,
}

/// The median and the least of measurements. An `Err` says that there are none.
pub fn summarize(mut measured: Vec<u64>) -> Result<Summary, Failure> {
    measured.sort_unstable();
    let least = measured.first().copied().ok_or(Failure::Unexpected)?;
    let median = measured.get(measured.len() / 2).copied();
    Ok(Summary {
        median: median.unwrap_or(least),
        least,
    })
}

/// How many of these there were in a second; in no time, none.
pub fn per_second(number: u64, elapsed: Duration) -> u64 {
    let scaled = u128::from(number).saturating_mul(1_000_000_000);
    let rate = scaled.checked_div(elapsed.as_nanos()).unwrap_or(0);
    u64::try_from(rate).unwrap_or(u64::MAX)
}
