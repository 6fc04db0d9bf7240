//! Summaries of the times of calls.

use std::time::Duration;

/// A summary of times, in nanoseconds: the time that half of the calls do not exceed, then all but a tenth, a hundredth
/// and so on, then the longest, and the mean.
#[derive(Clone, Copy, Debug)]
pub struct Sums {
    pub p50: u64,
    pub p90: u64,
    pub p99: u64,
    pub p999: u64,
    pub p9999: u64,
    pub max: u64,
    pub mean: u64,
}

impl Sums {
    pub fn of(mut times: Vec<u64>) -> Sums {
        times.sort_unstable();
        Sums {
            p50: at(&times, 5000),
            p90: at(&times, 9000),
            p99: at(&times, 9900),
            p999: at(&times, 9990),
            p9999: at(&times, 9999),
            max: times.last().copied().unwrap_or(0),
            mean: mean(&times),
        }
    }
}

/// The time that follows this share of the sorted times, in ten-thousandths; 0 if there is none.
fn at(sorted: &[u64], share: usize) -> u64 {
    let place = sorted.len().saturating_mul(share) / 10000;
    sorted.get(place).copied().unwrap_or(0)
}

/// The mean; 0 if there is no time.
fn mean(times: &[u64]) -> u64 {
    let mut sum = 0u64;
    for time in times {
        sum = sum.saturating_add(*time);
    }
    sum.checked_div(times.len() as u64).unwrap_or(0)
}

/// The nanoseconds of a span.
pub fn nanoseconds(span: Duration) -> u64 {
    u64::try_from(span.as_nanos()).unwrap_or(u64::MAX)
}
