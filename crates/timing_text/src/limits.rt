//! The limits of times, in ticks.

/// The largest delay of a gate or a flip-flop, and the largest wire delay.
pub(crate) const MOST_DELAY: u64 = 1_000_000;

/// The last tick for a horizon or a stimulus, and the largest period.
pub(crate) const MOST_TICKS: u64 = 10_000_000;
