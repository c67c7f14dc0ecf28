//! The ticks of a comparison of two runs.

/// The ticks of two runs, and which of them are compared.
#[derive(Clone, Copy, Debug, PartialEq, Eq)]
pub struct DiffTicks {
    /// The last tick of both runs: at most 10,000,000.
    pub horizon: u64,
    /// The first tick that is compared: at most the horizon.
    pub from: u64,
    /// Only multiples of this number of ticks are compared: at least 1.
    pub every: u64,
}
