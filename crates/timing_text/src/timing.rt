//! The timing of a net.
use flat_lists::FlatLists;
use logic3::Value;

/// When a net reads its pins, in ticks, and what it shows before that.
#[derive(Clone, Copy, Debug, PartialEq, Eq)]
pub struct Timing {
    /// 0 for an input, else 1 to 1,000,000.
    pub delay: u64,
    /// 1 to 10,000,000 for a flip-flop, else 0.
    pub period: u64,
    /// A flip-flop samples at the ticks of at least 1 whose remainder by the period is this. Less than
    /// the period for a flip-flop, else 0.
    pub phase: u64,
    /// What a flip-flop shows before its first sample shows; X for all other nets.
    pub initial: Value,
}

/// The timing of each net, and the wire delays of its pins, by net number.
#[derive(Debug, Drop)]
pub struct NetTimings {
    pub timings: Vec<Timing>,
    /// The wire delay of each pin of a net in ticks, in the order of the pins: 0 to 1,000,000.
    pub wires: FlatLists<u32>,
}
