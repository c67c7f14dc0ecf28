use logic3::Value;

/// What a net shows at a tick, since when, and why.
#[derive(Clone, Copy, Debug, PartialEq, Eq)]
pub struct Cause {
    pub net: u32,
    pub tick: u64,
    pub value: Value,
    /// The tick since which it shows the value: that of its last change, or 0 if there was none.
    pub since: u64,
    /// The tick of which `reason` is: `since` if the net took the value by a change. If it shows the value
    /// since tick 0, this is `tick`, and 0 if an earlier cause has the same net with the same value since
    /// tick 0.
    pub at: u64,
    pub reason: Reason,
}

/// Why a net shows its value at a tick.
#[derive(Clone, Copy, Debug, PartialEq, Eq)]
pub enum Reason {
    /// The pin at this place among the net's pins decides: the next cause is that of its source.
    Pin(usize),
    /// The input's last stimulus up to the tick is at this tick.
    Stimulus(u64),
    /// The input has no stimulus up to the tick.
    NoStimulus,
    /// The gate's delay isn't over.
    BeforeDelay,
    /// The flip-flop's first sample doesn't show yet.
    BeforeFirstSample,
    /// The pin at this place decides, and its wire delay isn't over.
    BeforeWire(usize),
    /// A pin decides, and the net swings: it took this value again `period` ticks later, by an earlier
    /// cause. Up to then, from the tick after `since` on, it showed at each tick what it showed `period`
    /// ticks before. The next cause is that of the net at tick `since`.
    Swings { since: u64, period: u64 },
}
