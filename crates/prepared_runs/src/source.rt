/// What a run is made of: its texts and settings.
#[derive(Clone, Copy, Debug)]
pub struct Source<'a> {
    /// The netlist, in the .bench notation.
    pub bench: &'a [u8],
    /// The delays of some gates and flip-flops.
    pub delays: &'a [u8],
    /// The changes of the inputs.
    pub stimuli: &'a [u8],
    /// The delay in ticks of what the delay text doesn't name: 1 to 1,000,000.
    pub default_delay: u64,
    /// The period in ticks of all flip-flops without a clock line: 1 to 10,000,000.
    pub period: u64,
    /// What picks the events. The plain engine doesn't read it.
    pub picks: Picks<'a>,
}

/// What picks the events that are applied before a run completes.
#[derive(Clone, Copy, Debug)]
pub enum Picks<'a> {
    /// There are none.
    Nothing,
    /// A text with a line for each event.
    Text(&'a [u8]),
    /// A generator of random words.
    Seeded {
        seed: u64,
        /// How many events: at most 10,000,000.
        picks: u64,
    },
}
