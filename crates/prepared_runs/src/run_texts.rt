//! What belongs to each of the texts of a run.

/// One thing for each text of a run: the texts themselves, their files, or their names.
#[derive(Debug, Drop)]
pub struct RunTexts<T> {
    /// That of the netlist, in the .bench notation.
    pub bench: T,
    /// That of the delays of some gates and flip-flops.
    pub delays: T,
    /// That of the changes of the inputs.
    pub stimuli: T,
    /// That of the events that are applied first.
    pub schedule: T,
}

/// The names of the sections of a deck: the words of their markers.
pub const SECTIONS: RunTexts<&'static str> = RunTexts {
    bench: "bench",
    delays: "delays",
    stimuli: "stimuli",
    schedule: "schedule",
};
