//! What delay and stimulus texts say about a netlist, and the settings of a run: their ranges and
//! faults.
#![tactic(auto)]

mod fault;
mod given;
mod horizon;
mod limits;
mod line;
mod settings;
mod stimuli;
mod timing;
mod timings;
mod words;

pub use fault::{DelayFault, OptionFault, StimulusFault};
pub use horizon::Horizon;
pub use settings::options;
pub use stimuli::read_stimuli;
pub use timing::{NetTimings, Timing};
pub use timings::read_timings;
