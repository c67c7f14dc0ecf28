//! A netlist with timing, wire delays and stimuli, its defining equations, and the plain engine.
#![tactic(auto)]

mod design;
mod fault;
pub mod laws;
mod order;
pub mod plain;
mod samples;
mod segments;

pub use design::Design;
pub use fault::BuildFault;
pub use order::flow_order;
pub use plain::plain_waves;
pub use samples::{asked_tick, first_asker};
pub use segments::{Segment, segments_of};
pub use timing_text::{DelayFault, Horizon, OptionFault, StimulusFault, options};
