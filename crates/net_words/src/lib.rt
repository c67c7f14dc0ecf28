//! Words that mean nets of a netlist: the name of one, or a range of the bits of a bus; and words of lists of nets, which
//! may also mean all outputs, or all nets whose names have a pattern.
#![tactic(auto)]

mod listed;
mod meant;
mod pattern;

pub use listed::{nets_listed, nets_of_words};
pub use meant::nets_meant;
