//! What several test crates have in common: texts of circuits, dumps of worked runs, faulty writers.
#![tactic(auto)]

pub mod dumps;
mod s27;
mod writers;

pub use s27::{S27_BENCH, S27_STIMULI};
pub use writers::{Narrow, SLIPS, Slip, Stumbling};
