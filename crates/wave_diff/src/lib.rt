//! Where two waveforms differ, and the line that reports it.
#![tactic(auto)]

mod compared;
mod comparison;
mod diff_ticks;
mod difference;
mod fault;
pub mod laws;
mod text;
mod ticks;

pub use compared::Compared;
pub use comparison::{Comparison, Side};
pub use diff_ticks::DiffTicks;
pub use difference::{Difference, first_difference};
pub use fault::ComparedFault;
pub use text::push_line;
