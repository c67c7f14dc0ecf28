//! Stimulus texts from drives and draws: clocks, held values and pulses by name, and drawn values for
//! all other inputs.
#![tactic(auto)]

mod bench_stimuli;
mod drive;
mod driven_fault;
mod fault;
mod given;
mod input;
pub mod laws;
mod lines;
mod signals;
mod text;
mod ticks;

pub use bench_stimuli::stimuli;
pub use drive::{Draws, Drive, Driven};
pub use driven_fault::DrivenFault;
pub use fault::DriveFault;
pub use text::stimuli_text;
