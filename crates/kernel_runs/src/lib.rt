//! Runs by the kernel: from the texts of a circuit to the dump.
#![tactic(auto)]

mod alone;
mod answer_text;
mod check_run;
mod diff_fault;
mod diff_names;
mod diff_run;
mod diff_words;
mod draining;
mod hiding;
mod kernel_calls;
pub mod laws;
mod net_diffs;
mod pace;
mod simulation;
mod streaming;
mod sweep_run;
mod sweeps;
mod twin_run;
mod why_run;
mod windows;

pub use answer_text::{check_text, twin_text};
pub use check_run::{CheckAnswer, check};
pub use diff_fault::DiffFault;
pub use diff_run::{DiffAnswer, diff};
pub use simulation::{Report, simulate, simulate_with_progress};
pub use sweep_run::{sweep, sweep_with_progress};
pub use twin_run::{TwinAnswer, TwinFault, twin};
pub use wave_diff::{DiffTicks, Side};
pub use why_run::{why, why_with_progress};
