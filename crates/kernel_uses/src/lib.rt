//! Ways to build on the kernel by public calls alone: examples for authors of a simulator for many
//! processors.
#![tactic(auto)]

mod drawing;
mod driving;
mod halves;
mod recording;
mod work_lists;

pub use drawing::drive_by_draws;
pub use driving::drive;
pub use halves::{Half, Told, TurnFault, run_in_turns};
pub use recording::Recorder;
pub use work_lists::drive_by_work_list;
