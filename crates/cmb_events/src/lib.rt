//! Events of a run, and lists of them: from a text, or picked from a seed.
#![tactic(auto)]

mod event;
mod schedule;
mod schedule_fault;

pub use event::{Event, MOST_EVENTS};
pub use schedule::Schedule;
pub use schedule_fault::ScheduleFault;
