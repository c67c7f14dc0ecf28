//! Three-valued logic: values, gate tables and waveforms.
#![tactic(auto)]

mod change;
mod change_queue;
mod gates;
pub mod laws;
mod summary;
mod value;
mod waveform;

pub use change::{Change, changes_until, value_after};
pub use change_queue::ChangeQueue;
pub use gates::{GateKind, gate};
pub use summary::Summary;
pub use value::Value;
pub use waveform::Waveform;
