//! The logical process of a net: it computes what the net shows from what its pins have received.
//!
//! Times are in ticks, from tick 0 on. A frontier is the number of known ticks: of a net in its own process,
//! of the source of a pin in the process that has the pin. A process receives messages at its pins, one
//! ([`Process::receive`]) or all that a pin needs ([`Process::receive_below`]), and advances
//! ([`Process::advance`]): it computes its net as far as all that it has received allows, and returns messages
//! with what is new. Moving messages from process to process is not part of this crate: `cmb_channels` has the
//! channels, `cmb_kernel` the events. [`Processes`] holds one process for each net of a design, and [`laws`]
//! states why the messages between processes are true.
//!
//! The method is conservative: a process computes only what the messages that it has received settle, so
//! nothing is ever taken back. How far it advances past what its pins know is its lookahead, here the delay
//! of its net, and more if known pins settle its value (J. Misra, "Distributed discrete-event simulation",
//! 1986).
#![tactic(auto)]

mod advance;
mod changes;
mod cursor;
mod kept_changes;
mod kept_wave;
mod later;
pub mod laws;
mod output;
mod own_net;
mod process;
mod processes;
mod reader;
mod received;
mod two_pins;

pub use kept_wave::{KeptWave, PackedWave};
pub use process::Process;
pub use processes::Processes;
pub use reader::ProcessReader;
