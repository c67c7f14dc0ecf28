//! Messages between logical processes, and the channels that carry them.
//!
//! In the conservative method of Chandy, Misra and Bryant the process of each net sends its changes to
//! the pins that the net feeds, and null messages that say how long it won't change. A channel runs from
//! a net to each pin that it feeds, and keeps the order of what is sent, so there is one list of waiting
//! messages for each pin. [`Fabric`] specifies the channels of a design. [`Logs`] implements them by a log
//! for each net, of which each pin has read a part, and [`Queues`] by a queue for each pin. Any other type
//! that meets the contracts of [`Fabric`] can be used in their place by all crates above.
//!
//! Times are in ticks, from tick 0 on. This crate is the lowest of three: `gate_process` has the process of
//! a net, which receives and sends messages, and `cmb_kernel` applies events to the processes of all nets
//! over these channels.
//!
//! Processes that share nothing and communicate by messages in order are from R. E. Bryant,
//! "Simulation of packet communication architecture computer systems" (1977), and K. M. Chandy and
//! J. Misra, "Distributed simulation: a case study in design and verification of distributed programs"
//! (1979), which has the null messages; J. Misra, "Distributed discrete-event simulation" (1986), is a survey.
#![tactic(auto)]

mod fabric;
mod fed_pins;
mod logs;
mod message;
mod packed;
mod queues;

pub use fabric::Fabric;
pub use logs::{Logs, Waiting};
pub use message::Message;
pub use packed::{Packed, PackedChange};
pub use queues::Queues;
