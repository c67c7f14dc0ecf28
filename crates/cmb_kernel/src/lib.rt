//! The kernel: applies events in any order to a process for each net, over channels of a generic kind.
//!
//! An event lets a pin take the oldest message that waits there, or lets a net advance: the net is computed
//! as far as its pins allow, and sends what is new to the pins that it feeds. The driver chooses the events
//! and their order. [`Kernel`] has some drivers built in: one event ([`Kernel::apply`]), a list, a round, a
//! sweep through nets, or rounds to the end ([`Kernel::complete`]). For a driver of your own, three laws are
//! enough:
//!
//! - whatever events are applied, what nets and pins know is true ([`laws::truth`]), so complete runs show
//!   the same, whatever the order of their events ([`laws::order_plays_no_part`]);
//! - a run that isn't complete has a useful event ([`laws::no_deadlock`]; [`Kernel::useful`] returns one,
//!   [`Kernel::is_useful`] whether an event is useful, and [`laws::deliveries`] and [`laws::advances`] state
//!   which events are useful and what they leave unchanged);
//! - the number of useful events is limited, and what is left of a run's progress is a measure for a driver's
//!   loop ([`laws::progress_left`]).
//!
//! Times are in ticks, from tick 0 on. `cmb_channels` has two kinds of channels, and the contracts for a kind
//! of your own; `gate_process` has the process of a net.
//!
//! That such a run gives true values and, with null messages, never deadlocks is from K. M. Chandy and J.
//! Misra, "Distributed simulation: a case study in design and verification of distributed programs" (1979),
//! and R. E. Bryant, "Simulation of packet communication architecture computer systems" (1977).
#![tactic(auto)]

mod counts;
mod fault;
mod kernel;
pub mod laws;

pub use cmb_events::{Event, Schedule, ScheduleFault};
pub use counts::Counts;
pub use fault::KernelFault;
pub use kernel::Kernel;
