//! Netlists in the .bench notation.
#![tactic(auto)]

mod fault;
pub mod laws;
mod reader;
mod statement;
mod token;
mod writer;

pub use fault::BenchFault;
pub use netlist::{Netlist, Part};
pub use reader::read;
pub use writer::{push_statement, write};
