//! The text of a value change dump (IEEE 1364-2005).
#![tactic(auto)]

mod codes;
mod dumper;
mod fault;
mod gathering;
pub mod laws;
mod line;
mod lines;
mod sorting;
mod stream;
mod unit;
mod writer;

pub use dumper::dump;
pub use fault::DumpFault;
pub use stream::Stream;
pub use unit::TimeUnit;
