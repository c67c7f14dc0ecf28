//! Runs by the plain engine: their dumps, timing diagrams, and notes on them.
#![tactic(auto)]

mod diagram_fault;
mod diagram_run;
mod doubt;
mod dumping;
pub mod laws;
mod likeness;
mod notes;
mod plain_run;
mod remark;
mod text;
mod unused;

pub use diagram_fault::DiagramFault;
pub use diagram_run::{diagram, diagram_with_progress};
pub use notes::notes_text;
pub use plain_run::{plain, plain_with_progress};
