//! What a run starts from: its texts and settings, read and checked, and what of it is shown.
#![tactic(auto)]

mod deck_fault;
mod fault;
mod lanes;
mod nets;
mod percents;
mod preparation;
mod progress;
mod run_texts;
mod sections;
mod source;
mod view;

pub use deck_fault::DeckFault;
pub use fault::SimFault;
pub use lanes::{BusNets, Lanes, lanes_of};
pub use nets::{marks_of, net_named, shown_nets};
pub use percents::Percents;
pub use preparation::{PreparedRun, prepare, prepare_run};
pub use progress::{Progress, Silent};
pub use run_texts::{RunTexts, SECTIONS};
pub use sections::{Sections, read_sections};
pub use source::{Picks, Source};
pub use view::{DiagramView, DumpView, Selection, Show, View};
