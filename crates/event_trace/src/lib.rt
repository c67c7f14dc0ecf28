//! Traces of runs: a line for each event, with what it did; or a table of frontiers, with a row for each round.
#![tactic(auto)]

mod counts_line;
mod events;
mod frontier_cells;
mod frontier_rows;
mod frontiers_run;
pub mod laws;
mod lines;
mod rounds;
mod shown_events;
mod trace_run;
mod trace_view;
mod tracing;
mod walk;

pub use counts_line::write_counts;
pub use frontier_rows::frontier_table;
pub use frontiers_run::frontiers;
pub use shown_events::{EVERY_EVENT, ShownEvents};
pub use trace_run::{trace, trace_shown};
pub use trace_view::TraceView;
pub use tracing::{trace_events, trace_shown_events};
