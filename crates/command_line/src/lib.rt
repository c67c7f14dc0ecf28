//! Parsing of the program's arguments into an order. No contract says which order
//! arguments give; tests do.
#![tactic(auto)]

mod chance;
mod check;
mod cone;
mod described;
mod diff;
mod draw;
mod drives;
mod explain;
mod help;
mod hints;
mod info;
mod numbers;
mod options;
mod order;
mod picks;
mod plain;
mod run;
mod source_options;
mod stimuli;
mod trace;
mod twin;
mod why;
mod words;

pub use order::Order;
pub use source_options::{Files, PickOptions, ReadTexts, SourceOptions};
pub use words::{Asked, NoOrder, asked_by_words};
