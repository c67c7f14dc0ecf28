//! The interface of the simulator for callers: runs, decks, and the program without and with arguments.
#![tactic(auto)]

mod arguments;
mod carrying;
mod commander;
mod deck_fault;
pub mod laws;
mod names;
mod notes;
mod numbers;
mod parts;
mod read_reasons;
mod reasons;
mod verbose;
mod verbose_deck;
mod version;

pub use arguments::answer_arguments;
pub use circuit_info::info;
pub use command_line::{
    Asked, NoOrder, Order, PickOptions, ReadTexts, SourceOptions, asked_by_words,
};
pub use commander::{answer_order, command};
pub use fanin_cone::{ConeTextFault, cone_text};
pub use kernel_runs::{
    CheckAnswer, DiffAnswer, DiffFault, DiffTicks, Report, Side, TwinAnswer, TwinFault, check,
    diff, simulate, simulate_with_progress, twin,
};
pub use plain_runs::{DiagramFault, diagram, plain, plain_with_progress};
pub use prepared_runs::{
    DeckFault, DiagramView, DumpView, Picks, Progress, RunTexts, Sections, Selection, Show, Silent,
    SimFault, Source, View, read_sections,
};
pub use program_io::{
    OrderTexts, Outcome, ProgramFault, ReadFault, Texts, answer_deck, deck, read_text, read_texts,
    tell, write_answer,
};
pub use vcd_dump::TimeUnit;
pub use verbose::answer_verbosely;
pub use verbose_deck::tell_verbosely;
