//! What each fault means, with a text that has it and the corrected text; and the message about a fault
//! that occurred.
#![tactic(auto)]

mod above;
mod at_fault;
mod at_hand;
mod bench;
mod deck;
mod deck_start;
mod delays;
mod excerpt;
mod explanation;
mod foreign;
mod gate_words;
mod missing;
mod nets;
mod options;
mod other_parts;
mod other_texts;
mod program;
mod schedule;
mod stimuli;
mod suggestion;
mod table;
mod telling;
mod topic;
mod undefined;
mod unknown_fault;
mod words;

pub use at_hand::{AtHand, fault_text};
pub use explanation::{Example, Explanation};
pub use mistakes::{Subject, is_one_edit};
pub use table::{Table, tables};
pub use telling::{explanation_text, is_explained, names_text};
pub use unknown_fault::unknown_fault_text;
