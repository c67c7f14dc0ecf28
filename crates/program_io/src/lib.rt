//! What the program reads and writes: whole texts, the lines of answers, and the message of a program that
//! ended early.
#![tactic(auto)]

mod answers;
mod deck_run;
mod exit;
mod fault_line;
mod input;
pub mod laws;
mod named_texts;
mod order_run;
mod order_texts;
mod outcome;
mod output;
mod place;
mod program_fault;
pub mod status;
mod teller;

pub use deck_run::{deck, source_of_deck, write_deck};
pub use exit::Exit;
pub use fault_line::report;
pub use input::{ReadFault, read_text};
pub use named_texts::Texts;
pub use order_run::write_answer;
pub use order_texts::{OrderTexts, read_texts};
pub use outcome::{Outcome, report_outcome};
pub use output::write_text;
pub use program_fault::ProgramFault;
pub use teller::{answer_deck, tell, unread_deck};
