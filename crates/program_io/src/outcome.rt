//! What an answer has besides its text.
ghost use Rattle.std.specs.Prelude.{◌≡◌};
ghost use Rattle.program_io.specs.Report.{IsWritten, outcome_text};
ghost use Rattle.program_io.specs.Status.{status_of_outcome};

use crate::exit::Exit;
use crate::status::{DIFFERENT, DONE};
use cmb_kernel::Counts;
use event_trace::write_counts;
use std::io::Write;

/// The outcome of an answer that was written and flushed.
#[derive(Clone, Copy, Debug, PartialEq, Eq)]
pub enum Outcome {
    /// There is nothing else to report.
    Done,
    /// The counts at the end of a run, which were requested.
    Counted(Counts),
    /// What was compared differs.
    Differing,
}

/// Writes what is printed with an answer, or a prefix of it if the writer fails, and returns the exit. Allocates
/// no memory.
pub fn report_outcome<E: Write>(err: &mut E, outcome: Outcome) -> Exit
    ensures status { result.status ≡ status_of_outcome outcome }
    ensures reported { IsWritten (E.contents err.old) (E.contents err.new) (outcome_text outcome) result.written }
{
    match outcome {
        Outcome::Done => Exit::silent(DONE),
        Outcome::Counted(counts) => Exit {
            status: DONE,
            written: write_counts(err, counts),
        },
        Outcome::Differing => Exit::silent(DIFFERENT),
    }
}
