//! The explanations of each subject.
ghost use Rattle.std.specs.Prelude.{◌≡◌};
ghost use Rattle.explanations.specs.Explained.{AreTables};

use crate::bench::BENCH;
use crate::deck::DECK;
use crate::delays::DELAYS;
use crate::explanation::Explanation;
use crate::options::{COLUMNS, DRIVES, NAMES, SETTINGS, TICKS};
use crate::program::PROGRAM;
use crate::schedule::SCHEDULE;
use crate::stimuli::STIMULI;
use mistakes::Subject;

/// The explanations of the faults of a subject, in the order of its rules.
#[derive(Clone, Copy, Debug)]
pub struct Table {
    pub subject: Subject,
    pub explanations: &'static [Explanation],
}

/// Returns the tables of all subjects, in order. Their explanations aren't in a contract, but tested.
pub fn tables() -> [Table; 11]
    ensures { AreTables result }
{
    [
        table_of(Subject::Bench, &BENCH),
        table_of(Subject::Delays, &DELAYS),
        table_of(Subject::Stimuli, &STIMULI),
        table_of(Subject::Schedule, &SCHEDULE),
        table_of(Subject::Deck, &DECK),
        table_of(Subject::Settings, &SETTINGS),
        table_of(Subject::Columns, &COLUMNS),
        table_of(Subject::Drives, &DRIVES),
        table_of(Subject::Ticks, &TICKS),
        table_of(Subject::Names, &NAMES),
        table_of(Subject::Program, &PROGRAM),
    ]
}

fn table_of(subject: Subject, explanations: &'static [Explanation]) -> Table
    ensures { result.subject ≡ subject }
{
    Table {
        subject,
        explanations,
    }
}
