ghost use Rattle.std.specs.Prelude.{◌≡◌, Some};
ghost use Rattle.prepared_runs.specs.declared.deck_fault.DeckFault.TheVariants.{Sim};
ghost use Rattle.prepared_runs.specs.DeckFaults.{line_of, name_of};

use crate::fault::SimFault;
use std::fmt;
use thiserror::Error;

/// Why the run of a deck ended early. Lines count from 1.
#[derive(Clone, Copy, Debug, PartialEq, Eq, Error)]
pub enum DeckFault {
    /// The text has more than 16,777,216 bytes.
    TooLong,
    /// The first line that breaks a rule of decks.
    BadDeck { line: u64 },
    /// The run of its sections ended early.
    Sim(SimFault),
}

impl DeckFault {
    /// Returns the line of the fault in its text, from 1, or 0 for a fault without a line.
    pub fn line(&self) -> u64
        ensures { result ≡ line_of self.now }
    {
        match self {
            DeckFault::BadDeck { line } => *line,
            DeckFault::Sim(fault) => fault.line(),
            DeckFault::TooLong => 0,
        }
    }

    /// Returns the fault's name, which is its text.
    pub fn name(&self) -> &'static str
        ensures { result.now ≡ name_of self.now }
    {
        match self {
            DeckFault::TooLong => "TooLong",
            DeckFault::BadDeck { .. } => "BadDeck",
            DeckFault::Sim(fault) => fault.name(),
        }
    }
}

impl fmt::Display for DeckFault {
    ghost output = { λ fault. Some (name_of fault) };

    fn fmt<W: fmt::Write>(&self, f: &mut fmt::Formatter<W>) -> Result<(), fmt::Error> {
        f.write_str(self.name())
    }
}

impl From<SimFault> for DeckFault {
    ghost from_gives = { λ fault e. e ≡ Sim fault };

    fn from(fault: SimFault) -> DeckFault {
        DeckFault::Sim(fault)
    }
}
