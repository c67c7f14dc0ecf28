ghost use Rattle.std.specs.Prelude.{◌≡◌, Some};
ghost use Rattle.timing_diagram.specs.Faults.{name_of};

use std::fmt;
use thiserror::Error;

/// Why ticks can't be drawn.
#[derive(Clone, Copy, Debug, PartialEq, Eq, Error)]
pub enum ColumnsFault {
    /// A column would have no tick.
    NoStep,
    /// The last tick is before the first.
    Backwards,
    /// The last tick is past the horizon of the run.
    PastHorizon,
    /// There are more than 1,000 columns.
    TooManyColumns,
    /// There are more than 2,000,000 values in a page.
    TooManyChanges,
}

impl ColumnsFault {
    /// Returns the fault's name, which is its text.
    pub fn name(&self) -> &'static str
        ensures { result.now ≡ name_of self.now }
    {
        match self {
            ColumnsFault::NoStep => "NoStep",
            ColumnsFault::Backwards => "Backwards",
            ColumnsFault::PastHorizon => "PastHorizon",
            ColumnsFault::TooManyColumns => "TooManyColumns",
            ColumnsFault::TooManyChanges => "TooManyChanges",
        }
    }
}

impl fmt::Display for ColumnsFault {
    ghost output = { λ fault. Some (name_of fault) };

    fn fmt<W: fmt::Write>(&self, f: &mut fmt::Formatter<W>) -> Result<(), fmt::Error> {
        f.write_str(self.name())
    }
}
