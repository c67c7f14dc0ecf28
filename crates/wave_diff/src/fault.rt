ghost use Rattle.std.specs.Prelude.{◌≡◌, Some};
ghost use Rattle.wave_diff.specs.Faults.{name_of};

use std::fmt;
use thiserror::Error;

/// Why waveforms can't be compared.
#[derive(Clone, Copy, Debug, PartialEq, Eq, Error)]
pub enum ComparedFault {
    /// The compared ticks would be the multiples of 0.
    BadEvery,
    /// The first tick is past the horizon of the runs.
    PastHorizon,
}

impl ComparedFault {
    /// Returns the fault's name, which is its text.
    pub fn name(&self) -> &'static str
        ensures { result.now ≡ name_of self.now }
    {
        match self {
            ComparedFault::BadEvery => "BadEvery",
            ComparedFault::PastHorizon => "PastHorizon",
        }
    }
}

impl fmt::Display for ComparedFault {
    ghost output = { λ fault. Some (name_of fault) };

    fn fmt<W: fmt::Write>(&self, f: &mut fmt::Formatter<W>) -> Result<(), fmt::Error> {
        f.write_str(self.name())
    }
}
