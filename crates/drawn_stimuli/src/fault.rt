ghost use Rattle.std.specs.Prelude.{◌≡◌, Some};
ghost use Rattle.drawn_stimuli.specs.declared.fault.DriveFault.TheVariants.{Memory};
ghost use Rattle.drawn_stimuli.specs.Faults.{name_of};

use std::alloc::{AllocError, AllocFailed};
use std::fmt;
use thiserror::Error;

/// Why there is no stimulus text.
///
/// [`BadEvery`](Self::BadEvery) comes before all others. Then the first faulty drive decides, by its
/// place among the drives, counted from 0; of a range the first input with a fault, and for an input the
/// order of these variants. [`TooLong`](Self::TooLong) comes last.
#[derive(Clone, Copy, Debug, PartialEq, Eq, Error)]
pub enum DriveFault {
    /// Values are to be drawn every 0 ticks.
    BadEvery,
    /// No input has the name, and it isn't a range of inputs.
    NotAnInput { place: usize },
    /// An earlier drive is for the same input, and not both are pulses.
    Twice { place: usize },
    /// The clock would change every 0 ticks.
    BadHalf { place: usize },
    /// The pulse would end before its first tick has passed.
    BadPulse { place: usize },
    /// The number has more bits than there are inputs.
    TooWide { place: usize },
    /// The text would have more than 16,777,216 bytes.
    TooLong,
    /// An allocation failed.
    Memory,
}

impl DriveFault {
    /// Returns the fault's name, which is its text.
    pub fn name(&self) -> &'static str
        ensures { result.now ≡ name_of self.now }
    {
        match self {
            DriveFault::BadEvery => "BadEvery",
            DriveFault::NotAnInput { .. } => "NotAnInput",
            DriveFault::Twice { .. } => "Twice",
            DriveFault::BadHalf { .. } => "BadHalf",
            DriveFault::BadPulse { .. } => "BadPulse",
            DriveFault::TooWide { .. } => "TooWide",
            DriveFault::TooLong => "TooLong",
            DriveFault::Memory => "Memory",
        }
    }
}

impl fmt::Display for DriveFault {
    ghost output = { λ fault. Some (name_of fault) };

    fn fmt<W: fmt::Write>(&self, f: &mut fmt::Formatter<W>) -> Result<(), fmt::Error> {
        f.write_str(self.name())
    }
}

impl From<AllocError> for DriveFault {
    ghost from_gives = { λ _ e. e ≡ Memory };

    fn from(_error: AllocError) -> DriveFault {
        DriveFault::Memory
    }
}

impl<T: Drop> From<AllocFailed<T>> for DriveFault {
    ghost from_gives = { λ _ e. e ≡ Memory };

    fn from(_failed: AllocFailed<T>) -> DriveFault {
        DriveFault::Memory
    }
}
