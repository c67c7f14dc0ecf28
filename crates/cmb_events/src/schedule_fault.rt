ghost use Rattle.std.specs.Prelude.{◌≡◌, Some};
ghost use Rattle.cmb_events.specs.declared.schedule_fault.ScheduleFault.TheVariants.{Memory};
ghost use Rattle.cmb_events.specs.ScheduleFaults.{line_of, name_of};

use std::alloc::{AllocError, AllocFailed};
use std::fmt;
use thiserror::Error;

/// Why there is no schedule. Lines count from 1.
///
/// The first faulty line decides, and within a line the order of these variants;
/// [`TooLong`](Self::TooLong) and [`TooManyEvents`](Self::TooManyEvents) come before all others.
#[derive(Clone, Copy, Debug, PartialEq, Eq, Error)]
pub enum ScheduleFault {
    /// The text has more than 16,777,216 bytes.
    TooLong,
    /// The line is neither `advance NAME` nor `deliver NAME PLACE` with a number for the place.
    BadLine { line: u64 },
    /// No net has this name.
    UnknownNet { line: u64 },
    /// The net has no pin at this place.
    BadPin { line: u64 },
    /// There are more than 10,000,000 picks.
    TooManyEvents,
    /// An allocation failed.
    Memory,
}

impl ScheduleFault {
    /// Returns the line of the fault, from 1, or 0 for a fault without a line.
    pub fn line(&self) -> u64
        ensures { result ≡ line_of self.now }
    {
        match *self {
            ScheduleFault::BadLine { line }
            | ScheduleFault::UnknownNet { line }
            | ScheduleFault::BadPin { line } => line,
            ScheduleFault::TooLong | ScheduleFault::TooManyEvents | ScheduleFault::Memory => 0,
        }
    }

    /// Returns the fault's name, which is its text.
    pub fn name(&self) -> &'static str
        ensures { result.now ≡ name_of self.now }
    {
        match self {
            ScheduleFault::TooLong => "TooLong",
            ScheduleFault::BadLine { .. } => "BadLine",
            ScheduleFault::UnknownNet { .. } => "UnknownNet",
            ScheduleFault::BadPin { .. } => "BadPin",
            ScheduleFault::TooManyEvents => "TooManyEvents",
            ScheduleFault::Memory => "Memory",
        }
    }
}

impl fmt::Display for ScheduleFault {
    ghost output = { λ fault. Some (name_of fault) };

    fn fmt<W: fmt::Write>(&self, f: &mut fmt::Formatter<W>) -> Result<(), fmt::Error> {
        f.write_str(self.name())
    }
}

impl From<AllocError> for ScheduleFault {
    ghost from_gives = { λ _ e. e ≡ Memory };

    fn from(_error: AllocError) -> ScheduleFault {
        ScheduleFault::Memory
    }
}

impl<T: Drop> From<AllocFailed<T>> for ScheduleFault {
    ghost from_gives = { λ _ e. e ≡ Memory };

    fn from(_failed: AllocFailed<T>) -> ScheduleFault {
        ScheduleFault::Memory
    }
}
