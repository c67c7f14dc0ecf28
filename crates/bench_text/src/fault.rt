ghost use Rattle.std.specs.Prelude.{◌≡◌, Some};
ghost use Rattle.bench_text.specs.declared.fault.BenchFault.TheVariants.{Memory};
ghost use Rattle.bench_text.specs.Faults.{line_of, name_of};

use std::alloc::{AllocError, AllocFailed};
use std::fmt;
use thiserror::Error;

/// Why a text isn't a netlist. Lines count from 1.
///
/// The first faulty line decides, and within a line the order of these variants, from
/// [`BadByte`](Self::BadByte) to [`BadArity`](Self::BadArity). The faults of the whole text come
/// after those of every line, except [`TooLong`](Self::TooLong), which comes before all others.
#[derive(Clone, Copy, Debug, PartialEq, Eq, Error)]
pub enum BenchFault {
    /// The text has more than 16,777,216 bytes.
    TooLong,
    /// A byte outside a comment is neither white space nor 0x21 to 0x7E.
    BadByte { line: u64 },
    /// The line has none of the forms, or a net's name begins with `$`.
    BadLine { line: u64 },
    /// A net's name has more than 255 bytes.
    NameTooLong { line: u64 },
    /// The word for the gate isn't a keyword.
    UnknownGate { line: u64 },
    /// The gate can't have this number of pins.
    BadArity { line: u64 },
    /// The line defines a name that an earlier line defines.
    DefinedTwice { line: u64 },
    /// The line uses, as a pin or an output, a name that no line defines.
    Undefined { line: u64 },
    /// No line defines a net.
    NoNets,
    /// There are more than 100,000 nets, or more than 1,000,000 pins in all.
    TooMany,
    /// An allocation failed.
    Memory,
}

impl BenchFault {
    /// Returns the line of the fault, from 1, or 0 for a fault without a line.
    pub fn line(&self) -> u64
        ensures { result ≡ line_of self.now }
    {
        match *self {
            BenchFault::BadByte { line }
            | BenchFault::BadLine { line }
            | BenchFault::NameTooLong { line }
            | BenchFault::UnknownGate { line }
            | BenchFault::BadArity { line }
            | BenchFault::DefinedTwice { line }
            | BenchFault::Undefined { line } => line,
            BenchFault::TooLong | BenchFault::NoNets | BenchFault::TooMany | BenchFault::Memory =>
                0,
        }
    }

    /// Returns the fault's name, which is its text.
    pub fn name(&self) -> &'static str
        ensures { result.now ≡ name_of self.now }
    {
        match self {
            BenchFault::TooLong => "TooLong",
            BenchFault::BadByte { .. } => "BadByte",
            BenchFault::BadLine { .. } => "BadLine",
            BenchFault::NameTooLong { .. } => "NameTooLong",
            BenchFault::UnknownGate { .. } => "UnknownGate",
            BenchFault::BadArity { .. } => "BadArity",
            BenchFault::DefinedTwice { .. } => "DefinedTwice",
            BenchFault::Undefined { .. } => "Undefined",
            BenchFault::NoNets => "NoNets",
            BenchFault::TooMany => "TooMany",
            BenchFault::Memory => "Memory",
        }
    }
}

impl fmt::Display for BenchFault {
    ghost output = { λ fault. Some (name_of fault) };

    fn fmt<W: fmt::Write>(&self, f: &mut fmt::Formatter<W>) -> Result<(), fmt::Error> {
        f.write_str(self.name())
    }
}

impl From<AllocError> for BenchFault {
    ghost from_gives = { λ _ e. e ≡ Memory };

    fn from(_error: AllocError) -> BenchFault {
        BenchFault::Memory
    }
}

impl<T: Drop> From<AllocFailed<T>> for BenchFault {
    ghost from_gives = { λ _ e. e ≡ Memory };

    fn from(_failed: AllocFailed<T>) -> BenchFault {
        BenchFault::Memory
    }
}
