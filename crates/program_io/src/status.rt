//! Exit statuses.
ghost use Rattle.std.specs.Prelude.{◌≡◌};
ghost use Rattle.program_io.specs.Status.{status_of};

use crate::program_fault::ProgramFault;

/// The command was carried out.
pub const DONE: u8 = 0;

/// An input is refused.
pub(crate) const REFUSED: u8 = 1;

/// The arguments are wrong.
pub const WRONG_WORDS: u8 = 2;

/// A read or a write failed.
pub(crate) const FAILED: u8 = 3;

/// An allocation failed.
pub(crate) const NO_MEMORY: u8 = 4;

/// What was compared differs.
pub(crate) const DIFFERENT: u8 = 5;

/// Returns the exit status of a fault.
pub(crate) fn status(fault: ProgramFault<'_>) -> u8
    ensures { result ≡ status_of fault.entry }
{
    match fault {
        ProgramFault::Deck(_)
        | ProgramFault::Run { .. }
        | ProgramFault::Columns(_)
        | ProgramFault::Drives(_)
        | ProgramFault::Compared(_) => REFUSED,
        ProgramFault::Read(_) | ProgramFault::Output(_) | ProgramFault::Flush => FAILED,
        ProgramFault::Memory => NO_MEMORY,
    }
}
