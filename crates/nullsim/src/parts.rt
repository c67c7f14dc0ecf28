//! Exits for which two texts are printed.
ghost use Rattle.std.specs.Prelude.{◌≡◌};
ghost use Rattle.nullsim.specs.Parts.{both};

use program_io::Exit;
use vcd_dump::DumpFault;

/// Returns the exit after more was printed: the first fault counts.
pub(crate) fn followed(exit: Exit, more: Result<(), DumpFault>) -> Exit
    ensures status { result.status ≡ exit.status }
    ensures written { result.written ≡ both exit.written more }
{
    let written = match exit.written {
        Ok(()) => more,
        Err(fault) => Err(fault),
    };
    Exit {
        status: exit.status,
        written,
    }
}
