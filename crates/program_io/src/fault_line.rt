//! The message and the exit status of a program that ended early.
ghost use Rattle.std.specs.Prelude.{◌++◌, IfErr, OnErr, OnOk, codes, decimal};
ghost use Rattle.std.specs.Io.KnownBytes.{Appends};
ghost use Rattle.texts.specs.Written.{AppendsPrefix, line};
ghost use Rattle.vcd_dump.specs.Faults.{IsFailedWrite};
ghost use Rattle.prepared_runs.specs.RunTexts.{seen};
ghost use Rattle.program_io.specs.Place.{fault_line};
ghost use Rattle.program_io.specs.Report.{Reports};

use crate::exit::Exit;
use crate::output::write_pieces;
use crate::place::fault_place;
use crate::program_fault::ProgramFault;
use crate::status::status;
use prepared_runs::RunTexts;
use std::io::Write;
use texts::{write_all_bytes, write_numbered};
use vcd_dump::DumpFault;

/// Writes the line `WHERE:LINE: NAME` of a fault. Allocates no memory.
///
/// # Errors
/// `Write` or `WroteNothing`; a prefix of the line has then been written.
fn write_fault_line<E: Write>(
    err: &mut E,
    fault: ProgramFault<'_>,
    names: RunTexts<&str>,
) -> Result<(), DumpFault>
    ensures ok { OnOk result (Appends (E.contents err.old) (E.contents err.new)
        (fault_line (seen names.entry) fault.entry)) }
    ensures err { OnErr result (AppendsPrefix (E.contents err.old) (E.contents err.new)
        (fault_line (seen names.entry) fault.entry)) }
    ensures fault { IfErr result IsFailedWrite }
{
    write_line_of(err, fault_place(fault, names), fault.line(), fault.name())
}

/// Writes the line `WHERE:LINE: NAME` of these three.
fn write_line_of<'a, E: Write>(
    err: &mut E,
    place: &'a str,
    number: u64,
    name: &'a str,
) -> Result<(), DumpFault>
    ensures ok { OnOk result (Appends (E.contents err.old) (E.contents err.new)
        (line (place.now ++ codes ":" ++ decimal number ++ codes ": " ++ name.now))) }
    ensures err { OnErr result (AppendsPrefix (E.contents err.old) (E.contents err.new)
        (line (place.now ++ codes ":" ++ decimal number ++ codes ": " ++ name.now))) }
    ensures fault { IfErr result IsFailedWrite }
{
    write_all_bytes(err, place.as_bytes())?;
    write_numbered(err, b":", number)?;
    write_pieces(err, &[": ", name, "\n"])
}

/// Writes the line of a fault, or a prefix of it if the writer fails, and returns the exit. Allocates no memory.
pub fn report<E: Write>(err: &mut E, fault: ProgramFault<'_>, names: RunTexts<&str>) -> Exit
    ensures { Reports (seen names.entry) fault.entry (E.contents err.old) (E.contents err.new) result }
{
    let written = write_fault_line(err, fault, names);
    Exit {
        status: status(fault),
        written,
    }
}
