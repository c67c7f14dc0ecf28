//! The line of counts.
ghost use Rattle.std.specs.Prelude.{IfErr, OnErr, OnOk};
ghost use Rattle.std.specs.Io.KnownBytes.{Appends};
ghost use Rattle.texts.specs.Written.{AppendsPrefix};
ghost use Rattle.vcd_dump.specs.Faults.{IsFailedWrite};
ghost use Rattle.event_trace.specs.Lines.{counts_line};

use cmb_kernel::Counts;
use std::io::Write;
use texts::{write_all_bytes, write_numbered};
use vcd_dump::DumpFault;

/// Writes the line `events E changes C nulls N rounds R`. Allocates no memory.
///
/// # Errors
/// `Write` or `WroteNothing`; a prefix of the line has then been written.
pub fn write_counts<W: Write>(out: &mut W, counts: Counts) -> Result<(), DumpFault>
    ensures ok { OnOk result (Appends (W.contents out.old) (W.contents out.new) (counts_line counts)) }
    ensures err { OnErr result (AppendsPrefix (W.contents out.old) (W.contents out.new) (counts_line counts)) }
    ensures fault { IfErr result IsFailedWrite }
{
    write_numbered(out, b"events ", counts.events)?;
    write_numbered(out, b" changes ", counts.changes)?;
    write_numbered(out, b" nulls ", counts.nulls)?;
    write_numbered(out, b" rounds ", counts.rounds)?;
    write_all_bytes(out, b"\n")?;
    Ok(())
}
