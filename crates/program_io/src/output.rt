//! Writing whole texts.
ghost use Rattle.std.specs.Prelude.{◌≡◌, map, IfErr, OnErr, OnOk};
ghost use Rattle.std.specs.List.{concat};
ghost use Rattle.std.specs.Io.KnownBytes.{Appends, Keeps};
ghost use Rattle.texts.specs.Written.{AppendsPrefix};
ghost use Rattle.vcd_dump.specs.Faults.{IsFailedWrite};
ghost use Rattle.program_io.specs.Ends.{WriteEndsBy};
ghost use Rattle.program_io.specs.declared.program_fault.ProgramFault.TheVariants.{Flush};

use crate::program_fault::ProgramFault;
use std::io::Write;
use texts::write_all_bytes;
use vcd_dump::DumpFault;

/// Writes a text and flushes once.
///
/// # Errors
/// `Output` if a write fails, after a prefix of the text; `Flush` if the flush fails, after all of it.
pub fn write_text<W: Write>(out: &mut W, text: &[u8]) -> Result<(), ProgramFault<'static>>
    ensures ok { OnOk result (Appends (W.contents out.old) (W.contents out.new) text.now) }
    ensures err { IfErr result (WriteEndsBy (W.contents out.old) (W.contents out.new) text.now) }
{
    match write_all_bytes(out, text) {
        Ok(()) => flush(out),
        Err(fault) => Err(ProgramFault::Output(DumpFault::from(fault))),
    }
}

/// Writes these texts one after the other. Allocates no memory.
///
/// # Errors
/// `Write` or `WroteNothing` of the first write that failed; a prefix of the texts has then been written.
pub(crate) fn write_pieces<W: Write>(out: &mut W, pieces: &[&str]) -> Result<(), DumpFault>
    ensures ok { OnOk result (Appends (W.contents out.old) (W.contents out.new)
        (concat (map (λ piece. piece.now) pieces.now))) }
    ensures err { OnErr result (AppendsPrefix (W.contents out.old) (W.contents out.new)
        (concat (map (λ piece. piece.now) pieces.now))) }
    ensures fault { IfErr result IsFailedWrite }
{
    for piece in pieces {
        write_all_bytes(out, piece.as_bytes())?;
    }
    Ok(())
}

/// Flushes the writer once.
///
/// # Errors
/// `Flush` if that fails.
pub(crate) fn flush<W: Write>(out: &mut W) -> Result<(), ProgramFault<'static>>
    ensures kept { Keeps (W.contents out.old) (W.contents out.new) }
    ensures err { IfErr result (λ fault. fault ≡ Flush) }
{
    match out.flush() {
        Ok(()) => Ok(()),
        Err(_) => Err(ProgramFault::Flush),
    }
}
