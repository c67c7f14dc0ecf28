//! Texts that wait, and are written piece by piece.
ghost use Rattle.std.specs.Prelude.{◌≡◌, ◌<◌, ◌≤◌, [], length, OnOk, OnErr};
ghost use Rattle.std.specs.Io.KnownBytes.{Appends};
ghost use Rattle.texts.specs.Written.{AppendsPrefix, GoesOut, piece_bytes};

use crate::writing::bytes::write_all_bytes;
use crate::writing::fault::WriteFault;
use std::io::Write;

// A waiting text of at least this length is written.
const PIECE: usize = 65_536;

/// Writes and removes the waiting text. Allocates nothing.
///
/// # Errors
/// As for [`write_all_bytes`]; a prefix of the text has been written then.
pub fn send<W: Write>(out: &mut W, text: &mut Vec<u8>) -> Result<(), WriteFault>
    ensures ok { OnOk result (Appends (W.contents out.old) (W.contents out.new) text.old.items) }
    ensures empty { OnOk result (text.new.items ≡ []) }
    ensures err { OnErr result (AppendsPrefix (W.contents out.old) (W.contents out.new) text.old.items) }
{
    write_all_bytes(out, text.as_slice())?;
    text.clear();
    Ok(())
}

/// Writes and removes the waiting text if it has 65,536 bytes or more; a shorter one keeps waiting.
/// Allocates nothing.
///
/// # Errors
/// As for [`send`].
pub fn send_long<W: Write>(out: &mut W, text: &mut Vec<u8>) -> Result<(), WriteFault>
    ensures ok { OnOk result
        (GoesOut (W.contents out.old) (W.contents out.new) text.old.items text.new.items) }
    ensures long { OnOk result (piece_bytes ≤ length text.old.items → text.new.items ≡ []) }
    ensures short { OnOk result (length text.old.items < piece_bytes → text.new.items ≡ text.old.items) }
    ensures err { OnErr result (AppendsPrefix (W.contents out.old) (W.contents out.new) text.old.items) }
{
    if text.len() < PIECE {
        return Ok(());
    }
    send(out, text)
}
