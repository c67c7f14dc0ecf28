//! Texts that are written whole.
ghost use Rattle.std.specs.Prelude.{◌<◌, length, OnOk, OnErr};
ghost use Rattle.std.specs.Io.KnownBytes.{Appends};
ghost use Rattle.texts.specs.Written.{AppendsPrefix};

use crate::writing::fault::WriteFault;
use std::io::Write;

/// Writes the whole text, by as many calls of `write` as needed. Allocates nothing.
///
/// # Errors
/// `Write` if a call returns an error, including an interruption, and `WroteNothing` if it takes none
/// of the bytes. A prefix of the text has been written then.
pub fn write_all_bytes<W: Write>(out: &mut W, text: &[u8]) -> Result<(), WriteFault>
    ensures ok { OnOk result (Appends (W.contents out.old) (W.contents out.new) text.now) }
    ensures err { OnErr result (AppendsPrefix (W.contents out.old) (W.contents out.new) text.now) }
    ensures some { OnErr result (0 < length text.now) }
{
    let mut at = 0;
    while at < text.len() {
        match out.write(&text[at..]) {
            Ok(0) => return Err(WriteFault::WroteNothing),
            Ok(n) => at += n,
            Err(_) => return Err(WriteFault::Write),
        }
    }
    Ok(())
}
