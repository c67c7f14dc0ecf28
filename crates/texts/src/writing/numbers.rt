//! Numbers in decimal.
ghost use Rattle.std.specs.Prelude.{◌≡◌, ◌++◌, decimal, OnOk, OnErr};
ghost use Rattle.std.specs.Io.KnownBytes.{Appends};
ghost use Rattle.texts.specs.Written.{AppendsPrefix, numbered};

use crate::writing::bytes::write_all_bytes;
use crate::writing::fault::WriteFault;
use itoa::Buffer;
use std::alloc::AllocError;
use std::io::Write;

/// Adds a number in decimal to the end of a text.
///
/// # Errors
/// `AllocError` if an allocation fails.
pub fn push_number(text: &mut Vec<u8>, number: u64) -> Result<(), AllocError>
    ensures { OnOk result (text.new.items ≡ text.old.items ++ decimal number) }
{
    let mut digits = Buffer::new();
    text.extend_from_slice(digits.format(number).as_bytes())
}

/// Adds a text and then a number in decimal to the end of another text.
///
/// # Errors
/// `AllocError` if an allocation fails.
pub fn push_numbered(text: &mut Vec<u8>, before: &[u8], number: u64) -> Result<(), AllocError>
    ensures { OnOk result (text.new.items ≡ text.old.items ++ numbered before.now number) }
{
    text.extend_from_slice(before)?;
    push_number(text, number)
}

/// Writes a text and then a number in decimal. Allocates nothing.
///
/// # Errors
/// As for [`write_all_bytes`]; a prefix of both has been written then.
pub fn write_numbered<W: Write>(out: &mut W, before: &[u8], number: u64) -> Result<(), WriteFault>
    ensures ok { OnOk result
        (Appends (W.contents out.old) (W.contents out.new) (numbered before.now number)) }
    ensures err { OnErr result
        (AppendsPrefix (W.contents out.old) (W.contents out.new) (numbered before.now number)) }
{
    let mut digits = Buffer::new();
    write_all_bytes(out, before)?;
    write_all_bytes(out, digits.format(number).as_bytes())
}
