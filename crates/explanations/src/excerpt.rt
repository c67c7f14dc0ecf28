//! The line at fault, as it is shown.
ghost use Rattle.std.specs.Prelude.{◌≡◌, ◌++◌, OnOk, option_map};
ghost use Rattle.explanations.specs.Excerpt.{cut_mark, excerpt, line_told, shown_byte, shown_line};

use mistakes::up_to;
use std::alloc::{AllocError, Global};

/// The largest number of bytes of a line that are shown.
const LONGEST_SHOWN: usize = 100;

/// Adds `line N: `, the line and a line feed, if there is such a line.
pub(crate) fn push_excerpt(
    alloc: Global,
    told: &mut Vec<u8>,
    number: u64,
    line: Option<&[u8]>,
) -> Result<(), AllocError>
    ensures { OnOk result (told.new.items ≡ told.old.items ++ excerpt number (option_map (λ line. line.now) line.entry)) }
{
    push_line(alloc, told, ": ", number, line)
}

/// Adds `line N`, the message about it, the line and a line feed, if there is such a line.
pub(crate) fn push_line(
    alloc: Global,
    told: &mut Vec<u8>,
    said: &str,
    number: u64,
    line: Option<&[u8]>,
) -> Result<(), AllocError>
    ensures { OnOk result (told.new.items ≡ told.old.items
        ++ line_told said.now number (option_map (λ line. line.now) line.entry)) }
{
    let Some(line) = line else {
        return Ok(());
    };
    let head = format!(in alloc; "line {number}{said}")?;
    told.extend_from_slice(head.as_str().as_bytes())?;
    push_shown(told, line)?;
    told.push(b'\n')?;
    Ok(())
}

/// Adds a line: only its first bytes if it is long, and `?` for each byte that isn't printable.
pub(crate) fn push_shown(told: &mut Vec<u8>, line: &[u8]) -> Result<(), AllocError>
    ensures { OnOk result (told.new.items ≡ told.old.items ++ shown_line line.now) }
{
    for byte in up_to(line, LONGEST_SHOWN) {
        told.push(shown_byte(*byte))?;
    }
    push_cut(told, line.len())
}

/// Adds two dots after a line that is cut off.
fn push_cut(told: &mut Vec<u8>, length: usize) -> Result<(), AllocError>
    ensures { OnOk result (told.new.items ≡ told.old.items ++ cut_mark length) }
{
    if length > LONGEST_SHOWN {
        told.extend_from_slice(b" ..")
    } else {
        Ok(())
    }
}

/// Returns a byte as it is shown: white space as a space, and a byte that isn't printable as `?`.
fn shown_byte(byte: u8) -> u8
    ensures { result ≡ shown_byte byte }
{
    match byte {
        b'\t' | b'\r' => b' ',
        b' '..=b'~' => byte,
        _ => b'?',
    }
}
