//! Reading texts from any reader.
ghost use Rattle.std.specs.Prelude.{◌≡◌, ◌+◌, ◌<◌, ◌≤◌, IfErr, IfOk, IfSome, length, take};
ghost use Rattle.std.specs.Io.KnownBytes.{Consumes};
ghost use Rattle.texts.specs.Text.{longest_text};
ghost use Rattle.program_io.specs.Reading.{ReadingEndsBy, ReadsMore, StopsBy};
ghost use Rattle.program_io.specs.declared.input.ReadFault.TheVariants.{Memory};

use std::alloc::{AllocError, Global};
use std::io::Read;
use texts::LONGEST_TEXT;
use thiserror::Error;

/// Why a text couldn't be read.
#[derive(Clone, Copy, Debug, PartialEq, Eq, Error)]
pub enum ReadFault {
    /// The reader failed, or was interrupted.
    #[error("Read")]
    Read,
    /// An allocation failed.
    #[error("Memory")]
    Memory,
}

impl From<AllocError> for ReadFault {
    ghost from_gives = { λ _ e. e ≡ Memory };

    fn from(_error: AllocError) -> ReadFault {
        ReadFault::Memory
    }
}

/// The most bytes of a text that are read or kept: one more than the longest accepted text has, so that a longer
/// text is noticed.
pub(crate) const MOST_READ: usize = LONGEST_TEXT + 1;

/// The most bytes of one call of the reader.
const PIECE: usize = 4096;

/// Returns all bytes of the reader, or the first 16,777,217 if there are more.
///
/// # Errors
/// `Read` at the first failed call of the reader, also if it was interrupted; `Memory` if an allocation fails.
pub fn read_text<R: Read>(alloc: Global, input: &mut R) -> Result<Vec<u8>, ReadFault>
    ensures bytes { IfOk result (λ text. IfSome (R.remaining input.old)
        (λ all. text.items ≡ take (longest_text + 1) all)) }
    ensures consumed { IfOk result
        (λ text. Consumes (R.remaining input.old) (R.remaining input.new) text.items) }
    ensures bound { IfOk result (λ text. length text.items ≤ longest_text + 1) }
    ensures err { IfErr result (ReadingEndsBy (R.remaining input.old) (R.remaining input.new)) }
{
    let mut text = Vec::new(alloc);
    let mut piece = [0u8; PIECE];
    while text.len() < MOST_READ {
        let room = (MOST_READ - text.len()).min(PIECE);
        if !read_more(input, &mut piece[..room], &mut text)? {
            return Ok(text);
        }
    }
    Ok(text)
}

/// Appends what one call of the reader returns. Returns whether that was at least one byte; no memory is
/// allocated otherwise.
fn read_more<R: Read>(
    input: &mut R,
    piece: &mut [u8],
    text: &mut Vec<u8>,
) -> Result<bool, ReadFault>
    requires room { 0 < length piece.old }
    ensures ok { IfOk result (λ more. ReadsMore (R.remaining input.old) (R.remaining input.new)
        text.old.items text.new.items (length piece.old) more) }
    ensures err { IfErr result (StopsBy (R.remaining input.old) (R.remaining input.new)) }
{
    match input.read(piece) {
        Ok(0) => Ok(false),
        Ok(n) => {
            text.extend_from_slice(&piece[..n])?;
            Ok(true)
        }
        Err(_) => Err(ReadFault::Read),
    }
}
