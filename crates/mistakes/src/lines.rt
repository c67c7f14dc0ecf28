//! The lines of a text, and the first bytes of them.
ghost use Rattle.std.specs.Prelude.{◌≡◌, option_map, slice_get, take};
ghost use Rattle.mistakes.specs.Lines.{line_at};
ghost use Rattle.texts.specs.Text.{lines_of};

/// The largest number of bytes in a line that is corrected, and in the suggestion for it.
pub(crate) const LONGEST_CORRECTED: usize = 100;

/// Returns the line of a text by its number, from 1.
pub fn line_at(text: &[u8], number: u64) -> Option<&[u8]>
    ensures { option_map (λ line. line.now) result ≡ line_at number text.now }
{
    if number == 0 {
        None
    } else {
        nth_line(text, (number - 1) as usize)
    }
}

/// Returns the line of a text by its place, from 0.
fn nth_line(text: &[u8], place: usize) -> Option<&[u8]>
    ensures { option_map (λ line. line.now) result ≡ slice_get (lines_of text.now) place }
{
    text.split(|byte| *byte == b'\n').nth(place)
}

/// Returns the first bytes, up to this count: all if there are fewer.
pub fn up_to(bytes: &[u8], count: usize) -> &[u8]
    ensures { result.now ≡ take count bytes.now }
{
    if count < bytes.len() {
        &bytes[..count]
    } else {
        bytes
    }
}
