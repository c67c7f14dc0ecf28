//! Words of lines, compared with texts.
ghost use Rattle.std.specs.Prelude.{◌≡◌, bytes_eq};

/// Returns whether a word is this text.
pub(crate) fn is(word: &[u8], text: &str) -> bool
    ensures { result ≡ bytes_eq word.now text.now }
{
    word == text.as_bytes()
}
