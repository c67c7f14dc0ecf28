//! Numbers in decimal digits.
ghost use Rattle.std.specs.Prelude.{◌≡◌, ◌^◌, ◌-◌, min, option_map};
ghost use Rattle.texts.specs.Text.{number_of};

/// Returns the value of a word of one or more decimal digits, with any number of leading zeros. A
/// value too large for a `u64` becomes the largest one, so that it exceeds every limit.
pub fn number(word: &[u8]) -> Option<u64>
    ensures { result ≡ option_map (min (2 ^ 64 - 1)) (number_of word.now) }
{
    if word.is_empty() {
        return None;
    }
    let mut value: u64 = 0;
    for byte in word {
        if !byte.is_ascii_digit() {
            return None;
        }
        value = value
            .saturating_mul(10)
            .saturating_add(u64::from(*byte - b'0'));
    }
    Some(value)
}
