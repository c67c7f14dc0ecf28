//! What words of delay and stimulus texts mean.
ghost use Rattle.std.specs.Prelude.{◌≡◌};
ghost use Rattle.timing_text.specs.Words.{value_of_word};

use logic3::Value;

/// Returns the value of a word, if it means one.
pub(crate) fn value_of(word: &[u8]) -> Option<Value>
    ensures { result ≡ value_of_word word.now }
{
    match word {
        b"0" => Some(Value::Zero),
        b"1" => Some(Value::One),
        b"x" | b"X" => Some(Value::Unknown),
        _ => None,
    }
}
