/// A value of Kleene's strong three-valued logic.
#[derive(Clone, Copy, Debug, Default, PartialEq, Eq)]
pub enum Value {
    Zero,
    One,
    /// Not known to be 0, nor to be 1: X in tables and dumps.
    #[default]
    Unknown,
}

impl Value {
    ghost use Rattle.std.specs.Prelude.{◌≡◌};
    ghost use Rattle.logic3.specs.Value.{opposite, value_text};

    /// Returns the value as dumps and stimuli write it: `0`, `1`, or `x` for an unknown one.
    pub fn text(self) -> &'static str
        ensures { result.now ≡ value_text self }
    {
        match self {
            Value::Zero => "0",
            Value::One => "1",
            Value::Unknown => "x",
        }
    }

    /// Returns the value with 0 and 1 exchanged; X stays X.
    pub(crate) fn opposite(self) -> Value
        ensures { result ≡ opposite self }
    {
        match self {
            Value::Zero => Value::One,
            Value::One => Value::Zero,
            Value::Unknown => Value::Unknown,
        }
    }
}
