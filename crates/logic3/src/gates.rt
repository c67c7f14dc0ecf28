ghost use Rattle.std.specs.Prelude.{◌≡◌, length};
ghost use Rattle.logic3.specs.Gate.{HasArity, value_of_gate};

use crate::summary::Summary;
use crate::value::Value;

/// What a gate computes from its pins.
#[derive(Clone, Copy, Debug, PartialEq, Eq)]
pub enum GateKind {
    And,
    Nand,
    Or,
    Nor,
    Xor,
    Xnor,
    Not,
    Buf,
}

/// Returns the value that a gate shows for these values of its pins, in order: by the tables of
/// Kleene's strong logic for AND, OR and NOT; XOR is X if any pin is X.
///
/// A gate has at least one pin, and NOT and BUF have exactly one.
pub fn gate(kind: GateKind, pins: &[Value]) -> Value
    requires { HasArity kind (length pins.now) }
    ensures { result ≡ value_of_gate kind pins.now }
{
    let mut summary = Summary::new();
    for pin in pins {
        summary.add(*pin);
    }
    summary.gate(kind)
}
