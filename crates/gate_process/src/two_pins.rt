//! What a gate of two pins shows.
ghost use Rattle.std.specs.Prelude.{◌≡◌, [], ◌∷◌};
ghost use Rattle.logic3.specs.Gate.{HasArity, value_of_gate};

use logic3::GateKind;
use logic3::Value::{self, One, Unknown, Zero};

/// The values of a gate, by the value of its first pin and then by that of its second, each in the order
/// 0, 1, X.
type Table = [[Value; 3]; 3];

static AND: Table = [
    [Zero, Zero, Zero],
    [Zero, One, Unknown],
    [Zero, Unknown, Unknown],
];

static NAND: Table = [
    [One, One, One],
    [One, Zero, Unknown],
    [One, Unknown, Unknown],
];

static OR: Table = [
    [Zero, One, Unknown],
    [One, One, One],
    [Unknown, One, Unknown],
];

static NOR: Table = [
    [One, Zero, Unknown],
    [Zero, Zero, Zero],
    [Unknown, Zero, Unknown],
];

static XOR: Table = [
    [Zero, One, Unknown],
    [One, Zero, Unknown],
    [Unknown, Unknown, Unknown],
];

static XNOR: Table = [
    [One, Zero, Unknown],
    [Zero, One, Unknown],
    [Unknown, Unknown, Unknown],
];

/// Returns what a gate of two pins shows. NOT and BUF have one.
pub fn gate_of_two(kind: GateKind, first: Value, second: Value) -> Value
    requires { HasArity kind 2 }
    ensures { result ≡ value_of_gate kind (first ∷ second ∷ []) }
{
    let (first, second) = (first as usize, second as usize);
    match kind {
        GateKind::And => AND[first][second],
        GateKind::Nand => NAND[first][second],
        GateKind::Or => OR[first][second],
        GateKind::Nor => NOR[first][second],
        GateKind::Xor => XOR[first][second],
        GateKind::Xnor => XNOR[first][second],
        GateKind::Not | GateKind::Buf => Unknown,
    }
}
