//! Values, kinds of gates, and the values of gates.
use GateKind::{And, Buf, Nand, Nor, Not, Or, Xnor, Xor};
use Value::{One, Unknown, Zero};
use logic3::{GateKind, Value, gate};
use std::process::Abort;

// There are exactly these values.
fn bit(value: Value) -> Option<u8> {
    match value {
        Value::Zero => Some(0),
        Value::One => Some(1),
        Value::Unknown => None,
    }
}

// There are exactly these kinds of gates.
fn takes_one_pin(kind: GateKind) -> bool {
    match kind {
        GateKind::And | GateKind::Nand | GateKind::Or | GateKind::Nor => false,
        GateKind::Xor | GateKind::Xnor => false,
        GateKind::Not | GateKind::Buf => true,
    }
}

#[test]
fn variants(rt: HostRuntime) {
    assert!(rt; [bit(Zero), bit(One), bit(Unknown)] == [Some(0), Some(1), None]);
    assert!(rt; takes_one_pin(Not) && takes_one_pin(Buf) && !takes_one_pin(Xnor));
}

// Two pins, and their AND, OR and XOR.
static TABLE: [(Value, Value, Value, Value, Value); 6] = [
    (Zero, Zero, Zero, Zero, Zero),
    (Zero, One, Zero, One, One),
    (Unknown, Zero, Zero, Unknown, Unknown),
    (One, One, One, One, Zero),
    (One, Unknown, Unknown, One, Unknown),
    (Unknown, Unknown, Unknown, Unknown, Unknown),
];

// Two gates of these pins, of which the second is the opposite of the first.
fn are_opposites(rt: &impl Abort, first: Value, second: Value, wanted: Value) {
    let opposite: Value = gate(Not, &[wanted]);
    assert!(rt; first == wanted);
    assert!(rt; second == opposite);
}

#[test]
fn gates_of_two_pins(rt: HostRuntime) {
    for &(first, second, and, or, xor) in &TABLE {
        for pins in [[first, second], [second, first]] {
            are_opposites(&rt, gate(And, &pins), gate(Nand, &pins), and);
            are_opposites(&rt, gate(Or, &pins), gate(Nor, &pins), or);
            are_opposites(&rt, gate(Xor, &pins), gate(Xnor, &pins), xor);
        }
    }
}

#[test]
fn gates_of_one_pin(rt: HostRuntime) {
    for (pin, opposite) in [(Zero, One), (One, Zero), (Unknown, Unknown)] {
        let same: Value = gate(Buf, &[pin]);
        let turned: Value = gate(Not, &[pin]);
        assert!(rt; same == pin);
        assert!(rt; turned == opposite);
        assert!(rt; gate(And, &[pin]) == pin);
        assert!(rt; gate(Nor, &[pin]) == opposite);
    }
}

#[test]
fn gates_of_three_pins(rt: HostRuntime) {
    assert!(rt; gate(Xor, &[One, One, One]) == One);
    assert!(rt; gate(Xnor, &[One, One, One]) == Zero);
    assert!(rt; gate(And, &[One, Unknown, Zero]) == Zero);
    assert!(rt; gate(Nand, &[One, One, One]) == Zero);
}
