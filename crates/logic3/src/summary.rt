//! What a gate's value depends on.
ghost use Rattle.std.specs.Prelude.{◌≡◌, ◌++◌, [], ◌∷◌, List, length};
ghost use Rattle.logic3.specs.declared.value.Value.{Value};
ghost use Rattle.logic3.specs.Gate.{HasArity, conjunction, disjunction, only_pin, parity, value_of_gate};
ghost use Rattle.logic3.specs.Summary.{summary_of};

use crate::gates::GateKind;
use crate::value::Value;

/// What a gate's value depends on, for any number of pins. It lets a gate be computed in one pass over
/// its pins, without a list of their values.
#[derive(Clone, Copy, Debug)]
pub struct Summary {
    some_zero: bool,
    some_one: bool,
    some_unknown: bool,
    // Whether the number of 1s is odd.
    odd_ones: bool,
}

impl Summary {
    /// Returns the summary of no pins.
    pub fn new() -> Summary
        ensures { result ≡ summary_of [] }
    {
        Summary {
            some_zero: false,
            some_one: false,
            some_unknown: false,
            odd_ones: false,
        }
    }

    /// Adds the value of one more pin.
    pub fn add(&mut self, value: Value)
        ensures { (pins : List Value) → self.old ≡ summary_of pins → self.new ≡ summary_of (pins ++ value ∷ []) }
    {
        match value {
            Value::Zero => self.some_zero = true,
            Value::One => {
                self.some_one = true;
                self.odd_ones = !self.odd_ones;
            }
            Value::Unknown => self.some_unknown = true,
        }
    }

    /// Returns the value that a gate shows for pins of this summary.
    ///
    /// A gate has at least one pin, and NOT and BUF have exactly one.
    pub fn gate(&self, kind: GateKind) -> Value
        ensures { (pins : List Value) → self.now ≡ summary_of pins → HasArity kind (length pins) →
            result ≡ value_of_gate kind pins }
    {
        match kind {
            GateKind::And => self.conjunction(),
            GateKind::Nand => self.conjunction().opposite(),
            GateKind::Or => self.disjunction(),
            GateKind::Nor => self.disjunction().opposite(),
            GateKind::Xor => self.parity(),
            GateKind::Xnor => self.parity().opposite(),
            GateKind::Not => self.only().opposite(),
            GateKind::Buf => self.only(),
        }
    }

    /// Returns the value of the pin, if it is the only one.
    pub fn only(&self) -> Value
        ensures { (pins : List Value) → self.now ≡ summary_of pins → length pins ≡ 1 → result ≡ only_pin pins }
    {
        if self.some_zero {
            Value::Zero
        } else if self.some_one {
            Value::One
        } else {
            Value::Unknown
        }
    }

    /// Returns the value of AND: 0 if some pin is 0, 1 if all pins are 1, else X.
    fn conjunction(&self) -> Value
        ensures { (pins : List Value) → self.now ≡ summary_of pins → result ≡ conjunction pins }
    {
        if self.some_zero {
            Value::Zero
        } else if self.some_unknown {
            Value::Unknown
        } else {
            Value::One
        }
    }

    /// Returns the value of OR: 1 if some pin is 1, 0 if all pins are 0, else X.
    fn disjunction(&self) -> Value
        ensures { (pins : List Value) → self.now ≡ summary_of pins → result ≡ disjunction pins }
    {
        if self.some_one {
            Value::One
        } else if self.some_unknown {
            Value::Unknown
        } else {
            Value::Zero
        }
    }

    /// Returns the value of XOR: X if some pin is X, else 1 if the number of 1s is odd, else 0.
    fn parity(&self) -> Value
        ensures { (pins : List Value) → self.now ≡ summary_of pins → result ≡ parity pins }
    {
        if self.some_unknown {
            Value::Unknown
        } else if self.odd_ones {
            Value::One
        } else {
            Value::Zero
        }
    }
}
