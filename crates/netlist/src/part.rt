ghost use Rattle.std.specs.Prelude.{◌≡◌};
ghost use Rattle.netlist.specs.Part.{is_flop, is_gate, is_input};

use logic3::GateKind;

/// What drives a net.
#[derive(Clone, Copy, Debug, PartialEq, Eq)]
pub enum Part {
    Input,
    Gate(GateKind),
    /// A flip-flop; its clock is implicit.
    Flop,
}

impl Part {
    /// Returns whether it is an input.
    pub fn is_input(self) -> bool
        ensures { result ≡ is_input self }
    {
        matches!(self, Part::Input)
    }

    /// Returns whether it is a gate.
    pub fn is_gate(self) -> bool
        ensures { result ≡ is_gate self }
    {
        matches!(self, Part::Gate(_))
    }

    /// Returns whether it is a flip-flop.
    pub fn is_flop(self) -> bool
        ensures { result ≡ is_flop self }
    {
        matches!(self, Part::Flop)
    }
}
