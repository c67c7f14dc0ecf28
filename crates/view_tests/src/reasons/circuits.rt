//! Worked circuits, each with its timing, its stimuli and the period of its flip-flops.
use bench_text::read;
use design::Design;
use std::alloc::Global;
use std::test::Fail;

/// A .bench text with its timing, its stimuli and the period of its flip-flops. A gate's delay is one
/// tick.
#[derive(Clone, Copy)]
pub(crate) struct Circuit {
    pub(crate) bench: &'static [u8],
    pub(crate) timing: &'static [u8],
    pub(crate) stimuli: &'static [u8],
    pub(crate) period: u64,
}

impl Circuit {
    pub(crate) fn build(&self, alloc: Global) -> Result<Design, Fail> {
        let netlist = read(alloc, self.bench)?;
        Ok(Design::build(alloc, netlist, self.timing, self.stimuli, 1, self.period)?)
    }
}

/// A buffer and a gate that compares its two sides.
pub(crate) const HAZARD: Circuit = Circuit {
    bench: b"INPUT(a)\nb = BUFF(a)\ny = XOR(a, b)\n",
    timing: b"",
    stimuli: b"0 a 0\n5 a 1\n",
    period: 10,
};

/// Gates that a pin may control. The input `c` has no stimulus.
pub(crate) const CONTROLLED: Circuit = Circuit {
    bench: b"INPUT(a)\nINPUT(b)\nINPUT(c)\ny = NAND(a, b)\nz = NOR(c, a)\nw = AND(b, a)\n",
    stimuli: b"1 b 0\n3 a 0\n6 a 1\n7 b 1\n",
    ..HAZARD
};

/// A gate whose two pins fall at one tick.
pub(crate) const BOTH: Circuit = Circuit {
    bench: b"INPUT(a)\nINPUT(b)\ny = NAND(a, b)\n",
    stimuli: b"0 a 1\n0 b 1\n5 a 0\n5 b 0\n8 a 1\n",
    ..HAZARD
};

/// Two gates that keep a bit: `r` clears it until tick 4, and a pulse of `s` sets it.
pub(crate) const LATCH: Circuit = Circuit {
    bench: b"INPUT(s)\nINPUT(r)\nq = NAND(s, p)\np = NAND(r, q)\n",
    stimuli: b"0 s 1\n0 r 0\n4 r 1\n10 s 0\n13 s 1\n",
    ..HAZARD
};

/// A gate that swings from tick 6 on.
pub(crate) const OSCILLATOR: Circuit = Circuit {
    bench: b"INPUT(e)\ny = NAND(e, y)\n",
    stimuli: b"0 e 0\n6 e 1\n",
    ..HAZARD
};

/// A counter of two bits, whose carry should be an AND.
pub(crate) const WRONG_COUNTER: Circuit = Circuit {
    bench: b"INPUT(en)\nq1 = DFF(d1)\nq0 = DFF(d0)\nd1 = XOR(q1, carry)\nd0 = XOR(q0, en)\ncarry = OR(q0, en)\n",
    timing: b"timing version 2\ninit q1 0\ninit q0 0\n",
    stimuli: b"0 en 0\n7 en 1\n",
    period: 5,
};

/// A flip-flop that samples its own opposite, with no reset.
pub(crate) const RING_COUNTER: Circuit = Circuit {
    bench: b"q = DFF(n)\nn = NOT(q)\n",
    stimuli: b"",
    period: 3,
    ..HAZARD
};

/// The same, begun with 0.
pub(crate) const PRESET_RING: Circuit = Circuit {
    timing: b"timing version 2\ninit q 0\n",
    ..RING_COUNTER
};

/// A ring of gates that nothing starts.
pub(crate) const GATE_RING: Circuit = Circuit {
    bench: b"y = NOT(z)\nz = BUFF(y)\n",
    stimuli: b"",
    ..HAZARD
};

/// The ISCAS-89 circuit s27.
pub(crate) const S27: Circuit = Circuit {
    bench: worked_examples::S27_BENCH,
    timing: b"",
    stimuli: worked_examples::S27_STIMULI,
    period: 10,
};

/// Wires that take three ticks.
pub(crate) const WIRED: Circuit = Circuit {
    bench: b"INPUT(a)\nINPUT(b)\nc = BUFF(a)\ny = XOR(a, b)\n",
    timing: b"timing version 2\nwire c 0 3\nwire y 0 3\n",
    stimuli: b"0 a 0\n0 b 0\n5 a 1\n6 b 1\n",
    period: 10,
};

/// Two inputs that differ at tick 5, and from tick 12 on.
pub(crate) const TWO_INPUTS: Circuit = Circuit {
    bench: b"INPUT(a)\nINPUT(b)\n",
    timing: b"",
    stimuli: b"0 a 0\n5 a 1\n9 a 0\n0 b 0\n6 b 1\n9 b 0\n12 b 1\n",
    period: 10,
};
