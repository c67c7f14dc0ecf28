//! Small circuits, each with its timing and its stimuli.
use bench_text::read;
use design::Design;
use std::alloc::Global;
use std::test::Fail;

/// A .bench text with its delays, its stimuli and the period of its flip-flops. A delay that isn't given
/// is one tick.
#[derive(Clone, Copy)]
pub(crate) struct Circuit {
    pub(crate) bench: &'static [u8],
    pub(crate) delays: &'static [u8],
    pub(crate) stimuli: &'static [u8],
    pub(crate) period: u64,
}

impl Circuit {
    pub(crate) fn build(&self, alloc: Global) -> Result<Design, Fail> {
        let netlist = read(alloc, self.bench)?;
        Ok(Design::build(alloc, netlist, self.delays, self.stimuli, 1, self.period)?)
    }
}

pub(crate) const INVERTER: Circuit = Circuit {
    bench: b"INPUT(a)\nOUTPUT(y)\ny = NOT(a)\n",
    delays: b"",
    stimuli: b"0 a 0\n3 a 1\n",
    period: 10,
};

/// A gate that reads itself; its other pin holds it at first.
pub(crate) const GATED_OSCILLATOR: Circuit = Circuit {
    bench: b"INPUT(e)\ny = NAND(e, y)\n",
    delays: b"y 2\n",
    stimuli: b"0 e 0\n3 e 1\n",
    period: 10,
};

/// A flip-flop and an inverter in a ring.
pub(crate) const PRESET_RING: Circuit = Circuit {
    bench: b"q = DFF(n)\nn = NOT(q)\n",
    delays: b"timing version 2\ninit q 0\n",
    stimuli: b"",
    period: 3,
};

/// A net at two pins of a gate.
pub(crate) const DOUBLE_PIN: Circuit = Circuit {
    bench: b"INPUT(a)\ny = AND(a, a)\n",
    delays: b"",
    stimuli: b"1 a 1\n2 a x\n",
    period: 10,
};

pub(crate) const SELF_INVERTER: Circuit = Circuit {
    bench: b"y = NOT(y)\n",
    delays: b"",
    stimuli: b"",
    period: 10,
};

/// A buffer and a gate that compares its two sides.
pub(crate) const HAZARD: Circuit = Circuit {
    bench: b"INPUT(a)\nb = BUFF(a)\ny = XOR(a, b)\n",
    delays: b"",
    stimuli: b"0 a 0\n5 a 1\n",
    period: 10,
};

/// A gate whose two pins change at once.
pub(crate) const CROSSING: Circuit = Circuit {
    bench: b"INPUT(a)\nINPUT(b)\ny = AND(a, b)\n",
    delays: b"",
    stimuli: b"0 a 1\n4 a 0\n0 b 0\n4 b 1\n",
    period: 10,
};

/// A flip-flop whose pin changes at a tick at which it samples.
pub(crate) const SAMPLER: Circuit = Circuit {
    bench: b"INPUT(d)\nq = DFF(d)\n",
    delays: b"",
    stimuli: b"4 d 1\n5 d 0\n",
    period: 4,
};
