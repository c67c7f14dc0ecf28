//! Circuits, each with the texts, the period and the horizon of its run.
use bench_text::read;
use design::Design;
use std::alloc::Global;
use std::test::Fail;
use worked_examples::{S27_BENCH, S27_STIMULI};

#[derive(Clone, Copy)]
pub(crate) struct Circuit {
    pub(crate) bench: &'static [u8],
    pub(crate) delays: &'static [u8],
    pub(crate) stimuli: &'static [u8],
    pub(crate) period: u64,
    pub(crate) horizon: u64,
}

impl Circuit {
    pub(crate) fn build(&self, alloc: Global) -> Result<Design, Fail> {
        let netlist = read(alloc, self.bench)?;
        Ok(Design::build(alloc, netlist, self.delays, self.stimuli, 1, self.period)?)
    }
}

/// Two nets and one pin.
pub(crate) const INVERTER: Circuit = Circuit {
    bench: b"INPUT(a)\nOUTPUT(y)\ny = NOT(a)\n",
    delays: b"",
    stimuli: b"0 a 0\n3 a 1\n",
    period: 10,
    horizon: 5,
};

/// A gate at its own pin, with nothing that drives it.
pub(crate) const SELF_INVERTER: Circuit = Circuit {
    bench: b"y = NOT(y)\n",
    delays: b"",
    stimuli: b"",
    period: 10,
    horizon: 3,
};

/// A buffer and a gate that compares its two sides.
pub(crate) const HAZARD: Circuit = Circuit {
    bench: b"INPUT(a)\nb = BUFF(a)\ny = XOR(a, b)\n",
    delays: b"",
    stimuli: b"0 a 0\n5 a 1\n",
    period: 10,
    horizon: 8,
};

/// A gate at its own pin, which oscillates while its input is 1.
pub(crate) const OSCILLATOR: Circuit = Circuit {
    bench: b"INPUT(e)\ny = NAND(e, y)\n",
    delays: b"y 2\n",
    stimuli: b"0 e 0\n5 e 1\n",
    period: 10,
    horizon: 12,
};

/// A flip-flop that samples its own opposite, begun with 0, and a wire that takes two ticks.
pub(crate) const TOGGLE: Circuit = Circuit {
    bench: b"q = DFF(n)\nn = NOT(q)\n",
    delays: b"timing version 2\ninit q 0\nwire n 0 2\n",
    stimuli: b"",
    period: 5,
    horizon: 23,
};

/// Seventeen nets, three of them flip-flops.
pub(crate) const S27: Circuit = Circuit {
    bench: S27_BENCH,
    delays: b"",
    stimuli: S27_STIMULI,
    period: 10,
    horizon: 35,
};

pub(crate) static CIRCUITS: [Circuit; 6] = [
    INVERTER,
    SELF_INVERTER,
    HAZARD,
    OSCILLATOR,
    TOGGLE,
    S27,
];
