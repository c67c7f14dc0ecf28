//! The circuits of the worked examples.
use bench_text::{Netlist, read};
use design::Design;
use std::alloc::Global;
use std::test::Fail;
use worked_examples::{S27_BENCH, S27_STIMULI};

/// The texts of a circuit, and the period of its flip-flops; without a delay text each delay is 1.
#[derive(Clone, Copy)]
pub(crate) struct Circuit {
    pub(crate) bench: &'static [u8],
    pub(crate) delays: &'static [u8],
    pub(crate) stimuli: &'static [u8],
    pub(crate) period: u64,
}

impl Circuit {
    pub(crate) fn build(&self, alloc: Global) -> Result<Design, Fail> {
        let netlist: Netlist = read(alloc, self.bench)?;
        let design: Design = Design::build(
            alloc,
            netlist,
            self.delays,
            self.stimuli,
            1,
            self.period,
        )?;
        Ok(design)
    }
}

/// An inverter: the nets `a` and `y`, and one pin.
pub(crate) const INVERTER: Circuit = Circuit {
    bench: b"INPUT(a)\nOUTPUT(y)\ny = NOT(a)\n",
    delays: b"",
    stimuli: b"0 a 0\n3 a 1\n",
    period: 10,
};

pub(crate) const SELF_INVERTER: Circuit = Circuit {
    bench: b"y = NOT(y)\n",
    stimuli: b"",
    ..INVERTER
};

pub(crate) const GATED_OSCILLATOR: Circuit = Circuit {
    bench: b"INPUT(e)\ny = NAND(e, y)\n",
    delays: b"y 2\n",
    stimuli: b"0 e 0\n5 e 1\n",
    period: 10,
};

/// The nets `a`, `b` and `y`; pin 0 is that of `b`, pins 1 and 2 are those of `y`.
pub(crate) const LATE_PIN: Circuit = Circuit {
    bench: b"INPUT(a)\nb = BUFF(a)\ny = XOR(a, b)\n",
    stimuli: b"0 a 0\n5 a 1\n",
    ..INVERTER
};

/// An AND whose pins change at one tick: the nets `a`, `b` and `y`.
pub(crate) const CROSSING: Circuit = Circuit {
    bench: b"INPUT(a)\nINPUT(b)\ny = AND(a, b)\n",
    stimuli: b"0 a 1\n4 a 0\n0 b 0\n4 b 1\n",
    ..INVERTER
};

pub(crate) const CONTROLLED_AND: Circuit = Circuit {
    stimuli: b"0 a 0\n",
    ..CROSSING
};

/// One flip-flop: the nets `d` and `q`.
pub(crate) const SAMPLER: Circuit = Circuit {
    bench: b"INPUT(d)\nq = DFF(d)\n",
    stimuli: b"4 d 1\n5 d 0\n",
    period: 4,
    ..INVERTER
};

pub(crate) const RING_COUNTER: Circuit = Circuit {
    bench: b"q = DFF(n)\nn = NOT(q)\n",
    stimuli: b"",
    period: 3,
    ..INVERTER
};

pub(crate) const SLOW_INVERTER: Circuit = Circuit {
    delays: b"y 9\n",
    ..INVERTER
};

pub(crate) const CLOCKED: Circuit = Circuit {
    delays: b"timing version 2\nclock q 4 1\ninit q 0\n",
    ..SAMPLER
};

pub(crate) const PRESET_RING: Circuit = Circuit {
    delays: b"timing version 2\ninit q 0\n",
    ..RING_COUNTER
};

pub(crate) const WIRED_XOR: Circuit = Circuit {
    delays: b"timing version 2\nwire y 0 1\n",
    ..LATE_PIN
};

pub(crate) const WIRED_FLOP: Circuit = Circuit {
    delays: b"timing version 2\nwire q 0 1\n",
    ..SAMPLER
};

pub(crate) const WIRED_INVERTER: Circuit = Circuit {
    delays: b"timing version 2\nwire y 0 1000000\n",
    ..INVERTER
};

pub(crate) const EARLY_AND: Circuit = Circuit {
    bench: b"INPUT(a)\ny = AND(a, y)\n",
    stimuli: b"0 a 0\n",
    ..INVERTER
};

/// Seventeen nets, three of them flip-flops.
pub(crate) const S27: Circuit = Circuit {
    bench: S27_BENCH,
    stimuli: S27_STIMULI,
    ..INVERTER
};
