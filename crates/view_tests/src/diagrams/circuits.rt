//! Worked circuits, each with its stimuli and the period of its flip-flops.
use bench_text::read;
use design::Design;
use std::alloc::Global;
use std::test::Fail;

/// A .bench text with its stimuli and the period of its flip-flops. Each delay is one tick.
#[derive(Clone, Copy)]
pub(crate) struct Circuit {
    pub(crate) bench: &'static [u8],
    pub(crate) stimuli: &'static [u8],
    pub(crate) period: u64,
}

impl Circuit {
    pub(crate) fn build(&self, alloc: Global) -> Result<Design, Fail> {
        let netlist = read(alloc, self.bench)?;
        Ok(Design::build(alloc, netlist, b"", self.stimuli, 1, self.period)?)
    }
}

pub(crate) const INVERTER: Circuit = Circuit {
    bench: b"INPUT(a)\nOUTPUT(y)\ny = NOT(a)\n",
    stimuli: b"0 a 0\n3 a 1\n",
    period: 10,
};

/// A buffer and a gate that compares its two sides.
pub(crate) const HAZARD: Circuit = Circuit {
    bench: b"INPUT(a)\nb = BUFF(a)\ny = XOR(a, b)\n",
    stimuli: b"0 a 0\n5 a 1\n",
    period: 10,
};

/// A gate whose two pins change at once.
pub(crate) const CROSSING: Circuit = Circuit {
    bench: b"INPUT(a)\nINPUT(b)\ny = AND(a, b)\n",
    stimuli: b"0 a 1\n4 a 0\n0 b 0\n4 b 1\n",
    period: 10,
};

/// A flip-flop whose pin changes at a tick at which it samples.
pub(crate) const SAMPLER: Circuit = Circuit {
    bench: b"INPUT(d)\nq = DFF(d)\n",
    stimuli: b"4 d 1\n5 d 0\n",
    period: 4,
};

/// An input whose name has the special characters of XML.
pub(crate) const MARKED: Circuit = Circuit {
    bench: b"INPUT(a<b&c>)\n",
    stimuli: b"",
    period: 10,
};

/// The ISCAS-89 circuit s27.
pub(crate) const S27: Circuit = Circuit {
    bench: worked_examples::S27_BENCH,
    stimuli: worked_examples::S27_STIMULI,
    period: 10,
};
