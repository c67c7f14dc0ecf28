//! Worked circuits, each with the texts and the period that it is built with.
ghost use Rattle.std.specs.Bool.{OnTrue};
ghost use Rattle.std.specs.Prelude.{◌<◌, All, length};

use bench_text::read;
use design::Design;
use std::alloc::Global;
use std::test::Fail;
use worked_examples::{S27_BENCH, S27_STIMULI};

/// A .bench text with its delays and stimuli, and the period of its flip-flops. A delay that isn't given is
/// one tick.
#[derive(Clone, Copy)]
pub(crate) struct Circuit {
    pub(crate) bench: &'static [u8],
    pub(crate) delays: &'static [u8],
    pub(crate) stimuli: &'static [u8],
    pub(crate) period: u64,
}

impl Circuit {
    pub(crate) fn build(&self, alloc: Global) -> Result<Design, Fail> {
        built(alloc, self.bench, self.delays, self.stimuli, self.period)
    }
}

/// Whether each of these numbers is that of a net of the design.
pub(crate) fn are_nets(design: &Design, numbers: &[u32]) -> bool
    ensures { OnTrue result (All (λ net. net < length design.now.circuit) numbers.now) }
{
    let nets = design.nets();
    numbers.iter().all(|net| *net < nets)
}

/// The design of these texts, for proofs that don't look at them.
pub(crate) fn built(
    alloc: Global,
    bench: &[u8],
    delays: &[u8],
    stimuli: &[u8],
    period: u64,
) -> Result<Design, Fail> {
    let netlist = read(alloc, bench)?;
    Ok(Design::build(alloc, netlist, delays, stimuli, 1, period)?)
}

/// Two nets and one pin.
pub(crate) const INVERTER: Circuit = Circuit {
    bench: b"INPUT(a)\nOUTPUT(y)\ny = NOT(a)\n",
    delays: b"",
    stimuli: b"0 a 0\n3 a 1\n",
    period: 10,
};

pub(crate) const SLOW_INVERTER: Circuit = Circuit {
    delays: b"y 9",
    ..INVERTER
};

/// A gate at its own pin, with nothing that drives it.
pub(crate) const SELF_INVERTER: Circuit = Circuit {
    bench: b"y = NOT(y)",
    stimuli: b"",
    ..INVERTER
};

/// A gate at its own pin, which oscillates while its input is 1.
pub(crate) const GATED_OSCILLATOR: Circuit = Circuit {
    bench: b"INPUT(e)\ny = NAND(e, y)",
    delays: b"y 2",
    stimuli: b"0 e 0\n5 e 1",
    period: 10,
};

/// A buffer and a gate that compares its two sides: the nets `a`, `b` and `y`; pin 0 is that of `b`,
/// pins 1 and 2 are those of `y`.
pub(crate) const LATE_PIN: Circuit = Circuit {
    bench: b"INPUT(a)\nb = BUFF(a)\ny = XOR(a, b)",
    stimuli: b"0 a 0\n5 a 1",
    ..INVERTER
};

/// A gate whose two pins change at once.
pub(crate) const CROSSING: Circuit = Circuit {
    bench: b"INPUT(a)\nINPUT(b)\ny = AND(a, b)",
    stimuli: b"0 a 1\n4 a 0\n0 b 0\n4 b 1",
    ..INVERTER
};

/// A gate at its own pin, which its input settles: the nets `a` and `y`.
pub(crate) const EARLY_AND: Circuit = Circuit {
    bench: b"INPUT(a)\ny = AND(a, y)",
    stimuli: b"0 a 0",
    ..INVERTER
};

/// A flip-flop whose pin changes at a tick at which it samples.
pub(crate) const SAMPLER: Circuit = Circuit {
    bench: b"INPUT(d)\nq = DFF(d)",
    stimuli: b"4 d 1\n5 d 0",
    period: 4,
    ..INVERTER
};

/// A flip-flop that samples its own opposite, with no reset.
pub(crate) const RING_COUNTER: Circuit = Circuit {
    bench: b"q = DFF(n)\nn = NOT(q)",
    stimuli: b"",
    period: 3,
    ..INVERTER
};

/// The first of these, with a clock that samples at the ticks 1, 5 and 9, and begun with 0.
pub(crate) const CLOCKED: Circuit = Circuit {
    delays: b"timing version 2\nclock q 4 1\ninit q 0\n",
    ..SAMPLER
};

/// The second, begun with 0, which starts it.
pub(crate) const PRESET_RING: Circuit = Circuit {
    delays: b"timing version 2\ninit q 0\n",
    ..RING_COUNTER
};

/// Two flip-flops of one input, each with a clock and a delay of its own: `q` samples at the ticks 2, 5,
/// 8 and so on, `r` at 5, 10 and so on.
pub(crate) const TWO_CLOCKS: Circuit = Circuit {
    bench: b"INPUT(d)\nq = DFF(d)\nr = DFF(d)\n",
    delays: b"timing version 2\nclock q 3 2\nclock r 5 0\ninit r 0\ndelay r 2\n",
    stimuli: b"0 d 0\n2 d 1\n6 d 0\n9 d 1\n",
    ..SAMPLER
};

/// The buffer and the gate that compares its two sides, with a wire to the first side that takes as long as
/// the buffer.
pub(crate) const WIRED_XOR: Circuit = Circuit {
    delays: b"timing version 2\nwire y 0 1\n",
    ..LATE_PIN
};

/// The flip-flop, which sees its pin a tick too late to sample its first change.
pub(crate) const WIRED_FLOP: Circuit = Circuit {
    delays: b"timing version 2\nwire q 0 1\n",
    ..SAMPLER
};

/// The inverter, with a wire that takes longer than most horizons.
pub(crate) const WIRED_INVERTER: Circuit = Circuit {
    delays: b"timing version 2\nwire y 0 1000000\n",
    ..INVERTER
};

/// A gate that compares its input with what it was two ticks before: each change of the input makes a
/// pulse.
pub(crate) const PULSE: Circuit = Circuit {
    bench: b"INPUT(a)\ny = XOR(a, a)\n",
    delays: b"timing version 2\nwire y 1 2\n",
    stimuli: b"0 a 0\n5 a 1\n",
    ..INVERTER
};

/// A gate whose third pin is its own net, three ticks later.
pub(crate) const WIRED_OSCILLATOR: Circuit = Circuit {
    bench: b"INPUT(e)\ny = NAND(e, e, y)\n",
    delays: b"timing version 2\nwire y 1 4\nwire y 2 2\n",
    stimuli: b"0 e 0\n5 e 1\n",
    ..INVERTER
};

/// Seventeen nets, three of them flip-flops.
pub(crate) const S27: Circuit = Circuit {
    bench: S27_BENCH,
    stimuli: S27_STIMULI,
    ..INVERTER
};
