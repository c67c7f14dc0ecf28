//! The process of one net, step by step.
use crate::circuits::{CROSSING, Circuit, INVERTER, SAMPLER, WIRED_INVERTER, WIRED_XOR};
use crate::probe::{Probe, Step};
use Message::Null;
use Step::{Drains, Hears, HearsFar, HearsNulls, Keeps, Knows, PinKnows, Shows, Tells, TellsFar};
use Value::{One, Unknown, Zero};
use cmb_channels::Message;
use design::Design;
use logic3::{Change, Value};
use std::alloc::Global;
use std::process::Abort;
use std::test::Fail;

// The process of the net of this name takes these steps.
fn follows(
    rt: &impl Abort,
    alloc: Global,
    circuit: Circuit,
    name: &[u8],
    horizon: u64,
    steps: &[Step],
) -> Result<(), Fail> {
    let design = circuit.build(alloc)?;
    design_follows(rt, alloc, &design, name, horizon, steps)
}

fn design_follows(
    rt: &impl Abort,
    alloc: Global,
    design: &Design,
    name: &[u8],
    horizon: u64,
    steps: &[Step],
) -> Result<(), Fail> {
    let mut process = Probe::of(rt, alloc, design, name, horizon)?;
    process.follow(rt, steps)
}

const LOW_0: Change = Change {
    tick: 0,
    value: Zero,
};

const HIGH_0: Change = Change {
    tick: 0,
    value: One,
};

const LOW_1: Change = Change {
    tick: 1,
    value: Zero,
};

const HIGH_1: Change = Change {
    tick: 1,
    value: One,
};

const LOW_2: Change = Change {
    tick: 2,
    value: Zero,
};

const HIGH_3: Change = Change {
    tick: 3,
    value: One,
};

const LOW_4: Change = Change {
    tick: 4,
    value: Zero,
};

const HIGH_4: Change = Change {
    tick: 4,
    value: One,
};

const LOW_5: Change = Change {
    tick: 5,
    value: Zero,
};

const HIGH_5: Change = Change {
    tick: 5,
    value: One,
};

const UNKNOWN_5: Change = Change {
    tick: 5,
    value: Unknown,
};

const LOW_9: Change = Change {
    tick: 9,
    value: Zero,
};

// What the input of the inverter sends.
const TOLD: [Message; 3] = [Message::Change(LOW_0), Message::Change(HIGH_3), Null(6)];

const OF_AN_INPUT: [Step; 4] = [Knows(6, 0), Tells(&TOLD), Tells(&[]), Knows(6, 6)];

#[test]
fn first_messages_of_an_input(rt: HostRuntime) -> Result<(), Fail> {
    follows(&rt, rt.alloc(), INVERTER, b"a", 5, &OF_AN_INPUT)
}

const OF_A_GATE: [Step; 3] = [
    Tells(&[Null(1)]),
    Hears(0, &TOLD),
    Tells(&[Message::Change(HIGH_1), Message::Change(LOW_4), Null(6)]),
];

#[test]
fn first_messages_of_a_gate(rt: HostRuntime) -> Result<(), Fail> {
    follows(&rt, rt.alloc(), INVERTER, b"y", 5, &OF_A_GATE)
}

const AND: Circuit = Circuit {
    stimuli: b"",
    ..CROSSING
};

// Its first pin receives all, and then its second.
const OF_AND: [Step; 14] = [
    PinKnows(0, 0, Unknown),
    Hears(
        0,
        &[Message::Change(HIGH_0), Message::Change(LOW_4), Null(7)],
    ),
    Knows(0, 0),
    PinKnows(0, 7, Zero),
    Tells(&[Null(1)]),
    Hears(1, &[Message::Change(LOW_0)]),
    Tells(&[Message::Change(LOW_1)]),
    Hears(1, &[Message::Change(HIGH_4)]),
    Knows(5, 2),
    Tells(&[Null(7)]),
    Hears(1, &[Null(7)]),
    Tells(&[]),
    Shows(6, Zero),
    Keeps(0, Unknown, &[LOW_1]),
];

#[test]
fn and_process(rt: HostRuntime) -> Result<(), Fail> {
    follows(&rt, rt.alloc(), AND, b"y", 6, &OF_AND)
}

// A gate of the inputs `a` and `b`, or of five inputs.
const OR: Circuit = Circuit {
    bench: b"INPUT(a)\nINPUT(b)\ny = OR(a, b)",
    ..AND
};

const NAND: Circuit = Circuit {
    bench: b"INPUT(a)\nINPUT(b)\ny = NAND(a, b)",
    ..AND
};

const NOR: Circuit = Circuit {
    bench: b"INPUT(a)\nINPUT(b)\ny = NOR(a, b)",
    ..AND
};

const XOR: Circuit = Circuit {
    bench: b"INPUT(a)\nINPUT(b)\ny = XOR(a, b)",
    ..AND
};

const WIDE_AND: Circuit = Circuit {
    bench: b"INPUT(a)\nINPUT(b)\nINPUT(c)\nINPUT(d)\nINPUT(e)\ny = AND(a, b, c, d, e)",
    ..AND
};

const STAYS_LOW: [Message; 2] = [Message::Change(LOW_0), Null(7)];

const STAYS_HIGH: [Message; 2] = [Message::Change(HIGH_0), Null(7)];

// What a gate sends that its first pin settles, while nothing is known of the others.
const SETTLED_LOW: [Step; 4] = [
    Hears(0, &STAYS_HIGH),
    Tells(&[Message::Change(LOW_1), Null(7)]),
    Knows(0, 7),
    Tells(&[]),
];

const SETTLED_HIGH: [Step; 3] = [
    Hears(0, &STAYS_HIGH),
    Tells(&[Message::Change(HIGH_1), Null(7)]),
    Knows(0, 7),
];

const SETTLED_HIGH_BY_LOW: [Step; 3] = [
    Hears(0, &STAYS_LOW),
    Tells(&[Message::Change(HIGH_1), Null(7)]),
    Knows(0, 7),
];

// Nothing settles it.
const WAITS: [Step; 3] = [Hears(0, &STAYS_HIGH), Tells(&[Null(1)]), Knows(0, 1)];

const SETTLED_BY_THE_LAST: [Step; 4] = [
    Tells(&[Null(1)]),
    Hears(4, &STAYS_LOW),
    Tells(&[Message::Change(LOW_1), Null(7)]),
    Tells(&[]),
];

// The pin that settles it isn't known further, and then no longer settles it.
const RELEASED: [Step; 8] = [
    Hears(0, &[Message::Change(LOW_0), Null(4)]),
    Tells(&[Message::Change(LOW_1), Null(5)]),
    Tells(&[]),
    Hears(0, &[Message::Change(HIGH_4)]),
    Tells(&[]),
    Hears(1, &[Null(7)]),
    Tells(&[Message::Change(UNKNOWN_5)]),
    Knows(5, 6),
];

// The pin doesn't settle it for one tick.
const RELEASED_FOR_A_TICK: [Step; 3] = [
    Hears(
        0,
        &[
            Message::Change(LOW_0),
            Message::Change(HIGH_4),
            Message::Change(LOW_5),
            Null(7),
        ],
    ),
    Tells(&[Message::Change(LOW_1), Null(5)]),
    Knows(0, 5),
];

static LOOKAHEADS: [(Circuit, &[Step]); 8] = [
    (NOR, &SETTLED_LOW),
    (OR, &SETTLED_HIGH),
    (NAND, &SETTLED_HIGH_BY_LOW),
    (XOR, &WAITS),
    (AND, &WAITS),
    (WIDE_AND, &SETTLED_BY_THE_LAST),
    (AND, &RELEASED),
    (AND, &RELEASED_FOR_A_TICK),
];

#[test]
fn lookahead(rt: HostRuntime) -> Result<(), Fail> {
    for (circuit, steps) in &LOOKAHEADS {
        follows(&rt, rt.alloc(), *circuit, b"y", 6, steps)?;
    }
    Ok(())
}

// It waits for its first pin, whatever its second receives, and each check costs the same.
const HELD: [Step; 5] = [
    Hears(0, &[Message::Change(LOW_0), Null(9_000_000)]),
    Tells(&[Message::Change(LOW_1), Null(9_000_001)]),
    HearsNulls(1, 1_000_000),
    Hears(0, &[Null(10_000_001)]),
    Tells(&[Null(10_000_001)]),
];

#[test]
fn held_for_long(rt: HostRuntime) -> Result<(), Fail> {
    follows(&rt, rt.alloc(), AND, b"y", 10_000_000, &HELD)
}

const FLOP: Circuit = Circuit {
    stimuli: b"",
    ..SAMPLER
};

const OF_A_FLOP: [Step; 10] = [
    Tells(&[Null(5)]),
    Hears(0, &[Message::Change(HIGH_4)]),
    Tells(&[Message::Change(HIGH_5), Null(9)]),
    Hears(0, &[Message::Change(LOW_5)]),
    Tells(&[]),
    Hears(0, &[Null(10)]),
    Tells(&[Message::Change(LOW_9)]),
    Keeps(0, Unknown, &[HIGH_5, LOW_9]),
    Drains(9, &[HIGH_5]),
    Keeps(9, One, &[LOW_9]),
];

#[test]
fn flop_process(rt: HostRuntime) -> Result<(), Fail> {
    follows(&rt, rt.alloc(), FLOP, b"q", 9, &OF_A_FLOP)
}

// The first pin is seen a tick later than the second.
const OF_A_WIRED_GATE: [Step; 12] = [
    Knows(0, 0),
    Tells(&[Null(1)]),
    Hears(1, &[Message::Change(LOW_1), Null(9)]),
    Knows(1, 1),
    Tells(&[Null(2)]),
    Hears(0, &[Message::Change(LOW_0)]),
    PinKnows(0, 1, Zero),
    Knows(2, 2),
    Tells(&[Message::Change(LOW_2)]),
    Hears(0, &[Null(9)]),
    Knows(9, 3),
    Tells(&[Null(9)]),
];

// The wire takes longer than the run: nothing that its pin receives plays a part.
const OF_A_FAR_GATE: [Step; 5] = [
    Knows(1_000_000, 0),
    Tells(&[Null(6)]),
    Hears(0, &TOLD),
    Knows(1_000_006, 6),
    Tells(&[]),
];

#[test]
fn wired_processes(rt: HostRuntime) -> Result<(), Fail> {
    follows(&rt, rt.alloc(), WIRED_XOR, b"y", 8, &OF_A_WIRED_GATE)?;
    follows(&rt, rt.alloc(), WIRED_INVERTER, b"y", 5, &OF_A_FAR_GATE)
}

const FAR_INVERTER: Circuit = Circuit {
    stimuli: b"",
    period: 1,
    ..INVERTER
};

const FAR_FLOP: Circuit = Circuit { period: 1, ..FLOP };

// A gate, and a flip-flop that samples at each tick.
#[test]
fn far_horizon(rt: HostRuntime) -> Result<(), Fail> {
    for (circuit, net, steps) in [
        (
            FAR_INVERTER,
            b"y",
            [Tells(&[Null(1)]), HearsFar, TellsFar(One)],
        ),
        (
            FAR_FLOP,
            b"q",
            [Tells(&[Null(2)]), HearsFar, TellsFar(Zero)],
        ),
    ] {
        follows(&rt, rt.alloc(), circuit, net, 10_000_000, &steps)?;
    }
    Ok(())
}
