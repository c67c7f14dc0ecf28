//! Chains of causes, worked out independently.
use crate::reasons::circuits::{
    BOTH, CONTROLLED, Circuit, GATE_RING, HAZARD, LATCH, OSCILLATOR, PRESET_RING, RING_COUNTER,
    S27, WIRED, WRONG_COUNTER,
};
use causes::{Cause, Reason, why, why_text};
use design::{Design, plain_waves};
use logic3::Value;
use std::alloc::Global;
use std::process::Abort;
use std::test::Fail;
use timing_text::Horizon;

// A circuit, a net, a tick, and the lines of why.
type Row = (Circuit, &'static [u8], u64, &'static [u8]);

static CHAINS: [Row; 29] = [
    // Back over the last changes, to a stimulus.
    (
        S27,
        b"G6",
        20,
        b"G6@20 = 0 since 11: G6 = DFF(G11), G11@10 = 0\n\
          G11@10 = 0 since 5: G11 = NOR(G5, G9), G5@4 = x, G9@4 = 1\n\
          G9@4 = 1: G9 = NAND(G16, G15), G16@3 = 0, G15@3 = 0\n\
          G16@3 = 0: G16 = OR(G3, G8), G3@2 = 0, G8@2 = 0\n\
          G8@2 = 0: G8 = AND(G14, G6), G14@1 = 0, G6@1 = x\n\
          G14@1 = 0: G14 = NOT(G0), G0@0 = 1\n\
          G0@0 = 1: INPUT(G0), stimulus 0 G0 1\n",
    ),
    (
        S27,
        b"G17",
        20,
        b"G17@20 = 1 since 6: G17 = NOT(G11), G11@5 = 0\n\
          G11@5 = 0: G11 = NOR(G5, G9), G5@4 = x, G9@4 = 1\n\
          G9@4 = 1: G9 = NAND(G16, G15), G16@3 = 0, G15@3 = 0\n\
          G16@3 = 0: G16 = OR(G3, G8), G3@2 = 0, G8@2 = 0\n\
          G8@2 = 0: G8 = AND(G14, G6), G14@1 = 0, G6@1 = x\n\
          G14@1 = 0: G14 = NOT(G0), G0@0 = 1\n\
          G0@0 = 1: INPUT(G0), stimulus 0 G0 1\n",
    ),
    (
        HAZARD,
        b"a",
        4,
        b"a@4 = 0 since 0: INPUT(a), stimulus 0 a 0\n",
    ),
    (
        HAZARD,
        b"y",
        1,
        b"y@1 = x since 0: y = XOR(a, b), a@0 = 0, b@0 = x\nb@0 = x: b = BUF(a), before its delay is over\n",
    ),
    (
        HAZARD,
        b"y",
        6,
        b"y@6 = 1: y = XOR(a, b), a@5 = 1, b@5 = 0\na@5 = 1: INPUT(a), stimulus 5 a 1\n",
    ),
    (
        HAZARD,
        b"y",
        7,
        b"y@7 = 0: y = XOR(a, b), a@6 = 1, b@6 = 1\nb@6 = 1: b = BUF(a), a@5 = 1\na@5 = 1: INPUT(a), stimulus 5 a 1\n",
    ),
    (
        HAZARD,
        b"y",
        8,
        b"y@8 = 0 since 7: y = XOR(a, b), a@6 = 1, b@6 = 1\nb@6 = 1: b = BUF(a), a@5 = 1\n\
          a@5 = 1: INPUT(a), stimulus 5 a 1\n",
    ),
    // A pin that controls later plays no part.
    (
        CONTROLLED,
        b"y",
        5,
        b"y@5 = 1 since 2: y = NAND(a, b), a@1 = x, b@1 = 0\nb@1 = 0: INPUT(b), stimulus 1 b 0\n",
    ),
    // Of two pins that control, the first.
    (
        BOTH,
        b"y",
        12,
        b"y@12 = 1 since 6: y = NAND(a, b), a@5 = 0, b@5 = 0\na@5 = 0: INPUT(a), stimulus 5 a 0\n",
    ),
    // Of pins that don't, the one that changed last.
    (
        CONTROLLED,
        b"y",
        9,
        b"y@9 = 0 since 8: y = NAND(a, b), a@7 = 1, b@7 = 1\nb@7 = 1: INPUT(b), stimulus 7 b 1\n",
    ),
    (
        CONTROLLED,
        b"z",
        8,
        b"z@8 = 0 since 7: z = NOR(c, a), c@6 = x, a@6 = 1\na@6 = 1: INPUT(a), stimulus 6 a 1\n",
    ),
    // An X since tick 0 leads to the pin that is X.
    (
        CONTROLLED,
        b"z",
        5,
        b"z@5 = x since 0: z = NOR(c, a), c@4 = x, a@4 = 0\nc@4 = x since 0: INPUT(c), no stimulus yet\n",
    ),
    (
        CONTROLLED,
        b"w",
        1,
        b"w@1 = x since 0: w = AND(b, a), b@0 = x, a@0 = x\nb@0 = x: INPUT(b), no stimulus yet\n",
    ),
    (
        CONTROLLED,
        b"c",
        7,
        b"c@7 = x since 0: INPUT(c), no stimulus yet\n",
    ),
    // A ring that keeps its X ends at what it began with.
    (
        RING_COUNTER,
        b"q",
        3,
        b"q@3 = x since 0: q = DFF(n), before its first sample shows\n",
    ),
    (
        RING_COUNTER,
        b"q",
        4,
        b"q@4 = x since 0: q = DFF(n), n@3 = x\nn@3 = x since 0: n = NOT(q), q@2 = x\n\
          q@2 = x since 0: q = DFF(n), before its first sample shows\n",
    ),
    (
        GATE_RING,
        b"y",
        5,
        b"y@5 = x since 0: y = NOT(z), z@4 = x\nz@4 = x since 0: z = BUF(y), y@3 = x\n\
          y@3 = x since 0: y = NOT(z), before its delay is over\n",
    ),
    (
        GATE_RING,
        b"y",
        1,
        b"y@1 = x since 0: y = NOT(z), z@0 = x\nz@0 = x: z = BUF(y), before its delay is over\n",
    ),
    (
        GATE_RING,
        b"y",
        0,
        b"y@0 = x: y = NOT(z), before its delay is over\n",
    ),
    // A latch: the pulse that set it.
    (
        LATCH,
        b"q",
        20,
        b"q@20 = 1 since 11: q = NAND(s, p), s@10 = 0, p@10 = 1\ns@10 = 0: INPUT(s), stimulus 10 s 0\n",
    ),
    // A ring that swings: two rounds, and the change by which it began.
    (
        PRESET_RING,
        b"q",
        5,
        b"q@5 = 1 since 4: q = DFF(n), n@3 = 1\nn@3 = 1 since 1: n = NOT(q), q@0 = 0\n\
          q@0 = 0: q = DFF(n), before its first sample shows\n",
    ),
    (
        PRESET_RING,
        b"q",
        8,
        b"q@8 = 0 since 7: q = DFF(n), n@6 = 0\nn@6 = 0 since 5: n = NOT(q), q@4 = 1\nq@4 = 1: q = DFF(n), n@3 = 1\n\
          n@3 = 1 since 1: n = NOT(q), q@0 = 0\nq@0 = 0: q = DFF(n), before its first sample shows\n",
    ),
    (
        PRESET_RING,
        b"q",
        20,
        b"q@20 = 0 since 19: q = DFF(n), n@18 = 0\nn@18 = 0 since 17: n = NOT(q), q@16 = 1\n\
          q@16 = 1: q = DFF(n), n@15 = 1\nn@15 = 1 since 14: n = NOT(q), q@13 = 0\n\
          q@13 = 0: q = DFF(n), n@12 = 0, swings since 6 with period 6\n\
          q@6 = 1 since 4: q = DFF(n), n@3 = 1\nn@3 = 1 since 1: n = NOT(q), q@0 = 0\n\
          q@0 = 0: q = DFF(n), before its first sample shows\n",
    ),
    (
        OSCILLATOR,
        b"y",
        20,
        b"y@20 = 1: y = NAND(e, y), e@19 = 1, y@19 = 0\ny@19 = 0: y = NAND(e, y), e@18 = 1, y@18 = 1\n\
          y@18 = 1: y = NAND(e, y), e@17 = 1, y@17 = 0, swings since 7 with period 2\n\
          y@7 = 0: y = NAND(e, y), e@6 = 1, y@6 = 1\ne@6 = 1: INPUT(e), stimulus 6 e 1\n",
    ),
    // Before it has swung for two periods, each change is listed.
    (
        OSCILLATOR,
        b"y",
        9,
        b"y@9 = 0: y = NAND(e, y), e@8 = 1, y@8 = 1\ny@8 = 1: y = NAND(e, y), e@7 = 1, y@7 = 0\n\
          y@7 = 0: y = NAND(e, y), e@6 = 1, y@6 = 1\ne@6 = 1: INPUT(e), stimulus 6 e 1\n",
    ),
    // The wrong bit of a counter leads to the wrong gate, an OR in place of an AND.
    (
        WRONG_COUNTER,
        b"q1",
        15,
        b"q1@15 = 1 since 11: q1 = DFF(d1), d1@10 = 1\n\
          d1@10 = 1 since 9: d1 = XOR(q1, carry), q1@8 = 0, carry@8 = 1\n\
          carry@8 = 1: carry = OR(q0, en), q0@7 = 0, en@7 = 1\nen@7 = 1: INPUT(en), stimulus 7 en 1\n",
    ),
    (
        WIRED,
        b"c",
        2,
        b"c@2 = x since 0: c = BUF(a), a = x, before the delay of a wire is over\n",
    ),
    (
        WIRED,
        b"c",
        4,
        b"c@4 = 0: c = BUF(a), a@0 = 0\na@0 = 0: INPUT(a), stimulus 0 a 0\n",
    ),
    // The later change comes over the longer wire.
    (
        WIRED,
        b"y",
        10,
        b"y@10 = 0 since 9: y = XOR(a, b), a@5 = 1, b@8 = 1\na@5 = 1: INPUT(a), stimulus 5 a 1\n",
    ),
];

// The number of a net of a design.
fn net_of(rt: &impl Abort, design: &Design, name: &[u8]) -> u32 {
    let found = design.find(name);
    assert!(rt; found.is_some());
    found.unwrap_or(0)
}

// The lines of why a net has its value at a tick, from waveforms up to a later tick.
fn tells(rt: &impl Abort, alloc: Global, row: &Row, later: u64) -> Result<(), Fail> {
    let (circuit, name, tick, lines) = *row;
    let design = circuit.build(alloc)?;
    let horizon = Horizon::new(later)?;
    assert!(rt; tick <= horizon.ticks());
    let waves = plain_waves(alloc, &design, horizon)?;
    let net = net_of(rt, &design, name);
    assert!(rt; net < design.nets());
    let text = why_text(alloc, &design, waves.as_slice(), net, tick)?;
    assert!(rt; text.as_slice() == lines);
    Ok(())
}

#[test]
fn worked_chains(rt: HostRuntime) -> Result<(), Fail> {
    for row in &CHAINS {
        tells(&rt, rt.alloc(), row, row.2)?;
        tells(&rt, rt.alloc(), row, 20)?;
    }
    Ok(())
}

static HAZARD_CAUSES: [Cause; 3] = [
    Cause {
        net: 2,
        tick: 7,
        value: Value::Zero,
        since: 7,
        at: 7,
        reason: Reason::Pin(1),
    },
    Cause {
        net: 1,
        tick: 6,
        value: Value::One,
        since: 6,
        at: 6,
        reason: Reason::Pin(0),
    },
    Cause {
        net: 0,
        tick: 5,
        value: Value::One,
        since: 5,
        at: 5,
        reason: Reason::Stimulus(5),
    },
];

#[test]
fn causes_of_a_hazard(rt: HostRuntime) -> Result<(), Fail> {
    let alloc = rt.alloc();
    let design = HAZARD.build(alloc)?;
    let horizon = Horizon::new(7)?;
    assert!(rt; 7 <= horizon.ticks());
    let waves = plain_waves(alloc, &design, horizon)?;
    assert!(rt; 2 < design.nets());
    let causes = why(alloc, &design, waves.as_slice(), 2, 7)?;
    assert!(rt; causes.as_slice() == HAZARD_CAUSES.as_slice());
    Ok(())
}
