//! Designs: the texts that they are built from, and what the plain engine gives for them.
use crate::circuits::{
    CLOCKED, CONTROLLED_AND, CROSSING, Circuit, EARLY_AND, GATED_OSCILLATOR, INVERTER, LATE_PIN,
    PRESET_RING, RING_COUNTER, S27, SAMPLER, SELF_INVERTER, SLOW_INVERTER, WIRED_FLOP,
    WIRED_INVERTER, WIRED_XOR,
};
use Value::{One, Unknown, Zero};
use bench_text::{Netlist, Part, read};
use design::{
    BuildFault, DelayFault, Design, Horizon, OptionFault, StimulusFault, options, plain_waves,
};
use logic3::{Change, GateKind, Value, Waveform};
use std::alloc::{AllocError, Global};
use std::process::Abort;
use std::test::Fail;

#[test]
fn horizons(rt: HostRuntime) -> Result<(), Fail> {
    let horizon: Result<Horizon, OptionFault> = Horizon::new(10_000_000);
    let ticks: u64 = horizon?.ticks();
    assert!(rt; ticks == 10_000_000);
    assert!(rt; Horizon::new(0)?.ticks() == 0);
    assert!(rt; Horizon::new(10_000_001) == Err(OptionFault::BadHorizon));
    Ok(())
}

#[test]
fn ranges_of_options(rt: HostRuntime) {
    let fine: Result<(), OptionFault> = options(1_000_000, 10_000_000);
    assert!(rt; fine == Ok(()));
    assert!(rt; options(0, 0) == Err(OptionFault::BadDelay));
    assert!(rt; options(1_000_001, 10) == Err(OptionFault::BadDelay));
    assert!(rt; options(1, 0) == Err(OptionFault::BadPeriod));
    assert!(rt; options(1, 10_000_001) == Err(OptionFault::BadPeriod));
}

// The gate of `LATE_PIN`, net 2, whose pins are 1 and 2.
fn gate_is(rt: &impl Abort, design: &Design) {
    assert!(rt; design.nets() == 3);
    let name: &[u8] = design.name(2);
    let part: Part = design.part(2);
    let pins: &[u32] = design.pins_of(2);
    assert!(rt; name == b"y".as_slice());
    assert!(rt; part == Part::Gate(GateKind::Xor));
    assert!(rt; pins == [0, 1].as_slice());
    let place: u32 = 1;
    let pin: u32 = design.pin(2, place);
    assert!(rt; pin == 2);
}

fn pins_are(rt: &impl Abort, design: &Design) {
    let pins: u32 = design.pins();
    assert!(rt; pins == 3);
    let fed: u32 = design.pin_net(2);
    let source: u32 = design.pin_source(2);
    let wire: u64 = design.wire(1);
    assert!(rt; fed == 2);
    assert!(rt; source == 1);
    assert!(rt; wire == 1);
    assert!(rt; design.wire(2) == 0);
}

fn input_is(rt: &impl Abort, design: &Design) {
    let nets: u32 = design.nets();
    assert!(rt; nets == 3);
    let delay: u64 = design.delay(0);
    let stimuli: &[Change] = design.stimuli(0);
    assert!(rt; delay == 0);
    assert!(rt; stimuli.len() == 2);
    assert!(rt; design.delay(2) == 1);
    let netlist: &Netlist = design.netlist();
    assert!(rt; netlist.nets() == 3);
    let found: Option<u32> = design.find(b"b");
    assert!(rt; found == Some(1));
}

#[test]
fn readers(rt: HostRuntime) -> Result<(), Fail> {
    let design: Design = WIRED_XOR.build(rt.alloc())?;
    gate_is(&rt, &design);
    pins_are(&rt, &design);
    input_is(&rt, &design);
    Ok(())
}

// The clock of the flip-flop, net 1, and of the input.
fn has_clock(rt: &impl Abort, design: &Design, wanted: (u64, u64, Value)) {
    assert!(rt; design.nets() == 2);
    let period: u64 = design.period(1);
    let phase: u64 = design.phase(1);
    let init: Value = design.init(1);
    assert!(rt; (period, phase, init) == wanted);
    assert!(rt; (design.period(0), design.phase(0), design.init(0)) == (0, 0, Unknown));
}

#[test]
fn clocks(rt: HostRuntime) -> Result<(), Fail> {
    for (circuit, wanted) in [(SAMPLER, (4, 0, Unknown)), (CLOCKED, (4, 1, Zero))] {
        let design: Design = circuit.build(rt.alloc())?;
        has_clock(&rt, &design, wanted);
    }
    Ok(())
}

// A delay text and a stimulus text of the inverter, and their fault.
type Refused = (&'static [u8], &'static [u8], Option<BuildFault>);

static BUILT: [Refused; 9] = [
    (
        b"",
        b"3 y 1",
        Some(BuildFault::Stimulus(StimulusFault::NotAnInput { line: 1 })),
    ),
    (
        b"",
        b"3 a 1\n3 a 1",
        Some(BuildFault::Stimulus(StimulusFault::NotRising { line: 2 })),
    ),
    (b"", b"10000000 a 1", None),
    (
        b"",
        b"10000001 a 1",
        Some(BuildFault::Stimulus(StimulusFault::TickTooLarge { line: 1 })),
    ),
    (
        b"y 0",
        b"0 a z",
        Some(BuildFault::Timing(DelayFault::BadTicks { line: 1 })),
    ),
    (b"y 1000000", b"", None),
    (
        b"",
        b"0 a z",
        Some(BuildFault::Stimulus(StimulusFault::BadValue { line: 1 })),
    ),
    (
        b"y 2\ny 2",
        b"",
        Some(BuildFault::Timing(DelayFault::Twice { line: 2 })),
    ),
    (
        b"a 2",
        b"",
        Some(BuildFault::Timing(DelayFault::IsInput { line: 1 })),
    ),
];

fn refusal(
    alloc: Global,
    circuit: Circuit,
    delays: &[u8],
    stimuli: &[u8],
    default_delay: u64,
    period: u64,
) -> Result<Option<BuildFault>, Fail> {
    let netlist: Netlist = read(alloc, circuit.bench)?;
    let answer: Result<Design, BuildFault> = Design::build(
        alloc,
        netlist,
        delays,
        stimuli,
        default_delay,
        period,
    );
    Ok(answer.err())
}

#[test]
fn refused_texts(rt: HostRuntime) -> Result<(), Fail> {
    for &(delays, stimuli, wanted) in &BUILT {
        let refused: Option<BuildFault> = refusal(rt.alloc(), INVERTER, delays, stimuli, 1, 10)?;
        assert!(rt; refused == wanted);
    }
    let refused: Option<BuildFault> = refusal(rt.alloc(), INVERTER, b"y", b"y", 0, 0)?;
    assert!(rt; refused == Some(BuildFault::Setting(OptionFault::BadDelay)));
    Ok(())
}

// A circuit, a delay text of it, and how it is refused.
type Timed = (Circuit, &'static [u8], DelayFault);

static TIMED: [Timed; 11] = [
    (INVERTER, b"zz 2\ny", DelayFault::UnknownNet { line: 1 }),
    // One hundred times the digit 9.
    (
        INVERTER,
        b"y 9999999999999999999999999999999999999999999999999999999999999999999999999999999999999999999999999999",
        DelayFault::BadTicks { line: 1 },
    ),
    (
        SAMPLER,
        b"timing version 2\nclock d 4 1",
        DelayFault::NotAFlop { line: 2 },
    ),
    (
        SAMPLER,
        b"timing version 2\nclock q 4 4",
        DelayFault::BadPhase { line: 2 },
    ),
    (
        SAMPLER,
        b"timing version 2\nclock q 0 0",
        DelayFault::BadPeriod { line: 2 },
    ),
    (
        SAMPLER,
        b"timing version 2\ninit q z",
        DelayFault::BadValue { line: 2 },
    ),
    (
        SAMPLER,
        b"timing version 2\ndelay d 2",
        DelayFault::IsInput { line: 2 },
    ),
    (
        SAMPLER,
        b"timing version 3",
        DelayFault::BadLine { line: 1 },
    ),
    (
        INVERTER,
        b"timing version 2\nwire y 0 1000001",
        DelayFault::BadTicks { line: 2 },
    ),
    (
        INVERTER,
        b"timing version 2\nwire y 1 2",
        DelayFault::BadPin { line: 2 },
    ),
    (
        INVERTER,
        b"timing version 2\nwire a 0 2",
        DelayFault::BadPin { line: 2 },
    ),
];

// There are these faults of a design, and no others; they are looked for in this order.
fn number(fault: BuildFault) -> u8 {
    match fault {
        BuildFault::Setting(_) => 1,
        BuildFault::Timing(_) => 2,
        BuildFault::Stimulus(_) => 3,
        BuildFault::Memory => 4,
    }
}

#[test]
fn refused_delays(rt: HostRuntime) -> Result<(), Fail> {
    for &(circuit, delays, fault) in &TIMED {
        let refused: Option<BuildFault> = refusal(rt.alloc(), circuit, delays, b"", 1, 10)?;
        assert!(rt; refused == Some(BuildFault::Timing(fault)));
        assert!(rt; refused.map(number) == Some(2));
    }
    Ok(())
}

const ZEROS: Circuit = Circuit {
    delays: b"y 0000000000000000000000000000000002",
    ..INVERTER
};

fn has_delay(rt: &impl Abort, design: &Design, wanted: u64) {
    assert!(rt; design.nets() == 2);
    let delay: u64 = design.delay(1);
    assert!(rt; delay == wanted);
}

// Zeros before a number play no part.
#[test]
fn a_delay_with_zeros(rt: HostRuntime) -> Result<(), Fail> {
    let design: Design = ZEROS.build(rt.alloc())?;
    has_delay(&rt, &design, 2);
    Ok(())
}

// A circuit, its horizon, a net by its number, and the changes that it shows.
type Shown = (Circuit, u64, usize, &'static [(u64, Value)]);

static SHOWN: [Shown; 26] = [
    (INVERTER, 5, 0, &[(0, Zero), (3, One)]),
    (INVERTER, 5, 1, &[(1, One), (4, Zero)]),
    (INVERTER, 4, 0, &[(0, Zero), (3, One)]),
    (INVERTER, 4, 1, &[(1, One), (4, Zero)]),
    (INVERTER, 0, 0, &[(0, Zero)]),
    (INVERTER, 0, 1, &[]),
    (SLOW_INVERTER, 5, 1, &[]),
    (SELF_INVERTER, 3, 0, &[]),
    (
        GATED_OSCILLATOR,
        12,
        1,
        &[(2, One), (7, Zero), (9, One), (11, Zero)],
    ),
    (LATE_PIN, 8, 1, &[(1, Zero), (6, One)]),
    (LATE_PIN, 8, 2, &[(2, Zero), (6, One), (7, Zero)]),
    (CROSSING, 6, 2, &[(1, Zero)]),
    (CONTROLLED_AND, 2, 1, &[]),
    (CONTROLLED_AND, 2, 2, &[(1, Zero)]),
    (SAMPLER, 9, 1, &[(5, One), (9, Zero)]),
    (RING_COUNTER, 10, 0, &[]),
    (RING_COUNTER, 10, 1, &[]),
    (CLOCKED, 9, 1, &[(0, Zero), (2, Unknown), (6, Zero)]),
    (
        PRESET_RING,
        10,
        0,
        &[(0, Zero), (4, One), (7, Zero), (10, One)],
    ),
    (PRESET_RING, 10, 1, &[(1, One), (5, Zero), (8, One)]),
    (WIRED_XOR, 8, 1, &[(1, Zero), (6, One)]),
    (WIRED_XOR, 8, 2, &[(2, Zero)]),
    (WIRED_FLOP, 9, 1, &[(9, Zero)]),
    (WIRED_INVERTER, 5, 1, &[]),
    (EARLY_AND, 5, 1, &[(1, Zero)]),
    (S27, 35, 8, &[(6, One), (27, Zero)]),
];

fn waves_of(alloc: Global, circuit: Circuit, horizon: u64) -> Result<Vec<Waveform>, Fail> {
    let design: Design = circuit.build(alloc)?;
    let horizon: Horizon = Horizon::new(horizon)?;
    let waves: Result<Vec<Waveform>, AllocError> = plain_waves(alloc, &design, horizon);
    Ok(waves?)
}

fn has_changes(rt: &impl Abort, wave: &Waveform, wanted: &[(u64, Value)]) {
    assert!(rt; wave.before() == Unknown);
    assert!(rt; wave.changes().len() == wanted.len());
    for (change, (tick, value)) in wave.changes().iter().zip(wanted) {
        assert!(rt; change.tick == *tick);
        assert!(rt; change.value == *value);
    }
}

#[test]
fn plain_waveforms(rt: HostRuntime) -> Result<(), Fail> {
    for &(circuit, horizon, net, wanted) in &SHOWN {
        let waves: Vec<Waveform> = waves_of(rt.alloc(), circuit, horizon)?;
        let wave: &Waveform = waves.get(net).expect(&rt, "a waveform of this net");
        has_changes(&rt, wave, wanted);
    }
    Ok(())
}
