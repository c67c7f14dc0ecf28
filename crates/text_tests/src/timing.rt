//! Delay texts, stimulus texts and settings: what is refused, and with which fault, beside what `caller_tests` has.
use crate::lines::longest;
use bench_text::read;
use design::{BuildFault, Design};
use logic3::Value;
use std::alloc::Global;
use std::process::Abort;
use std::test::Fail;
use timing_text::{DelayFault, OptionFault, StimulusFault, Timing, options};

fn build(
    alloc: Global,
    delays: &[u8],
    stimuli: &[u8],
    default_delay: u64,
    period: u64,
) -> Result<Result<Design, BuildFault>, Fail> {
    let netlist = read(alloc, b"INPUT(a)\nOUTPUT(y)\ny = NOT(a)\n")?;
    Ok(Design::build(alloc, netlist, delays, stimuli, default_delay, period))
}

// With these texts, default delay and period the inverter is refused with this fault, or built.
fn answers(
    rt: &impl Abort,
    alloc: Global,
    texts: (&[u8], &[u8]),
    settings: (u64, u64),
    fault: Option<BuildFault>,
) -> Result<(), Fail> {
    let answer = build(alloc, texts.0, texts.1, settings.0, settings.1)?;
    assert!(rt; answer.err() == fault);
    Ok(())
}

// Valid settings.
const FINE: (u64, u64) = (1, 10);

// Stimulus texts, and what they are refused with.
static FAULTY_STIMULI: [(&[u8], StimulusFault); 4] = [
    (b"0 zz 1", StimulusFault::UnknownNet { line: 1 }),
    (b"# fine\n0 a", StimulusFault::BadLine { line: 2 }),
    (b"x a 1", StimulusFault::BadLine { line: 1 }),
    (b"0 a 1 \x0B", StimulusFault::BadLine { line: 1 }),
];

#[test]
fn faulty_stimuli(rt: HostRuntime) -> Result<(), Fail> {
    for &(text, fault) in &FAULTY_STIMULI {
        let fault = BuildFault::Stimulus(fault);
        answers(&rt, rt.alloc(), (b"", text), FINE, Some(fault))?;
    }
    let last_tick = b"10000000 a 1 # the last tick";
    answers(&rt, rt.alloc(), (b"", last_tick), FINE, None)
}

// With this delay text the inverter's gate has this delay.
fn delays_gate(rt: &impl Abort, alloc: Global, text: &[u8], delay: u64) -> Result<(), Fail> {
    let built = build(alloc, text, b"", 1, 10)?.map_err(|_| "a fault")?;
    gate_has_delay(rt, &built, delay);
    Ok(())
}

fn gate_has_delay(rt: &impl Abort, built: &Design, delay: u64) {
    assert!(rt; built.nets() == 2);
    assert!(rt; built.delay(1) == delay);
    assert!(rt; built.delay(0) == 0);
    assert!(rt; built.period(1) == 0);
}

// Delay texts, and what they are refused with.
static FAULTY_DELAYS: [(&[u8], DelayFault); 3] = [
    (b"y 1000001", DelayFault::BadTicks { line: 1 }),
    (b"y", DelayFault::BadLine { line: 1 }),
    // No header of the second version.
    (
        b"timing version 02\ndelay y 2",
        DelayFault::BadLine { line: 1 },
    ),
];

#[test]
fn faulty_delays(rt: HostRuntime) -> Result<(), Fail> {
    for &(text, fault) in &FAULTY_DELAYS {
        let fault = BuildFault::Timing(fault);
        answers(&rt, rt.alloc(), (text, b""), FINE, Some(fault))?;
    }
    for (text, delay) in [
        (b"y 1000000".as_slice(), 1_000_000),
        (b"# y 3".as_slice(), 1),
    ] {
        delays_gate(&rt, rt.alloc(), text, delay)?;
    }
    Ok(())
}

fn build_flop(alloc: Global, lines: &[u8]) -> Result<Result<Design, BuildFault>, Fail> {
    let mut text = Vec::from_slice(
        alloc,
        b"# a flip-flop\n\ttiming version 2 # and its clock\n",
    )?;
    text.extend_from_slice(lines)?;
    let netlist = read(alloc, b"INPUT(d)\nq = DFF(d)\n")?;
    Ok(Design::build(alloc, netlist, &text, b"", 1, 4))
}

// Lines after the header, which is on the second line, and what they are refused with.
static FAULTY_CLOCKS: [(&[u8], DelayFault); 25] = [
    (b"clock d 4 1", DelayFault::NotAFlop { line: 3 }),
    (b"init d 1", DelayFault::NotAFlop { line: 3 }),
    (b"clock q 4 4", DelayFault::BadPhase { line: 3 }),
    (b"clock q 0 0", DelayFault::BadPeriod { line: 3 }),
    (b"clock q 10000001 0", DelayFault::BadPeriod { line: 3 }),
    (b"init q z", DelayFault::BadValue { line: 3 }),
    (b"init q 10", DelayFault::BadValue { line: 3 }),
    (b"delay d 2", DelayFault::IsInput { line: 3 }),
    (b"delay q 0", DelayFault::BadTicks { line: 3 }),
    // Of several faults of a line, the first one.
    (b"clock zz 0 9", DelayFault::UnknownNet { line: 3 }),
    (b"clock d 0 9", DelayFault::NotAFlop { line: 3 }),
    (b"init d z", DelayFault::NotAFlop { line: 3 }),
    (b"clock q 0 9", DelayFault::BadPeriod { line: 3 }),
    (
        b"clock q 4 1\nclock q 4 4",
        DelayFault::BadPhase { line: 4 },
    ),
    (b"clock zz x 1", DelayFault::BadLine { line: 3 }),
    // Second lines of a kind.
    (b"clock q 4 1\nclock q 4 1", DelayFault::Twice { line: 4 }),
    (b"init q 0\ninit q x", DelayFault::Twice { line: 4 }),
    (
        b"delay q 2\ninit q 0\nclock q 4 1\ndelay q 2",
        DelayFault::Twice { line: 6 },
    ),
    // Malformed lines.
    (b"timing version 2", DelayFault::BadLine { line: 3 }),
    (b"q 2", DelayFault::BadLine { line: 3 }),
    (b"Clock q 4 1", DelayFault::BadLine { line: 3 }),
    (b"clock q 4", DelayFault::BadLine { line: 3 }),
    (b"clock q 4 1 1", DelayFault::BadLine { line: 3 }),
    (b"clock q 4 one", DelayFault::BadLine { line: 3 }),
    (b"init q 0 \x0B", DelayFault::BadLine { line: 3 }),
];

fn flop_answers(
    rt: &impl Abort,
    alloc: Global,
    lines: &[u8],
    fault: DelayFault,
) -> Result<(), Fail> {
    let answer = build_flop(alloc, lines)?;
    assert!(rt; answer.err() == Some(BuildFault::Timing(fault)));
    Ok(())
}

#[test]
fn faulty_clocks(rt: HostRuntime) -> Result<(), Fail> {
    for &(lines, fault) in &FAULTY_CLOCKS {
        flop_answers(&rt, rt.alloc(), lines, fault)?;
    }
    Ok(())
}

// With these lines after the header the flip-flop has this timing.
fn flop_has(rt: &impl Abort, alloc: Global, lines: &[u8], timing: Timing) -> Result<(), Fail> {
    let built = build_flop(alloc, lines)?.map_err(|_| "a fault")?;
    has_timing(rt, &built, timing);
    Ok(())
}

fn has_timing(rt: &impl Abort, built: &Design, timing: Timing) {
    assert!(rt; built.nets() == 2);
    assert!(rt; built.timing(1) == timing);
    assert!(rt; built.delay(1) == timing.delay);
    assert!(rt; built.period(1) == timing.period);
    assert!(rt; built.phase(1) == timing.phase);
    assert!(rt; built.init(1) == timing.initial);
    assert!(rt;
        built.timing(0)
            == Timing {
                delay: 0,
                period: 0,
                phase: 0,
                initial: Value::Unknown
            }
    );
}

// Lines after the header, and the delay, the period, the phase and the initial value that they give.
static CLOCKS: [(&[u8], [u64; 3], Value); 5] = [
    (b"", [1, 4, 0], Value::Unknown),
    (
        b"clock q 10000000 9999999\ninit q 1",
        [1, 10_000_000, 9_999_999],
        Value::One,
    ),
    (
        b"init q 0\ndelay q 1000000\nclock q 1 0",
        [1_000_000, 1, 0],
        Value::Zero,
    ),
    (b"init q X", [1, 4, 0], Value::Unknown),
    (b"clock q 4 0\ninit q x", [1, 4, 0], Value::Unknown),
];

#[test]
fn clocks(rt: HostRuntime) -> Result<(), Fail> {
    for &(lines, [delay, period, phase], initial) in &CLOCKS {
        let timing = Timing {
            delay,
            period,
            phase,
            initial,
        };
        flop_has(&rt, rt.alloc(), lines, timing)?;
    }
    Ok(())
}

// Lines after the header, and what they are refused with.
static FAULTY_WIRES: [(&[u8], DelayFault); 17] = [
    (b"wire q 1 2", DelayFault::BadPin { line: 3 }),
    (b"wire d 0 2", DelayFault::BadPin { line: 3 }),
    (
        b"wire q 18446744073709551616 2",
        DelayFault::BadPin { line: 3 },
    ),
    (b"wire q 0 1000001", DelayFault::BadTicks { line: 3 }),
    (
        b"wire q 0 9999999999999999999999999999999999999999999999999999999999999999999999999999999999999999999999999999",
        DelayFault::BadTicks { line: 3 },
    ),
    // Of several faults of a line, the first one.
    (b"wire zz 1 1000001", DelayFault::UnknownNet { line: 3 }),
    (b"wire d 0 1000001", DelayFault::BadPin { line: 3 }),
    (
        b"wire q 0 1\nwire q 0 1000001",
        DelayFault::BadTicks { line: 4 },
    ),
    (b"wire zz 0 x", DelayFault::BadLine { line: 3 }),
    // Second lines of a pin, whose place is a number.
    (b"wire q 0 1\nwire q 0 1", DelayFault::Twice { line: 4 }),
    (b"wire q 0 0\nwire q 00 2", DelayFault::Twice { line: 4 }),
    // Malformed lines.
    (b"wire q 0", DelayFault::BadLine { line: 3 }),
    (b"wire q 0 1 1", DelayFault::BadLine { line: 3 }),
    (b"wire q one 1", DelayFault::BadLine { line: 3 }),
    (b"wire q 0 one", DelayFault::BadLine { line: 3 }),
    (b"wire q 0 -1", DelayFault::BadLine { line: 3 }),
    (b"WIRE q 0 1", DelayFault::BadLine { line: 3 }),
];

#[test]
fn faulty_wires(rt: HostRuntime) -> Result<(), Fail> {
    for &(lines, fault) in &FAULTY_WIRES {
        flop_answers(&rt, rt.alloc(), lines, fault)?;
    }
    Ok(())
}

// In a delay text of the first version there are no wires.
static WIRES: [(&[u8], [u32; 4]); 4] = [
    (b"y 3\nwire 2", [0, 0, 0, 0]),
    (b"timing version 2\nwire y 0 5", [5, 0, 0, 0]),
    (
        b"timing version 2\nwire y 2 1000000\ndelay y 7\nwire y 1 3\nwire wire 0 1",
        [0, 3, 1_000_000, 1],
    ),
    (b"timing version 2\nwire y 2 0\nwire y 001 03", [0, 3, 0, 0]),
];

// The pins of a gate of three pins and of one of one pin, whose name is how a line of a wire begins.
fn pins_have_wires(
    rt: &impl Abort,
    alloc: Global,
    delays: &[u8],
    wires: &[u32; 4],
) -> Result<(), Fail> {
    let netlist = read(alloc, b"INPUT(a)\ny = AND(a, a, a)\nwire = NOT(y)\n")?;
    let built = Design::build(alloc, netlist, delays, b"", 1, 4)?;
    has_wires(rt, &built, wires);
    Ok(())
}

fn has_wires(rt: &impl Abort, built: &Design, wires: &[u32; 4]) {
    assert!(rt; built.nets() == 3);
    assert!(rt; built.pins() == 4);
    assert!(rt; built.wires_of(0).is_empty());
    assert!(rt; built.wires_of(1) == &wires[..3]);
    assert!(rt; built.wires_of(2) == &wires[3..]);
    for pin in 0..4 {
        assert!(rt; built.wire(pin) == u64::from(wires[pin as usize]));
    }
}

#[test]
fn wires(rt: HostRuntime) -> Result<(), Fail> {
    for (delays, wires) in &WIRES {
        pins_have_wires(&rt, rt.alloc(), delays, wires)?;
    }
    Ok(())
}

fn is_too_long(rt: &impl Abort, alloc: Global, text: &[u8]) -> Result<(), Fail> {
    let of_delays = BuildFault::Timing(DelayFault::TooLong);
    answers(rt, alloc, (text, b"x"), FINE, Some(of_delays))?;
    let of_stimuli = BuildFault::Stimulus(StimulusFault::TooLong);
    answers(rt, alloc, (b"", text), FINE, Some(of_stimuli))
}

// A byte too many is refused before anything else in the text.
#[test]
fn too_long_texts(rt: HostRuntime) -> Result<(), Fail> {
    let mut text = longest(rt.alloc(), b"#")?;
    answers(&rt, rt.alloc(), (&text, &text), FINE, None)?;
    text.push(b'x')?;
    is_too_long(&rt, rt.alloc(), &text)
}

fn options_are(rt: &impl Abort, delay: u64, period: u64, answer: Result<(), OptionFault>) {
    assert!(rt; options(delay, period) == answer);
}

#[test]
fn settings_first(rt: HostRuntime) -> Result<(), Fail> {
    for (delay, period, fault) in [
        (0, 0, OptionFault::BadDelay),
        (1_000_001, 10, OptionFault::BadDelay),
        (1, 0, OptionFault::BadPeriod),
        (1, 10_000_001, OptionFault::BadPeriod),
    ] {
        options_are(&rt, delay, period, Err(fault));
        let fault = BuildFault::Setting(fault);
        answers(
            &rt,
            rt.alloc(),
            (b"y", b"0 a"),
            (delay, period),
            Some(fault),
        )?;
    }
    options_are(&rt, 1_000_000, 10_000_000, Ok(()));
    let fault = BuildFault::Timing(DelayFault::BadLine { line: 1 });
    answers(&rt, rt.alloc(), (b"y", b"0 a"), FINE, Some(fault))
}
