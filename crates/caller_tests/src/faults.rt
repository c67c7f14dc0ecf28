//! Faults of whole runs and of the texts that they are read from: each variant by its name, and no others.
use crate::simulations::INVERTER;
use bench_text::BenchFault;
use cmb_kernel::ScheduleFault;
use design::{DelayFault, OptionFault, StimulusFault};
use nullsim::{Picks, Show, SimFault, Source, TimeUnit, View, simulate};
use vcd_dump::DumpFault;
use worked_examples::Narrow;
use worked_examples::dumps::INVERTER_DUMP;

// There are exactly these faults of a run; they are looked for in this order.
fn number(fault: SimFault) -> u8 {
    match fault {
        SimFault::Setting(_) => 1,
        SimFault::Bench(_) => 2,
        SimFault::Timing(_) => 3,
        SimFault::Stimulus(_) => 4,
        SimFault::Schedule(_) => 5,
        SimFault::UnknownNet => 6,
        SimFault::Dump(_) => 7,
        SimFault::Memory => 9,
    }
}

// There are exactly these faults of options.
fn of_options(fault: OptionFault) -> u8 {
    match fault {
        OptionFault::BadDelay => 1,
        OptionFault::BadPeriod => 2,
        OptionFault::BadHorizon => 3,
    }
}

// There are exactly these faults of a .bench text, with their lines, or 0 for one without a line.
fn line_in_bench(fault: BenchFault) -> u64 {
    match fault {
        BenchFault::TooLong | BenchFault::NoNets | BenchFault::TooMany | BenchFault::Memory => 0,
        BenchFault::BadByte { line }
        | BenchFault::BadLine { line }
        | BenchFault::NameTooLong { line }
        | BenchFault::UnknownGate { line }
        | BenchFault::BadArity { line }
        | BenchFault::DefinedTwice { line }
        | BenchFault::Undefined { line } => line,
    }
}

// There are exactly these faults of a delay text.
fn line_in_delays(fault: DelayFault) -> u64 {
    match fault {
        DelayFault::TooLong | DelayFault::Memory => 0,
        DelayFault::BadLine { line }
        | DelayFault::UnknownNet { line }
        | DelayFault::IsInput { line }
        | DelayFault::BadTicks { line }
        | DelayFault::Twice { line }
        | DelayFault::NotAFlop { line }
        | DelayFault::BadPeriod { line }
        | DelayFault::BadPhase { line }
        | DelayFault::BadValue { line }
        | DelayFault::BadPin { line } => line,
    }
}

// There are exactly these faults of a stimulus text.
fn line_in_stimuli(fault: StimulusFault) -> u64 {
    match fault {
        StimulusFault::TooLong | StimulusFault::Memory => 0,
        StimulusFault::BadLine { line }
        | StimulusFault::UnknownNet { line }
        | StimulusFault::NotAnInput { line }
        | StimulusFault::TickTooLarge { line }
        | StimulusFault::BadValue { line }
        | StimulusFault::NotRising { line } => line,
    }
}

// The line of a fault, or the number of one without a line.
fn place(fault: SimFault) -> u64 {
    match fault {
        SimFault::Setting(fault) => u64::from(of_options(fault)),
        SimFault::Bench(fault) => line_in_bench(fault),
        SimFault::Timing(fault) => line_in_delays(fault),
        SimFault::Stimulus(fault) => line_in_stimuli(fault),
        _ => 0,
    }
}

const FIVE: View = View {
    horizon: 5,
    show: Show::All,
    unit: TimeUnit::Ns,
};

// The first has all faults; each further one has a fault less, but for the last, which has another one.
static REFUSED: [(Source<'static>, SimFault, u8, u64); 6] = [
    (
        Source {
            bench: b"",
            delays: b"y\n",
            stimuli: b"y\n",
            default_delay: 0,
            period: 0,
            picks: Picks::Text(b"y"),
        },
        SimFault::Setting(OptionFault::BadDelay),
        1,
        1,
    ),
    (
        Source {
            bench: b"INPUT(a)\nx y\n",
            delays: b"y\n",
            stimuli: b"y\n",
            picks: Picks::Text(b"y"),
            ..INVERTER
        },
        SimFault::Bench(BenchFault::BadLine { line: 2 }),
        2,
        2,
    ),
    (
        Source {
            delays: b"\n\ny\n",
            stimuli: b"y\n",
            picks: Picks::Text(b"y"),
            ..INVERTER
        },
        SimFault::Timing(DelayFault::BadLine { line: 3 }),
        3,
        3,
    ),
    (
        Source {
            stimuli: b"\ny\n",
            picks: Picks::Text(b"y"),
            ..INVERTER
        },
        SimFault::Stimulus(StimulusFault::BadLine { line: 2 }),
        4,
        2,
    ),
    (
        Source {
            picks: Picks::Text(b"deliver y 1"),
            ..INVERTER
        },
        SimFault::Schedule(ScheduleFault::BadPin { line: 1 }),
        5,
        0,
    ),
    (
        Source {
            picks: Picks::Seeded {
                seed: 0,
                picks: 10_000_001,
            },
            ..INVERTER
        },
        SimFault::Schedule(ScheduleFault::TooManyEvents),
        5,
        0,
    ),
];

#[test]
fn refused_runs(rt: HostRuntime) {
    for &(source, wanted, which, at) in &REFUSED {
        let mut out: Vec<u8> = Vec::new(rt.alloc());
        let fault: Option<SimFault> = simulate(rt.alloc(), &source, &FIVE, &mut out).err();
        assert!(rt; fault == Some(wanted));
        assert!(rt; number(wanted) == which && place(wanted) == at);
        assert!(rt; out.is_empty());
    }
}

// All options are wrong, and the text.
#[test]
fn the_first_option(rt: HostRuntime) {
    let view = View {
        horizon: 10_000_001,
        ..FIVE
    };
    let source = Source {
        bench: b"",
        default_delay: 0,
        period: 0,
        ..INVERTER
    };
    let mut out: Vec<u8> = Vec::new(rt.alloc());
    let fault = simulate(rt.alloc(), &source, &view, &mut out).err();
    assert!(rt; fault == Some(SimFault::Setting(OptionFault::BadDelay)));
    let later = Source {
        default_delay: 1,
        ..source
    };
    let fault = simulate(rt.alloc(), &later, &view, &mut out).err();
    assert!(rt; fault == Some(SimFault::Setting(OptionFault::BadPeriod)));
}

// The horizon is looked at after the other options, and before the texts.
#[test]
fn a_far_horizon(rt: HostRuntime) {
    let view = View {
        horizon: 10_000_001,
        ..FIVE
    };
    let mut out: Vec<u8> = Vec::new(rt.alloc());
    let source = Source {
        bench: b"",
        ..INVERTER
    };
    let fault = simulate(rt.alloc(), &source, &view, &mut out).err();
    assert!(rt; fault == Some(SimFault::Setting(OptionFault::BadHorizon)));
}

// The first line, and the beginning of the second.
#[test]
fn a_short_writer(rt: HostRuntime) {
    let mut out = Narrow::new(rt.alloc(), 40, 1_000);
    let fault = simulate(rt.alloc(), &INVERTER, &FIVE, &mut out).err();
    assert!(rt; fault == Some(SimFault::Dump(DumpFault::Write)));
    assert!(rt; out.taken.as_slice() == &INVERTER_DUMP[..40]);
}
