//! Two runs compared, and the two engines compared, by the library's calls.
use bench_text::BenchFault;
use cmb_events::ScheduleFault;
use kernel_runs::{CheckAnswer, Side, TwinAnswer, TwinFault, check, simulate, twin};
use logic3::{Change, Value, Waveform};
use prepared_runs::{Picks, Show, SimFault, Source, View};
use std::process::Abort;
use std::test::Fail;
use timing_text::{DelayFault, OptionFault, StimulusFault};
use vcd_dump::TimeUnit;
use worked_examples::dumps::{OTHER_TWIN_DUMP, TWIN_DUMP};
use worked_examples::{S27_BENCH, S27_STIMULI};

const ONE: Source<'static> = Source {
    bench: b"INPUT(a)\nOUTPUT(y)\ny = NOT(a)\nINPUT(b)\nz = AND(a, b)\n",
    delays: b"",
    stimuli: b"0 a 0\n3 a 1\n0 b 1\n",
    default_delay: 1,
    period: 10,
    picks: Picks::Nothing,
};

const OTHER: Source<'static> = Source {
    bench: b"INPUT(c)\nk = BUF(c)\nm = NOT(k)\nz = XOR(a, b)\nINPUT(b)\nINPUT(a)\ny = NOT(a)\n",
    ..ONE
};

const FLOP: Source<'static> = Source {
    bench: b"INPUT(d)\nq = DFF(d)\n",
    stimuli: b"4 d 1\n5 d 0\n",
    period: 4,
    ..ONE
};

const S27: Source<'static> = Source {
    bench: S27_BENCH,
    stimuli: S27_STIMULI,
    ..ONE
};

// What y shows, and what z does in the first circuit.
const INVERTED: &[Change] = &[
    Change {
        tick: 1,
        value: Value::One,
    },
    Change {
        tick: 4,
        value: Value::Zero,
    },
];

const BOTH: &[Change] = &[
    Change {
        tick: 1,
        value: Value::Zero,
    },
    Change {
        tick: 4,
        value: Value::One,
    },
];

// y by a gate with a delay of two ticks.
const LATE: &[Change] = &[
    Change {
        tick: 2,
        value: Value::One,
    },
    Change {
        tick: 5,
        value: Value::Zero,
    },
];

const SAMPLED: &[Change] = &[
    Change {
        tick: 5,
        value: Value::One,
    },
    Change {
        tick: 9,
        value: Value::Zero,
    },
];

// With the phase 1, and begun with 0.
const FALLEN: &[Change] = &[Change {
    tick: 6,
    value: Value::Zero,
}];

const STARTED: &[Change] = &[
    Change {
        tick: 0,
        value: Value::Zero,
    },
    Change {
        tick: 5,
        value: Value::One,
    },
    Change {
        tick: 9,
        value: Value::Zero,
    },
];

// The output of the flip-flops' circuit, worked out independently.
const OUTPUT: &[Change] = &[
    Change {
        tick: 6,
        value: Value::One,
    },
    Change {
        tick: 27,
        value: Value::Zero,
    },
];

const DRIVEN_ON: Source<'static> = Source {
    stimuli: b"0 a 0\n3 a 1\n0 b 1\n6 a 0\n",
    ..OTHER
};

const SCHEDULED: Source<'static> = Source {
    picks: Picks::Text(b"advance y\nadvance a\ndeliver y 0\n"),
    ..ONE
};

const PICKED: Source<'static> = Source {
    picks: Picks::Seeded {
        seed: 7,
        picks: 1_000,
    },
    ..OTHER
};

const SLOW_BESIDE: Source<'static> = Source {
    delays: b"z 7\n",
    period: 3,
    ..ONE
};

const UNDRIVEN_BESIDE: Source<'static> = Source {
    stimuli: b"0 a 0\n3 a 1\n",
    ..ONE
};

const PICKED_S27: Source<'static> = Source {
    picks: Picks::Seeded {
        seed: 1,
        picks: 500,
    },
    ..S27
};

const SLOW: Source<'static> = Source {
    delays: b"y 2\n",
    ..ONE
};

const OTHER_CLOCK: Source<'static> = Source { period: 10, ..FLOP };

// Clock and init lines that repeat the defaults, a phase, and an initial value.
const SAID: Source<'static> = Source {
    delays: b"timing version 2\nclock q 4 0\ninit q X\n",
    period: 10,
    ..FLOP
};

const OTHER_PHASE: Source<'static> = Source {
    delays: b"timing version 2\nclock q 4 1\n",
    ..FLOP
};

const OTHER_START: Source<'static> = Source {
    delays: b"timing version 2\ninit q 0\n",
    ..FLOP
};

// A wire to the compared net, a wire to another net, and a wire of no ticks.
const WIRED: Source<'static> = Source {
    delays: b"timing version 2\nwire y 0 1\n",
    ..ONE
};

const WIRED_BESIDE: Source<'static> = Source {
    delays: b"timing version 2\nwire z 0 1\nwire y 0 0\n",
    ..ONE
};

/// Two sources, the name of the net and the horizon; whether they agree, and the changes that each shows.
type Compared = (
    Source<'static>,
    Source<'static>,
    &'static [u8],
    u64,
    bool,
    &'static [Change],
    &'static [Change],
);

// One net in two runs.
static COMPARED: [Compared; 18] = [
    (ONE, OTHER, b"y", 5, true, INVERTED, INVERTED),
    (OTHER, ONE, b"y", 5, true, INVERTED, INVERTED),
    (ONE, OTHER, b"z", 5, false, BOTH, INVERTED),
    // A change of an input past the horizon has no effect; one at the horizon does.
    (ONE, DRIVEN_ON, b"y", 5, true, INVERTED, INVERTED),
    (ONE, DRIVEN_ON, b"y", 6, false, INVERTED, INVERTED),
    // Neither picked events nor the circuit outside the cone have an effect.
    (ONE, SCHEDULED, b"y", 5, true, INVERTED, INVERTED),
    (ONE, PICKED, b"y", 5, true, INVERTED, INVERTED),
    (ONE, SLOW_BESIDE, b"y", 5, true, INVERTED, INVERTED),
    (ONE, UNDRIVEN_BESIDE, b"y", 5, true, INVERTED, INVERTED),
    (S27, PICKED_S27, b"G17", 35, true, OUTPUT, OUTPUT),
    (ONE, WIRED_BESIDE, b"y", 5, true, INVERTED, INVERTED),
    // A delay, a period, a phase, an initial value and a wire have one, even if they show the same.
    (SLOW, ONE, b"y", 5, false, LATE, INVERTED),
    (FLOP, OTHER_CLOCK, b"q", 9, false, SAMPLED, &[]),
    (FLOP, SAID, b"q", 9, true, SAMPLED, SAMPLED),
    (FLOP, OTHER_PHASE, b"q", 9, false, SAMPLED, FALLEN),
    (OTHER_START, FLOP, b"q", 9, false, STARTED, SAMPLED),
    (WIRED, ONE, b"y", 5, false, LATE, INVERTED),
    (WIRED, SLOW, b"y", 5, false, LATE, LATE),
];

// The waveform is X before its first change, and has exactly these changes.
fn is_wave(rt: &impl Abort, wave: &Waveform, changes: &[Change]) {
    assert!(rt; wave.before() == Value::Unknown);
    assert!(rt; wave.changes() == changes);
}

// The runs agree or not, and show these changes.
fn says(rt: &impl Abort, answer: &TwinAnswer, agree: bool, first: &[Change], second: &[Change]) {
    assert!(rt; answer.agree == agree);
    is_wave(rt, &answer.first, first);
    is_wave(rt, &answer.second, second);
}

#[test]
fn two_runs(rt: HostRuntime) -> Result<(), Fail> {
    for (one, other, name, horizon, agree, first, second) in &COMPARED {
        let answer = twin(rt.alloc(), one, other, name, *horizon)?;
        says(&rt, &answer, *agree, first, second);
    }
    Ok(())
}

// The codes of one net differ between the dumps of two runs that agree on it.
#[test]
fn dumps_of_both(rt: HostRuntime) {
    let view = View {
        horizon: 5,
        show: Show::All,
        unit: TimeUnit::Ns,
    };
    for (source, dump) in [(ONE, TWIN_DUMP), (OTHER, OTHER_TWIN_DUMP)] {
        let mut out = Vec::new(rt.alloc());
        let answer = simulate(rt.alloc(), &source, &view, &mut out);
        assert!(rt; answer.is_ok() && out.as_slice() == dump);
    }
}

const FAULTY_TEXT: Source<'static> = Source {
    bench: b"x y",
    ..ONE
};

const BAD_PIN_PICKED: Source<'static> = Source {
    picks: Picks::Text(b"deliver y 1"),
    ..ONE
};

const BAD_PIN: SimFault = SimFault::Schedule(ScheduleFault::BadPin { line: 1 });

/// A source, and its fault.
type Faulty = (Source<'static>, SimFault);

// Faults of the settings, which are checked before the texts, and of each text.
static FAULTY: [Faulty; 10] = [
    (
        Source {
            default_delay: 0,
            period: 0,
            ..FAULTY_TEXT
        },
        SimFault::Setting(OptionFault::BadDelay),
    ),
    (
        Source {
            default_delay: 1_000_001,
            period: 10,
            ..FAULTY_TEXT
        },
        SimFault::Setting(OptionFault::BadDelay),
    ),
    (
        Source {
            default_delay: 1,
            period: 0,
            ..FAULTY_TEXT
        },
        SimFault::Setting(OptionFault::BadPeriod),
    ),
    (
        Source {
            default_delay: 1,
            period: 10_000_001,
            ..FAULTY_TEXT
        },
        SimFault::Setting(OptionFault::BadPeriod),
    ),
    (
        Source {
            bench: b"INPUT(a)\nx y\n",
            ..ONE
        },
        SimFault::Bench(BenchFault::BadLine { line: 2 }),
    ),
    (
        Source { bench: b"", ..ONE },
        SimFault::Bench(BenchFault::NoNets),
    ),
    (
        Source {
            delays: b"y 2\n\ny 2\n",
            ..ONE
        },
        SimFault::Timing(DelayFault::Twice { line: 3 }),
    ),
    (
        Source {
            stimuli: b"3 a 1\n3 a 1\n",
            ..ONE
        },
        SimFault::Stimulus(StimulusFault::NotRising { line: 2 }),
    ),
    (BAD_PIN_PICKED, BAD_PIN),
    (
        Source {
            picks: Picks::Seeded {
                seed: 7,
                picks: 10_000_001,
            },
            ..ONE
        },
        SimFault::Schedule(ScheduleFault::TooManyEvents),
    ),
];

// The comparison ends with this fault of this side.
fn refuses(rt: &impl Abort, answer: Result<TwinAnswer, TwinFault>, side: Side, fault: SimFault) {
    assert!(rt; answer.err() == Some(TwinFault { side, fault }));
}

// A source is refused on both sides, even if no run has a net with the name, and by a check.
#[test]
fn faults_of_a_source(rt: HostRuntime) {
    for (source, fault) in &FAULTY {
        for (first, second, name, side) in [
            (source, &ONE, b"y".as_slice(), Side::First),
            (&ONE, source, b"y".as_slice(), Side::Second),
            (source, source, b"y".as_slice(), Side::First),
            (&ONE, source, b"zz".as_slice(), Side::Second),
        ] {
            let answer = twin(rt.alloc(), first, second, name, 5);
            refuses(&rt, answer, side, *fault);
        }
        assert!(rt; check(rt.alloc(), source, 5) == Err(*fault));
    }
}

const NO_DELAY: Source<'static> = Source {
    default_delay: 0,
    ..ONE
};

const TOO_FAR: SimFault = SimFault::Setting(OptionFault::BadHorizon);

/// Two sources, the name of the net and the horizon; the side and its fault.
type Refused = (
    Source<'static>,
    Source<'static>,
    &'static [u8],
    u64,
    Side,
    SimFault,
);

// Which fault comes first.
static REFUSED: [Refused; 8] = [
    // The horizon is that of both runs, and is checked with the first.
    (
        FAULTY_TEXT,
        FAULTY_TEXT,
        b"y",
        10_000_001,
        Side::First,
        TOO_FAR,
    ),
    (
        FAULTY_TEXT,
        FAULTY_TEXT,
        b"y",
        u64::MAX,
        Side::First,
        TOO_FAR,
    ),
    // All checks of the first run come before all of the second, and the names after them.
    (BAD_PIN_PICKED, NO_DELAY, b"zz", 5, Side::First, BAD_PIN),
    (ONE, BAD_PIN_PICKED, b"zz", 5, Side::Second, BAD_PIN),
    // No net of this side has the name.
    (ONE, OTHER, b"m", 5, Side::First, SimFault::UnknownNet),
    (OTHER, ONE, b"m", 5, Side::Second, SimFault::UnknownNet),
    (ONE, OTHER, b"zz", 5, Side::First, SimFault::UnknownNet),
    (ONE, OTHER, b"", 5, Side::First, SimFault::UnknownNet),
];

#[test]
fn refused_comparisons(rt: HostRuntime) {
    for (first, second, name, horizon, side, fault) in &REFUSED {
        let answer = twin(rt.alloc(), first, second, name, *horizon);
        refuses(&rt, answer, *side, *fault);
    }
    for horizon in [10_000_001, u64::MAX] {
        assert!(rt; check(rt.alloc(), &FAULTY_TEXT, horizon) == Err(TOO_FAR));
    }
}

const SCHEDULED_S27: Source<'static> = Source {
    picks: Picks::Text(b"advance G17\nadvance G0\ndeliver G14 0\n"),
    ..S27
};

const OTHERWISE_PICKED_S27: Source<'static> = Source {
    picks: Picks::Seeded {
        seed: 7,
        picks: 1_000,
    },
    ..S27
};

/// A source, the horizon, and the numbers of nets and pins.
type Checked = (Source<'static>, u64, u32, u32);

// Circuits of several sizes, and picked events, which have no effect.
static CHECKED: [Checked; 7] = [
    (S27, 35, 17, 21),
    (S27, 0, 17, 21),
    (ONE, 5, 4, 3),
    (OTHER, 5, 7, 5),
    (FLOP, 9, 2, 1),
    (SCHEDULED_S27, 35, 17, 21),
    (OTHERWISE_PICKED_S27, 35, 17, 21),
];

// The engines give the same waveform for each of this number of nets, with this number of pins.
#[test]
fn engines_that_agree(rt: HostRuntime) {
    for &(source, horizon, nets, pins) in &CHECKED {
        let same = nets;
        assert!(rt; check(rt.alloc(), &source, horizon) == Ok(CheckAnswer { nets, pins, same }));
    }
}
