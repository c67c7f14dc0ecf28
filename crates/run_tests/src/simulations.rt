//! Runs by the kernel: dumps byte for byte, reports, schedules.
use crate::engines::{Engine, dumps};
use cmb_kernel::Counts;
use kernel_runs::{Report, simulate};
use prepared_runs::{Picks, Show, Source, View};
use std::alloc::Global;
use std::process::Abort;
use vcd_dump::TimeUnit;
use worked_examples::dumps::{
    CLOCKED_DUMP, EDGE_DUMP, INVERTER_DUMP, LATCH_DUMP, OSCILLATOR_DUMP, OUTPUTS_DUMP,
    PRESET_RING_DUMP, RING_COUNTER_DUMP, SAMPLER_DUMP, SELF_INVERTER_DUMP, SLOW_DUMP,
    WIRED_FLOP_DUMP, WIRED_XOR_DUMP,
};

const INVERTER: Source<'static> = Source {
    bench: b"INPUT(a)\nOUTPUT(y)\ny = NOT(a)\n",
    delays: b"",
    stimuli: b"0 a 0\n3 a 1\n",
    default_delay: 1,
    period: 10,
    picks: Picks::Nothing,
};

// A buffer and a gate that compares its two sides.
const EDGE: Source<'static> = Source {
    bench: b"INPUT(a)\nb = BUFF(a)\ny = XOR(a, b)\n",
    stimuli: b"0 a 0\n5 a 1\n",
    ..INVERTER
};

const SLOW_INVERTER: Source<'static> = Source {
    delays: b"y 9",
    ..INVERTER
};

const SELF_INVERTER: Source<'static> = Source {
    bench: b"y = NOT(y)",
    stimuli: b"",
    ..INVERTER
};

const OSCILLATOR: Source<'static> = Source {
    bench: b"INPUT(e)\ny = NAND(e, y)\n",
    delays: b"y 2",
    stimuli: b"0 e 0\n5 e 1\n",
    ..INVERTER
};

// Its input settles the gate, whatever it shows itself.
const LATCH: Source<'static> = Source {
    bench: b"INPUT(a)\ny = AND(a, y)\n",
    stimuli: b"0 a 0\n",
    ..INVERTER
};

const SAMPLER: Source<'static> = Source {
    bench: b"INPUT(d)\nq = DFF(d)\n",
    stimuli: b"4 d 1\n5 d 0\n",
    period: 4,
    ..INVERTER
};

const RING_COUNTER: Source<'static> = Source {
    bench: b"q = DFF(n)\nn = NOT(q)\n",
    stimuli: b"",
    period: 3,
    ..INVERTER
};

const CLOCKED: Source<'static> = Source {
    delays: b"timing version 2\nclock q 4 1\ninit q 0\n",
    ..SAMPLER
};

const PRESET_RING: Source<'static> = Source {
    delays: b"timing version 2\ninit q 0\n",
    ..RING_COUNTER
};

// The wire to the first side of the comparison has the delay of the buffer.
const WIRED_XOR: Source<'static> = Source {
    delays: b"timing version 2\nwire y 0 1\n",
    ..EDGE
};

const WIRED_FLOP: Source<'static> = Source {
    delays: b"timing version 2\nwire q 0 1\n",
    ..SAMPLER
};

const WIRED_INVERTER: Source<'static> = Source {
    delays: b"timing version 2\nwire y 0 1000000\n",
    ..INVERTER
};

// The events, changes, null messages and rounds.
fn counts([events, changes, nulls, rounds]: [u64; 4]) -> Counts {
    Counts {
        events,
        changes,
        nulls,
        rounds,
    }
}

// The report of a run without a schedule, with these counts in total.
fn unscheduled(total: [u64; 4]) -> Report {
    Report {
        after: counts([0, 0, 0, 0]),
        least: 0,
        total: counts(total),
    }
}

// All nets in nanoseconds, up to a horizon.
fn all_up_to(horizon: u64) -> View {
    View {
        horizon,
        show: Show::All,
        unit: TimeUnit::Ns,
    }
}

// In sweeps the run has this dump, and by the plain engine.
fn dumps_alike(rt: &impl Abort, alloc: Global, source: &Source, view: &View, dump: &[u8]) {
    for engine in [Engine::Sweeps, Engine::Plain] {
        let mut out = Vec::new(alloc);
        let answer = dumps(alloc, engine, source, view, &mut out);
        assert!(rt; answer.is_ok() && out.as_slice() == dump);
    }
}

// The run ends with this report and this dump, which is that of sweeps and of the plain engine too.
fn runs(rt: &impl Abort, alloc: Global, source: &Source, view: &View, report: Report, dump: &[u8]) {
    let mut out = Vec::new(alloc);
    let answer = simulate(alloc, source, view, &mut out);
    assert!(rt; answer == Ok(report) && out.as_slice() == dump);
    dumps_alike(rt, alloc, source, view, dump);
}

const DELIVERIES: &[u8] = b"deliver b 0\ndeliver y 0\ndeliver y 1\n";

const AHEAD: &[u8] = b"advance a\ndeliver b 0\nadvance b\n";

const FIFTY: &[u8] = b"advance y\nadvance y\nadvance y\nadvance y\nadvance y\n\
      advance y\nadvance y\nadvance y\nadvance y\nadvance y\n\
      advance y\nadvance y\nadvance y\nadvance y\nadvance y\n\
      advance y\nadvance y\nadvance y\nadvance y\nadvance y\n\
      advance y\nadvance y\nadvance y\nadvance y\nadvance y\n\
      advance y\nadvance y\nadvance y\nadvance y\nadvance y\n\
      advance y\nadvance y\nadvance y\nadvance y\nadvance y\n\
      advance y\nadvance y\nadvance y\nadvance y\nadvance y\n\
      advance y\nadvance y\nadvance y\nadvance y\nadvance y\n\
      advance y\nadvance y\nadvance y\nadvance y\nadvance y\n";

/// A run up to a tick, its counts before its rounds and in total, and its dump.
type Run = (Source<'static>, u64, [u64; 4], [u64; 4], &'static [u8]);

// Counts and dumps, without schedules and with them.
static RUNS: [Run; 17] = [
    (INVERTER, 5, [0, 0, 0, 0], [7, 4, 3, 2], INVERTER_DUMP),
    (SLOW_INVERTER, 5, [0, 0, 0, 0], [2, 2, 2, 1], SLOW_DUMP),
    (EDGE, 8, [0, 0, 0, 0], [19, 7, 6, 3], EDGE_DUMP),
    // Circuits with memory.
    (
        SELF_INVERTER,
        3,
        [0, 0, 0, 0],
        [7, 0, 4, 4],
        SELF_INVERTER_DUMP,
    ),
    (OSCILLATOR, 12, [0, 0, 0, 0], [20, 6, 6, 5], OSCILLATOR_DUMP),
    (LATCH, 5, [0, 0, 0, 0], [7, 2, 3, 2], LATCH_DUMP),
    (SAMPLER, 9, [0, 0, 0, 0], [7, 4, 2, 2], SAMPLER_DUMP),
    (
        RING_COUNTER,
        10,
        [0, 0, 0, 0],
        [21, 0, 8, 7],
        RING_COUNTER_DUMP,
    ),
    (CLOCKED, 9, [0, 0, 0, 0], [7, 5, 3, 2], CLOCKED_DUMP),
    (
        PRESET_RING,
        10,
        [0, 0, 0, 0],
        [27, 7, 7, 7],
        PRESET_RING_DUMP,
    ),
    (WIRED_XOR, 8, [0, 0, 0, 0], [19, 5, 6, 3], WIRED_XOR_DUMP),
    (WIRED_FLOP, 9, [0, 0, 0, 0], [7, 3, 2, 2], WIRED_FLOP_DUMP),
    (WIRED_INVERTER, 5, [0, 0, 0, 0], [2, 2, 2, 1], SLOW_DUMP),
    // Under schedules.
    (
        Source {
            picks: Picks::Text(b""),
            ..EDGE
        },
        8,
        [0, 0, 0, 0],
        [19, 7, 6, 3],
        EDGE_DUMP,
    ),
    (
        Source {
            picks: Picks::Text(FIFTY),
            ..EDGE
        },
        8,
        [50, 0, 1, 0],
        [69, 7, 6, 3],
        EDGE_DUMP,
    ),
    (
        Source {
            picks: Picks::Text(DELIVERIES),
            ..EDGE
        },
        8,
        [3, 0, 0, 0],
        [22, 7, 6, 3],
        EDGE_DUMP,
    ),
    (
        Source {
            picks: Picks::Text(AHEAD),
            ..EDGE
        },
        8,
        [3, 3, 1, 0],
        [17, 7, 3, 2],
        EDGE_DUMP,
    ),
];

#[test]
fn worked_runs(rt: HostRuntime) {
    assert!(rt; INVERTER_DUMP.len() == 190);
    for &(source, horizon, after, total, dump) in &RUNS {
        let report = Report {
            after: counts(after),
            least: 0,
            total: counts(total),
        };
        let view = all_up_to(horizon);
        runs(&rt, rt.alloc(), &source, &view, report, dump);
    }
}

// Up to tick 0 the inverter's dump ends after the first values.
#[test]
fn first_tick(rt: HostRuntime) {
    let report = unscheduled([2, 1, 1, 1]);
    let view = all_up_to(0);
    let dump = &INVERTER_DUMP[..169];
    runs(&rt, rt.alloc(), &INVERTER, &view, report, dump);
}

// This number of events is picked first, and the dump is the same.
fn picks_events(rt: &impl Abort, alloc: Global, source: &Source, picks: u64) {
    let mut out = Vec::new(alloc);
    let answer = simulate(alloc, source, &all_up_to(8), &mut out);
    let is_picked = match answer {
        Ok(report) => report.after.events == picks,
        Err(_) => false,
    };
    assert!(rt; is_picked && out.as_slice() == EDGE_DUMP);
}

#[test]
fn random_schedule(rt: HostRuntime) {
    for (seed, picks) in [(0, 1_000), (1, 1_000), (7, 1_000), (u64::MAX, 100_000)] {
        let source = Source {
            picks: Picks::Seeded { seed, picks },
            ..EDGE
        };
        picks_events(&rt, rt.alloc(), &source, picks);
        dumps_alike(&rt, rt.alloc(), &source, &all_up_to(8), EDGE_DUMP);
    }
}

// The dump of the outputs of a circuit, in picoseconds, up to tick 5.
#[test]
fn outputs_only(rt: HostRuntime) {
    assert!(rt; OUTPUTS_DUMP.len() == 160);
    let view = View {
        horizon: 5,
        show: Show::Outputs,
        unit: TimeUnit::Ps,
    };
    let report = unscheduled([7, 4, 3, 2]);
    runs(&rt, rt.alloc(), &INVERTER, &view, report, OUTPUTS_DUMP);
    let without_outputs = Source {
        bench: b"INPUT(a)",
        stimuli: b"",
        ..INVERTER
    };
    let dump =
        b"$version nullsim 1 $end\n$timescale 1 ps $end\n$scope module top $end\n$upscope $end\n$enddefinitions $end\n#0\n$dumpvars\n$end\n#5\n";
    // Its input advances once, and no pin has anything to take.
    let report = unscheduled([1, 0, 1, 1]);
    runs(&rt, rt.alloc(), &without_outputs, &view, report, dump);
}
