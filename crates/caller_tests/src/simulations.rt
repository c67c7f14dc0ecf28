//! Whole runs of four texts: by the kernel and by the plain engine.
use cmb_kernel::Counts;
use nullsim::{Picks, Report, Show, SimFault, Source, TimeUnit, View, plain, simulate};
use std::alloc::{AllocError, Global};
use std::process::Abort;
use std::test::Fail;
use worked_examples::dumps::{
    EDGE_DUMP, INVERTER_DUMP, OUTPUTS_DUMP, SELF_INVERTER_DUMP, SLOW_DUMP,
};

/// The inverter's texts.
pub(crate) const INVERTER: Source<'static> = Source {
    bench: b"INPUT(a)\nOUTPUT(y)\ny = NOT(a)\n",
    delays: b"",
    stimuli: b"0 a 0\n3 a 1\n",
    default_delay: 1,
    period: 10,
    picks: Picks::Nothing,
};

const LATE_PIN: Source<'static> = Source {
    bench: b"INPUT(a)\nb = BUFF(a)\ny = XOR(a, b)\n",
    stimuli: b"0 a 0\n5 a 1\n",
    ..INVERTER
};

const SELF_INVERTER: Source<'static> = Source {
    bench: b"y = NOT(y)\n",
    stimuli: b"",
    ..INVERTER
};

const SLOW_INVERTER: Source<'static> = Source {
    delays: b"y 9\n",
    ..INVERTER
};

const WITHOUT_OUTPUT: Source<'static> = Source {
    bench: b"INPUT(a)\n",
    stimuli: b"",
    ..INVERTER
};

const NS: View = View {
    horizon: 5,
    show: Show::All,
    unit: TimeUnit::Ns,
};

const AT_ZERO: View = View { horizon: 0, ..NS };

const AT_THREE: View = View { horizon: 3, ..NS };

const LATE: View = View { horizon: 8, ..NS };

const OUTPUTS: View = View {
    horizon: 5,
    show: Show::Outputs,
    unit: TimeUnit::Ps,
};

const NO_NETS_DUMP: &[u8] =
    b"$version nullsim 1 $end\n$timescale 1 ps $end\n$scope module top $end\n$upscope $end\n$enddefinitions $end\n#0\n$dumpvars\n$end\n#5\n";

const FIFTY: &[u8] = b"advance y\nadvance y\nadvance y\nadvance y\nadvance y\n\
      advance y\nadvance y\nadvance y\nadvance y\nadvance y\n\
      advance y\nadvance y\nadvance y\nadvance y\nadvance y\n\
      advance y\nadvance y\nadvance y\nadvance y\nadvance y\n\
      advance y\nadvance y\nadvance y\nadvance y\nadvance y\n\
      advance y\nadvance y\nadvance y\nadvance y\nadvance y\n\
      advance y\nadvance y\nadvance y\nadvance y\nadvance y\n\
      advance y\nadvance y\nadvance y\nadvance y\nadvance y\n\
      advance y\nadvance y\nadvance y\nadvance y\nadvance y\n\
      advance y\nadvance y\nadvance y\nadvance y\nadvance y\n";

const DELIVERIES: Picks<'static> = Picks::Text(b"deliver b 0\ndeliver y 0\ndeliver y 1\n");

const AHEAD: Picks<'static> = Picks::Text(b"advance a\ndeliver b 0\nadvance b\n");

// A source and a view of it; the counts after its schedule and in total; the dump.
type Run = (Source<'static>, View, [u64; 4], [u64; 4], &'static [u8]);

static RUNS: [Run; 10] = [
    (INVERTER, NS, [0, 0, 0, 0], [7, 4, 3, 2], INVERTER_DUMP),
    (INVERTER, OUTPUTS, [0, 0, 0, 0], [7, 4, 3, 2], OUTPUTS_DUMP),
    (
        SELF_INVERTER,
        AT_THREE,
        [0, 0, 0, 0],
        [7, 0, 4, 4],
        SELF_INVERTER_DUMP,
    ),
    (SLOW_INVERTER, NS, [0, 0, 0, 0], [2, 2, 2, 1], SLOW_DUMP),
    (
        WITHOUT_OUTPUT,
        OUTPUTS,
        [0, 0, 0, 0],
        [1, 0, 1, 1],
        NO_NETS_DUMP,
    ),
    (LATE_PIN, LATE, [0, 0, 0, 0], [19, 7, 6, 3], EDGE_DUMP),
    (
        Source {
            picks: Picks::Text(FIFTY),
            ..LATE_PIN
        },
        LATE,
        [50, 0, 1, 0],
        [69, 7, 6, 3],
        EDGE_DUMP,
    ),
    (
        Source {
            picks: DELIVERIES,
            ..LATE_PIN
        },
        LATE,
        [3, 0, 0, 0],
        [22, 7, 6, 3],
        EDGE_DUMP,
    ),
    (
        Source {
            picks: AHEAD,
            ..LATE_PIN
        },
        LATE,
        [3, 3, 1, 0],
        [17, 7, 3, 2],
        EDGE_DUMP,
    ),
    (
        Source {
            picks: Picks::Seeded { seed: 7, picks: 0 },
            ..LATE_PIN
        },
        LATE,
        [0, 0, 0, 0],
        [19, 7, 6, 3],
        EDGE_DUMP,
    ),
];

fn counts([events, changes, nulls, rounds]: [u64; 4]) -> Counts {
    Counts {
        events,
        changes,
        nulls,
        rounds,
    }
}

fn reports(rt: &impl Abort, report: Report, after: [u64; 4], total: [u64; 4]) {
    let least: u64 = report.least;
    assert!(rt; least == 0);
    assert!(rt; report.after == counts(after));
    assert!(rt; report.total == counts(total));
}

#[test]
fn by_both_engines(rt: HostRuntime) -> Result<(), Fail> {
    for (source, view, after, total, dump) in &RUNS {
        let mut out: Vec<u8> = Vec::new(rt.alloc());
        let report: Result<Report, SimFault> = simulate(rt.alloc(), source, view, &mut out);
        reports(&rt, report?, *after, *total);
        assert!(rt; out.as_slice() == *dump);
        let mut out: Vec<u8> = Vec::new(rt.alloc());
        let answer: Result<(), SimFault> = plain(rt.alloc(), source, view, &mut out);
        assert!(rt; answer == Ok(()));
        assert!(rt; out.as_slice() == *dump);
    }
    Ok(())
}

// These nets can be shown, and no others.
fn shows_all(show: Show) -> bool {
    match show {
        Show::All => true,
        Show::Outputs => false,
    }
}

// Events are picked in these ways, and no others: a seed, and how many.
fn seeded(picks: Picks<'_>) -> Option<(u64, u64)> {
    match picks {
        Picks::Nothing | Picks::Text(_) => None,
        Picks::Seeded { seed, picks } => Some((seed, picks)),
    }
}

#[test]
fn variants(rt: HostRuntime) {
    assert!(rt; shows_all(Show::All) && !shows_all(Show::Outputs));
    assert!(rt; seeded(Picks::Nothing).is_none() && seeded(AHEAD).is_none());
    assert!(rt; seeded(Picks::Seeded { seed: 3, picks: 4 }) == Some((3, 4)));
}

// A view and the kinds of nets that are shown are plain values, and can be used again.
#[test]
fn views_are_copied(rt: HostRuntime) {
    let view: View = AT_ZERO;
    let again: View = view;
    let show: Show = view.show;
    for (view, show) in [(view, show), (again, again.show)] {
        assert!(rt; show == Show::All);
        let mut out: Vec<u8> = Vec::new(rt.alloc());
        assert!(rt; simulate(rt.alloc(), &INVERTER, &view, &mut out).is_ok());
        assert!(rt; out.as_slice() == &INVERTER_DUMP[..169]);
    }
}

// The inputs `n0`, `n1` and so on.
fn inputs(alloc: Global, count: u32) -> Result<Vec<u8>, AllocError> {
    let mut bench: Vec<u8> = Vec::new(alloc);
    for number in 0..count {
        push_input(&mut bench, number)?;
    }
    Ok(bench)
}

fn push_input(bench: &mut Vec<u8>, number: u32) -> Result<(), AllocError> {
    let alloc: Global = *bench.allocator();
    let line = format!(in alloc; "INPUT(n{number})\n")?;
    bench.extend_from_slice(line.as_bytes())
}

// After 94 codes of one character come those of two.
#[test]
fn codes_of_many_nets(rt: HostRuntime) -> Result<(), Fail> {
    let bench: Vec<u8> = inputs(rt.alloc(), 96)?;
    let source = Source {
        bench: &bench,
        delays: b"",
        stimuli: b"",
        default_delay: 1,
        period: 10,
        picks: Picks::Nothing,
    };
    let mut out: Vec<u8> = Vec::new(rt.alloc());
    simulate(rt.alloc(), &source, &AT_ZERO, &mut out)?;
    let last =
        b"$var wire 1 ~ n93 $end\n$var wire 1 !! n94 $end\n$var wire 1 \"! n95 $end\n".as_slice();
    assert!(rt; out.windows(last.len()).any(|window| window == last));
    Ok(())
}

// A seeded schedule of a thousand picks.
#[test]
fn a_seeded_schedule(rt: HostRuntime) -> Result<(), Fail> {
    let source: Source = Source {
        picks: Picks::Seeded {
            seed: 2026,
            picks: 1_000,
        },
        ..LATE_PIN
    };
    let mut out: Vec<u8> = Vec::new(rt.alloc());
    let report: Report = simulate(rt.alloc(), &source, &LATE, &mut out)?;
    assert!(rt; report.after.events == 1_000);
    assert!(rt; out.as_slice() == EDGE_DUMP);
    Ok(())
}
