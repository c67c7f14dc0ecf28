//! Runs that show some nets, by their names or as outputs.
use crate::engines::{ENGINES, Engine, dumps, dumps_shown};
use cmb_events::ScheduleFault;
use kernel_runs::sweep_with_progress;
use prepared_runs::{DumpView, Percents, Picks, Selection, Show, SimFault, Source, View};
use std::alloc::{AllocError, Global};
use std::process::Abort;
use vcd_dump::TimeUnit;
use worked_examples::dumps::{INPUT_DUMP, NAMED_DUMP, NO_NETS_DUMP, WORD_DUMP, WORDS_DUMP};

// A buffer and a gate that compares its two sides.
const EDGE: Source<'static> = Source {
    bench: b"INPUT(a)\nb = BUFF(a)\ny = XOR(a, b)\n",
    delays: b"",
    stimuli: b"0 a 0\n5 a 1\n",
    default_delay: 1,
    period: 10,
    picks: Picks::Nothing,
};

// Nets whose names are the arguments for other nets.
const WORDS: Source<'static> = Source {
    bench: b"INPUT(all)\nOUTPUT(outputs)\noutputs = NOT(all)\n",
    stimuli: b"0 all 0\n3 all 1\n",
    ..EDGE
};

// A flip-flop whose pin is 1 at tick 4 alone, an inverter after it, and a gate beside them that oscillates from
// tick 6 on.
const BESIDE: Source<'static> = Source {
    bench: b"INPUT(e)\nz = NAND(e, z)\nINPUT(d)\nOUTPUT(y)\ny = NOT(q)\nq = DFF(d)\n",
    delays: b"timing version 2\nclock q 4 0\n",
    stimuli: b"0 e 0\n6 e 1\n4 d 1\n5 d 0\n",
    ..EDGE
};

// The same with events of both parts applied first.
const PICKED: Source<'static> = Source {
    picks: Picks::Text(b"advance e\nadvance z\nadvance d\ndeliver z 1\nadvance z\ndeliver q 0\n"),
    ..BESIDE
};

// Of the inverter after the flip-flop: its pin is 1 from tick 5 on, and 0 from tick 9 on.
const BEHIND_DUMP: &[u8] =
    b"$version nullsim 1 $end\n$timescale 1 ns $end\n$scope module top $end\n$var wire 1 ! y $end\n$upscope $end\n$enddefinitions $end\n#0\n$dumpvars\nx!\n$end\n#6\n0!\n#10\n1!\n";

/// A run, its horizon, the names of the nets that it shows, and its dump.
type Row = (
    Source<'static>,
    u64,
    &'static [&'static [u8]],
    &'static [u8],
);

static SHOWN: [Row; 10] = [
    (EDGE, 8, &[b"y", b"a"], NAMED_DUMP),
    (EDGE, 8, &[b"y", b"a", b"y", b"a", b"a"], NAMED_DUMP),
    (EDGE, 8, &[b"a"], INPUT_DUMP),
    (EDGE, 8, &[], NO_NETS_DUMP),
    (WORDS, 5, &[b"outputs", b"all"], WORDS_DUMP),
    (WORDS, 5, &[b"all"], WORD_DUMP),
    (BESIDE, 10, &[b"y"], BEHIND_DUMP),
    (BESIDE, 10, &[b"y", b"y"], BEHIND_DUMP),
    (PICKED, 10, &[b"y"], BEHIND_DUMP),
    (PICKED, 10, &[b"y", b"y"], BEHIND_DUMP),
];

// All ways to run it have this dump.
fn shows(rt: &impl Abort, alloc: Global, source: &Source, view: &DumpView, dump: &[u8]) {
    for engine in &ENGINES {
        let mut out = Vec::new(alloc);
        let answer = dumps_shown(alloc, *engine, source, view, &mut out);
        assert!(rt; answer.is_ok() && out.as_slice() == dump);
    }
}

// So do the calls that name no nets.
fn shows_unnamed(rt: &impl Abort, alloc: Global, source: &Source, view: &View, dump: &[u8]) {
    for engine in &ENGINES {
        let mut out = Vec::new(alloc);
        let answer = dumps(alloc, *engine, source, view, &mut out);
        assert!(rt; answer.is_ok() && out.as_slice() == dump);
    }
}

fn view_of(names: Vec<&'static [u8]>, horizon: u64) -> DumpView<'static> {
    DumpView {
        horizon,
        show: Selection::Named(names),
        unit: TimeUnit::Ns,
    }
}

#[test]
fn named_nets(rt: HostRuntime) -> Result<(), AllocError> {
    for (source, horizon, names, dump) in &SHOWN {
        let names = Vec::from_slice(rt.alloc(), names)?;
        shows(&rt, rt.alloc(), source, &view_of(names, *horizon), dump);
    }
    Ok(())
}

const OUTPUTS: View = View {
    horizon: 10,
    show: Show::Outputs,
    unit: TimeUnit::Ns,
};

// The output depends on a part of the circuit only.
#[test]
fn outputs_of_a_part(rt: HostRuntime) {
    for source in &[BESIDE, PICKED] {
        let view = DumpView::of(&OUTPUTS);
        shows(&rt, rt.alloc(), source, &view, BEHIND_DUMP);
        shows_unnamed(&rt, rt.alloc(), source, &OUTPUTS, BEHIND_DUMP);
    }
}

// An inverter and another input; the events that are applied first make both known to the horizon.
const INVERTER_BESIDE: Source<'static> = Source {
    bench: b"INPUT(a)\nINPUT(b)\nOUTPUT(y)\ny = NOT(a)\n",
    stimuli: b"0 a 0\n3 a 1\n",
    picks: Picks::Text(b"advance a\nadvance b\ndeliver y 0\ndeliver y 0\ndeliver y 0\nadvance y\n"),
    ..EDGE
};

// The events make everything known before the first sweep, so no percentage is reported before the last one.
fn knows_all_at_once(rt: &impl Abort, alloc: Global, show: Selection<'static>) {
    let view = DumpView {
        horizon: 5,
        show,
        unit: TimeUnit::Ns,
    };
    let (mut out, mut err) = (Vec::new(alloc), Vec::new(alloc));
    let mut percents = Percents::new(&mut err);
    let answer = sweep_with_progress(alloc, &INVERTER_BESIDE, &view, &mut out, &mut percents);
    percents.end();
    assert!(rt; answer.is_ok() && err.as_slice() == b"\r100%\n".as_slice());
}

// Events that were picked are applied, whatever is shown.
#[test]
fn picked_events_are_applied(rt: HostRuntime) -> Result<(), AllocError> {
    knows_all_at_once(&rt, rt.alloc(), Selection::Outputs);
    for name in [b"y", b"b"] {
        let names = Vec::from_slice(rt.alloc(), &[name.as_slice()])?;
        knows_all_at_once(&rt, rt.alloc(), Selection::Named(names));
    }
    Ok(())
}

const SCHEDULED: Source<'static> = Source {
    picks: Picks::Text(b"advance zz"),
    ..EDGE
};

const UNSCHEDULED_NET: SimFault = SimFault::Schedule(ScheduleFault::UnknownNet { line: 1 });

/// A run by an engine, and its fault.
type Refused = (Engine, Source<'static>, SimFault);

// A schedule is checked before the names, and by the plain engine not at all.
static REFUSED: [Refused; 5] = [
    (Engine::Rounds, EDGE, SimFault::UnknownNet),
    (Engine::Sweeps, EDGE, SimFault::UnknownNet),
    (Engine::Rounds, SCHEDULED, UNSCHEDULED_NET),
    (Engine::Sweeps, SCHEDULED, UNSCHEDULED_NET),
    (Engine::Plain, SCHEDULED, SimFault::UnknownNet),
];

// With an unknown name, the runs end with these faults, and nothing is written.
#[test]
fn unknown_names(rt: HostRuntime) -> Result<(), AllocError> {
    let names = Vec::from_slice(rt.alloc(), &[b"a".as_slice(), b"zz".as_slice()])?;
    let view = view_of(names, 8);
    for (engine, source, fault) in &REFUSED {
        let mut out = Vec::new(rt.alloc());
        let answer = dumps_shown(rt.alloc(), *engine, source, &view, &mut out);
        assert!(rt; answer == Err(*fault) && out.is_empty());
    }
    Ok(())
}
