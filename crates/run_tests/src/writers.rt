//! Runs by each engine on writers that accept few bytes a call, and on writers that fail: a prefix of the dump
//! is written, and the run ends with the writer's fault.
use crate::engines::{Engine, dumps};
use prepared_runs::{Picks, Show, SimFault, Source, View};
use std::alloc::Global;
use std::io::ErrorKind;
use std::process::Abort;
use vcd_dump::{DumpFault, TimeUnit};
use worked_examples::dumps::INVERTER_DUMP;
use worked_examples::{Narrow, SLIPS, Slip, Stumbling};

const INVERTER: Source<'static> = Source {
    bench: b"INPUT(a)\nOUTPUT(y)\ny = NOT(a)\n",
    delays: b"",
    stimuli: b"0 a 0\n3 a 1\n",
    default_delay: 1,
    period: 10,
    picks: Picks::Nothing,
};

// A gate that changes at each tick from 1 on.
const OSCILLATOR: Source<'static> = Source {
    bench: b"INPUT(e)\ny = NAND(e, y)\n",
    stimuli: b"0 e 0\n1 e 1\n",
    ..INVERTER
};

const SHORT: View = View {
    horizon: 5,
    show: Show::All,
    unit: TimeUnit::Ns,
};

// Hundreds of thousands of changes, whose lines have some megabytes.
const LONG: View = View {
    horizon: 300_000,
    ..SHORT
};

// Returns the number of writes of the run to a writer that accepts everything. No write is empty.
fn calls_of(rt: &impl Abort, alloc: Global, engine: Engine, dump: &[u8]) -> u32 {
    let mut out = Stumbling::new(alloc, u32::MAX, Slip::TakesNothing);
    let answer = dumps(alloc, engine, &INVERTER, &SHORT, &mut out);
    assert!(rt; answer.is_ok() && out.taken.as_slice() == dump && out.empty == 0);
    out.calls
}

// Each engine, and the number of its writes to a writer that accepts everything: one for the declarations, one
// for the last time, and one for what is known after each of two rounds, in one sweep, or by the plain engine.
static CALLS: [(Engine, u32); 3] = [(Engine::Rounds, 4), (Engine::Sweeps, 3), (Engine::Plain, 3)];

#[test]
fn pieces_of_a_dump(rt: HostRuntime) {
    for (engine, calls) in &CALLS {
        assert!(rt; calls_of(&rt, rt.alloc(), *engine, INVERTER_DUMP) == *calls);
    }
}

// A writer with room for a number of bytes in total and in each call: the number of its calls, and the prefix
// of the dump that it accepts. Without room it fails, or accepts nothing.
fn takes(
    rt: &impl Abort,
    alloc: Global,
    engine: Engine,
    out: &mut Narrow,
    answer: Result<(), SimFault>,
    took: usize,
) {
    let got = dumps(alloc, engine, &INVERTER, &SHORT, out);
    let is_prefix = INVERTER_DUMP.starts_with(out.taken.as_slice());
    assert!(rt; got == answer && out.taken.len() == took && is_prefix);
}

#[test]
fn writers_with_little_room(rt: HostRuntime) {
    for (engine, _) in &CALLS {
        let mut out = Narrow::new(rt.alloc(), 1000, 1);
        takes(&rt, rt.alloc(), *engine, &mut out, Ok(()), 190);
        assert!(rt; out.calls == 190);
        for (fails, fault) in [(true, DumpFault::Write), (false, DumpFault::WroteNothing)] {
            let mut out = Narrow::new(rt.alloc(), 40, 40);
            out.fails = fails;
            takes(
                &rt,
                rt.alloc(),
                *engine,
                &mut out,
                Err(SimFault::Dump(fault)),
                40,
            );
        }
    }
}

fn fault_of(slip: Slip) -> SimFault {
    match slip {
        Slip::Fails(_) => SimFault::Dump(DumpFault::Write),
        Slip::TakesNothing => SimFault::Dump(DumpFault::WroteNothing),
    }
}

// A writer that fails at the call with this number breaks off the run, and isn't called again.
fn breaks_off(
    rt: &impl Abort,
    alloc: Global,
    engine: Engine,
    run: (&Source, &View, &[u8]),
    call: u32,
    slip: Slip,
) {
    let (source, view, dump) = run;
    let mut out = Stumbling::new(alloc, call, slip);
    let answer = dumps(alloc, engine, source, view, &mut out);
    assert!(rt; answer == Err(fault_of(slip)) && out.calls == call.saturating_add(1));
    assert!(rt; dump.starts_with(out.taken.as_slice()));
}

#[test]
fn writers_that_stumble_once(rt: HostRuntime) {
    for (engine, calls) in &CALLS {
        for slip in &SLIPS {
            for call in 0..*calls {
                let run = (&INVERTER, &SHORT, INVERTER_DUMP);
                breaks_off(&rt, rt.alloc(), *engine, run, call, *slip);
            }
        }
    }
}

// The calls stumble in each way in turn.
fn slip_at(call: u32) -> Slip {
    match call % 3 {
        0 => Slip::Fails(ErrorKind::Other),
        1 => Slip::Fails(ErrorKind::Interrupted),
        _ => Slip::TakesNothing,
    }
}

// A dump of some megabytes is written in pieces, and the writer fails at each of them in turn.
fn breaks_off_everywhere(rt: &impl Abort, alloc: Global, engine: Engine) {
    let mut out = Stumbling::new(alloc, u32::MAX, Slip::TakesNothing);
    let answer = dumps(alloc, engine, &OSCILLATOR, &LONG, &mut out);
    assert!(rt; answer.is_ok() && out.taken.len() > 2_000_000);
    assert!(rt; 30 < out.calls && out.calls < 100);
    let run = (&OSCILLATOR, &LONG, out.taken.as_slice());
    for call in 0..out.calls {
        breaks_off(rt, alloc, engine, run, call, slip_at(call));
    }
}

#[test]
fn long_dumps_in_sweeps(rt: HostRuntime) {
    breaks_off_everywhere(&rt, rt.alloc(), Engine::Sweeps);
}

#[test]
fn long_dumps_by_the_plain_engine(rt: HostRuntime) {
    breaks_off_everywhere(&rt, rt.alloc(), Engine::Plain);
}
