//! Traces that were worked out independently.
use crate::traces::circuits::{
    CROSSING, Circuit, DOUBLE_PIN, GATED_OSCILLATOR, HAZARD, INVERTER, PRESET_RING, SAMPLER,
    SELF_INVERTER,
};
use cmb_events::Schedule;
use cmb_kernel::Counts;
use event_trace::trace_events;
use std::alloc::Global;
use std::process::Abort;
use std::test::Fail;
use timing_text::Horizon;

// A circuit, its horizon, a schedule, the trace, and the counts in its last line: of events, changes, null
// messages and rounds.
type Row = (
    Circuit,
    u64,
    &'static [u8],
    &'static [u8],
    (u64, u64, u64, u64),
);

const INVERTER_TRACE: &[u8] = b"round 1\n\
      advance a 0 -> 6: 0@0 1@3 null 6\n\
      advance y 0 -> 1: null 1\n\
      round 2\n\
      deliver y 0: 0@0\n\
      deliver y 0: 1@3\n\
      deliver y 0: null 6\n\
      advance a 6 -> 6: idle\n\
      advance y 1 -> 6: 1@1 0@4 null 6\n\
      events 7 changes 4 nulls 3 rounds 2\n";

const SCHEDULED_TRACE: &[u8] = b"deliver y 0: idle\n\
      advance y 0 -> 1: null 1\n\
      advance y 1 -> 1: idle\n\
      advance a 0 -> 6: 0@0 1@3 null 6\n\
      deliver y 0: 0@0\n\
      round 1\n\
      deliver y 0: 1@3\n\
      deliver y 0: null 6\n\
      advance a 6 -> 6: idle\n\
      advance y 1 -> 6: 1@1 0@4 null 6\n\
      events 9 changes 4 nulls 3 rounds 1\n";

// While the input is 0, the gate is known further than its own pin.
const OSCILLATOR_TRACE: &[u8] = b"round 1\n\
      advance e 0 -> 8: 0@0 1@3 null 8\n\
      advance y 0 -> 2: null 2\n\
      round 2\n\
      deliver y 0: 0@0\n\
      deliver y 0: 1@3\n\
      deliver y 0: null 8\n\
      deliver y 1: null 2\n\
      advance e 8 -> 8: idle\n\
      advance y 2 -> 5: 1@2 null 5\n\
      round 3\n\
      deliver y 1: 1@2\n\
      deliver y 1: null 5\n\
      advance e 8 -> 8: idle\n\
      advance y 5 -> 7: 0@5 null 7\n\
      round 4\n\
      deliver y 1: 0@5\n\
      deliver y 1: null 7\n\
      advance e 8 -> 8: idle\n\
      advance y 7 -> 8: 1@7\n\
      events 16 changes 5 nulls 4 rounds 4\n";

const RING_TRACE: &[u8] = b"round 1\n\
      advance q 0 -> 4: 0@0 null 4\n\
      advance n 0 -> 1: null 1\n\
      round 2\n\
      deliver q 0: null 1\n\
      deliver n 0: 0@0\n\
      deliver n 0: null 4\n\
      advance q 4 -> 4: idle\n\
      advance n 1 -> 5: 1@1 null 5\n\
      round 3\n\
      deliver q 0: 1@1\n\
      deliver q 0: null 5\n\
      advance q 4 -> 7: 1@4 null 7\n\
      advance n 5 -> 5: idle\n\
      round 4\n\
      deliver n 0: 1@4\n\
      deliver n 0: null 7\n\
      advance q 7 -> 7: idle\n\
      advance n 5 -> 8: 0@5 null 8\n\
      round 5\n\
      deliver q 0: 0@5\n\
      deliver q 0: null 8\n\
      advance q 7 -> 8: 0@7\n\
      advance n 8 -> 8: idle\n\
      events 19 changes 5 nulls 5 rounds 5\n";

// A change goes to both pins, and counts once.
const DOUBLE_PIN_TRACE: &[u8] = b"round 1\n\
      advance a 0 -> 4: 1@1 x@2 null 4\n\
      advance y 0 -> 1: null 1\n\
      round 2\n\
      deliver y 0: 1@1\n\
      deliver y 0: x@2\n\
      deliver y 0: null 4\n\
      deliver y 1: 1@1\n\
      deliver y 1: x@2\n\
      deliver y 1: null 4\n\
      advance a 4 -> 4: idle\n\
      advance y 1 -> 4: 1@2 x@3\n\
      events 10 changes 4 nulls 2 rounds 2\n";

const HAZARD_TRACE: &[u8] = b"round 1\n\
      advance a 0 -> 9: 0@0 1@5 null 9\n\
      advance b 0 -> 1: null 1\n\
      advance y 0 -> 1: null 1\n\
      round 2\n\
      deliver b 0: 0@0\n\
      deliver b 0: 1@5\n\
      deliver b 0: null 9\n\
      deliver y 0: 0@0\n\
      deliver y 0: 1@5\n\
      deliver y 0: null 9\n\
      deliver y 1: null 1\n\
      advance a 9 -> 9: idle\n\
      advance b 1 -> 9: 0@1 1@6 null 9\n\
      advance y 1 -> 2: null 2\n\
      round 3\n\
      deliver y 1: 0@1\n\
      deliver y 1: 1@6\n\
      deliver y 1: null 9\n\
      advance a 9 -> 9: idle\n\
      advance b 9 -> 9: idle\n\
      advance y 2 -> 9: 0@2 1@6 0@7 null 9\n\
      events 19 changes 7 nulls 6 rounds 3\n";

// Both pins change at tick 4, and the gate stays.
const CROSSING_TRACE: &[u8] = b"round 1\n\
      advance a 0 -> 7: 1@0 0@4 null 7\n\
      advance b 0 -> 7: 0@0 1@4 null 7\n\
      advance y 0 -> 1: null 1\n\
      round 2\n\
      deliver y 0: 1@0\n\
      deliver y 0: 0@4\n\
      deliver y 0: null 7\n\
      deliver y 1: 0@0\n\
      deliver y 1: 1@4\n\
      deliver y 1: null 7\n\
      advance a 7 -> 7: idle\n\
      advance b 7 -> 7: idle\n\
      advance y 1 -> 7: 0@1 null 7\n\
      events 12 changes 5 nulls 4 rounds 2\n";

const SAMPLER_TRACE: &[u8] = b"round 1\n\
      advance d 0 -> 13: 1@4 0@5 null 13\n\
      advance q 0 -> 5: null 5\n\
      round 2\n\
      deliver q 0: 1@4\n\
      deliver q 0: 0@5\n\
      deliver q 0: null 13\n\
      advance d 13 -> 13: idle\n\
      advance q 5 -> 13: 1@5 0@9 null 13\n\
      events 7 changes 4 nulls 3 rounds 2\n";

static TRACES: [Row; 9] = [
    (INVERTER, 5, b"", INVERTER_TRACE, (7, 4, 3, 2)),
    (
        INVERTER,
        0,
        b"",
        b"round 1\nadvance a 0 -> 1: 0@0\nadvance y 0 -> 1: null 1\nevents 2 changes 1 nulls 1 rounds 1\n",
        (2, 1, 1, 1),
    ),
    (
        INVERTER,
        5,
        b"deliver y 0\nadvance y\nadvance y\nadvance a\ndeliver y 0\n",
        SCHEDULED_TRACE,
        (9, 4, 3, 1),
    ),
    (GATED_OSCILLATOR, 7, b"", OSCILLATOR_TRACE, (16, 5, 4, 4)),
    (PRESET_RING, 7, b"", RING_TRACE, (19, 5, 5, 5)),
    (DOUBLE_PIN, 3, b"", DOUBLE_PIN_TRACE, (10, 4, 2, 2)),
    (HAZARD, 8, b"", HAZARD_TRACE, (19, 7, 6, 3)),
    (CROSSING, 6, b"", CROSSING_TRACE, (12, 5, 4, 2)),
    (SAMPLER, 12, b"", SAMPLER_TRACE, (7, 4, 3, 2)),
];

fn counts((events, changes, nulls, rounds): (u64, u64, u64, u64)) -> Counts {
    Counts {
        events,
        changes,
        nulls,
        rounds,
    }
}

fn traces(rt: &impl Abort, alloc: Global, row: &Row) -> Result<(), Fail> {
    let (circuit, horizon, schedule, text, wanted) = *row;
    let design = circuit.build(alloc)?;
    let schedule = Schedule::read(alloc, schedule, &design)?;
    let mut out = Vec::new(alloc);
    let horizon = Horizon::new(horizon)?;
    let answer = trace_events(alloc, &mut out, &design, horizon, schedule.events());
    assert!(rt; answer == Ok(counts(wanted)));
    assert!(rt; out.as_slice() == text);
    Ok(())
}

#[test]
fn worked_circuits(rt: HostRuntime) -> Result<(), Fail> {
    for row in &TRACES {
        traces(&rt, rt.alloc(), row)?;
    }
    Ok(())
}

// A trace of more than 64 KiB: in each round but the first the gate takes its last null message, and sends
// the next.
#[test]
fn long_trace(rt: HostRuntime) -> Result<(), Fail> {
    let alloc = rt.alloc();
    let design = SELF_INVERTER.build(alloc)?;
    let mut text = String::new(alloc);
    text.push_str("round 1\nadvance y 0 -> 1: null 1\n")?;
    for round in 2..2_002u64 {
        let last = round - 1;
        text.push_str(format!(in alloc; "round {round}\ndeliver y 0: null {last}\n")?.as_str())?;
        text.push_str(format!(in alloc; "advance y {last} -> {round}: null {round}\n")?.as_str())?;
    }
    text.push_str("events 4001 changes 0 nulls 2001 rounds 2001\n")?;
    let mut out = Vec::new(alloc);
    let answer = trace_events(alloc, &mut out, &design, Horizon::new(2_000)?, &[]);
    assert!(&rt; answer == Ok(counts((4_001, 0, 2_001, 2_001))));
    assert!(&rt; out.as_slice() == text.as_bytes());
    Ok(())
}
