//! Traces in which some of the events have lines.
use crate::traces::circuits::{Circuit, HAZARD, INVERTER};
use cmb_events::Schedule;
use event_trace::{EVERY_EVENT, ShownEvents, trace_shown_events};
use std::alloc::Global;
use std::process::Abort;
use std::test::Fail;
use timing_text::Horizon;

// A circuit, its horizon, a schedule, the events that have lines, the trace, and the number of all events.
type Row = (Circuit, u64, &'static [u8], ShownEvents, &'static [u8], u64);

const SCHEDULE: &[u8] = b"deliver y 0\nadvance y\nadvance y\nadvance a\ndeliver y 0\n";

// Of its two idle events one is a delivery.
const NO_IDLE_TRACE: &[u8] = b"advance y 0 -> 1: null 1\n\
      advance a 0 -> 6: 0@0 1@3 null 6\n\
      deliver y 0: 0@0\n\
      round 1\n\
      deliver y 0: 1@3\n\
      deliver y 0: null 6\n\
      advance y 1 -> 6: 1@1 0@4 null 6\n\
      events 9 changes 4 nulls 3 rounds 1\n";

const INPUT_TRACE: &[u8] = b"round 1\n\
      advance a 0 -> 9: 0@0 1@5 null 9\n\
      round 2\n\
      advance a 9 -> 9: idle\n\
      round 3\n\
      advance a 9 -> 9: idle\n\
      events 19 changes 7 nulls 6 rounds 3\n";

// The third round has none of them.
const BUFFER_TRACE: &[u8] = b"round 1\n\
      advance b 0 -> 1: null 1\n\
      round 2\n\
      deliver b 0: 0@0\n\
      deliver b 0: 1@5\n\
      deliver b 0: null 9\n\
      advance b 1 -> 9: 0@1 1@6 null 9\n\
      round 3\n\
      events 19 changes 7 nulls 6 rounds 3\n";

const NOT_IDLE: ShownEvents = ShownEvents {
    idle: false,
    net: None,
};

const OF_THE_INPUT: ShownEvents = ShownEvents {
    idle: true,
    net: Some(0),
};

const OF_THE_BUFFER: ShownEvents = ShownEvents {
    idle: false,
    net: Some(1),
};

// The circuits have at most three nets.
const OF_NO_NET: ShownEvents = ShownEvents {
    idle: true,
    net: Some(3),
};

static TRACES: [Row; 5] = [
    (INVERTER, 5, SCHEDULE, NOT_IDLE, NO_IDLE_TRACE, 9),
    (HAZARD, 8, b"", OF_THE_INPUT, INPUT_TRACE, 19),
    (HAZARD, 8, b"", OF_THE_BUFFER, BUFFER_TRACE, 19),
    (
        HAZARD,
        8,
        b"",
        OF_NO_NET,
        b"round 1\nround 2\nround 3\nevents 19 changes 7 nulls 6 rounds 3\n",
        19,
    ),
    (
        INVERTER,
        0,
        b"",
        EVERY_EVENT,
        b"round 1\nadvance a 0 -> 1: 0@0\nadvance y 0 -> 1: null 1\nevents 2 changes 1 nulls 1 rounds 1\n",
        2,
    ),
];

fn traces(rt: &impl Abort, alloc: Global, row: &Row) -> Result<(), Fail> {
    let (circuit, horizon, schedule, shown, text, events) = *row;
    let design = circuit.build(alloc)?;
    let schedule = Schedule::read(alloc, schedule, &design)?;
    let mut out = Vec::new(alloc);
    let horizon = Horizon::new(horizon)?;
    let counts = trace_shown_events(alloc, &mut out, &design, horizon, schedule.events(), shown)?;
    assert!(rt; counts.events == events);
    assert!(rt; out.as_slice() == text);
    Ok(())
}

#[test]
fn shown_events(rt: HostRuntime) -> Result<(), Fail> {
    for row in &TRACES {
        traces(&rt, rt.alloc(), row)?;
    }
    Ok(())
}
