//! Writers that fail.
use crate::traces::circuits::{INVERTER, SELF_INVERTER};
use event_trace::trace_events;
use std::test::Fail;
use timing_text::Horizon;
use vcd_dump::DumpFault;
use worked_examples::Narrow;

// The writer takes the first bytes of the trace, and then fails.
#[test]
fn a_writer_that_fails(rt: HostRuntime) -> Result<(), Fail> {
    let design = INVERTER.build(rt.alloc())?;
    let mut out = Narrow::new(rt.alloc(), 20, 7);
    let answer = trace_events(rt.alloc(), &mut out, &design, Horizon::new(5)?, &[]);
    assert!(&rt; answer == Err(DumpFault::Write));
    assert!(&rt; out.taken.as_slice() == b"round 1\nadvance a 0 ".as_slice());
    Ok(())
}

// Nothing is written after the fault, however much is left of the trace.
#[test]
fn a_writer_that_takes_nothing(rt: HostRuntime) -> Result<(), Fail> {
    let design = SELF_INVERTER.build(rt.alloc())?;
    let mut out = Narrow::new(rt.alloc(), 9, 9);
    out.fails = false;
    let answer = trace_events(rt.alloc(), &mut out, &design, Horizon::new(9_000)?, &[]);
    assert!(&rt; answer == Err(DumpFault::WroteNothing));
    assert!(&rt; out.taken.as_slice() == b"round 1\na".as_slice());
    assert!(&rt; out.calls == 2);
    Ok(())
}
