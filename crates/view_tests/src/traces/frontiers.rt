//! Tables of frontiers: of no nets, and for a writer that fails. `cases/trace.cases` has tables of nets.
use crate::traces::circuits::INVERTER;
use event_trace::frontier_table;
use std::test::Fail;
use timing_text::Horizon;
use vcd_dump::DumpFault;
use worked_examples::Narrow;

// A table of no net has the labels of its rows alone.
#[test]
fn no_nets(rt: HostRuntime) -> Result<(), Fail> {
    let design = INVERTER.build(rt.alloc())?;
    let mut out = Vec::new(rt.alloc());
    frontier_table(rt.alloc(), &mut out, &design, Horizon::new(5)?, &[], &[])?;
    assert!(&rt; out.as_slice() == b"round\nstart\n    1\n    2\n".as_slice());
    Ok(())
}

// The writer takes the first bytes of the table, and then fails.
#[test]
fn a_table_for_a_writer_that_fails(rt: HostRuntime) -> Result<(), Fail> {
    let design = INVERTER.build(rt.alloc())?;
    let mut out = Narrow::new(rt.alloc(), 10, 7);
    let answer = frontier_table(rt.alloc(), &mut out, &design, Horizon::new(5)?, &[], &[]);
    assert!(&rt; answer == Err(DumpFault::Write));
    assert!(&rt; out.taken.as_slice() == b"round\nstar".as_slice());
    Ok(())
}
