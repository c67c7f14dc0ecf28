//! The limits of diagrams, and writers that fail.
use crate::diagrams::circuits::INVERTER;
use bench_text::read;
use design::Design;
use logic3::Waveform;
use std::alloc::Global;
use std::process::Abort;
use std::test::Fail;
use timing_diagram::{Columns, ColumnsFault, Form, draw};
use timing_text::Horizon;
use vcd_dump::DumpFault;
use worked_examples::Narrow;

// Ticks from one to another by a step, of a run to a horizon, and how many columns they are.
static OF_TICKS: [((u64, u64, u64), u64, Result<u64, ColumnsFault>); 11] = [
    ((0, 0, 1), 0, Ok(1)),
    ((0, 999, 1), 999, Ok(1_000)),
    ((0, 1_000, 1), 1_000, Err(ColumnsFault::TooManyColumns)),
    ((7, 2_006, 2), 10_000, Ok(1_000)),
    ((7, 2_007, 2), 10_000, Err(ColumnsFault::TooManyColumns)),
    ((5, 4, 1), 3, Err(ColumnsFault::Backwards)),
    ((5, 4, 0), 3, Err(ColumnsFault::NoStep)),
    (
        (0, 10_000_000, 10_000),
        10_000_000,
        Err(ColumnsFault::TooManyColumns),
    ),
    ((0, 10_000_000, u64::MAX), 10_000_000, Ok(1)),
    ((0, 1_000, 1), 999, Err(ColumnsFault::PastHorizon)),
    ((7, u64::MAX, 1), 10_000_000, Err(ColumnsFault::PastHorizon)),
];

#[test]
fn columns(rt: HostRuntime) -> Result<(), Fail> {
    for ((from, to, step), horizon, wanted) in &OF_TICKS {
        let horizon = Horizon::new(*horizon)?;
        let count = Columns::new(*from, *to, *step, false, horizon).map(|columns| columns.count());
        assert!(&rt; count == *wanted);
    }
    Ok(())
}

// The first net of a design, which shows X at tick 0, with this name.
fn shows_name(rt: &impl Abort, alloc: Global, design: &Design, name: &[u8]) -> Result<(), Fail> {
    let nets = design.nets();
    assert!(rt; 0 < nets);
    let mut text = Vec::new(alloc);
    text.resize(name.len() + 2, b' ')?;
    text.extend_from_slice(b"0.........\n")?;
    text.extend_from_slice(name)?;
    text.extend_from_slice(b"  x\n")?;
    let mut out = Vec::new(alloc);
    let waves = [Waveform::new(alloc)];
    let columns = Columns::new(0, 0, 1, false, Horizon::new(0)?)?;
    let answer = draw(
        alloc,
        &mut out,
        design,
        &[0],
        &waves,
        &[],
        columns,
        Form::Text,
    );
    assert!(rt; answer == Ok(()));
    assert!(rt; out.as_slice() == text.as_slice());
    Ok(())
}

#[test]
fn longest_name(rt: HostRuntime) -> Result<(), Fail> {
    let alloc = rt.alloc();
    let name = [b'n'; 255];
    let mut bench = Vec::new(alloc);
    bench.extend_from_slice(b"INPUT(")?;
    bench.extend_from_slice(&name)?;
    bench.extend_from_slice(b")\n")?;
    let netlist = read(alloc, bench.as_slice())?;
    let design = Design::build(alloc, netlist, b"", b"", 1, 1)?;
    shows_name(&rt, alloc, &design, &name)
}

#[test]
fn a_writer_that_fails(rt: HostRuntime) -> Result<(), Fail> {
    let design = INVERTER.build(rt.alloc())?;
    let columns = Columns::new(0, 5, 1, false, Horizon::new(5)?)?;
    let mut out = Narrow::new(rt.alloc(), 7, 3);
    let answer = draw(
        rt.alloc(),
        &mut out,
        &design,
        &[],
        &[],
        &[],
        columns,
        Form::Text,
    );
    assert!(&rt; answer == Err(DumpFault::Write));
    assert!(&rt; out.taken.as_slice() == b"  0....".as_slice());
    Ok(())
}
