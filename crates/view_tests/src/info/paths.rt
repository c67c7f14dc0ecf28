//! The longest paths of values through gates, in ticks.
use bench_text::read;
use circuit_info::{longest_paths, path_text};
use design::Design;
use std::alloc::Global;
use std::process::Abort;
use std::test::Fail;

/// A .bench text, a delay text, the default delay, and the ticks of the longest path to each net.
type Row = (&'static [u8], &'static [u8], u64, &'static [u64]);

const HAZARD: &[u8] = b"INPUT(a)\nOUTPUT(y)\nb = BUFF(a)\ny = XOR(a, b)";

static PATHS: [Row; 8] = [
    (HAZARD, b"", 1, &[0, 1, 2]),
    (HAZARD, b"b 5\ny 3", 1, &[0, 5, 8]),
    // The wire of the first pin is longer than the gate before the second one.
    (
        HAZARD,
        b"timing version 2\ndelay b 3\nwire y 0 7",
        1,
        &[0, 3, 8],
    ),
    // Both take as long.
    (
        HAZARD,
        b"timing version 2\ndelay b 7\nwire y 0 7",
        1,
        &[0, 7, 8],
    ),
    // A path begins at a flip-flop, whose own delay counts, and the wire of its pin doesn't.
    (
        b"q = DFF(n)\nn = NOT(q)",
        b"timing version 2\ndelay q 5\nwire q 0 9",
        1,
        &[5, 6],
    ),
    // Gates are defined against the flow of values.
    (
        b"INPUT(a)\ny = AND(a, d)\nd = NOT(c)\nc = NOT(b)\nb = NOT(a)",
        b"",
        2,
        &[0, 8, 6, 4, 2],
    ),
    // The longest delays.
    (
        b"INPUT(a)\ny = NOT(x)\nx = NOT(a)",
        b"timing version 2\nwire y 0 1000000\nwire x 0 1000000",
        1_000_000,
        &[0, 4_000_000, 2_000_000],
    ),
    (b"INPUT(a)", b"", 1, &[0]),
];

/// A .bench text, a delay text, the default delay, and the lines of the longest paths.
type Lines = (&'static [u8], &'static [u8], u64, &'static [u8]);

static LINES: [Lines; 10] = [
    (HAZARD, b"", 1, b"longest-path-to-output 2 a b y\n"),
    (HAZARD, b"b 5\ny 3", 1, b"longest-path-to-output 8 a b y\n"),
    (
        HAZARD,
        b"timing version 2\ndelay b 3\nwire y 0 7",
        1,
        b"longest-path-to-output 8 a y\n",
    ),
    // Both pins see their source at tick 7: the first one counts.
    (
        HAZARD,
        b"timing version 2\ndelay b 7\nwire y 0 7",
        1,
        b"longest-path-to-output 8 a y\n",
    ),
    // The delay of the flip-flop counts at the beginning, and the wire at the end.
    (
        b"q = DFF(n)\nn = NOT(q)",
        b"timing version 2\ndelay q 5\nwire q 0 9",
        1,
        b"longest-path-to-flip-flop 15 q n q\n",
    ),
    // The second of two flip-flops and the second of two outputs are later.
    (
        b"p = DFF(n)\nq = DFF(m)\nn = NOT(p)\nm = BUFF(n)\nOUTPUT(p)\nOUTPUT(n)",
        b"",
        1,
        b"longest-path-to-flip-flop 3 p n m q\nlongest-path-to-output 2 p n\n",
    ),
    // Of two that are as late, the first flip-flop of the netlist and the first output count.
    (
        b"INPUT(a)\nINPUT(b)\nOUTPUT(b)\nOUTPUT(a)\np = DFF(b)\nq = DFF(a)",
        b"",
        1,
        b"longest-path-to-flip-flop 0 b p\nlongest-path-to-output 0 b\n",
    ),
    // Gates are defined against the flow of values.
    (
        b"INPUT(a)\nOUTPUT(a)\nOUTPUT(y)\ny = AND(a, d)\nd = NOT(c)\nc = NOT(b)\nb = NOT(a)",
        b"",
        2,
        b"longest-path-to-output 8 a b c d y\n",
    ),
    // Nothing is an end.
    (b"INPUT(a)\nb = NOT(a)", b"", 1, b""),
    // Gates form a loop, which the output doesn't depend on.
    (
        b"INPUT(e)\nOUTPUT(u)\nu = NOT(e)\nz = OR(u, z)",
        b"",
        1,
        b"",
    ),
];

// Gates in a loop, alone and after a gate that isn't in it.
static LOOPS: [&[u8]; 2] = [b"y = NOT(y)", b"INPUT(e)\nu = NOT(e)\nz = OR(u, z)"];

fn paths_are(rt: &impl Abort, alloc: Global, row: Row) -> Result<(), Fail> {
    let (bench, delays, default_delay, wanted) = row;
    let netlist = read(alloc, bench)?;
    let design = Design::build(alloc, netlist, delays, b"", default_delay, 10)?;
    let found = longest_paths(alloc, &design)?;
    assert!(rt; found.is_some_and(|ticks| ticks.as_slice() == wanted));
    Ok(())
}

fn no_paths(rt: &impl Abort, alloc: Global, bench: &[u8]) -> Result<(), Fail> {
    let netlist = read(alloc, bench)?;
    let design = Design::build(alloc, netlist, b"", b"", 1, 10)?;
    let found = longest_paths(alloc, &design)?;
    assert!(rt; found.is_none());
    Ok(())
}

#[test]
fn longest(rt: HostRuntime) -> Result<(), Fail> {
    for row in &PATHS {
        paths_are(&rt, rt.alloc(), *row)?;
    }
    Ok(())
}

#[test]
fn none_in_loops(rt: HostRuntime) -> Result<(), Fail> {
    for bench in &LOOPS {
        no_paths(&rt, rt.alloc(), bench)?;
    }
    Ok(())
}

fn lines_are(rt: &impl Abort, alloc: Global, row: Lines) -> Result<(), Fail> {
    let (bench, delays, default_delay, wanted) = row;
    let netlist = read(alloc, bench)?;
    let design = Design::build(alloc, netlist, delays, b"", default_delay, 10)?;
    let found = path_text(alloc, &design)?;
    assert!(rt; found.as_slice() == wanted);
    Ok(())
}

#[test]
fn lines(rt: HostRuntime) -> Result<(), Fail> {
    for row in &LINES {
        lines_are(&rt, rt.alloc(), *row)?;
    }
    Ok(())
}
