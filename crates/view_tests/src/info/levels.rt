//! Levels and loops of gates, and unobserved nets.
use bench_text::read;
use circuit_info::{Depths, greatest, info_text, levels_of};
use fanin_cone::outside;
use netlist::Netlist;
use std::alloc::{AllocError, Global};
use std::process::Abort;
use std::test::Fail;
use worked_examples::S27_BENCH;

// Netlists without a loop, the levels of their nets, and the greatest of those.
static LEVELS: [(&[u8], &[u32], u32); 6] = [
    (
        S27_BENCH,
        &[0, 0, 0, 0, 0, 0, 0, 1, 6, 2, 3, 3, 4, 6, 5, 1, 2],
        6,
    ),
    // The hazard.
    (
        b"INPUT(a)\nOUTPUT(y)\nb = BUFF(a)\ny = XOR(a, b)",
        &[0, 1, 2],
        2,
    ),
    // A flip-flop is in these loops.
    (b"q = DFF(n)\nn = NOT(q)", &[0, 1], 1),
    (b"q = DFF(q)", &[0], 0),
    // Two ways from a gate to another, of which the longer one decides.
    (
        b"INPUT(a)\ny = AND(a, d)\nd = NOT(c)\nc = NOT(b)\nb = NOT(a)",
        &[0, 4, 3, 2, 1],
        4,
    ),
    (b"INPUT(a)", &[0], 0),
];

// Netlists with a loop of gates, and the loop that is named.
static LOOPS: [(&[u8], &[u32]); 11] = [
    (b"y = NOT(y)", &[0]),
    // The ring.
    (b"x = NOT(y)\ny = NOT(z)\nz = NOT(x)", &[0, 1, 2]),
    // The oscillator with a gate.
    (b"INPUT(e)\nOUTPUT(y)\ny = NAND(e, y)", &[1]),
    // A gate that isn't in the loop reads what it shows.
    (b"y = NOT(p)\np = NOT(q)\nq = NOT(p)", &[1, 2]),
    // The walk reaches the loop in the middle of its nets.
    (
        b"s = NOT(c)\na = NOT(b)\nb = NOT(c)\nc = NOT(a)",
        &[3, 1, 2],
    ),
    // Two loops: from the least net the walk reaches the one at its first pin.
    (
        b"y = AND(d, b)\na = NOT(b)\nb = NOT(a)\nc = NOT(d)\nd = NOT(c)",
        &[4, 3],
    ),
    // Two loops with one gate in both.
    (b"a = AND(c, b)\nb = NOT(a)\nc = NOT(a)", &[0, 2]),
    // Two unconnected loops, after a gate that has a level.
    (
        b"INPUT(e)\nu = NOT(e)\na = NOT(b)\nb = NOT(a)\nc = NOT(d)\nd = NOT(c)",
        &[2, 3],
    ),
    // A loop through a flip-flop comes first, and then one without.
    (
        b"q = DFF(n)\nn = NOT(q)\nINPUT(a)\nb = OR(a, c)\nc = AND(a, b)",
        &[3, 4],
    ),
    // A flip-flop is at a gate's first pin and after it, and the loop goes through the second one.
    (b"q = DFF(a)\na = AND(q, b)\nb = OR(a, q)", &[1, 2]),
    // The first pin of a gate has a level from a gate that is defined last.
    (b"INPUT(e)\na = OR(u, b)\nb = OR(u, a)\nu = NOT(e)", &[1, 2]),
];

fn has_levels(
    rt: &impl Abort,
    alloc: Global,
    bench: &[u8],
    levels: &[u32],
    top: u32,
) -> Result<(), Fail> {
    let netlist = read(alloc, bench)?;
    match levels_of(alloc, &netlist)? {
        Depths::Levels(found) => {
            assert!(rt; found.as_slice() == levels);
            assert!(rt; greatest(found.as_slice()) == top);
        }
        Depths::Loop(_) => assert!(rt; false),
    }
    Ok(())
}

fn has_loop(rt: &impl Abort, alloc: Global, bench: &[u8], nets: &[u32]) -> Result<(), Fail> {
    let netlist = read(alloc, bench)?;
    match levels_of(alloc, &netlist)? {
        Depths::Levels(_) => assert!(rt; false),
        Depths::Loop(found) => assert!(rt; found.as_slice() == nets),
    }
    Ok(())
}

#[test]
fn levels(rt: HostRuntime) -> Result<(), Fail> {
    for &(bench, levels, top) in &LEVELS {
        has_levels(&rt, rt.alloc(), bench, levels, top)?;
    }
    Ok(())
}

#[test]
fn loops(rt: HostRuntime) -> Result<(), Fail> {
    for &(bench, nets) in &LOOPS {
        has_loop(&rt, rt.alloc(), bench, nets)?;
    }
    Ok(())
}

const LONG: u32 = 50_000;

// An input `a`, and this number of inverters `g0`, `g1` and so on, each with the next one at its pin, and
// this net at the pin of the last one.
fn chain(alloc: Global, gates: u32, end: &[u8]) -> Result<Vec<u8>, AllocError> {
    let mut text = Vec::from_slice(alloc, b"INPUT(a)\ng0 = NOT(")?;
    for number in 1..gates {
        push_gate(&mut text, number)?;
        text.extend_from_slice(b")\n")?;
        push_gate(&mut text, number)?;
        text.extend_from_slice(b" = NOT(")?;
    }
    text.extend_from_slice(end)?;
    text.extend_from_slice(b")\n")?;
    Ok(text)
}

fn push_gate(text: &mut Vec<u8>, number: u32) -> Result<(), AllocError> {
    let digits = number.to_string(*text.allocator())?;
    text.push(b'g')?;
    text.extend_from_slice(digits.as_bytes())
}

fn tells_end(rt: &impl Abort, alloc: Global, netlist: &Netlist, end: &[u8]) -> Result<(), Fail> {
    let text = info_text(alloc, netlist, &[])?;
    assert!(rt; text.as_slice().ends_with(end));
    Ok(())
}

#[test]
fn long_chain(rt: HostRuntime) -> Result<(), Fail> {
    let bench = chain(rt.alloc(), LONG, b"a")?;
    let netlist = read(rt.alloc(), bench.as_slice())?;
    let end = b"NOT 50000\nBUF 0\nfan-in 1 g0\nfan-out 1 a\nlevels 50000\n";
    tells_end(&rt, rt.alloc(), &netlist, end)
}

#[test]
fn long_ring(rt: HostRuntime) -> Result<(), Fail> {
    let bench = chain(rt.alloc(), LONG, b"g0")?;
    let netlist = read(rt.alloc(), bench.as_slice())?;
    match levels_of(rt.alloc(), &netlist)? {
        Depths::Levels(_) => assert!(&rt; false),
        Depths::Loop(found) => assert!(&rt; found.iter().copied().eq(1..=LONG)),
    }
    Ok(())
}

// The walk over the whole chain reaches a net that is at its own pin.
#[test]
fn long_way(rt: HostRuntime) -> Result<(), Fail> {
    let bench = chain(rt.alloc(), LONG, b"g49999")?;
    let netlist = read(rt.alloc(), bench.as_slice())?;
    tells_end(&rt, rt.alloc(), &netlist, b"\nloop g49999\n")
}

// Netlists, and their unobserved nets.
static OUTSIDE: [(&[u8], &[u32]); 5] = [
    (S27_BENCH, &[]),
    (b"INPUT(a)\nINPUT(b)\nOUTPUT(y)\ny = NOT(a)", &[1]),
    // Without outputs, all nets.
    (b"q = DFF(n)\nn = NOT(q)", &[0, 1]),
    // A gate that feeds only unobserved gates, and an input that an output depends on through a flip-flop.
    (
        b"INPUT(a)\nz = NOT(u)\nu = NOT(a)\nINPUT(d)\nq = DFF(d)\nOUTPUT(q)",
        &[0, 1, 2],
    ),
    (b"INPUT(a)\nOUTPUT(a)", &[]),
];

fn outside_so(rt: &impl Abort, alloc: Global, netlist: &Netlist, nets: &[u32]) -> Result<(), Fail> {
    let found = outside(alloc, netlist, netlist.outputs())?;
    assert!(rt; found.as_slice() == nets);
    Ok(())
}

#[test]
fn nets_that_no_output_hangs_on(rt: HostRuntime) -> Result<(), Fail> {
    for &(bench, nets) in &OUTSIDE {
        let netlist = read(rt.alloc(), bench)?;
        outside_so(&rt, rt.alloc(), &netlist, nets)?;
    }
    Ok(())
}
