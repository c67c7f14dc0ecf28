//! Cones, agreement and extracts.
use crate::circuits::{Circuit, INVERTER, S27};
use bench_text::{Netlist, read, write};
use design::{Design, Horizon};
use fanin_cone::{ConeFault, agree, cone, extract};
use std::alloc::{AllocError, Global};
use std::process::Abort;
use std::test::Fail;

const FIRST: Circuit = Circuit {
    bench: b"INPUT(a)\nOUTPUT(y)\ny = NOT(a)\nINPUT(b)\nz = AND(a, b)\n",
    stimuli: b"0 a 0\n3 a 1\n0 b 1\n",
    ..INVERTER
};

/// The same net `y`, under another number.
const SECOND: Circuit = Circuit {
    bench: b"INPUT(c)\nk = BUF(c)\nm = NOT(k)\nz = XOR(a, b)\nINPUT(b)\nINPUT(a)\ny = NOT(a)\n",
    ..FIRST
};

/// A stimulus more, past tick 5.
const LATER: Circuit = Circuit {
    stimuli: b"0 a 0\n3 a 1\n0 b 1\n6 a 0\n",
    ..SECOND
};

// Two circuits, a name, a horizon, and whether they agree on its cone.
type Pair = (Circuit, Circuit, &'static [u8], u64, Option<bool>);

static PAIRS: [Pair; 7] = [
    (SECOND, FIRST, b"y", 5, Some(true)),
    (SECOND, FIRST, b"m", 5, None),
    (FIRST, SECOND, b"y", 5, Some(true)),
    (FIRST, SECOND, b"z", 5, Some(false)),
    (FIRST, SECOND, b"m", 5, None),
    (FIRST, LATER, b"y", 5, Some(true)),
    (FIRST, LATER, b"y", 6, Some(false)),
];

fn agreed(
    alloc: Global,
    first: &Design,
    second: &Design,
    name: &[u8],
    horizon: u64,
) -> Result<Option<bool>, Fail> {
    let horizon: Horizon = Horizon::new(horizon)?;
    let answer: Result<Option<bool>, AllocError> = agree(alloc, first, second, name, horizon);
    Ok(answer?)
}

#[test]
fn agreement(rt: HostRuntime) -> Result<(), Fail> {
    for &(first, second, name, horizon, wanted) in &PAIRS {
        let first: Design = first.build(rt.alloc())?;
        let second: Design = second.build(rt.alloc())?;
        assert!(rt; agreed(rt.alloc(), &first, &second, name, horizon)? == wanted);
    }
    Ok(())
}

fn has_cone(
    rt: &impl Abort,
    alloc: Global,
    design: &Design,
    net: u32,
    wanted: &[u32],
) -> Result<(), Fail> {
    assert!(rt; net < design.nets());
    let answer: Result<Vec<u32>, AllocError> = cone(alloc, design, net);
    let nets: Vec<u32> = answer?;
    assert!(rt; nets.as_slice() == wanted);
    Ok(())
}

// That of G12, net 15, goes through the flip-flop G7, net 6.
#[test]
fn cones_of_s27(rt: HostRuntime) -> Result<(), Fail> {
    let design: Design = S27.build(rt.alloc())?;
    has_cone(&rt, rt.alloc(), &design, 0, &[0])?;
    has_cone(&rt, rt.alloc(), &design, 7, &[0, 7])?;
    has_cone(&rt, rt.alloc(), &design, 15, &[1, 2, 6, 15, 16])?;
    let all = [0, 1, 2, 3, 4, 5, 6, 7, 8, 9, 10, 11, 12, 13, 14, 15, 16];
    has_cone(&rt, rt.alloc(), &design, 8, &all)
}

// A circuit, names of its nets, and the canonical text of their cones.
type Extracted = (Circuit, &'static [&'static [u8]], &'static [u8]);

static EXTRACTED: [Extracted; 3] = [
    (FIRST, &[b"y"], b"INPUT(a)\ny = NOT(a)\nOUTPUT(y)\n"),
    (SECOND, &[b"y"], b"INPUT(a)\ny = NOT(a)\nOUTPUT(y)\n"),
    (
        S27,
        &[b"G12", b"G14", b"G12"],
        b"INPUT(G0)\nINPUT(G1)\nINPUT(G2)\nG7 = DFF(G13)\nG14 = NOT(G0)\nG12 = NOR(G1, G7)\nG13 = NOR(G2, G12)\nOUTPUT(G12)\nOUTPUT(G14)\n",
    ),
];

fn extracts(
    rt: &impl Abort,
    alloc: Global,
    netlist: &Netlist,
    names: &[&[u8]],
    wanted: &[u8],
) -> Result<(), Fail> {
    assert!(rt; !names.is_empty());
    let answer: Result<Netlist, ConeFault> = extract(alloc, netlist, names);
    let extracted: Netlist = answer?;
    assert!(rt; write(alloc, &extracted)?.as_slice() == wanted);
    Ok(())
}

#[test]
fn extracts_of_cones(rt: HostRuntime) -> Result<(), Fail> {
    for &(circuit, names, wanted) in &EXTRACTED {
        let netlist: Netlist = read(rt.alloc(), circuit.bench)?;
        extracts(&rt, rt.alloc(), &netlist, names, wanted)?;
    }
    Ok(())
}

// There are exactly these faults.
fn place(fault: ConeFault) -> Option<u64> {
    match fault {
        ConeFault::UnknownNet { at } => Some(at),
        ConeFault::Memory => None,
    }
}

#[test]
fn unknown_names(rt: HostRuntime) -> Result<(), Fail> {
    let netlist: Netlist = read(rt.alloc(), S27.bench)?;
    let refused: Option<ConeFault> = extract(rt.alloc(), &netlist, &[b"G0", b"zz"]).err();
    assert!(rt; refused.and_then(place) == Some(1));
    let refused: Option<ConeFault> = extract(rt.alloc(), &netlist, &[b"g0", b"zz"]).err();
    assert!(rt; refused.and_then(place) == Some(0));
    Ok(())
}
