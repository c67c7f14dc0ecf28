//! How many nets a part drives, and how many pins a net feeds.
use bench_text::read;
use circuit_info::{fan_ins, fan_outs, first_greatest, gate_count, part_count};
use logic3::GateKind;
use netlist::{Netlist, Part};
use std::alloc::Global;
use std::process::Abort;
use std::test::Fail;
use worked_examples::S27_BENCH;

static S27_PARTS: [(Part, u32); 10] = [
    (Part::Input, 4),
    (Part::Flop, 3),
    (Part::Gate(GateKind::And), 1),
    (Part::Gate(GateKind::Nand), 1),
    (Part::Gate(GateKind::Or), 2),
    (Part::Gate(GateKind::Nor), 4),
    (Part::Gate(GateKind::Xor), 0),
    (Part::Gate(GateKind::Xnor), 0),
    (Part::Gate(GateKind::Not), 2),
    (Part::Gate(GateKind::Buf), 0),
];

#[test]
fn parts_of_s27(rt: HostRuntime) -> Result<(), Fail> {
    let netlist = read(rt.alloc(), S27_BENCH)?;
    for &(part, count) in &S27_PARTS {
        assert!(&rt; part_count(&netlist, part) == count);
    }
    assert!(&rt; gate_count(&netlist) == 10);
    Ok(())
}

// Netlists, how many pins each net has, and how many it feeds.
static FANS: [(&[u8], &[usize], &[usize]); 5] = [
    (
        S27_BENCH,
        &[0, 0, 0, 0, 1, 1, 1, 1, 1, 2, 2, 2, 2, 2, 2, 2, 2],
        &[1, 1, 1, 1, 1, 1, 1, 2, 0, 2, 1, 1, 1, 1, 3, 2, 1],
    ),
    // The hazard.
    (
        b"INPUT(a)\nOUTPUT(y)\nb = BUFF(a)\ny = XOR(a, b)",
        &[0, 1, 2],
        &[2, 1, 0],
    ),
    // The counter.
    (b"q = DFF(n)\nn = NOT(q)", &[1, 1], &[1, 1]),
    // One net at two pins of a gate.
    (b"INPUT(a)\ny = XOR(a, a)", &[0, 2], &[2, 0]),
    (b"INPUT(a)", &[0], &[0]),
];

fn fans(
    rt: &impl Abort,
    alloc: Global,
    netlist: &Netlist,
    ins: &[usize],
    outs: &[usize],
) -> Result<(), Fail> {
    let found = fan_ins(alloc, netlist)?;
    assert!(rt; found.as_slice() == ins);
    let found = fan_outs(alloc, netlist)?;
    assert!(rt; found.as_slice() == outs);
    Ok(())
}

#[test]
fn fan_in_and_fan_out(rt: HostRuntime) -> Result<(), Fail> {
    for &(bench, ins, outs) in &FANS {
        let netlist = read(rt.alloc(), bench)?;
        fans(&rt, rt.alloc(), &netlist, ins, outs)?;
    }
    Ok(())
}

#[test]
fn pins_of_all_nets(rt: HostRuntime) -> Result<(), Fail> {
    let netlist = read(rt.alloc(), b"INPUT(a)\ny = XOR(z, a)\nz = DFF(y)")?;
    let pins = netlist.all_pins(rt.alloc())?;
    assert!(&rt; pins.as_slice() == [2, 0, 1].as_slice());
    Ok(())
}

static GREATEST: [(&[usize], usize); 4] = [
    (&[0], 0),
    (&[1, 3, 2, 3], 1),
    (&[0, 0, 1], 2),
    (&[5, 5], 0),
];

#[test]
fn first_of_the_greatest(rt: HostRuntime) -> Result<(), Fail> {
    for &(numbers, place) in &GREATEST {
        assert!(&rt; !numbers.is_empty());
        assert!(&rt; first_greatest(numbers) == place);
    }
    Ok(())
}
