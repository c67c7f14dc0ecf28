//! Netlists: read, asked, picked from and written.
use crate::circuits::{INVERTER, S27};
use bench_text::{BenchFault, Netlist, Part, read, write};
use logic3::GateKind;
use std::alloc::Global;
use std::process::Abort;
use std::test::Fail;

// There are exactly these parts.
fn kind_of(part: Part) -> Option<GateKind> {
    match part {
        Part::Input | Part::Flop => None,
        Part::Gate(kind) => Some(kind),
    }
}

fn is_inverter(rt: &impl Abort, netlist: &Netlist) {
    let nets: u32 = netlist.nets();
    assert!(rt; nets == 2);
    let name: &[u8] = netlist.name(1);
    assert!(rt; name == b"y".as_slice());
    let part: Part = netlist.part(1);
    assert!(rt; part == Part::Gate(GateKind::Not));
    assert!(rt; kind_of(part) == Some(GateKind::Not));
    assert!(rt; netlist.part(0) == Part::Input);
    let pins: &[u32] = netlist.pins_of(1);
    assert!(rt; pins == [0].as_slice());
    let outputs: &[u32] = netlist.outputs();
    assert!(rt; outputs == [1].as_slice());
}

fn finds(rt: &impl Abort, netlist: &Netlist) {
    let found: Option<u32> = netlist.find(b"y");
    assert!(rt; found == Some(1));
    assert!(rt; netlist.find(b"Y").is_none());
}

#[test]
fn readers(rt: HostRuntime) -> Result<(), Fail> {
    let answer: Result<Netlist, BenchFault> = read(rt.alloc(), INVERTER.bench);
    let netlist: Netlist = answer?;
    is_inverter(&rt, &netlist);
    finds(&rt, &netlist);
    Ok(())
}

// A text, and its canonical text.
static WRITTEN: [(&[u8], &[u8]); 3] = [
    (
        b"input(a)\r\n\toutput ( y ) # \xC3\xA9\r\noutput(y)\r\ny = and( a )",
        b"INPUT(a)\ny = AND(a)\nOUTPUT(y)\n",
    ),
    (
        b"OUTPUT(y)\ny = NOT(n)\nn = NOT(a)\nINPUT(a)",
        b"y = NOT(n)\nn = NOT(a)\nINPUT(a)\nOUTPUT(y)\n",
    ),
    (
        b"INPUT(INPUT)\nNOT = not(INPUT)",
        b"INPUT(INPUT)\nNOT = NOT(INPUT)\n",
    ),
];

fn is_written(
    rt: &impl Abort,
    alloc: Global,
    netlist: &Netlist,
    canonical: &[u8],
) -> Result<(), Fail> {
    let answer: Result<Vec<u8>, BenchFault> = write(alloc, netlist);
    let text: Vec<u8> = answer?;
    assert!(rt; text.as_slice() == canonical);
    Ok(())
}

#[test]
fn canonical_texts(rt: HostRuntime) -> Result<(), Fail> {
    for (text, canonical) in &WRITTEN {
        let netlist: Netlist = read(rt.alloc(), text)?;
        is_written(&rt, rt.alloc(), &netlist, canonical)?;
    }
    Ok(())
}

// An input of s27, net 0, and the inverter at it, net 7.
fn inverter_of_s27(rt: &impl Abort, alloc: Global, netlist: &Netlist) -> Result<Netlist, Fail> {
    assert!(rt; 7 < netlist.nets());
    assert!(rt; netlist.pins_of(0).is_empty());
    assert!(rt; netlist.pins_of(7) == [0].as_slice());
    let picked: Netlist = netlist.pick(alloc, &[0, 7], &[7])?;
    Ok(picked)
}

#[test]
fn picked_nets(rt: HostRuntime) -> Result<(), Fail> {
    let netlist: Netlist = read(rt.alloc(), S27.bench)?;
    let picked: Netlist = inverter_of_s27(&rt, rt.alloc(), &netlist)?;
    let canonical = b"INPUT(G0)\nG14 = NOT(G0)\nOUTPUT(G14)\n";
    is_written(&rt, rt.alloc(), &picked, canonical)
}

// Texts that are refused, and the fault.
static REFUSED: [(&[u8], BenchFault); 13] = [
    (b"", BenchFault::NoNets),
    (
        b"INPUT(a)\ny = NOT(a)\ny = BUF(a)",
        BenchFault::DefinedTwice { line: 3 },
    ),
    (
        b"INPUT(a)\ny = AND(a, zz)",
        BenchFault::Undefined { line: 2 },
    ),
    (
        b"INPUT(a)\nINPUT(b)\nq = DFF(a, b)",
        BenchFault::BadArity { line: 3 },
    ),
    (b"INPUT(a)\ny = AND()", BenchFault::BadArity { line: 2 }),
    (b"y = MUX(a)", BenchFault::UnknownGate { line: 1 }),
    (b"INOUT(a)", BenchFault::BadLine { line: 1 }),
    (b"INPUT(a)\nINPUT(a)\nx y", BenchFault::BadLine { line: 3 }),
    (
        b"INPUT(a)\nINPUT(a)\nOUTPUT(z)",
        BenchFault::DefinedTwice { line: 2 },
    ),
    (b"INPUT($end)", BenchFault::BadLine { line: 1 }),
    (b"\xEF\xBB\xBFINPUT(a)", BenchFault::BadByte { line: 1 }),
    (b"INPUT(a)\nOUTPUT(z)", BenchFault::Undefined { line: 2 }),
    (b"# none\n\n", BenchFault::NoNets),
];

#[test]
fn refused_texts(rt: HostRuntime) {
    for (text, fault) in &REFUSED {
        let refused: Option<BenchFault> = read(rt.alloc(), text).err();
        assert!(rt; refused == Some(*fault));
    }
}
