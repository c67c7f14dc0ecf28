//! Reading and writing .bench texts: further faults and keywords, and the limits.
use crate::lines::longest;
use bench_text::{BenchFault, Netlist, read, write};
use std::alloc::{AllocError, Global};
use std::process::Abort;
use std::test::Fail;

fn finds(rt: &impl Abort, netlist: &Netlist, name: &[u8], net: Option<u32>) {
    assert!(rt; netlist.find(name) == net);
}

// Texts, and what they are refused with.
static REFUSED: [(&[u8], BenchFault); 6] = [
    (b"y = MUX()", BenchFault::UnknownGate { line: 1 }),
    (b"$INPUT(a)", BenchFault::BadLine { line: 1 }),
    (b"y = $AND(a)", BenchFault::UnknownGate { line: 1 }),
    (b"x y \x80", BenchFault::BadByte { line: 1 }),
    (b"INPUT(a)\x0B", BenchFault::BadByte { line: 1 }),
    (b"INPUT(a)y=AND(a)", BenchFault::BadLine { line: 1 }),
];

#[test]
fn refused_texts(rt: HostRuntime) {
    for &(text, fault) in &REFUSED {
        assert!(rt; read(rt.alloc(), text).err() == Some(fault));
    }
}

// The netlist has this canonical text.
fn is_written(
    rt: &impl Abort,
    alloc: Global,
    netlist: &Netlist,
    canonical: &[u8],
) -> Result<(), Fail> {
    let written = write(alloc, netlist)?;
    assert!(rt; written.as_slice() == canonical);
    Ok(())
}

// Texts, and their canonical texts.
static WRITTEN: [(&[u8], &[u8]); 2] = [
    (
        b"INPUT(a)\nb=nand(a,a)\nc=or(a)\nd=Nor(c,b,a)\ne=xor(a)\nf=xnor(a)",
        b"INPUT(a)\nb = NAND(a, a)\nc = OR(a)\nd = NOR(c, b, a)\ne = XOR(a)\nf = XNOR(a)\n",
    ),
    (
        b"INPUT(a)\ng=inv(a)\nh=buff(a)\ni=dff(h)",
        b"INPUT(a)\ng = NOT(a)\nh = BUF(a)\ni = DFF(h)\n",
    ),
];

#[test]
fn canonical_texts(rt: HostRuntime) -> Result<(), Fail> {
    for &(text, canonical) in &WRITTEN {
        let netlist = read(rt.alloc(), text)?;
        is_written(&rt, rt.alloc(), &netlist, canonical)?;
    }
    Ok(())
}

// What `read` returns for an input of this name.
fn read_input(alloc: Global, name: &[u8]) -> Result<Result<Netlist, BenchFault>, AllocError> {
    let text = [b"INPUT(".as_slice(), name, b")"].concat(alloc)?;
    Ok(read(alloc, text.as_slice()))
}

fn first_name_is(rt: &impl Abort, netlist: &Netlist, name: &[u8]) {
    assert!(rt; 0 < netlist.nets());
    assert!(rt; netlist.name(0) == name);
}

#[test]
fn limit_of_a_name(rt: HostRuntime) -> Result<(), Fail> {
    let name = [b'n'; 256];
    first_name_is(&rt, &read_input(rt.alloc(), &name[..255])??, &name[..255]);
    let answer = read_input(rt.alloc(), &name)?;
    assert!(rt; answer.err() == Some(BenchFault::NameTooLong { line: 1 }));
    Ok(())
}

// This number of pins of a gate, all at the same net.
fn same_pins(alloc: Global, net: &[u8], count: usize) -> Result<Vec<u8>, AllocError> {
    let mut pins = Vec::from_slice(alloc, net)?;
    for _ in 1..count {
        pins.push(b',')?;
        pins.extend_from_slice(net)?;
    }
    Ok(pins)
}

// The input `a` and a gate with this number of pins.
fn wide_gate(alloc: Global, pins: usize) -> Result<Vec<u8>, AllocError> {
    let mut text = Vec::from_slice(alloc, b"INPUT(a)\n")?;
    push_gate(&mut text, 0, same_pins(alloc, b"a", pins)?.as_slice())?;
    Ok(text)
}

// What `read` returns for that text.
fn read_wide(alloc: Global, pins: usize) -> Result<Result<Netlist, BenchFault>, AllocError> {
    let text = wide_gate(alloc, pins)?;
    Ok(read(alloc, text.as_slice()))
}

fn gate_is_wide(rt: &impl Abort, netlist: &Netlist, pins: usize) {
    assert!(rt; netlist.nets() == 2);
    assert!(rt; netlist.pins_of(1).len() == pins);
}

#[test]
fn limit_of_a_gate(rt: HostRuntime) -> Result<(), Fail> {
    gate_is_wide(&rt, &read_wide(rt.alloc(), 1024)??, 1024);
    let answer = read_wide(rt.alloc(), 1025)?;
    assert!(rt; answer.err() == Some(BenchFault::BadArity { line: 2 }));
    Ok(())
}

// The lines `INPUT(n0)`, `INPUT(n1)` and so on.
fn numbered_inputs(alloc: Global, count: u32) -> Result<Vec<u8>, AllocError> {
    let mut text = Vec::new(alloc);
    for number in 0..count {
        text.extend_from_slice(b"INPUT(n")?;
        push_number(&mut text, number)?;
        text.extend_from_slice(b")\n")?;
    }
    Ok(text)
}

fn push_number(text: &mut Vec<u8>, number: u32) -> Result<(), AllocError> {
    let digits = number.to_string(*text.allocator())?;
    text.extend_from_slice(digits.as_bytes())
}

// What `read` returns for a hundred thousand inputs and this line.
fn read_inputs(alloc: Global, more: &[u8]) -> Result<Result<Netlist, BenchFault>, AllocError> {
    let mut text = numbered_inputs(alloc, 100_000)?;
    text.extend_from_slice(more)?;
    Ok(read(alloc, text.as_slice()))
}

fn are_inputs(rt: &impl Abort, netlist: &Netlist) {
    nets_are(rt, netlist, 100_000);
    finds(rt, netlist, b"n99999", Some(99_999));
}

fn nets_are(rt: &impl Abort, netlist: &Netlist, count: u32) {
    assert!(rt; netlist.nets() == count);
}

#[test]
fn limit_of_nets(rt: HostRuntime) -> Result<(), Fail> {
    are_inputs(&rt, &read_inputs(rt.alloc(), b"")??);
    let answer = read_inputs(rt.alloc(), b"INPUT(more)")?;
    assert!(rt; answer.err() == Some(BenchFault::TooMany));
    Ok(())
}

// An input, 976 gates of 1,024 pins and a last one of this number.
fn many_pins(alloc: Global, input: &[u8], last: usize) -> Result<Vec<u8>, AllocError> {
    let pins = same_pins(alloc, input, 1024)?;
    let mut text = [b"INPUT(".as_slice(), input, b")\n"].concat(alloc)?;
    for number in 0..976 {
        push_gate(&mut text, number, pins.as_slice())?;
    }
    let pins = same_pins(alloc, input, last)?;
    push_gate(&mut text, 976, pins.as_slice())?;
    Ok(text)
}

fn push_gate(text: &mut Vec<u8>, number: u32, pins: &[u8]) -> Result<(), AllocError> {
    text.push(b'y')?;
    push_number(text, number)?;
    text.extend_from_slice(b"=AND(")?;
    text.extend_from_slice(pins)?;
    text.extend_from_slice(b")\n")
}

// What `read` returns for such a text. The proofs of the tests don't look at the text.
fn read_pins(
    alloc: Global,
    input: &[u8],
    last: usize,
) -> Result<Result<Netlist, BenchFault>, AllocError> {
    let text = many_pins(alloc, input, last)?;
    Ok(read(alloc, text.as_slice()))
}

// The input and 977 gates, the last of them with this number of pins.
fn last_has(rt: &impl Abort, netlist: &Netlist, pins: usize) {
    assert!(rt; netlist.nets() == 978);
    assert!(rt; netlist.pins_of(977).len() == pins);
}

#[test]
fn limit_of_pins(rt: HostRuntime) -> Result<(), Fail> {
    last_has(&rt, &read_pins(rt.alloc(), b"a", 576)??, 576);
    let answer = read_pins(rt.alloc(), b"a", 577)?;
    assert!(rt; answer.err() == Some(BenchFault::TooMany));
    Ok(())
}

// Without spaces the text isn't too long; with one after each comma it is.
#[test]
fn limit_of_a_written_text(rt: HostRuntime) -> Result<(), Fail> {
    let netlist = read_pins(rt.alloc(), b"fifteen_letters", 576)??;
    last_has(&rt, &netlist, 576);
    let written = write(rt.alloc(), &netlist);
    assert!(rt; written.err() == Some(BenchFault::TooLong));
    Ok(())
}

#[test]
fn limit_of_a_text(rt: HostRuntime) -> Result<(), Fail> {
    let mut text = longest(rt.alloc(), b"INPUT(a)\n#")?;
    nets_are(&rt, &read(rt.alloc(), text.as_slice())?, 1);
    text.push(b'x')?;
    let answer = read(rt.alloc(), text.as_slice());
    assert!(rt; answer.err() == Some(BenchFault::TooLong));
    Ok(())
}
