//! Descriptions of whole circuits, worked out independently.
use bench_text::read;
use circuit_info::{info, info_text};
use design::Design;
use fanin_cone::outside;
use netlist::Netlist;
use std::alloc::{AllocError, Global};
use std::process::Abort;
use std::test::Fail;
use worked_examples::S27_BENCH;

// Netlists, and their descriptions, with their unobserved nets.
static TEXTS: [(&[u8], &[u8]); 5] = [
    (
        S27_BENCH,
        b"nets 17\npins 21\ninputs 4\noutputs 1\nflip-flops 3\n\
        gates 10\nAND 1\nNAND 1\nOR 2\nNOR 4\nXOR 0\nXNOR 0\nNOT 2\nBUF 0\n\
        fan-in 2 G8\nfan-out 3 G11\nlevels 6\n",
    ),
    // The hazard.
    (
        b"INPUT(a)\nOUTPUT(y)\nb = BUFF(a)\ny = XOR(a, b)",
        b"nets 3\npins 3\ninputs 1\noutputs 1\nflip-flops 0\n\
        gates 2\nAND 0\nNAND 0\nOR 0\nNOR 0\nXOR 1\nXNOR 0\nNOT 0\nBUF 1\n\
        fan-in 2 y\nfan-out 2 a\nlevels 2\n",
    ),
    // The counter, without outputs.
    (
        b"q = DFF(n)\nn = NOT(q)",
        b"nets 2\npins 2\ninputs 0\noutputs 0\nflip-flops 1\n\
        gates 1\nAND 0\nNAND 0\nOR 0\nNOR 0\nXOR 0\nXNOR 0\nNOT 1\nBUF 0\n\
        fan-in 1 q\nfan-out 1 q\nlevels 1\nunobserved q\nunobserved n\n",
    ),
    // The ring, without outputs.
    (
        b"x = NOT(y)\ny = NOT(z)\nz = NOT(x)",
        b"nets 3\npins 3\ninputs 0\noutputs 0\nflip-flops 0\n\
        gates 3\nAND 0\nNAND 0\nOR 0\nNOR 0\nXOR 0\nXNOR 0\nNOT 3\nBUF 0\n\
        fan-in 1 x\nfan-out 1 x\nloop x y z\nunobserved x\nunobserved y\nunobserved z\n",
    ),
    // Wide gates, a net at two pins of one of them, and one unobserved net among others.
    (
        b"INPUT(a)\nINPUT(b)\nOUTPUT(y)\nOUTPUT(a)\nz = XNOR(b, b)\n\
        w = OR(a, b, b)\ny = NAND(a, w, a)",
        b"nets 5\npins 8\ninputs 2\noutputs 2\nflip-flops 0\n\
        gates 3\nAND 0\nNAND 1\nOR 1\nNOR 0\nXOR 0\nXNOR 1\nNOT 0\nBUF 0\n\
        fan-in 3 w\nfan-out 4 b\nlevels 2\nunobserved z\n",
    ),
];

fn told(alloc: Global, netlist: &Netlist) -> Result<Vec<u8>, AllocError> {
    let nets = outside(alloc, netlist, netlist.outputs())?;
    info_text(alloc, netlist, nets.as_slice())
}

fn is_told(rt: &impl Abort, alloc: Global, bench: &[u8], text: &[u8]) -> Result<(), Fail> {
    let netlist = read(alloc, bench)?;
    let found = told(alloc, &netlist)?;
    assert!(rt; found.as_slice() == text);
    Ok(())
}

#[test]
fn texts(rt: HostRuntime) -> Result<(), Fail> {
    for &(bench, text) in &TEXTS {
        is_told(&rt, rt.alloc(), bench, text)?;
    }
    Ok(())
}

// Of a design: the longest paths come last.
#[test]
fn of_a_design(rt: HostRuntime) -> Result<(), Fail> {
    let netlist = read(
        rt.alloc(),
        b"INPUT(a)\nOUTPUT(y)\nb = BUFF(a)\ny = NOT(a)\nq = DFF(b)",
    )?;
    let design = Design::build(rt.alloc(), netlist, b"b 3", b"", 2, 10)?;
    let text = info(rt.alloc(), &design)?;
    let wanted = b"nets 4\npins 3\ninputs 1\noutputs 1\nflip-flops 1\n\
        gates 2\nAND 0\nNAND 0\nOR 0\nNOR 0\nXOR 0\nXNOR 0\nNOT 1\nBUF 1\n\
        fan-in 1 b\nfan-out 2 a\nlevels 1\nunobserved b\nunobserved q\n\
        longest-path-to-flip-flop 3 a b q\nlongest-path-to-output 2 a y\n";
    assert!(&rt; text.as_slice() == wanted.as_slice());
    Ok(())
}
