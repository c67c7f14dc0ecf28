//! The numbers of a circuit, and its unobserved nets.
use crate::telling::Teller;
use bench_text::read;
use circuit_info::{Depths, fan_ins, fan_outs, info, levels_of, longest_paths, path_text};
use design::Design;
use fanin_cone::outside;
use netlist::{Netlist, gate_order};
use std::alloc::{AllocError, Global};
use std::io::Write;

/// A chain of gates, all of which a walk from the first enters before it leaves one, and unobserved gates.
const CHAIN: &[u8] = b"OUTPUT(g)\nOUTPUT(f)\nOUTPUT(e)\nOUTPUT(d)\nOUTPUT(c)\n\
      g = NOT(f)\nf = NOT(e)\ne = NOT(d)\nd = NOT(c)\nc = NOT(b)\nb = AND(a, a)\nINPUT(a)\n\
      h = NOT(a)\ni = NOT(h)\nj = NOT(i)\nk = NOT(j)\nl = NOT(k)\n";

/// A loop of gates.
const RING: &[u8] = b"a = NOT(b)\nb = NOT(c)\nc = NOT(d)\nd = NOT(e)\ne = NOT(a)\n";

/// Probes what is reported of both.
pub(crate) fn probe<W: Write>(alloc: Global, teller: &mut Teller<W>) -> Option<()> {
    let netlist = teller.told("bench_text::read", read(alloc, CHAIN))?;
    counts(alloc, teller, &netlist)?;
    let gates = gate_order(alloc, &netlist);
    lists(
        teller,
        "gate_order",
        gates,
        &[5, 4, 3, 2, 1, 0, 7, 8, 9, 10, 11],
    )?;
    levels(alloc, teller, &netlist)?;
    let nets = outside(alloc, &netlist, netlist.outputs());
    lists(teller, "fanin_cone::outside", nets, &[7, 8, 9, 10, 11])?;
    ring(alloc, teller)?;
    paths(alloc, teller)
}

/// Reports a call that makes a list of numbers.
fn lists<W: Write>(
    teller: &mut Teller<W>,
    call: &str,
    answer: Result<Vec<u32>, AllocError>,
    wanted: &[u32],
) -> Option<()> {
    let numbers = teller.told(call, answer)?;
    teller.fine(call, numbers.as_slice() == wanted)
}

/// Reports a call that counts something of each net.
fn counts_of<W: Write>(
    teller: &mut Teller<W>,
    call: &str,
    answer: Result<Vec<usize>, AllocError>,
    wanted: &[usize],
) -> Option<()> {
    let counts = teller.told(call, answer)?;
    teller.fine(call, counts.as_slice() == wanted)
}

fn counts<W: Write>(alloc: Global, teller: &mut Teller<W>, netlist: &Netlist) -> Option<()> {
    let pins = [1, 2, 3, 4, 5, 6, 6, 6, 7, 8, 9, 10];
    lists(teller, "all_pins", netlist.all_pins(alloc), &pins)?;
    let ins = [1, 1, 1, 1, 1, 2, 0, 1, 1, 1, 1, 1];
    counts_of(teller, "fan_ins", fan_ins(alloc, netlist), &ins)?;
    let outs = [0, 1, 1, 1, 1, 1, 3, 1, 1, 1, 1, 0];
    counts_of(teller, "fan_outs", fan_outs(alloc, netlist), &outs)
}

fn levels<W: Write>(alloc: Global, teller: &mut Teller<W>, netlist: &Netlist) -> Option<()> {
    let wanted = [6, 5, 4, 3, 2, 1, 0, 1, 2, 3, 4, 5];
    let depths = teller.told("levels_of", levels_of(alloc, netlist))?;
    let holds = match &depths {
        Depths::Levels(levels) => levels.as_slice() == wanted.as_slice(),
        Depths::Loop(_) => false,
    };
    teller.fine("levels_of", holds)
}

fn ring<W: Write>(alloc: Global, teller: &mut Teller<W>) -> Option<()> {
    let netlist = teller.told("bench_text::read", read(alloc, RING))?;
    let depths = teller.told("levels_of", levels_of(alloc, &netlist))?;
    let holds = match &depths {
        Depths::Levels(_) => false,
        Depths::Loop(gates) => gates.as_slice() == [0, 1, 2, 3, 4].as_slice(),
    };
    teller.fine("levels_of", holds)
}

fn paths<W: Write>(alloc: Global, teller: &mut Teller<W>) -> Option<()> {
    let wanted = [6, 5, 4, 3, 2, 1, 0, 1, 2, 3, 4, 5];
    let netlist = teller.told("bench_text::read", read(alloc, CHAIN))?;
    let design = Design::build(alloc, netlist, b"", b"", 1, 10);
    let design = teller.told("Design::build", design)?;
    let found = teller.told("longest_paths", longest_paths(alloc, &design))?;
    let holds = match &found {
        Some(ticks) => ticks.as_slice() == wanted.as_slice(),
        None => false,
    };
    teller.fine("longest_paths", holds)?;
    described(alloc, teller, &design)
}

fn described<W: Write>(alloc: Global, teller: &mut Teller<W>, design: &Design) -> Option<()> {
    let line = b"longest-path-to-output 6 a b c d e f g\n".as_slice();
    let text = teller.told("path_text", path_text(alloc, design))?;
    teller.fine("path_text", text.as_slice() == line)?;
    let text = teller.told("circuit_info::info", info(alloc, design))?;
    teller.fine("circuit_info::info", text.as_slice().ends_with(line))
}
