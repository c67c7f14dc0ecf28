//! Netlists, designs and what is made of them.

use crate::telling::Teller;
use bench_text::{read, write};
use cmb_events::Schedule;
use design::{Design, flow_order, plain_waves, segments_of};
use fanin_cone::{agree, agreeing_cones, cone, cones_alone, extract, net_numbers};
use flat_lists::FlatLists;
use netlist::{Names, Netlist, without_repeats};
use std::alloc::Global;
use std::io::Write;
use timing_text::{Horizon, read_stimuli, read_timings};

/// An input, a loop of gates of which one has nine pins, and a flip-flop.
const BENCH: &[u8] = b"INPUT(enable)\nOUTPUT(turning)\nOUTPUT(sampled)\n\
      turning = NAND(enable, turning)\nsampled = DFF(wide)\n\
      wide = OR(turning, sampled, turning, turning, enable, turning, turning, turning, sampled)\n";

const DELAYS: &[u8] = b"timing version 2\nclock sampled 4 1\ninit sampled 0\ndelay turning 2\n";

const STIMULI: &[u8] =
    b"0 enable 0\n5 enable 1\n20 enable 0\n22 enable 1\n24 enable 0\n26 enable 1\n28 enable 0\n";

const SCHEDULE: &[u8] = b"advance enable\nadvance turning\ndeliver turning 0\ndeliver turning 1\n\
      advance turning\nadvance sampled\ndeliver sampled 0\nadvance wide\ndeliver wide 8\n";

/// The design of these texts.
pub(crate) fn design<W: Write>(alloc: Global, teller: &mut Teller<W>) -> Option<Design> {
    let netlist = teller.told("bench_text::read", read(alloc, BENCH))?;
    let design = Design::build(alloc, netlist, DELAYS, STIMULI, 1, 10);
    teller.told("Design::build", design)
}

/// The horizon of the probes' runs.
pub(crate) fn horizon() -> Option<Horizon> {
    Horizon::new(40).ok()
}

/// Probes what is made of texts and netlists.
pub(crate) fn probe<W: Write>(alloc: Global, teller: &mut Teller<W>) -> Option<()> {
    names(alloc, teller)?;
    lists(alloc, teller)?;
    let kept = without_repeats(alloc, &[0, 1, 0, 4, 3, 2, 1], 5);
    teller.told("without_repeats", kept)?;
    let netlist = teller.told("bench_text::read", read(alloc, BENCH))?;
    teller.told("bench_text::write", write(alloc, &netlist))?;
    let timings = read_timings(alloc, &netlist, DELAYS, 1, 10);
    teller.told("read_timings", timings)?;
    teller.told("read_stimuli", read_stimuli(alloc, &netlist, STIMULI))?;
    let names = [b"sampled".as_slice(), b"enable".as_slice()];
    teller.told("fanin_cone::extract", extract(alloc, &netlist, &names))?;
    let numbers = net_numbers(alloc, &netlist, &names);
    teller.told("fanin_cone::net_numbers", numbers)?;
    pick(alloc, teller, &netlist)
}

/// Names until a list and a table of them must grow.
fn names<W: Write>(alloc: Global, teller: &mut Teller<W>) -> Option<()> {
    let mut names = Names::new(alloc);
    for name in [
        b"a".as_slice(),
        b"b".as_slice(),
        b"c".as_slice(),
        b"d".as_slice(),
        b"e".as_slice(),
    ] {
        if names.find(name).is_some() || names.len() > 9 {
            return None;
        }
        let before = names.len();
        if names.push(name).is_err() {
            let same = names.len() == before && names.find(name).is_none();
            let goes_on = same && names.push(name).is_ok() && names.find(name).is_some();
            teller.refused("Names::push", goes_on);
            return None;
        }
        teller.fine("Names::push", names.find(name).is_some())?;
    }
    Some(())
}

/// Lists until the blocks of their items and of their bounds must grow.
fn lists<W: Write>(alloc: Global, teller: &mut Teller<W>) -> Option<()> {
    let none = FlatLists::<u32>::with_capacity(alloc, 1, 1);
    let mut lists = teller.told("FlatLists::with_capacity", none)?;
    for list in [[1, 2], [3, 4], [5, 6], [7, 8], [9, 10]] {
        let before = lists.len();
        if lists.push(&list).is_err() {
            let same = lists.len() == before;
            let goes_on = same && lists.push(&list).is_ok() && before < lists.len();
            teller.refused("FlatLists::push", goes_on);
            return None;
        }
        teller.fine("FlatLists::push", before < lists.len())?;
    }
    Some(())
}

/// The first net, an input, as a netlist of its own.
fn pick<W: Write>(alloc: Global, teller: &mut Teller<W>, netlist: &Netlist) -> Option<()> {
    let nets = netlist.nets();
    if nets == 0 || !netlist.pins_of(0).is_empty() {
        return None;
    }
    teller.told("Netlist::pick", netlist.pick(alloc, &[0], &[0]))?;
    Some(())
}

/// Probes what is made of a design.
pub(crate) fn probe_designs<W: Write>(alloc: Global, teller: &mut Teller<W>) -> Option<()> {
    let design = design(alloc, teller)?;
    flow(alloc, teller, &design)?;
    schedules(alloc, teller, &design)?;
    teller.told("plain_waves", plain_waves(alloc, &design, horizon()?))?;
    cones(alloc, teller, &design)
}

fn flow<W: Write>(alloc: Global, teller: &mut Teller<W>, design: &Design) -> Option<()> {
    let order = teller.told("flow_order", flow_order(alloc, design))?;
    let segments = segments_of(alloc, design, order.as_slice());
    teller.told("segments_of", segments)?;
    Some(())
}

fn schedules<W: Write>(alloc: Global, teller: &mut Teller<W>, design: &Design) -> Option<()> {
    let read = Schedule::read(alloc, SCHEDULE, design);
    teller.told("Schedule::read", read)?;
    let seeded = Schedule::seeded(alloc, 7, 40, design);
    teller.told("Schedule::seeded", seeded)?;
    Some(())
}

fn cones<W: Write>(alloc: Global, teller: &mut Teller<W>, design: &Design) -> Option<()> {
    let nets = design.nets();
    if nets < 3 {
        return None;
    }
    teller.told("fanin_cone::cone", cone(alloc, design, 2))?;
    let part = teller.told("fanin_cone::cones_alone", cones_alone(alloc, design, &[0]))?;
    teller.fine("fanin_cone::cones_alone", part.is_some())?;
    if design.netlist().pins_of(0).is_empty() {
        teller.told("Design::pick", design.pick(alloc, &[0], &[0]))?;
    }
    let agreement = agree(alloc, design, design, b"sampled", horizon()?);
    let agrees = teller.told("fanin_cone::agree", agreement)?;
    teller.fine("fanin_cone::agree", agrees == Some(true))?;
    let marks = agreeing_cones(alloc, design, design, horizon()?);
    let marks = teller.told("fanin_cone::agreeing_cones", marks)?;
    teller.fine("fanin_cone::agreeing_cones", marks.iter().all(|mark| *mark))
}

/// The design of an input and a gate that oscillates while the input is 1.
pub(crate) fn oscillator<W: Write>(alloc: Global, teller: &mut Teller<W>) -> Option<Design> {
    let bench = b"INPUT(e)\ny = NAND(e, y)\n";
    let netlist = teller.told("bench_text::read", read(alloc, bench))?;
    let design = Design::build(alloc, netlist, b"y 2", b"0 e 0\n5 e 1\n", 1, 10);
    teller.told("Design::build", design)
}

/// The design of an input and an inverter.
pub(crate) fn inverter<W: Write>(alloc: Global, teller: &mut Teller<W>) -> Option<Design> {
    let netlist = teller.told("bench_text::read", read(alloc, b"INPUT(a)\ny = NOT(a)\n"))?;
    let design = Design::build(alloc, netlist, b"", b"0 a 0\n3 a 1\n", 1, 10);
    teller.told("Design::build", design)
}
