//! The nets of the longest paths.
ghost use Rattle.std.specs.Prelude.{◌≡◌, ℕ, ◌+◌, ◌*◌, ◌<◌, ◌≤◌, length, slice_index_or, All, Contains, IfOk};
ghost use Rattle.netlist.specs.Netlist.{most_nets};
ghost use Rattle.design.specs.Design.{IsDesign};
ghost use Rattle.circuit_info.specs.Counts.{IsFirstGreatest};
ghost use Rattle.circuit_info.specs.Levels.{pins_at};
ghost use Rattle.circuit_info.specs.Paths.{AreLongest, HasNoLoop};
ghost use Rattle.circuit_info.specs.PathText.{ends, seen, EndsAt, IsLatestSource, IsLongestPath};

use crate::path_lines::End;
use crate::paths::seen_at;
use design::Design;
use std::alloc::{AllocError, Global};

/// Returns the nets of the longest path to an end.
pub(crate) fn path_to_end(
    alloc: Global,
    design: &Design,
    ticks: &[u64],
    end: End,
    net: u32,
) -> Result<Vec<u32>, AllocError>
    requires formed { IsDesign design.now }
    requires flat { HasNoLoop design.now.netlist }
    requires longest { AreLongest design.now ticks.now }
    requires net { Contains (ends design.now.netlist end) net }
    ensures { IfOk result (λ path. EndsAt design.now end net path.items) }
{
    match end {
        End::Flop => {
            let source = latest_source(design, ticks, net);
            let mut path = path_to(alloc, design, ticks, source)?;
            path.push(net)?;
            Ok(path)
        }
        End::Output => path_to(alloc, design, ticks, net),
    }
}

/// Returns the nets of the longest path to a net.
fn path_to(alloc: Global, design: &Design, ticks: &[u64], end: u32) -> Result<Vec<u32>, AllocError>
    requires formed { IsDesign design.now }
    requires flat { HasNoLoop design.now.netlist }
    requires longest { AreLongest design.now ticks.now }
    requires end { end < length design.now.netlist.nets }
    ensures { IfOk result (λ path. IsLongestPath design.now end path.items) }
{
    let mut path = Vec::new(alloc);
    let mut net = end;
    while design.netlist().part(net).is_gate() {
        path.push(net)?;
        net = latest_source(design, ticks, net);
    }
    path.push(net)?;
    path.reverse();
    Ok(path)
}

/// Returns the net at the pin of a gate or a flip-flop over which its longest path comes.
fn latest_source(design: &Design, ticks: &[u64], net: u32) -> u32
    requires formed { IsDesign design.now }
    requires longest { AreLongest design.now ticks.now }
    requires net { net < length design.now.netlist.nets }
    requires pins { 0 < length (pins_at design.now.netlist net) }
    ensures latest { IsLatestSource design.now net result }
    ensures within { result < length design.now.netlist.nets }
{
    let pins = design.netlist().pins_of(net);
    pins[latest(ticks, pins, design.wires_of(net))]
}

/// Returns the first place of a pin that sees its source's value last, given the ticks at which nets show theirs.
fn latest(ticks: &[u64], pins: &[u32], wires: &[u32]) -> usize
    requires pins { All (λ pin. pin < length ticks.now) pins.now }
    requires some { 0 < length pins.now }
    requires wires { length wires.now ≡ length pins.now }
    requires short { All (λ wire. wire ≤ 1_000_000) wires.now }
    requires few { (net : ℕ) → slice_index_or ticks.now net 0 ≤ 2_000_000 * (most_nets + 1) }
    ensures latest { IsFirstGreatest (seen (λ net. slice_index_or ticks.now net 0) pins.now wires.now) result }
    ensures within { result < length pins.now }
{
    let mut latest = 0;
    for place in 1..pins.len() {
        if seen_at(ticks, pins, wires, place) > seen_at(ticks, pins, wires, latest) {
            latest = place;
        }
    }
    latest
}
