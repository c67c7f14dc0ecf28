//! The longest paths of values through gates, in ticks.
ghost use Rattle.std.specs.Prelude.{◌≡◌, ℕ, ◌+◌, ◌*◌, ◌<◌, ◌≤◌, length, map, slice_index_or, All, IfNone, IfOk, IfSome};
ghost use Rattle.std.specs.List.{range_with_len};
ghost use Rattle.netlist.specs.Netlist.{most_nets};
ghost use Rattle.design.specs.Design.{IsDesign};
ghost use Rattle.circuit_info.specs.Levels.{level_at, pins_at, IsLevelling};
ghost use Rattle.circuit_info.specs.Paths.{delay_at, last_seen, longest_to, wires_at, AreLongest, HasLoop, HasNoLoop};

use crate::levels::{Depths, levels_of};
use design::Design;
use netlist::gate_order;
use std::alloc::{AllocError, Global};

/// Returns for each net how many ticks the longest path to it takes, in order; `None` if gates form a loop.
///
/// A path begins at an input or a flip-flop and continues over gates, each with the net before it at a pin. It takes
/// the sum of the delays of its nets and of the wires between them.
///
/// Takes time and memory in proportion to the nets and pins.
///
/// # Errors
/// `AllocError` if an allocation fails.
pub fn longest_paths(alloc: Global, design: &Design) -> Result<Option<Vec<u64>>, AllocError>
    ensures longest { IfOk result (λ found. IfSome found (λ ticks. AreLongest design.now ticks.items)) }
    ensures levels { IfOk result (λ found. IfSome found (λ ticks. HasNoLoop design.now.netlist)) }
    ensures none { IfOk result (λ found. IfNone found (HasLoop design.now.netlist)) }
{
    match levels_of(alloc, design.netlist())? {
        Depths::Levels(levels) => Ok(Some(longest_by_levels(alloc, design, levels.as_slice())?)),
        Depths::Loop(_) => Ok(None),
    }
}

/// Returns for each net how many ticks the longest path to it takes, given that nets have levels.
fn longest_by_levels(alloc: Global, design: &Design, levels: &[u32]) -> Result<Vec<u64>, AllocError>
    requires levels { IsLevelling design.now.netlist levels.now }
    requires few { (net : ℕ) → level_at levels.now net ≤ length design.now.netlist.nets }
    ensures { IfOk result (λ ticks. AreLongest design.now ticks.items) }
{
    let gates = gate_order(alloc, design.netlist())?;
    let mut ticks = delays(alloc, design)?;
    for gate in &gates {
        ticks[*gate as usize] = gate_ticks(design, ticks.as_slice(), *gate);
    }
    Ok(ticks)
}

/// Returns the delay of each net.
fn delays(alloc: Global, design: &Design) -> Result<Vec<u64>, AllocError>
    ensures delays { IfOk result (λ delays.
        delays.items ≡ map (delay_at design.now) (range_with_len 0 (length design.now.circuit))) }
    ensures formed { IsDesign design.now }
{
    let mut delays = Vec::new(alloc);
    for net in 0..design.nets() {
        delays.push(design.delay(net))?;
    }
    Ok(delays)
}

/// Returns how many ticks the longest path to the pins of a net takes, with the wire of its last pin, given the ticks of
/// the longest path to each net. For a net without pins that is 0.
pub fn ticks_to_pins(design: &Design, ticks: &[u64], net: u32) -> u64
    requires formed { IsDesign design.now }
    requires longest { AreLongest design.now ticks.now }
    requires net { net < length design.now.netlist.nets }
    ensures { result ≡ last_seen (longest_to design.now) (pins_at design.now.netlist net) (wires_at design.now net) }
{
    pin_ticks(design, ticks, net)
}

/// Returns how many ticks the longest path to a gate takes, given those of the nets at its pins.
fn gate_ticks(design: &Design, ticks: &[u64], gate: u32) -> u64
    requires formed { IsDesign design.now }
    requires gate { gate < length design.now.netlist.nets }
    requires size { length ticks.now ≡ length design.now.netlist.nets }
    requires few { (net : ℕ) → slice_index_or ticks.now net 0 ≤ 2_000_000 * (most_nets + 1) }
    ensures { result ≡ last_seen (λ net. slice_index_or ticks.now net 0)
        (pins_at design.now.netlist gate) (wires_at design.now gate) + delay_at design.now gate }
{
    pin_ticks(design, ticks, gate) + design.delay(gate)
}

/// Returns the last tick at which a pin of a net sees what its source shows at the tick given for it.
fn pin_ticks(design: &Design, ticks: &[u64], net: u32) -> u64
    requires formed { IsDesign design.now }
    requires net { net < length design.now.netlist.nets }
    requires size { length ticks.now ≡ length design.now.netlist.nets }
    requires few { (net : ℕ) → slice_index_or ticks.now net 0 ≤ 2_000_000 * (most_nets + 1) }
    ensures last { result ≡ last_seen (λ net. slice_index_or ticks.now net 0)
        (pins_at design.now.netlist net) (wires_at design.now net) }
    ensures few { result ≤ 2_000_000 * (most_nets + 1) + 1_000_000 }
{
    last_seen(ticks, design.netlist().pins_of(net), design.wires_of(net))
}

/// Returns the last tick at which one of these pins, each with its wire delay, sees what its source shows at the tick
/// given for it.
fn last_seen(ticks: &[u64], pins: &[u32], wires: &[u32]) -> u64
    requires pins { All (λ pin. pin < length ticks.now) pins.now }
    requires wires { length wires.now ≡ length pins.now }
    requires short { All (λ wire. wire ≤ 1_000_000) wires.now }
    requires few { (net : ℕ) → slice_index_or ticks.now net 0 ≤ 2_000_000 * (most_nets + 1) }
    ensures last { result ≡ last_seen (λ net. slice_index_or ticks.now net 0) pins.now wires.now }
    ensures few { result ≤ 2_000_000 * (most_nets + 1) + 1_000_000 }
{
    let mut last = 0;
    for place in 0..pins.len() {
        let seen = seen_at(ticks, pins, wires, place);
        if seen > last {
            last = seen;
        }
    }
    last
}

/// Returns the tick at which the pin at a place, with its wire delay, sees what its source shows at the tick given for
/// it.
pub(crate) fn seen_at(ticks: &[u64], pins: &[u32], wires: &[u32], place: usize) -> u64
    requires pins { All (λ pin. pin < length ticks.now) pins.now }
    requires wires { length wires.now ≡ length pins.now }
    requires short { All (λ wire. wire ≤ 1_000_000) wires.now }
    requires few { (net : ℕ) → slice_index_or ticks.now net 0 ≤ 2_000_000 * (most_nets + 1) }
    requires place { place < length pins.now }
    ensures seen { result ≡ slice_index_or ticks.now (slice_index_or pins.now place 0) 0
        + slice_index_or wires.now place 0 }
    ensures few { result ≤ 2_000_000 * (most_nets + 1) + 1_000_000 }
{
    ticks[pins[place] as usize] + u64::from(wires[place])
}
