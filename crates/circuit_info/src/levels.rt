//! The levels of gates, and the loop that is named if some gates have no level.
//!
//! One pass goes over the gates in the order in which values flow, and gives a gate its level if it knows those of all
//! its pins. Otherwise the gate has none: a pin whose level isn't known by then has none, or is in a loop with the gate.
ghost use Rattle.std.specs.Prelude.{◌≡◌, ℕ, ◌+◌, ◌<◌, ◌≤◌, length, map, All, IfOk};
ghost use Rattle.netlist.specs.Netlist.{most_nets};
ghost use Rattle.circuit_info.specs.Levels.{greatest, level_at};
ghost use Rattle.circuit_info.specs.Loops.{HasFewLevels, IsDepths};
ghost use Rattle.circuit_info.specs.Known.{KnowsLevels};

use crate::known::first_unknown;
use crate::loops::{least_without, named_loop};
use netlist::{Netlist, gate_order};
use std::alloc::{AllocError, Global};

/// The levels of nets, or a loop of gates.
#[derive(Debug, Drop)]
pub enum Depths {
    /// The level of each net, in order: 0 for inputs and flip-flops, and for a gate one more than the highest level of
    /// the nets at its pins.
    Levels(Vec<u32>),
    /// The numbers of gates that form a loop, each once: each has the next one at a pin, and the last one the first. If
    /// there are several loops, it is the one that this walk reaches: start at the least net without a level, go each
    /// time to the net at the first pin without one, and stop when a net repeats. The loop begins at that net.
    Loop(Vec<u32>),
}

/// Returns the levels of a netlist's nets, or the named loop of its gates. A loop contains no flip-flop.
///
/// Takes time and memory in proportion to the nets and pins.
///
/// # Errors
/// `AllocError` if an allocation fails.
pub fn levels_of(alloc: Global, netlist: &Netlist) -> Result<Depths, AllocError>
    ensures depths { IfOk result (IsDepths netlist.now) }
    ensures few { IfOk result (HasFewLevels netlist.now) }
{
    let levels = known_levels(alloc, netlist)?;
    match least_without(netlist, levels.as_slice()) {
        Some(net) => {
            let nets = named_loop(alloc, netlist, levels.as_slice(), net)?;
            Ok(Depths::Loop(nets))
        }
        None => Ok(Depths::Levels(levels)),
    }
}

/// Returns the level of each net that has one, and 0 for the others.
fn known_levels(alloc: Global, netlist: &Netlist) -> Result<Vec<u32>, AllocError>
    ensures known { IfOk result (λ levels. KnowsLevels netlist.now levels.items) }
    ensures few { IfOk result (λ levels. (net : ℕ) → level_at levels.items net ≤ length netlist.now.nets) }
{
    let gates = gate_order(alloc, netlist)?;
    let mut levels = vec![in alloc; 0; netlist.nets() as usize]?;
    for gate in &gates {
        let pins = netlist.pins_of(*gate);
        if first_unknown(netlist, pins, levels.as_slice()) >= pins.len() {
            levels[*gate as usize] = level_above(pins, levels.as_slice());
        }
    }
    Ok(levels)
}

/// Returns one more than the greatest level of these pins.
fn level_above(pins: &[u32], levels: &[u32]) -> u32
    requires pins { All (λ pin. pin < length levels.now) pins.now }
    requires few { (net : ℕ) → level_at levels.now net ≤ most_nets }
    ensures { result ≡ greatest (map (level_at levels.now) pins.now) + 1 }
{
    let mut top = 0;
    for pin in pins {
        let level = levels[*pin as usize];
        if level > top {
            top = level;
        }
    }
    top + 1
}

/// Returns the greatest of these numbers; 0 if there are none.
pub fn greatest(numbers: &[u32]) -> u32
    ensures { result ≡ greatest numbers.now }
{
    let mut top = 0;
    for number in numbers {
        if *number > top {
            top = *number;
        }
    }
    top
}
