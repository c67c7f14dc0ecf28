//! The loop of gates that is named if some nets have no level.
ghost use Rattle.std.specs.Prelude.{◌≡◌, ℕ, ◌<◌, length, slice_index_or, Contains, IfNone, IfOk, IfSome};
ghost use Rattle.netlist.specs.Netlist.{IsNetlist};
ghost use Rattle.circuit_info.specs.Loops.{HasLevel, IsLeastWithout, IsNamedLoop, LeadsOn};
ghost use Rattle.circuit_info.specs.Known.{IsRestFrom, KnowsLevels};

use crate::known::{first_unknown, is_known};
use netlist::Netlist;
use std::alloc::{AllocError, Global};

/// Returns the least net without a level; `None` if each net has one.
pub(crate) fn least_without(netlist: &Netlist, levels: &[u32]) -> Option<u32>
    requires { KnowsLevels netlist.now levels.now }
    ensures least { IfSome result (IsLeastWithout netlist.now) }
    ensures none { IfNone result ((net : ℕ) → HasLevel netlist.now net) }
{
    for net in 0..netlist.nets() {
        if !is_known(netlist, net, levels) {
            return Some(net);
        }
    }
    None
}

/// Returns the loop that the walk from the least net without a level reaches.
pub(crate) fn named_loop(
    alloc: Global,
    netlist: &Netlist,
    levels: &[u32],
    start: u32,
) -> Result<Vec<u32>, AllocError>
    requires levels { KnowsLevels netlist.now levels.now }
    requires least { IsLeastWithout netlist.now start }
    ensures { IfOk result (λ nets. IsNamedLoop netlist.now nets.items) }
{
    let mut passed = vec![in alloc; false; netlist.nets() as usize]?;
    let mut way = Vec::new(alloc);
    let mut net = start;
    while !passed[net as usize] {
        passed[net as usize] = true;
        way.push(net)?;
        net = next(netlist, levels, net);
    }
    rest_from(alloc, way.as_slice(), net)
}

/// Returns the net at the first pin without a level, of a net without one.
fn next(netlist: &Netlist, levels: &[u32], net: u32) -> u32
    requires formed { IsNetlist netlist.now }
    requires levels { KnowsLevels netlist.now levels.now }
    requires without { HasLevel netlist.now net → ⊥ }
    ensures { LeadsOn netlist.now net result }
{
    let pins = netlist.pins_of(net);
    let place = first_unknown(netlist, pins, levels);
    prove!(place < pins.len());
    pins[place]
}

/// Returns the nets of a way from this one on, in order.
fn rest_from(alloc: Global, way: &[u32], net: u32) -> Result<Vec<u32>, AllocError>
    requires { Contains way.now net }
    ensures { IfOk result (λ nets. IsRestFrom way.now net nets.items) }
{
    let mut nets = Vec::new(alloc);
    nets.extend_from_slice(&way[place_of(way, net)..])?;
    Ok(nets)
}

/// Returns the first place of a net on a way.
fn place_of(way: &[u32], net: u32) -> usize
    requires { Contains way.now net }
    ensures within { result < length way.now }
    ensures is { slice_index_or way.now result 0 ≡ net }
{
    let mut place = 0;
    while way[place] != net {
        place += 1;
    }
    place
}
