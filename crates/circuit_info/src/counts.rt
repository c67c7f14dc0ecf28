//! Counts of a netlist's nets and pins.
ghost use Rattle.std.specs.Prelude.{◌≡◌, ◌<◌, length, IfOk};
ghost use Rattle.circuit_info.specs.Counts.{fan_ins, gate_count, part_count, IsFanOuts, IsFirstGreatest};

use netlist::{Netlist, Part};
use std::alloc::{AllocError, Global};

/// Returns the number of nets that this part drives: 0 to 100,000.
pub fn part_count(netlist: &Netlist, part: Part) -> u32
    ensures { result ≡ part_count netlist.now part }
{
    let mut count = 0;
    for net in 0..netlist.nets() {
        if netlist.part(net) == part {
            count += 1;
        }
    }
    count
}

/// Returns the number of nets that gates drive: 0 to 100,000.
pub fn gate_count(netlist: &Netlist) -> u32
    ensures { result ≡ gate_count netlist.now }
{
    let mut gates = 0;
    for net in 0..netlist.nets() {
        if netlist.part(net).is_gate() {
            gates += 1;
        }
    }
    gates
}

/// Returns the number of pins of each net, in order.
///
/// # Errors
/// `AllocError` if an allocation fails.
pub fn fan_ins(alloc: Global, netlist: &Netlist) -> Result<Vec<usize>, AllocError>
    ensures { IfOk result (λ counts. counts.items ≡ fan_ins netlist.now) }
{
    let mut counts = Vec::new(alloc);
    for net in 0..netlist.nets() {
        counts.push(netlist.pins_of(net).len())?;
    }
    Ok(counts)
}

/// Returns the number of pins that each net feeds, in order. Two pins of one gate count twice.
///
/// Takes time and memory in proportion to the nets and pins.
///
/// # Errors
/// `AllocError` if an allocation fails.
pub fn fan_outs(alloc: Global, netlist: &Netlist) -> Result<Vec<usize>, AllocError>
    ensures { IfOk result (λ counts. IsFanOuts netlist.now counts.items) }
{
    let pins = netlist.all_pins(alloc)?;
    let mut counts = vec![in alloc; 0; netlist.nets() as usize]?;
    for pin in &pins {
        counts[*pin as usize] += 1;
    }
    Ok(counts)
}

/// Returns the first place of the greatest of these numbers. There is at least one.
pub fn first_greatest(numbers: &[usize]) -> usize
    requires { 0 < length numbers.now }
    ensures { IsFirstGreatest numbers.now result }
{
    let mut greatest = 0;
    for place in 1..numbers.len() {
        if numbers[place] > numbers[greatest] {
            greatest = place;
        }
    }
    greatest
}
