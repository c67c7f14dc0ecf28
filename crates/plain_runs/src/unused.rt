//! Inputs that nothing uses, such as a clock of a circuit whose flip-flops have implicit clocks.
ghost use Rattle.std.specs.Prelude.{◌≡◌, ◌<◌, length, All, IfOk};
ghost use Rattle.plain_runs.specs.Unused.{has_flops, is_unused_input, unused_inputs, uses, AreMarks};

use netlist::Netlist;
use std::alloc::{AllocError, Global};

/// Returns the numbers of the inputs that no gate or flip-flop has at a pin and that are no output, in rising order.
///
/// Takes time and memory in proportion to the nets and pins.
pub(crate) fn unused_inputs(alloc: Global, netlist: &Netlist) -> Result<Vec<u32>, AllocError>
    ensures { IfOk result (λ nets. nets.items ≡ unused_inputs netlist.now) }
{
    let used = used_nets(alloc, netlist)?;
    let mut nets = Vec::new(alloc);
    for net in 0..netlist.nets() {
        if is_unused_input(netlist, used.as_slice(), net) {
            nets.push(net)?;
        }
    }
    Ok(nets)
}

/// Returns whether a net is an input that nothing uses, given which nets are used.
fn is_unused_input(netlist: &Netlist, used: &[bool], net: u32) -> bool
    requires net { net < length netlist.now.nets }
    requires used { AreMarks (length netlist.now.nets) (uses netlist.now) used.now }
    ensures { result ≡ is_unused_input netlist.now net }
{
    netlist.part(net).is_input() && !used[net as usize]
}

/// Returns whether some net is a flip-flop.
pub(crate) fn has_flops(netlist: &Netlist) -> bool
    ensures { result ≡ has_flops netlist.now }
{
    for net in 0..netlist.nets() {
        if netlist.part(net).is_flop() {
            return true;
        }
    }
    false
}

/// Returns for each net whether it is at a pin or an output.
fn used_nets(alloc: Global, netlist: &Netlist) -> Result<Vec<bool>, AllocError>
    ensures { IfOk result (λ used. AreMarks (length netlist.now.nets) (uses netlist.now) used.items) }
{
    let mut used = netlist.all_pins(alloc)?;
    used.extend_from_slice(netlist.outputs())?;
    marked(alloc, netlist.nets(), used.as_slice())
}

/// Returns for each of so many nets whether it is in a list.
fn marked(alloc: Global, nets: u32, numbers: &[u32]) -> Result<Vec<bool>, AllocError>
    requires { All (λ number. number < nets) numbers.now }
    ensures { IfOk result (λ marks. AreMarks nets numbers.now marks.items) }
{
    let mut marks = vec![in alloc; false; nets as usize]?;
    for number in numbers {
        marks[*number as usize] = true;
    }
    Ok(marks)
}
