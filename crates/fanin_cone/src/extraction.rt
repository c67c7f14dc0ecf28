//! The nets of some cones as a netlist of their own.
ghost use Rattle.std.specs.Prelude.{◌≡◌, ◌≢◌, ℕ, ◌<◌, ◌↔◌, length, map, IfOk, Some};
ghost use Rattle.netlist.specs.Netlist.{net_named};
ghost use Rattle.netlist.specs.Names.{seen_names};
ghost use Rattle.fanin_cone.specs.Extract.{first_unknown, IsExtract};

use crate::cones::cone_of;
use crate::fault::ConeFault;
use netlist::{Netlist, without_repeats};
use std::alloc::Global;

/// Returns the nets in the fan-in cones of the nets with these names, in their old order, as a
/// netlist of their own. Its outputs are the nets with these names, in the order of their first
/// places.
///
/// There is at least one name.
///
/// # Errors
/// [`ConeFault::UnknownNet`] with the place of the first name that no net has, or
/// [`ConeFault::Memory`] if an allocation fails.
pub fn extract(alloc: Global, netlist: &Netlist, names: &[&[u8]]) -> Result<Netlist, ConeFault>
    requires { 0 < length names.now }
    ensures unknown { result ≢ Err ConeFault.Memory → (at : ℕ) →
        (result ≡ Err (ConeFault.UnknownNet at)) ↔ (first_unknown netlist.now (seen_names names.now) ≡ Some at) }
    ensures extracted { IfOk result (IsExtract netlist.now (seen_names names.now)) }
{
    let numbers = net_numbers(alloc, netlist, names)?;
    let keep = cone_of(alloc, netlist, numbers.as_slice())?;
    let outputs = without_repeats(alloc, numbers.as_slice(), netlist.nets() as usize)?;
    let extract = netlist.pick(alloc, keep.as_slice(), outputs.as_slice())?;
    Ok(extract)
}

/// Returns the numbers of the nets with these names, in their order and with repeats.
///
/// # Errors
/// As [`extract`].
pub fn net_numbers(alloc: Global, netlist: &Netlist, names: &[&[u8]]) -> Result<Vec<u32>, ConeFault>
    ensures unknown { (at : ℕ) →
        result ≡ Err (ConeFault.UnknownNet at) → first_unknown netlist.now (seen_names names.now) ≡ Some at }
    ensures known { IfOk result
        (λ numbers. map (net_named netlist.now) (seen_names names.now) ≡ map Some numbers.items) }
{
    let mut numbers = Vec::new(alloc);
    for (at, name) in names.iter().enumerate() {
        let Some(net) = netlist.find(name) else {
            return Err(ConeFault::UnknownNet { at: at as u64 });
        };
        numbers.push(net)?;
    }
    Ok(numbers)
}
