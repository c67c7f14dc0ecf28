//! The nets in fan-in cones, from a .bench text and as one.
ghost use Rattle.std.specs.Prelude.{◌≡◌, ◌≢◌, ◌<◌, length, Err};
ghost use Rattle.std.specs.Result.{result_map_both};
ghost use Rattle.texts.specs.Text.{longest_text};
ghost use Rattle.netlist.specs.Names.{seen_names};
ghost use Rattle.bench_text.specs.declared.fault.BenchFault.TheVariants.{TooLong};
ghost use Rattle.fanin_cone.specs.declared.fault.ConeTextFault.TheVariants.{Bench};
ghost use Rattle.fanin_cone.specs.ConeText.{IsConeAnswer, IsConeOfNetlist};

use crate::extraction::extract;
use crate::fault::ConeTextFault;
use bench_text::{BenchFault, read, write};
use netlist::Netlist;
use std::alloc::Global;

/// Returns the canonical .bench text of the nets in the fan-in cones of the nets of these names, in their old
/// order. Its outputs are the nets of these names, each at the first place of its name.
///
/// # Errors
/// [`ConeTextFault::Bench`] if the netlist is refused, if there is no name (`NoNets`), and if the text would be
/// too long (`TooLong`); [`ConeTextFault::UnknownNet`] if no net has one of the names.
pub fn cone_text(alloc: Global, bench: &[u8], names: &[&[u8]]) -> Result<Vec<u8>, ConeTextFault>
    ensures at_once { longest_text < length bench.now → result ≡ Err (Bench TooLong) }
    ensures cone { result ≢ Err ConeTextFault.Memory → IsConeAnswer bench.now (seen_names names.now)
        (result_map_both (λ text. text.items) (λ fault. fault) result) }
{
    let netlist = read(alloc, bench)?;
    if names.is_empty() {
        return Err(ConeTextFault::Bench(BenchFault::NoNets));
    }
    extract_text(alloc, &netlist, names)
}

/// Returns the text of the nets in the cones of at least one name.
fn extract_text(alloc: Global, netlist: &Netlist, names: &[&[u8]]) -> Result<Vec<u8>, ConeTextFault>
    requires { 0 < length (seen_names names.now) }
    ensures { result ≢ Err ConeTextFault.Memory → IsConeOfNetlist netlist.now (seen_names names.now)
        (result_map_both (λ text. text.items) (λ fault. fault) result) }
{
    let cones = extract(alloc, netlist, names)?;
    Ok(write(alloc, &cones)?)
}
