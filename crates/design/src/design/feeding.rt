//! The pins that nets feed.
ghost use Rattle.std.specs.Prelude.{◌≡◌, ◌<◌, ◌≤◌, [], All, length, map, replicate, IfOk};
ghost use Rattle.netlist.specs.Netlist.{most_pins};
ghost use Rattle.design.specs.Pins.{all_fed};

use flat_lists::FlatLists;
use smallvec::SmallVec;
use std::alloc::{AllocError, Global};

// Most nets feed at most this number of pins, which then need no allocation.
const FEW: usize = 4;

/// Returns the pins that each of `nets` nets feeds, in rising order, given the net that feeds each
/// pin.
pub(super) fn fed_pins(
    alloc: Global,
    nets: u32,
    sources: &[u32],
) -> Result<FlatLists<u32>, AllocError>
    requires exist { All (λ source. source < nets) sources.now }
    requires few { length sources.now ≤ most_pins }
    ensures { IfOk result (λ fed. fed ≡ all_fed nets sources.now) }
{
    let mut fed = no_pins(alloc, nets)?;
    for (pin, source) in sources.iter().enumerate() {
        fed[*source as usize].push(pin as u32)?;
    }
    FlatLists::of_lists(alloc, fed.as_slice())
}

/// Returns an empty list of pins for each of `nets` nets.
fn no_pins(alloc: Global, nets: u32) -> Result<Vec<SmallVec<u32, FEW>>, AllocError>
    ensures { IfOk result (λ fed. map (λ v. v.items) fed.items ≡ replicate nets []) }
{
    let mut fed = Vec::with_capacity(alloc, nets as usize)?;
    for _net in 0..nets {
        fed.push(SmallVec::new(alloc))?;
    }
    Ok(fed)
}
