//! The pins that nets feed.
ghost use Rattle.std.specs.Prelude.{◌≡◌, length, IfOk};
ghost use Rattle.design.specs.Circuit.{IsCircuit};
ghost use Rattle.design.specs.Pins.{sources_of, all_fed};

use design::Design;
use flat_lists::FlatLists;
use std::alloc::{AllocError, Global};

/// Returns the pins that each net of the design feeds, in rising order.
pub fn fed_pins(alloc: Global, design: &Design) -> Result<FlatLists<u32>, AllocError>
    ensures fed { IfOk result (λ fed. fed ≡ all_fed (length design.now.circuit) (sources_of design.now.circuit)) }
    ensures circuit { IsCircuit design.now.circuit }
{
    let nets = design.nets();
    let mut fed = FlatLists::with_capacity(alloc, nets as usize, design.pins() as usize)?;
    for net in 0..nets {
        fed.push(design.pins_fed(net))?;
    }
    Ok(fed)
}
