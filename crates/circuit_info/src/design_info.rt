//! The description of a design.
ghost use Rattle.std.specs.Prelude.{IfOk};
ghost use Rattle.circuit_info.specs.InfoText.{IsInfoOf};

use crate::path_lines::path_text;
use crate::text::info_text;
use design::Design;
use fanin_cone::outside;
use std::alloc::{AllocError, Global};

/// Returns the description of a design: that of its netlist, as [`info_text`] writes it, and then the lines of its
/// longest paths, as [`path_text`] writes them. Unobserved are the nets outside the fan-in cones of all outputs.
///
/// # Errors
/// `AllocError` if an allocation fails.
pub fn info(alloc: Global, design: &Design) -> Result<Vec<u8>, AllocError>
    ensures { IfOk result (λ text. IsInfoOf design.now text.items) }
{
    let netlist = design.netlist();
    let unobserved = outside(alloc, netlist, netlist.outputs())?;
    let mut text = info_text(alloc, netlist, unobserved.as_slice())?;
    let paths = path_text(alloc, design)?;
    text.extend_from_slice(paths.as_slice())?;
    Ok(text)
}
