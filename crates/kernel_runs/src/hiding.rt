//! The nets that a dump doesn't show.
ghost use Rattle.std.specs.Prelude.{◌<◌, All, IfOk};
ghost use Rattle.kernel_runs.specs.Drained.{IsRest};

use prepared_runs::marks_of;
use std::alloc::{AllocError, Global};

/// Returns the numbers of those of this number of nets that aren't among the shown ones, in rising order.
pub(crate) fn hidden_nets(alloc: Global, nets: u32, shown: &[u32]) -> Result<Vec<u32>, AllocError>
    requires { All (λ net. net < nets) shown.now }
    ensures { IfOk result (λ hidden. IsRest nets shown.now hidden.items) }
{
    let marks = marks_of(alloc, nets, shown)?;
    let mut hidden = Vec::new(alloc);
    for net in 0..nets {
        if !marks[net as usize] {
            hidden.push(net)?;
        }
    }
    Ok(hidden)
}
