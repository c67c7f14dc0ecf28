//! Whether two designs agree on the fan-in cone of each net.
ghost use Rattle.std.specs.Prelude.{length, IfOk};
ghost use Rattle.design.specs.Design.{IsDesign};
ghost use Rattle.fanin_cone.specs.AgreeingCones.{AreDiffering, MarksAgreeing};

use crate::agreement::agrees_at;
use crate::cones::flip;
use crate::dependents::marked_dependents;
use design::Design;
use std::alloc::{AllocError, Global};
use timing_text::Horizon;

/// Returns for each net of the first design whether the two designs agree, at ticks up to the horizon, on
/// the fan-in cone that the net has in the first one, as [`agree`](crate::agree) says for one net.
///
/// Each net is compared once, and the nets that depend on one that differs are found from there. So it
/// takes time in proportion to the nets and their pins, times the logarithm of the number of nets.
///
/// # Errors
/// `AllocError` if an allocation fails.
pub fn agreeing_cones(
    alloc: Global,
    first: &Design,
    second: &Design,
    horizon: Horizon,
) -> Result<Vec<bool>, AllocError>
    ensures { IfOk result (λ marks. MarksAgreeing first.now second.now horizon marks.items) }
{
    let differing = differing_nets(alloc, first, second, horizon)?;
    let mut marks = marked_dependents(alloc, first, differing.as_slice())?;
    flip(marks.as_mut_slice());
    Ok(marks)
}

/// Returns the numbers of the nets of the first design that the second has no net for which is the same
/// except for its number.
fn differing_nets(
    alloc: Global,
    first: &Design,
    second: &Design,
    horizon: Horizon,
) -> Result<Vec<u32>, AllocError>
    ensures differing { IfOk result
        (λ nets. AreDiffering first.now second.now horizon (length first.now.circuit) nets.items) }
    ensures well_formed { IsDesign first.now }
{
    prove!(0 < second.nets());
    let mut nets = Vec::new(alloc);
    for net in 0..first.nets() {
        if !agrees_at(first, net, second, horizon) {
            nets.push(net)?;
        }
    }
    Ok(nets)
}
