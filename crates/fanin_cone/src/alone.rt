//! The nets of some cones as a design of their own.
ghost use Rattle.std.specs.Prelude.{◌≡◌, ◌≢◌, ℕ, ◌<◌, ◌↔◌, length, map, All, AllPairs, IfOk, IfSome, IsNone};
ghost use Rattle.std.specs.List.{list_all};
ghost use Rattle.netlist.specs.Netlist.{name_at};
ghost use Rattle.fanin_cone.specs.Cone.{ConeHasAll};
ghost use Rattle.fanin_cone.specs.Extract.{IsDesignOfCones};

use crate::cones::{marked_cone, marked_nets};
use design::Design;
use std::alloc::{AllocError, Global};

/// Returns the nets in the fan-in cones of these nets as a design of their own, in their old order and
/// with their timing, wire delays and stimuli. Its outputs are these nets, in this order. Returns
/// `None` if all nets are in the cones, so that none can be left out.
///
/// There is at least one of these nets, and none is listed twice.
///
/// Takes time and memory in proportion to the nets and pins, and to the stimuli of the nets that are
/// kept.
///
/// # Errors
/// `AllocError` if an allocation fails.
pub fn cones_alone(
    alloc: Global,
    design: &Design,
    nets: &[u32],
) -> Result<Option<Design>, AllocError>
    requires some { 0 < length nets.now }
    requires nets { All (λ net. net < length design.now.netlist.nets) nets.now }
    requires once { AllPairs (λ (earlier later : ℕ). earlier ≢ later) nets.now }
    ensures alone { IfOk result (λ part. IfSome part (IsDesignOfCones design.now nets.now)) }
    ensures all { IfOk result (λ part. IsNone part ↔
        ConeHasAll design.now.netlist (map (name_at design.now.netlist) nets.now)) }
{
    prove!(0 < design.nets());
    let marks = marked_cone(alloc, design.netlist(), nets)?;
    if are_all(marks.as_slice()) {
        return Ok(None);
    }
    let keep = marked_nets(alloc, marks.as_slice())?;
    let part = design.pick(alloc, keep.as_slice(), nets)?;
    prove!(0 < part.nets());
    Ok(Some(part))
}

/// Returns whether all nets are marked.
fn are_all(marks: &[bool]) -> bool
    ensures { result ≡ list_all (λ mark. mark) marks.now }
{
    marks.iter().all(|mark| *mark)
}
