//! The walk from nets on to the nets that they feed.
ghost use Rattle.std.specs.Prelude.{◌≡◌, ◌<◌, length, All, IfOk, OnOk};
ghost use Rattle.fanin_cone.specs.Dependents.{fed_nets, MarksDependents};

use crate::cones::mark;
use design::Design;
use std::alloc::{AllocError, Global};

/// Returns which nets depend on some of these nets: those whose fan-in cones contain one of them.
pub(crate) fn marked_dependents(
    alloc: Global,
    design: &Design,
    starts: &[u32],
) -> Result<Vec<bool>, AllocError>
    requires { All (λ start. start < length design.now.circuit) starts.now }
    ensures { IfOk result (λ marks. MarksDependents design.now starts.now marks.items) }
{
    let mut marks = vec![in alloc; false; design.nets() as usize]?;
    let mut waiting = Vec::new(alloc);
    let mut fed = Vec::new(alloc);
    mark(starts, &mut marks, &mut waiting)?;
    while let Some(net) = waiting.pop() {
        list_fed(design, net, &mut fed)?;
        mark(fed.as_slice(), &mut marks, &mut waiting)?;
    }
    Ok(marks)
}

/// Fills a buffer with the numbers of the nets that a net feeds, one for each pin.
fn list_fed(design: &Design, net: u32, fed: &mut Vec<u32>) -> Result<(), AllocError>
    requires { net < length design.now.circuit }
    ensures fed { OnOk result (fed.new.items ≡ fed_nets design.now.circuit net) }
    ensures within { OnOk result (All (λ other. other < length design.now.circuit) fed.new.items) }
{
    fed.clear();
    for pin in design.pins_fed(net) {
        fed.push(design.pin_net(*pin))?;
    }
    Ok(())
}
