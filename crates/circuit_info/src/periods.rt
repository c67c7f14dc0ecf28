//! Flip-flops whose period is too short for the longest path to their pin.
ghost use Rattle.std.specs.Prelude.{◌≡◌, ◌<◌, filter, length, IfOk};
ghost use Rattle.std.specs.List.{range_with_len};
ghost use Rattle.design.specs.Design.{IsDesign};
ghost use Rattle.circuit_info.specs.Periods.{is_late, late_flops};
ghost use Rattle.circuit_info.specs.Paths.{AreLongest};

use crate::paths::{longest_paths, ticks_to_pins};
use design::Design;
use std::alloc::{AllocError, Global};

/// Returns the numbers of the flip-flops whose period has fewer ticks than the longest path to their pin, in rising
/// order. What sets out on such a path at a sample isn't at its end one period later. There are none if gates form a
/// loop.
///
/// Takes time and memory in proportion to the nets and pins.
///
/// # Errors
/// `AllocError` if an allocation fails.
pub fn late_flops(alloc: Global, design: &Design) -> Result<Vec<u32>, AllocError>
    ensures { IfOk result (λ flops. flops.items ≡ late_flops design.now) }
{
    prove!(design.nets() > 0);
    match longest_paths(alloc, design)? {
        Some(ticks) => late_by_ticks(alloc, design, ticks.as_slice()),
        None => Ok(Vec::new(alloc)),
    }
}

/// Returns the numbers of these flip-flops, given the ticks of the longest path to each net.
fn late_by_ticks(alloc: Global, design: &Design, ticks: &[u64]) -> Result<Vec<u32>, AllocError>
    requires formed { IsDesign design.now }
    requires longest { AreLongest design.now ticks.now }
    ensures { IfOk result (λ flops. flops.items
        ≡ filter (is_late design.now) (range_with_len 0 (length design.now.netlist.nets))) }
{
    let mut flops = Vec::new(alloc);
    for net in 0..design.netlist().nets() {
        if is_late(design, ticks, net) {
            flops.push(net)?;
        }
    }
    Ok(flops)
}

/// Returns whether a net is such a flip-flop, given the ticks of the longest path to each net.
fn is_late(design: &Design, ticks: &[u64], net: u32) -> bool
    requires formed { IsDesign design.now }
    requires longest { AreLongest design.now ticks.now }
    requires net { net < length design.now.netlist.nets }
    ensures { result ≡ is_late design.now net }
{
    design.netlist().part(net).is_flop() && design.period(net) < ticks_to_pins(design, ticks, net)
}
