//! The order in which values flow through a design.
ghost use Rattle.std.specs.Prelude.{◌≡◌, ◌≢◌, ℕ, ◌<◌, ◌≤◌, ◌++◌, false, length, All, AllPairs, Contains, IfOk, OnOk};
ghost use Rattle.netlist.specs.Part.{is_gate};
ghost use Rattle.design.specs.Design.{IsDesign};
ghost use Rattle.design.specs.Flow.{nets_of_rank, rank, rank_at, FollowsFlow};

use crate::design::Design;
use netlist::{Part, gate_order};
use std::alloc::{AllocError, Global};

/// Returns all nets, each once, in the order in which values flow: inputs, gates, flip-flops.
///
/// Each gate comes after each gate at its pins, unless values also flow back from it to that gate,
/// through gates alone, so that the two are in a loop.
///
/// Takes time and memory in proportion to the nets and pins.
///
/// # Errors
/// `AllocError` if an allocation fails.
pub fn flow_order(alloc: Global, design: &Design) -> Result<Vec<u32>, AllocError>
    ensures within { IfOk result (λ order. All (λ net. net < length design.now.circuit) order.items) }
    ensures once { IfOk result (λ order. AllPairs (λ (earlier later : ℕ). earlier ≢ later) order.items) }
    ensures all { IfOk result (λ order. (net : ℕ) → net < length design.now.circuit → Contains order.items net) }
    ensures parts { IfOk result (λ order. AllPairs
        (λ (earlier later : ℕ). rank_at design.now.circuit earlier ≤ rank_at design.now.circuit later) order.items) }
    ensures behind { IfOk result (λ order. FollowsFlow design.now.circuit order.items) }
{
    let gates = gate_order(alloc, design.netlist())?;
    let order = with_gates(alloc, design, gates.as_slice())?;
    Ok(order)
}

/// Returns the inputs, these gates, and the flip-flops.
fn with_gates(alloc: Global, design: &Design, gates: &[u32]) -> Result<Vec<u32>, AllocError>
    ensures nets { IfOk result (λ order. order.items
        ≡ nets_of_rank design.now.circuit 0 ++ gates.now ++ nets_of_rank design.now.circuit 2) }
    ensures formed { IsDesign design.now }
{
    let mut order = Vec::new(alloc);
    list_nets(design, Part::Input, &mut order)?;
    order.extend_from_slice(gates)?;
    list_nets(design, Part::Flop, &mut order)?;
    Ok(order)
}

/// Adds the nets that this part drives, an input or a flip-flop, at the end of the list.
fn list_nets(design: &Design, part: Part, list: &mut Vec<u32>) -> Result<(), AllocError>
    requires { is_gate part ≡ false }
    ensures nets { OnOk result (list.new.items ≡ list.old.items ++ nets_of_rank design.now.circuit (rank part)) }
    ensures formed { IsDesign design.now }
{
    for net in 0..design.nets() {
        if design.part(net) == part {
            list.push(net)?;
        }
    }
    Ok(())
}
