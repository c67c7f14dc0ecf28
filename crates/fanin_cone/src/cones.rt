//! The walk from nets back over their pins.
ghost use Rattle.std.specs.Prelude.{◌≡◌, ◌<◌, ◌≤◌, ◌^◌, ◌∷◌, [], length, map, not, All, IfOk, OnOk};
ghost use Rattle.netlist.specs.Netlist.{most_nets, name_at};
ghost use Rattle.fanin_cone.specs.Cone.{IsConeOf, IsOutsideOf};
ghost use Rattle.fanin_cone.specs.Walk.{Marks, MarksCone, NumbersMarked};

use design::Design;
use netlist::Netlist;
use std::alloc::{AllocError, Global};

/// Returns the numbers of the nets in a net's fan-in cone, rising.
///
/// The cone is the least set of nets that contains the net and, with each of its nets, the nets at
/// that net's pins, including those of flip-flops.
///
/// # Errors
/// `AllocError` if an allocation fails.
pub fn cone(alloc: Global, design: &Design, net: u32) -> Result<Vec<u32>, AllocError>
    requires { net < length design.now.circuit }
    ensures { IfOk result
        (λ cone. IsConeOf design.now.netlist (name_at design.now.netlist net ∷ []) cone.items) }
{
    prove!(net < design.nets());
    cone_of(alloc, design.netlist(), &[net])
}

/// Returns the numbers of the nets in the cone of these nets, rising.
pub(crate) fn cone_of(
    alloc: Global,
    netlist: &Netlist,
    starts: &[u32],
) -> Result<Vec<u32>, AllocError>
    requires { All (λ start. start < length netlist.now.nets) starts.now }
    ensures { IfOk result
        (λ cone. IsConeOf netlist.now (map (name_at netlist.now) starts.now) cone.items) }
{
    let marks = marked_cone(alloc, netlist, starts)?;
    marked_nets(alloc, marks.as_slice())
}

/// Returns the numbers of the nets outside the cone of these nets, rising: none of these depends on
/// them.
///
/// Takes time and memory in proportion to the nets and pins.
///
/// # Errors
/// `AllocError` if an allocation fails.
pub fn outside(alloc: Global, netlist: &Netlist, starts: &[u32]) -> Result<Vec<u32>, AllocError>
    requires { All (λ start. start < length netlist.now.nets) starts.now }
    ensures { IfOk result
        (λ nets. IsOutsideOf netlist.now (map (name_at netlist.now) starts.now) nets.items) }
{
    let mut marks = marked_cone(alloc, netlist, starts)?;
    flip(marks.as_mut_slice());
    marked_nets(alloc, marks.as_slice())
}

/// Inverts all marks.
pub(crate) fn flip(marks: &mut [bool])
    ensures { marks.new ≡ map not marks.old }
{
    for mark in marks.iter_mut() {
        *mark = !*mark;
    }
}

/// Returns which nets are in the cone of these nets.
pub(crate) fn marked_cone(
    alloc: Global,
    netlist: &Netlist,
    starts: &[u32],
) -> Result<Vec<bool>, AllocError>
    requires { All (λ start. start < length netlist.now.nets) starts.now }
    ensures few { IfOk result (λ marks. length marks.items ≤ most_nets) }
    ensures size { IfOk result (λ marks. length marks.items ≡ length netlist.now.nets) }
    ensures cone { IfOk result
        (λ marks. MarksCone netlist.now (map (name_at netlist.now) starts.now) marks.items) }
{
    let mut marks = vec![in alloc; false; netlist.nets() as usize]?;
    let mut waiting = Vec::new(alloc);
    mark(starts, &mut marks, &mut waiting)?;
    while let Some(net) = waiting.pop() {
        mark(netlist.pins_of(net), &mut marks, &mut waiting)?;
    }
    Ok(marks)
}

/// Marks these nets, and adds those that were not marked yet at the end of the list, each once.
pub(crate) fn mark(nets: &[u32], marks: &mut [bool], list: &mut Vec<u32>) -> Result<(), AllocError>
    requires { All (λ net. net < length marks.old) nets.now }
    ensures { OnOk result (Marks nets.now marks.old marks.new list.old.items list.new.items) }
{
    for net in nets {
        if !marks[*net as usize] {
            marks[*net as usize] = true;
            list.push(*net)?;
        }
    }
    Ok(())
}

/// Returns the numbers of the marked nets, rising.
pub(crate) fn marked_nets(alloc: Global, marks: &[bool]) -> Result<Vec<u32>, AllocError>
    requires { length marks.now ≤ 2 ^ 32 }
    ensures { IfOk result (λ nets. NumbersMarked marks.now nets.items) }
{
    let mut nets = Vec::new(alloc);
    for (net, is_marked) in marks.iter().enumerate() {
        if *is_marked {
            nets.push(net as u32)?;
        }
    }
    Ok(nets)
}
