//! The lanes of a diagram: nets, and after them buses.
ghost use Rattle.std.specs.Prelude.{◌≡◌, ◌<◌, not, false, filter, length, map, slice_index_or, All, IfErr, IfOk, Ok, Some};
ghost use Rattle.std.specs.Option.{ok_or};
ghost use Rattle.design.specs.Design.{IsDesign};
ghost use Rattle.netlist.specs.Names.{seen_names};
ghost use Rattle.prepared_runs.specs.Ends.{IsRefusal};
ghost use Rattle.prepared_runs.specs.Source.{shown_nets};
ghost use Rattle.prepared_runs.specs.Lanes.{bits_of, buses_meant, lanes_of, lone_nets, bus_view, seen_lanes};
ghost use Rattle.prepared_runs.specs.declared.fault.SimFault.TheVariants.{UnknownNet};

use crate::fault::SimFault;
use crate::nets::{marks_of, shown_nets};
use crate::view::{DiagramView, Selection};
use design::Design;
use net_words::nets_meant;
use netlist::Netlist;
use std::alloc::{AllocError, Global};

/// The nets of a bus.
#[derive(Debug, Drop)]
pub struct BusNets<'a> {
    /// The word that means it.
    pub name: &'a [u8],
    /// The numbers of its nets, the most significant first.
    pub nets: Vec<u32>,
}

/// What has a lane in a diagram.
#[derive(Debug, Drop)]
pub struct Lanes<'a> {
    /// The numbers of the nets that have lanes of their own, from top to bottom.
    pub nets: Vec<u32>,
    /// The buses, which are after the nets.
    pub buses: Vec<BusNets<'a>>,
}

/// Returns the lanes of a diagram.
///
/// # Errors
/// [`SimFault::UnknownNet`] if no net has one of the names to be shown, or a word of a bus means no nets.
pub fn lanes_of<'a>(
    alloc: Global,
    design: &Design,
    view: &DiagramView<'a>,
) -> Result<Lanes<'a>, SimFault>
    ensures ok { IfOk result (λ lanes. lanes_of view.now design.now.netlist ≡ Ok (seen_lanes lanes)) }
    ensures err { IfErr result (IsRefusal (lanes_of view.now design.now.netlist)) }
    ensures well_formed { IsDesign design.now }
{
    let shown = shown_nets(alloc, design, &view.show)?;
    let buses = buses_meant(alloc, design.netlist(), view.buses.as_slice())?;
    let nets = lone_nets(alloc, design, &view.show, shown, buses.as_slice())?;
    Ok(Lanes { nets, buses })
}

/// Returns the buses that words mean, in their order.
///
/// # Errors
/// [`SimFault::UnknownNet`] if one of the words means no nets.
fn buses_meant<'a>(
    alloc: Global,
    netlist: &Netlist,
    words: &[&'a [u8]],
) -> Result<Vec<BusNets<'a>>, SimFault>
    ensures ok { IfOk result (λ buses.
        buses_meant netlist.now (seen_names words.now) ≡ Some (map bus_view buses.items)) }
    ensures err { IfErr result (IsRefusal (ok_or (buses_meant netlist.now (seen_names words.now)) UnknownNet)) }
{
    let mut buses = Vec::new(alloc);
    for name in words {
        let Some(nets) = nets_meant(alloc, netlist, name)? else {
            return Err(SimFault::UnknownNet);
        };
        buses.push(BusNets { name, nets })?;
    }
    Ok(buses)
}

/// Returns the nets that have lanes of their own, of those that are shown.
fn lone_nets(
    alloc: Global,
    design: &Design,
    show: &Selection<'_>,
    shown: Vec<u32>,
    buses: &[BusNets<'_>],
) -> Result<Vec<u32>, AllocError>
    requires shown { shown.items ≡ shown_nets show.now design.now.netlist }
    requires shown_exist { All (λ net. net < length design.now.circuit) shown.items }
    requires bits_exist { All (λ net. net < length design.now.circuit) (bits_of (map bus_view buses.now)) }
    ensures { IfOk result (λ nets. nets.items ≡ lone_nets show.now design.now.netlist (map bus_view buses.now)) }
{
    if let Selection::Named(_) = show {
        return Ok(shown);
    }
    let bits = bits_of(alloc, buses)?;
    let marks = marks_of(alloc, design.nets(), bits.as_slice())?;
    unmarked(alloc, shown.as_slice(), marks.as_slice())
}

/// Returns the nets of all buses.
fn bits_of(alloc: Global, buses: &[BusNets<'_>]) -> Result<Vec<u32>, AllocError>
    ensures { IfOk result (λ bits. bits.items ≡ bits_of (map bus_view buses.now)) }
{
    let mut bits = Vec::new(alloc);
    for bus in buses {
        bits.extend_from_slice(bus.nets.as_slice())?;
    }
    Ok(bits)
}

/// Returns those of these nets that aren't marked.
fn unmarked(alloc: Global, nets: &[u32], marks: &[bool]) -> Result<Vec<u32>, AllocError>
    requires { All (λ net. net < length marks.now) nets.now }
    ensures { IfOk result (λ unmarked.
        unmarked.items ≡ filter (λ net. not (slice_index_or marks.now net false)) nets.now) }
{
    let mut unmarked = Vec::new(alloc);
    for net in nets {
        if !marks[*net as usize] {
            unmarked.push(*net)?;
        }
    }
    Ok(unmarked)
}
