ghost use Rattle.std.specs.Prelude.{◌≡◌, ◌<◌, length, map, All, IfOk};
ghost use Rattle.logic3.specs.Rising.{Rises};
ghost use Rattle.netlist.specs.Netlist.{IsNetlist, all_pins, net_at, net_named, name_at};
ghost use Rattle.netlist.specs.Joined.{netlist_view, seen_net};

use crate::names::Names;
use crate::part::Part;
use flat_lists::{FlatLists, list_of};
use smallvec::SmallVec;
use std::alloc::{AllocError, Global};
use std::marker::Model;

/// The largest number of nets in a netlist.
pub const MOST_NETS: usize = 100_000;

/// The largest number of pins that all nets have together.
pub const MOST_PINS: usize = 1_000_000;

/// What drives a net, and the numbers of the nets at its pins.
#[derive(Debug, Drop)]
pub struct Net {
    pub part: Part,
    pub pins: SmallVec<u32, 4>,
}

/// Nets in the order of their definitions, numbered from 0, and the nets that are outputs.
///
/// There is at least one net, names are distinct, each part has as many pins as it takes, each pin
/// and each output is a net, and no output is listed twice. A method that takes the number of a net
/// requires one below [`nets`](Self::nets).
#[derive(Debug, Drop)]
pub struct Netlist {
    names: Names,
    // What drives each net.
    drivers: Vec<Part>,
    // The numbers of the nets at pins, net by net, and the place of each net's first.
    pins: Vec<u32>,
    first_pins: Vec<u32>,
    outputs: Vec<u32>,
}

impl Model for Netlist {
    ghost use Rattle.std.specs.List.{zip};
    ghost use Rattle.flat_lists.specs.Parts.{parts};
    ghost use Rattle.netlist.specs.Netlist.{NetlistView};

    ghost Value = { NetlistView };

    ghost use Rattle.netlist.specs.Joined.{netlist_view, IsFlat};

    ghost view = { λ n.
        netlist_view n.names (zip n.drivers.items (parts n.first_pins.items n.pins.items)) n.outputs.items };

    ghost invariant = { λ n. IsFlat n.names n.drivers.items n.first_pins.items n.pins.items n.outputs.items };
}

impl Netlist {
    /// Makes the netlist of these names, each with its net, and these outputs. They meet the
    /// conditions of [`Netlist`].
    ///
    /// # Errors
    /// `AllocError` if an allocation fails.
    pub fn new(names: Names, nets: Vec<Net>, outputs: Vec<u32>) -> Result<Netlist, AllocError>
        requires same_length { length names ≡ length nets.items }
        requires well_formed { IsNetlist (netlist_view names (map seen_net nets.items) outputs.items) }
        ensures { IfOk result (λ netlist.
            netlist ≡ netlist_view names (map seen_net nets.items) outputs.items) }
    {
        let alloc = *nets.allocator();
        let drivers = drivers_of(alloc, nets.as_slice())?;
        let (pins, first_pins) = all_pins_of(alloc, nets.as_slice())?.into_parts();
        Ok(Netlist {
            names,
            drivers,
            pins,
            first_pins,
            outputs,
        })
    }

    /// Returns the number of nets: 1 to 100,000.
    pub fn nets(&self) -> u32
        ensures nets { result ≡ length self.now.nets }
        ensures well_formed { IsNetlist self.now }
    {
        self.names.len() as u32
    }

    /// Returns the name of a net.
    pub fn name(&self, net: u32) -> &[u8]
        requires { net < length self.now.nets }
        ensures { result.now ≡ (net_at self.now net).name }
    {
        self.names.name(net)
    }

    /// Returns what drives a net.
    pub fn part(&self, net: u32) -> Part
        requires { net < length self.now.nets }
        ensures { result ≡ (net_at self.now net).part }
    {
        self.drivers[net as usize]
    }

    /// Returns the numbers of the nets at a net's pins, in order.
    pub fn pins_of(&self, net: u32) -> &[u32]
        requires { net < length self.now.nets }
        ensures { result.now ≡ (net_at self.now net).pins }
    {
        let net = net as usize;
        list_of(self.pins.as_slice(), self.first_pins.as_slice(), net)
    }

    /// Returns the numbers of the nets at the pins of all nets, net after net, in order.
    ///
    /// # Errors
    /// `AllocError` if an allocation fails.
    pub fn all_pins(&self, alloc: Global) -> Result<Vec<u32>, AllocError>
        ensures { IfOk result (λ pins. pins.items ≡ all_pins self.now.nets) }
    {
        let mut pins = Vec::new(alloc);
        for net in 0..self.nets() {
            pins.extend_from_slice(self.pins_of(net))?;
        }
        Ok(pins)
    }

    /// Returns the numbers of the outputs, in order and without repeats.
    pub fn outputs(&self) -> &[u32]
        ensures outputs { result.now ≡ self.now.outputs }
        ensures well_formed { IsNetlist self.now }
    {
        self.outputs.as_slice()
    }

    /// Returns the number of the net with this name, if any.
    pub fn find(&self, name: &[u8]) -> Option<u32>
        ensures { result ≡ net_named self.now name.now }
    {
        self.names.find(name)
    }

    /// Returns the names of nets whose numbers rise, in order.
    pub(crate) fn names_of(&self, alloc: Global, nets: &[u32]) -> Result<Names, AllocError>
        requires rising { Rises nets.now }
        requires nets { All (λ net. net < length self.now.nets) nets.now }
        ensures names { IfOk result (λ names. names ≡ map (name_at self.now) nets.now) }
        ensures well_formed { IsNetlist self.now }
    {
        let mut names = Names::new(alloc);
        for net in nets {
            names.push(self.names.name(*net))?;
        }
        Ok(names)
    }
}

/// Returns what drives each of these nets.
fn drivers_of(alloc: Global, nets: &[Net]) -> Result<Vec<Part>, AllocError>
    ensures { IfOk result (λ drivers. drivers.items ≡ map (λ net. net.part) nets.now) }
{
    let mut drivers = Vec::with_capacity(alloc, nets.len())?;
    for net in nets {
        drivers.push(net.part)?;
    }
    Ok(drivers)
}

/// Returns the pins of each of these nets.
fn all_pins_of(alloc: Global, nets: &[Net]) -> Result<FlatLists<u32>, AllocError>
    ensures { IfOk result (λ pins. pins ≡ map (λ net. net.pins.items) nets.now) }
{
    let mut pins = FlatLists::with_capacity(alloc, nets.len(), 0)?;
    for net in nets {
        pins.push(net.pins.as_slice())?;
    }
    Ok(pins)
}
