//! What the lines read so far give each net.
ghost use Rattle.std.specs.Prelude.{◌≡◌, [], length, map, IfOk};
ghost use Rattle.std.specs.Option.{unwrap_or};
ghost use Rattle.netlist.specs.Netlist.{IsNetlist};
ghost use Rattle.timing_text.specs.TimingLines.{HasPin};
ghost use Rattle.timing_text.specs.GivenSoFar.{given_to_nets, is_given, seen_given, with_given};

use crate::line::{Properties, Property};
use netlist::Netlist;
use smallvec::SmallVec;
use std::alloc::{AllocError, Global};

/// What the lines read so far give a net, and the wire delay that they give each of its pins.
#[derive(Drop)]
pub(crate) struct NetGiven {
    pub(crate) properties: Properties,
    wires: SmallVec<Option<u32>, 4>,
}

impl NetGiven {
    /// Returns whether a property of this kind was given, and a wire delay to the same pin.
    pub(crate) fn has(&self, property: Property) -> bool
        requires { HasPin (length self.now.wires.items) property }
        ensures { result ≡ is_given (seen_given self.now) property }
    {
        match property {
            Property::Delay(_) => self.properties.delay.is_some(),
            Property::Clock(_) => self.properties.clock.is_some(),
            Property::Initial(_) => self.properties.initial.is_some(),
            Property::Wire(wire) => self.wires[wire.place as usize].is_some(),
        }
    }

    /// Gives the net this property, in place of one of its kind.
    pub(crate) fn add(&mut self, property: Property)
        requires { HasPin (length self.old.wires.items) property }
        ensures { seen_given self.new ≡ with_given (seen_given self.old) property }
    {
        match property {
            Property::Wire(wire) => self.wires[wire.place as usize] = Some(wire.ticks as u32),
            other => self.properties = self.properties.with(other),
        }
    }

    /// Returns the wire delay of each pin: 0 if none was given.
    pub(crate) fn wires(&self, alloc: Global) -> Result<SmallVec<u32, 4>, AllocError>
        ensures { IfOk result (λ wires. wires.items ≡ map (λ wire. unwrap_or wire 0) self.now.wires.items) }
    {
        let mut wires = SmallVec::new(alloc);
        for wire in self.wires.as_slice() {
            wires.push(wire.unwrap_or(0))?;
        }
        Ok(wires)
    }
}

/// Returns an entry for each net, by net number, in which nothing is given.
pub(crate) fn nothing_given(alloc: Global, netlist: &Netlist) -> Result<Vec<NetGiven>, AllocError>
    ensures given { IfOk result (λ given. map seen_given given.items ≡ given_to_nets netlist.now []) }
    ensures well_formed { IsNetlist netlist.now }
{
    let mut given = Vec::with_capacity(alloc, netlist.nets() as usize)?;
    for net in 0..netlist.nets() {
        given.push(NetGiven {
            properties: Properties::none(),
            wires: SmallVec::from_elem(alloc, None, netlist.pins_of(net).len())?,
        })?;
    }
    Ok(given)
}
