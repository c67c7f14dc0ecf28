ghost use Rattle.std.specs.Prelude.{◌≡◌, ◌+◌, ◌<◌, ◌≤◌, All, length, option_map, position, bytes_eq, slice_get, Some};
ghost use Rattle.std.specs.Option.{ForSome};
ghost use Rattle.netlist.specs.Netlist.{most_nets, most_pins, net_named};
ghost use Rattle.design.specs.Circuit.{Net, IsCircuit, pin_count};
ghost use Rattle.design.specs.Pins.{sources_of, pins_fed, wires_of, first_pin, net_of_pin};
ghost use Rattle.logic3.specs.Rising.{Rises};

mod build;
mod feeding;
mod pick;

use flat_lists::list_of;
use logic3::{Change, Value};
use netlist::{Netlist, Part};
use std::marker::Model;
use std::ops::Range;
use timing_text::Timing;

/// A netlist with its timing, wire delays and stimuli.
///
/// Nets are numbered as in the netlist, and the pins of all nets are numbered from 0, net by net. A
/// method that takes the number of a net requires one below [`nets`](Self::nets), and one that takes
/// the number of a pin requires one below [`pins`](Self::pins). The readers allocate nothing.
#[derive(Debug, Drop)]
pub struct Design {
    netlist: Netlist,
    // The first pin of each net, and at the end the number of pins.
    first_pins: Vec<u32>,
    // The net that feeds each pin.
    sources: Vec<u32>,
    // The pins that each net feeds, in rising order, net by net, and the place of each net's first.
    fed: Vec<u32>,
    first_fed: Vec<u32>,
    // The timing of each net.
    timings: Vec<Timing>,
    // The wire delay of each pin, net by net, and the place of each net's first.
    wires: Vec<u32>,
    first_wires: Vec<u32>,
    // The stimuli, net by net, and the place of each net's first.
    stimuli: Vec<Change>,
    first_stimuli: Vec<u32>,
}

impl Model for Design {
    ghost use Rattle.std.specs.List.{zip};
    ghost use Rattle.flat_lists.specs.Parts.{parts};
    ghost use Rattle.design.specs.Design.{DesignView};

    ghost Value = { DesignView };

    ghost use Rattle.design.specs.Joined.{design_view, IsFlat};

    ghost view = { λ d. design_view d.netlist (zip d.timings.items (parts d.first_wires.items d.wires.items))
        (parts d.first_stimuli.items d.stimuli.items) };

    ghost invariant = { λ d. IsFlat d.netlist d.first_pins.items d.sources.items d.first_fed.items d.fed.items
        d.timings.items d.first_wires.items d.wires.items d.first_stimuli.items d.stimuli.items };
}

impl Design {
    ghost use Rattle.design.specs.Design.{IsDesign};

    /// Returns the number of nets: 1 to 100,000.
    pub fn nets(&self) -> u32
        ensures count { result ≡ length self.now.circuit }
        ensures some { 1 ≤ result }
        ensures most { result ≤ most_nets }
        ensures well_formed { IsDesign self.now }
        ensures circuit { IsCircuit self.now.circuit }
    {
        self.netlist.nets()
    }

    /// Returns the number of pins of all nets: at most 1,000,000.
    pub fn pins(&self) -> u32
        ensures count { result ≡ pin_count self.now.circuit }
        ensures most { result ≤ most_pins }
    {
        self.first_pins[self.netlist.nets() as usize]
    }

    /// Returns the netlist, without timing, wire delays and stimuli.
    pub fn netlist(&self) -> &Netlist
        ensures { result.now ≡ self.now.netlist }
    {
        &self.netlist
    }

    /// Returns the name of a net.
    pub fn name(&self, net: u32) -> &[u8]
        requires { net < length self.now.circuit }
        ensures { option_map (λ (n : Net). n.name) (slice_get self.now.circuit net) ≡ Some result.now }
    {
        self.netlist.name(net)
    }

    /// Returns what drives a net.
    pub fn part(&self, net: u32) -> Part
        requires { net < length self.now.circuit }
        ensures { option_map (λ (n : Net). n.part) (slice_get self.now.circuit net) ≡ Some result }
    {
        self.netlist.part(net)
    }

    /// Returns the numbers of the nets at a net's pins, in order.
    pub fn pins_of(&self, net: u32) -> &[u32]
        requires { net < length self.now.circuit }
        ensures { option_map (λ (n : Net). n.pins) (slice_get self.now.circuit net) ≡ Some result.now }
    {
        self.netlist.pins_of(net)
    }

    /// Returns the number of pins of a net: at most 1,024.
    pub fn fan_in(&self, net: u32) -> usize
        requires { net < length self.now.circuit }
        ensures { option_map (λ (n : Net). length n.pins) (slice_get self.now.circuit net) ≡ Some result }
    {
        let end = self.first_pins[net as usize + 1];
        (end - self.first_pins[net as usize]) as usize
    }

    /// Returns the numbers of a net's pins: from its first pin up to the first of the next net.
    pub fn pin_range(&self, net: u32) -> Range<usize>
        requires { net < length self.now.circuit }
        ensures start { result.start ≡ first_pin self.now.circuit net }
        ensures end { option_map (λ (n : Net). first_pin self.now.circuit net + length n.pins)
            (slice_get self.now.circuit net) ≡ Some result.end }
        ensures rising { result.start ≤ result.end }
        ensures within { result.end ≤ pin_count self.now.circuit }
        ensures most { pin_count self.now.circuit ≤ most_pins }
    {
        let end = self.first_pins[net as usize + 1];
        let start = self.first_pins[net as usize];
        start as usize..end as usize
    }

    /// Returns the number of the net with this name, if any.
    pub fn find(&self, name: &[u8]) -> Option<u32>
        ensures named { result ≡ net_named self.now.netlist name.now }
        ensures net { result ≡ position (λ (n : Net). bytes_eq n.name name.now) self.now.circuit }
    {
        self.netlist.find(name)
    }

    /// Returns the number of a net's pin, by its place among the pins of the net.
    pub fn pin(&self, net: u32, place: u32) -> u32
        requires net { net < length self.now.circuit }
        requires place { ForSome (slice_get self.now.circuit net) (λ (n : Net). place < length n.pins) }
        ensures pin { result ≡ first_pin self.now.circuit net + place }
        ensures within { result < pin_count self.now.circuit }
    {
        self.first_pins[net as usize] + place
    }

    /// Returns the number of the net that a pin belongs to. Takes logarithmic time.
    pub fn pin_net(&self, pin: u32) -> u32
        requires { pin < pin_count self.now.circuit }
        ensures net { result ≡ net_of_pin self.now.circuit pin }
        ensures within { result < length self.now.circuit }
    {
        let first_pins = self.first_pins.as_slice();
        let after = first_pins.partition_point(|first| *first <= pin);
        (after - 1) as u32
    }

    /// Returns the number of the net that feeds a pin.
    pub fn pin_source(&self, pin: u32) -> u32
        requires { pin < pin_count self.now.circuit }
        ensures source { slice_get (sources_of self.now.circuit) pin ≡ Some result }
        ensures within { result < length self.now.circuit }
    {
        self.sources[pin as usize]
    }

    /// Returns the numbers of the pins that a net feeds, in rising order. A net at two pins of a gate
    /// feeds both.
    pub fn pins_fed(&self, net: u32) -> &[u32]
        requires { net < length self.now.circuit }
        ensures fed { result.now ≡ pins_fed net (sources_of self.now.circuit) }
        ensures rising { Rises result.now }
        ensures within { All (λ pin. pin < pin_count self.now.circuit) result.now }
        ensures few { length result.now ≤ most_pins }
    {
        let net = net as usize;
        list_of(self.fed.as_slice(), self.first_fed.as_slice(), net)
    }

    /// Returns when a net reads its pins, and what it shows before that.
    pub fn timing(&self, net: u32) -> Timing
        requires { net < length self.now.circuit }
        ensures { option_map (λ (n : Net). n.timing) (slice_get self.now.circuit net) ≡ Some result }
    {
        self.timings[net as usize]
    }

    /// Returns the wire delay of each pin of a net in ticks, in order: 0 to 1,000,000.
    pub fn wires_of(&self, net: u32) -> &[u32]
        requires { net < length self.now.circuit }
        ensures { option_map (λ (n : Net). n.wires) (slice_get self.now.circuit net) ≡ Some result.now }
    {
        let net = net as usize;
        list_of(self.wires.as_slice(), self.first_wires.as_slice(), net)
    }

    /// Returns the wire delay of a pin in ticks: 0 to 1,000,000. Takes logarithmic time.
    pub fn wire(&self, pin: u32) -> u64
        requires { pin < pin_count self.now.circuit }
        ensures { slice_get (wires_of self.now.circuit) pin ≡ Some result }
    {
        let net = self.pin_net(pin);
        let place = pin - self.first_pins[net as usize];
        u64::from(self.wires_of(net)[place as usize])
    }

    /// Returns the delay of a net in ticks: 0 for an input, else 1 to 1,000,000.
    pub fn delay(&self, net: u32) -> u64
        requires { net < length self.now.circuit }
        ensures { option_map (λ (n : Net). n.timing.delay) (slice_get self.now.circuit net) ≡ Some result }
    {
        self.timing(net).delay
    }

    /// Returns the period of a flip-flop in ticks: 1 to 10,000,000. 0 for any other net.
    pub fn period(&self, net: u32) -> u64
        requires { net < length self.now.circuit }
        ensures { option_map (λ (n : Net). n.timing.period) (slice_get self.now.circuit net) ≡ Some result }
    {
        self.timing(net).period
    }

    /// Returns the phase of a flip-flop in ticks, less than its period: it samples at the ticks of at
    /// least 1 whose remainder by the period is the phase. 0 for any other net.
    pub fn phase(&self, net: u32) -> u64
        requires { net < length self.now.circuit }
        ensures { option_map (λ (n : Net). n.timing.phase) (slice_get self.now.circuit net) ≡ Some result }
    {
        self.timing(net).phase
    }

    /// Returns what a flip-flop shows before its first sample shows. X for any other net.
    pub fn init(&self, net: u32) -> Value
        requires { net < length self.now.circuit }
        ensures { option_map (λ (n : Net). n.timing.initial) (slice_get self.now.circuit net) ≡ Some result }
    {
        self.timing(net).initial
    }

    /// Returns the stimuli of a net, at ticks that rise strictly, up to 10,000,000. Only inputs have any.
    pub fn stimuli(&self, net: u32) -> &[Change]
        requires { net < length self.now.circuit }
        ensures { option_map (λ (n : Net). n.stimuli) (slice_get self.now.circuit net) ≡ Some result.now }
    {
        let net = net as usize;
        list_of(self.stimuli.as_slice(), self.first_stimuli.as_slice(), net)
    }
}
