ghost use Rattle.std.specs.Prelude.{◌≡◌, ◌≢◌, ℕ, ◌+◌, ◌-◌, ◌<◌, ◌≤◌, min, List, length, map, slice_get, Some};
ghost use Rattle.std.specs.Option.{option_map_or};
ghost use Rattle.logic3.specs.declared.value.Value.{Value};
ghost use Rattle.logic3.specs.declared.value.Value.TheVariants.{Unknown};
ghost use Rattle.logic3.specs.Summary.{summary_of};
ghost use Rattle.logic3.specs.Wave.{value_at};
ghost use Rattle.netlist.specs.declared.part.Part.TheVariants.{Input};
ghost use Rattle.timing_text.specs.Ranges.{most_delay, most_ticks};
ghost use Rattle.design.specs.Samples.{first_asker};
ghost use Rattle.design.specs.Equations.{equation, values_at};
ghost use Rattle.gate_process.specs.Knowledge.{seen_pins};
ghost use Rattle.gate_process.specs.Reading.{reads, read_tick, made_of, shown, most_of_part};
ghost use Rattle.gate_process.specs.Step.{frontier_of, signals_of};
ghost use Rattle.gate_process.specs.Truth.{IsNet};

use crate::cursor::{Cursor, Reading, read_at, read_gate};
use crate::received::{Received, seen_at};
use design::{Design, asked_tick, first_asker};
use logic3::{Summary, Value};
use netlist::Part;
use std::marker::Model;
use timing_text::Timing;

/// What a net shows at a tick, and the tick up to which that value stays.
#[derive(Clone, Copy, Debug)]
pub struct Look {
    pub value: Value,
    pub until: u64,
}

/// The net of a process: its number, and the design that has all else.
///
/// Each look at a gate needs its kind and its delay, so these two are fetched from the design once.
#[derive(Debug, Drop)]
pub struct OwnNet<'d> {
    design: &'d Design,
    net: u32,
    // The delay in ticks, at most 1,000,000.
    delay: u32,
    part: Part,
}

impl<'d> Model for OwnNet<'d> {
    ghost use Rattle.std.specs.Prelude.{◌≡◌, ◌<◌, length};
    ghost use Rattle.design.specs.Circuit.{Net};
    ghost use Rattle.gate_process.specs.Truth.{IsNet, net_at};

    ghost Value = { Net };

    ghost view = { λ n. net_at n.design.now.circuit n.net };

    ghost invariant = { λ n. (n.net < length n.design.now.circuit) × IsNet (net_at n.design.now.circuit n.net)
        × (n.part ≡ (net_at n.design.now.circuit n.net).part)
        × (n.delay ≡ (net_at n.design.now.circuit n.net).timing.delay) };
}

impl<'d> OwnNet<'d> {
    /// Returns a net of the design.
    pub fn of(design: &'d Design, net: u32) -> OwnNet<'d>
        requires { net < length design.now.circuit }
        ensures { slice_get design.now.circuit net ≡ Some result }
    {
        // Called for its contract: the design is well formed.
        let nets = design.nets();
        prove!(net < nets);
        OwnNet {
            design,
            net,
            delay: design.delay(net) as u32,
            part: design.part(net),
        }
    }

    /// Returns what drives the net.
    fn part(&self) -> Part
        ensures part { result ≡ self.now.part }
        ensures well_formed { IsNet self.now }
    {
        self.part
    }

    /// Returns the delay of the net in ticks.
    fn delay(&self) -> u64
        ensures { result ≡ self.now.timing.delay }
    {
        u64::from(self.delay)
    }

    /// Returns when the net reads its pins.
    fn timing(&self) -> Timing
        ensures { result ≡ self.now.timing }
    {
        self.design.timing(self.net)
    }

    /// Returns the number of pins of the net.
    pub fn pins(&self) -> usize
        ensures count { result ≡ length self.now.pins }
        ensures well_formed { IsNet self.now }
    {
        self.design.pins_of(self.net).len()
    }

    /// Returns the delay of the wire to each pin, in ticks, in order.
    pub fn wires(&self) -> &[u32]
        ensures wires { result.now ≡ self.now.wires }
        ensures well_formed { IsNet self.now }
    {
        self.design.wires_of(self.net)
    }

    /// Returns a tick such that the net, from this frontier on, asks for no earlier tick of the source of a pin
    /// with this wire delay.
    pub fn oldest_asked(&self, wire: u32, frontier: u64) -> u64
        ensures { result ≡ frontier - self.now.timing.delay - wire }
    {
        frontier
            .saturating_sub(self.delay())
            .saturating_sub(u64::from(wire))
    }

    /// Returns how far the net can be computed if all its pins, as it sees them, are known up to `safe`.
    pub fn sure_frontier(&self, end: u64, safe: u64) -> u64
        requires end { end ≤ most_ticks + 1 }
        requires safe { safe ≤ most_ticks + 1 + most_delay }
        ensures { result ≡ frontier_of self.now end safe }
    {
        match self.first_asker(safe) {
            Some(first) => end.min(first),
            None => end,
        }
    }

    /// Returns how far the net can be computed at most, if its known pins suffice up to `sure`.
    pub fn most(&self, end: u64, sure: u64) -> u64
        ensures { result ≡ most_of_part self.now.part end sure }
    {
        match self.part() {
            Part::Gate(_) => end,
            _ => sure,
        }
    }

    /// Returns a cursor before all stimuli of an input.
    pub fn stimuli(&self) -> Cursor<'_>
        ensures { result ≡ record { before = Unknown; changes = self.now.stimuli } }
    {
        Cursor::stimuli(self.design.stimuli(self.net))
    }

    /// Returns what the net shows at a tick over what it reads, and the tick up to which that value stays, at
    /// most the limit.
    ///
    /// The cursors move to the tick that decides the value, and can be used for ticks from this one on.
    #[inline(always)]
    pub fn look(&self, read: &mut [Cursor<'_>], tick: u64, limit: u64) -> Look
        requires read { length read.old ≡ reads self.now }
        requires before { tick < limit }
        requires end { limit ≤ most_ticks + 1 }
        ensures value { result.value ≡ shown self.now read.old tick }
        ensures later { tick < result.until }
        ensures within { result.until ≤ limit }
        ensures steady { (t : ℕ) → tick ≤ t → t < result.until →
            shown self.now read.old t ≡ shown self.now read.old tick }
        ensures left { (t : ℕ) → tick ≤ t → shown self.now read.new t ≡ shown self.now read.old t }
        ensures length { length read.new ≡ length read.old }
    {
        let Some(at) = self.read_tick(tick) else {
            // Before it reads anything, it waits for tick 0.
            return Look {
                value: self.timing().initial,
                until: self.until(0, limit),
            };
        };
        let reading = self.read(read, at, limit);
        Look {
            value: reading.value,
            until: self.until(reading.next, limit),
        }
    }

    /// Moves the cursors to a tick, and returns the net's value over what they show there and the tick of the
    /// first change after it, at most the limit.
    #[inline(always)]
    fn read(&self, read: &mut [Cursor<'_>], tick: u64, limit: u64) -> Reading
        requires read { length read.old ≡ reads self.now }
        requires before { tick < limit }
        ensures value { result.value ≡ made_of self.now.part (values_at tick (map value_at read.old)) }
        ensures later { tick < result.next }
        ensures within { result.next ≤ limit }
        ensures steady { (t : ℕ) → tick ≤ t → t < result.next →
            values_at t (map value_at read.old) ≡ values_at tick (map value_at read.old) }
        ensures left { (t : ℕ) → tick ≤ t →
            values_at t (map value_at read.new) ≡ values_at t (map value_at read.old) }
        ensures length { length read.new ≡ length read.old }
    {
        if let Part::Gate(kind) = self.part() {
            return read_gate(kind, read, tick, limit);
        }
        let all = read_at(read, tick, limit);
        Reading {
            value: self.made_of(&all.pins),
            next: all.next,
        }
    }

    /// Returns what a net that isn't an input shows at a tick over what its pins have received. Takes no
    /// memory.
    pub fn shows(&self, received: &[Received], tick: u64) -> Value
        requires pins { length received.now ≡ length self.now.pins }
        requires not_input { self.now.part ≢ Input }
        ensures { result ≡ equation self.now (signals_of (seen_pins self.now.wires received.now)) tick }
    {
        match self.read_tick(tick) {
            Some(at) => self.made_of(&seen_at(received, self.wires(), at)),
            None => self.timing().initial,
        }
    }

    /// Returns the tick of what the net reads that decides what it shows at a tick.
    fn read_tick(&self, tick: u64) -> Option<u64>
        ensures tick { result ≡ read_tick self.now.part self.now.timing tick }
        ensures well_formed { IsNet self.now }
    {
        match self.part() {
            Part::Input => Some(tick),
            Part::Gate(_) => tick.checked_sub(self.delay()),
            part => asked_tick(part, self.timing(), tick),
        }
    }

    /// Returns the net's value over the values that it reads.
    fn made_of(&self, pins: &Summary) -> Value
        ensures { (values : List Value) → pins.now ≡ summary_of values → length values ≡ reads self.now →
            result ≡ made_of self.now.part values }
    {
        match self.part() {
            Part::Gate(kind) => pins.gate(kind),
            _ => pins.only(),
        }
    }

    /// Returns the tick up to which the net's value stays if what it reads changes at a tick, at most the
    /// limit.
    fn until(&self, change: u64, limit: u64) -> u64
        requires within { change ≤ limit }
        requires end { limit ≤ most_ticks + 1 }
        ensures { result ≡ option_map_or (min limit) (first_asker self.now change) change }
    {
        match self.first_asker(change) {
            Some(first) => limit.min(first),
            None => change,
        }
    }

    /// Returns the first tick at which the net asks for this tick of its pins or a later one.
    fn first_asker(&self, tick: u64) -> Option<u64>
        requires { tick ≤ most_ticks + 1 + most_delay }
        ensures { result ≡ first_asker self.now tick }
    {
        match self.part() {
            Part::Gate(_) => Some(tick + self.delay()),
            part => first_asker(part, self.timing(), tick),
        }
    }
}
