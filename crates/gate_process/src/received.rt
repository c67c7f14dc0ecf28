ghost use Rattle.std.specs.Prelude.{◌≡◌, true, ◌+◌, ◌<◌, ◌≤◌, All, length, map, replicate, take, IfOk, OnOk, OnErr};
ghost use Rattle.std.specs.List.{list_any};
ghost use Rattle.logic3.specs.declared.value.Value.TheVariants.{Unknown};
ghost use Rattle.logic3.specs.Summary.{summary_of};
ghost use Rattle.logic3.specs.Wave.{IsWave, last_value};
ghost use Rattle.timing_text.specs.Ranges.{most_delay, most_ticks, HasWires};
ghost use Rattle.design.specs.Equations.{values_at};
ghost use Rattle.cmb_channels.specs.Kinds.{is_change};
ghost use Rattle.gate_process.specs.Knowledge.{Knowledge, seen, seen_pins, as_known, nothing_known, told, told_all, wanted, ContinueAll, kept_since, forgetting, keeping};
ghost use Rattle.gate_process.specs.Step.{least_or, signals_of};

use crate::cursor::{Cursor, FEW};
use crate::kept_changes::{KeptChanges, kept_below, last_kept};
use cmb_channels::{Packed, Waiting};
use logic3::{Summary, Value};
use smallvec::SmallVec;
use std::alloc::{AllocError, Global};
use std::marker::Model;

/// What a pin has received from its source, as far as it is kept, at the source's ticks.
#[derive(Debug, Drop)]
pub struct Received {
    changes: KeptChanges,
    // Four bytes hold the tick of any run. Fields lie in memory in this order, so the small ones are last.
    frontier: u32,
    // The value before the first change that is kept.
    before: Value,
}

impl Model for Received {
    ghost use Rattle.gate_process.specs.Knowledge.{Knowledge, IsReceived};

    ghost Value = { Knowledge };

    ghost view = { λ r. record { wave = record { before = r.before; changes = r.changes }; frontier = r.frontier } };

    ghost invariant = { λ r.
        IsReceived (record { wave = record { before = r.before; changes = r.changes }; frontier = r.frontier }) };
}

impl Received {
    /// Returns what is known before anything is received.
    pub fn nothing(alloc: Global) -> Received
        ensures { result ≡ nothing_known }
    {
        Received {
            changes: KeptChanges::new(alloc),
            frontier: 0,
            before: Value::Unknown,
        }
    }

    /// Returns the number of known ticks of the source, from tick 0 on.
    pub fn frontier(&self) -> u64
        ensures frontier { result ≡ self.now.frontier }
        ensures within { result ≤ most_ticks + 1 }
    {
        u64::from(self.frontier)
    }

    /// Adds a message to what is known. A null message takes no memory. An `AllocError` changes nothing.
    pub fn hear(&mut self, message: Packed) -> Result<(), AllocError>
        requires raises { self.old.frontier < (told self.old message).frontier }
        requires fits { (told self.old message).frontier ≤ most_ticks + 1 }
        requires wave { IsWave (told self.old message).wave }
        ensures ok { OnOk result (self.new ≡ told self.old message) }
        ensures err { OnErr result (self.new ≡ self.old) }
        ensures memory { OnErr result (is_change message ≡ true) }
    {
        let tick = message.tick() as u32;
        match message.change() {
            Some(change) => {
                self.changes.push(change)?;
                self.frontier = tick + 1;
            }
            None => self.frontier = tick,
        }
        Ok(())
    }

    /// Adds the first of some messages to what is known, one after another as long as less than a tick is
    /// known, and returns how many. Null messages take no memory. After an `AllocError` some of them are added.
    #[inline(always)]
    pub fn hear_below(&mut self, messages: &Waiting<'_>, tick: u64) -> Result<usize, AllocError>
        requires { ContinueAll (most_ticks + 1) self.old
            (take (wanted tick self.old.frontier messages.now) messages.now) }
        ensures count { IfOk result (λ count. count ≡ wanted tick self.old.frontier messages.now) }
        ensures ok { OnOk result (self.new ≡ told_all self.old
            (take (wanted tick self.old.frontier messages.now) messages.now)) }
        ensures memory { OnErr result (list_any is_change
            (take (wanted tick self.old.frontier messages.now) messages.now) ≡ true) }
    {
        let mut count = 0;
        while u64::from(self.frontier) < tick {
            let Some(message) = messages.packed_at(count) else {
                break;
            };
            self.hear(message)?;
            count += 1;
        }
        Ok(count)
    }

    /// Forgets the ticks before the oldest that the pin's net still asks of its source.
    // It is called for each pin at each visit of a net, and mostly forgets nothing.
    #[inline(always)]
    pub fn keep(&mut self, oldest: u64)
        requires { kept_since oldest self.old.frontier ≡ 0 → self.old.wave.before ≡ Unknown }
        ensures { self.new ≡ keeping oldest self.old }
    {
        if self.changes.is_empty() {
            return;
        }
        self.forget_before(oldest.min(self.frontier()));
    }

    /// Forgets the ticks before this one.
    fn forget_before(&mut self, tick: u64)
        requires { tick ≡ 0 → self.old.wave.before ≡ Unknown }
        ensures { self.new ≡ forgetting tick self.old }
    {
        let changes = self.changes.as_slice();
        let early = kept_below(changes, tick);
        if early == 0 {
            return;
        }
        self.before = last_kept(self.before, &changes[..early]);
        self.changes.drop_front(early);
    }

    /// Returns a cursor before all changes that are kept, which are seen later by the delay of the wire. From
    /// where nothing is known, X is seen.
    pub fn cursor(&self, wire: u32) -> Cursor<'_>
        ensures { result ≡ as_known (seen wire self.now) }
    {
        let frontier = u64::from(self.frontier);
        Cursor::received(self.before, self.changes.as_slice(), frontier, wire)
    }

    /// Returns the value of the last change, or X if none.
    pub fn last(&self) -> Value
        ensures { result ≡ last_value self.now.wave }
    {
        last_kept(self.before, self.changes.as_slice())
    }
}

/// Returns what this number of pins know before anything is received.
pub fn nothing_received(alloc: Global, pins: usize) -> Result<Vec<Received>, AllocError>
    ensures { IfOk result (λ received. received.items ≡ replicate pins nothing_known) }
{
    let mut received = Vec::with_capacity(alloc, pins)?;
    for _pin in 0..pins {
        received.push(Received::nothing(alloc))?;
    }
    Ok(received)
}

/// Returns a cursor before all changes of each of these pins, each with its wire. Few pins take no memory.
pub fn cursors_of<'r>(
    alloc: Global,
    received: &'r [Received],
    wires: &[u32],
) -> Result<SmallVec<Cursor<'r>, FEW>, AllocError>
    requires { length wires.now ≡ length received.now }
    ensures { IfOk result (λ cursors. cursors.items ≡ map as_known (seen_pins wires.now received.now)) }
{
    let mut cursors = SmallVec::new(alloc);
    for (place, pin) in received.iter().enumerate() {
        cursors.push(pin.cursor(wires[place]))?;
    }
    Ok(cursors)
}

/// Returns what these pins show at a tick, each with its wire, as far as it is known.
pub fn seen_at(received: &[Received], wires: &[u32], tick: u64) -> Summary
    requires { length wires.now ≡ length received.now }
    ensures { result ≡ summary_of (values_at tick (signals_of (seen_pins wires.now received.now))) }
{
    let mut pins = Summary::new();
    for (place, pin) in received.iter().enumerate() {
        pins.add(pin.cursor(wires[place]).go_to(tick));
    }
    pins
}

/// Returns the least of the pins' frontiers, at the sources' ticks, or 2^64 - 1 if there are no pins.
pub fn least_received(received: &[Received]) -> u64
    ensures { All (λ (known : Knowledge). result ≤ known.frontier) received.now }
{
    let mut least = u64::MAX;
    for pin in received {
        least = least.min(pin.frontier());
    }
    least
}

/// Returns the least of the pins' frontiers, each seen later by the delay of its wire, or `none` if there are
/// no pins.
pub fn least_frontier(none: u64, received: &[Received], wires: &[u32]) -> u64
    requires wires { HasWires (length received.now) wires.now }
    requires none { none ≤ most_ticks + 1 }
    ensures least { result ≡ least_or none
        (map (λ (known : Knowledge). known.frontier) (seen_pins wires.now received.now)) }
    ensures within { result ≤ most_ticks + 1 + most_delay }
{
    let mut least = none;
    for (place, pin) in received.iter().enumerate() {
        let frontier = pin.frontier() + u64::from(wires[place]);
        least = if place == 0 {
            frontier
        } else {
            least.min(frontier)
        };
    }
    least
}
