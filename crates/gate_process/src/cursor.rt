//! Walks along changes.
ghost use Rattle.std.specs.Prelude.{◌≡◌, ℕ, ◌+◌, ◌<◌, ◌≤◌, [], ◌++◌, All, length, map, Some};
ghost use Rattle.logic3.specs.declared.value.Value.TheVariants.{Unknown};
ghost use Rattle.timing_text.specs.Ranges.{most_ticks};
ghost use Rattle.logic3.specs.declared.change.Change.{Change};
ghost use Rattle.logic3.specs.Rising.{TicksRise};
ghost use Rattle.logic3.specs.Gate.{HasArity, value_of_gate};
ghost use Rattle.logic3.specs.Summary.{summary_of};
ghost use Rattle.logic3.specs.Wave.{value_at};
ghost use Rattle.design.specs.Equations.{values_at};
ghost use Rattle.gate_process.specs.Knowledge.{delayed, unknown_from};
ghost use Rattle.gate_process.specs.LaterChanges.{first_tick};

use crate::changes::is_unknown_at;
use crate::later::Later;
use crate::two_pins::gate_of_two;
use cmb_channels::PackedChange;
use logic3::{Change, GateKind, Summary, Value};
use std::marker::Model;

/// The number of pins, enough for most gates, up to which what is read is kept without a list in memory.
pub const FEW: usize = 4;

/// The tick of the next change if none is left: later than any tick of a run.
const NEVER: u64 = u64::MAX;

/// The position of a walk over the ticks in some changes. Its view is the waveform that is left, at the ticks
/// at which its changes are seen.
///
/// A whole walk takes a step for each change that it passes. A tick before the next change costs one
/// comparison.
#[derive(Debug, Drop)]
pub struct Cursor<'c> {
    // What is shown before the changes that are left.
    value: Value,
    // The tick of the first change that is left, be it to X.
    next: u64,
    // The changes that are left.
    later: Later<'c>,
    // After them, the tick from which on X is shown, since nothing is known from there on.
    unknown: Option<u64>,
}

impl<'c> Model for Cursor<'c> {
    ghost use Rattle.logic3.specs.Rising.{TicksRise};
    ghost use Rattle.logic3.specs.Wave.{Wave};
    ghost use Rattle.std.specs.Prelude.{◌++◌};
    ghost use Rattle.std.specs.Prelude.{◌≡◌};
    ghost use Rattle.gate_process.specs.Knowledge.{unknown_from};
    ghost use Rattle.gate_process.specs.LaterChanges.{first_tick};

    ghost Value = { Wave };

    ghost view = { λ c. record { before = c.value; changes = c.later ++ unknown_from c.unknown } };

    ghost invariant = { λ c. TicksRise (c.later ++ unknown_from c.unknown)
        × (c.next ≡ first_tick (c.later ++ unknown_from c.unknown)) };
}

impl<'c> Default for Cursor<'c> {
    ghost use Rattle.std.specs.Prelude.{◌≡◌, []};
    ghost use Rattle.logic3.specs.declared.value.Value.TheVariants.{Unknown};

    ghost is_default = { λ c. c ≡ record { before = Unknown; changes = [] } };

    fn default() -> Cursor<'c> {
        Cursor::before_all(Value::Unknown, Later::received(Default::default(), 0), None)
    }
}

impl<'c> Cursor<'c> {
    /// Returns a cursor before all stimuli of an input.
    pub fn stimuli(changes: &'c [Change]) -> Cursor<'c>
        requires { TicksRise changes.now }
        ensures { result ≡ record { before = Unknown; changes = changes.now } }
    {
        Cursor::before_all(Value::Unknown, Later::stimuli(changes), None)
    }

    /// Returns a cursor before all changes that a pin keeps, which are seen later by the delay of the wire,
    /// and before the tick from which on nothing is known.
    pub fn received(
        before: Value,
        changes: &'c [PackedChange],
        frontier: u64,
        wire: u32,
    ) -> Cursor<'c>
        requires rise { TicksRise (changes.now ++ unknown_from (Some frontier)) }
        requires within { frontier ≤ most_ticks + 1 }
        ensures { result ≡ delayed wire (record { before = before; changes = changes.now ++ unknown_from (Some frontier) }) }
    {
        Cursor::before_all(
            before,
            Later::received(changes, wire),
            Some(frontier + u64::from(wire)),
        )
    }

    /// Returns a cursor before these changes and then X from a tick on, if any.
    fn before_all(value: Value, later: Later<'c>, unknown: Option<u64>) -> Cursor<'c>
        requires { TicksRise (later ++ unknown_from unknown) }
        ensures { result ≡ record { before = value; changes = later.entry ++ unknown_from unknown } }
    {
        Cursor {
            value,
            next: first_tick(&later, unknown),
            later,
            unknown,
        }
    }

    /// Passes the changes up to and including a tick, and returns the value at that tick.
    #[inline(always)]
    pub fn go_to(&mut self, tick: u64) -> Value
        ensures value { result ≡ value_at self.old tick }
        ensures left { (t : ℕ) → tick ≤ t → value_at self.new t ≡ value_at self.old t }
        ensures passed { All (λ (change : Change). tick < change.tick) self.new.changes }
    {
        if tick < self.next {
            self.value
        } else {
            self.pass(tick)
        }
    }

    /// Passes the changes up to and including a tick, and returns the value at that tick.
    fn pass(&mut self, tick: u64) -> Value
        ensures value { result ≡ value_at self.old tick }
        ensures left { (t : ℕ) → tick ≤ t → value_at self.new t ≡ value_at self.old t }
        ensures passed { All (λ (change : Change). tick < change.tick) self.new.changes }
    {
        if is_unknown_at(self.unknown, tick) {
            // Nothing is left but X.
            *self = Cursor::default();
            return Value::Unknown;
        }
        self.value = self.later.pass(self.value, tick);
        self.next = first_tick(&self.later, self.unknown);
        self.value
    }

    /// Returns the tick of the first change that is left, at most the limit. The value stays until then.
    pub fn next_change(&self, limit: u64) -> u64
        ensures later { (tick : ℕ) → tick < limit → All (λ (change : Change). tick < change.tick) self.now.changes →
            tick < result }
        ensures within { result ≤ limit }
        ensures steady { (t : ℕ) → t < result → value_at self.now t ≡ self.now.before }
    {
        limit.min(self.next)
    }
}

/// Returns the tick of the first of these changes, the last of which is to X at a tick, if any.
fn first_tick(later: &Later<'_>, unknown: Option<u64>) -> u64
    ensures { result ≡ first_tick (later.now ++ unknown_from unknown) }
{
    match later.first_tick() {
        Some(first) => first,
        None => unknown.unwrap_or(NEVER),
    }
}

/// What cursors show at a tick, and the tick of the first change after it.
#[derive(Clone, Copy, Debug)]
pub struct PinsReading {
    pub pins: Summary,
    pub next: u64,
}

/// Moves the cursors to a tick, and returns what they show there and the tick of the first change after it,
/// at most the limit.
#[inline(always)]
pub fn read_at(cursors: &mut [Cursor<'_>], tick: u64, limit: u64) -> PinsReading
    requires { tick < limit }
    ensures pins { result.pins ≡ summary_of (values_at tick (map value_at cursors.old)) }
    ensures later { tick < result.next }
    ensures within { result.next ≤ limit }
    ensures steady { (t : ℕ) → tick ≤ t → t < result.next →
        values_at t (map value_at cursors.old) ≡ values_at tick (map value_at cursors.old) }
    ensures left { (t : ℕ) → tick ≤ t →
        values_at t (map value_at cursors.new) ≡ values_at t (map value_at cursors.old) }
    ensures length { length cursors.new ≡ length cursors.old }
{
    let mut pins = Summary::new();
    let mut next = limit;
    for cursor in cursors.iter_mut() {
        pins.add(cursor.go_to(tick));
        next = cursor.next_change(next);
    }
    PinsReading { pins, next }
}

/// The value over what cursors show at a tick, and the tick of the first change after it.
#[derive(Clone, Copy, Debug)]
pub struct Reading {
    pub value: Value,
    pub next: u64,
}

/// Moves the cursors of a gate's pins to a tick, and returns the gate's value over what they show there and
/// the tick of the first change after it, at most the limit.
#[inline(always)]
pub fn read_gate(kind: GateKind, pins: &mut [Cursor<'_>], tick: u64, limit: u64) -> Reading
    requires arity { HasArity kind (length pins.old) }
    requires before { tick < limit }
    ensures value { result.value ≡ value_of_gate kind (values_at tick (map value_at pins.old)) }
    ensures later { tick < result.next }
    ensures within { result.next ≤ limit }
    ensures steady { (t : ℕ) → tick ≤ t → t < result.next →
        values_at t (map value_at pins.old) ≡ values_at tick (map value_at pins.old) }
    ensures left { (t : ℕ) → tick ≤ t →
        values_at t (map value_at pins.new) ≡ values_at t (map value_at pins.old) }
    ensures length { length pins.new ≡ length pins.old }
{
    // Most gates have two pins, whose values need no summary.
    if pins.len() == 2 {
        return read_two(kind, pins, tick, limit);
    }
    let reading = read_at(pins, tick, limit);
    Reading {
        value: reading.pins.gate(kind),
        next: reading.next,
    }
}

/// Reads a gate of two pins, as [`read_gate`] does.
#[inline(always)]
fn read_two(kind: GateKind, pins: &mut [Cursor<'_>], tick: u64, limit: u64) -> Reading
    requires arity { HasArity kind 2 }
    requires two { length pins.old ≡ 2 }
    requires before { tick < limit }
    ensures value { result.value ≡ value_of_gate kind (values_at tick (map value_at pins.old)) }
    ensures later { tick < result.next }
    ensures within { result.next ≤ limit }
    ensures steady { (t : ℕ) → tick ≤ t → t < result.next →
        values_at t (map value_at pins.old) ≡ values_at tick (map value_at pins.old) }
    ensures left { (t : ℕ) → tick ≤ t →
        values_at t (map value_at pins.new) ≡ values_at t (map value_at pins.old) }
    ensures length { length pins.new ≡ length pins.old }
{
    let first = pins[0].go_to(tick);
    let second = pins[1].go_to(tick);
    let next = pins[1].next_change(pins[0].next_change(limit));
    Reading {
        value: gate_of_two(kind, first, second),
        next,
    }
}
