//! Which pin of a gate decides what it shows.
ghost use Rattle.std.specs.Prelude.{◌≡◌, ◌<◌, ◌==◌, length};
ghost use Rattle.std.specs.List.{position_or_len};
ghost use Rattle.logic3.specs.Gate.{HasArity};
ghost use Rattle.logic3.specs.Rising.{TicksRise};
ghost use Rattle.logic3.specs.Value.{is_same};
ghost use Rattle.causes.specs.Deciding.{controlling, deciding_place, deciding_value, greatest, last_tick};

use logic3::{Change, GateKind, Value, changes_until, gate};

/// Returns the controlling value of a kind of gate, if any: one pin with it decides what the gate
/// shows.
fn controlling(kind: GateKind) -> Option<Value>
    ensures { result ≡ controlling kind }
{
    match kind {
        GateKind::And | GateKind::Nand => Some(Value::Zero),
        GateKind::Or | GateKind::Nor => Some(Value::One),
        GateKind::Xor | GateKind::Xnor | GateKind::Not | GateKind::Buf => None,
    }
}

/// Returns the place of the first pin that shows a value, or the number of pins if none does.
fn place_of(values: &[Value], value: Value) -> usize
    ensures { result ≡ position_or_len (is_same value) values.now }
{
    values.iter().take_while(|shown| value != **shown).count()
}

/// Returns the value by which pins decide, if they decide by their value.
fn deciding_value(kind: GateKind, values: &[Value]) -> Option<Value>
    requires { HasArity kind (length values.now) }
    ensures { result ≡ deciding_value kind values.now }
{
    if gate(kind, values) == Value::Unknown {
        return Some(Value::Unknown);
    }
    let value = controlling(kind)?;
    if place_of(values, value) < values.len() {
        Some(value)
    } else {
        None
    }
}

/// Returns the greatest of these ticks; 0 if there are none.
fn greatest(ticks: &[u64]) -> u64
    ensures { result ≡ greatest ticks.now }
{
    let mut top = 0;
    for tick in ticks {
        if *tick > top {
            top = *tick;
        }
    }
    top
}

/// Returns the place of the first tick that equals this one, or the number of ticks if none does.
fn place_of_tick(ticks: &[u64], tick: u64) -> usize
    ensures { result ≡ position_or_len (λ other. other == tick) ticks.now }
{
    ticks.iter().take_while(|other| **other != tick).count()
}

/// Returns the place of the pin that decides what a gate shows, from what the pins show and since
/// when.
pub fn deciding_place(kind: GateKind, values: &[Value], since: &[u64]) -> usize
    requires arity { HasArity kind (length values.now) }
    requires each { length since.now ≡ length values.now }
    ensures place { result ≡ deciding_place kind values.now since.now }
    ensures within { result < length values.now }
{
    match deciding_value(kind, values) {
        Some(value) => place_of(values, value),
        None => place_of_tick(since, greatest(since)),
    }
}

/// Returns the tick of the last change that is not after a tick, if any.
///
/// Takes logarithmic time.
pub fn last_tick(changes: &[Change], tick: u64) -> Option<u64>
    requires { TicksRise changes.now }
    ensures { result ≡ last_tick changes.now tick }
{
    changes_until(changes, tick)
        .last()
        .map(|change| change.tick)
}
