ghost use Rattle.std.specs.Prelude.{◌≡◌, ◌≤◌, length, nat_lt};
ghost use Rattle.std.specs.List.{prefix_len};
ghost use Rattle.logic3.specs.declared.change.Change.{Change};
ghost use Rattle.logic3.specs.Rising.{TicksRise};
ghost use Rattle.logic3.specs.Wave.{changes_below, changes_until, value_after};

use crate::value::Value;

/// A change to `value` at `tick`: the net shows it until the next change.
#[derive(Clone, Copy, Debug, PartialEq, Eq)]
pub struct Change {
    pub tick: u64,
    pub value: Value,
}

/// Returns the changes that are not after a tick.
///
/// Takes logarithmic time.
pub fn changes_until(changes: &[Change], tick: u64) -> &[Change]
    requires { TicksRise changes.now }
    ensures { result.now ≡ changes_until tick changes.now }
{
    let due = changes.partition_point(|change| change.tick <= tick);
    &changes[..due]
}

/// Returns the changes before a tick.
///
/// Takes logarithmic time.
pub fn changes_below(changes: &[Change], tick: u64) -> &[Change]
    requires { TicksRise changes.now }
    ensures { result.now ≡ changes_below tick changes.now }
{
    let early = changes.partition_point(|change| change.tick < tick);
    &changes[..early]
}

/// Returns the value of the last change that is not after the tick, else `before`.
///
/// Takes logarithmic time.
pub fn value_after(before: Value, changes: &[Change], tick: u64) -> Value
    requires { TicksRise changes.now }
    ensures { result ≡ value_after before changes.now tick }
{
    changes_until(changes, tick)
        .last()
        .map_or(before, |change| change.value)
}

/// Returns the number of changes at the front that are before a tick. Takes a step for each of them.
pub fn due_below(changes: &[Change], tick: u64) -> usize
    ensures count { result ≡ prefix_len (λ (change : Change). nat_lt change.tick tick) changes.now }
    ensures within { result ≤ length changes.now }
{
    changes
        .iter()
        .take_while(|change| change.tick < tick)
        .count()
}
