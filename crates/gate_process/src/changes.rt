ghost use Rattle.std.specs.Prelude.{◌≡◌, ◌≤◌, false, length, nat_le};
ghost use Rattle.std.specs.Option.{option_map_or};
ghost use Rattle.std.specs.List.{prefix_len};
ghost use Rattle.logic3.specs.declared.change.Change.{Change};
ghost use Rattle.logic3.specs.Wave.{value_in_the_end};

use logic3::{Change, Value};

/// Returns whether the tick from which on nothing is known, if any, is not after this tick.
pub fn is_unknown_at(unknown: Option<u64>, tick: u64) -> bool
    ensures { result ≡ option_map_or (λ from. nat_le from tick) unknown false }
{
    match unknown {
        Some(from) => from <= tick,
        None => false,
    }
}

/// Returns the value of the last change, or the value before them if there is none.
pub fn last_value(before: Value, changes: &[Change]) -> Value
    ensures { result ≡ value_in_the_end before changes.now }
{
    changes.last().map_or(before, |change| change.value)
}

/// Returns the number of leading changes that aren't after a tick, in as many steps.
pub fn due_changes(changes: &[Change], tick: u64) -> usize
    ensures count { result ≡ prefix_len (λ (change : Change). nat_le change.tick tick) changes.now }
    ensures within { result ≤ length changes.now }
{
    changes
        .iter()
        .take_while(|change| change.tick <= tick)
        .count()
}
