//! The tick that is checked next.
ghost use Rattle.std.specs.Prelude.{◌≡◌, ◌≢◌, ℕ, ◌<◌, ◌≤◌, ◌%◌, ◌^◌, Some};
ghost use Rattle.logic3.specs.Wave.{value_at, IsBefore};

use logic3::Waveform;

/// Returns the first multiple of a number from a tick on; `None` if it doesn't fit in a `u64`.
pub fn next_multiple(tick: u64, every: u64) -> Option<u64>
    requires { 0 < every }
    ensures multiple { (at : ℕ) → result ≡ Some at → at % every ≡ 0 }
    ensures from { (at : ℕ) → result ≡ Some at → tick ≤ at }
    ensures first { (at : ℕ) → tick ≤ at → at < 2 ^ 64 → IsBefore at result → at % every ≢ 0 }
{
    let over = tick % every;
    if over == 0 {
        return Some(tick);
    }
    tick.checked_add(every - over)
}

/// Returns the tick of the first change of two waveforms after a tick, if any. Takes logarithmic time.
pub fn next_change(first: &Waveform, second: &Waveform, tick: u64) -> Option<u64>
    ensures later { (at : ℕ) → result ≡ Some at → tick < at }
    ensures first { (at : ℕ) → tick ≤ at → IsBefore at result → value_at first.now at ≡ value_at first.now tick }
    ensures second { (at : ℕ) → tick ≤ at → IsBefore at result → value_at second.now at ≡ value_at second.now tick }
{
    match (
        first.next_change_after(tick),
        second.next_change_after(tick),
    ) {
        (Some(one), Some(other)) => Some(one.min(other)),
        (Some(one), None) => Some(one),
        (None, other) => other,
    }
}
