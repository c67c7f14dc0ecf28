ghost use Rattle.std.specs.Prelude.{◌≡◌, ℕ, not, IfSome};
ghost use Rattle.logic3.specs.Value.{is_same};
ghost use Rattle.logic3.specs.Wave.{value_at, IsBefore};
ghost use Rattle.wave_diff.specs.Compared.{IsCompared};
ghost use Rattle.wave_diff.specs.Difference.{first_difference};
ghost use Rattle.wave_diff.specs.Ticks.{NotBefore};

use crate::compared::Compared;
use crate::ticks::next_change;
use logic3::{Value, Waveform};

/// A tick, and what two waveforms show there.
#[derive(Clone, Copy, Debug, PartialEq, Eq)]
pub struct Difference {
    pub tick: u64,
    pub first: Value,
    pub second: Value,
}

/// Returns the first of the compared ticks at which two waveforms differ, and what each shows there;
/// `None` if they show the same at all of them.
///
/// Takes at most a step for each change of the two, and logarithmic time for each step, for any
/// number of compared ticks. Allocates nothing.
pub fn first_difference(
    first: &Waveform,
    second: &Waveform,
    compared: Compared,
) -> Option<Difference>
    ensures { result ≡ first_difference (value_at first.now) (value_at second.now) compared }
{
    let mut next = compared.next_from(0);
    while let Some(tick) = next {
        let shown = first.value_at(tick);
        let other = second.value_at(tick);
        if differ(shown, other) {
            return Some(Difference {
                tick,
                first: shown,
                second: other,
            });
        }
        next = next_compared(compared, next_change(first, second, tick));
    }
    None
}

/// Returns whether two values differ.
fn differ(first: Value, second: Value) -> bool
    ensures { result ≡ not (is_same first second) }
{
    first != second
}

/// Returns the first compared tick from a tick on; `None` if there is no tick.
fn next_compared(compared: Compared, tick: Option<u64>) -> Option<u64>
    ensures compared { IfSome result (IsCompared compared) }
    ensures from { IfSome result (λ at. NotBefore at tick) }
    ensures first { (at : ℕ) → IsCompared compared at → NotBefore at tick → IsBefore at result → ⊥ }
{
    compared.next_from(tick?)
}
