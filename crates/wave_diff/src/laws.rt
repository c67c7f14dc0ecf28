//! Facts about the definitions alone.
ghost use Rattle.std.specs.Prelude.{◌≡◌, ℕ, ◌≤◌, None, Some};
ghost use Rattle.logic3.specs.declared.value.Value.{Value};
ghost use Rattle.wave_diff.specs.declared.difference.Difference.{Difference};
ghost use Rattle.wave_diff.specs.Compared.{ComparedTicks};
ghost use Rattle.wave_diff.specs.Difference.{first_difference, IsFirstDifference, SameWhereCompared};

/// The first difference of two signals is at a compared tick, with what each shows there. They differ
/// there, and show the same at each compared tick before it. No other difference meets these
/// conditions.
pub fn first_difference_is_first()
    ensures is_first { (first second : ℕ → Value) (compared : ComparedTicks) (found : Difference) →
        first_difference first second compared ≡ Some found → IsFirstDifference first second compared found }
    ensures only { (first second : ℕ → Value) (compared : ComparedTicks) (found : Difference) →
        IsFirstDifference first second compared found → first_difference first second compared ≡ Some found }
{}

/// Two signals have no first difference exactly if they show the same at every compared tick. They have
/// none if they show the same at every tick up to the last that may be compared.
pub fn no_difference_where_same()
    ensures none { (first second : ℕ → Value) (compared : ComparedTicks) →
        first_difference first second compared ≡ None → SameWhereCompared first second compared }
    ensures same { (first second : ℕ → Value) (compared : ComparedTicks) →
        SameWhereCompared first second compared → first_difference first second compared ≡ None }
    ensures same_to_end { (first second : ℕ → Value) (compared : ComparedTicks) →
        ((tick : ℕ) → tick ≤ compared.to → first tick ≡ second tick) →
        first_difference first second compared ≡ None }
{}
