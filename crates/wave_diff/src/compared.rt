ghost use Rattle.std.specs.Prelude.{◌≡◌, ℕ, ◌≤◌, Result, Ok, Err, IfOk, IfSome};

use crate::fault::ComparedFault;
use crate::ticks::next_multiple;
use std::marker::Model;

/// The ticks at which waveforms are compared: the multiples of a number from a tick up to the horizon
/// of a run. With the number 1 these are all ticks.
#[derive(Clone, Copy, Debug, PartialEq, Eq)]
pub struct Compared {
    from: u64,
    every: u64,
    to: u64,
}

impl Model for Compared {
    ghost use Rattle.wave_diff.specs.Compared.{ComparedTicks, IsComparable};

    ghost Value = { ComparedTicks };

    ghost view = { λ c. record { from = c.from; every = c.every; to = c.to } };

    ghost invariant = { λ c. IsComparable (record { from = c.from; every = c.every; to = c.to }) };

    ghost inverse = { λ t. record { from = t.from; every = t.every; to = t.to } };
}

impl Compared {
    ghost use Rattle.logic3.specs.Wave.{IsBefore};
    ghost use Rattle.wave_diff.specs.Compared.{IsComparable, IsCompared, compared_of};

    /// Returns the multiples of `every` that are at least `from` and at most the horizon.
    ///
    /// # Errors
    /// [`ComparedFault::BadEvery`] if `every` is 0, else [`ComparedFault::PastHorizon`] if `from` is past
    /// the horizon.
    pub fn new(from: u64, every: u64, horizon: u64) -> Result<Compared, ComparedFault>
        ensures exact { result ≡ compared_of from every horizon }
        ensures comparable { IfOk result IsComparable }
        ensures end { IfOk result (λ ticks. ticks.to ≡ horizon) }
    {
        if every == 0 {
            return Err(ComparedFault::BadEvery);
        }
        if from > horizon {
            return Err(ComparedFault::PastHorizon);
        }
        Ok(Compared {
            from,
            every,
            to: horizon,
        })
    }

    /// Returns the first compared tick from a tick on, if any.
    pub(crate) fn next_from(self, tick: u64) -> Option<u64>
        ensures compared { IfSome result (IsCompared self) }
        ensures from { IfSome result (λ at. tick ≤ at) }
        ensures first { (at : ℕ) → IsCompared self at → tick ≤ at → IsBefore at result → ⊥ }
    {
        let next = next_multiple(tick.max(self.from), self.every)?;
        if next > self.to { None } else { Some(next) }
    }
}
