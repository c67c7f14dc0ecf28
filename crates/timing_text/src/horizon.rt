ghost use Rattle.std.specs.Prelude.{◌≡◌, ◌≤◌, ℕ, Result, Ok, Err};
ghost use Rattle.timing_text.specs.Ranges.{most_ticks};

use crate::fault::OptionFault;
use crate::limits::MOST_TICKS;
use std::marker::Model;

/// The last tick of a run: at most 10,000,000.
#[derive(Clone, Copy, Debug, PartialEq, Eq)]
pub struct Horizon {
    ticks: u64,
}

impl Model for Horizon {
    ghost Value = { ℕ };

    ghost view = { λ h. h.ticks };

    ghost invariant = { λ h. h.ticks ≤ most_ticks };

    ghost inverse = { λ ticks. record { ticks = ticks } };
}

impl Horizon {
    ghost use Rattle.timing_text.specs.Options.{horizon_of};

    /// Returns the horizon at a tick.
    ///
    /// # Errors
    /// [`OptionFault::BadHorizon`] if it is above 10,000,000.
    pub fn new(ticks: u64) -> Result<Horizon, OptionFault>
        ensures { result ≡ horizon_of ticks }
    {
        if ticks > MOST_TICKS {
            return Err(OptionFault::BadHorizon);
        }
        Ok(Horizon { ticks })
    }

    pub fn ticks(self) -> u64
        ensures ticks { result ≡ self }
        ensures limit { result ≤ most_ticks }
    {
        self.ticks
    }
}
