ghost use Rattle.std.specs.Prelude.{◌≡◌};
ghost use Rattle.timing_text.specs.Options.{options_of};

use crate::fault::OptionFault;
use crate::limits::{MOST_DELAY, MOST_TICKS};

/// Checks that the settings of a run, in ticks, are in their ranges. Allocates nothing.
///
/// # Errors
/// [`OptionFault::BadDelay`] if the default delay is 0 or above 1,000,000, else
/// [`OptionFault::BadPeriod`] if the period is 0 or above 10,000,000.
pub fn options(default_delay: u64, period: u64) -> Result<(), OptionFault>
    ensures { result ≡ options_of default_delay period }
{
    if default_delay < 1 || default_delay > MOST_DELAY {
        return Err(OptionFault::BadDelay);
    }
    if period < 1 || period > MOST_TICKS {
        return Err(OptionFault::BadPeriod);
    }
    Ok(())
}
