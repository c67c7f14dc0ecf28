ghost use Rattle.std.specs.Prelude.{◌≡◌};
ghost use Rattle.kernel_runs.specs.declared.diff_fault.DiffFault.TheVariants as of;
ghost use Rattle.kernel_runs.specs.Diffs.{of_horizon};

use crate::twin_run::TwinFault;
use prepared_runs::SimFault;
use thiserror::Error;
use timing_text::OptionFault;
use wave_diff::{ComparedFault, Side};

/// Why two runs were not compared net by net.
///
/// The horizon, which is reported for the first run, and the ticks to be compared are checked before all
/// else.
#[derive(Clone, Copy, Debug, PartialEq, Eq, Error)]
pub enum DiffFault {
    /// The ticks to be compared are refused.
    #[error("{0}")]
    Compared(ComparedFault),
    /// One of the runs is refused.
    #[error("{0}")]
    Run(TwinFault),
}

impl From<OptionFault> for DiffFault {
    ghost from_gives = { λ fault e. e ≡ of_horizon fault };

    fn from(fault: OptionFault) -> DiffFault {
        DiffFault::Run(TwinFault {
            side: Side::First,
            fault: SimFault::Setting(fault),
        })
    }
}

impl From<ComparedFault> for DiffFault {
    ghost from_gives = { λ fault e. e ≡ of.Compared fault };

    fn from(fault: ComparedFault) -> DiffFault {
        DiffFault::Compared(fault)
    }
}

impl From<TwinFault> for DiffFault {
    ghost from_gives = { λ fault e. e ≡ of.Run fault };

    fn from(fault: TwinFault) -> DiffFault {
        DiffFault::Run(fault)
    }
}
