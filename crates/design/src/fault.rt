ghost use Rattle.std.specs.Prelude.{◌≡◌};
ghost use Rattle.design.specs.declared.fault.BuildFault.TheVariants as build;
ghost use Rattle.design.specs.Faults.{stimulus_fault, timing_fault};

use std::alloc::AllocError;
use thiserror::Error;
use timing_text::{DelayFault, OptionFault, StimulusFault};

/// Why no design was built: the first fault in the order default delay, period, delay text,
/// stimulus text.
#[derive(Clone, Copy, Debug, PartialEq, Eq, Error)]
pub enum BuildFault {
    #[error("{0}")]
    Setting(OptionFault),
    #[error("{0}")]
    Timing(DelayFault),
    #[error("{0}")]
    Stimulus(StimulusFault),
    /// An allocation failed.
    #[error("Memory")]
    Memory,
}

impl From<AllocError> for BuildFault {
    ghost from_gives = { λ _ e. e ≡ build.Memory };

    fn from(_error: AllocError) -> BuildFault {
        BuildFault::Memory
    }
}

impl From<OptionFault> for BuildFault {
    ghost from_gives = { λ fault e. e ≡ build.Setting fault };

    fn from(fault: OptionFault) -> BuildFault {
        BuildFault::Setting(fault)
    }
}

impl From<DelayFault> for BuildFault {
    ghost from_gives = { λ fault e. e ≡ timing_fault fault };

    fn from(fault: DelayFault) -> BuildFault {
        match fault {
            DelayFault::Memory => BuildFault::Memory,
            other => BuildFault::Timing(other),
        }
    }
}

impl From<StimulusFault> for BuildFault {
    ghost from_gives = { λ fault e. e ≡ stimulus_fault fault };

    fn from(fault: StimulusFault) -> BuildFault {
        match fault {
            StimulusFault::Memory => BuildFault::Memory,
            other => BuildFault::Stimulus(other),
        }
    }
}
