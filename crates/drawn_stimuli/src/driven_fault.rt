ghost use Rattle.std.specs.Prelude.{◌≡◌};
ghost use Rattle.drawn_stimuli.specs.declared.driven_fault.DrivenFault.TheVariants.{Setting};
ghost use Rattle.drawn_stimuli.specs.Driven.{driven_of_bench, driven_of_drives};

use crate::fault::DriveFault;
use bench_text::BenchFault;
use thiserror::Error;
use timing_text::OptionFault;

/// Why there is no stimulus text for a netlist.
///
/// The first fault is reported, in this order: the horizon, the netlist, what is to drive its inputs. If an
/// allocation of any layer fails, the fault is [`Memory`](Self::Memory).
#[derive(Clone, Copy, Debug, PartialEq, Eq, Error)]
pub enum DrivenFault {
    /// The horizon is refused.
    #[error("{0}")]
    Setting(OptionFault),
    /// The netlist is refused.
    #[error("{0}")]
    Bench(BenchFault),
    /// What is to drive the inputs is refused.
    #[error("{0}")]
    Drives(DriveFault),
    /// An allocation failed.
    #[error("Memory")]
    Memory,
}

impl From<OptionFault> for DrivenFault {
    ghost from_gives = { λ fault e. e ≡ Setting fault };

    fn from(fault: OptionFault) -> DrivenFault {
        DrivenFault::Setting(fault)
    }
}

impl From<BenchFault> for DrivenFault {
    ghost from_gives = { λ fault e. e ≡ driven_of_bench fault };

    fn from(fault: BenchFault) -> DrivenFault {
        match fault {
            BenchFault::Memory => DrivenFault::Memory,
            other => DrivenFault::Bench(other),
        }
    }
}

impl From<DriveFault> for DrivenFault {
    ghost from_gives = { λ fault e. e ≡ driven_of_drives fault };

    fn from(fault: DriveFault) -> DrivenFault {
        match fault {
            DriveFault::Memory => DrivenFault::Memory,
            other => DrivenFault::Drives(other),
        }
    }
}
