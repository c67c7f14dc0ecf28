ghost use Rattle.std.specs.Prelude.{◌≡◌};
ghost use Rattle.fanin_cone.specs.declared.fault.ConeFault.TheVariants.{Memory};
ghost use Rattle.fanin_cone.specs.ConeText.{text_fault_of_bench, text_fault_of_cone};

use bench_text::BenchFault;
use std::alloc::{AllocError, AllocFailed};
use thiserror::Error;

/// Why no netlist was extracted.
#[derive(Clone, Copy, Debug, PartialEq, Eq, Error)]
pub enum ConeFault {
    /// No net has the name at this place, counted from 0. Each name before it is that of a net.
    #[error("UnknownNet")]
    UnknownNet { at: u64 },
    /// An allocation failed.
    #[error("Memory")]
    Memory,
}

impl From<AllocError> for ConeFault {
    ghost from_gives = { λ _ e. e ≡ Memory };

    fn from(_error: AllocError) -> ConeFault {
        ConeFault::Memory
    }
}

impl<T: Drop> From<AllocFailed<T>> for ConeFault {
    ghost from_gives = { λ _ e. e ≡ Memory };

    fn from(_failed: AllocFailed<T>) -> ConeFault {
        ConeFault::Memory
    }
}

/// Why there is no text of the nets in cones.
///
/// The first fault is reported, in this order: the netlist, the names of nets, the length of the text. If an
/// allocation of any layer fails, the fault is [`Memory`](Self::Memory).
#[derive(Clone, Copy, Debug, PartialEq, Eq, Error)]
pub enum ConeTextFault {
    /// The netlist is refused, there is no net to write, or the text would be too long.
    #[error("{0}")]
    Bench(BenchFault),
    /// No net has one of the names asked for.
    #[error("UnknownNet")]
    UnknownNet,
    /// An allocation failed.
    #[error("Memory")]
    Memory,
}

impl From<BenchFault> for ConeTextFault {
    ghost from_gives = { λ fault e. e ≡ text_fault_of_bench fault };

    fn from(fault: BenchFault) -> ConeTextFault {
        match fault {
            BenchFault::Memory => ConeTextFault::Memory,
            other => ConeTextFault::Bench(other),
        }
    }
}

impl From<ConeFault> for ConeTextFault {
    ghost from_gives = { λ fault e. e ≡ text_fault_of_cone fault };

    fn from(fault: ConeFault) -> ConeTextFault {
        match fault {
            ConeFault::UnknownNet { .. } => ConeTextFault::UnknownNet,
            ConeFault::Memory => ConeTextFault::Memory,
        }
    }
}
