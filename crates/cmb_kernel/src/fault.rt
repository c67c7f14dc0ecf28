ghost use Rattle.std.specs.Prelude.{◌≡◌, Some};
ghost use Rattle.cmb_kernel.specs.declared.fault.KernelFault.TheVariants as kernel;
ghost use Rattle.cmb_kernel.specs.Faults.{name_of};

use std::alloc::{AllocError, AllocFailed};
use std::fmt;
use thiserror::Error;

/// Why a kernel refuses a call, or fails during one.
///
/// [`Failed`](Self::Failed) comes before all else, and [`TooManyEvents`](Self::TooManyEvents) before
/// the first bad event of a list. A refusal changes nothing.
#[derive(Clone, Copy, Debug, PartialEq, Eq, Error)]
pub enum KernelFault {
    /// The event at this place of its list, from 0, names a pin that doesn't exist.
    NoSuchPin { at: u64 },
    /// The event at this place of its list, from 0, names a net that doesn't exist.
    NoSuchNet { at: u64 },
    /// The list has more than 10,000,000 events.
    TooManyEvents,
    /// An allocation failed. A kernel that was running has failed from then on.
    Memory,
    /// The kernel has failed: an earlier call returned [`Memory`](Self::Memory).
    Failed,
}

impl KernelFault {
    /// Returns the fault's name, which is its text.
    pub fn name(&self) -> &'static str
        ensures { result.now ≡ name_of self.now }
    {
        match self {
            KernelFault::NoSuchPin { .. } => "NoSuchPin",
            KernelFault::NoSuchNet { .. } => "NoSuchNet",
            KernelFault::TooManyEvents => "TooManyEvents",
            KernelFault::Memory => "Memory",
            KernelFault::Failed => "Failed",
        }
    }
}

impl fmt::Display for KernelFault {
    ghost output = { λ fault. Some (name_of fault) };

    fn fmt<W: fmt::Write>(&self, f: &mut fmt::Formatter<W>) -> Result<(), fmt::Error> {
        f.write_str(self.name())
    }
}

impl From<AllocError> for KernelFault {
    ghost from_gives = { λ _ e. e ≡ kernel.Memory };

    fn from(_error: AllocError) -> KernelFault {
        KernelFault::Memory
    }
}

impl<T: Drop> From<AllocFailed<T>> for KernelFault {
    ghost from_gives = { λ _ e. e ≡ kernel.Memory };

    fn from(_failed: AllocFailed<T>) -> KernelFault {
        KernelFault::Memory
    }
}
