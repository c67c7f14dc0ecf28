ghost use Rattle.std.specs.Prelude.{◌≡◌, Some};
ghost use Rattle.vcd_dump.specs.declared.fault.DumpFault.TheVariants.{Memory};
ghost use Rattle.vcd_dump.specs.Faults.{fault_of_write, name_of};

use std::alloc::{AllocError, AllocFailed};
use std::fmt;
use texts::WriteFault;
use thiserror::Error;

/// Why a dump ended early. A prefix of its text has been written then.
#[derive(Clone, Copy, Debug, PartialEq, Eq, Error)]
pub enum DumpFault {
    /// A `write` returned an error of any kind.
    Write,
    /// A `write` took none of its bytes.
    WroteNothing,
    /// An allocation failed.
    Memory,
    /// An earlier call on the stream returned a fault.
    Failed,
}

impl DumpFault {
    /// Returns the fault's name, which is its text.
    pub fn name(&self) -> &'static str
        ensures { result.now ≡ name_of self.now }
    {
        match self {
            DumpFault::Write => "Write",
            DumpFault::WroteNothing => "WroteNothing",
            DumpFault::Memory => "Memory",
            DumpFault::Failed => "Failed",
        }
    }
}

impl fmt::Display for DumpFault {
    ghost output = { λ fault. Some (name_of fault) };

    fn fmt<W: fmt::Write>(&self, f: &mut fmt::Formatter<W>) -> Result<(), fmt::Error> {
        f.write_str(self.name())
    }
}

impl From<WriteFault> for DumpFault {
    ghost from_gives = { λ fault e. e ≡ fault_of_write fault };

    fn from(fault: WriteFault) -> DumpFault {
        match fault {
            WriteFault::Write => DumpFault::Write,
            WriteFault::WroteNothing => DumpFault::WroteNothing,
        }
    }
}

impl From<AllocError> for DumpFault {
    ghost from_gives = { λ _ e. e ≡ Memory };

    fn from(_error: AllocError) -> DumpFault {
        DumpFault::Memory
    }
}

impl<T: Drop> From<AllocFailed<T>> for DumpFault {
    ghost from_gives = { λ _ e. e ≡ Memory };

    fn from(_failed: AllocFailed<T>) -> DumpFault {
        DumpFault::Memory
    }
}
