//! The fault of each layer that says that an allocation failed.
ghost use Rattle.std.specs.Prelude.{◌≡◌, IfSome, Ok};

use bench_text::BenchFault;
use engine_probes::Teller;
use fanin_cone::ConeTextFault;
use kernel_runs::{DiffFault, TwinFault};
use nullsim::NoOrder;
use prepared_runs::{DeckFault, SimFault};
use program_io::{ProgramFault, ReadFault};
use std::alloc::AllocError;
use std::io::Write;

/// A fault of a call. It is a trait of this crate, since the faults are types of other crates.
pub(crate) trait Fault {
    /// Returns whether an allocation failed.
    fn is_memory(&self) -> bool;
}

/// Prints the line of a call of which only the answer is checked. Returns its value, unless it is a fault.
pub(crate) fn reported<T: Drop, E: Fault + Drop, W: Write>(
    teller: &mut Teller<W>,
    call: &str,
    answer: Result<T, E>,
) -> Option<T>
    ensures { IfSome result (λ value. answer ≡ Ok value) }
{
    match answer {
        Ok(value) => {
            teller.fine(call, true)?;
            Some(value)
        }
        Err(fault) => {
            teller.refused(call, fault.is_memory());
            None
        }
    }
}

impl Fault for AllocError {
    fn is_memory(&self) -> bool {
        true
    }
}

impl Fault for BenchFault {
    fn is_memory(&self) -> bool {
        matches!(self, BenchFault::Memory)
    }
}

impl Fault for ConeTextFault {
    fn is_memory(&self) -> bool {
        matches!(self, ConeTextFault::Memory)
    }
}

impl Fault for SimFault {
    fn is_memory(&self) -> bool {
        matches!(self, SimFault::Memory)
    }
}

impl Fault for TwinFault {
    fn is_memory(&self) -> bool {
        self.fault.is_memory()
    }
}

impl Fault for DiffFault {
    fn is_memory(&self) -> bool {
        matches!(
            self,
            DiffFault::Run(TwinFault {
                fault: SimFault::Memory,
                ..
            })
        )
    }
}

impl Fault for DeckFault {
    fn is_memory(&self) -> bool {
        matches!(self, DeckFault::Sim(SimFault::Memory))
    }
}

impl Fault for ReadFault {
    fn is_memory(&self) -> bool {
        matches!(self, ReadFault::Memory)
    }
}

impl Fault for ProgramFault<'_> {
    fn is_memory(&self) -> bool {
        matches!(self, ProgramFault::Memory)
    }
}

impl Fault for NoOrder {
    fn is_memory(&self) -> bool {
        matches!(self, NoOrder::Memory)
    }
}
