ghost use Rattle.std.specs.Prelude.{◌≡◌};
ghost use Rattle.plain_runs.specs.declared.diagram_fault.DiagramFault.TheVariants as of;
ghost use Rattle.prepared_runs.specs.Faults.{sim_of_dump};
ghost use Rattle.prepared_runs.specs.declared.fault.SimFault.TheVariants.{Memory, Setting};

use prepared_runs::SimFault;
use std::alloc::AllocError;
use thiserror::Error;
use timing_diagram::ColumnsFault;
use timing_text::OptionFault;
use vcd_dump::DumpFault;

/// Why the timing diagram of a run ended early.
///
/// The horizon and the ticks to be drawn are checked before all else.
#[derive(Clone, Copy, Debug, PartialEq, Eq, Error)]
pub enum DiagramFault {
    /// The ticks can't be drawn.
    #[error("{0}")]
    Columns(ColumnsFault),
    /// The run is refused, its horizon among its settings, or writing the diagram failed.
    #[error("{0}")]
    Run(SimFault),
}

impl From<OptionFault> for DiagramFault {
    ghost from_gives = { λ fault e. e ≡ of.Run (Setting fault) };

    fn from(fault: OptionFault) -> DiagramFault {
        DiagramFault::Run(SimFault::Setting(fault))
    }
}

impl From<ColumnsFault> for DiagramFault {
    ghost from_gives = { λ fault e. e ≡ of.Columns fault };

    fn from(fault: ColumnsFault) -> DiagramFault {
        DiagramFault::Columns(fault)
    }
}

impl From<AllocError> for DiagramFault {
    ghost from_gives = { λ _ e. e ≡ of.Run Memory };

    fn from(_refused: AllocError) -> DiagramFault {
        DiagramFault::Run(SimFault::Memory)
    }
}

impl From<DumpFault> for DiagramFault {
    ghost from_gives = { λ fault e. e ≡ of.Run (sim_of_dump fault) };

    fn from(fault: DumpFault) -> DiagramFault {
        DiagramFault::Run(SimFault::from(fault))
    }
}

impl From<SimFault> for DiagramFault {
    ghost from_gives = { λ fault e. e ≡ of.Run fault };

    fn from(fault: SimFault) -> DiagramFault {
        DiagramFault::Run(fault)
    }
}
