//! Why the program ended early.
ghost use Rattle.std.specs.Prelude.{◌≡◌, Some};
ghost use Rattle.wave_diff.specs.declared.comparison.Side.TheVariants.{First};
ghost use Rattle.program_io.specs.declared.program_fault.ProgramFault.TheVariants as program;
ghost use Rattle.program_io.specs.ProgramFaults.{fault_of_bench, fault_of_cone, fault_of_deck, fault_of_diagram, fault_of_diff, fault_of_driven, fault_of_read, fault_of_run, fault_of_twin, line_of, name_of, side_of};

use crate::input::ReadFault;
use bench_text::BenchFault;
use drawn_stimuli::{DriveFault, DrivenFault};
use fanin_cone::ConeTextFault;
use kernel_runs::{DiffFault, Side, TwinFault};
use plain_runs::DiagramFault;
use prepared_runs::{DeckFault, SimFault};
use std::alloc::AllocError;
use std::fmt;
use thiserror::Error;
use timing_diagram::ColumnsFault;
use vcd_dump::DumpFault;
use wave_diff::ComparedFault;

/// Why the program ended early. Its text is the NAME at the end of the line of a fault.
#[derive(Clone, Copy, Debug, Error)]
pub enum ProgramFault<'a> {
    /// The text with this name couldn't be read.
    Read(&'a str),
    /// A deck is refused, for another reason than a run's.
    Deck(DeckFault),
    /// A run is refused: the only one, which counts as the first, or one of two.
    Run { side: Side, fault: SimFault },
    /// The columns of a timing diagram are refused.
    Columns(ColumnsFault),
    /// What drives the inputs is refused.
    Drives(DriveFault),
    /// The ticks at which to compare runs are refused.
    Compared(ComparedFault),
    /// A write of the answer failed.
    Output(DumpFault),
    /// An allocation failed.
    Memory,
    /// The whole answer was written, and then the writer couldn't be flushed.
    Flush,
}

impl<'a> ProgramFault<'a> {
    /// Returns the side of the run that is refused, and the first side for any other fault.
    pub fn side(&self) -> Side
        ensures { result ≡ side_of self.now }
    {
        match self {
            ProgramFault::Run { side, .. } => *side,
            _ => Side::First,
        }
    }

    /// Returns the line of the text at fault, from 1, or 0 for a fault without a line.
    pub fn line(&self) -> u64
        ensures { result ≡ line_of self.now }
    {
        match self {
            ProgramFault::Deck(fault) => fault.line(),
            ProgramFault::Run { fault, .. } => fault.line(),
            ProgramFault::Read(_)
            | ProgramFault::Columns(_)
            | ProgramFault::Drives(_)
            | ProgramFault::Compared(_)
            | ProgramFault::Output(_)
            | ProgramFault::Memory
            | ProgramFault::Flush => 0,
        }
    }

    /// Returns the fault's name, which is its text.
    pub fn name(&self) -> &'static str
        ensures { result.now ≡ name_of self.now }
    {
        match self {
            ProgramFault::Read(_) => "Read",
            ProgramFault::Deck(fault) => fault.name(),
            ProgramFault::Run { fault, .. } => fault.name(),
            ProgramFault::Columns(fault) => fault.name(),
            ProgramFault::Drives(fault) => fault.name(),
            ProgramFault::Compared(fault) => fault.name(),
            ProgramFault::Output(fault) => fault.name(),
            ProgramFault::Memory => "Memory",
            ProgramFault::Flush => "Write",
        }
    }

    /// Returns the fault of reading the text with this name.
    pub(crate) fn of_read(fault: ReadFault, name: &'a str) -> ProgramFault<'a>
        ensures { result ≡ fault_of_read name.entry fault }
    {
        match fault {
            ReadFault::Read => ProgramFault::Read(name),
            ReadFault::Memory => ProgramFault::Memory,
        }
    }

    /// Returns the fault of the run on this side.
    fn of_run(side: Side, fault: SimFault) -> ProgramFault<'a>
        ensures { result ≡ fault_of_run side fault }
    {
        match fault {
            SimFault::Dump(fault) => ProgramFault::Output(fault),
            SimFault::Memory => ProgramFault::Memory,
            other => ProgramFault::Run { side, fault: other },
        }
    }
}

impl fmt::Display for ProgramFault<'_> {
    ghost output = { λ fault. Some (name_of fault) };

    fn fmt<W: fmt::Write>(&self, f: &mut fmt::Formatter<W>) -> Result<(), fmt::Error> {
        f.write_str(self.name())
    }
}

impl From<AllocError> for ProgramFault<'_> {
    ghost from_gives = { λ _ e. e ≡ program.Memory };

    fn from(_fault: AllocError) -> Self {
        ProgramFault::Memory
    }
}

impl From<DeckFault> for ProgramFault<'_> {
    ghost from_gives = { λ fault e. e ≡ fault_of_deck fault };

    fn from(fault: DeckFault) -> Self {
        match fault {
            DeckFault::Sim(fault) => ProgramFault::from(fault),
            other => ProgramFault::Deck(other),
        }
    }
}

/// The fault of the only run.
impl From<SimFault> for ProgramFault<'_> {
    ghost from_gives = { λ fault e. e ≡ fault_of_run First fault };

    fn from(fault: SimFault) -> Self {
        ProgramFault::of_run(Side::First, fault)
    }
}

impl From<TwinFault> for ProgramFault<'_> {
    ghost from_gives = { λ fault e. e ≡ fault_of_twin fault };

    fn from(fault: TwinFault) -> Self {
        ProgramFault::of_run(fault.side, fault.fault)
    }
}

/// The fault of the only netlist.
impl From<BenchFault> for ProgramFault<'_> {
    ghost from_gives = { λ fault e. e ≡ fault_of_bench fault };

    fn from(fault: BenchFault) -> Self {
        ProgramFault::from(SimFault::from(fault))
    }
}

impl From<ConeTextFault> for ProgramFault<'_> {
    ghost from_gives = { λ fault e. e ≡ fault_of_cone fault };

    fn from(fault: ConeTextFault) -> Self {
        match fault {
            ConeTextFault::Bench(fault) => ProgramFault::from(fault),
            ConeTextFault::UnknownNet => ProgramFault::from(SimFault::UnknownNet),
            ConeTextFault::Memory => ProgramFault::Memory,
        }
    }
}

impl From<DiagramFault> for ProgramFault<'_> {
    ghost from_gives = { λ fault e. e ≡ fault_of_diagram fault };

    fn from(fault: DiagramFault) -> Self {
        match fault {
            DiagramFault::Columns(fault) => ProgramFault::Columns(fault),
            DiagramFault::Run(fault) => ProgramFault::from(fault),
        }
    }
}

impl From<DrivenFault> for ProgramFault<'_> {
    ghost from_gives = { λ fault e. e ≡ fault_of_driven fault };

    fn from(fault: DrivenFault) -> Self {
        match fault {
            DrivenFault::Setting(fault) => ProgramFault::from(SimFault::Setting(fault)),
            DrivenFault::Bench(fault) => ProgramFault::from(SimFault::Bench(fault)),
            DrivenFault::Drives(fault) => ProgramFault::Drives(fault),
            DrivenFault::Memory => ProgramFault::Memory,
        }
    }
}

impl From<DiffFault> for ProgramFault<'_> {
    ghost from_gives = { λ fault e. e ≡ fault_of_diff fault };

    fn from(fault: DiffFault) -> Self {
        match fault {
            DiffFault::Compared(fault) => ProgramFault::Compared(fault),
            DiffFault::Run(fault) => ProgramFault::from(fault),
        }
    }
}
