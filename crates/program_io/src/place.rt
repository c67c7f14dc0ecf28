//! The place of a fault: the text at fault, or what else is.
ghost use Rattle.std.specs.Prelude.{◌≡◌};
ghost use Rattle.prepared_runs.specs.RunTexts.{seen};
ghost use Rattle.program_io.specs.Place.{place_of, run_place};

use crate::program_fault::ProgramFault;
use prepared_runs::{RunTexts, SimFault};

/// Returns the WHERE of the line of a fault: the name of the text at fault, or of what else is.
pub(crate) fn fault_place<'a>(fault: ProgramFault<'a>, names: RunTexts<&'a str>) -> &'a str
    ensures { result.now ≡ place_of (seen names.entry) fault.entry }
{
    match fault {
        ProgramFault::Read(name) => name,
        ProgramFault::Deck(_) => "deck",
        ProgramFault::Run { fault, .. } => run_place(fault, names),
        ProgramFault::Columns(_) | ProgramFault::Drives(_) | ProgramFault::Compared(_) => "options",
        ProgramFault::Output(_) | ProgramFault::Flush => "stdout",
        ProgramFault::Memory => "memory",
    }
}

/// Returns the name of the text for which a run is refused, or of what else is at fault.
fn run_place<'a>(fault: SimFault, names: RunTexts<&'a str>) -> &'a str
    ensures { result.now ≡ run_place (seen names.entry) fault }
{
    match fault {
        SimFault::Setting(_) => "options",
        SimFault::Bench(_) | SimFault::UnknownNet => names.bench,
        SimFault::Timing(_) => names.delays,
        SimFault::Stimulus(_) => names.stimuli,
        SimFault::Schedule(_) => names.schedule,
        SimFault::Dump(_) => "stdout",
        SimFault::Memory => "memory",
    }
}
