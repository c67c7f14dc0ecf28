//! The number at fault among the arguments.
ghost use Rattle.std.specs.Prelude.{◌≡◌, option_map};
ghost use Rattle.nullsim.specs.AtFault.{diagram_in, draws_in, number_at_fault, ticks_in};
ghost use Rattle.prepared_runs.specs.declared.fault.SimFault.TheVariants.{Setting};
ghost use Rattle.program_io.specs.declared.program_fault.ProgramFault.TheVariants.{Columns, Compared, Run};

use command_line::Order;
use drawn_stimuli::{Draws, DriveFault};
use prepared_runs::{DiagramView, SimFault};
use program_io::ProgramFault;
use timing_diagram::ColumnsFault;
use timing_text::OptionFault;
use wave_diff::{ComparedFault, DiffTicks, Side};

/// Returns the number at fault, if an argument gave it.
pub(crate) fn number_at_fault(order: &Order<'_>, fault: ProgramFault<'_>) -> Option<u64>
    ensures { result ≡ number_at_fault order.now fault.entry }
{
    match fault {
        ProgramFault::Run {
            side,
            fault: SimFault::Setting(fault),
        } => number_of_setting(order, side, fault),
        ProgramFault::Columns(fault) => number_of_columns(order, fault),
        ProgramFault::Compared(fault) => number_of_ticks(order, fault),
        ProgramFault::Drives(DriveFault::BadEvery) => Some(draws_in(order)?.every),
        _ => None,
    }
}

fn number_of_setting(order: &Order<'_>, side: Side, fault: OptionFault) -> Option<u64>
    ensures { result ≡ number_at_fault order.now (Run side (Setting fault)) }
{
    match fault {
        OptionFault::BadDelay => Some(order.options(side)?.delay),
        OptionFault::BadPeriod => Some(order.options(side)?.period),
        OptionFault::BadHorizon => order.last_tick(),
    }
}

fn number_of_columns(order: &Order<'_>, fault: ColumnsFault) -> Option<u64>
    ensures { result ≡ number_at_fault order.now (Columns fault) }
{
    let view = diagram_in(order)?;
    match fault {
        ColumnsFault::NoStep => Some(view.step),
        ColumnsFault::Backwards | ColumnsFault::PastHorizon => Some(view.to),
        ColumnsFault::TooManyColumns | ColumnsFault::TooManyChanges => None,
    }
}

fn number_of_ticks(order: &Order<'_>, fault: ComparedFault) -> Option<u64>
    ensures { result ≡ number_at_fault order.now (Compared fault) }
{
    let ticks = ticks_in(order)?;
    match fault {
        ComparedFault::BadEvery => Some(ticks.every),
        ComparedFault::PastHorizon => Some(ticks.from),
    }
}

/// Returns the diagram that an order draws.
fn diagram_in<'o, 'a>(order: &'o Order<'a>) -> Option<&'o DiagramView<'a>>
    ensures { option_map (λ view. view.now) result ≡ diagram_in order.now }
{
    match order {
        Order::Draw { view, .. } => Some(view),
        _ => None,
    }
}

/// Returns the ticks that an order compares.
fn ticks_in(order: &Order<'_>) -> Option<DiffTicks>
    ensures { result ≡ ticks_in order.now }
{
    match order {
        Order::Diff { ticks, .. } => Some(*ticks),
        _ => None,
    }
}

/// Returns the draws of an order for inputs.
fn draws_in(order: &Order<'_>) -> Option<Draws>
    ensures { result ≡ draws_in order.now }
{
    match order {
        Order::Stimuli { draws, .. } => Some(*draws),
        _ => None,
    }
}
