//! The table of frontiers of a run.
ghost use Rattle.std.specs.Prelude.{◌≡◌, ◌<◌, length, All, Err, IfErr, IsOkAnd, OnOk};
ghost use Rattle.std.specs.Io.KnownBytes.{Appends};
ghost use Rattle.cmb_events.specs.Schedule.{Exists};
ghost use Rattle.prepared_runs.specs.Ends.{BreaksOff, RunEndsBy};
ghost use Rattle.prepared_runs.specs.Prepared.{seen_run};
ghost use Rattle.prepared_runs.specs.Source.{seen_source, shown_nets, MayWantMemory};
ghost use Rattle.event_trace.specs.Frontiers.{frontiers_of_run, frontiers_of_source};
ghost use Rattle.prepared_runs.specs.declared.fault.SimFault.TheVariants.{Memory};

use crate::frontier_rows::frontier_table;
use prepared_runs::{PreparedRun, Selection, SimFault, Source, prepare_run, shown_nets};
use std::alloc::Global;
use std::io::Write;

/// Runs a source by the kernel, which applies the picked events and then completes by rounds, and writes a table
/// of the frontiers of the shown nets, as [`frontier_table`](crate::frontier_table) does.
///
/// # Errors
/// As for [`trace`](crate::trace), and after its refusals [`SimFault::UnknownNet`] if no net has one of the names
/// to be shown.
pub fn frontiers<W: Write>(
    alloc: Global,
    source: &Source<'_>,
    horizon: u64,
    show: &Selection<'_>,
    out: &mut W,
) -> Result<(), SimFault>
    ensures ok { OnOk result (IsOkAnd (frontiers_of_source (seen_source source.now) horizon show.now)
        (Appends (W.contents out.old) (W.contents out.new))) }
    ensures err { IfErr result (RunEndsBy (frontiers_of_source (seen_source source.now) horizon show.now)
        (W.contents out.old) (W.contents out.new)) }
    ensures memory { result ≡ Err Memory → MayWantMemory (seen_source source.now) horizon }
{
    let run = prepare_run(alloc, source, horizon)?;
    let nets = shown_nets(alloc, &run.design, show)?;
    frontiers_prepared(alloc, &run, show, nets.as_slice(), out)
}

/// Does the same for a prepared run and these nets, which are the shown ones.
fn frontiers_prepared<W: Write>(
    alloc: Global,
    run: &PreparedRun,
    show: &Selection<'_>,
    nets: &[u32],
    out: &mut W,
) -> Result<(), SimFault>
    requires exist { All (Exists run.now.design.circuit) run.now.schedule }
    requires shown { nets.now ≡ shown_nets show.now run.now.design.netlist }
    requires nets { All (λ net. net < length run.now.design.circuit) nets.now }
    ensures ok { OnOk result
        (Appends (W.contents out.old) (W.contents out.new) (frontiers_of_run show.now (seen_run run.now))) }
    ensures err { IfErr result
        (BreaksOff (W.contents out.old) (W.contents out.new) (frontiers_of_run show.now (seen_run run.now))) }
{
    let events = run.schedule.events();
    frontier_table(alloc, out, &run.design, run.horizon, events, nets)?;
    Ok(())
}
