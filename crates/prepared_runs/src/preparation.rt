//! What a run starts from.
ghost use Rattle.std.specs.Prelude.{◌≡◌, ◌≢◌, ◌≤◌, Ok, length, All, IfOk, IfErr, OnOk, Err};
ghost use Rattle.cmb_events.specs.Schedule.{most_events, Exists};
ghost use Rattle.prepared_runs.specs.Source.{design_of_source, seen_source, MayWantMemory};
ghost use Rattle.prepared_runs.specs.Ends.{IsRefusal};
ghost use Rattle.prepared_runs.specs.Events.{events_of_picks, seen_picks};
ghost use Rattle.prepared_runs.specs.Prepared.{run_of_source, seen_run};
ghost use Rattle.prepared_runs.specs.declared.fault.SimFault.TheVariants.{Memory};

use crate::fault::SimFault;
use crate::source::{Picks, Source};
use bench_text::read;
use cmb_events::{Schedule, ScheduleFault};
use design::Design;
use std::alloc::Global;
use timing_text::{Horizon, options};

/// A run that can begin.
#[derive(Drop)]
pub struct PreparedRun {
    /// Its last tick.
    pub horizon: Horizon,
    pub design: Design,
    /// The events that are applied before it completes.
    pub schedule: Schedule,
}

/// Prepares the run of a source to a horizon in ticks.
///
/// # Errors
/// The refusals of [`prepare`], and after them [`SimFault::Schedule`] for what picks the events.
pub fn prepare_run(
    alloc: Global,
    source: &Source<'_>,
    horizon: u64,
) -> Result<PreparedRun, SimFault>
    ensures ok { IfOk result (λ run. run_of_source (seen_source source.now) horizon ≡ Ok (seen_run run)) }
    ensures exist { IfOk result (λ run. All (Exists run.design.circuit) run.schedule) }
    ensures few { IfOk result (λ run. length run.schedule ≤ most_events) }
    ensures err { IfErr result (IsRefusal (run_of_source (seen_source source.now) horizon)) }
    ensures begun { OnOk result (MayWantMemory (seen_source source.now) horizon) }
    ensures memory { result ≡ Err Memory → MayWantMemory (seen_source source.now) horizon }
{
    let (horizon, design) = prepare(alloc, source, horizon)?;
    let schedule = picked(alloc, source.picks, &design)?;
    Ok(PreparedRun {
        horizon,
        design,
        schedule,
    })
}

/// Returns the horizon in ticks, which is at most 10,000,000, and the design of a source.
///
/// # Errors
/// The first refusal: [`SimFault::Setting`] for the default delay, the period and the horizon, then
/// [`SimFault::Bench`], [`SimFault::Timing`] and [`SimFault::Stimulus`] for the texts. Memory is taken only
/// after the settings and the length of the netlist's text are checked.
pub fn prepare(
    alloc: Global,
    source: &Source<'_>,
    horizon: u64,
) -> Result<(Horizon, Design), SimFault>
    ensures ok { IfOk result (λ ready. design_of_source (seen_source source.now) horizon ≡ Ok ready) }
    ensures err { IfErr result (IsRefusal (design_of_source (seen_source source.now) horizon)) }
    ensures begun { OnOk result (MayWantMemory (seen_source source.now) horizon) }
    ensures memory { result ≡ Err Memory → MayWantMemory (seen_source source.now) horizon }
{
    options(source.default_delay, source.period)?;
    let horizon = Horizon::new(horizon)?;
    let netlist = read(alloc, source.bench)?;
    let design = Design::build(
        alloc,
        netlist,
        source.delays,
        source.stimuli,
        source.default_delay,
        source.period,
    )?;
    Ok((horizon, design))
}

/// Returns the events that are picked.
fn picked(alloc: Global, picks: Picks<'_>, design: &Design) -> Result<Schedule, ScheduleFault>
    ensures exact { result ≢ Err ScheduleFault.Memory → result ≡ events_of_picks design.now.circuit (seen_picks picks.entry) }
    ensures exist { IfOk result (λ schedule. All (Exists design.now.circuit) schedule) }
    ensures few { IfOk result (λ schedule. length schedule ≤ most_events) }
{
    match picks {
        Picks::Nothing => Ok(Schedule::empty(alloc)),
        Picks::Text(text) => Schedule::read(alloc, text, design),
        Picks::Seeded { seed, picks } => Schedule::seeded(alloc, seed, picks, design),
    }
}
