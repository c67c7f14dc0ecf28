//! A run of only the nets in the cones of those that are shown.
ghost use Rattle.std.specs.Prelude.{◌≡◌, IfOk};
ghost use Rattle.prepared_runs.specs.Prepared.{seen_run};
ghost use Rattle.kernel_runs.specs.Alone.{CanShow, ShowsTheSame};
ghost use Rattle.kernel_runs.specs.Simulated.{known_after_events};

use cmb_events::Schedule;
use fanin_cone::cones_alone;
use prepared_runs::PreparedRun;
use std::alloc::{AllocError, Global};

/// A run, and the numbers of the nets that it shows.
#[derive(Drop)]
pub(crate) struct ShownRun {
    pub(crate) run: PreparedRun,
    pub(crate) nets: Vec<u32>,
}

/// Returns a run in which these nets show what they show in this one: that of only the nets in their fan-in
/// cones, if these are not all nets and no events were picked.
///
/// All picked events are applied, and they may be of any nets, so a run that has some stays unchanged.
pub(crate) fn cones_of(
    alloc: Global,
    run: PreparedRun,
    nets: Vec<u32>,
) -> Result<ShownRun, AllocError>
    requires { CanShow run nets.items }
    ensures can { IfOk result (λ shown. CanShow shown.run shown.nets.items) }
    ensures same { IfOk result (λ shown. ShowsTheSame shown.run shown.nets.items run nets.items) }
    // As many ticks are known after the events.
    ensures known { IfOk result (λ shown. known_after_events (seen_run shown.run) ≡ known_after_events (seen_run run)) }
    ensures schedule { IfOk result (λ shown. shown.run.schedule ≡ run.schedule) }
{
    if nets.is_empty() || !run.schedule.events().is_empty() {
        return Ok(ShownRun { run, nets });
    }
    let Some(design) = cones_alone(alloc, &run.design, nets.as_slice())? else {
        return Ok(ShownRun { run, nets });
    };
    let nets = Vec::from_slice(alloc, design.netlist().outputs())?;
    let run = PreparedRun {
        horizon: run.horizon,
        design,
        schedule: Schedule::empty(alloc),
    };
    Ok(ShownRun { run, nets })
}
