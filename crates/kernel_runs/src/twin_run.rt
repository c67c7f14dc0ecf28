//! Two runs, compared at one net.
ghost use Rattle.std.specs.Prelude.{◌≡◌, ◌+◌, ◌<◌, ◌≤◌, ◌↔◌, ◌∷◌, [], length, All, IfErr, IfOk, IsOkAnd, IsTrue, OnOk, Ok, Err};
ghost use Rattle.logic3.specs.Wave.{wave_of};
ghost use Rattle.design.specs.Equations.{value_of};
ghost use Rattle.cmb_events.specs.Schedule.{most_events, Exists};
ghost use Rattle.fanin_cone.specs.Agreement.{AgreesOn};
ghost use Rattle.fanin_cone.specs.Cone.{InCone};
ghost use Rattle.prepared_runs.specs.Source.{seen_source, MayWantMemory};
ghost use Rattle.prepared_runs.specs.Prepared.{seen_run};
ghost use Rattle.kernel_runs.specs.Simulated.{EndsComplete};
ghost use Rattle.kernel_runs.specs.Twins.{CanCompare, IsComparison, IsTwinRefusal, twins_in, twins_of};
ghost use Rattle.prepared_runs.specs.declared.fault.SimFault.TheVariants.{Memory};

use crate::sweep_run::complete;
use fanin_cone::agree;
use logic3::Waveform;
use prepared_runs::{PreparedRun, SimFault, Source, net_named, prepare_run};
use std::alloc::Global;
use thiserror::Error;
use wave_diff::Side;

/// Why two runs were not compared, and which of them is at fault.
///
/// All checks of the first run come before all of the second, and the net's name is looked up after them, in
/// the first run and then in the second. If an allocation fails, the fault may name either side.
#[derive(Clone, Copy, Debug, PartialEq, Eq, Error)]
#[error("{fault}")]
pub struct TwinFault {
    pub side: Side,
    pub fault: SimFault,
}

/// Returns the result, whose fault becomes one of this side.
pub(crate) fn blame<T>(side: Side, outcome: Result<T, SimFault>) -> Result<T, TwinFault>
    ensures ok { IfOk result (λ value. outcome ≡ Ok value) }
    ensures err { IfErr result (λ fault. outcome ≡ Err fault.fault) }
    ensures side { IfErr result (λ fault. fault.side ≡ side) }
{
    match outcome {
        Ok(value) => Ok(value),
        Err(fault) => Err(TwinFault { side, fault }),
    }
}

/// What two runs show of one net.
#[derive(Debug, Drop)]
pub struct TwinAnswer {
    /// Whether the runs agree on the fan-in cone that the net has in the first one: they have the
    /// same parts, pins, timings and stimuli there, at ticks up to the horizon.
    pub agree: bool,
    /// What the net shows in the first run, up to the horizon.
    pub first: Waveform,
    /// What the net of this name shows in the second run, up to the horizon.
    pub second: Waveform,
}

/// Runs two sources to one horizon by the kernel, and compares what the net of a name shows in both.
///
/// If they agree on the net's fan-in cone, it shows the same in both, whatever else they contain and whatever
/// picks their events.
///
/// # Errors
/// A refusal of a source, and [`SimFault::UnknownNet`] if a run has no net of this name.
pub fn twin(
    alloc: Global,
    first: &Source<'_>,
    second: &Source<'_>,
    name: &[u8],
    horizon: u64,
) -> Result<TwinAnswer, TwinFault>
    ensures ok { IfOk result (λ answer.
        IsOkAnd (twins_of (seen_source first.now) (seen_source second.now) name.now horizon)
        (λ twins. IsComparison twins name.now horizon answer)) }
    ensures isolated { IfOk result (λ answer. IsTrue answer.agree → answer.first ≡ answer.second) }
    // Both runs end complete.
    ensures first_complete { OnOk result (EndsComplete (seen_source first.now) horizon) }
    ensures second_complete { OnOk result (EndsComplete (seen_source second.now) horizon) }
    ensures err { IfErr result
        (IsTwinRefusal (twins_of (seen_source first.now) (seen_source second.now) name.now horizon)) }
    ensures memory { IfErr result (λ fault. fault.fault ≡ Memory → MayWantMemory (seen_source first.now) horizon) }
{
    let one = blame(Side::First, prepare_run(alloc, first, horizon))?;
    let other = blame(Side::Second, prepare_run(alloc, second, horizon))?;
    compare(alloc, &one, &other, name)
}

/// Runs two prepared runs to the end, and compares what the net of a name shows in both.
fn compare(
    alloc: Global,
    one: &PreparedRun,
    other: &PreparedRun,
    name: &[u8],
) -> Result<TwinAnswer, TwinFault>
    requires { CanCompare one.now other.now }
    ensures ok { IfOk result (λ answer. IsOkAnd (twins_in (seen_run one.now) (seen_run other.now) name.now)
        (λ twins. IsComparison twins name.now one.now.horizon answer)) }
    ensures isolated { IfOk result (λ answer. IsTrue answer.agree → answer.first ≡ answer.second) }
    ensures err { IfErr result (IsTwinRefusal (twins_in (seen_run one.now) (seen_run other.now) name.now)) }
{
    let net = blame(Side::First, net_named(&one.design, name))?;
    let other_net = blame(Side::Second, net_named(&other.design, name))?;
    let agree = blame(Side::First, is_agreed(alloc, one, other, name))?;
    let first = blame(Side::First, wave_at_end(alloc, one, net))?;
    let second = blame(Side::Second, wave_at_end(alloc, other, other_net))?;
    Ok(TwinAnswer {
        agree,
        first,
        second,
    })
}

/// Returns whether the runs agree, up to the first one's horizon, on the net's fan-in cone there.
fn is_agreed(
    alloc: Global,
    first: &PreparedRun,
    second: &PreparedRun,
    name: &[u8],
) -> Result<bool, SimFault>
    ensures ok { IfOk result (λ agrees. IsTrue agrees ↔ AgreesOn first.now.design second.now.design
        (InCone first.now.design.netlist (name.now ∷ [])) first.now.horizon) }
    ensures err { IfErr result (λ fault. fault ≡ SimFault.Memory) }
{
    let agreed = agree(alloc, &first.design, &second.design, name, first.horizon)?;
    Ok(agreed.unwrap_or(false))
}

/// Runs to the end, and returns what a net shows up to the horizon.
fn wave_at_end(alloc: Global, run: &PreparedRun, net: u32) -> Result<Waveform, SimFault>
    requires net { net < length run.now.design.circuit }
    requires exist { All (Exists run.now.design.circuit) run.now.schedule }
    requires few { length run.now.schedule ≤ most_events }
    ensures ok { IfOk result (λ wave. wave ≡ wave_of (value_of run.now.design.circuit net) 0 (run.now.horizon + 1)) }
    ensures err { IfErr result (λ fault. fault ≡ SimFault.Memory) }
{
    let kernel = complete(alloc, run)?;
    Ok(kernel.waveform(net).copy()?)
}
