//! Changes taken out of a run's kernel, below a tick up to which every net is known.
ghost use Rattle.std.specs.Prelude.{◌≡◌, ◌≢◌, ℕ, ◌+◌, ◌<◌, ◌≤◌, [], false, length, map, All, AllPairs, IfErr, OnOk};
ghost use Rattle.logic3.specs.Wave.{changes_between};
ghost use Rattle.design.specs.Equations.{value_of};
ghost use Rattle.cmb_kernel.specs.State.{floor_at, least_frontier};
ghost use Rattle.cmb_kernel.specs.Sound.{IsSound};
ghost use Rattle.vcd_dump.specs.Spans.{with_parts};
ghost use Rattle.kernel_runs.specs.Drained.{EachFloor, DrainsTo};

use crate::kernel_calls::drain_below_into;
use crate::simulation::StreamKernel;
use prepared_runs::SimFault;
use std::alloc::{AllocError, Global};
use vcd_dump::Stream;

/// Gives a stream the changes of each of its nets, from the net's floor up to but not including the
/// tick.
pub(crate) fn give_parts(
    alloc: Global,
    kernel: &mut StreamKernel<'_>,
    nets: &[u32],
    bound: u64,
    stream: &mut Stream,
) -> Result<(), SimFault>
    requires running { kernel.old.failed ≡ false }
    requires sound { IsSound kernel.old.circuit kernel.old.end kernel.old.state }
    requires nets { All (λ net. net < length kernel.old.circuit) nets.now }
    requires once { AllPairs (λ (earlier later : ℕ). earlier ≢ later) nets.now }
    requires floors { EachFloor kernel.old (λ floor. floor ≤ bound) }
    requires known { bound ≤ least_frontier kernel.old.end kernel.old.state }
    requires end { bound ≤ stream.old.horizon + 1 }
    requires streams { stream.old.failed ≡ false }
    requires each { length nets.now ≡ stream.old.nets }
    requires none_yet { with_parts stream.old [] ≡ stream.old }
    ensures stream { OnOk result (stream.new ≡ with_parts stream.old
        (map (λ net. changes_between (value_of kernel.old.circuit net) (floor_at kernel.old.state net) bound)
        nets.now)) }
    ensures drains { OnOk result (DrainsTo kernel.old kernel.new) }
    ensures floors { OnOk result (EachFloor kernel.new (λ floor. floor ≤ bound)) }
    ensures drained { OnOk result (All (λ net. floor_at kernel.new.state net ≡ bound) nets.now) }
    ensures err { IfErr result (λ fault. fault ≡ SimFault.Memory) }
{
    let mut changes = Vec::new(alloc);
    for net in nets {
        changes.clear();
        drain_below_into(kernel, *net, bound, &mut changes)?;
        stream.part(changes.as_slice())?;
    }
    Ok(())
}

/// Forgets what these nets showed before the tick.
pub(crate) fn forget_below(
    alloc: Global,
    kernel: &mut StreamKernel<'_>,
    nets: &[u32],
    bound: u64,
) -> Result<(), AllocError>
    requires running { kernel.old.failed ≡ false }
    requires sound { IsSound kernel.old.circuit kernel.old.end kernel.old.state }
    requires nets { All (λ net. net < length kernel.old.circuit) nets.now }
    requires floors { EachFloor kernel.old (λ floor. floor ≤ bound) }
    requires known { bound ≤ least_frontier kernel.old.end kernel.old.state }
    ensures drains { OnOk result (DrainsTo kernel.old kernel.new) }
    ensures drained { OnOk result (All (λ net. floor_at kernel.new.state net ≡ bound) nets.now) }
    // A net that was drained up to the tick stays so.
    ensures stays { OnOk result ((net : ℕ) → floor_at kernel.old.state net ≡ bound →
        floor_at kernel.new.state net ≡ bound) }
{
    let mut forgotten = Vec::new(alloc);
    for net in nets {
        forgotten.clear();
        drain_below_into(kernel, *net, bound, &mut forgotten)?;
    }
    Ok(())
}
