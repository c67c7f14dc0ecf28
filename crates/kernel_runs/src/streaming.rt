//! A run's dump as the run advances: what every net knows is written and forgotten.
ghost use Rattle.std.specs.Prelude.{◌≡◌, ◌≢◌, ℕ, ◌+◌, ◌<◌, ◌≤◌, false, length, All, AllPairs, IfErr, OnOk};
ghost use Rattle.std.specs.Io.KnownBytes.{Appends};
ghost use Rattle.cmb_kernel.specs.State.{IsUndrained, least_frontier, most_rounds};
ghost use Rattle.cmb_kernel.specs.Step.{completed_within};
ghost use Rattle.cmb_kernel.specs.Sound.{IsSound};
ghost use Rattle.vcd_dump.specs.Dump.{dump_text};
ghost use Rattle.vcd_dump.specs.Spans.{parts_of, span_text, stream_at};
ghost use Rattle.kernel_runs.specs.Alone.{CanShow};
ghost use Rattle.kernel_runs.specs.Drained.{EachFloor, DrainsTo, IsRest, values_of};
ghost use Rattle.prepared_runs.specs.Ends.{BreaksOff};
ghost use Rattle.kernel_runs.specs.Paces.{Suits};
ghost use Rattle.kernel_runs.specs.KnownTicks.{IsProgressAt};
ghost use Rattle.kernel_runs.specs.Simulated.{IsKnown};
ghost use Rattle.prepared_runs.specs.Source.{signals_of};
ghost use Rattle.prepared_runs.specs.Reported.{Reported};
ghost use Rattle.kernel_runs.specs.declared.pace.Pace.TheVariants.{Rounds};

use crate::draining::{forget_below, give_parts};
use crate::hiding::hidden_nets;
use crate::pace::Pace;
use crate::simulation::StreamKernel;
use prepared_runs::{PreparedRun, Progress, SimFault};
use std::alloc::Global;
use std::io::Write;
use vcd_dump::{Stream, TimeUnit};

/// Runs to the end, and writes the dump of these nets: writes what every net knows, whenever it is more and the pace
/// says so, and reports how much that is.
pub(crate) fn stream_to_end<W: Write, P: Progress>(
    alloc: Global,
    kernel: &mut StreamKernel<'_>,
    run: &PreparedRun,
    unit: TimeUnit,
    nets: &[u32],
    pace: &mut Pace,
    out: &mut W,
    progress: &mut P,
) -> Result<(), SimFault>
    requires can { CanShow run.now nets.now }
    requires running { kernel.old.failed ≡ false }
    requires suits { Suits pace.old run.now.design.circuit (run.now.horizon + 1) }
    requires sound { IsSound kernel.old.circuit kernel.old.end kernel.old.state }
    requires undrained { IsUndrained kernel.old.state }
    requires circuit { kernel.old.circuit ≡ run.now.design.circuit }
    requires end { kernel.old.end ≡ run.now.horizon + 1 }
    ensures running { OnOk result (kernel.new.failed ≡ false) }
    ensures complete { OnOk result (IsKnown kernel.new) }
    // Drains play no part in the counts.
    ensures counts { pace.old ≡ Rounds → OnOk result (kernel.new.state.counts ≡
        (completed_within (most_rounds kernel.old.end kernel.old.circuit) kernel.old.state).counts) }
    ensures ok { OnOk result (Appends (W.contents out.old) (W.contents out.new)
        (dump_text unit run.now.horizon (signals_of run.now.design.circuit nets.now))) }
    ensures err { IfErr result (BreaksOff (W.contents out.old) (W.contents out.new)
        (dump_text unit run.now.horizon (signals_of run.now.design.circuit nets.now))) }
    ensures reported { Reported (P.reports run.now.horizon)
        (IsProgressAt pace.old run.now.horizon kernel.old.state result)
        progress.old progress.new }
{
    let hidden = hidden_nets(alloc, run.design.nets(), nets)?;
    let end = run.horizon.ticks() + 1;
    let mut stream = Stream::begin(alloc, out, &run.design, nets, run.horizon, unit)?;
    loop {
        let known = kernel.least_frontier();
        let to = pace.write_to(stream.written(), known, kernel.counts().changes);
        write_known(alloc, kernel, nets, hidden.as_slice(), to, &mut stream, out)?;
        progress.report(known, run.horizon);
        if known == end {
            stream.finish(out)?;
            return Ok(());
        }
        pace.go_on(kernel, known)?;
    }
}

/// Writes what isn't written yet of the ticks before one up to which every net is known, and forgets it;
/// `hidden` are the nets that aren't shown.
fn write_known<W: Write>(
    alloc: Global,
    kernel: &mut StreamKernel<'_>,
    nets: &[u32],
    hidden: &[u32],
    known: u64,
    stream: &mut Stream,
    out: &mut W,
) -> Result<(), SimFault>
    requires running { kernel.old.failed ≡ false }
    requires sound { IsSound kernel.old.circuit kernel.old.end kernel.old.state }
    requires nets { All (λ net. net < length kernel.old.circuit) nets.now }
    requires once { AllPairs (λ (earlier later : ℕ). earlier ≢ later) nets.now }
    requires hidden { IsRest (length kernel.old.circuit) nets.now hidden.now }
    requires floors { EachFloor kernel.old (λ floor. floor ≡ stream.old.written) }
    requires ahead { stream.old.written ≤ known }
    requires known { known ≤ least_frontier kernel.old.end kernel.old.state }
    requires end { known ≤ stream.old.horizon + 1 }
    requires stream { stream.old ≡ stream_at (values_of kernel.old.circuit nets.now)
        stream.old.horizon stream.old.written }
    ensures drains { OnOk result (DrainsTo kernel.old kernel.new) }
    ensures floors { OnOk result (EachFloor kernel.new (λ floor. floor ≡ known)) }
    ensures stream { OnOk result (stream.new ≡ stream_at (values_of kernel.old.circuit nets.now)
        stream.old.horizon known) }
    ensures ok { OnOk result (Appends (W.contents out.old) (W.contents out.new)
        (span_text stream.old.written known
        (parts_of (values_of kernel.old.circuit nets.now) stream.old.written known))) }
    ensures err { IfErr result (BreaksOff (W.contents out.old) (W.contents out.new)
        (span_text stream.old.written known
        (parts_of (values_of kernel.old.circuit nets.now) stream.old.written known))) }
{
    if stream.written() == known {
        return Ok(());
    }
    give_parts(alloc, kernel, nets, known, stream)?;
    forget_below(alloc, kernel, hidden, known)?;
    stream.write_parts(out, known)?;
    Ok(())
}
