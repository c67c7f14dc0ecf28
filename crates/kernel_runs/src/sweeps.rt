//! Sweeps over the nets of a design, each one over a window of ticks.
//!
//! In one sweep over all nets, a loop of gates advances only by as much as values take to go round it. So a
//! loop is swept by itself, repeatedly, until its nets are known up to the end of the window.
ghost use Rattle.std.specs.Prelude.{◌≡◌, ℕ, ◌+◌, ◌-◌, ◌<◌, ◌≤◌, nat_lt, if◌then◌else◌, All, false, length, IfOk, OnOk};
ghost use Rattle.cmb_kernel.specs.State.{frontier_at, least_frontier};
ghost use Rattle.cmb_kernel.specs.Sound.{IsSound};
ghost use Rattle.cmb_kernel.specs.Sweeps.{AllKnow, HoldsAll};
ghost use Rattle.design.specs.Segments.{IsCutUp};
ghost use Rattle.kernel_runs.specs.Paces.{AllFarther, Covers, GoesOn, LeastRises, RaisesLeast};
ghost use Rattle.kernel_runs.specs.Windows.{next_width, written_next};

use crate::windows::{FIRST_WIDTH, most_sent, next_width, reach, written_next};
use cmb_channels::Logs;
use cmb_kernel::{Kernel, laws};
use design::{Design, Segment, flow_order, segments_of};
use gate_process::KeptWave;
use std::alloc::{AllocError, Global};
use timing_text::Horizon;

/// Sweeps over all nets, each one over a window of ticks.
#[derive(Drop)]
pub(crate) struct Sweeps {
    order: Vec<u32>,
    // The loops of gates in the order, and the stretches between them.
    segments: Vec<Segment>,
    end: u64,
    // The most changes that a sweep should send.
    most: u64,
    // The width of the next window, in ticks.
    width: u64,
    // How many changes had been sent when the dump was last written.
    reported: u64,
}

impl Sweeps {
    /// Returns sweeps over the nets of a design, in the order in which values flow, up to a horizon.
    pub(crate) fn new(
        alloc: Global,
        design: &Design,
        horizon: Horizon,
    ) -> Result<Sweeps, AllocError>
        ensures { IfOk result (λ sweeps. Covers sweeps design.now.circuit (horizon + 1)) }
    {
        let order = flow_order(alloc, design)?;
        let segments = segments_of(alloc, design, order.as_slice())?;
        Ok(Sweeps {
            order,
            segments,
            end: horizon.ticks() + 1,
            most: most_sent(design.nets()),
            width: FIRST_WIDTH,
            reported: 0,
        })
    }

    /// Returns the tick up to which the run's dump is written now, given up to which it is written already, the ticks
    /// known of every net, and how many changes the run has sent.
    pub(crate) fn write_to(&mut self, written: u64, known: u64, sent: u64) -> u64
        ensures to { result ≡ written_next written known self.old.end (sent - self.old.reported) self.old.most }
        ensures state { self.new ≡ record self.old {
          reported = if nat_lt written result then sent else self.old.reported;
        } }
    {
        let since = sent.saturating_sub(self.reported);
        let to = written_next(written, known, self.end, since, self.most);
        if written < to {
            self.reported = sent;
        }
        to
    }

    /// Sweeps over all nets, up to the end of the window, given the number of ticks known of every net.
    pub(crate) fn sweep<W: KeptWave>(
        &mut self,
        kernel: &mut Kernel<'_, Logs, W>,
        known: u64,
    ) -> Result<(), AllocError>
        requires running { kernel.old.failed ≡ false }
        requires covers { Covers self.old kernel.old.circuit kernel.old.end }
        requires known { known ≡ least_frontier kernel.old.end kernel.old.state }
        ensures goes { OnOk result (GoesOn kernel.old kernel.new) }
        ensures raises { OnOk result (RaisesLeast kernel.old kernel.new) }
        ensures rises { OnOk result (LeastRises kernel.old kernel.new) }
        ensures width { OnOk result (self.new ≡ record self.old {
          width = next_width known self.old.width (kernel.new.state.counts.changes - kernel.old.state.counts.changes) self.old.most;
        }) }
    {
        let before = kernel.counts().changes;
        let tick = reach(known, self.width, self.end);
        pass(
            kernel,
            self.order.as_slice(),
            self.segments.as_slice(),
            tick,
        )?;
        let sent = kernel.counts().changes.saturating_sub(before);
        self.width = next_width(known, self.width, sent, self.most);
        Ok(())
    }
}

/// Sweeps over all nets up to a tick, segment by segment.
fn pass<W: KeptWave>(
    kernel: &mut Kernel<'_, Logs, W>,
    order: &[u32],
    segments: &[Segment],
    tick: u64,
) -> Result<(), AllocError>
    requires running { kernel.old.failed ≡ false }
    requires nets { All (λ net. net < length kernel.old.circuit) order.now }
    requires all { HoldsAll kernel.old.circuit order.now }
    requires cut_up { IsCutUp kernel.old.circuit order.now segments.now }
    requires in_time { least_frontier kernel.old.end kernel.old.state ≤ tick }
    ensures goes { OnOk result (GoesOn kernel.old kernel.new) }
    ensures raises { OnOk result (RaisesLeast kernel.old kernel.new) }
    ensures rises { OnOk result (LeastRises kernel.old kernel.new) }
{
    prove!(!kernel.is_failed());
    let mut begin = 0;
    for segment in segments {
        let nets = &order[begin..segment.end];
        sweep_segment(kernel, nets, segment.loops, tick)?;
        begin = segment.end;
    }
    Ok(())
}

/// Sweeps over the nets of a segment up to a tick: once, or for a loop as often as that advances it.
fn sweep_segment<W: KeptWave>(
    kernel: &mut Kernel<'_, Logs, W>,
    nets: &[u32],
    loops: bool,
    tick: u64,
) -> Result<(), AllocError>
    requires running { kernel.old.failed ≡ false }
    requires nets { All (λ net. net < length kernel.old.circuit) nets.now }
    ensures goes { OnOk result (GoesOn kernel.old kernel.new) }
    ensures farther { (low : ℕ) → AllKnow kernel.old.circuit low kernel.old.state → low ≤ tick → low ≤ kernel.old.end →
        OnOk result (AllFarther kernel.old low kernel.new.state nets.now) }
{
    sweep_once(kernel, nets, tick)?;
    if !loops {
        return Ok(());
    }
    sweep_loop(kernel, nets, tick)?;
    Ok(())
}

/// Sweeps over these nets up to a tick, once.
fn sweep_once<W: KeptWave>(
    kernel: &mut Kernel<'_, Logs, W>,
    nets: &[u32],
    tick: u64,
) -> Result<(), AllocError>
    requires running { kernel.old.failed ≡ false }
    requires nets { All (λ net. net < length kernel.old.circuit) nets.now }
    ensures goes { OnOk result (GoesOn kernel.old kernel.new) }
    ensures farther { (low : ℕ) → AllKnow kernel.old.circuit low kernel.old.state → low ≤ tick → low ≤ kernel.old.end →
        OnOk result (AllFarther kernel.old low kernel.new.state nets.now) }
{
    prove!(!kernel.is_failed());
    // A sweep consists only of events.
    laws::sweeps();
    match kernel.sweep_at_once(nets, tick) {
        Ok(()) => Ok(()),
        Err(_) => Err(AllocError),
    }
}

/// Sweeps over the nets of a loop repeatedly, until each of them is known up to the tick or a sweep doesn't
/// advance them, since too little is known of nets outside the loop.
fn sweep_loop<W: KeptWave>(
    kernel: &mut Kernel<'_, Logs, W>,
    nets: &[u32],
    tick: u64,
) -> Result<(), AllocError>
    requires running { kernel.old.failed ≡ false }
    requires nets { All (λ net. net < length kernel.old.circuit) nets.now }
    requires sound { IsSound kernel.old.circuit kernel.old.end kernel.old.state }
    ensures goes { OnOk result (GoesOn kernel.old kernel.new) }
{
    let mut known = known_of(kernel, nets, tick);
    while known < tick {
        sweep_once(kernel, nets, tick)?;
        let farther = known_of(kernel, nets, tick);
        if farther <= known {
            return Ok(());
        }
        known = farther;
    }
    Ok(())
}

/// Returns how many ticks are known of each of these nets, or this tick if it is less.
fn known_of<W: KeptWave>(kernel: &Kernel<'_, Logs, W>, nets: &[u32], tick: u64) -> u64
    requires running { kernel.now.failed ≡ false }
    requires nets { All (λ net. net < length kernel.now.circuit) nets.now }
    ensures within { result ≤ tick }
    ensures each { All (λ net. result ≤ frontier_at kernel.now.state net) nets.now }
{
    let mut known = tick;
    for net in nets {
        known = known.min(kernel.frontier(*net));
    }
    known
}
