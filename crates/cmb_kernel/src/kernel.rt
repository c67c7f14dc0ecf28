ghost use Rattle.std.specs.Prelude.{◌≡◌, ◌≢◌, ◌+◌, ◌<◌, ◌≤◌, false, length, replicate, []};
ghost use Rattle.design.specs.Circuit.{IsCircuit, pin_count};
ghost use Rattle.design.specs.Equations.{value_of};
ghost use Rattle.design.specs.Pins.{sources_of};
ghost use Rattle.logic3.specs.Wave.{wave_of};
ghost use Rattle.cmb_kernel.specs.State.{fresh, frontier_at, floor_at, received_at, waiting_at};
ghost use Rattle.cmb_kernel.specs.Sound.{IsSound};

mod at_once;
mod drains;
mod events;
mod frontiers;
mod parts;
mod rounds;
mod sweeps;
mod useful;

use crate::counts::Counts;
use crate::fault::KernelFault;
use cmb_channels::{Fabric, Packed};
use design::Design;
use gate_process::{KeptWave, Processes};
use logic3::Waveform;
use std::alloc::Global;
use std::marker::Model;
use timing_text::Horizon;

/// A run of a design: a process for each net, and channels between them.
///
/// Whatever events are applied, in any order, each net knows its waveform as the equations of the circuit
/// give it, up to the net's frontier and from its floor on: its changes before the floor were taken out. A
/// frontier is the number of known ticks, from tick 0 on. If an allocation fails during an event, the kernel
/// has failed: each call that may change it returns [`KernelFault::Failed`] from then on, and readers require
/// a kernel that hasn't failed, except [`is_failed`](Self::is_failed) and those that return its parts.
///
/// Nets and pins are numbered as in the design, and a reader that takes such a number requires one that
/// exists.
#[derive(Drop)]
pub struct Kernel<'d, F: Fabric, W: KeptWave = Waveform> {
    design: &'d Design,
    // The first tick after the horizon.
    end: u64,
    processes: Processes<'d, W>,
    fabric: F,
    counts: Counts,
    // The messages of an advance, before they are sent. Kept only to reuse its memory.
    news: Vec<Packed>,
    failed: bool,
}

impl<'d, F: Fabric, W: KeptWave> Model for Kernel<'d, F, W> {
    ghost use Rattle.std.specs.Prelude.{◌≡◌, false};
    ghost use Rattle.cmb_kernel.specs.State.{KernelView};
    ghost use Rattle.cmb_kernel.specs.Running.{state_of, IsRunning};

    ghost Value = { KernelView };

    ghost view = { λ k. record {
      circuit = k.design.now.circuit;
      end = k.end;
      failed = k.failed;
      state = state_of k.processes (F.lists k.fabric) k.counts;
    } };

    ghost invariant = { λ k. k.failed ≡ false →
        IsRunning k.design.now k.end k.processes (F.sources k.fabric) (F.nets k.fabric)
        (state_of k.processes (F.lists k.fabric) k.counts) };
}

impl<'d, F: Fabric, W: KeptWave> Kernel<'d, F, W> {
    /// Returns a kernel before any event, as [`new`](Kernel::new) does, which keeps what its nets show as its
    /// type says.
    ///
    /// # Errors
    /// [`KernelFault::Memory`]; nothing stays allocated.
    pub fn keeping(
        alloc: Global,
        design: &'d Design,
        horizon: Horizon,
    ) -> Result<Kernel<'d, F, W>, KernelFault>
        ensures { result ≢ Err KernelFault.Memory → result ≡ Ok (fresh design.now.circuit (horizon + 1)) }
    {
        let fabric = F::empty_for(alloc, design)?;
        Kernel::keeping_over(alloc, design, horizon, fabric)
    }

    /// Returns such a kernel over these channels: those of the design, with nothing in them.
    fn keeping_over(
        alloc: Global,
        design: &'d Design,
        horizon: Horizon,
        fabric: F,
    ) -> Result<Kernel<'d, F, W>, KernelFault>
        requires lists { F.lists fabric ≡ replicate (pin_count design.now.circuit) [] }
        requires sources { F.sources fabric ≡ sources_of design.now.circuit }
        requires nets { F.nets fabric ≡ length design.now.circuit }
        ensures { result ≢ Err KernelFault.Memory → result ≡ Ok (fresh design.now.circuit (horizon + 1)) }
    {
        let processes = Processes::new(alloc, design, horizon)?;
        Ok(Kernel {
            design,
            end: horizon.ticks() + 1,
            processes,
            fabric,
            counts: Counts {
                events: 0,
                changes: 0,
                nulls: 0,
                rounds: 0,
            },
            news: Vec::new(alloc),
            failed: false,
        })
    }

    /// Returns whether a call ran out of memory. If none did, all that the kernel knows is true.
    pub fn is_failed(&self) -> bool
        ensures failed { result ≡ self.now.failed }
        ensures circuit { self.now.failed ≡ false → IsCircuit self.now.circuit }
        ensures sound { self.now.failed ≡ false → IsSound self.now.circuit self.now.end self.now.state }
    {
        self.failed
    }

    /// Returns the counts since the kernel was made: events, changes, null messages and rounds.
    pub fn counts(&self) -> Counts
        requires { self.now.failed ≡ false }
        ensures { result ≡ self.now.state.counts }
    {
        self.counts
    }

    /// Returns the number of known ticks of a net: at most the horizon and one more.
    pub fn frontier(&self, net: u32) -> u64
        requires running { self.now.failed ≡ false }
        requires net { net < length self.now.circuit }
        ensures frontier { result ≡ frontier_at self.now.state net }
        ensures within { result ≤ self.now.end }
    {
        self.processes.of_net(net).frontier()
    }

    /// Returns the number of ticks of its source that a pin knows, in the source's own ticks, whatever the
    /// delay of its wire: at most the horizon and one more.
    pub fn received(&self, pin: u32) -> u64
        requires running { self.now.failed ≡ false }
        requires pin { pin < pin_count self.now.circuit }
        ensures received { result ≡ received_at self.now.state pin }
        ensures within { result ≤ self.now.end }
    {
        let net = self.design.pin_net(pin);
        let place = pin - self.design.pin(net, 0);
        self.processes.of_net(net).received(place)
    }

    /// Returns the number of messages that wait at a pin. A delivery there is useful exactly if there are
    /// any.
    pub fn waiting(&self, pin: u32) -> u64
        requires running { self.now.failed ≡ false }
        requires pin { pin < pin_count self.now.circuit }
        ensures { result ≡ length (waiting_at self.now.state pin) }
    {
        self.fabric.waiting(pin)
    }
}

impl<'d, F: Fabric> Kernel<'d, F> {
    /// Returns a kernel before any event, which runs up to the horizon, over new channels: each frontier is
    /// 0, no message waits, and all counts are 0.
    ///
    /// # Errors
    /// [`KernelFault::Memory`]; nothing stays allocated.
    pub fn new(
        alloc: Global,
        design: &'d Design,
        horizon: Horizon,
    ) -> Result<Kernel<'d, F>, KernelFault>
        ensures { result ≢ Err KernelFault.Memory → result ≡ Ok (fresh design.now.circuit (horizon + 1)) }
    {
        Kernel::keeping(alloc, design, horizon)
    }

    /// Returns a kernel as [`new`](Self::new) does, but over these channels: those of the design, with
    /// nothing in them. Use it for channels with settings or statistics of their own, which
    /// [`fabric`](Self::fabric) returns.
    ///
    /// # Errors
    /// [`KernelFault::Memory`]; the channels are dropped.
    pub fn over(
        alloc: Global,
        design: &'d Design,
        horizon: Horizon,
        fabric: F,
    ) -> Result<Kernel<'d, F>, KernelFault>
        requires lists { F.lists fabric ≡ replicate (pin_count design.now.circuit) [] }
        requires sources { F.sources fabric ≡ sources_of design.now.circuit }
        requires nets { F.nets fabric ≡ length design.now.circuit }
        ensures { result ≢ Err KernelFault.Memory → result ≡ Ok (fresh design.now.circuit (horizon + 1)) }
    {
        Kernel::keeping_over(alloc, design, horizon, fabric)
    }

    /// Returns what a net shows at the known ticks, from its [`floor`](Self::floor) on.
    pub fn waveform(&self, net: u32) -> &Waveform
        requires running { self.now.failed ≡ false }
        requires net { net < length self.now.circuit }
        ensures waveform { result.now ≡ wave_of (value_of self.now.circuit net)
            (floor_at self.now.state net) (frontier_at self.now.state net) }
        ensures undrained { floor_at self.now.state net ≡ 0 →
            result.now ≡ wave_of (value_of self.now.circuit net) 0 (frontier_at self.now.state net) }
    {
        self.processes.of_net(net).wave()
    }
}
