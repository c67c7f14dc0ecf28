ghost use Rattle.std.specs.Prelude.{◌≡◌, ◌≢◌, ◌<◌, ◌≤◌, ◌++◌, false, if◌then◌else◌, length, [], Err, IfOk, IfErr, OnOk, OnErr};
ghost use Rattle.logic3.specs.Wave.{changes_between};
ghost use Rattle.design.specs.Equations.{value_of};
ghost use Rattle.cmb_kernel.specs.State.{frontier_at, floor_at, least_frontier};
ghost use Rattle.cmb_kernel.specs.Step.{after_drain};
ghost use Rattle.cmb_kernel.specs.Sound.{IsSound};

use crate::fault::KernelFault;
use crate::kernel::Kernel;
use cmb_channels::Fabric;
use gate_process::KeptWave;
use logic3::Change;

impl<'d, F: Fabric, W: KeptWave> Kernel<'d, F, W> {
    /// Returns the tick from which on a net's waveform is kept: 0 until changes of the net are taken out. It
    /// is never past the net's frontier.
    pub fn floor(&self, net: u32) -> u64
        requires running { self.now.failed ≡ false }
        requires net { net < length self.now.circuit }
        ensures floor { result ≡ floor_at self.now.state net }
        ensures known { result ≤ frontier_at self.now.state net }
    {
        self.processes.of_net(net).floor()
    }

    /// Takes out a net's changes from its floor up to but not including a tick up to which every net is
    /// known, and returns them in order. That tick is the net's floor from then on, and what it showed
    /// before is forgotten.
    ///
    /// # Errors
    /// [`KernelFault::Failed`] and [`KernelFault::Memory`]; nothing changed. The kernel hasn't failed if
    /// this allocation fails.
    pub fn drain_below(&mut self, net: u32, bound: u64) -> Result<Vec<Change>, KernelFault>
        requires net { net < length self.old.circuit }
        requires above { self.old.failed ≡ false → floor_at self.old.state net ≤ bound }
        requires known { self.old.failed ≡ false → bound ≤ least_frontier self.old.end self.old.state }
        ensures changes { IfOk result (λ changes. changes.items ≡
            changes_between (value_of self.old.circuit net) (floor_at self.old.state net) bound) }
        ensures ok { OnOk result (self.new ≡ record self.old { state = after_drain self.old.state net bound }) }
        ensures floor { OnOk result (floor_at self.new.state net ≡ bound) }
        ensures err { OnErr result (self.new ≡ self.old) }
        ensures fault { IfErr result (λ fault.
            fault ≡ (if self.old.failed then KernelFault.Failed else KernelFault.Memory)) }
        ensures running { OnOk result (self.old.failed ≡ false) }
        ensures memory { result ≡ Err KernelFault.Memory →
            changes_between (value_of self.old.circuit net) (floor_at self.old.state net) bound ≢ [] }
        ensures sound { self.new.failed ≡ false → IsSound self.new.circuit self.new.end self.new.state }
    {
        let mut changes = Vec::new(*self.news.allocator());
        self.drain_below_into(net, bound, &mut changes)?;
        Ok(changes)
    }

    /// Drains as [`drain_below`](Self::drain_below) does, and adds the changes in order to the end of a list,
    /// so one list serves many drains.
    ///
    /// # Errors
    /// As for `drain_below`; the list is unchanged, too.
    pub fn drain_below_into(
        &mut self,
        net: u32,
        bound: u64,
        changes: &mut Vec<Change>,
    ) -> Result<(), KernelFault>
        requires net { net < length self.old.circuit }
        requires above { self.old.failed ≡ false → floor_at self.old.state net ≤ bound }
        requires known { self.old.failed ≡ false → bound ≤ least_frontier self.old.end self.old.state }
        ensures changes { OnOk result (changes.new.items ≡ changes.old.items ++
            changes_between (value_of self.old.circuit net) (floor_at self.old.state net) bound) }
        ensures ok { OnOk result (self.new ≡ record self.old { state = after_drain self.old.state net bound }) }
        ensures floor { OnOk result (floor_at self.new.state net ≡ bound) }
        ensures same { OnErr result (changes.new.items ≡ changes.old.items) }
        ensures err { OnErr result (self.new ≡ self.old) }
        ensures fault { IfErr result (λ fault.
            fault ≡ (if self.old.failed then KernelFault.Failed else KernelFault.Memory)) }
        ensures running { OnOk result (self.old.failed ≡ false) }
        ensures memory { result ≡ Err KernelFault.Memory →
            changes_between (value_of self.old.circuit net) (floor_at self.old.state net) bound ≢ [] }
        ensures sound { self.new.failed ≡ false → IsSound self.new.circuit self.new.end self.new.state }
    {
        self.check_running()?;
        self.processes.drain_below_into(net, bound, changes)?;
        Ok(())
    }
}
