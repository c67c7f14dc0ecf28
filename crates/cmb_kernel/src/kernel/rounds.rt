ghost use Rattle.std.specs.Prelude.{◌≡◌, ℕ, ◌<◌, ◌≤◌, true, false, None, length, map, replicate, Err, OnOk, OnErr};
ghost use Rattle.std.specs.List.{range_with_len};
ghost use Rattle.design.specs.Circuit.{pin_count};
ghost use Rattle.design.specs.Equations.{waves_of};
ghost use Rattle.cmb_events.specs.declared.event.Event.TheVariants.{Deliver, Advance};
ghost use Rattle.cmb_kernel.specs.declared.fault.KernelFault.TheVariants.{Memory};
ghost use Rattle.cmb_kernel.specs.State.{started, frontier_at, waiting_at, least_frontier, past_least, most_rounds, IsComplete, IsUndrained, is_complete, waves_in};
ghost use Rattle.cmb_kernel.specs.Step.{steps, deliveries_from, round_of, rounds, completed_within};
ghost use Rattle.cmb_kernel.specs.Sound.{waves_kept};
ghost use Rattle.cmb_kernel.specs.Calls.{IsOutcome};

use crate::fault::KernelFault;
use crate::kernel::Kernel;
use cmb_channels::Fabric;
use cmb_events::Event;
use gate_process::KeptWave;
use std::alloc::AllocError;

impl<'d, F: Fabric, W: KeptWave> Kernel<'d, F, W> {
    /// Lets each pin in order of number take all messages that wait there, and then advances each net in
    /// order of number. Every net is then known at least the least delay past the old least frontier, or to
    /// the end.
    ///
    /// # Errors
    /// [`KernelFault::Failed`]; nothing changed. [`KernelFault::Memory`]; the kernel has failed from
    /// then on.
    pub fn round(&mut self) -> Result<(), KernelFault>
        ensures outcome { IsOutcome self.old self.new None (round_of self.old.state) tt result }
        // It raises the least frontier by at least the least delay, or to the end.
        ensures raises { OnOk result
            (past_least self.old.end self.old.circuit self.old.state ≤ least_frontier self.new.end self.new.state) }
        ensures rises { OnOk result (least_frontier self.old.end self.old.state < self.old.end →
            least_frontier self.old.end self.old.state < least_frontier self.new.end self.new.state) }
    {
        self.check_running()?;
        self.deliver_all()?;
        self.advance_all()?;
        self.counts.rounds = self.counts.rounds.saturating_add(1);
        Ok(())
    }

    /// Does rounds until each net is known up to the horizon. If each already is, it does nothing and takes
    /// no memory.
    ///
    /// It takes at most `ceil((horizon + 1) / least)` rounds, where `least` is the least delay of a gate or
    /// flip-flop, or one round if there is neither; and never more than a new kernel would.
    ///
    /// # Errors
    /// [`KernelFault::Failed`]; nothing changed. [`KernelFault::Memory`]; the kernel has failed from
    /// then on.
    pub fn complete(&mut self) -> Result<(), KernelFault>
        ensures outcome { IsOutcome self.old self.new None
            (completed_within (most_rounds self.old.end self.old.circuit) self.old.state) tt result }
        ensures complete { OnOk result (IsComplete self.new.state) }
        ensures frontiers { OnOk result ((net : ℕ) → net < length self.new.circuit →
            frontier_at self.new.state net ≡ self.new.end) }
        ensures waves { OnOk result (waves_in self.new.state ≡
            waves_kept self.new.circuit self.new.end self.new.state) }
        // Rounds take out no changes.
        ensures undrained { IsUndrained self.old.state →
            OnOk result (waves_in self.new.state ≡ waves_of self.new.circuit self.new.end) }
        // Rounds that complete a new kernel are enough here.
        ensures fresh { OnOk result ((count : ℕ) → IsComplete (rounds count (started self.old.circuit self.old.end)) →
            self.new.state ≡ completed_within count self.old.state) }
        ensures memory { result ≡ Err Memory → is_complete self.old.state ≡ false }
    {
        self.check_running()?;
        while !self.is_complete() {
            self.round()?;
        }
        Ok(())
    }

    /// Lets each pin take all messages that wait there. After an `AllocError` the kernel has failed.
    fn deliver_all(&mut self) -> Result<(), AllocError>
        requires { self.old.failed ≡ false }
        ensures ok { OnOk result (self.new ≡ record self.old {
          state = steps self.old.state (deliveries_from 0 self.old.state.lists);
        }) }
        ensures err { OnErr result (self.new.failed ≡ true) }
    {
        for pin in 0..self.design.pins() {
            self.deliver_waiting(pin)?;
        }
        Ok(())
    }

    /// Lets a pin take all messages that wait there. After an `AllocError` the kernel has failed.
    fn deliver_waiting(&mut self, pin: u32) -> Result<(), AllocError>
        requires running { self.old.failed ≡ false }
        requires pin { pin < pin_count self.old.circuit }
        ensures ok { OnOk result (self.new ≡ record self.old {
          state = steps self.old.state (replicate (length (waiting_at self.old.state pin)) (Deliver pin));
        }) }
        ensures err { OnErr result (self.new.failed ≡ true) }
    {
        for _message in 0..self.waiting(pin) {
            self.step(Event::Deliver(pin))?;
        }
        Ok(())
    }

    /// Advances each net. After an `AllocError` the kernel has failed.
    fn advance_all(&mut self) -> Result<(), AllocError>
        requires { self.old.failed ≡ false }
        ensures ok { OnOk result (self.new ≡ record self.old {
          state = steps self.old.state (map Advance (range_with_len 0 (length self.old.state.processes)));
        }) }
        ensures err { OnErr result (self.new.failed ≡ true) }
    {
        for net in 0..self.design.nets() {
            self.step(Event::Advance(net))?;
        }
        Ok(())
    }
}
