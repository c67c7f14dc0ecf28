//! Sweeps over logs, in which a pin takes all that it needs at once.
ghost use Rattle.std.specs.Prelude.{◌≡◌, ◌+◌, ◌<◌, false, true, None, All, length, slice_get, OnOk, OnErr};
ghost use Rattle.std.specs.Option.{ForSome};
ghost use Rattle.design.specs.Circuit.{Net, pin_count};
ghost use Rattle.design.specs.Pins.{first_pin, net_of_pin, place_of_pin};
ghost use Rattle.cmb_kernel.specs.Sweeps.{caught_up, swept_net, swept, IsSwept};
ghost use Rattle.cmb_kernel.specs.Sound.{IsSound};
ghost use Rattle.cmb_kernel.specs.Calls.{IsOutcome};

use crate::fault::KernelFault;
use crate::kernel::Kernel;
use cmb_channels::Logs;
use cmb_events::Event;
use gate_process::KeptWave;
use std::alloc::AllocError;

impl<'d, W: KeptWave> Kernel<'d, Logs, W> {
    /// Sweeps as [`sweep`](Self::sweep) does, but faster: each pin takes all that it needs at once, as a part
    /// of its source's log, and a net that needs nothing is only counted.
    ///
    /// # Errors
    /// [`KernelFault::Failed`]; nothing changed. [`KernelFault::Memory`]; the kernel has failed from
    /// then on.
    pub fn sweep_at_once(&mut self, order: &[u32], tick: u64) -> Result<(), KernelFault>
        requires nets { All (λ net. net < length self.old.circuit) order.now }
        ensures outcome { IsOutcome self.old self.new None (swept tick order.now self.old.state) tt result }
        ensures reaches { OnOk result (IsSwept tick order.now self.old self.new) }
    {
        self.check_running()?;
        for net in order {
            self.sweep_net_at_once(*net, tick)?;
        }
        Ok(())
    }

    /// Lets the pins of a net catch up with a tick, and advances the net. After an `AllocError` the
    /// kernel has failed.
    fn sweep_net_at_once(&mut self, net: u32, tick: u64) -> Result<(), AllocError>
        requires running { self.old.failed ≡ false }
        requires net { net < length self.old.circuit }
        ensures ok { OnOk result (self.new ≡ record self.old { state = swept_net tick self.old.state net }) }
        ensures err { OnErr result (self.new.failed ≡ true) }
        ensures sound { OnOk result (IsSound self.new.circuit self.new.end self.new.state) }
    {
        if self.processes.is_at_rest(net, tick) {
            self.counts.add_silent(1);
            return Ok(());
        }
        for place in 0..self.design.fan_in(net) {
            self.catch_up_at_once(net, place, tick)?;
        }
        self.step(Event::Advance(net))?;
        Ok(())
    }

    /// Lets the pin at a place of a net take messages as long as it is known up to less than a tick.
    /// After an `AllocError` the kernel has failed.
    fn catch_up_at_once(&mut self, net: u32, place: usize, tick: u64) -> Result<(), AllocError>
        requires running { self.old.failed ≡ false }
        requires net { net < length self.old.circuit }
        requires place { ForSome (slice_get self.old.circuit net) (λ (n : Net). place < length n.pins) }
        ensures ok { OnOk result (self.new ≡ record self.old {
          state = caught_up tick self.old.state (first_pin self.old.circuit net + place);
        }) }
        ensures err { OnErr result (self.new.failed ≡ true) }
        ensures sound { OnOk result (IsSound self.new.circuit self.new.end self.new.state) }
    {
        prove!(net < self.design.nets());
        let place = place as u32;
        let pin = self.design.pin(net, place);
        self.take_below(pin, net, place, tick)
    }

    /// Lets a pin, which is at a place of a net, take messages as long as it is known up to less than a tick.
    /// After an `AllocError` the kernel has failed.
    fn take_below(&mut self, pin: u32, net: u32, place: u32, tick: u64) -> Result<(), AllocError>
        requires running { self.old.failed ≡ false }
        requires exists { pin < pin_count self.old.circuit }
        requires within { net < length self.old.circuit }
        requires net { net ≡ net_of_pin self.old.circuit pin }
        requires place { place ≡ place_of_pin self.old.circuit pin }
        ensures ok { OnOk result (self.new ≡ record self.old { state = caught_up tick self.old.state pin }) }
        ensures err { OnErr result (self.new.failed ≡ true) }
        ensures sound { OnOk result (IsSound self.new.circuit self.new.end self.new.state) }
    {
        // This stays if the pin runs out of memory.
        self.failed = true;
        let waiting = self.fabric.waiting_messages(pin);
        let count = self.processes.receive_below(net, place, &waiting, tick)?;
        self.fabric.take_many(pin, count);
        self.counts.add_silent(count as u64);
        self.failed = false;
        Ok(())
    }
}
