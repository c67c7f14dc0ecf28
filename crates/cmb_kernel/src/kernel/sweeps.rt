ghost use Rattle.std.specs.Prelude.{◌≡◌, ◌+◌, ◌<◌, false, true, None, All, length, slice_get, OnOk, OnErr};
ghost use Rattle.std.specs.Option.{ForSome};
ghost use Rattle.design.specs.Circuit.{Net};
ghost use Rattle.design.specs.Pins.{first_pin};
ghost use Rattle.cmb_kernel.specs.State.{received_at};
ghost use Rattle.cmb_kernel.specs.Sweeps.{caught_up, swept_net, swept, IsSwept};
ghost use Rattle.cmb_kernel.specs.Sound.{IsSound};
ghost use Rattle.cmb_kernel.specs.Calls.{IsOutcome};

use crate::fault::KernelFault;
use crate::kernel::Kernel;
use cmb_channels::Fabric;
use cmb_events::Event;
use gate_process::KeptWave;
use std::alloc::AllocError;

impl<'d, F: Fabric, W: KeptWave> Kernel<'d, F, W> {
    /// Lets the nets of a list, one after another, take what they need to reach a tick, and advance: each pin
    /// of the net in order takes messages as long as it is known up to less than the tick, and then the net
    /// advances.
    ///
    /// A pin that is known up to the tick takes nothing. Each message taken and each advance counts as an
    /// event; a sweep isn't a round.
    ///
    /// # Errors
    /// [`KernelFault::Failed`]; nothing changed. [`KernelFault::Memory`]; the kernel has failed from
    /// then on.
    pub fn sweep(&mut self, order: &[u32], tick: u64) -> Result<(), KernelFault>
        requires nets { All (λ net. net < length self.old.circuit) order.now }
        ensures outcome { IsOutcome self.old self.new None (swept tick order.now self.old.state) tt result }
        ensures reaches { OnOk result (IsSwept tick order.now self.old self.new) }
    {
        self.check_running()?;
        for net in order {
            self.sweep_net(*net, tick)?;
        }
        Ok(())
    }

    /// Lets the pins of a net catch up with a tick, and advances the net. After an `AllocError` the
    /// kernel has failed.
    fn sweep_net(&mut self, net: u32, tick: u64) -> Result<(), AllocError>
        requires running { self.old.failed ≡ false }
        requires net { net < length self.old.circuit }
        ensures ok { OnOk result (self.new ≡ record self.old { state = swept_net tick self.old.state net }) }
        ensures err { OnErr result (self.new.failed ≡ true) }
        ensures sound { OnOk result (IsSound self.new.circuit self.new.end self.new.state) }
    {
        for place in 0..self.design.pins_of(net).len() {
            self.catch_up(net, place, tick)?;
        }
        self.step(Event::Advance(net))?;
        Ok(())
    }

    /// Lets the pin at a place of a net take messages as long as it is known up to less than a tick.
    /// After an `AllocError` the kernel has failed.
    fn catch_up(&mut self, net: u32, place: usize, tick: u64) -> Result<(), AllocError>
        requires running { self.old.failed ≡ false }
        requires net { net < length self.old.circuit }
        requires place { ForSome (slice_get self.old.circuit net) (λ (n : Net). place < length n.pins) }
        ensures ok { OnOk result (self.new ≡ record self.old {
          state = caught_up tick self.old.state (first_pin self.old.circuit net + place);
        }) }
        ensures err { OnErr result (self.new.failed ≡ true) }
        ensures sound { OnOk result (IsSound self.new.circuit self.new.end self.new.state) }
    {
        prove!(net < self.design.nets());
        let place = place as u32;
        let pin = self.design.pin(net, place);
        while self.received_there(net, place) < tick && self.waiting(pin) > 0 {
            self.deliver_there(pin, net, place)?;
        }
        Ok(())
    }

    /// Returns the number of ticks of its source that the pin at a place of a net knows.
    fn received_there(&self, net: u32, place: u32) -> u64
        requires running { self.now.failed ≡ false }
        requires net { net < length self.now.circuit }
        requires place { ForSome (slice_get self.now.circuit net) (λ (n : Net). place < length n.pins) }
        ensures { result ≡ received_at self.now.state (first_pin self.now.circuit net + place) }
    {
        self.processes.of_net(net).received(place)
    }
}
