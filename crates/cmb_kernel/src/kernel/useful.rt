ghost use Rattle.std.specs.Prelude.{◌≡◌, ℕ, ◌<◌, ◌↔◌, true, false, length, [], IsNone, IfSome, IfNone};
ghost use Rattle.design.specs.Circuit.{pin_count};
ghost use Rattle.design.specs.Equations.{waves_of};
ghost use Rattle.cmb_events.specs.declared.event.Event.TheVariants.{Deliver, Advance};
ghost use Rattle.cmb_kernel.specs.State.{frontier_at, waiting_at, IsComplete, IsUndrained, waves_in};
ghost use Rattle.cmb_kernel.specs.Sound.{waves_kept};
ghost use Rattle.cmb_kernel.specs.Useful.{is_useful};
ghost use Rattle.cmb_events.specs.Schedule.{Exists};

use crate::kernel::Kernel;
use cmb_channels::Fabric;
use cmb_events::Event;
use gate_process::KeptWave;

impl<'d, F: Fabric, W: KeptWave> Kernel<'d, F, W> {
    /// Returns an event that raises a frontier, or `None` if each net is known up to the horizon. In that
    /// case each waveform is whole, from the net's [`floor`](Self::floor) on; messages may still wait.
    ///
    /// It looks at each net and each pin at most once. That there is such an event is the absence of deadlock
    /// (Chandy and Misra, 1979).
    pub fn useful(&self) -> Option<Event>
        requires { self.now.failed ≡ false }
        ensures none { IsNone result ↔ IsComplete self.now.state }
        ensures some { IfSome result (λ event.
            Exists self.now.circuit event × (is_useful self.now.state event ≡ true)) }
        ensures frontiers { IfNone result ((net : ℕ) → net < length self.now.circuit →
            frontier_at self.now.state net ≡ self.now.end) }
        ensures waves { IfNone result (waves_in self.now.state ≡
            waves_kept self.now.circuit self.now.end self.now.state) }
        ensures undrained { IsUndrained self.now.state →
            IfNone result (waves_in self.now.state ≡ waves_of self.now.circuit self.now.end) }
    {
        let net = self.slowest();
        if self.frontier(net) == self.end {
            return None;
        }
        match self.waiting_pin() {
            Some(pin) => Some(Event::Deliver(pin)),
            None => Some(Event::Advance(net)),
        }
    }

    /// Returns whether an event would raise a frontier: a delivery if a message waits at the pin, an advance
    /// if the net can be computed further. It looks at most at each pin of one net, and takes no memory.
    pub fn is_useful(&self, event: Event) -> bool
        requires running { self.now.failed ≡ false }
        requires exists { Exists self.now.circuit event }
        ensures { result ≡ is_useful self.now.state event }
    {
        match event {
            Event::Deliver(pin) => self.can_deliver(pin),
            Event::Advance(net) => self.can_advance(net),
        }
    }

    fn can_deliver(&self, pin: u32) -> bool
        requires running { self.now.failed ≡ false }
        requires exists { pin < pin_count self.now.circuit }
        ensures { result ≡ is_useful self.now.state (Deliver pin) }
    {
        self.fabric.waiting(pin) > 0
    }

    fn can_advance(&self, net: u32) -> bool
        requires running { self.now.failed ≡ false }
        requires exists { net < length self.now.circuit }
        ensures { result ≡ is_useful self.now.state (Advance net) }
    {
        self.processes.of_net(net).can_advance()
    }

    /// Returns the first pin where a message waits.
    fn waiting_pin(&self) -> Option<u32>
        requires { self.now.failed ≡ false }
        ensures some { IfSome result (λ pin. (pin < pin_count self.now.circuit)
            × (0 < length (waiting_at self.now.state pin))) }
        ensures none { IfNone result ((pin : ℕ) → waiting_at self.now.state pin ≡ []) }
    {
        for pin in 0..self.design.pins() {
            if self.waiting(pin) > 0 {
                return Some(pin);
            }
        }
        None
    }
}
