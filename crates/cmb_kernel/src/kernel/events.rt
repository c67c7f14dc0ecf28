ghost use Rattle.std.specs.Prelude.{◌≡◌, ◌<◌, true, false, None, length, Err, IfOk, OnOk, OnErr};
ghost use Rattle.design.specs.Circuit.{IsCircuit, pin_count};
ghost use Rattle.design.specs.Pins.{net_of_pin, place_of_pin};
ghost use Rattle.cmb_events.specs.declared.event.Event.TheVariants.{Deliver, Advance};
ghost use Rattle.cmb_kernel.specs.declared.fault.KernelFault.TheVariants.{Memory};
ghost use Rattle.cmb_kernel.specs.Step.{step, steps};
ghost use Rattle.cmb_kernel.specs.Useful.{is_useful};
ghost use Rattle.cmb_events.specs.Schedule.{Exists};
ghost use Rattle.cmb_kernel.specs.Sound.{IsSound};
ghost use Rattle.cmb_kernel.specs.Refusals.{event_fault, list_fault, refusal, answer};
ghost use Rattle.cmb_kernel.specs.Calls.{IsOutcome};

use crate::fault::KernelFault;
use crate::kernel::Kernel;
use cmb_channels::Fabric;
use cmb_events::{Event, MOST_EVENTS};
use design::Design;
use gate_process::KeptWave;
use std::alloc::AllocError;

impl<'d, F: Fabric, W: KeptWave> Kernel<'d, F, W> {
    /// Applies an event, and returns whether it was useful: whether it raised a frontier, of a net or of a
    /// pin. An event that raises none is counted, changes nothing else, and takes no memory.
    ///
    /// # Errors
    /// [`KernelFault::Failed`], and [`KernelFault::NoSuchPin`] or [`KernelFault::NoSuchNet`] at
    /// place 0; nothing changed. [`KernelFault::Memory`]; the kernel has failed from then on.
    pub fn apply(&mut self, event: Event) -> Result<bool, KernelFault>
        ensures outcome { IsOutcome self.old self.new (event_fault self.old.circuit 0 event)
            (step self.old.state event) (is_useful self.old.state event) result }
        ensures useful { IfOk result (λ useful. useful ≡ is_useful self.old.state event) }
        ensures ok { OnOk result (self.new ≡ record self.old { state = step self.old.state event }) }
        // It returns `Ok` only for a running kernel and an event whose pin or net exists.
        ensures running { OnOk result (self.old.failed ≡ false) }
        ensures exists { OnOk result (Exists self.old.circuit event) }
        ensures memory { result ≡ Err Memory → is_useful self.old.state event ≡ true }
    {
        self.check_running()?;
        check_event(self.design, 0, event)?;
        Ok(self.step(event)?)
    }

    /// Applies some events in order. The whole list is checked before the first event is applied.
    ///
    /// # Errors
    /// [`KernelFault::Failed`], [`KernelFault::TooManyEvents`], and the fault of the first bad event;
    /// nothing changed. [`KernelFault::Memory`]; the kernel has failed from then on.
    pub fn apply_all(&mut self, events: &[Event]) -> Result<(), KernelFault>
        ensures outcome { IsOutcome self.old self.new (list_fault self.old.circuit events.now)
            (steps self.old.state events.now) tt result }
    {
        self.check_running()?;
        check_events(self.design, events)?;
        for event in events {
            self.step(*event)?;
        }
        Ok(())
    }

    /// Checks that no call ran out of memory.
    pub(crate) fn check_running(&self) -> Result<(), KernelFault>
        ensures answer { result ≡ answer (refusal self.now None) tt }
        ensures circuit { OnOk result (IsCircuit self.now.circuit) }
        ensures sound { OnOk result (IsSound self.now.circuit self.now.end self.now.state) }
    {
        if self.failed {
            return Err(KernelFault::Failed);
        }
        Ok(())
    }

    /// Applies an event whose pin or net exists. After an `AllocError` the kernel has failed.
    pub(crate) fn step(&mut self, event: Event) -> Result<bool, AllocError>
        requires running { self.old.failed ≡ false }
        requires exists { Exists self.old.circuit event }
        ensures useful { IfOk result (λ useful. useful ≡ is_useful self.old.state event) }
        ensures ok { OnOk result (self.new ≡ record self.old { state = step self.old.state event }) }
        ensures err { OnErr result (self.new.failed ≡ true) }
        ensures memory { OnErr result (is_useful self.old.state event ≡ true) }
        ensures sound { OnOk result (IsSound self.new.circuit self.new.end self.new.state) }
    {
        match event {
            Event::Deliver(pin) => self.deliver(pin),
            Event::Advance(net) => self.advance(net),
        }
    }

    fn deliver(&mut self, pin: u32) -> Result<bool, AllocError>
        requires running { self.old.failed ≡ false }
        requires exists { pin < pin_count self.old.circuit }
        ensures useful { IfOk result (λ useful. useful ≡ is_useful self.old.state (Deliver pin)) }
        ensures ok { OnOk result (self.new ≡ record self.old { state = step self.old.state (Deliver pin) }) }
        ensures err { OnErr result (self.new.failed ≡ true) }
        ensures memory { OnErr result (is_useful self.old.state (Deliver pin) ≡ true) }
        ensures sound { OnOk result (IsSound self.new.circuit self.new.end self.new.state) }
    {
        let net = self.design.pin_net(pin);
        let place = pin - self.design.pin(net, 0);
        self.deliver_there(pin, net, place)
    }

    /// Lets the pin at a place of a net take the oldest message that waits. After an `AllocError` the kernel
    /// has failed.
    pub(crate) fn deliver_there(
        &mut self,
        pin: u32,
        net: u32,
        place: u32,
    ) -> Result<bool, AllocError>
        requires running { self.old.failed ≡ false }
        requires exists { pin < pin_count self.old.circuit }
        requires within { net < length self.old.circuit }
        requires net { net ≡ net_of_pin self.old.circuit pin }
        requires place { place ≡ place_of_pin self.old.circuit pin }
        ensures useful { IfOk result (λ useful. useful ≡ is_useful self.old.state (Deliver pin)) }
        ensures ok { OnOk result (self.new ≡ record self.old { state = step self.old.state (Deliver pin) }) }
        ensures err { OnErr result (self.new.failed ≡ true) }
        ensures memory { OnErr result (is_useful self.old.state (Deliver pin) ≡ true) }
        ensures sound { OnOk result (IsSound self.new.circuit self.new.end self.new.state) }
    {
        // This stays if the event runs out of memory.
        self.failed = true;
        let message = self.fabric.take(pin);
        if let Some(message) = message {
            self.processes.receive(net, place, message)?;
        }
        self.counts.add_event(&[]);
        self.failed = false;
        Ok(message.is_some())
    }

    fn advance(&mut self, net: u32) -> Result<bool, AllocError>
        requires running { self.old.failed ≡ false }
        requires exists { net < length self.old.circuit }
        ensures useful { IfOk result (λ useful. useful ≡ is_useful self.old.state (Advance net)) }
        ensures ok { OnOk result (self.new ≡ record self.old { state = step self.old.state (Advance net) }) }
        ensures err { OnErr result (self.new.failed ≡ true) }
        ensures memory { OnErr result (is_useful self.old.state (Advance net) ≡ true) }
        ensures sound { OnOk result (IsSound self.new.circuit self.new.end self.new.state) }
    {
        // This stays if the event runs out of memory.
        self.failed = true;
        self.processes.advance_into(net, &mut self.news)?;
        self.fabric.send_all(net, self.news.as_slice())?;
        self.counts.add_event(self.news.as_slice());
        self.failed = false;
        Ok(!self.news.is_empty())
    }
}

/// Checks that the event at this place of a list names a pin or a net of the design.
fn check_event(design: &Design, at: u64, event: Event) -> Result<(), KernelFault>
    ensures { result ≡ answer (event_fault design.now.circuit at event) tt }
{
    match event {
        Event::Deliver(pin) if pin >= design.pins() => Err(KernelFault::NoSuchPin { at }),
        Event::Advance(net) if net >= design.nets() => Err(KernelFault::NoSuchNet { at }),
        _ => Ok(()),
    }
}

/// Checks that there are not too many events, and that each names a pin or a net of the design.
fn check_events(design: &Design, events: &[Event]) -> Result<(), KernelFault>
    ensures { result ≡ answer (list_fault design.now.circuit events.now) tt }
{
    if events.len() > MOST_EVENTS as usize {
        return Err(KernelFault::TooManyEvents);
    }
    for (at, event) in events.iter().enumerate() {
        check_event(design, at as u64, *event)?;
    }
    Ok(())
}
