ghost use Rattle.std.specs.Prelude.{◌≡◌, ◌+◌, ◌++◌, ◌<◌, ◌≤◌, nat_lt, true, false, length, slice_get, Some, IfOk, IfSome, OnOk, OnErr};
ghost use Rattle.std.specs.List.{list_any};
ghost use Rattle.timing_text.specs.Ranges.{most_ticks};
ghost use Rattle.cmb_channels.specs.Kinds.{is_change};
ghost use Rattle.gate_process.specs.Step.{running, started_process, pin_frontier, pin_last, heard, heard_below, wanted_at, wanted_messages, safe_of, next_frontier, advanced, news, drained, drained_changes};
ghost use Rattle.gate_process.specs.Quiet.{IsQuiet};
ghost use Rattle.gate_process.specs.Truth.{IsProcess, CanHear, CanHearAll};

use crate::output::Output;
use crate::received::{Received, nothing_received};
use cmb_channels::{Message, Packed, Waiting};
use design::Design;
use logic3::{Change, Value, Waveform};
use std::alloc::{AllocError, Global};
use std::marker::Model;
use timing_text::Horizon;

/// The logical process of a net.
///
/// It shares nothing with other processes: it receives messages with what the sources of its pins show, and
/// sends messages with what its net shows. A frontier is the number of known ticks of a net, from tick 0 on.
/// What a pin receives is kept at the source's ticks; the net sees it later, by the delay of the wire to the
/// pin.
///
/// If [`advance`](Self::advance) or [`receive_below`](Self::receive_below) runs out of memory, the process has
/// failed, and only [`is_failed`](Self::is_failed) may be called.
#[derive(Debug, Drop)]
pub struct Process<'d> {
    output: Output<'d, Waveform>,
    // What each pin has received from its source, in order.
    received: Vec<Received>,
}

impl<'d> Model for Process<'d> {
    ghost use Rattle.std.specs.Prelude.{◌≡◌, false};
    ghost use Rattle.gate_process.specs.Outputs.{state_of, process_of};
    ghost use Rattle.gate_process.specs.Step.{ProcessView};
    ghost use Rattle.gate_process.specs.Truth.{IsProcess};

    ghost Value = { ProcessView };

    ghost view = { λ p. process_of p.output p.received.items };

    ghost invariant = { λ p. p.output.failed ≡ false → IsProcess (state_of p.output p.received.items) };
}

impl<'d> Process<'d> {
    /// Returns the process of a net, which knows nothing yet: all frontiers are 0. It computes the net up to
    /// the horizon.
    ///
    /// On an `AllocError` nothing stays allocated.
    pub fn new(
        alloc: Global,
        design: &'d Design,
        net: u32,
        horizon: Horizon,
    ) -> Result<Process<'d>, AllocError>
        requires { net < length design.now.circuit }
        ensures { IfOk result (λ process. IfSome (slice_get design.now.circuit net)
            (λ n. process ≡ running (started_process (horizon + 1) n))) }
    {
        let output = Output::new(alloc, design, net, horizon);
        let received = nothing_received(alloc, output.pins())?;
        Ok(Process { output, received })
    }

    /// Receives a message at the pin at this place among the pins of the net, from 0 on. This doesn't compute
    /// the net: its frontier and its waveform stay until the process advances.
    ///
    /// The message is about the pin's source, at the source's ticks. It must raise what is known of the
    /// source, but not past the horizon, and a change must continue the waveform that the pin has received. A
    /// null message takes no memory. On an `AllocError` the process is unchanged.
    pub fn receive(&mut self, place: u32, message: Message) -> Result<(), AllocError>
        requires running { self.old.failed ≡ false }
        requires place { place < length self.old.state.received }
        requires can_hear { CanHear self.old.state place message }
        ensures ok { OnOk result (self.new ≡ running (heard place message self.old.state)) }
        ensures err { OnErr result (self.new ≡ self.old) }
        ensures memory { OnErr result (is_change message ≡ true) }
    {
        let received = self.received.as_mut_slice();
        self.output.receive(received, place, message)
    }

    /// Receives the first of some messages at the pin at this place, one after another as
    /// [`receive`](Self::receive) does, as long as the pin is known to less than a tick. Returns how many.
    ///
    /// Null messages take no memory. After an `AllocError` the process has failed.
    pub fn receive_below(
        &mut self,
        place: u32,
        messages: &Waiting<'_>,
        tick: u64,
    ) -> Result<usize, AllocError>
        requires running { self.old.failed ≡ false }
        requires place { place < length self.old.state.received }
        requires can_hear { CanHearAll self.old.state place
            (wanted_messages tick self.old.state place messages.now) }
        ensures count { IfOk result (λ count. count ≡ wanted_at tick self.old.state place messages.now) }
        ensures ok { OnOk result (self.new ≡
            running (heard_below tick place messages.now self.old.state)) }
        ensures err { OnErr result (self.new.failed ≡ true) }
        ensures memory { OnErr result
            (list_any is_change (wanted_messages tick self.old.state place messages.now) ≡ true) }
    {
        let received = self.received.as_mut_slice();
        self.output.receive_below(received, place, messages, tick)
    }

    /// Computes the net as far as its pins allow, and returns the messages: each change, in order, and at the
    /// end a null message unless there is a change at the last known tick. Each message raises what is known
    /// of the net, so there is none if the frontier stays.
    ///
    /// A gate doesn't wait for all of its pins: if the known ones settle its value, as a 0 does for an AND,
    /// it looks ahead to the first tick at which they don't.
    ///
    /// The cost grows with the changes and the pins, not with the ticks. If the frontier stays, it takes no
    /// memory. After an `AllocError` the process has failed.
    pub fn advance(&mut self) -> Result<Vec<Message>, AllocError>
        requires running { self.old.failed ≡ false }
        ensures news { IfOk result (λ messages. messages.items ≡ news self.old.state) }
        ensures state { OnOk result (self.new ≡ running (advanced self.old.state)) }
        ensures err { OnErr result (self.new.failed ≡ true) }
        ensures memory { OnErr result (self.old.state.known.frontier < next_frontier self.old.state) }
        ensures quiet { OnOk result (IsQuiet self.new.state) }
    {
        let alloc = *self.received.allocator();
        let mut news = Vec::new(alloc);
        self.advance_into(&mut news)?;
        match unpacked(alloc, news.as_slice()) {
            Ok(messages) => Ok(messages),
            Err(error) => {
                self.output.fail();
                Err(error)
            }
        }
    }

    /// Advances as [`advance`](Self::advance) does, and replaces what a list held with the messages. So one
    /// list serves many advances, and a message takes four bytes.
    pub fn advance_into(&mut self, messages: &mut Vec<Packed>) -> Result<(), AllocError>
        requires running { self.old.failed ≡ false }
        ensures news { OnOk result (messages.new.items ≡ news self.old.state) }
        ensures state { OnOk result (self.new ≡ running (advanced self.old.state)) }
        ensures err { OnErr result (self.new.failed ≡ true) }
        ensures memory { OnErr result (self.old.state.known.frontier < next_frontier self.old.state) }
        // Until it receives a message, another advance would change nothing.
        ensures quiet { OnOk result (IsQuiet self.new.state) }
    {
        let received = self.received.as_mut_slice();
        self.output.advance_into(received, messages)?;
        Ok(())
    }

    /// Returns whether [`advance`](Self::advance) would raise the net's frontier, and so return messages. It
    /// looks at each pin once, and takes no memory.
    pub fn can_advance(&self) -> bool
        requires running { self.now.failed ≡ false }
        ensures { result ≡ nat_lt self.now.state.known.frontier (next_frontier self.now.state) }
    {
        self.output.can_advance(self.received.as_slice())
    }

    /// Takes out the net's changes before a tick up to which it is known, returns them in order, and forgets
    /// what the net showed before that tick.
    ///
    /// On an `AllocError` the process is unchanged.
    pub fn drain_below(&mut self, bound: u64) -> Result<Vec<Change>, AllocError>
        requires running { self.old.failed ≡ false }
        requires known { bound ≤ self.old.state.known.frontier }
        ensures changes { IfOk result (λ changes. changes.items ≡ drained_changes bound self.old.state) }
        ensures ok { OnOk result (self.new ≡ running (drained bound self.old.state)) }
        ensures err { OnErr result (self.new ≡ self.old) }
        ensures memory { OnErr result (0 < length (drained_changes bound self.old.state)) }
        ensures quiet { OnOk result (IsQuiet self.old.state → IsQuiet self.new.state) }
    {
        let mut changes = Vec::new(*self.received.allocator());
        self.drain_below_into(bound, &mut changes)?;
        Ok(changes)
    }

    /// Drains as [`drain_below`](Self::drain_below) does, and adds the changes in order to the end of a list.
    ///
    /// On an `AllocError` the process and the list are unchanged.
    pub fn drain_below_into(
        &mut self,
        bound: u64,
        changes: &mut Vec<Change>,
    ) -> Result<(), AllocError>
        requires running { self.old.failed ≡ false }
        requires known { bound ≤ self.old.state.known.frontier }
        ensures changes { OnOk result (changes.new.items ≡ changes.old.items ++ drained_changes bound self.old.state) }
        ensures ok { OnOk result (self.new ≡ running (drained bound self.old.state)) }
        ensures same { OnErr result (changes.new.items ≡ changes.old.items) }
        ensures err { OnErr result (self.new ≡ self.old) }
        ensures memory { OnErr result (0 < length (drained_changes bound self.old.state)) }
        ensures quiet { OnOk result (IsQuiet self.old.state → IsQuiet self.new.state) }
    {
        self.output.drain_below_into(bound, changes)?;
        Ok(())
    }

    /// Returns the number of ticks known at all pins, as the net sees them: the least of their frontiers,
    /// each later than its source's by the delay of the wire, and for an input all ticks up to the horizon.
    /// It may be past the horizon by the delay of a wire.
    pub fn safe(&self) -> u64
        requires running { self.now.failed ≡ false }
        ensures { result ≡ safe_of self.now.state }
    {
        self.output.safe(self.received.as_slice())
    }

    /// Returns the tick from which on the net's waveform is kept: the latest tick before which changes were
    /// taken out, or 0 if none were.
    pub fn floor(&self) -> u64
        requires running { self.now.failed ≡ false }
        ensures { result ≡ self.now.state.floor }
    {
        self.output.floor()
    }

    /// Returns the number of known ticks of the net, from tick 0 on: at most the horizon and one more.
    pub fn frontier(&self) -> u64
        requires running { self.now.failed ≡ false }
        ensures { result ≡ self.now.state.known.frontier }
    {
        self.output.frontier()
    }

    /// Returns the first tick past the horizon, at which each frontier ends: at most 10,000,001.
    pub fn end(&self) -> u64
        requires running { self.now.failed ≡ false }
        ensures end { result ≡ self.now.state.end }
        ensures most { result ≤ most_ticks + 1 }
    {
        self.output.end()
    }

    /// Returns the number of pins of the net, at most 1,024. They are numbered by their places, from 0.
    pub fn pins(&self) -> u32
        requires running { self.now.failed ≡ false }
        ensures count { result ≡ length self.now.state.received }
        ensures most { result ≤ 1024 }
    {
        self.received.len() as u32
    }

    /// Returns the number of known ticks of the source of the pin at this place among the pins of the net:
    /// the source's own ticks, whatever the delay of the wire.
    pub fn received(&self, place: u32) -> u64
        requires running { self.now.failed ≡ false }
        requires place { place < length self.now.state.received }
        ensures { pin_frontier self.now.state place ≡ Some result }
    {
        self.received[place as usize].frontier()
    }

    /// Returns the value of the last change that the pin at this place has received, or X if none.
    pub fn last(&self, place: u32) -> Value
        requires running { self.now.failed ≡ false }
        requires place { place < length self.now.state.received }
        ensures { pin_last self.now.state place ≡ Some result }
    {
        self.received[place as usize].last()
    }

    /// Returns what the net shows at the known ticks, from its [`floor`](Self::floor) on.
    pub fn waveform(&self) -> &Waveform
        requires running { self.now.failed ≡ false }
        ensures { result.now ≡ self.now.state.known.wave }
    {
        self.output.wave()
    }

    /// Returns whether an advance ran out of memory. What the process knows can't be used then.
    pub fn is_failed(&self) -> bool
        ensures failed { result ≡ self.now.failed }
        ensures well_formed { self.now.failed ≡ false → IsProcess self.now.state }
    {
        self.output.is_failed()
    }
}

/// Returns these messages, unpacked. If there are none, it takes no memory.
fn unpacked(alloc: Global, news: &[Packed]) -> Result<Vec<Message>, AllocError>
    ensures ok { IfOk result (λ messages. messages.items ≡ news.now) }
    ensures memory { OnErr result (0 < length news.now) }
{
    let mut messages = Vec::new(alloc);
    for message in news {
        messages.push(message.message())?;
    }
    Ok(messages)
}
