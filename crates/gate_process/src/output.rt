//! The output of a process: its net, as far as it is known.
ghost use Rattle.std.specs.Prelude.{◌≡◌, ◌+◌, ◌++◌, ◌<◌, ◌≤◌, nat_lt, true, false, length, slice_get, IfOk, IfSome, OnOk, OnErr};
ghost use Rattle.std.specs.List.{list_any};
ghost use Rattle.logic3.specs.Wave.{value_at, changes_between};
ghost use Rattle.timing_text.specs.Ranges.{most_delay, most_ticks};
ghost use Rattle.cmb_channels.specs.Kinds.{is_change};
ghost use Rattle.gate_process.specs.Knowledge.{forgetting};
ghost use Rattle.gate_process.specs.Step.{running, heard, heard_below, oldest_asked, wanted_at, wanted_messages, safe_of, sure_frontier, next_frontier, advanced, news};
ghost use Rattle.gate_process.specs.Outputs.{state_of, process_of, started_output, drained_output};
ghost use Rattle.gate_process.specs.Quiet.{IsQuiet};
ghost use Rattle.gate_process.specs.Truth.{IsNet, IsProcess, CanHear, CanHearAll};

use crate::advance::{Span, extend, goes_on, keep_all};
use crate::kept_wave::KeptWave;
use crate::own_net::OwnNet;
use crate::received::{Received, least_frontier};
use cmb_channels::{Message, Packed, Waiting};
use design::Design;
use logic3::Change;
use std::alloc::{AllocError, Global};
use std::marker::Model;
use timing_text::Horizon;

/// What a process has beside what its pins have received. Its methods take that from outside, since the
/// processes of a design keep it in one list.
///
/// Four bytes hold the tick of any run. Fields lie in memory in this order, so the small ones are last.
#[derive(Debug, Drop)]
pub struct Output<'d, W: KeptWave> {
    wave: W,
    net: OwnNet<'d>,
    // The first tick past the horizon.
    end: u32,
    // The waveform begins at this tick.
    floor: u32,
    frontier: u32,
    failed: bool,
}

impl<'d, W: KeptWave> Model for Output<'d, W> {
    ghost use Rattle.gate_process.specs.Outputs.{OutputView};

    ghost Value = { OutputView };

    ghost view = { λ o. record {
      failed = o.failed;
      net = o.net;
      end = o.end;
      floor = o.floor;
      known = record { wave = W.wave o.wave; frontier = o.frontier };
    } };
}

impl<'d, W: KeptWave> Output<'d, W> {
    /// Returns the output of a process that knows nothing yet, and computes its net up to the horizon.
    pub fn new(alloc: Global, design: &'d Design, net: u32, horizon: Horizon) -> Output<'d, W>
        requires { net < length design.now.circuit }
        ensures started { IfSome (slice_get design.now.circuit net) (λ n. result ≡ started_output (horizon + 1) n) }
        ensures end { result.end ≤ most_ticks + 1 }
        ensures well_formed { IsNet result.net }
    {
        let net = OwnNet::of(design, net);
        // Called for its contract: the net is well formed.
        net.pins();
        Output {
            wave: W::unknown(alloc),
            net,
            end: horizon.ticks() as u32 + 1,
            floor: 0,
            frontier: 0,
            failed: false,
        }
    }

    /// Returns the number of pins of the net.
    pub fn pins(&self) -> usize
        ensures { result ≡ length self.now.net.pins }
    {
        self.net.pins()
    }

    /// Returns the first tick past the horizon.
    pub fn end(&self) -> u64
        ensures { result ≡ self.now.end }
    {
        u64::from(self.end)
    }

    /// Returns the tick from which on the waveform is kept.
    pub fn floor(&self) -> u64
        ensures { result ≡ self.now.floor }
    {
        u64::from(self.floor)
    }

    /// Returns the number of known ticks of the net.
    pub fn frontier(&self) -> u64
        ensures { result ≡ self.now.known.frontier }
    {
        u64::from(self.frontier)
    }

    /// Returns what the net shows at the known ticks, from the floor on.
    pub fn wave(&self) -> &W
        ensures { W.wave result.now ≡ self.now.known.wave }
    {
        &self.wave
    }

    /// Returns whether the process ran out of memory.
    pub fn is_failed(&self) -> bool
        ensures { result ≡ self.now.failed }
    {
        self.failed
    }

    /// Notes that the process ran out of memory.
    pub fn fail(&mut self)
        ensures { self.new ≡ record self.old { failed = true } }
    {
        self.failed = true;
    }

    /// Lets the pin at a place receive a message. An `AllocError` changes nothing.
    pub fn receive(
        &self,
        received: &mut [Received],
        place: u32,
        message: Message,
    ) -> Result<(), AllocError>
        requires process { IsProcess (state_of self.now received.old) }
        requires place { place < length received.old }
        requires can_hear { CanHear (state_of self.now received.old) place message }
        ensures ok { OnOk result (state_of self.now received.new ≡ heard place message (state_of self.now received.old)) }
        ensures process { OnOk result (IsProcess (state_of self.now received.new)) }
        ensures pins { length received.new ≡ length received.old }
        ensures err { OnErr result (received.new ≡ received.old) }
        ensures memory { OnErr result (is_change message ≡ true) }
    {
        let pin = &mut received[place as usize];
        pin.hear(Packed::of(message))?;
        pin.keep(self.oldest_asked(place as usize));
        Ok(())
    }

    /// Lets the pin at a place receive the first of some messages, as long as it is known to less than a tick,
    /// and returns how many. After an `AllocError` the process has failed.
    pub fn receive_below(
        &mut self,
        received: &mut [Received],
        place: u32,
        messages: &Waiting<'_>,
        tick: u64,
    ) -> Result<usize, AllocError>
        requires running { self.old.failed ≡ false }
        requires process { IsProcess (state_of self.old received.old) }
        requires place { place < length received.old }
        requires can_hear { CanHearAll (state_of self.old received.old) place
            (wanted_messages tick (state_of self.old received.old) place messages.now) }
        ensures count { IfOk result (λ count. count ≡ wanted_at tick (state_of self.old received.old) place messages.now) }
        ensures ok { OnOk result (process_of self.new received.new ≡
            running (heard_below tick place messages.now (state_of self.old received.old))) }
        ensures process { OnOk result (IsProcess (state_of self.new received.new)) }
        ensures net { self.new.net ≡ self.old.net }
        ensures pins { length received.new ≡ length received.old }
        ensures err { OnErr result (self.new.failed ≡ true) }
        ensures memory { OnErr result
            (list_any is_change (wanted_messages tick (state_of self.old received.old) place messages.now) ≡ true) }
    {
        self.failed = true;
        let pin = &mut received[place as usize];
        let count = pin.hear_below(messages, tick)?;
        // Once is enough: what is kept after the last message was kept after each.
        let oldest = self.oldest_asked(place as usize);
        pin.keep(oldest);
        self.failed = false;
        Ok(count)
    }

    /// Computes the net as far as its pins allow, and replaces what a list held with the messages. If the
    /// frontier stays, it takes no memory. After an `AllocError` the process has failed.
    pub fn advance_into(
        &mut self,
        received: &mut [Received],
        messages: &mut Vec<Packed>,
    ) -> Result<(), AllocError>
        requires running { self.old.failed ≡ false }
        requires process { IsProcess (state_of self.old received.old) }
        ensures news { OnOk result (messages.new.items ≡ news (state_of self.old received.old)) }
        ensures state { OnOk result (process_of self.new received.new ≡
            running (advanced (state_of self.old received.old))) }
        ensures process { OnOk result (IsProcess (state_of self.new received.new)) }
        ensures net { self.new.net ≡ self.old.net }
        ensures pins { length received.new ≡ length received.old }
        ensures err { OnErr result (self.new.failed ≡ true) }
        ensures memory { OnErr result
            (self.old.known.frontier < next_frontier (state_of self.old received.old)) }
        ensures quiet { OnOk result (IsQuiet (state_of self.new received.new)) }
    {
        messages.clear();
        let span = self.span(received);
        self.failed = true;
        let to = extend(&self.net, received, span, self.wave.last(), messages)?;
        self.wave.add(messages.as_slice())?;
        self.frontier = to as u32;
        keep_all(&self.net, received, to);
        self.failed = false;
        Ok(())
    }

    /// Returns whether [`advance_into`](Self::advance_into) would raise the frontier. Takes no memory.
    pub fn can_advance(&self, received: &[Received]) -> bool
        requires { IsProcess (state_of self.now received.now) }
        ensures { result ≡ nat_lt self.now.known.frontier (next_frontier (state_of self.now received.now)) }
    {
        let span = self.span(received);
        goes_on(&self.net, received, span)
    }

    /// Returns the number of ticks known at all pins, as the net sees them.
    pub fn safe(&self, received: &[Received]) -> u64
        requires { IsProcess (state_of self.now received.now) }
        ensures safe { result ≡ safe_of (state_of self.now received.now) }
        ensures within { result ≤ most_ticks + 1 + most_delay }
    {
        least_frontier(self.end(), received, self.net.wires())
    }

    /// Returns the oldest tick that the net still asks of the source of the pin at a place.
    fn oldest_asked(&self, place: usize) -> u64
        requires { place < length self.now.net.pins }
        ensures { result ≡ oldest_asked self.now.net place self.now.known.frontier }
    {
        let wire = self.net.wires()[place];
        self.net.oldest_asked(wire, self.frontier())
    }

    /// Returns the ticks at which the net is computed.
    fn span(&self, received: &[Received]) -> Span
        requires { IsProcess (state_of self.now received.now) }
        ensures from { result.from ≡ self.now.known.frontier }
        ensures sure { result.sure ≡ sure_frontier (state_of self.now received.now) }
        ensures end { result.end ≡ self.now.end }
    {
        Span {
            from: self.frontier(),
            sure: self.net.sure_frontier(self.end(), self.safe(received)),
            end: self.end(),
        }
    }

    /// Takes out the changes before a tick up to which the net is known, adds them in order to the end of a
    /// list, and forgets what the net showed before that tick. An `AllocError` changes nothing.
    pub fn drain_below_into(
        &mut self,
        bound: u64,
        changes: &mut Vec<Change>,
    ) -> Result<(), AllocError>
        requires end { self.old.known.frontier ≤ most_ticks + 1 }
        requires floor { self.old.floor ≤ self.old.known.frontier }
        requires known { self.old.known ≡ forgetting self.old.floor self.old.known }
        requires within { bound ≤ self.old.known.frontier }
        ensures changes { OnOk result (changes.new.items ≡
            changes.old.items ++ changes_between (value_at self.old.known.wave) self.old.floor bound) }
        ensures ok { OnOk result (self.new ≡ drained_output bound self.old) }
        ensures same { OnErr result (changes.new.items ≡ changes.old.items) }
        ensures err { OnErr result (self.new ≡ self.old) }
        ensures memory { OnErr result
            (0 < length (changes_between (value_at self.old.known.wave) self.old.floor bound)) }
    {
        self.wave.take_below(bound, changes)?;
        self.floor = self.floor.max(bound as u32);
        Ok(())
    }
}
