//! The processes of a design.
ghost use Rattle.std.specs.Prelude.{◌≡◌, ◌+◌, ◌<◌, ◌≤◌, ◌++◌, true, false, length, map, replicate, slice_get, slice_set, Some, IfOk, OnOk, OnErr};
ghost use Rattle.std.specs.Bool.{OnTrue};
ghost use Rattle.std.specs.List.{list_any};
ghost use Rattle.std.specs.Option.{ForSome};
ghost use Rattle.cmb_channels.specs.Kinds.{is_change};
ghost use Rattle.design.specs.Design.{IsDesign};
ghost use Rattle.timing_text.specs.Ranges.{most_ticks};
ghost use Rattle.gate_process.specs.Outputs.{started_output};
ghost use Rattle.gate_process.specs.Step.{ProcessView, running, started_process, next_frontier, advanced, news, heard, heard_below, wanted_at, wanted_messages, drained, drained_changes};
ghost use Rattle.gate_process.specs.Quiet.{IsQuiet, KnowsTo};
ghost use Rattle.gate_process.specs.Truth.{CanHear, CanHearAll};

use crate::kept_wave::KeptWave;
use crate::output::Output;
use crate::reader::ProcessReader;
use crate::received::{Received, least_received, nothing_received};
use cmb_channels::{Message, Packed, Waiting};
use design::Design;
use logic3::Change;
use std::alloc::{AllocError, Global};
use std::marker::Model;
use timing_text::Horizon;

/// A process for each net of a design.
///
/// They are kept in two lists, so an advance fetches little from memory: one of what belongs to a net, and one
/// of what all pins have received. It is also known which processes are quiet: they have received nothing
/// since they last advanced, so an advance would change nothing. A quiet process that is to advance is
/// skipped, and not even fetched. Nor is one that would take no messages ([`is_at_rest`](Self::is_at_rest)).
#[derive(Debug, Drop)]
pub struct Processes<'d, W: KeptWave> {
    design: &'d Design,
    outputs: Vec<Output<'d, W>>,
    // What each pin has received, by its number.
    received: Vec<Received>,
    // Whether the process at the same place is quiet. A flag takes much less memory than a process.
    quiet: Vec<bool>,
    // The tick up to which each pin of the process at the same place is known, if it is quiet.
    heard: Vec<u64>,
}

impl<'d, W: KeptWave> Model for Processes<'d, W> {
    ghost use Rattle.std.specs.Prelude.{List};
    ghost use Rattle.gate_process.specs.Outputs.{processes_of, AreStored};
    ghost use Rattle.gate_process.specs.Step.{ProcessView};
    ghost use Rattle.gate_process.specs.Quiet.{AreAtRest};

    ghost Value = { List ProcessView };

    ghost view = { λ p. processes_of p.outputs.items p.received.items };

    ghost invariant = { λ p. AreStored p.design.now.circuit p.outputs.items p.received.items
        × AreAtRest (processes_of p.outputs.items p.received.items) p.quiet.items p.heard.items };
}

impl<'d, W: KeptWave> Processes<'d, W> {
    /// Returns a process for each net of a design, in order, each of which knows nothing yet. On an
    /// `AllocError` nothing stays allocated.
    pub fn new(
        alloc: Global,
        design: &'d Design,
        horizon: Horizon,
    ) -> Result<Processes<'d, W>, AllocError>
        ensures processes { IfOk result (λ processes. processes ≡
            map (λ net. running (started_process (horizon + 1) net)) design.now.circuit) }
        ensures well_formed { IsDesign design.now }
    {
        let outputs = started(alloc, design, horizon)?;
        let received = nothing_received(alloc, design.pins() as usize)?;
        let quiet = none_quiet(alloc, outputs.len())?;
        let heard = none_heard(alloc, outputs.len())?;
        Ok(Processes {
            design,
            outputs,
            received,
            quiet,
            heard,
        })
    }

    /// Returns the number of processes: one for each net.
    pub fn len(&self) -> usize
        ensures { result ≡ length self.now }
    {
        self.outputs.len()
    }

    /// Returns the process of a net.
    pub fn of_net(&self, net: u32) -> ProcessReader<'_, 'd, W>
        requires { net < length self.now }
        ensures { slice_get self.now net ≡ Some result }
    {
        let pins = self.design.pin_range(net);
        let received = &self.received.as_slice()[pins.start..pins.end];
        ProcessReader::of(&self.outputs[net as usize], received)
    }

    /// Returns whether the process of a net is quiet and its pins are known up to a tick of their sources: then
    /// it needs no messages to reach the tick, and an advance would change nothing. This looks at no process.
    ///
    /// `false` says only that the process has to be looked at.
    pub fn is_at_rest(&self, net: u32, tick: u64) -> bool
        requires net { net < length self.now }
        requires running { ForSome (slice_get self.now net) (λ (process : ProcessView). process.failed ≡ false) }
        ensures quiet { OnTrue result (ForSome (slice_get self.now net) (λ (process : ProcessView).
            IsQuiet process.state)) }
        ensures known { OnTrue result (ForSome (slice_get self.now net) (λ (process : ProcessView).
            KnowsTo tick process.state)) }
    {
        self.quiet[net as usize] && tick <= self.heard[net as usize]
    }

    /// Lets the process of a net receive a message, as [`Process::receive`] does. An `AllocError` changes
    /// nothing.
    ///
    /// [`Process::receive`]: crate::Process::receive
    pub fn receive(&mut self, net: u32, place: u32, message: Message) -> Result<(), AllocError>
        requires net { net < length self.old }
        requires running { ForSome (slice_get self.old net) (λ (process : ProcessView). process.failed ≡ false) }
        requires place { ForSome (slice_get self.old net) (λ (process : ProcessView).
            place < length process.state.received) }
        requires can_hear { ForSome (slice_get self.old net) (λ (process : ProcessView).
            CanHear process.state place message) }
        ensures ok { OnOk result (ForSome (slice_get self.old net) (λ (process : ProcessView).
            self.new ≡ slice_set self.old net (running (heard place message process.state)))) }
        ensures err { OnErr result (self.new ≡ self.old) }
        ensures memory { OnErr result (is_change message ≡ true) }
    {
        self.quiet[net as usize] = false;
        let pins = self.design.pin_range(net);
        let received = &mut self.received.as_mut_slice()[pins.start..pins.end];
        self.outputs[net as usize].receive(received, place, message)?;
        Ok(())
    }

    /// Lets the process of a net receive the first of some messages, as [`Process::receive_below`] does. One
    /// that receives none stays quiet. After an `AllocError` the process has failed, and the others are
    /// unchanged.
    ///
    /// [`Process::receive_below`]: crate::Process::receive_below
    pub fn receive_below(
        &mut self,
        net: u32,
        place: u32,
        messages: &Waiting<'_>,
        tick: u64,
    ) -> Result<usize, AllocError>
        requires net { net < length self.old }
        requires running { ForSome (slice_get self.old net) (λ (process : ProcessView). process.failed ≡ false) }
        requires place { ForSome (slice_get self.old net) (λ (process : ProcessView).
            place < length process.state.received) }
        requires can_hear { ForSome (slice_get self.old net) (λ (process : ProcessView).
            CanHearAll process.state place (wanted_messages tick process.state place messages.now)) }
        ensures count { IfOk result (λ count. ForSome (slice_get self.old net) (λ (process : ProcessView).
            count ≡ wanted_at tick process.state place messages.now)) }
        ensures ok { OnOk result (ForSome (slice_get self.old net) (λ (process : ProcessView).
            self.new ≡ slice_set self.old net
            (running (heard_below tick place messages.now process.state)))) }
        ensures err { OnErr result ((process : ProcessView) × (process.failed ≡ true)
            × (self.new ≡ slice_set self.old net process)) }
        ensures memory { OnErr result (ForSome (slice_get self.old net) (λ (process : ProcessView).
            list_any is_change (wanted_messages tick process.state place messages.now) ≡ true)) }
    {
        let pins = self.design.pin_range(net);
        let received = &mut self.received.as_mut_slice()[pins.start..pins.end];
        let output = &mut self.outputs[net as usize];
        let count = output.receive_below(received, place, messages, tick)?;
        if count > 0 {
            self.quiet[net as usize] = false;
        }
        Ok(count)
    }

    /// Advances the process of a net, as [`Process::advance_into`] does. A quiet one isn't touched, sends
    /// nothing, and takes no memory. After an `AllocError` the process has failed, and the others are
    /// unchanged.
    ///
    /// [`Process::advance_into`]: crate::Process::advance_into
    pub fn advance_into(&mut self, net: u32, messages: &mut Vec<Packed>) -> Result<(), AllocError>
        requires net { net < length self.old }
        requires running { ForSome (slice_get self.old net) (λ (process : ProcessView). process.failed ≡ false) }
        ensures news { OnOk result (ForSome (slice_get self.old net) (λ (process : ProcessView).
            messages.new.items ≡ news process.state)) }
        ensures ok { OnOk result (ForSome (slice_get self.old net) (λ (process : ProcessView).
            self.new ≡ slice_set self.old net (running (advanced process.state)))) }
        ensures err { OnErr result ((process : ProcessView) × (process.failed ≡ true)
            × (self.new ≡ slice_set self.old net process)) }
        ensures memory { OnErr result (ForSome (slice_get self.old net) (λ (process : ProcessView).
            process.state.known.frontier < next_frontier process.state)) }
    {
        if self.quiet[net as usize] {
            messages.clear();
            return Ok(());
        }
        let pins = self.design.pin_range(net);
        let received = &mut self.received.as_mut_slice()[pins.start..pins.end];
        self.outputs[net as usize].advance_into(received, messages)?;
        self.heard[net as usize] = least_received(received);
        self.quiet[net as usize] = true;
        Ok(())
    }

    /// Takes out changes of a net, as [`Process::drain_below_into`] does. An `AllocError` changes nothing.
    ///
    /// [`Process::drain_below_into`]: crate::Process::drain_below_into
    pub fn drain_below_into(
        &mut self,
        net: u32,
        bound: u64,
        changes: &mut Vec<Change>,
    ) -> Result<(), AllocError>
        requires net { net < length self.old }
        requires running { ForSome (slice_get self.old net) (λ (process : ProcessView). process.failed ≡ false) }
        requires known { ForSome (slice_get self.old net) (λ (process : ProcessView).
            bound ≤ process.state.known.frontier) }
        ensures changes { OnOk result (ForSome (slice_get self.old net) (λ (process : ProcessView).
            changes.new.items ≡ changes.old.items ++ drained_changes bound process.state)) }
        ensures ok { OnOk result (ForSome (slice_get self.old net) (λ (process : ProcessView).
            self.new ≡ slice_set self.old net (running (drained bound process.state)))) }
        ensures same { OnErr result (changes.new.items ≡ changes.old.items) }
        ensures err { OnErr result (self.new ≡ self.old) }
        ensures memory { OnErr result (ForSome (slice_get self.old net) (λ (process : ProcessView).
            0 < length (drained_changes bound process.state))) }
    {
        // A quiet process stays quiet: what is taken out plays no part in what it computes.
        self.outputs[net as usize].drain_below_into(bound, changes)?;
        Ok(())
    }
}

/// Returns the output of each net of a design, in order, of which nothing is known.
fn started<'d, W: KeptWave>(
    alloc: Global,
    design: &'d Design,
    horizon: Horizon,
) -> Result<Vec<Output<'d, W>>, AllocError>
    ensures outputs { IfOk result (λ outputs. outputs.items ≡ map (started_output (horizon + 1)) design.now.circuit) }
    ensures well_formed { IsDesign design.now }
    ensures within { horizon ≤ most_ticks }
{
    // Called for its contract: the horizon is in its range.
    horizon.ticks();
    let mut outputs = Vec::with_capacity(alloc, design.nets() as usize)?;
    for net in 0..design.nets() {
        outputs.push(Output::new(alloc, design, net, horizon))?;
    }
    Ok(outputs)
}

/// Returns the flags of this number of processes, none of which has advanced yet.
fn none_quiet(alloc: Global, count: usize) -> Result<Vec<bool>, AllocError>
    ensures { IfOk result (λ quiet. quiet.items ≡ replicate count false) }
{
    let mut quiet = Vec::with_capacity(alloc, count)?;
    for _process in 0..count {
        quiet.push(false)?;
    }
    Ok(quiet)
}

/// Returns the ticks up to which the pins of this number of processes are known, before they receive anything.
fn none_heard(alloc: Global, count: usize) -> Result<Vec<u64>, AllocError>
    ensures { IfOk result (λ heard. heard.items ≡ replicate count 0) }
{
    let mut heard = Vec::with_capacity(alloc, count)?;
    for _process in 0..count {
        heard.push(0)?;
    }
    Ok(heard)
}
