//! A process to read.
ghost use Rattle.std.specs.Prelude.{◌≡◌, ◌<◌, nat_lt, false, length, Some};
ghost use Rattle.gate_process.specs.Outputs.{state_of, process_of};
ghost use Rattle.gate_process.specs.Truth.{IsProcess};
ghost use Rattle.gate_process.specs.Step.{pin_frontier, pin_last, next_frontier};

use crate::kept_wave::KeptWave;
use crate::output::Output;
use crate::received::Received;
use logic3::Value;
use std::marker::Model;

/// A process among the [`Processes`](crate::Processes) of a design. Its methods are those of
/// [`Process`](crate::Process) that change nothing.
#[derive(Debug, Drop)]
pub struct ProcessReader<'p, 'd, W: KeptWave> {
    output: &'p Output<'d, W>,
    received: &'p [Received],
}

impl<'p, 'd, W: KeptWave> Model for ProcessReader<'p, 'd, W> {
    ghost use Rattle.std.specs.Prelude.{◌≡◌, false};
    ghost use Rattle.gate_process.specs.Outputs.{state_of, process_of};
    ghost use Rattle.gate_process.specs.Step.{ProcessView};
    ghost use Rattle.gate_process.specs.Truth.{IsProcess};

    ghost Value = { ProcessView };

    ghost view = { λ p. process_of p.output.now p.received.now };

    ghost invariant = { λ p. p.output.now.failed ≡ false → IsProcess (state_of p.output.now p.received.now) };
}

impl<'p, 'd, W: KeptWave> ProcessReader<'p, 'd, W> {
    /// Returns the process of an output, and of what its pins have received.
    pub(crate) fn of(
        output: &'p Output<'d, W>,
        received: &'p [Received],
    ) -> ProcessReader<'p, 'd, W>
        requires { output.now.failed ≡ false → IsProcess (state_of output.now received.now) }
        ensures { result ≡ process_of output.now received.now }
    {
        ProcessReader { output, received }
    }

    /// Returns whether an advance would raise the net's frontier, as [`Process::can_advance`] does.
    ///
    /// [`Process::can_advance`]: crate::Process::can_advance
    pub fn can_advance(&self) -> bool
        requires running { self.now.failed ≡ false }
        ensures { result ≡ nat_lt self.now.state.known.frontier (next_frontier self.now.state) }
    {
        self.output.can_advance(self.received)
    }

    /// Returns the tick from which on the net's waveform is kept.
    pub fn floor(&self) -> u64
        requires running { self.now.failed ≡ false }
        ensures { result ≡ self.now.state.floor }
    {
        self.output.floor()
    }

    /// Returns the number of known ticks of the net.
    pub fn frontier(&self) -> u64
        requires running { self.now.failed ≡ false }
        ensures { result ≡ self.now.state.known.frontier }
    {
        self.output.frontier()
    }

    /// Returns the number of known ticks of the source of the pin at this place, at the source's own ticks.
    pub fn received(&self, place: u32) -> u64
        requires running { self.now.failed ≡ false }
        requires place { place < length self.now.state.received }
        ensures { pin_frontier self.now.state place ≡ Some result }
    {
        self.received[place as usize].frontier()
    }

    /// Returns the value of the last change that the pin at this place has received, or X if none.
    pub fn last(&self, place: u32) -> Value
        requires running { self.now.failed ≡ false }
        requires place { place < length self.now.state.received }
        ensures { pin_last self.now.state place ≡ Some result }
    {
        self.received[place as usize].last()
    }

    /// Returns what the net shows at the known ticks, from its floor on.
    pub fn wave(&self) -> &'p W
        requires running { self.now.failed ≡ false }
        ensures { W.wave result.now ≡ self.now.state.known.wave }
    {
        self.output.wave()
    }

    /// Returns whether the process ran out of memory.
    pub fn is_failed(&self) -> bool
        ensures failed { result ≡ self.now.failed }
        ensures well_formed { self.now.failed ≡ false → IsProcess self.now.state }
    {
        self.output.is_failed()
    }
}
