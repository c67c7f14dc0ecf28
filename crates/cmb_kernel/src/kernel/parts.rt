ghost use Rattle.std.specs.Prelude.{◌≡◌, ◌+◌, ◌≤◌, false, length};
ghost use Rattle.timing_text.specs.Ranges.{most_ticks};
ghost use Rattle.netlist.specs.Netlist.{most_nets, most_pins};
ghost use Rattle.design.specs.Circuit.{IsCircuit, pin_count};
ghost use Rattle.design.specs.Pins.{sources_of};

use crate::kernel::Kernel;
use cmb_channels::Fabric;
use design::Design;
use gate_process::KeptWave;

impl<'d, F: Fabric, W: KeptWave> Kernel<'d, F, W> {
    /// Returns the design that runs.
    pub fn design(&self) -> &'d Design
        ensures { result.now.circuit ≡ self.now.circuit }
    {
        self.design
    }

    /// Returns the number of nets: 1 to 100,000. They are numbered from 0.
    pub fn nets(&self) -> u32
        ensures count { result ≡ length self.now.circuit }
        ensures some { 1 ≤ result }
        ensures most { result ≤ most_nets }
        ensures circuit { IsCircuit self.now.circuit }
    {
        self.design.nets()
    }

    /// Returns the number of pins of all nets: at most 1,000,000. They are numbered from 0, net by net.
    pub fn pins(&self) -> u32
        ensures count { result ≡ pin_count self.now.circuit }
        ensures most { result ≤ most_pins }
    {
        self.design.pins()
    }

    /// Returns the first tick after the horizon, at which each frontier ends: at most 10,000,001.
    pub fn end(&self) -> u64
        ensures end { result ≡ self.now.end }
        ensures most { self.now.failed ≡ false → result ≤ most_ticks + 1 }
    {
        self.end
    }

    /// Returns the channels, with what waits in them now.
    pub fn fabric(&self) -> &F
        ensures lists { F.lists result.now ≡ self.now.state.lists }
        ensures pins { self.now.failed ≡ false → length (F.lists result.now) ≡ pin_count self.now.circuit }
        ensures sources { self.now.failed ≡ false → F.sources result.now ≡ sources_of self.now.circuit }
        ensures nets { self.now.failed ≡ false → F.nets result.now ≡ length self.now.circuit }
    {
        &self.fabric
    }
}
