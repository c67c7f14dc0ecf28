ghost use Rattle.std.specs.Prelude.{◌≡◌, ℕ, ◌<◌, false, length};
ghost use Rattle.std.specs.Bool.{OnTrue};
ghost use Rattle.design.specs.Equations.{waves_of};
ghost use Rattle.cmb_kernel.specs.State.{frontier_at, least_frontier, IsUndrained, is_complete, waves_in};
ghost use Rattle.cmb_kernel.specs.Sound.{waves_kept};

use crate::kernel::Kernel;
use cmb_channels::Fabric;
use gate_process::KeptWave;

impl<'d, F: Fabric, W: KeptWave> Kernel<'d, F, W> {
    /// Returns the least frontier of all nets: up to there every net is known, and can be drained. It looks
    /// at each net once.
    pub fn least_frontier(&self) -> u64
        requires { self.now.failed ≡ false }
        ensures { result ≡ least_frontier self.now.end self.now.state }
    {
        self.frontier(self.slowest())
    }

    /// Returns whether each net is known up to the horizon. If so, each waveform is whole, from the net's
    /// [`floor`](Self::floor) on; messages may still wait. It looks at each net once.
    pub fn is_complete(&self) -> bool
        requires { self.now.failed ≡ false }
        ensures complete { result ≡ is_complete self.now.state }
        ensures frontiers { OnTrue result ((net : ℕ) → net < length self.now.circuit →
            frontier_at self.now.state net ≡ self.now.end) }
        ensures waves { OnTrue result (waves_in self.now.state ≡
            waves_kept self.now.circuit self.now.end self.now.state) }
        ensures undrained { IsUndrained self.now.state →
            OnTrue result (waves_in self.now.state ≡ waves_of self.now.circuit self.now.end) }
    {
        self.least_frontier() == self.end
    }

    /// Returns the first net with the least frontier.
    pub(crate) fn slowest(&self) -> u32
        requires { self.now.failed ≡ false }
        ensures net { result < length self.now.circuit }
        ensures least { frontier_at self.now.state result ≡ least_frontier self.now.end self.now.state }
    {
        let mut slowest = 0;
        for net in 1..self.design.nets() {
            if self.frontier(net) < self.frontier(slowest) {
                slowest = net;
            }
        }
        slowest
    }
}
