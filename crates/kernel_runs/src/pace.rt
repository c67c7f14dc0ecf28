//! How a run advances to its end.
ghost use Rattle.std.specs.Prelude.{◌≡◌, ℕ, ◌+◌, ◌≤◌, false, IfOk, OnOk};
ghost use Rattle.design.specs.Circuit.{Circuit};
ghost use Rattle.cmb_kernel.specs.State.{floor_at, least_frontier};
ghost use Rattle.cmb_kernel.specs.Step.{round_of};
ghost use Rattle.cmb_kernel.specs.Sound.{IsSound};
ghost use Rattle.kernel_runs.specs.Paces.{LeastRises, RaisesLeast, Suits};
ghost use Rattle.kernel_runs.specs.declared.pace.Pace.TheVariants.{Rounds};

use crate::kernel_calls::round;
use crate::simulation::StreamKernel;
use crate::sweeps::Sweeps;
use design::Design;
use std::alloc::{AllocError, Global};
use timing_text::Horizon;

/// What is done to a kernel repeatedly until its run is complete.
#[derive(Drop)]
pub(crate) enum Pace {
    /// Rounds, which let each pin take all that waits there.
    Rounds,
    /// Sweeps in the order in which values flow.
    Sweeps(Sweeps),
}

impl Pace {
    /// Returns sweeps over the nets of a design, up to a horizon.
    pub(crate) fn sweeps(
        alloc: Global,
        design: &Design,
        horizon: Horizon,
    ) -> Result<Pace, AllocError>
        ensures { IfOk result (λ pace. Suits pace design.now.circuit (horizon + 1)) }
    {
        Ok(Pace::Sweeps(Sweeps::new(alloc, design, horizon)?))
    }

    /// Returns the tick up to which a run's dump is written now, given up to which it is written already, the ticks
    /// known of every net, and how many changes the run has sent. By rounds, all that is known is written after each
    /// of them.
    pub(crate) fn write_to(&mut self, written: u64, known: u64, sent: u64) -> u64
        requires { written ≤ known }
        ensures ahead { written ≤ result }
        ensures within { result ≤ known }
        ensures end { (circuit : Circuit) → Suits self.old circuit known → result ≡ known }
        ensures rounds { self.old ≡ Rounds → result ≡ known }
        ensures same { self.old ≡ Rounds → self.new ≡ Rounds }
        ensures suits { (circuit : Circuit) (end : ℕ) → Suits self.old circuit end → Suits self.new circuit end }
    {
        match self {
            Pace::Rounds => known,
            Pace::Sweeps(sweeps) => sweeps.write_to(written, known, sent),
        }
    }

    /// Advances a run, given the number of ticks known of every net.
    pub(crate) fn go_on(
        &mut self,
        kernel: &mut StreamKernel<'_>,
        known: u64,
    ) -> Result<(), AllocError>
        requires running { kernel.old.failed ≡ false }
        requires known { known ≡ least_frontier kernel.old.end kernel.old.state }
        requires suits { Suits self.old kernel.old.circuit kernel.old.end }
        ensures goes { OnOk result (kernel.new ≡ record kernel.old { state = kernel.new.state }) }
        // So a run reaches its end.
        ensures raises { OnOk result (RaisesLeast kernel.old kernel.new) }
        ensures rises { OnOk result (LeastRises kernel.old kernel.new) }
        ensures floors { OnOk result
            ((net : ℕ) → floor_at kernel.new.state net ≡ floor_at kernel.old.state net) }
        ensures rounds { self.old ≡ Rounds → OnOk result (kernel.new.state ≡ round_of kernel.old.state) }
        ensures same { self.old ≡ Rounds → self.new ≡ Rounds }
        ensures suits { OnOk result (Suits self.new kernel.new.circuit kernel.new.end) }
        ensures sound { OnOk result (IsSound kernel.new.circuit kernel.new.end kernel.new.state) }
    {
        match self {
            Pace::Rounds => round(kernel)?,
            Pace::Sweeps(sweeps) => sweeps.sweep(kernel, known)?,
        }
        Ok(())
    }
}
