//! The kernel over both fabrics, by rounds to the end: what it counts, and that each net shows what the plain engine
//! gives.
ghost use Rattle.std.specs.Prelude.{◌≡◌, OnOk};

use crate::circuits::{
    CLOCKED, Circuit, EARLY_AND, GATED_OSCILLATOR, INVERTER, LATE_PIN, PRESET_RING, RING_COUNTER,
    SAMPLER, SELF_INVERTER, SLOW_INVERTER, WIRED_FLOP, WIRED_INVERTER, WIRED_XOR,
};
use cmb_channels::{Fabric, Logs, Queues};
use cmb_kernel::{Counts, Kernel, KernelFault};
use design::{Design, Horizon, plain_waves};
use logic3::Waveform;
use std::alloc::Global;
use std::process::Abort;
use std::test::Fail;

/// The kernel has counted these events, changes, null messages and rounds.
pub(crate) fn counts_are<F: Fabric>(rt: &impl Abort, kernel: &Kernel<F>, wanted: [u64; 4]) {
    assert!(rt; !kernel.is_failed());
    let counts: Counts = kernel.counts();
    let Counts {
        events,
        changes,
        nulls,
        rounds,
    } = counts;
    assert!(rt; [events, changes, nulls, rounds] == wanted);
}

/// Each pin has this number of messages waiting, and has received this number of ticks.
pub(crate) fn pins_have<F: Fabric>(
    rt: &impl Abort,
    design: &Design,
    kernel: &Kernel<F>,
    wanted: &[(u64, u64)],
)
    requires { kernel.now.circuit ≡ design.now.circuit }
{
    assert!(rt; !kernel.is_failed());
    assert!(rt; design.pins() as usize == wanted.len());
    for pin in 0..design.pins() {
        let waiting: u64 = kernel.waiting(pin);
        let received: u64 = kernel.received(pin);
        assert!(rt; wanted.get(pin as usize) == Some(&(waiting, received)));
    }
}

// Each net is known to this tick, and shows this.
fn nets_show<F: Fabric>(
    rt: &impl Abort,
    design: &Design,
    kernel: &Kernel<F>,
    end: u64,
    waves: &[Waveform],
)
    requires { kernel.now.circuit ≡ design.now.circuit }
{
    assert!(rt; !kernel.is_failed());
    let least: u64 = kernel.least_frontier();
    assert!(rt; least == end);
    for net in 0..design.nets() {
        let frontier: u64 = kernel.frontier(net);
        let wave: &Waveform = kernel.waveform(net);
        let floor: u64 = kernel.floor(net);
        assert!(rt; (frontier, floor) == (end, 0));
        assert!(rt; waves.get(net as usize) == Some(wave));
    }
}

fn complete<F: Fabric>(
    rt: &impl Abort,
    kernel: &mut Kernel<F>,
    counted: [u64; 4],
) -> Result<(), Fail>
    ensures { OnOk result (kernel.new.circuit ≡ kernel.old.circuit) }
{
    let answer: Result<(), KernelFault> = kernel.complete();
    answer?;
    counts_are(rt, kernel, counted);
    let is_complete: bool = kernel.is_complete();
    assert!(rt; is_complete);
    Ok(())
}

// The kernel completes, and then does nothing more.
fn completes<F: Fabric>(
    rt: &impl Abort,
    alloc: Global,
    design: &Design,
    horizon: Horizon,
    counted: [u64; 4],
) -> Result<(), Fail> {
    let made: Result<Kernel<F>, KernelFault> = Kernel::new(alloc, design, horizon);
    let mut kernel: Kernel<F> = made?;
    complete(rt, &mut kernel, counted)?;
    complete(rt, &mut kernel, counted)?;
    let waves: Vec<Waveform> = plain_waves(alloc, design, horizon)?;
    nets_show(rt, design, &kernel, horizon.ticks() + 1, &waves);
    Ok(())
}

#[test]
fn by_rounds(rt: HostRuntime) -> Result<(), Fail> {
    for (circuit, horizon, counted) in [
        (INVERTER, 5, [7, 4, 3, 2]),
        (INVERTER, 0, [2, 1, 1, 1]),
        (SELF_INVERTER, 3, [7, 0, 4, 4]),
        (GATED_OSCILLATOR, 12, [20, 6, 6, 5]),
        (LATE_PIN, 8, [19, 7, 6, 3]),
        (SAMPLER, 9, [7, 4, 2, 2]),
        (RING_COUNTER, 10, [21, 0, 8, 7]),
        (SLOW_INVERTER, 5, [2, 2, 2, 1]),
        (CLOCKED, 9, [7, 5, 3, 2]),
        (PRESET_RING, 10, [27, 7, 7, 7]),
        (WIRED_XOR, 8, [19, 5, 6, 3]),
        (WIRED_FLOP, 9, [7, 3, 2, 2]),
        (WIRED_INVERTER, 5, [2, 2, 2, 1]),
        (EARLY_AND, 5, [7, 2, 3, 2]),
    ] {
        over_both(&rt, rt.alloc(), circuit, horizon, counted)?;
    }
    Ok(())
}

fn over_both(
    rt: &impl Abort,
    alloc: Global,
    circuit: Circuit,
    horizon: u64,
    counted: [u64; 4],
) -> Result<(), Fail> {
    let design: Design = circuit.build(alloc)?;
    let horizon: Horizon = Horizon::new(horizon)?;
    completes::<Queues>(rt, alloc, &design, horizon, counted)?;
    completes::<Logs>(rt, alloc, &design, horizon, counted)
}
