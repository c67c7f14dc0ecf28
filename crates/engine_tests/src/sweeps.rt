//! The kernel by sweeps, over both fabrics: what is counted, and that each net shows what the plain
//! engine says.
ghost use Rattle.std.specs.Prelude.{◌≡◌, OnOk};

use crate::circuits::{
    CLOCKED, CROSSING, Circuit, EARLY_AND, GATED_OSCILLATOR, INVERTER, LATE_PIN, PRESET_RING,
    PULSE, RING_COUNTER, S27, SAMPLER, SELF_INVERTER, TWO_CLOCKS, WIRED_FLOP, WIRED_INVERTER,
    WIRED_OSCILLATOR, WIRED_XOR, are_nets,
};
use cmb_channels::{Fabric, Logs, Queues};
use cmb_kernel::{Counts, Kernel};
use design::{Design, flow_order, plain_waves};
use std::alloc::{AllocError, Global};
use std::process::Abort;
use std::test::Fail;
use timing_text::Horizon;

// Sweeps to some ticks, and what is counted after them.
#[derive(Clone, Copy)]
struct Sweeps {
    circuit: Circuit,
    horizon: u64,
    order: &'static [u32],
    ticks: &'static [u64],
    events: u64,
    changes: u64,
    nulls: u64,
}

// Sweeps to these ticks, one after another.
fn sweep<F: Fabric>(
    rt: &impl Abort,
    design: &Design,
    kernel: &mut Kernel<F>,
    order: &[u32],
    ticks: &[u64],
) -> Result<(), Fail>
    requires { kernel.old.circuit ≡ design.now.circuit }
    ensures { OnOk result (kernel.new.circuit ≡ kernel.old.circuit) }
{
    assert!(rt; are_nets(design, order));
    for tick in ticks {
        kernel.sweep(order, *tick)?;
    }
    Ok(())
}

// Each net shows what the plain engine says, to the end.
fn shows_all<F: Fabric>(
    rt: &impl Abort,
    alloc: Global,
    design: &Design,
    horizon: Horizon,
    kernel: &Kernel<F>,
) -> Result<(), Fail>
    requires { kernel.now.circuit ≡ design.now.circuit }
{
    assert!(rt; !kernel.is_failed());
    assert!(rt; kernel.is_complete());
    let waves = plain_waves(alloc, design, horizon)?;
    for net in 0..design.nets() {
        let wanted = waves.get(net as usize).expect(rt, "a waveform of this net");
        assert!(rt; kernel.waveform(net) == wanted);
    }
    Ok(())
}

// What a new kernel has counted after these sweeps.
fn swept<F: Fabric>(
    rt: &impl Abort,
    alloc: Global,
    design: &Design,
    horizon: u64,
    order: &[u32],
    ticks: &[u64],
) -> Result<Counts, Fail> {
    let horizon = Horizon::new(horizon)?;
    let mut kernel: Kernel<F> = Kernel::new(alloc, design, horizon)?;
    sweep_to_end(rt, alloc, design, horizon, &mut kernel, order, ticks)
}

fn sweep_to_end<F: Fabric>(
    rt: &impl Abort,
    alloc: Global,
    design: &Design,
    horizon: Horizon,
    kernel: &mut Kernel<F>,
    order: &[u32],
    ticks: &[u64],
) -> Result<Counts, Fail>
    requires { kernel.old.circuit ≡ design.now.circuit }
{
    sweep(rt, design, kernel, order, ticks)?;
    shows_all(rt, alloc, design, horizon, kernel)?;
    assert!(rt; !kernel.is_failed());
    Ok(kernel.counts())
}

fn run<F: Fabric>(
    rt: &impl Abort,
    alloc: Global,
    design: &Design,
    sweeps: Sweeps,
) -> Result<(), Fail> {
    let counts = swept::<F>(
        rt,
        alloc,
        design,
        sweeps.horizon,
        sweeps.order,
        sweeps.ticks,
    )?;
    let wanted = Counts {
        events: sweeps.events,
        changes: sweeps.changes,
        nulls: sweeps.nulls,
        rounds: 0,
    };
    assert!(rt; counts == wanted);
    Ok(())
}

fn run_both(rt: &impl Abort, alloc: Global, sweeps: Sweeps) -> Result<(), Fail> {
    let design = sweeps.circuit.build(alloc)?;
    run::<Queues>(rt, alloc, &design, sweeps)?;
    run::<Logs>(rt, alloc, &design, sweeps)
}

#[test]
fn by_sweeps(rt: HostRuntime) -> Result<(), Fail> {
    let inverter = Sweeps {
        circuit: INVERTER,
        horizon: 5,
        order: &[0, 1],
        ticks: &[6],
        events: 5,
        changes: 4,
        nulls: 2,
    };
    for sweeps in [
        inverter,
        // The first sweep takes two of the three messages.
        Sweeps {
            ticks: &[2, 6],
            events: 7,
            ..inverter
        },
        // Each gate goes before those that feed it.
        Sweeps {
            circuit: LATE_PIN,
            horizon: 8,
            order: &[2, 1, 0],
            ticks: &[9, 9, 9],
            events: 19,
            changes: 7,
            nulls: 6,
        },
        Sweeps {
            circuit: GATED_OSCILLATOR,
            horizon: 12,
            order: &[0, 1],
            ticks: &[13, 13, 13, 13],
            events: 17,
            changes: 6,
            nulls: 5,
        },
    ] {
        run_both(&rt, rt.alloc(), sweeps)?;
    }
    Ok(())
}

// The ticks at which windows of this number of ticks end, one more of them than the horizon has ticks.
fn ends_of_windows(alloc: Global, horizon: u64, width: u64) -> Result<Vec<u64>, AllocError> {
    let mut ticks = Vec::new(alloc);
    for window in 0..horizon.saturating_add(1) {
        let next = window.saturating_add(1);
        ticks.push(next.saturating_mul(width))?;
    }
    Ok(ticks)
}

// Sweeps in the order of flow, over windows of this number of ticks.
fn run_over_windows(
    rt: &impl Abort,
    alloc: Global,
    design: &Design,
    horizon: u64,
    width: u64,
) -> Result<(), Fail> {
    let order = flow_order(alloc, design)?;
    let ticks = ends_of_windows(alloc, horizon, width)?;
    swept::<Logs>(rt, alloc, design, horizon, &order, &ticks)?;
    Ok(())
}

fn circuit_over_windows(
    rt: &impl Abort,
    alloc: Global,
    circuit: Circuit,
    horizon: u64,
    width: u64,
) -> Result<(), Fail> {
    let design = circuit.build(alloc)?;
    run_over_windows(rt, alloc, &design, horizon, width)
}

static CIRCUITS: [Circuit; 17] = [
    INVERTER,
    SELF_INVERTER,
    GATED_OSCILLATOR,
    EARLY_AND,
    LATE_PIN,
    SAMPLER,
    RING_COUNTER,
    CLOCKED,
    PRESET_RING,
    TWO_CLOCKS,
    CROSSING,
    WIRED_XOR,
    WIRED_FLOP,
    WIRED_INVERTER,
    PULSE,
    WIRED_OSCILLATOR,
    S27,
];

#[test]
fn over_windows(rt: HostRuntime) -> Result<(), Fail> {
    for circuit in &CIRCUITS {
        for horizon in [0, 40] {
            for width in [1, 7, 41] {
                circuit_over_windows(&rt, rt.alloc(), *circuit, horizon, width)?;
            }
        }
    }
    Ok(())
}
