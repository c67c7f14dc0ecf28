//! Nets drained between rounds: what is taken out, and what stays.
ghost use Rattle.std.specs.Prelude.{◌≡◌, OnOk};

use crate::circuits::{INVERTER, RING_COUNTER};
use Value::{One, Unknown, Zero};
use cmb_channels::{Fabric, Logs, Queues};
use cmb_kernel::{Kernel, KernelFault};
use design::{Design, Horizon};
use logic3::{Change, Value, Waveform};
use std::alloc::Global;
use std::process::Abort;
use std::test::Fail;

fn round<F: Fabric>(rt: &impl Abort, kernel: &mut Kernel<F>, least: u64) -> Result<(), Fail>
    ensures { OnOk result (kernel.new.circuit ≡ kernel.old.circuit) }
{
    let answer: Result<(), KernelFault> = kernel.round();
    answer?;
    assert!(rt; !kernel.is_failed());
    assert!(rt; kernel.least_frontier() == least);
    Ok(())
}

// Takes out these changes of a net below a tick.
fn drain<F: Fabric>(
    rt: &impl Abort,
    design: &Design,
    kernel: &mut Kernel<F>,
    net: u32,
    bound: u64,
    wanted: &[Change],
) -> Result<(), Fail>
    requires { kernel.old.circuit ≡ design.now.circuit }
    ensures { OnOk result (kernel.new.circuit ≡ kernel.old.circuit) }
{
    assert!(rt; net < design.nets());
    assert!(rt; !kernel.is_failed());
    assert!(rt; kernel.floor(net) <= bound);
    assert!(rt; bound <= kernel.least_frontier());
    let answer: Result<Vec<Change>, KernelFault> = kernel.drain_below(net, bound);
    let changes: Vec<Change> = answer?;
    assert!(rt; changes.as_slice() == wanted);
    Ok(())
}

// A net is kept from this tick on, with this value before it and these changes.
fn keeps<F: Fabric>(
    rt: &impl Abort,
    design: &Design,
    kernel: &Kernel<F>,
    net: u32,
    wanted: (u64, Value, &[Change]),
)
    requires { kernel.now.circuit ≡ design.now.circuit }
{
    assert!(rt; net < design.nets());
    assert!(rt; !kernel.is_failed());
    let floor: u64 = kernel.floor(net);
    let wave: &Waveform = kernel.waveform(net);
    assert!(rt; (floor, wave.before()) == (wanted.0, wanted.1));
    assert!(rt; wave.changes() == wanted.2);
}

const LOW: Change = Change {
    tick: 0,
    value: Zero,
};

const HIGH: Change = Change {
    tick: 3,
    value: One,
};

const RISE: Change = Change {
    tick: 1,
    value: One,
};

const FALL: Change = Change {
    tick: 4,
    value: Zero,
};

fn drain_inverter<F: Fabric>(rt: &impl Abort, alloc: Global, design: &Design) -> Result<(), Fail> {
    let mut kernel: Kernel<F> = Kernel::new(alloc, design, Horizon::new(5)?)?;
    round(rt, &mut kernel, 1)?;
    drain(rt, design, &mut kernel, 0, 1, &[LOW])?;
    drain(rt, design, &mut kernel, 1, 1, &[])?;
    keeps(rt, design, &kernel, 1, (1, Unknown, &[]));
    drain_rest(rt, design, &mut kernel)
}

fn drain_rest<F: Fabric>(
    rt: &impl Abort,
    design: &Design,
    kernel: &mut Kernel<F>,
) -> Result<(), Fail>
    requires { kernel.old.circuit ≡ design.now.circuit }
{
    round(rt, kernel, 6)?;
    drain(rt, design, kernel, 0, 6, &[HIGH])?;
    keeps(rt, design, kernel, 0, (6, One, &[]));
    drain(rt, design, kernel, 1, 6, &[RISE, FALL])?;
    keeps(rt, design, kernel, 1, (6, Zero, &[]));
    Ok(())
}

#[test]
fn drained_inverter(rt: HostRuntime) -> Result<(), Fail> {
    let design: Design = INVERTER.build(rt.alloc())?;
    drain_inverter::<Queues>(&rt, rt.alloc(), &design)?;
    drain_inverter::<Logs>(&rt, rt.alloc(), &design)
}

#[test]
fn least_frontiers_of_the_ring(rt: HostRuntime) -> Result<(), Fail> {
    let design: Design = RING_COUNTER.build(rt.alloc())?;
    let mut kernel: Kernel<Logs> = Kernel::new(rt.alloc(), &design, Horizon::new(10)?)?;
    for least in [1, 4, 5, 7, 8, 10, 11] {
        round(&rt, &mut kernel, least)?;
    }
    Ok(())
}
