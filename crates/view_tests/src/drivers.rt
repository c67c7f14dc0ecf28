//! Drivers give the waveforms of the plain engine, over both fabrics.
ghost use Rattle.std.specs.Prelude.{◌≡◌, OnOk};

use crate::circuits::{CIRCUITS, Circuit, SELF_INVERTER};
use cmb_channels::{Fabric, Logs, Queues};
use cmb_kernel::Kernel;
use design::{Design, plain_waves};
use kernel_uses::{drive, drive_by_draws, drive_by_work_list};
use std::alloc::Global;
use std::process::Abort;
use std::test::Fail;
use timing_text::Horizon;

// How a kernel is driven.
#[derive(Clone, Copy)]
enum Driver {
    ByUseful,
    ByDraws(u64),
    ByWorkList,
}

static DRIVERS: [Driver; 6] = [
    Driver::ByUseful,
    Driver::ByWorkList,
    Driver::ByDraws(0),
    Driver::ByDraws(1),
    Driver::ByDraws(7),
    Driver::ByDraws(1_000_000_007),
];

// Each net shows what the plain engine says, to the end.
fn shows_all<F: Fabric>(
    rt: &impl Abort,
    alloc: Global,
    design: &Design,
    horizon: Horizon,
    kernel: &Kernel<F>,
) -> Result<(), Fail>
    requires { kernel.now.circuit ≡ design.now.circuit }
{
    assert!(rt; !kernel.is_failed());
    assert!(rt; kernel.is_complete());
    let waves = plain_waves(alloc, design, horizon)?;
    for net in 0..design.nets() {
        let wanted = waves.get(net as usize).expect(rt, "a waveform of this net");
        assert!(rt; kernel.waveform(net) == wanted);
    }
    Ok(())
}

fn drive_by<F: Fabric>(alloc: Global, kernel: &mut Kernel<F>, driver: Driver) -> Result<(), Fail>
    ensures { OnOk result (kernel.new.circuit ≡ kernel.old.circuit) }
{
    match driver {
        Driver::ByUseful => {
            drive(kernel)?;
        }
        Driver::ByDraws(seed) => drive_by_draws(kernel, seed)?,
        Driver::ByWorkList => drive_by_work_list(alloc, kernel)?,
    }
    Ok(())
}

fn drives_over<F: Fabric>(
    rt: &impl Abort,
    alloc: Global,
    circuit: &Circuit,
    driver: Driver,
) -> Result<(), Fail> {
    let design = circuit.build(alloc)?;
    let horizon = Horizon::new(circuit.horizon)?;
    let mut kernel: Kernel<F> = Kernel::new(alloc, &design, horizon)?;
    drive_by(alloc, &mut kernel, driver)?;
    shows_all(rt, alloc, &design, horizon, &kernel)
}

#[test]
fn waveforms(rt: HostRuntime) -> Result<(), Fail> {
    for circuit in &CIRCUITS {
        for driver in &DRIVERS {
            drives_over::<Queues>(&rt, rt.alloc(), circuit, *driver)?;
            drives_over::<Logs>(&rt, rt.alloc(), circuit, *driver)?;
        }
    }
    Ok(())
}

// Seven events are useful: the gate at its own pin advances by a tick four times, and receives that three
// times.
#[test]
fn counted(rt: HostRuntime) -> Result<(), Fail> {
    let design = SELF_INVERTER.build(rt.alloc())?;
    let horizon = Horizon::new(SELF_INVERTER.horizon)?;
    let mut kernel: Kernel<Queues> = Kernel::new(rt.alloc(), &design, horizon)?;
    assert!(rt; drive(&mut kernel)? == 7);
    assert!(rt; drive(&mut kernel)? == 0);
    Ok(())
}
