//! Events, one by one and in lists: which are useful, which are refused, and the state after them.
ghost use Rattle.std.specs.Prelude.{◌≡◌, OnOk};

use crate::circuits::{INVERTER, LATE_PIN, SELF_INVERTER};
use crate::kernels::{counts_are, pins_have};
use Event::{Advance, Deliver};
use cmb_channels::{Fabric, Logs, Queues};
use cmb_kernel::{Event, Kernel, KernelFault};
use design::{Design, Horizon};
use std::alloc::Global;
use std::process::Abort;
use std::test::Fail;

// There are exactly these events.
fn number(event: Event) -> u32 {
    match event {
        Event::Deliver(pin) => pin,
        Event::Advance(net) => net,
    }
}

// There are exactly these faults: the place in a list of the event that is refused.
fn place(fault: KernelFault) -> Option<u64> {
    match fault {
        KernelFault::NoSuchPin { at } | KernelFault::NoSuchNet { at } => Some(at),
        KernelFault::TooManyEvents | KernelFault::Memory | KernelFault::Failed => None,
    }
}

#[test]
fn variants(rt: HostRuntime) {
    assert!(rt; number(Deliver(3)) == 3 && number(Advance(4)) == 4);
    assert!(rt; place(KernelFault::NoSuchPin { at: 7 }) == Some(7));
    assert!(rt; place(KernelFault::Failed).is_none());
}

// An event is useful, or not; the list is refused.
fn applies<F: Fabric>(
    rt: &impl Abort,
    kernel: &mut Kernel<F>,
    event: Event,
    wanted: bool,
) -> Result<(), Fail>
    ensures { OnOk result (kernel.new.circuit ≡ kernel.old.circuit) }
{
    let useful: Result<bool, KernelFault> = kernel.apply(event);
    assert!(rt; useful? == wanted);
    Ok(())
}

fn refuses<F: Fabric>(
    rt: &impl Abort,
    kernel: &mut Kernel<F>,
    events: &[Event],
    wanted: KernelFault,
)
    ensures { kernel.new.circuit ≡ kernel.old.circuit }
{
    let answer: Result<(), KernelFault> = kernel.apply_all(events);
    let fault: KernelFault = answer.expect_err(rt, "the events are refused");
    assert!(rt; fault != KernelFault::Memory);
    assert!(rt; fault == wanted);
}

fn refuses_one<F: Fabric>(
    rt: &impl Abort,
    kernel: &mut Kernel<F>,
    event: Event,
    wanted: KernelFault,
)
    ensures { kernel.new.circuit ≡ kernel.old.circuit }
{
    let fault: KernelFault = kernel.apply(event).expect_err(rt, "the event is refused");
    assert!(rt; fault != KernelFault::Memory);
    assert!(rt; fault == wanted);
}

// The results of events for a new kernel of the inverter.
fn first_events<F: Fabric>(rt: &impl Abort, alloc: Global, design: &Design) -> Result<(), Fail> {
    let mut kernel: Kernel<F> = Kernel::new(alloc, design, Horizon::new(5)?)?;
    applies(rt, &mut kernel, Deliver(0), false)?;
    applies(rt, &mut kernel, Advance(1), true)?;
    applies(rt, &mut kernel, Advance(1), false)?;
    counts_are(rt, &kernel, [3, 0, 1, 0]);
    let no_pin = KernelFault::NoSuchPin { at: 0 };
    refuses_one(rt, &mut kernel, Deliver(1), no_pin);
    let no_net = KernelFault::NoSuchNet { at: 1 };
    refuses(rt, &mut kernel, &[Advance(0), Advance(2)], no_net);
    counts_are(rt, &kernel, [3, 0, 1, 0]);
    knows_nothing_of_the_input(rt, &kernel);
    Ok(())
}

fn knows_nothing_of_the_input<F: Fabric>(rt: &impl Abort, kernel: &Kernel<F>) {
    assert!(rt; !kernel.is_failed());
    assert!(rt; 0 < kernel.nets());
    let frontier: u64 = kernel.frontier(0);
    assert!(rt; frontier == 0);
}

#[test]
fn fresh_kernel(rt: HostRuntime) -> Result<(), Fail> {
    let design: Design = INVERTER.build(rt.alloc())?;
    first_events::<Queues>(&rt, rt.alloc(), &design)?;
    first_events::<Logs>(&rt, rt.alloc(), &design)
}

// Applies the event that the kernel names; if it names none, nothing is left to do.
fn drive<F: Fabric>(rt: &impl Abort, alloc: Global, design: &Design) -> Result<(), Fail> {
    let mut kernel: Kernel<F> = Kernel::new(alloc, design, Horizon::new(3)?)?;
    for _event in 0..7 {
        assert!(rt; !kernel.is_failed());
        let useful: Option<Event> = kernel.useful();
        let event: Event = useful.expect(rt, "a useful event");
        assert!(rt; kernel.apply(event)?);
    }
    counts_are(rt, &kernel, [7, 0, 4, 0]);
    assert!(rt; !kernel.is_failed());
    assert!(rt; kernel.useful().is_none());
    assert!(rt; kernel.is_complete());
    Ok(())
}

#[test]
fn driven_by_useful(rt: HostRuntime) -> Result<(), Fail> {
    let design: Design = SELF_INVERTER.build(rt.alloc())?;
    drive::<Queues>(&rt, rt.alloc(), &design)?;
    drive::<Logs>(&rt, rt.alloc(), &design)
}

fn apply_all<F: Fabric>(kernel: &mut Kernel<F>, events: &[Event]) -> Result<(), Fail>
    ensures { OnOk result (kernel.new.circuit ≡ kernel.old.circuit) }
{
    let answer: Result<(), KernelFault> = kernel.apply_all(events);
    Ok(answer?)
}

fn round<F: Fabric>(kernel: &mut Kernel<F>) -> Result<(), Fail>
    ensures { OnOk result (kernel.new.circuit ≡ kernel.old.circuit) }
{
    let answer: Result<(), KernelFault> = kernel.round();
    Ok(answer?)
}

// What the pins have after a list of events, and after a round.
fn wait_and_receive<F: Fabric>(
    rt: &impl Abort,
    alloc: Global,
    design: &Design,
) -> Result<(), Fail> {
    let mut kernel: Kernel<F> = Kernel::new(alloc, design, Horizon::new(8)?)?;
    apply_all(&mut kernel, &[Advance(0), Deliver(0), Advance(1)])?;
    pins_have(rt, design, &kernel, &[(2, 1), (3, 0), (1, 0)]);
    counts_are(rt, &kernel, [3, 3, 1, 0]);
    round(&mut kernel)?;
    // `b` advances by a change and a null message.
    pins_have(rt, design, &kernel, &[(0, 9), (0, 9), (2, 2)]);
    Ok(())
}

#[test]
fn lists_and_rounds(rt: HostRuntime) -> Result<(), Fail> {
    let design: Design = LATE_PIN.build(rt.alloc())?;
    wait_and_receive::<Queues>(&rt, rt.alloc(), &design)?;
    wait_and_receive::<Logs>(&rt, rt.alloc(), &design)
}
