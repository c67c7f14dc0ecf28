//! Lists of ten million events, over both fabrics, and the names of the kernel's faults. What else the kernel does on
//! worked circuits is in `caller_tests`.
use crate::circuits::INVERTER;
use Event::Advance;
use cmb_channels::{Fabric, Logs, Queues};
use cmb_events::Event;
use cmb_kernel::{Counts, Kernel, KernelFault};
use design::Design;
use std::alloc::{AllocError, Global};
use std::process::Abort;
use std::test::Fail;
use timing_text::Horizon;

// The list is refused with this fault, which isn't `Memory`.
fn refuses<F: Fabric>(
    rt: &impl Abort,
    kernel: &mut Kernel<F>,
    events: &[Event],
    fault: KernelFault,
) {
    let answer = kernel
        .apply_all(events)
        .expect_err(rt, "events are refused");
    assert!(rt; answer != KernelFault::Memory && answer == fault);
}

// Ten million events are checked to the last one, which names a net that doesn't exist; a list with one more
// is refused unchecked.
fn refuses_many<F: Fabric>(
    rt: &impl Abort,
    alloc: Global,
    kernel: &mut Kernel<F>,
) -> Result<(), AllocError> {
    let mut events = vec![in alloc; Advance(0); 9_999_999]?;
    events.push(Advance(2))?;
    let at_the_end = KernelFault::NoSuchNet { at: 9_999_999 };
    refuses(rt, kernel, &events, at_the_end);
    events.push(Advance(0))?;
    refuses(rt, kernel, &events, KernelFault::TooManyEvents);
    Ok(())
}

// Nothing is counted of lists that are refused.
fn limit_of_events<F: Fabric>(rt: &impl Abort, alloc: Global, design: &Design) -> Result<(), Fail> {
    let mut kernel: Kernel<F> = Kernel::new(alloc, design, Horizon::new(5)?)?;
    refuses_many(rt, alloc, &mut kernel)?;
    assert!(rt; !kernel.is_failed());
    let none = Counts {
        events: 0,
        changes: 0,
        nulls: 0,
        rounds: 0,
    };
    assert!(rt; kernel.counts() == none);
    Ok(())
}

#[test]
fn limits_of_events(rt: HostRuntime) -> Result<(), Fail> {
    let design = INVERTER.build(rt.alloc())?;
    limit_of_events::<Queues>(&rt, rt.alloc(), &design)?;
    limit_of_events::<Logs>(&rt, rt.alloc(), &design)
}

#[test]
fn fault_texts(rt: HostRuntime) -> Result<(), Fail> {
    for (fault, text) in [
        (KernelFault::NoSuchPin { at: 7 }, "NoSuchPin"),
        (KernelFault::NoSuchNet { at: 7 }, "NoSuchNet"),
        (KernelFault::TooManyEvents, "TooManyEvents"),
        (KernelFault::Memory, "Memory"),
        (KernelFault::Failed, "Failed"),
    ] {
        let shown = format!(in rt.alloc(); "{fault}")?;
        assert!(rt; shown.as_str() == text);
    }
    Ok(())
}
