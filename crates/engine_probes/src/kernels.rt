//! The kernel, over both fabrics: if it runs out of memory, it has failed, and says so.
ghost use Rattle.std.specs.Prelude.{◌≡◌, ◌<◌, length, IfSome, Ok};

use crate::circuit_texts::{design, horizon};
use crate::telling::Teller;
use Event::{Advance, Deliver};
use cmb_channels::{Fabric, Logs, Queues};
use cmb_events::Event;
use cmb_kernel::{Kernel, KernelFault};
use design::{Design, flow_order};
use logic3::Change;
use std::alloc::Global;
use std::io::Write;

/// Probes kernels of one design over both fabrics.
pub(crate) fn probe<W: Write>(alloc: Global, teller: &mut Teller<W>) -> Option<()> {
    let design = design(alloc, teller)?;
    over::<Queues, W>(alloc, teller, &design)?;
    over::<Logs, W>(alloc, teller, &design)
}

fn over<F: Fabric, W: Write>(alloc: Global, teller: &mut Teller<W>, design: &Design) -> Option<()> {
    by_events::<F, W>(alloc, teller, design)?;
    by_lists::<F, W>(alloc, teller, design)?;
    by_rounds::<F, W>(alloc, teller, design)?;
    by_sweeps::<F, W>(alloc, teller, design)?;
    drained::<F, W>(alloc, teller, design)?;
    drained_into::<F, W>(alloc, teller, design)
}

/// A kernel before any event.
fn fresh<'d, F: Fabric, W: Write>(
    alloc: Global,
    teller: &mut Teller<W>,
    design: &'d Design,
) -> Option<Kernel<'d, F>>
    ensures { IfSome result (λ kernel. kernel.circuit ≡ design.now.circuit) }
{
    teller.told("Kernel::new", Kernel::new(alloc, design, horizon()?))
}

/// Reports a call that ran out of memory, or returned what it must not. A call that succeeded isn't reported
/// yet.
fn ended<F: Fabric, W: Write>(
    alloc: Global,
    teller: &mut Teller<W>,
    call: &str,
    kernel: &mut Kernel<F>,
    answer: Result<(), KernelFault>,
) -> Option<()>
    ensures same { answer ≡ Ok tt → kernel.new ≡ kernel.old }
    ensures carried_out { IfSome result (λ _. answer ≡ Ok tt) }
{
    match answer {
        Ok(()) => Some(()),
        Err(KernelFault::Memory) => {
            teller.refused(call, has_failed(alloc, kernel));
            None
        }
        Err(_) => {
            let _ = teller.fine(call, false);
            None
        }
    }
}

/// Whether the kernel says that it has failed, and refuses every call with that, whatever is wrong with the
/// call.
fn has_failed<F: Fabric>(alloc: Global, kernel: &mut Kernel<F>) -> bool {
    let Ok(many) = vec![in alloc; Advance(0); 10_000_001] else {
        return false;
    };
    let failed = Err(KernelFault::Failed);
    kernel.is_failed()
        && kernel.apply(Advance(0)) == Err(KernelFault::Failed)
        && kernel.apply(Deliver(99)) == Err(KernelFault::Failed)
        && kernel.apply_all(&[]) == failed
        && kernel.apply_all(&[Advance(99)]) == failed
        && kernel.apply_all(&many) == failed
        && kernel.round() == failed
        && kernel.sweep(&[], 5) == failed
        && kernel.complete() == failed
        && kernel.is_failed()
}

/// Applies useful events, until none is useful.
fn by_events<F: Fabric, W: Write>(
    alloc: Global,
    teller: &mut Teller<W>,
    design: &Design,
) -> Option<()> {
    let mut kernel: Kernel<F> = fresh(alloc, teller, design)?;
    for _event in 0..500 {
        if kernel.is_failed() {
            return teller.fine("Kernel::apply", false);
        }
        let Some(event) = kernel.useful() else {
            break;
        };
        let answer = kernel.apply(event).map(|_useful| ());
        ended(alloc, teller, "Kernel::apply", &mut kernel, answer)?;
    }
    let done = !kernel.is_failed() && kernel.is_complete();
    teller.fine("Kernel::apply", done)
}

/// A list of events, over and over.
fn by_lists<F: Fabric, W: Write>(
    alloc: Global,
    teller: &mut Teller<W>,
    design: &Design,
) -> Option<()> {
    let mut kernel: Kernel<F> = fresh(alloc, teller, design)?;
    let events = [
        Advance(0),
        Deliver(0),
        Deliver(1),
        Advance(1),
        Deliver(0),
        Deliver(1),
        Advance(1),
        Deliver(2),
        Advance(2),
        Deliver(3),
        Deliver(4),
        Deliver(11),
        Advance(3),
    ];
    for _list in 0..5 {
        let answer = kernel.apply_all(&events);
        ended(alloc, teller, "Kernel::apply_all", &mut kernel, answer)?;
    }
    teller.fine("Kernel::apply_all", !kernel.is_failed())
}

/// Some rounds, and then all that are left.
fn by_rounds<F: Fabric, W: Write>(
    alloc: Global,
    teller: &mut Teller<W>,
    design: &Design,
) -> Option<()> {
    let mut kernel: Kernel<F> = fresh(alloc, teller, design)?;
    for _round in 0..4 {
        let answer = kernel.round();
        ended(alloc, teller, "Kernel::round", &mut kernel, answer)?;
    }
    teller.fine("Kernel::round", !kernel.is_failed())?;
    let answer = kernel.complete();
    ended(alloc, teller, "Kernel::complete", &mut kernel, answer)?;
    let done = !kernel.is_failed() && kernel.is_complete();
    teller.fine("Kernel::complete", done)
}

/// Sweeps over all nets, each to a later tick.
fn by_sweeps<F: Fabric, W: Write>(
    alloc: Global,
    teller: &mut Teller<W>,
    design: &Design,
) -> Option<()> {
    let order = teller.told("flow_order", flow_order(alloc, design))?;
    let mut kernel: Kernel<F> = fresh(alloc, teller, design)?;
    for tick in [5, 10, 20, 30, 41, 41, 41, 41] {
        let answer = kernel.sweep(order.as_slice(), tick);
        ended(alloc, teller, "Kernel::sweep", &mut kernel, answer)?;
    }
    teller.fine("Kernel::sweep", !kernel.is_failed())
}

/// The changes of every net of a complete run, taken out net by net.
fn drained<F: Fabric, W: Write>(
    alloc: Global,
    teller: &mut Teller<W>,
    design: &Design,
) -> Option<()> {
    let mut kernel: Kernel<F> = fresh(alloc, teller, design)?;
    let answer = kernel.complete();
    ended(alloc, teller, "Kernel::complete", &mut kernel, answer)?;
    for net in 0..design.nets() {
        drain(teller, &mut kernel, net)?;
    }
    teller.fine("Kernel::drain_below", !kernel.is_failed())
}

/// Takes out all changes of a net that the kernel can. If an allocation fails, nothing changed, and the same
/// call gives the same changes.
fn drain<F: Fabric, W: Write>(
    teller: &mut Teller<W>,
    kernel: &mut Kernel<F>,
    net: u32,
) -> Option<()>
    requires { net < length kernel.old.circuit }
    ensures { kernel.new.circuit ≡ kernel.old.circuit }
{
    if kernel.is_failed() {
        return teller.fine("Kernel::drain_below", false);
    }
    let bound = kernel.least_frontier();
    let floor = kernel.floor(net);
    if bound < floor {
        return teller.fine("Kernel::drain_below", false);
    }
    let wave = teller.told("Waveform::copy", kernel.waveform(net).copy())?;
    if let Ok(changes) = kernel.drain_below(net, bound) {
        return teller.fine("Kernel::drain_below", changes.as_slice() == wave.changes());
    }
    let same = !kernel.is_failed() && kernel.floor(net) == floor && *kernel.waveform(net) == wave;
    let again = same
        && kernel
            .drain_below(net, bound)
            .is_ok_and(|changes| changes.as_slice() == wave.changes());
    teller.refused("Kernel::drain_below", again);
    None
}

/// The changes of every net of a complete run, taken out onto one list.
fn drained_into<F: Fabric, W: Write>(
    alloc: Global,
    teller: &mut Teller<W>,
    design: &Design,
) -> Option<()> {
    let mut kernel: Kernel<F> = fresh(alloc, teller, design)?;
    let answer = kernel.complete();
    ended(alloc, teller, "Kernel::complete", &mut kernel, answer)?;
    let mut changes = Vec::new(alloc);
    for net in 0..design.nets() {
        drain_into(teller, &mut kernel, net, &mut changes)?;
    }
    teller.fine("Kernel::drain_below_into", !kernel.is_failed())
}

/// As `drain`, onto a list.
fn drain_into<F: Fabric, W: Write>(
    teller: &mut Teller<W>,
    kernel: &mut Kernel<F>,
    net: u32,
    changes: &mut Vec<Change>,
) -> Option<()>
    requires { net < length kernel.old.circuit }
    ensures { kernel.new.circuit ≡ kernel.old.circuit }
{
    if kernel.is_failed() {
        return teller.fine("Kernel::drain_below_into", false);
    }
    let bound = kernel.least_frontier();
    let floor = kernel.floor(net);
    if bound < floor {
        return teller.fine("Kernel::drain_below_into", false);
    }
    let wave = teller.told("Waveform::copy", kernel.waveform(net).copy())?;
    let before = changes.len();
    if kernel.drain_below_into(net, bound, changes).is_ok() {
        return teller.fine(
            "Kernel::drain_below_into",
            changes.ends_with(wave.changes()),
        );
    }
    let same = !kernel.is_failed()
        && kernel.floor(net) == floor
        && changes.len() == before
        && *kernel.waveform(net) == wave;
    let again = same
        && kernel.drain_below_into(net, bound, changes).is_ok()
        && changes.ends_with(wave.changes())
        && changes.len() == before + wave.changes().len();
    teller.refused("Kernel::drain_below_into", again);
    None
}
