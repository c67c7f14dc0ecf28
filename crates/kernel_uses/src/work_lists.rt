//! A driver that keeps a list of the nets that may have something to do.
ghost use Rattle.std.specs.Prelude.{◌≡◌, ℕ, ◌++◌, ◌<◌, if◌then◌else◌, true, false, [], All, length, map, slice_index_or, IfErr, IfOk, OnOk};
ghost use Rattle.std.specs.List.{Contains};
ghost use Rattle.design.specs.Circuit.{pin_count};
ghost use Rattle.design.specs.Pins.{net_of_pin, pins_fed, sources_of};
ghost use Rattle.kernel_uses.specs.Runs.{IsCompleted};
ghost use Rattle.kernel_uses.specs.Work.{HasHeard, HasTaken};

use cmb_channels::Fabric;
use cmb_events::Event;
use cmb_kernel::laws::{advances, deliveries, progress_left, useless_events};
use cmb_kernel::{Kernel, KernelFault};
use design::Design;
use std::alloc::{AllocError, Global};

/// Takes nets from a list, one after another, until it is empty: each takes what waits at its pins, and
/// advances, and if it then sends something, the nets that it feeds are added to the list. At first all nets
/// are on it.
///
/// So a net and its pins are looked at once at the beginning, and then only after something is sent to them.
/// A net may be on the list more than once; it then has nothing to do the second time.
///
/// # Errors
/// [`KernelFault::Failed`]; nothing changed. [`KernelFault::Memory`]; if an allocation of the kernel failed,
/// it has failed from then on, and if one of the list did, the kernel can be used further.
pub fn drive_by_work_list<F: Fabric>(
    alloc: Global,
    kernel: &mut Kernel<'_, F>,
) -> Result<(), KernelFault>
    ensures ok { OnOk result (IsCompleted kernel.old kernel.new) }
    ensures fault { IfErr result (λ fault.
        fault ≡ (if kernel.old.failed then KernelFault.Failed else KernelFault.Memory)) }
    ensures refused { kernel.old.failed ≡ true → kernel.new ≡ kernel.old }
{
    if kernel.is_failed() {
        return Err(KernelFault::Failed);
    }
    progress_left();
    useless_events();
    deliveries();
    advances();
    let mut work = all_nets(alloc, kernel.nets())?;
    while let Some(net) = work.pop() {
        hear_all(kernel, net)?;
        if kernel.apply(Event::Advance(net))? {
            add_readers(kernel.design(), net, &mut work)?;
        }
    }
    // If no net has anything to do, no event is useful.
    prove!(kernel.useful().is_none());
    Ok(())
}

/// Returns the numbers of all nets.
fn all_nets(alloc: Global, count: u32) -> Result<Vec<u32>, AllocError>
    ensures within { IfOk result (λ nets. All (λ net. net < count) nets.items) }
    ensures all { IfOk result (λ nets. (net : ℕ) → net < count → Contains nets.items net) }
{
    let mut nets = Vec::with_capacity(alloc, count as usize)?;
    for net in 0..count {
        nets.push(net)?;
    }
    Ok(nets)
}

/// Adds the net of each pin that a net feeds.
fn add_readers(design: &Design, net: u32, work: &mut Vec<u32>) -> Result<(), AllocError>
    requires { net < length design.now.circuit }
    ensures { OnOk result (work.new.items ≡ work.old.items
        ++ map (net_of_pin design.now.circuit) (pins_fed net (sources_of design.now.circuit))) }
{
    for pin in design.pins_fed(net) {
        work.push(design.pin_net(*pin))?;
    }
    Ok(())
}

/// Lets each pin of a net take all that waits there.
fn hear_all<F: Fabric>(kernel: &mut Kernel<'_, F>, net: u32) -> Result<(), KernelFault>
    requires running { kernel.old.failed ≡ false }
    requires net { net < length kernel.old.circuit }
    ensures ok { OnOk result (HasHeard net kernel.old kernel.new) }
    ensures fault { IfErr result (λ fault. fault ≡ KernelFault.Memory) }
{
    prove!(!kernel.is_failed());
    let design = kernel.design();
    prove!(net < design.nets());
    for place in 0..design.pins_of(net).len() {
        let place = place as u32;
        take_all(kernel, design.pin(net, place))?;
    }
    Ok(())
}

/// Lets a pin take all that waits there.
fn take_all<F: Fabric>(kernel: &mut Kernel<'_, F>, pin: u32) -> Result<(), KernelFault>
    requires running { kernel.old.failed ≡ false }
    requires pin { pin < pin_count kernel.old.circuit }
    ensures ok { OnOk result (HasTaken pin kernel.old kernel.new) }
    ensures taken { OnOk result (slice_index_or kernel.new.state.lists pin [] ≡ []) }
    ensures fault { IfErr result (λ fault. fault ≡ KernelFault.Memory) }
{
    prove!(!kernel.is_failed());
    progress_left();
    deliveries();
    while kernel.waiting(pin) > 0 {
        kernel.apply(Event::Deliver(pin))?;
    }
    Ok(())
}
