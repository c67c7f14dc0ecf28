//! A driver that asks the kernel for events.
ghost use Rattle.std.specs.Prelude.{◌≡◌, ◌+◌, ◌*◌, ◌≤◌, if◌then◌else◌, true, length, IfErr, IfOk, OnErr, OnOk};
ghost use Rattle.design.specs.Circuit.{pin_count};
ghost use Rattle.kernel_uses.specs.Runs.{IsCompleted, UsefulEventsLead};

use cmb_channels::Fabric;
use cmb_kernel::laws::{no_deadlock, progress_left};
use cmb_kernel::{Kernel, KernelFault};

/// Applies events that the kernel returns as useful, one after another, until there is none. Returns the
/// number of events applied: at most one for each tick of each net and each pin.
///
/// # Errors
/// [`KernelFault::Failed`]; nothing changed. [`KernelFault::Memory`]; the kernel has failed from then on.
pub fn drive<F: Fabric>(kernel: &mut Kernel<'_, F>) -> Result<u64, KernelFault>
    ensures ok { OnOk result (IsCompleted kernel.old kernel.new) }
    ensures useful { IfOk result (UsefulEventsLead kernel.old.circuit kernel.old.state kernel.new.state) }
    ensures bound { IfOk result (λ count.
        count ≤ kernel.old.end * (length kernel.old.circuit + pin_count kernel.old.circuit)) }
    ensures fault { IfErr result (λ fault.
        fault ≡ (if kernel.old.failed then KernelFault.Failed else KernelFault.Memory)) }
    ensures failed { OnErr result (kernel.new.failed ≡ true) }
    ensures refused { kernel.old.failed ≡ true → kernel.new ≡ kernel.old }
{
    if kernel.is_failed() {
        return Err(KernelFault::Failed);
    }
    no_deadlock();
    progress_left();
    // Each useful event raises what a net or a pin knows by at least a tick.
    let most = kernel.end() * (u64::from(kernel.nets()) + u64::from(kernel.pins()));
    let mut count = 0;
    while let Some(event) = kernel.useful() {
        kernel.apply(event)?;
        count += 1;
        prove!(count <= most);
    }
    Ok(count)
}
