//! A driver that draws events by a seed.
ghost use Rattle.std.specs.Prelude.{◌≡◌, ℕ, ◌+◌, ◌<◌, if◌then◌else◌, true, false, length, IfSome, IfNone, IfErr, OnErr, OnOk};
ghost use Rattle.design.specs.Circuit.{pin_count};
ghost use Rattle.cmb_events.specs.declared.event.Event.{Event};
ghost use Rattle.cmb_events.specs.Schedule.{Exists};
ghost use Rattle.cmb_kernel.specs.Useful.{is_useful};
ghost use Rattle.kernel_uses.specs.Runs.{IsCompleted, UsefulEventsLead};
ghost use Rattle.kernel_uses.specs.Work.{event_numbered};

use cmb_channels::Fabric;
use cmb_events::Event;
use cmb_kernel::laws::progress_left;
use cmb_kernel::{Kernel, KernelFault};
use rand_core::SeedableRng;
use rand_core::utils::NextWord;
use rand_pcg::Lcg64Xsh32;

/// Applies events that a seed draws among those that are useful, one after another, until none is useful.
///
/// Whatever is drawn, each net shows at the end what it shows after rounds.
///
/// # Errors
/// [`KernelFault::Failed`]; nothing changed. [`KernelFault::Memory`]; the kernel has failed from then on.
pub fn drive_by_draws<F: Fabric>(kernel: &mut Kernel<'_, F>, seed: u64) -> Result<(), KernelFault>
    ensures ok { OnOk result (IsCompleted kernel.old kernel.new) }
    ensures useful { OnOk result ((count : ℕ)
        × UsefulEventsLead kernel.old.circuit kernel.old.state kernel.new.state count) }
    ensures fault { IfErr result (λ fault.
        fault ≡ (if kernel.old.failed then KernelFault.Failed else KernelFault.Memory)) }
    ensures failed { OnErr result (kernel.new.failed ≡ true) }
    ensures refused { kernel.old.failed ≡ true → kernel.new ≡ kernel.old }
{
    if kernel.is_failed() {
        return Err(KernelFault::Failed);
    }
    progress_left();
    let mut words = Lcg64Xsh32::seed_from_u64(seed);
    while let Some(event) = draw(kernel, &mut words) {
        kernel.apply(event)?;
    }
    // If no event is useful, the kernel returns none either.
    prove!(kernel.useful().is_none());
    Ok(())
}

/// Returns a useful event, each as likely as any other, or `None` if no event is useful. It looks at each pin
/// and each net once.
fn draw<F: Fabric>(kernel: &Kernel<'_, F>, words: &mut Lcg64Xsh32) -> Option<Event>
    requires { kernel.now.failed ≡ false }
    ensures some { IfSome result (λ event.
        Exists kernel.now.circuit event × (is_useful kernel.now.state event ≡ true)) }
    ensures none { IfNone result ((event : Event) →
        Exists kernel.now.circuit event → is_useful kernel.now.state event ≡ false) }
{
    let mut drawn = None;
    let mut found = 0;
    for number in 0..kernel.nets() + kernel.pins() {
        let event = event_numbered(kernel, number);
        if kernel.is_useful(event) {
            found += 1;
            // Each event found so far is kept with the same likelihood.
            if drawn.is_none() || words.next_word() % found == 0 {
                drawn = Some(event);
            }
        }
    }
    drawn
}

/// Returns the event of a number: first come the deliveries to all pins, and then the advances of all nets.
fn event_numbered<F: Fabric>(kernel: &Kernel<'_, F>, number: u32) -> Event
    requires { number < length kernel.now.circuit + pin_count kernel.now.circuit }
    ensures event { result ≡ event_numbered kernel.now.circuit number }
    ensures exists { Exists kernel.now.circuit result }
{
    let pins = kernel.pins();
    if number < pins {
        Event::Deliver(number)
    } else {
        Event::Advance(number - pins)
    }
}
