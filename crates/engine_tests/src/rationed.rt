//! The kernel over a fabric that carries only a given number of messages: each of a run's messages goes
//! through the fabric, and is taken from it; a kernel whose fabric runs out of memory has failed.
ghost use Rattle.std.specs.Prelude.{◌≡◌};

use crate::circuits::{Circuit, GATED_OSCILLATOR, INVERTER, RING_COUNTER, are_nets};
use Event::{Advance, Deliver};
use cmb_channels::{Fabric, Message, Queues};
use cmb_events::Event;
use cmb_kernel::{Kernel, KernelFault};
use design::Design;
use logic3::Change;
use std::alloc::{AllocError, Global};
use std::process::Abort;
use std::test::Fail;
use timing_text::Horizon;

/// Queues that run out of memory once they have carried `SENT` messages, or once more than `TAKEN` were
/// taken.
#[derive(Drop)]
struct Rationed<const SENT: usize, const TAKEN: usize> {
    queues: Queues,
    sent: usize,
    taken: usize,
}

impl<const SENT: usize, const TAKEN: usize> Fabric for Rationed<SENT, TAKEN> {
    ghost lists = { λ r. r.queues.lists };

    ghost sources = { λ r. r.queues.sources };

    ghost nets = { λ r. r.queues.nets };

    fn empty_for(alloc: Global, design: &Design) -> Result<Self, AllocError> {
        Ok(Rationed {
            queues: Queues::empty_for(alloc, design)?,
            sent: 0,
            taken: 0,
        })
    }

    fn send(&mut self, net: u32, message: Message) -> Result<(), AllocError> {
        if self.sent >= SENT || self.taken > TAKEN {
            return Err(AllocError);
        }
        self.queues.send(net, message)?;
        self.sent += 1;
        Ok(())
    }

    fn take(&mut self, pin: u32) -> Option<Message> {
        self.taken = self.taken.saturating_add(1);
        self.queues.take(pin)
    }

    fn waiting(&self, pin: u32) -> u64 {
        self.queues.waiting(pin)
    }
}

// What a run of the kernel to its end returns, and whether the kernel has failed then.
fn completed<F: Fabric>(kernel: &mut Kernel<F>) -> (Result<(), KernelFault>, bool) {
    let answer = kernel.complete();
    (answer, kernel.is_failed())
}

// The same for a new kernel of the design.
fn outcome<F: Fabric>(
    alloc: Global,
    design: &Design,
    horizon: u64,
) -> Result<(Result<(), KernelFault>, bool), Fail> {
    let mut kernel: Kernel<F> = Kernel::new(alloc, design, Horizon::new(horizon)?)?;
    Ok(completed(&mut kernel))
}

// A run of the circuit completes over the fabric `F`, which carries as much as it sends, and fails over `G`.
fn needs<F: Fabric, G: Fabric>(
    rt: &impl Abort,
    alloc: Global,
    circuit: Circuit,
    horizon: u64,
) -> Result<(), Fail> {
    let design = circuit.build(alloc)?;
    assert!(rt; outcome::<F>(alloc, &design, horizon)? == (Ok(()), false));
    assert!(rt; outcome::<G>(alloc, &design, horizon)? == (Err(KernelFault::Memory), true));
    Ok(())
}

// Each of these runs sends this number of changes and of null messages, and takes this number before the last
// one is sent.
#[test]
fn carries_each_message(rt: HostRuntime) -> Result<(), Fail> {
    needs::<Rationed<7, 3>, Rationed<6, 3>>(&rt, rt.alloc(), INVERTER, 5)?;
    needs::<Rationed<7, 3>, Rationed<7, 2>>(&rt, rt.alloc(), INVERTER, 5)?;
    needs::<Rationed<12, 10>, Rationed<11, 10>>(&rt, rt.alloc(), GATED_OSCILLATOR, 12)?;
    needs::<Rationed<12, 10>, Rationed<12, 9>>(&rt, rt.alloc(), GATED_OSCILLATOR, 12)?;
    needs::<Rationed<8, 7>, Rationed<7, 7>>(&rt, rt.alloc(), RING_COUNTER, 10)?;
    needs::<Rationed<8, 7>, Rationed<8, 6>>(&rt, rt.alloc(), RING_COUNTER, 10)
}

// A call of a kernel.
#[derive(Clone, Copy)]
enum Call {
    Event(Event),
    Events(&'static [Event]),
    Round,
    Sweep(&'static [u32]),
    Complete,
}

// What the kernel returns for a call; a sweep names nets that exist.
fn answer<F: Fabric>(
    rt: &impl Abort,
    design: &Design,
    kernel: &mut Kernel<F>,
    call: Call,
) -> Result<(), KernelFault>
    requires { kernel.old.circuit ≡ design.now.circuit }
{
    match call {
        Call::Event(event) => kernel.apply(event).map(|_useful| ()),
        Call::Events(events) => kernel.apply_all(events),
        Call::Round => kernel.round(),
        Call::Sweep(order) => {
            assert!(rt; are_nets(design, order));
            kernel.sweep(order, 6)
        }
        Call::Complete => kernel.complete(),
    }
}

// A drain returns that the kernel has failed, and adds nothing to the list.
fn refuses_drains<F: Fabric>(
    rt: &impl Abort,
    kernel: &mut Kernel<F>,
    taken: &mut Vec<Change>,
    bound: u64,
) {
    assert!(rt; kernel.is_failed());
    assert!(rt; 0 < kernel.nets());
    let answer = kernel.drain_below_into(0, bound, taken);
    assert!(rt; answer == Err(KernelFault::Failed) && taken.is_empty());
}

// The kernel returns for every call that it has failed, whatever is wrong with the call.
fn has_failed<F: Fabric>(
    rt: &impl Abort,
    kernel: &mut Kernel<F>,
    taken: &mut Vec<Change>,
    many: &[Event],
) {
    let failed = Err(KernelFault::Failed);
    assert!(rt; kernel.is_failed());
    assert!(rt; kernel.apply(Advance(0)) == Err(KernelFault::Failed));
    assert!(rt; kernel.apply(Deliver(9)) == Err(KernelFault::Failed));
    assert!(rt; kernel.apply_all(many) == failed);
    assert!(rt; kernel.apply_all(&[Advance(9)]) == failed);
    assert!(rt; kernel.round() == failed);
    assert!(rt; kernel.sweep(&[], 6) == failed);
    assert!(rt; kernel.complete() == failed);
    refuses_drains(rt, kernel, taken, 0);
    refuses_drains(rt, kernel, taken, 9);
    assert!(rt; kernel.is_failed());
}

// A call that has something to send runs out of memory, and the kernel has failed from then on.
fn fails_for_good(
    rt: &impl Abort,
    alloc: Global,
    design: &Design,
    call: Call,
    many: &[Event],
) -> Result<(), Fail> {
    let mut kernel: Kernel<Rationed<0, 0>> = Kernel::new(alloc, design, Horizon::new(5)?)?;
    let first = answer(rt, design, &mut kernel, call);
    assert!(rt; first == Err(KernelFault::Memory));
    has_failed(rt, &mut kernel, &mut Vec::new(alloc), many);
    Ok(())
}

static CALLS: [Call; 5] = [
    Call::Event(Advance(0)),
    Call::Events(&[Deliver(0), Advance(0)]),
    Call::Round,
    Call::Sweep(&[1, 0]),
    Call::Complete,
];

fn each_fails_for_good(
    rt: &impl Abort,
    alloc: Global,
    design: &Design,
    many: &[Event],
) -> Result<(), Fail> {
    for call in &CALLS {
        fails_for_good(rt, alloc, design, *call, many)?;
    }
    Ok(())
}

// This number of events is too large for a kernel that hasn't failed.
#[test]
fn refused_at_once(rt: HostRuntime) -> Result<(), Fail> {
    let design = INVERTER.build(rt.alloc())?;
    let many = vec![in rt.alloc(); Advance(0); 10_000_001]?;
    each_fails_for_good(&rt, rt.alloc(), &design, &many)
}
