//! A caller's own fabric, which refuses memory: the kernel runs over it, and has failed from then on.
use crate::circuits::INVERTER;
use Event::Advance;
use cmb_channels::{Fabric, Message, Queues};
use cmb_kernel::{Event, Kernel, KernelFault};
use design::{Design, Horizon};
use logic3::Change;
use std::alloc::{AllocError, Global};
use std::process::Abort;
use std::test::Fail;

/// Queues to which nothing can be sent.
#[derive(Drop)]
struct Refusing {
    queues: Queues,
}

impl Fabric for Refusing {
    ghost lists = { λ r. r.queues.lists };

    ghost sources = { λ r. r.queues.sources };

    ghost nets = { λ r. r.queues.nets };

    fn empty_for(alloc: Global, design: &Design) -> Result<Self, AllocError> {
        let queues: Queues = Queues::empty_for(alloc, design)?;
        Ok(Refusing { queues })
    }

    fn send(&mut self, _net: u32, _message: Message) -> Result<(), AllocError> {
        Err(AllocError)
    }

    fn take(&mut self, pin: u32) -> Option<Message> {
        self.queues.take(pin)
    }

    fn waiting(&self, pin: u32) -> u64 {
        self.queues.waiting(pin)
    }
}

// The kernel returns to every call that it has failed.
fn has_failed(rt: &impl Abort, kernel: &mut Kernel<Refusing>) {
    let is_failed: bool = kernel.is_failed();
    assert!(rt; is_failed);
    assert!(rt; kernel.apply(Advance(1)) == Err(KernelFault::Failed));
    assert!(rt; kernel.apply_all(&[Advance(9)]) == Err(KernelFault::Failed));
    assert!(rt; kernel.round() == Err(KernelFault::Failed));
    assert!(rt; kernel.complete() == Err(KernelFault::Failed));
    assert!(rt; kernel.is_failed());
    assert!(rt; 0 < kernel.nets());
    let drained: Result<Vec<Change>, KernelFault> = kernel.drain_below(0, 9);
    assert!(rt; drained.err() == Some(KernelFault::Failed));
}

fn first_event(rt: &impl Abort, alloc: Global, design: &Design) -> Result<(), Fail> {
    let mut kernel: Kernel<Refusing> = Kernel::new(alloc, design, Horizon::new(5)?)?;
    let answer: Result<bool, KernelFault> = kernel.apply(Advance(0));
    assert!(rt; answer == Err(KernelFault::Memory));
    has_failed(rt, &mut kernel);
    Ok(())
}

#[test]
fn refused_at_once(rt: HostRuntime) -> Result<(), Fail> {
    let design: Design = INVERTER.build(rt.alloc())?;
    first_event(&rt, rt.alloc(), &design)
}
