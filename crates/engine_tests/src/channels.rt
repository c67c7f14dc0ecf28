//! Channels from several nets to the pins of several gates; those of one net are in `caller_tests`.
ghost use Rattle.std.specs.Prelude.{◌≡◌, length};

use crate::circuits::built;
use Message::Null;
use Step::{Sends, Takes, Waits};
use Value::{One, Zero};
use cmb_channels::{Fabric, Logs, Message, Queues};
use design::Design;
use logic3::{Change, Value};
use std::alloc::{AllocError, Global};
use std::process::Abort;
use std::test::Fail;

// Channels with this number of nets and pins.
#[derive(Drop)]
struct Channels<F: Fabric> {
    fabric: F,
    nets: u32,
    pins: u32,
    ghost has_nets: { F.nets fabric ≡ nets },
    ghost has_pins: { length (F.lists fabric) ≡ pins },
}

// A net sends a message, this number of messages waits at a pin, or a pin takes this message, if one waits.
#[derive(Clone, Copy)]
enum Step {
    Sends(u32, Message),
    Waits(u32, u64),
    Takes(u32, Option<Message>),
}

impl<F: Fabric> Channels<F> {
    // Channels of a design, with nothing in them.
    fn empty_for(alloc: Global, design: &Design) -> Result<Channels<F>, AllocError> {
        Ok(Channels {
            fabric: F::empty_for(alloc, design)?,
            nets: design.nets(),
            pins: design.pins(),
        })
    }

    fn step(&mut self, rt: &impl Abort, step: Step) -> Result<(), AllocError> {
        match step {
            Sends(net, Message::Change(change)) => {
                assert!(rt; net < self.nets);
                assert!(rt; change.tick < 100);
                self.fabric.send(net, Message::Change(change))?;
            }
            Sends(net, Null(bound)) => {
                assert!(rt; net < self.nets);
                assert!(rt; bound < 100);
                self.fabric.send(net, Null(bound))?;
            }
            Waits(pin, wanted) => {
                assert!(rt; pin < self.pins);
                assert!(rt; self.fabric.waiting(pin) == wanted);
            }
            Takes(pin, wanted) => {
                assert!(rt; pin < self.pins);
                assert!(rt; self.fabric.take(pin) == wanted);
            }
        }
        Ok(())
    }
}

const RISE: Message = Message::Change(Change {
    tick: 3,
    value: One,
});

const FALL: Message = Message::Change(Change {
    tick: 5,
    value: Zero,
});

// The channels of a design connect this number of nets and pins, and these steps can be taken.
fn follows<F: Fabric>(
    rt: &impl Abort,
    alloc: Global,
    design: &Design,
    joined: (u32, u32),
    steps: &[Step],
) -> Result<(), Fail> {
    let mut channels: Channels<F> = Channels::empty_for(alloc, design)?;
    assert!(rt; channels.nets == joined.0);
    assert!(rt; channels.pins == joined.1);
    for step in steps {
        channels.step(rt, *step)?;
    }
    Ok(())
}

// A net feeds pins of two others; each pin takes all messages, in the order of sending.
const AT_TWO_GATES: [Step; 14] = [
    Sends(0, Null(2)),
    Sends(0, RISE),
    Sends(0, FALL),
    Sends(1, Null(9)),
    Sends(2, Null(4)),
    Waits(0, 1),
    Waits(1, 3),
    Takes(2, Some(Null(2))),
    Takes(2, Some(RISE)),
    Takes(2, Some(FALL)),
    Takes(2, None),
    Waits(1, 3),
    Takes(1, Some(Null(2))),
    Takes(0, Some(Null(9))),
];

fn follow_both(
    rt: &impl Abort,
    alloc: Global,
    bench: &[u8],
    joined: (u32, u32),
    steps: &[Step],
) -> Result<(), Fail> {
    let design = built(alloc, bench, b"", b"", 10)?;
    follows::<Queues>(rt, alloc, &design, joined, steps)?;
    follows::<Logs>(rt, alloc, &design, joined, steps)
}

#[test]
fn steps_of_channels(rt: HostRuntime) -> Result<(), Fail> {
    let two_gates = b"INPUT(a)\nINPUT(b)\ny = AND(b, a)\nz = NOT(a)\n";
    follow_both(&rt, rt.alloc(), two_gates, (4, 3), &AT_TWO_GATES)
}

// One pin takes each message as it is sent, and the other one stays three behind, so a log that has kept
// sixteen messages loses those that both have taken.
fn stays_behind<F: Fabric>(rt: &impl Abort, alloc: Global, design: &Design) -> Result<(), Fail> {
    let mut channels: Channels<F> = Channels::empty_for(alloc, design)?;
    for bound in 0..99 {
        channels.step(rt, Sends(1, Null(bound)))?;
        channels.step(rt, Takes(1, Some(Null(bound))))?;
        if bound >= 3 {
            channels.step(rt, Takes(2, Some(Null(bound - 3))))?;
        }
    }
    channels.step(rt, Waits(1, 0))?;
    channels.step(rt, Waits(2, 3))?;
    Ok(())
}

#[test]
fn one_pin_behind(rt: HostRuntime) -> Result<(), Fail> {
    let two_gates = b"INPUT(a)\nINPUT(b)\ny = AND(a, b)\nz = NOT(b)\n";
    let design = built(rt.alloc(), two_gates, b"", b"", 10)?;
    stays_behind::<Queues>(&rt, rt.alloc(), &design)?;
    stays_behind::<Logs>(&rt, rt.alloc(), &design)
}
