//! Channels over both fabrics: what is sent waits at each pin that the net feeds.
ghost use Rattle.std.specs.Prelude.{◌≡◌, length};

use crate::circuits::Circuit;
use Step::{Sends, Takes, Waits};
use Value::{One, Zero};
use cmb_channels::{Fabric, Logs, Message, Queues, Waiting};
use design::Design;
use logic3::{Change, Value};
use std::alloc::{AllocError, Global};
use std::process::Abort;
use std::test::Fail;

const RISE: Message = Message::Change(Change {
    tick: 0,
    value: One,
});

// Past all horizons, and past what a u32 holds.
const LATE: Message = Message::Change(Change {
    tick: 5_000_000_000,
    value: Zero,
});

const NONE_BELOW: Message = Message::Null(6);

// There are exactly these messages.
fn bound(message: Message) -> u64 {
    match message {
        Message::Change(change) => change.tick.saturating_add(1),
        Message::Null(bound) => bound,
    }
}

#[test]
fn bounds_of_messages(rt: HostRuntime) {
    for (message, wanted) in [(RISE, 1), (LATE, 5_000_000_001), (NONE_BELOW, 6)] {
        assert!(rt; bound(message) == wanted);
    }
}

// A net sends a message; a pin receives this one, or none; this number waits at a pin.
#[derive(Clone, Copy)]
enum Step {
    Sends(u32, Message),
    Takes(u32, Option<Message>),
    Waits(u32, u64),
}

// Channels, and how many nets and pins they join.
#[derive(Drop)]
struct Channels<F: Fabric> {
    fabric: F,
    nets: u32,
    pins: u32,
    ghost has_nets: { F.nets fabric ≡ nets },
    ghost has_pins: { length (F.lists fabric) ≡ pins },
}

impl<F: Fabric> Channels<F> {
    fn of(alloc: Global, design: &Design) -> Result<Channels<F>, AllocError> {
        let fabric: Result<F, AllocError> = F::empty_for(alloc, design);
        Ok(Channels {
            fabric: fabric?,
            nets: design.nets(),
            pins: design.pins(),
        })
    }

    fn step(&mut self, rt: &impl Abort, step: Step) -> Result<(), AllocError> {
        match step {
            Sends(net, message) => {
                assert!(rt; net < self.nets);
                let sent: Result<(), AllocError> = self.fabric.send(net, message);
                sent?;
            }
            Takes(pin, wanted) => {
                assert!(rt; pin < self.pins);
                let taken: Option<Message> = self.fabric.take(pin);
                assert!(rt; taken == wanted);
            }
            Waits(pin, wanted) => {
                assert!(rt; pin < self.pins);
                let waiting: u64 = self.fabric.waiting(pin);
                assert!(rt; waiting == wanted);
            }
        }
        Ok(())
    }
}

const TWO_PINS: Circuit = Circuit {
    bench: b"INPUT(a)\ny = XOR(a, a)\n",
    delays: b"",
    stimuli: b"",
    period: 10,
};

const AT_TWO_PINS: [Step; 8] = [
    Waits(0, 0),
    Sends(0, LATE),
    Waits(0, 1),
    Waits(1, 1),
    Takes(1, Some(LATE)),
    Waits(0, 1),
    Waits(1, 0),
    Takes(1, None),
];

const THREE_PINS: Circuit = Circuit {
    bench: b"INPUT(a)\ny = AND(a, a, a)\n",
    ..TWO_PINS
};

// The second net feeds no pin.
const AT_THREE_PINS: [Step; 9] = [
    Sends(0, RISE),
    Sends(0, NONE_BELOW),
    Sends(1, NONE_BELOW),
    Takes(0, Some(RISE)),
    Takes(0, Some(NONE_BELOW)),
    Takes(1, Some(RISE)),
    Waits(0, 0),
    Waits(1, 1),
    Waits(2, 2),
];

fn follow<F: Fabric>(
    rt: &impl Abort,
    alloc: Global,
    design: &Design,
    steps: &[Step],
) -> Result<(), Fail> {
    let mut channels: Channels<F> = Channels::of(alloc, design)?;
    for step in steps {
        channels.step(rt, *step)?;
    }
    Ok(())
}

#[test]
fn over_both_fabrics(rt: HostRuntime) -> Result<(), Fail> {
    for (circuit, steps) in [
        (TWO_PINS, AT_TWO_PINS.as_slice()),
        (THREE_PINS, AT_THREE_PINS.as_slice()),
    ] {
        let design: Design = circuit.build(rt.alloc())?;
        follow::<Queues>(&rt, rt.alloc(), &design, steps)?;
        follow::<Logs>(&rt, rt.alloc(), &design, steps)?;
    }
    Ok(())
}

// These numbers of messages of both nets are still to be taken.
fn keeps(rt: &impl Abort, channels: &Channels<Logs>, first: u64, second: u64) {
    assert!(rt; channels.nets == 2);
    let kept: u64 = channels.fabric.kept(0);
    assert!(rt; kept == first);
    assert!(rt; channels.fabric.kept(1) == second);
}

fn keep_one_log(rt: &impl Abort, alloc: Global, design: &Design) -> Result<(), Fail> {
    let mut channels: Channels<Logs> = Channels::of(alloc, design)?;
    for step in &AT_THREE_PINS {
        channels.step(rt, *step)?;
    }
    keeps(rt, &channels, 2, 0);
    channels.step(rt, Takes(2, Some(RISE)))?;
    keeps(rt, &channels, 1, 0);
    channels.step(rt, Takes(0, None))?;
    Ok(())
}

#[test]
fn one_log(rt: HostRuntime) -> Result<(), Fail> {
    let design: Design = THREE_PINS.build(rt.alloc())?;
    keep_one_log(&rt, rt.alloc(), &design)
}

// These messages wait at a pin, which takes all of them at once.
fn take_slice(rt: &impl Abort, channels: &mut Channels<Logs>, pin: u32, wanted: &[Message]) {
    assert!(rt; pin < channels.pins);
    let waiting: Waiting<'_> = channels.fabric.waiting_messages(pin);
    let count = waiting.len();
    assert!(rt; count == wanted.len());
    for (place, message) in wanted.iter().enumerate() {
        assert!(rt; waiting.get(place) == Some(*message));
    }
    channels.fabric.take_many(pin, count);
}

#[test]
fn one_slice(rt: HostRuntime) -> Result<(), Fail> {
    let design: Design = THREE_PINS.build(rt.alloc())?;
    let mut channels: Channels<Logs> = Channels::of(rt.alloc(), &design)?;
    for step in &AT_THREE_PINS {
        channels.step(&rt, *step)?;
    }
    take_slice(&rt, &mut channels, 2, &[RISE, NONE_BELOW]);
    take_slice(&rt, &mut channels, 0, &[]);
    take_slice(&rt, &mut channels, 1, &[NONE_BELOW]);
    keeps(&rt, &channels, 0, 0);
    Ok(())
}
