//! What a kernel returns of its parts, and a design of the pins that nets feed.
use crate::circuits::{Circuit, INVERTER, LATE_PIN, S27, built};
use cmb_channels::{Fabric, Logs, Queues};
use cmb_events::Event;
use cmb_kernel::Kernel;
use design::Design;
use std::alloc::Global;
use std::process::Abort;
use std::test::Fail;
use timing_text::Horizon;

// The number of nets and of pins, and the first tick after the horizon.
#[derive(Clone, Copy)]
struct Parts {
    nets: u32,
    pins: u32,
    end: u64,
}

// The kernel and its design return these parts.
fn has_parts<F: Fabric>(rt: &impl Abort, kernel: &Kernel<F>, wanted: Parts) {
    assert!(rt; kernel.nets() == wanted.nets);
    assert!(rt; kernel.pins() == wanted.pins);
    assert!(rt; kernel.end() == wanted.end);
    assert!(rt; kernel.design().nets() == wanted.nets);
    assert!(rt; kernel.design().pins() == wanted.pins);
}

// This number of messages waits at each pin in the channels that the kernel returns.
fn wait_in_fabric<F: Fabric>(rt: &impl Abort, kernel: &Kernel<F>, wanted: &[u64]) {
    assert!(rt; !kernel.is_failed());
    for pin in 0..kernel.pins() {
        assert!(rt; Some(&kernel.fabric().waiting(pin)) == wanted.get(pin as usize));
    }
}

// A kernel has these parts, and this number of messages waits at its pins once its first net has advanced.
fn tells<F: Fabric>(
    rt: &impl Abort,
    alloc: Global,
    design: &Design,
    horizon: u64,
    parts: Parts,
    wanted: &[u64],
) -> Result<(), Fail> {
    let mut kernel: Kernel<F> = Kernel::new(alloc, design, Horizon::new(horizon)?)?;
    has_parts(rt, &kernel, parts);
    kernel.apply(Event::Advance(0))?;
    wait_in_fabric(rt, &kernel, wanted);
    has_parts(rt, &kernel, parts);
    Ok(())
}

// A circuit, a horizon, the parts of a kernel, and how many messages wait at each pin once its first net has
// advanced.
struct Row(Circuit, u64, Parts, &'static [u64]);

static ROWS: [Row; 3] = [
    // `a` has two changes to send, the last of them at tick 3, and a null message up to the end.
    Row(
        INVERTER,
        5,
        Parts {
            nets: 2,
            pins: 1,
            end: 6,
        },
        &[3],
    ),
    // It feeds the pin of `b` and the first one of `y`. Its change at tick 5 is after the horizon.
    Row(
        LATE_PIN,
        4,
        Parts {
            nets: 3,
            pins: 3,
            end: 5,
        },
        &[2, 2, 0],
    ),
    Row(
        INVERTER,
        0,
        Parts {
            nets: 2,
            pins: 1,
            end: 1,
        },
        &[1],
    ),
];

#[test]
fn kernels_tell_their_parts(rt: HostRuntime) -> Result<(), Fail> {
    for row in &ROWS {
        let design = row.0.build(rt.alloc())?;
        tells::<Queues>(&rt, rt.alloc(), &design, row.1, row.2, row.3)?;
        tells::<Logs>(&rt, rt.alloc(), &design, row.1, row.2, row.3)?;
    }
    Ok(())
}

const PARTS_OF_S27: Parts = Parts {
    nets: 17,
    pins: 21,
    end: 10_000_001,
};

fn has_parts_of_s27(rt: &impl Abort, alloc: Global, design: &Design) -> Result<(), Fail> {
    let kernel: Kernel<Logs> = Kernel::new(alloc, design, Horizon::new(10_000_000)?)?;
    has_parts(rt, &kernel, PARTS_OF_S27);
    Ok(())
}

#[test]
fn parts_of_s27(rt: HostRuntime) -> Result<(), Fail> {
    let design = S27.build(rt.alloc())?;
    has_parts_of_s27(&rt, rt.alloc(), &design)
}

// A circuit, and the pins that each of its nets feeds.
struct Fed(&'static [u8], &'static [&'static [u32]]);

static FEDS: [Fed; 6] = [
    Fed(b"INPUT(a)\n", &[&[]]),
    Fed(b"INPUT(a)\ny = NOT(a)\n", &[&[0], &[]]),
    // Two pins of one gate.
    Fed(b"INPUT(a)\ny = XOR(a, a)\n", &[&[0, 1], &[]]),
    // Its own pin.
    Fed(b"INPUT(e)\ny = NAND(e, y)\n", &[&[0], &[1]]),
    // A net that is defined after the pin that it feeds.
    Fed(b"q = DFF(n)\nn = NOT(q)\n", &[&[1], &[0]]),
    // Pins 0 to 2 are those of `y`, pins 3 and 4 those of `z`.
    Fed(
        b"INPUT(a)\nINPUT(b)\ny = AND(b, a, b)\nz = OR(a, y)\n",
        &[&[1, 3], &[0, 2], &[4], &[]],
    ),
];

// The nets of the design feed these pins.
fn feeds(rt: &impl Abort, design: &Design, wanted: &[&[u32]]) {
    assert!(rt; (design.nets() as usize) == wanted.len());
    for net in 0..design.nets() {
        let pins = wanted.get(net as usize).expect(rt, "the pins of this net");
        assert!(rt; design.pins_fed(net) == *pins);
    }
}

#[test]
fn pins_that_nets_feed(rt: HostRuntime) -> Result<(), Fail> {
    for row in &FEDS {
        let design = built(rt.alloc(), row.0, b"", b"", 10)?;
        feeds(&rt, &design, row.1);
    }
    Ok(())
}
