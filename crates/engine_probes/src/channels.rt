//! Channels: a message that isn't sent is at no pin.
ghost use Rattle.std.specs.Prelude.{◌≡◌, ◌<◌, length};

use crate::telling::Teller;
use bench_text::read;
use cmb_channels::{Fabric, Logs, Message, Queues};
use design::Design;
use std::alloc::{AllocError, Global};
use std::io::Write;

/// A net at three pins of one gate, and at a pin of another.
const BENCH: &[u8] = b"INPUT(a)\ny = AND(a, a, a)\nz = NOT(a)\n";

/// Channels with this number of pins, of at least one net.
#[derive(Drop)]
struct Channels<F: Fabric> {
    fabric: F,
    pins: u32,
    ghost has_net: { 0 < F.nets fabric },
    ghost has_pins: { length (F.lists fabric) ≡ pins },
}

impl<F: Fabric> Channels<F> {
    fn empty_for(alloc: Global, design: &Design) -> Result<Channels<F>, AllocError> {
        let nets = design.nets();
        if nets == 0 {
            return Err(AllocError);
        }
        Ok(Channels {
            fabric: F::empty_for(alloc, design)?,
            pins: design.pins(),
        })
    }

    /// Sends a message of the first net.
    fn send(&mut self) -> Result<(), AllocError> {
        self.fabric.send(0, Message::Null(7))
    }

    /// Whether this number of messages waits at each pin.
    fn have(&self, count: u64) -> bool {
        for pin in 0..self.pins {
            if self.fabric.waiting(pin) != count {
                return false;
            }
        }
        true
    }
}

/// Probes both fabrics.
pub(crate) fn probe<W: Write>(alloc: Global, teller: &mut Teller<W>) -> Option<()> {
    let netlist = teller.told("bench_text::read", read(alloc, BENCH))?;
    let design = Design::build(alloc, netlist, b"", b"", 1, 10);
    let design = teller.told("Design::build", design)?;
    sends::<Queues, W>(alloc, teller, &design, "Queues::empty_for", "Queues::send")?;
    sends::<Logs, W>(alloc, teller, &design, "Logs::empty_for", "Logs::send")
}

/// Sends enough messages for lists of them to grow twice.
fn sends<F: Fabric, W: Write>(
    alloc: Global,
    teller: &mut Teller<W>,
    design: &Design,
    making: &str,
    sending: &str,
) -> Option<()> {
    let mut channels: Channels<F> = teller.told(making, Channels::empty_for(alloc, design))?;
    for count in 0..20 {
        if channels.send().is_err() {
            let same = channels.have(count);
            teller.refused(
                sending,
                same && channels.send().is_ok() && channels.have(count + 1),
            );
            return None;
        }
    }
    teller.fine(sending, channels.have(20))
}
