//! Small circuits, and drives of their inputs.
use drawn_stimuli::{Draws, Drive, DriveFault, Driven, stimuli_text};
use std::alloc::Global;
use std::test::Fail;
use timing_text::Horizon;

/// One input.
pub(crate) const INVERTER: &[u8] = b"INPUT(a)\nOUTPUT(y)\ny = NOT(a)\n";

/// Three inputs, with a gate between.
pub(crate) const THREE: &[u8] = b"INPUT(c)\nINPUT(b)\ny = AND(a, b, c)\nINPUT(a)\n";

/// Three inputs, the bits of a bus.
pub(crate) const BUS: &[u8] = b"INPUT(d[1])\nINPUT(d[0])\nINPUT(d[2])\ny = AND(d[0], d[1])\n";

/// No input.
pub(crate) const COUNTER: &[u8] = b"q = DFF(n)\nn = NOT(q)\n";

/// A seed, and how many ticks are between draws.
pub(crate) type Drawn = (u64, u64);

/// The draws if no input is drawn.
pub(crate) const NONE: Drawn = (0, 1);

/// The text of a netlist with these drives and draws, up to a tick.
pub(crate) fn text_of(
    alloc: Global,
    bench: &[u8],
    driven: &[(&[u8], Drive)],
    (seed, every): Drawn,
    ticks: u64,
) -> Result<Result<Vec<u8>, DriveFault>, Fail> {
    let netlist = bench_text::read(alloc, bench)?;
    let horizon = Horizon::new(ticks)?;
    let mut drives = Vec::new(alloc);
    for (name, drive) in driven {
        drives.push(Driven {
            name,
            drive: *drive,
        })?;
    }
    let draws = Draws {
        seed,
        every,
        only: false,
    };
    Ok(stimuli_text(alloc, &netlist, drives.as_slice(), draws, horizon))
}
