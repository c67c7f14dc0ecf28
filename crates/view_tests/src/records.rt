//! What is recorded of runs by rounds: the messages of traces that were worked out independently.
ghost use Rattle.std.specs.Prelude.{◌≡◌};

use crate::circuits::{Circuit, HAZARD, INVERTER};
use Message::{Change as Changes, Null};
use Value::{One, Zero};
use cmb_channels::{Fabric, Logs, Message, Queues};
use cmb_kernel::Kernel;
use design::Design;
use kernel_uses::Recorder;
use logic3::{Change, Value};
use std::alloc::Global;
use std::process::Abort;
use std::test::Fail;
use timing_text::Horizon;

static INVERTER_SENT: [&[Message]; 2] = [
    &[
        Changes(Change {
            tick: 0,
            value: Zero,
        }),
        Changes(Change {
            tick: 3,
            value: One,
        }),
        Null(6),
    ],
    &[
        Null(1),
        Changes(Change {
            tick: 1,
            value: One,
        }),
        Changes(Change {
            tick: 4,
            value: Zero,
        }),
        Null(6),
    ],
];

static HAZARD_SENT: [&[Message]; 3] = [
    &[
        Changes(Change {
            tick: 0,
            value: Zero,
        }),
        Changes(Change {
            tick: 5,
            value: One,
        }),
        Null(9),
    ],
    &[
        Null(1),
        Changes(Change {
            tick: 1,
            value: Zero,
        }),
        Changes(Change {
            tick: 6,
            value: One,
        }),
        Null(9),
    ],
    &[
        Null(1),
        Null(2),
        Changes(Change {
            tick: 2,
            value: Zero,
        }),
        Changes(Change {
            tick: 6,
            value: One,
        }),
        Changes(Change {
            tick: 7,
            value: Zero,
        }),
        Null(9),
    ],
];

// Each net sent these messages.
fn has_sent<F: Fabric>(
    rt: &impl Abort,
    design: &Design,
    kernel: &Kernel<Recorder<F>>,
    wanted: &[&[Message]],
)
    requires { kernel.now.circuit ≡ design.now.circuit }
{
    assert!(rt; !kernel.is_failed());
    assert!(rt; (design.nets() as usize) == wanted.len());
    let channels = kernel.fabric();
    for net in 0..design.nets() {
        let messages = wanted.get(net as usize).expect(rt, "messages of this net");
        assert!(rt; channels.sent_by(net) == *messages);
    }
}

// A run over channels with room for this number of messages of each net.
fn records<F: Fabric>(
    rt: &impl Abort,
    alloc: Global,
    circuit: &Circuit,
    room: usize,
    wanted: &[&[Message]],
) -> Result<(), Fail> {
    let design = circuit.build(alloc)?;
    let horizon = Horizon::new(circuit.horizon)?;
    let channels: Recorder<F> = Recorder::with_room(alloc, &design, room)?;
    let mut kernel = Kernel::over(alloc, &design, horizon, channels)?;
    kernel.complete()?;
    has_sent(rt, &design, &kernel, wanted);
    Ok(())
}

#[test]
fn messages(rt: HostRuntime) -> Result<(), Fail> {
    for room in [0, 2, 100] {
        records::<Queues>(&rt, rt.alloc(), &INVERTER, room, &INVERTER_SENT)?;
        records::<Logs>(&rt, rt.alloc(), &INVERTER, room, &INVERTER_SENT)?;
        records::<Logs>(&rt, rt.alloc(), &HAZARD, room, &HAZARD_SENT)?;
    }
    Ok(())
}
