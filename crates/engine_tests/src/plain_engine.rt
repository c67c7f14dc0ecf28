//! The plain engine on further circuits; on the worked ones it is in `caller_tests`.
use crate::circuits::{Circuit, PULSE, S27, SAMPLER, TWO_CLOCKS, WIRED_OSCILLATOR};
use Value::{One, Unknown, Zero};
use design::{Design, plain_waves};
use logic3::{Change, Value, Waveform};
use std::alloc::Global;
use std::process::Abort;
use std::test::Fail;
use timing_text::Horizon;

// Up to the horizon the net shows X, and then exactly these changes.
fn shows(
    rt: &impl Abort,
    alloc: Global,
    circuit: Circuit,
    horizon: u64,
    net: &[u8],
    changes: &[(u64, Value)],
) -> Result<(), Fail> {
    let design = circuit.build(alloc)?;
    design_shows(rt, alloc, &design, horizon, net, changes)
}

fn design_shows(
    rt: &impl Abort,
    alloc: Global,
    design: &Design,
    horizon: u64,
    net: &[u8],
    changes: &[(u64, Value)],
) -> Result<(), Fail> {
    let waves = plain_waves(alloc, design, Horizon::new(horizon)?)?;
    let net = design.find(net).expect(rt, "a net of this name");
    let wave = waves.get(net as usize).expect(rt, "a waveform of this net");
    has_changes(rt, wave, changes);
    Ok(())
}

fn has_changes(rt: &impl Abort, wave: &Waveform, changes: &[(u64, Value)]) {
    assert!(rt; wave.before() == Unknown);
    assert!(rt; wave.changes().len() == changes.len());
    for (change, (tick, value)) in wave.changes().iter().zip(changes) {
        let (tick, value) = (*tick, *value);
        assert!(rt; *change == Change { tick, value });
    }
}

// A clock line that says this of the flip-flop, and the changes that it shows then.
static CLOCKS: [(&[u8], &[(u64, Value)]); 7] = [
    // Each tick but tick 0.
    (b"timing version 2\nclock q 1 0", &[(5, One), (6, Zero)]),
    // The last phase of a period.
    (b"timing version 2\nclock q 4 3", &[(8, Zero)]),
    (
        b"timing version 2\nclock q 4 3\ninit q 0",
        &[(0, Zero), (4, Unknown), (8, Zero)],
    ),
    // No sample up to the horizon: the period is longer, or the phase is past it.
    (
        b"timing version 2\nclock q 10000000 0\ninit q 1",
        &[(0, One)],
    ),
    (b"timing version 2\nclock q 100 50\ninit q 1", &[(0, One)]),
    (
        b"timing version 2\nclock q 10000000 9999999\ninit q 0",
        &[(0, Zero)],
    ),
    // The first sample at the horizon shows a delay later.
    (b"timing version 2\nclock q 100 9\ninit q 1", &[(0, One)]),
];

#[test]
fn clocks(rt: HostRuntime) -> Result<(), Fail> {
    for &(delays, changes) in &CLOCKS {
        let circuit = Circuit { delays, ..SAMPLER };
        shows(&rt, rt.alloc(), circuit, 9, b"q", changes)?;
    }
    Ok(())
}

#[test]
fn clocks_and_initial_values(rt: HostRuntime) -> Result<(), Fail> {
    for (net, changes) in [
        (b"q", [(3, One), (9, Zero), (12, One)].as_slice()),
        (b"r", &[(0, Zero), (7, One)]),
    ] {
        shows(&rt, rt.alloc(), TWO_CLOCKS, 14, net, changes)?;
    }
    Ok(())
}

#[test]
fn wires(rt: HostRuntime) -> Result<(), Fail> {
    for (circuit, horizon, net, changes) in [
        (PULSE, 9, b"y", [(3, Zero), (6, One), (8, Zero)].as_slice()),
        // Its second pin is 1 from tick 9 on, and then it is the opposite of what it was three ticks before.
        (
            WIRED_OSCILLATOR,
            14,
            b"y",
            &[(1, One), (10, Zero), (13, One)],
        ),
    ] {
        shows(&rt, rt.alloc(), circuit, horizon, net, changes)?;
    }
    Ok(())
}

// The nets of S27, and the changes of each.
static OF_S27: [(&[u8], [(u64, Value); 2]); 17] = [
    (b"G0", [(0, One), (12, Zero)]),
    (b"G1", [(0, One), (22, Zero)]),
    (b"G2", [(0, Zero), (12, One)]),
    (b"G3", [(0, Zero), (22, One)]),
    (b"G5", [(11, One), (21, Zero)]),
    (b"G6", [(11, Zero), (31, One)]),
    (b"G7", [(11, One), (21, Zero)]),
    (b"G14", [(1, Zero), (13, One)]),
    (b"G17", [(6, One), (27, Zero)]),
    (b"G8", [(2, Zero), (32, One)]),
    (b"G15", [(3, Zero), (24, One)]),
    (b"G16", [(3, Zero), (23, One)]),
    (b"G9", [(4, One), (25, Zero)]),
    (b"G10", [(6, One), (14, Zero)]),
    (b"G11", [(5, Zero), (26, One)]),
    (b"G12", [(1, Zero), (23, One)]),
    (b"G13", [(2, One), (13, Zero)]),
];

#[test]
fn nets_of_s27(rt: HostRuntime) -> Result<(), Fail> {
    for (net, changes) in &OF_S27 {
        shows(&rt, rt.alloc(), S27, 35, net, changes.as_slice())?;
    }
    Ok(())
}
