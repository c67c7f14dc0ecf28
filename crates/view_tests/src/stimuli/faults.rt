//! What is refused, with which fault, and which comes first.
use crate::stimuli::circuits::{BUS, Drawn, NONE, THREE, text_of};
use Drive::{Clock, Hold, HoldBits, Pulse};
use Value::{One, Zero};
use drawn_stimuli::{Drive, DriveFault};
use logic3::Value;
use std::alloc::Global;
use std::process::Abort;
use std::test::Fail;

// Drives, draws, the fault, and its name.
type Row = (
    &'static [(&'static [u8], Drive)],
    Drawn,
    DriveFault,
    &'static str,
);

static FAULTY: [Row; 11] = [
    (&[], (1, 0), DriveFault::BadEvery, "BadEvery"),
    (
        &[(b"d", Hold(One))],
        NONE,
        DriveFault::NotAnInput { place: 0 },
        "NotAnInput",
    ),
    (
        &[(b"y", Hold(One))],
        NONE,
        DriveFault::NotAnInput { place: 0 },
        "NotAnInput",
    ),
    (
        &[(b"a", Clock { half: 1 }), (b"", Hold(One))],
        NONE,
        DriveFault::NotAnInput { place: 1 },
        "NotAnInput",
    ),
    (
        &[
            (b"a", Clock { half: 1 }),
            (b"b", Clock { half: 1 }),
            (b"a", Clock { half: 1 }),
        ],
        NONE,
        DriveFault::Twice { place: 2 },
        "Twice",
    ),
    (
        &[(b"a", Clock { half: 0 })],
        NONE,
        DriveFault::BadHalf { place: 0 },
        "BadHalf",
    ),
    (
        &[(b"a", Pulse { from: 5, to: 5 })],
        NONE,
        DriveFault::BadPulse { place: 0 },
        "BadPulse",
    ),
    (
        &[(b"a", Pulse { from: 5, to: 4 })],
        NONE,
        DriveFault::BadPulse { place: 0 },
        "BadPulse",
    ),
    // The first of several.
    (
        &[(b"d", Hold(One))],
        (1, 0),
        DriveFault::BadEvery,
        "BadEvery",
    ),
    (
        &[(b"a", Pulse { from: 5, to: 5 }), (b"d", Hold(One))],
        NONE,
        DriveFault::BadPulse { place: 0 },
        "BadPulse",
    ),
    (
        &[(b"a", Clock { half: 1 }), (b"a", Clock { half: 0 })],
        NONE,
        DriveFault::Twice { place: 1 },
        "Twice",
    ),
];

const FIVE: Drive = HoldBits {
    ones: 5,
    unknown: 0,
};

const EIGHT: Drive = HoldBits {
    ones: 8,
    unknown: 0,
};

// Of the inputs of a bus.
static FAULTY_BITS: [Row; 12] = [
    (&[(b"d[3:0]", FIVE)], NONE, NOT_AN_INPUT, "NotAnInput"),
    (&[(b"d[2:0", FIVE)], NONE, NOT_AN_INPUT, "NotAnInput"),
    (&[(b"y[2:0]", FIVE)], NONE, NOT_AN_INPUT, "NotAnInput"),
    (&[(b"y", FIVE)], NONE, NOT_AN_INPUT, "NotAnInput"),
    (&[(b"d[2:0]", EIGHT)], NONE, TOO_WIDE, "TooWide"),
    (&[(b"d[1:0]", FIVE)], NONE, TOO_WIDE, "TooWide"),
    (&[(b"d[0]", FIVE)], NONE, TOO_WIDE, "TooWide"),
    (
        &[(
            b"d[2:0]",
            HoldBits {
                ones: 0,
                unknown: 8,
            },
        )],
        NONE,
        TOO_WIDE,
        "TooWide",
    ),
    (
        &[(b"d[0:2]", FIVE), (b"d[1]", Hold(Zero))],
        NONE,
        TWICE,
        "Twice",
    ),
    (
        &[(b"d[1]", Hold(Zero)), (b"d[0:2]", FIVE)],
        NONE,
        TWICE,
        "Twice",
    ),
    // The first input with a fault: d[2] has too many bits, or an earlier drive.
    (
        &[(b"d[1]", Hold(Zero)), (b"d[2:0]", EIGHT)],
        NONE,
        DriveFault::TooWide { place: 1 },
        "TooWide",
    ),
    (
        &[(b"d[2]", Hold(Zero)), (b"d[2:0]", EIGHT)],
        NONE,
        TWICE,
        "Twice",
    ),
];

const NOT_AN_INPUT: DriveFault = DriveFault::NotAnInput { place: 0 };

const TOO_WIDE: DriveFault = DriveFault::TooWide { place: 0 };

const TWICE: DriveFault = DriveFault::Twice { place: 1 };

fn is_refused(rt: &impl Abort, alloc: Global, bench: &[u8], row: &Row) -> Result<(), Fail> {
    let (drives, drawn, fault, name) = *row;
    let answer = text_of(alloc, bench, drives, drawn, 10)?;
    assert!(rt; answer.err() == Some(fault));
    assert!(rt; fault.name() == name);
    Ok(())
}

#[test]
fn faults(rt: HostRuntime) -> Result<(), Fail> {
    for row in &FAULTY {
        is_refused(&rt, rt.alloc(), THREE, row)?;
    }
    for row in &FAULTY_BITS {
        is_refused(&rt, rt.alloc(), BUS, row)?;
    }
    Ok(())
}

// The netlist of one input, whose name has 81 bytes.
fn long_name(alloc: Global) -> Result<Vec<u8>, Fail> {
    let mut bench = Vec::from_slice(alloc, b"INPUT(")?;
    bench.extend_from_slice(&[b'n'; 81])?;
    bench.extend_from_slice(b")\n")?;
    Ok(bench)
}

// A clock that changes at each tick has a line of the digits of the tick and 85 bytes more for each:
// up to tick 185,585 they are 16,777,216 bytes, the most that the reader takes.
#[test]
fn longest_text(rt: HostRuntime) -> Result<(), Fail> {
    let alloc = rt.alloc();
    let bench = long_name(alloc)?;
    let name = [b'n'; 81];
    let drives = [(name.as_slice(), Clock { half: 1 })];
    let text = text_of(alloc, bench.as_slice(), &drives, NONE, 185_585)??;
    assert!(&rt; text.len() == 16_777_216);
    let longer = text_of(alloc, bench.as_slice(), &drives, NONE, 185_586)?;
    assert!(&rt; longer.err() == Some(DriveFault::TooLong));
    Ok(())
}
