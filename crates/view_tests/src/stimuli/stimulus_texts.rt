//! Texts of small circuits. The words of the generator were computed from its published algorithm (PCG's XSH
//! RR with 64 bits of state, seeded as `rand_core` expands a number to a seed), independently of this
//! repository: an odd word is a 1. For the first seeds the words are, by their last bits, 0: 1110 1100 0010
//! .., 1: 0010 1000 0010 1010 .., 7: 10100 .., 42: 0000 0101 1111 ...
use crate::stimuli::circuits::{BUS, COUNTER, Drawn, INVERTER, NONE, THREE, text_of};
use Drive::{Clock, ClockFrom, Hold, HoldBits, Pulse};
use Value::{One, Unknown, Zero};
use drawn_stimuli::Drive;
use logic3::Value;
use std::alloc::Global;
use std::process::Abort;
use std::test::Fail;
use worked_examples::S27_BENCH;

// A netlist, its drives, its draws, the horizon, and the text.
type Row = (
    &'static [u8],
    &'static [(&'static [u8], Drive)],
    Drawn,
    u64,
    &'static [u8],
);

static DRIVEN: [Row; 17] = [
    (
        INVERTER,
        &[(b"a", Clock { half: 3 })],
        NONE,
        7,
        b"0 a 0\n3 a 1\n6 a 0\n",
    ),
    (
        INVERTER,
        &[(b"a", Clock { half: 3 })],
        NONE,
        6,
        b"0 a 0\n3 a 1\n6 a 0\n",
    ),
    (
        INVERTER,
        &[(b"a", Clock { half: 3 })],
        NONE,
        5,
        b"0 a 0\n3 a 1\n",
    ),
    (
        INVERTER,
        &[(b"a", Clock { half: 1 })],
        NONE,
        3,
        b"0 a 0\n1 a 1\n2 a 0\n3 a 1\n",
    ),
    (
        INVERTER,
        &[(b"a", Clock { half: u64::MAX })],
        NONE,
        9,
        b"0 a 0\n",
    ),
    (
        INVERTER,
        &[(b"a", Pulse { from: 2, to: 5 })],
        NONE,
        9,
        b"0 a 0\n2 a 1\n5 a 0\n",
    ),
    (
        INVERTER,
        &[(b"a", Pulse { from: 2, to: 5 })],
        NONE,
        4,
        b"0 a 0\n2 a 1\n",
    ),
    (
        INVERTER,
        &[(b"a", Pulse { from: 0, to: 1 })],
        NONE,
        4,
        b"0 a 1\n1 a 0\n",
    ),
    (
        INVERTER,
        &[(
            b"a",
            Pulse {
                from: 5,
                to: u64::MAX,
            },
        )],
        NONE,
        4,
        b"0 a 0\n",
    ),
    // Pulses of one input, the second in the first and beside the third.
    (
        INVERTER,
        &[
            (b"a", Pulse { from: 3, to: 5 }),
            (b"a", Pulse { from: 4, to: 5 }),
            (b"a", Pulse { from: 5, to: 6 }),
            (b"a", Pulse { from: 0, to: 1 }),
        ],
        NONE,
        9,
        b"0 a 1\n1 a 0\n3 a 1\n6 a 0\n",
    ),
    (
        INVERTER,
        &[(
            b"a",
            ClockFrom {
                half: 4,
                first: 1,
                begins_high: false,
            },
        )],
        NONE,
        9,
        b"0 a 0\n1 a 1\n5 a 0\n9 a 1\n",
    ),
    (
        INVERTER,
        &[(
            b"a",
            ClockFrom {
                half: 1,
                first: u64::MAX,
                begins_high: false,
            },
        )],
        NONE,
        9,
        b"0 a 0\n",
    ),
    (INVERTER, &[(b"a", Hold(Unknown))], NONE, 9, b""),
    (INVERTER, &[(b"a", Hold(One))], NONE, 0, b"0 a 1\n"),
    // In the order of inputs, whatever the order of drives.
    (
        THREE,
        &[
            (b"a", Hold(Zero)),
            (b"b", Clock { half: 2 }),
            (b"c", Clock { half: 4 }),
        ],
        NONE,
        4,
        b"0 c 0\n0 b 0\n0 a 0\n2 b 1\n4 c 1\n4 b 0\n",
    ),
    // Ticks far apart.
    (
        INVERTER,
        &[(b"a", Clock { half: 4_000_000 })],
        (0, 10_000_000),
        10_000_000,
        b"0 a 0\n4000000 a 1\n8000000 a 0\n",
    ),
    (COUNTER, &[], NONE, 3, b""),
];

static HELD: [Row; 12] = [
    // Clocks that begin at 1.
    (
        INVERTER,
        &[(
            b"a",
            ClockFrom {
                half: 4,
                first: 1,
                begins_high: true,
            },
        )],
        NONE,
        9,
        b"0 a 1\n1 a 0\n5 a 1\n9 a 0\n",
    ),
    (
        INVERTER,
        &[(
            b"a",
            ClockFrom {
                half: 3,
                first: 0,
                begins_high: true,
            },
        )],
        NONE,
        7,
        b"0 a 0\n3 a 1\n6 a 0\n",
    ),
    // Bits of one input.
    (
        INVERTER,
        &[(
            b"a",
            HoldBits {
                ones: 1,
                unknown: 0,
            },
        )],
        NONE,
        9,
        b"0 a 1\n",
    ),
    (
        INVERTER,
        &[(
            b"a",
            HoldBits {
                ones: 1,
                unknown: 1,
            },
        )],
        NONE,
        9,
        b"",
    ),
    // 110, from the first bit of the range to the last.
    (
        BUS,
        &[(
            b"d[2:0]",
            HoldBits {
                ones: 6,
                unknown: 0,
            },
        )],
        NONE,
        9,
        b"0 d[1] 1\n0 d[0] 0\n0 d[2] 1\n",
    ),
    (
        BUS,
        &[(
            b"d[0:2]",
            HoldBits {
                ones: 6,
                unknown: 0,
            },
        )],
        NONE,
        9,
        b"0 d[1] 1\n0 d[0] 1\n0 d[2] 0\n",
    ),
    // 0x1, with a 1 in the place of the X too.
    (
        BUS,
        &[(
            b"d[2:0]",
            HoldBits {
                ones: 3,
                unknown: 2,
            },
        )],
        NONE,
        9,
        b"0 d[0] 1\n0 d[2] 0\n",
    ),
    // 0 has as many bits as are needed.
    (
        BUS,
        &[(
            b"d[2:0]",
            HoldBits {
                ones: 0,
                unknown: 0,
            },
        )],
        NONE,
        9,
        b"0 d[1] 0\n0 d[0] 0\n0 d[2] 0\n",
    ),
    // One value, a clock and pulses for each input of a range.
    (
        BUS,
        &[(b"d[2:0]", Hold(One))],
        NONE,
        9,
        b"0 d[1] 1\n0 d[0] 1\n0 d[2] 1\n",
    ),
    (
        BUS,
        &[(b"d[1:0]", Clock { half: 2 }), (b"d[2:2]", Hold(Zero))],
        NONE,
        4,
        b"0 d[1] 0\n0 d[0] 0\n0 d[2] 0\n2 d[1] 1\n2 d[0] 1\n4 d[1] 0\n4 d[0] 0\n",
    ),
    (
        BUS,
        &[
            (b"d[2:0]", Pulse { from: 1, to: 2 }),
            (b"d[1]", Pulse { from: 2, to: 3 }),
        ],
        NONE,
        9,
        b"0 d[1] 0\n0 d[0] 0\n0 d[2] 0\n1 d[1] 1\n1 d[0] 1\n1 d[2] 1\n2 d[0] 0\n2 d[2] 0\n3 d[1] 0\n",
    ),
    // An input with exactly the name, which looks like a range.
    (
        b"INPUT(d[1:0])\nINPUT(d[0])\nINPUT(d[1])\n",
        &[
            (b"d[0:1]", Hold(Zero)),
            (
                b"d[1:0]",
                HoldBits {
                    ones: 1,
                    unknown: 0,
                },
            ),
        ],
        NONE,
        9,
        b"0 d[1:0] 1\n0 d[0] 0\n0 d[1] 0\n",
    ),
];

static DRAWN: [Row; 9] = [
    (INVERTER, &[], (7, 5), 20, b"0 a 1\n5 a 0\n10 a 1\n15 a 0\n"),
    (INVERTER, &[], (7, 5), 9, b"0 a 1\n5 a 0\n"),
    (INVERTER, &[], (7, 1), 0, b"0 a 1\n"),
    (INVERTER, &[], (u64::MAX, u64::MAX), 9, b"0 a 0\n"),
    (
        S27_BENCH,
        &[],
        (1, 1),
        3,
        b"0 G0 0\n0 G1 0\n0 G2 1\n0 G3 0\n\
          1 G0 1\n1 G2 0\n\
          2 G0 0\n2 G2 1\n\
          3 G0 1\n",
    ),
    (
        S27_BENCH,
        &[],
        (1, 1),
        0,
        b"0 G0 0\n0 G1 0\n0 G2 1\n0 G3 0\n",
    ),
    // Three of the four are drawn: 000, 001 and 011.
    (
        S27_BENCH,
        &[(b"G0", Clock { half: 4 })],
        (42, 6),
        13,
        b"0 G0 0\n0 G1 0\n0 G2 0\n0 G3 0\n\
          4 G0 1\n\
          6 G3 1\n\
          8 G0 0\n\
          12 G0 1\n12 G2 1\n",
    ),
    // Two of them: 00, 10 and 10.
    (
        S27_BENCH,
        &[
            (b"G2", Pulse { from: 3, to: 8 }),
            (b"G0", Clock { half: 4 }),
        ],
        (1, 6),
        13,
        b"0 G0 0\n0 G1 0\n0 G2 0\n0 G3 0\n\
          3 G2 1\n\
          4 G0 1\n\
          6 G1 1\n\
          8 G0 0\n8 G2 0\n\
          12 G0 1\n",
    ),
    // An input that is held x takes no word: 11, 10 and 11.
    (
        THREE,
        &[(b"b", Hold(Unknown))],
        (0, 2),
        5,
        b"0 c 1\n0 a 1\n2 a 0\n4 a 1\n",
    ),
];

fn gives(rt: &impl Abort, alloc: Global, row: &Row) -> Result<(), Fail> {
    let (bench, drives, drawn, ticks, wanted) = *row;
    let text = text_of(alloc, bench, drives, drawn, ticks)??;
    assert!(rt; text.as_slice() == wanted);
    Ok(())
}

#[test]
fn driven_texts(rt: HostRuntime) -> Result<(), Fail> {
    for row in &DRIVEN {
        gives(&rt, rt.alloc(), row)?;
    }
    Ok(())
}

#[test]
fn drawn_texts(rt: HostRuntime) -> Result<(), Fail> {
    for row in &DRAWN {
        gives(&rt, rt.alloc(), row)?;
    }
    Ok(())
}

#[test]
fn held_texts(rt: HostRuntime) -> Result<(), Fail> {
    for row in &HELD {
        gives(&rt, rt.alloc(), row)?;
    }
    Ok(())
}
