//! Agreement of designs that differ in delays and periods; cones and extracts are in `caller_tests`.
use crate::circuits::Circuit;
use design::Design;
use fanin_cone::{agree, agreeing_cones};
use std::alloc::Global;
use std::process::Abort;
use std::test::Fail;
use timing_text::Horizon;

const FIRST: Circuit = Circuit {
    bench: b"INPUT(a)\nOUTPUT(y)\ny = NOT(a)\nINPUT(b)\nz = AND(a, b)\n",
    delays: b"",
    stimuli: b"0 a 0\n3 a 1\n0 b 1\n",
    period: 10,
};

/// Another circuit with the same net `y`, driven alike.
const SECOND: Circuit = Circuit {
    bench: b"INPUT(c)\nk = BUF(c)\nm = NOT(k)\nz = XOR(a, b)\nINPUT(b)\nINPUT(a)\ny = NOT(a)\n",
    ..FIRST
};

/// The delay of a net outside the cone of `y` and a period without a flip-flop.
const BESIDE: Circuit = Circuit {
    delays: b"z 7\n",
    period: 4,
    ..SECOND
};

const SLOWER: Circuit = Circuit {
    delays: b"y 2\n",
    ..SECOND
};

const FLOP: Circuit = Circuit {
    bench: b"INPUT(d)\nq = DFF(d)\n",
    stimuli: b"",
    ..FIRST
};

const OTHER_FLOP: Circuit = Circuit { period: 4, ..FLOP };

/// A net that feeds itself through a flip-flop, and one beside the loop.
const LOOP: Circuit = Circuit {
    bench: b"INPUT(e)\ny = NAND(e, q)\nq = DFF(y)\nw = NOT(e)\n",
    stimuli: b"",
    ..FIRST
};

/// Its flip-flop samples the input.
const OTHER_LOOP: Circuit = Circuit {
    bench: b"INPUT(e)\ny = NAND(e, q)\nq = DFF(e)\nw = NOT(e)\n",
    ..LOOP
};

// Two circuits, and for each net of the first whether they agree on its cone.
static MARKS: [(Circuit, Circuit, [bool; 4]); 4] = [
    (FIRST, BESIDE, [true, true, true, false]),
    (FIRST, SLOWER, [true, false, true, false]),
    (LOOP, OTHER_LOOP, [true, false, false, true]),
    (LOOP, LOOP, [true, true, true, true]),
];

// What `agree` returns for two circuits and a name.
fn agree_so(
    rt: &impl Abort,
    alloc: Global,
    sides: (Circuit, Circuit),
    name: &[u8],
    horizon: u64,
    answer: Option<bool>,
) -> Result<(), Fail> {
    let first = sides.0.build(alloc)?;
    let second = sides.1.build(alloc)?;
    designs_agree_so(rt, alloc, (&first, &second), name, horizon, answer)
}

fn designs_agree_so(
    rt: &impl Abort,
    alloc: Global,
    sides: (&Design, &Design),
    name: &[u8],
    horizon: u64,
    answer: Option<bool>,
) -> Result<(), Fail> {
    let horizon = Horizon::new(horizon)?;
    let found = agree(alloc, sides.0, sides.1, name, horizon)?;
    assert!(rt; found == answer);
    Ok(())
}

#[test]
fn cones_that_agree(rt: HostRuntime) -> Result<(), Fail> {
    for &(first, second, wanted) in &MARKS {
        let first = first.build(rt.alloc())?;
        let second = second.build(rt.alloc())?;
        let marks = agreeing_cones(rt.alloc(), &first, &second, Horizon::new(5)?)?;
        assert!(rt; marks.as_slice() == wanted.as_slice());
    }
    Ok(())
}

#[test]
fn agreement_with_others(rt: HostRuntime) -> Result<(), Fail> {
    for (second, answer) in [(BESIDE, true), (SLOWER, false)] {
        let sides = (FIRST, second);
        agree_so(&rt, rt.alloc(), sides, b"y", 5, Some(answer))?;
    }
    Ok(())
}

#[test]
fn agreement_of_flops(rt: HostRuntime) -> Result<(), Fail> {
    for (name, answer) in [(b"d", true), (b"q", false)] {
        let sides = (FLOP, OTHER_FLOP);
        agree_so(&rt, rt.alloc(), sides, name, 5, Some(answer))?;
    }
    Ok(())
}
