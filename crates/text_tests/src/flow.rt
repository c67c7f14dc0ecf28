//! The order in which values flow through small designs, and the loops of gates in it.
use bench_text::read;
use design::{Design, Segment, flow_order, segments_of};
use std::alloc::Global;
use std::process::Abort;
use std::test::Fail;

// Netlists, the numbers of their nets in that order, and its segments.
static ORDERS: [(&[u8], &[u32], &[Segment]); 13] = [
    (
        b"INPUT(a)\nb = NOT(a)\nc = NOT(b)\nd = NOT(c)",
        &[0, 1, 2, 3],
        &[Segment {
            end: 4,
            loops: false,
        }],
    ),
    (
        b"INPUT(a)\ny = NOT(b)\nb = NOT(a)",
        &[0, 2, 1],
        &[Segment {
            end: 3,
            loops: false,
        }],
    ),
    (
        b"q = DFF(n)\nn = NOT(q)\nINPUT(a)",
        &[2, 1, 0],
        &[Segment {
            end: 3,
            loops: false,
        }],
    ),
    (
        b"INPUT(a)\nINPUT(b)",
        &[0, 1],
        &[Segment {
            end: 2,
            loops: false,
        }],
    ),
    // Two ways from a gate to another.
    (
        b"INPUT(a)\ny = AND(b, c)\nc = NOT(b)\nb = NOT(a)",
        &[0, 3, 2, 1],
        &[Segment {
            end: 4,
            loops: false,
        }],
    ),
    // Loops, and gates after them.
    (
        b"y = NOT(y)",
        &[0],
        &[Segment {
            end: 1,
            loops: true,
        }],
    ),
    (
        b"x = NOT(y)\ny = NOT(z)\nz = NOT(x)",
        &[2, 1, 0],
        &[Segment {
            end: 3,
            loops: true,
        }],
    ),
    (
        b"y = NOT(p)\np = NOT(q)\nq = NOT(p)",
        &[2, 1, 0],
        &[
            Segment {
                end: 2,
                loops: true,
            },
            Segment {
                end: 3,
                loops: false,
            },
        ],
    ),
    (
        b"p = NOT(q)\nq = NOT(p)\ny = NOT(q)",
        &[1, 0, 2],
        &[
            Segment {
                end: 2,
                loops: true,
            },
            Segment {
                end: 3,
                loops: false,
            },
        ],
    ),
    (
        b"y = AND(b, b)\nb = OR(y, c)\nc = NOT(b)",
        &[2, 1, 0],
        &[Segment {
            end: 3,
            loops: true,
        }],
    ),
    // A loop that feeds another.
    (
        b"p = NOT(q)\nq = NOT(p)\nr = AND(s, p)\ns = NOT(r)",
        &[1, 0, 3, 2],
        &[
            Segment {
                end: 2,
                loops: true,
            },
            Segment {
                end: 4,
                loops: true,
            },
        ],
    ),
    // Flip-flops come last, whatever feeds them, and make no loops.
    (
        b"p = DFF(q)\nq = DFF(p)",
        &[0, 1],
        &[Segment {
            end: 2,
            loops: false,
        }],
    ),
    (
        b"y = AND(y, b)\nb = NOT(q)\nq = DFF(y)",
        &[1, 0, 2],
        &[
            Segment {
                end: 1,
                loops: false,
            },
            Segment {
                end: 2,
                loops: true,
            },
            Segment {
                end: 3,
                loops: false,
            },
        ],
    ),
];

fn built(alloc: Global, bench: &[u8]) -> Result<Design, Fail> {
    let netlist = read(alloc, bench)?;
    Ok(Design::build(alloc, netlist, b"", b"", 1, 10)?)
}

fn flows(
    rt: &impl Abort,
    alloc: Global,
    design: &Design,
    order: &[u32],
    segments: &[Segment],
) -> Result<(), Fail> {
    let found = flow_order(alloc, design)?;
    assert!(rt; found.as_slice() == order);
    let cut_up = segments_of(alloc, design, found.as_slice())?;
    assert!(rt; cut_up.as_slice() == segments);
    Ok(())
}

#[test]
fn small_designs(rt: HostRuntime) -> Result<(), Fail> {
    for &(bench, order, segments) in &ORDERS {
        let design = built(rt.alloc(), bench)?;
        flows(&rt, rt.alloc(), &design, order, segments)?;
    }
    Ok(())
}
