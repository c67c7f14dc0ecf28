//! Where two waveforms differ first, worked out independently, and the lines of comparisons.
use crate::reasons::circuits::TWO_INPUTS;
use Value::{One, Unknown, Zero};
use design::plain_waves;
use logic3::{Value, Waveform};
use std::process::Abort;
use std::test::Fail;
use timing_text::Horizon;
use wave_diff::{
    Compared, ComparedFault, Comparison, Difference, Side, first_difference, push_line,
};

// The first tick that is compared, the number whose multiples are compared, the horizon, and the tick of the
// first difference with what the two show there.
type Row = ((u64, u64, u64), Option<(u64, Value, Value)>);

// Of an input that shows 1 from 5 to 8 and one that shows 1 from 6 to 8 and from 12 on.
static DIFFERENCES: [Row; 20] = [
    ((0, 1, 20), Some((5, One, Zero))),
    ((5, 1, 5), Some((5, One, Zero))),
    ((6, 1, 20), Some((12, Zero, One))),
    ((6, 1, 11), None),
    ((6, 1, 12), Some((12, Zero, One))),
    ((12, 1, 12), Some((12, Zero, One))),
    ((11, 1, 11), None),
    ((0, 1, 4), None),
    ((0, 2, 20), Some((12, Zero, One))),
    ((0, 5, 20), Some((5, One, Zero))),
    ((1, 5, 20), Some((5, One, Zero))),
    ((6, 5, 20), Some((15, Zero, One))),
    ((6, 5, 14), None),
    ((0, 7, 13), None),
    ((0, 7, 14), Some((14, Zero, One))),
    ((13, 7, 20), Some((14, Zero, One))),
    ((13, 7, 13), None),
    ((5, u64::MAX, u64::MAX - 1), None),
    ((1000, 1, 2000), Some((1000, Zero, One))),
    ((u64::MAX, 2, u64::MAX), None),
];

// Of a waveform that shows X at every tick and the second of these inputs.
static FROM_UNKNOWN: [Row; 3] = [
    ((0, 1, 20), Some((0, Unknown, Zero))),
    ((7, 3, 20), Some((9, Unknown, Zero))),
    ((8, 7, 13), None),
];

// Of two that show X at every tick.
static ALIKE: [Row; 2] = [((0, 1, u64::MAX), None), ((7, 3, 20), None)];

fn difference_of(tick: u64, first: Value, second: Value) -> Difference {
    Difference {
        tick,
        first,
        second,
    }
}

fn differ(rt: &impl Abort, first: &Waveform, second: &Waveform, rows: &[Row]) -> Result<(), Fail> {
    for row in rows {
        let ((from, every, horizon), found) = *row;
        let compared = Compared::new(from, every, horizon)?;
        let wanted = match found {
            Some((tick, first, second)) => Some(difference_of(tick, first, second)),
            None => None,
        };
        assert!(rt; first_difference(first, second, compared) == wanted);
    }
    Ok(())
}

#[test]
fn worked_differences(rt: HostRuntime) -> Result<(), Fail> {
    let design = TWO_INPUTS.build(rt.alloc())?;
    let waves = plain_waves(rt.alloc(), &design, Horizon::new(20)?)?;
    let unknown = Waveform::new(rt.alloc());
    assert!(rt; waves.len() == 2);
    differ(&rt, &waves[0], &waves[1], DIFFERENCES.as_slice())?;
    differ(&rt, &unknown, &waves[1], FROM_UNKNOWN.as_slice())?;
    differ(&rt, &unknown, &unknown, ALIKE.as_slice())?;
    differ(&rt, &waves[0], &waves[0], ALIKE.as_slice())
}

// What can't be compared: the first tick, the number whose multiples are compared, and the horizon.
static FAULTS: [((u64, u64, u64), ComparedFault, &str); 6] = [
    ((0, 0, 20), ComparedFault::BadEvery, "BadEvery"),
    ((21, 0, 20), ComparedFault::BadEvery, "BadEvery"),
    ((21, 1, 20), ComparedFault::PastHorizon, "PastHorizon"),
    ((21, 50, 20), ComparedFault::PastHorizon, "PastHorizon"),
    ((1, 1, 0), ComparedFault::PastHorizon, "PastHorizon"),
    (
        (u64::MAX, 5, u64::MAX - 1),
        ComparedFault::PastHorizon,
        "PastHorizon",
    ),
];

#[test]
fn what_cannot_be_compared(rt: HostRuntime) -> Result<(), Fail> {
    for ((from, every, horizon), fault, name) in &FAULTS {
        assert!(rt; Compared::new(*from, *every, *horizon) == Err(*fault));
        assert!(rt; fault.name() == *name);
    }
    Ok(())
}

// How a net of this name compares, whether it is the same, and its line.
static LINES: [(Comparison, bool, &[u8]); 6] = [
    (Comparison::Same { agree: true }, true, b"y same\n"),
    (
        Comparison::Same { agree: false },
        true,
        b"y same, cones differ\n",
    ),
    (
        Comparison::Differs(Difference {
            tick: 7,
            first: Zero,
            second: Unknown,
        }),
        false,
        b"y differs 7 0 x\n",
    ),
    (
        Comparison::Differs(Difference {
            tick: 12345,
            first: One,
            second: Zero,
        }),
        false,
        b"y differs 12345 1 0\n",
    ),
    (Comparison::OnlyIn(Side::First), false, b"y only in first\n"),
    (
        Comparison::OnlyIn(Side::Second),
        false,
        b"y only in second\n",
    ),
];

#[test]
fn lines_of_comparisons(rt: HostRuntime) -> Result<(), Fail> {
    for (comparison, same, line) in &LINES {
        let mut text = Vec::new(rt.alloc());
        push_line(&mut text, b"y", *comparison)?;
        assert!(rt; text.as_slice() == *line);
        assert!(rt; comparison.is_same() == *same);
    }
    Ok(())
}
