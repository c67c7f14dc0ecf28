//! Two runs compared at a net, and the two engines compared.
use crate::simulations::INVERTER;
use logic3::{Change, Value, Waveform};
use nullsim::{CheckAnswer, Side, SimFault, Source, TwinAnswer, TwinFault, check, twin};
use std::process::Abort;
use std::test::Fail;
use worked_examples::{S27_BENCH, S27_STIMULI};

const ONE: Source<'static> = Source {
    bench: b"INPUT(a)\nOUTPUT(y)\ny = NOT(a)\nINPUT(b)\nz = AND(a, b)\n",
    stimuli: b"0 a 0\n3 a 1\n0 b 1\n",
    ..INVERTER
};

const OTHER: Source<'static> = Source {
    bench: b"INPUT(c)\nk = BUF(c)\nm = NOT(k)\nz = XOR(a, b)\nINPUT(b)\nINPUT(a)\ny = NOT(a)\n",
    ..ONE
};

const LATER: Source<'static> = Source {
    stimuli: b"0 a 0\n3 a 1\n0 b 1\n6 a 0\n",
    ..OTHER
};

const S27: Source<'static> = Source {
    bench: S27_BENCH,
    stimuli: S27_STIMULI,
    ..INVERTER
};

const UP_AND_DOWN: [Change; 2] = [
    Change {
        tick: 1,
        value: Value::One,
    },
    Change {
        tick: 4,
        value: Value::Zero,
    },
];

const DOWN_AND_UP: [Change; 2] = [
    Change {
        tick: 1,
        value: Value::Zero,
    },
    Change {
        tick: 4,
        value: Value::One,
    },
];

fn answers(rt: &impl Abort, answer: &TwinAnswer, agree: bool, changes: [&[Change]; 2]) {
    let first: &Waveform = &answer.first;
    let second: &Waveform = &answer.second;
    assert!(rt; answer.agree == agree);
    assert!(rt; first.changes() == changes[0]);
    assert!(rt; second.changes() == changes[1]);
}

#[test]
fn twins(rt: HostRuntime) -> Result<(), Fail> {
    for (second, name, agree, first_changes) in [
        (OTHER, b"y", true, UP_AND_DOWN),
        (LATER, b"y", true, UP_AND_DOWN),
        (OTHER, b"z", false, DOWN_AND_UP),
    ] {
        let answer: Result<TwinAnswer, TwinFault> = twin(rt.alloc(), &ONE, &second, name, 5);
        answers(&rt, &answer?, agree, [&first_changes, &UP_AND_DOWN]);
    }
    Ok(())
}

// There are exactly these sides.
fn is_first(side: Side) -> bool {
    match side {
        Side::First => true,
        Side::Second => false,
    }
}

#[test]
fn unknown_names(rt: HostRuntime) -> Result<(), Fail> {
    for (first, second, wanted) in [(ONE, OTHER, true), (OTHER, ONE, false)] {
        let answer: Result<TwinAnswer, TwinFault> = twin(rt.alloc(), &first, &second, b"m", 5);
        let TwinFault { side, fault } = answer.err().ok_or("a fault")?;
        assert!(rt; is_first(side) == wanted);
        assert!(rt; fault == SimFault::UnknownNet);
    }
    Ok(())
}

#[test]
fn checks(rt: HostRuntime) -> Result<(), Fail> {
    for (source, horizon, counted) in [(S27, 35, (17, 21, 17)), (ONE, 5, (4, 3, 4))] {
        let answer: Result<CheckAnswer, SimFault> = check(rt.alloc(), &source, horizon);
        let CheckAnswer { nets, pins, same } = answer?;
        assert!(rt; (nets, pins, same) == counted);
    }
    Ok(())
}
