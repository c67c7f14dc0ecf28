//! Waveforms and their changes: the input of the inverter, made by two pushes.
use Value::{One, Unknown, Zero};
use logic3::{Change, Value, Waveform};
use std::alloc::{AllocError, Global};
use std::process::Abort;
use std::test::Fail;

const LOW: Change = Change {
    tick: 0,
    value: Zero,
};

const HIGH: Change = Change {
    tick: 3,
    value: One,
};

fn low_and_high(alloc: Global) -> Result<Waveform, AllocError> {
    let mut wave: Waveform = Waveform::new(alloc);
    let first: Result<(), AllocError> = wave.push(LOW);
    first?;
    wave.push(HIGH)?;
    Ok(wave)
}

#[test]
fn a_new_one_is_unknown(rt: HostRuntime) {
    let wave: Waveform = Waveform::new(rt.alloc());
    assert!(rt; wave.before() == Unknown);
    assert!(rt; wave.changes().is_empty());
    assert!(rt; wave.value_at(u64::MAX) == Unknown);
}

fn reads(rt: &impl Abort, wave: &Waveform) {
    let changes: &[Change] = wave.changes();
    assert!(rt; changes == [LOW, HIGH].as_slice());
    for change in changes {
        let tick: u64 = change.tick;
        let value: Value = change.value;
        let shown: Value = wave.value_at(tick);
        assert!(rt; shown == value);
    }
    let before: Value = wave.before();
    assert!(rt; before == Unknown);
}

#[test]
fn readers(rt: HostRuntime) -> Result<(), Fail> {
    let wave: Waveform = low_and_high(rt.alloc())?;
    reads(&rt, &wave);
    assert!(rt; wave.value_at(2) == Zero);
    assert!(rt; wave.value_at(u64::MAX) == One);
    Ok(())
}

// The changes below tick 3 are split off, and then those below tick 4.
fn splits(rt: &impl Abort, wave: &mut Waveform) -> Result<(), AllocError> {
    let split: Vec<Change> = wave.split_below(3)?;
    assert!(rt; split.as_slice() == [LOW].as_slice());
    assert!(rt; wave.before() == Zero);
    assert!(rt; wave.value_at(2) == Zero);
    assert!(rt; wave.changes() == [HIGH].as_slice());
    let none: Vec<Change> = wave.split_below(3)?;
    assert!(rt; none.is_empty());
    let rest: Vec<Change> = wave.split_below(4)?;
    assert!(rt; rest.as_slice() == [HIGH].as_slice());
    assert!(rt; wave.before() == One);
    assert!(rt; wave.changes().is_empty());
    Ok(())
}

#[test]
fn copied_and_split(rt: HostRuntime) -> Result<(), Fail> {
    let mut wave: Waveform = low_and_high(rt.alloc())?;
    let copied: Result<Waveform, AllocError> = wave.copy();
    let copied: Waveform = copied?;
    assert!(rt; copied == wave);
    splits(&rt, &mut wave)?;
    assert!(rt; copied != wave);
    // Without changes they differ by the value before.
    assert!(rt; wave != Waveform::new(rt.alloc()));
    Ok(())
}
