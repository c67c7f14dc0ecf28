//! Processes step by step: that of an AND, and that of a flip-flop.
use crate::circuits::{CROSSING, SAMPLER};
use Message::Null;
use Step::{Drains, Keeps, Knows, PinKnows, Receives, Tells};
use Value::{One, Unknown, Zero};
use cmb_channels::Message;
use design::{Design, Horizon};
use gate_process::Process;
use logic3::{Change, Value, Waveform};
use std::alloc::{AllocError, Global};
use std::process::Abort;
use std::test::Fail;

// A pin receives messages; an advance returns these; the ticks known of all pins, and those known of the net;
// what a pin knows, and its last value; the changes before a tick are taken out; the value before the changes
// that are kept, and those changes.
#[derive(Clone, Copy)]
enum Step {
    Receives(u32, &'static [Message]),
    Tells(&'static [Message]),
    Knows(u64, u64),
    PinKnows(u32, u64, Value),
    Drains(u64, &'static [Change]),
    Keeps(Value, &'static [Change]),
}

fn receive_change(
    rt: &impl Abort,
    process: &mut Process,
    place: u32,
    change: Change,
) -> Result<(), Fail> {
    assert!(rt; !process.is_failed());
    assert!(rt; place < process.pins());
    let received: u64 = process.received(place);
    let last: Value = process.last(place);
    let end: u64 = process.end();
    assert!(rt; received <= change.tick);
    assert!(rt; change.tick < end);
    assert!(rt; change.value != last);
    let answer: Result<(), AllocError> = process.receive(place, Message::Change(change));
    answer?;
    Ok(())
}

fn receive_null(
    rt: &impl Abort,
    process: &mut Process,
    place: u32,
    bound: u64,
) -> Result<(), Fail> {
    assert!(rt; !process.is_failed());
    assert!(rt; place < process.pins());
    let received: u64 = process.received(place);
    let end: u64 = process.end();
    assert!(rt; received < bound);
    assert!(rt; bound <= end);
    process.receive(place, Null(bound))?;
    Ok(())
}

fn receive(
    rt: &impl Abort,
    process: &mut Process,
    place: u32,
    messages: &[Message],
) -> Result<(), Fail> {
    for message in messages {
        match *message {
            Message::Change(change) => receive_change(rt, process, place, change)?,
            Null(bound) => receive_null(rt, process, place, bound)?,
        }
    }
    Ok(())
}

fn tell(rt: &impl Abort, process: &mut Process, wanted: &[Message]) -> Result<(), Fail> {
    assert!(rt; !process.is_failed());
    let news: Vec<Message> = process.advance()?;
    assert!(rt; news.as_slice() == wanted);
    Ok(())
}

fn drain(
    rt: &impl Abort,
    process: &mut Process,
    bound: u64,
    wanted: &[Change],
) -> Result<(), Fail> {
    assert!(rt; !process.is_failed());
    assert!(rt; bound <= process.frontier());
    let changes: Vec<Change> = process.drain_below(bound)?;
    assert!(rt; changes.as_slice() == wanted);
    Ok(())
}

// A step that changes nothing.
fn look(rt: &impl Abort, process: &Process, step: Step) {
    assert!(rt; !process.is_failed());
    match step {
        Knows(wanted, known) => {
            let safe: u64 = process.safe();
            let frontier: u64 = process.frontier();
            assert!(rt; (safe, frontier) == (wanted, known));
        }
        PinKnows(place, wanted, value) => {
            assert!(rt; place < process.pins());
            assert!(rt; process.received(place) == wanted);
            assert!(rt; process.last(place) == value);
        }
        Keeps(before, changes) => {
            let wave: &Waveform = process.waveform();
            assert!(rt; wave.before() == before);
            assert!(rt; wave.changes() == changes);
        }
        _ => {}
    }
}

fn take(rt: &impl Abort, process: &mut Process, step: Step) -> Result<(), Fail> {
    match step {
        Receives(place, messages) => receive(rt, process, place, messages),
        Tells(messages) => tell(rt, process, messages),
        Drains(bound, changes) => drain(rt, process, bound, changes),
        _ => {
            look(rt, process, step);
            Ok(())
        }
    }
}

// The process of a net up to a horizon takes these steps.
fn follow(
    rt: &impl Abort,
    alloc: Global,
    design: &Design,
    net: u32,
    horizon: u64,
    steps: &[Step],
) -> Result<(), Fail> {
    assert!(rt; net < design.nets());
    let horizon: Horizon = Horizon::new(horizon)?;
    let made: Result<Process, AllocError> = Process::new(alloc, design, net, horizon);
    let mut process: Process = made?;
    for step in steps {
        take(rt, &mut process, *step)?;
    }
    Ok(())
}

const HIGH_AT_0: Change = Change {
    tick: 0,
    value: One,
};

const LOW_AT_0: Change = Change {
    tick: 0,
    value: Zero,
};

const LOW_AT_1: Change = Change {
    tick: 1,
    value: Zero,
};

const HIGH_AT_4: Change = Change {
    tick: 4,
    value: One,
};

const LOW_AT_4: Change = Change {
    tick: 4,
    value: Zero,
};

const HIGH_AT_5: Change = Change {
    tick: 5,
    value: One,
};

const LOW_AT_5: Change = Change {
    tick: 5,
    value: Zero,
};

const LOW_AT_9: Change = Change {
    tick: 9,
    value: Zero,
};

// Its second pin lags, and what the first one knows settles it from tick 5 on.
const AND: [Step; 14] = [
    Receives(
        0,
        &[
            Message::Change(HIGH_AT_0),
            Message::Change(LOW_AT_4),
            Null(7),
        ],
    ),
    Knows(0, 0),
    PinKnows(0, 7, Zero),
    PinKnows(1, 0, Unknown),
    Tells(&[Null(1)]),
    Receives(1, &[Message::Change(LOW_AT_0)]),
    Tells(&[Message::Change(LOW_AT_1)]),
    Receives(1, &[Message::Change(HIGH_AT_4)]),
    Knows(5, 2),
    Tells(&[Null(7)]),
    Receives(1, &[Null(7)]),
    Tells(&[]),
    Knows(7, 7),
    Keeps(Unknown, &[LOW_AT_1]),
];

#[test]
fn and_process(rt: HostRuntime) -> Result<(), Fail> {
    let design: Design = CROSSING.build(rt.alloc())?;
    follow(&rt, rt.alloc(), &design, 2, 6, &AND)
}

const FLOP: [Step; 11] = [
    Tells(&[Null(5)]),
    Receives(0, &[Message::Change(HIGH_AT_4)]),
    Tells(&[Message::Change(HIGH_AT_5), Null(9)]),
    Receives(0, &[Message::Change(LOW_AT_5)]),
    Tells(&[]),
    Receives(0, &[Null(10)]),
    Tells(&[Message::Change(LOW_AT_9)]),
    Keeps(Unknown, &[HIGH_AT_5, LOW_AT_9]),
    Drains(9, &[HIGH_AT_5]),
    Keeps(One, &[LOW_AT_9]),
    Knows(10, 10),
];

#[test]
fn flop_process(rt: HostRuntime) -> Result<(), Fail> {
    let design: Design = SAMPLER.build(rt.alloc())?;
    follow(&rt, rt.alloc(), &design, 1, 9, &FLOP)
}
