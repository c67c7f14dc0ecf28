//! Schedules, from a text and from a seed.
use crate::circuits::{Circuit, INVERTER, LATE_PIN};
use Event::{Advance, Deliver};
use cmb_events::{Event, Schedule, ScheduleFault};
use design::Design;
use std::alloc::{AllocError, Global};
use std::process::Abort;
use std::test::Fail;

// There is a schedule, and it has exactly these events.
fn gives(rt: &impl Abort, answer: Result<Schedule, ScheduleFault>, events: &[Event]) {
    match answer {
        Ok(schedule) => assert!(rt; schedule.events() == events),
        Err(fault) => assert!(rt; false, "refused with {fault:?}"),
    }
}

fn is_refused(rt: &impl Abort, answer: Result<Schedule, ScheduleFault>, fault: ScheduleFault) {
    assert!(rt; answer.err() == Some(fault));
}

// The result for a schedule's text for a circuit.
fn read_for(
    alloc: Global,
    circuit: Circuit,
    text: &[u8],
) -> Result<Result<Schedule, ScheduleFault>, Fail> {
    let design = circuit.build(alloc)?;
    Ok(Schedule::read(alloc, text, &design))
}

#[test]
fn schedule_faults(rt: HostRuntime) -> Result<(), Fail> {
    for (text, fault) in [
        (b"deliver y 1".as_slice(), ScheduleFault::BadPin { line: 1 }),
        (b"deliver a 0".as_slice(), ScheduleFault::BadPin { line: 1 }),
        (
            b"deliver y 9999999999999999999999999999999999999999999999999999999999999999999999999999999999999999999999999999".as_slice(),
            ScheduleFault::BadPin { line: 1 },
        ),
        (
            b"advance zz".as_slice(),
            ScheduleFault::UnknownNet { line: 1 },
        ),
        (
            b"deliver zz 9".as_slice(),
            ScheduleFault::UnknownNet { line: 1 },
        ),
        (b"Advance y".as_slice(), ScheduleFault::BadLine { line: 1 }),
        (
            b"DELIVER y 0".as_slice(),
            ScheduleFault::BadLine { line: 1 },
        ),
        (b"advance".as_slice(), ScheduleFault::BadLine { line: 1 }),
        (
            b"advance y 0".as_slice(),
            ScheduleFault::BadLine { line: 1 },
        ),
        (b"deliver y".as_slice(), ScheduleFault::BadLine { line: 1 }),
        (
            b"deliver y 0 0".as_slice(),
            ScheduleFault::BadLine { line: 1 },
        ),
        (
            b"deliver zz x".as_slice(),
            ScheduleFault::BadLine { line: 1 },
        ),
        (
            b"deliver y -0".as_slice(),
            ScheduleFault::BadLine { line: 1 },
        ),
        (
            b"advance y \x0B".as_slice(),
            ScheduleFault::BadLine { line: 1 },
        ),
        (
            b"# fine\nadvance y\n\nadvance zz\nAdvance y".as_slice(),
            ScheduleFault::UnknownNet { line: 4 },
        ),
    ] {
        is_refused(&rt, read_for(rt.alloc(), INVERTER, text)?, fault);
    }
    Ok(())
}

#[test]
fn schedules_of_texts(rt: HostRuntime) -> Result<(), Fail> {
    for text in [b"".as_slice(), b"# advance a\n\r\n \t\n".as_slice()] {
        gives(&rt, read_for(rt.alloc(), LATE_PIN, text)?, &[]);
    }
    let text =
        b"advance a # first\r\n\tdeliver  b 0\r\n\r\ndeliver y 00\n# \xFF\ndeliver y 0000000000000000000000000000000001\nadvance y\ndeliver y 1#1";
    let events = [
        Advance(0),
        Deliver(0),
        Deliver(1),
        Deliver(2),
        Advance(2),
        Deliver(2),
    ];
    gives(
        &rt,
        read_for(rt.alloc(), LATE_PIN, text)?,
        events.as_slice(),
    );
    Ok(())
}

// The most bytes that a text may have. The proofs of the tests don't look at the number.
fn most_bytes() -> usize {
    16_777_216
}

// A text of the most bytes that begins like this and continues with the letter `x`.
fn longest(alloc: Global, start: &[u8]) -> Result<Vec<u8>, AllocError> {
    let mut text = Vec::from_slice(alloc, start)?;
    for _ in start.len()..most_bytes() {
        text.push(b'x')?;
    }
    Ok(text)
}

#[test]
fn limit_of_a_schedule_text(rt: HostRuntime) -> Result<(), Fail> {
    let mut text = longest(rt.alloc(), b"advance a\n#")?;
    let answer = read_for(rt.alloc(), INVERTER, text.as_slice())?;
    gives(&rt, answer, &[Advance(0)]);
    text.push(b'x')?;
    let answer = read_for(rt.alloc(), INVERTER, text.as_slice())?;
    is_refused(&rt, answer, ScheduleFault::TooLong);
    Ok(())
}

// This number of events, picked for a circuit.
fn seeded_for(
    alloc: Global,
    circuit: Circuit,
    seed: u64,
    picks: u64,
) -> Result<Result<Schedule, ScheduleFault>, Fail> {
    let design = circuit.build(alloc)?;
    Ok(Schedule::seeded(alloc, seed, picks, &design))
}

// The picks were computed independently, by a few lines of Python after the published algorithms: the
// reference code of PCG-XSH-RR 64/32 (which gives 0xa15c02b7, 0x7b47f409, 0xba1d3330 from state 42 and stream
// 54), seeded as `rand_core` expands a number to a seed.
#[test]
fn seeded_picks(rt: HostRuntime) -> Result<(), Fail> {
    let of_inverter = [
        Deliver(0),
        Advance(1),
        Advance(0),
        Advance(1),
        Advance(1),
        Advance(1),
        Deliver(0),
        Advance(0),
    ];
    let of_late_pin = [
        Advance(2),
        Deliver(2),
        Deliver(1),
        Deliver(0),
        Deliver(0),
        Advance(0),
        Deliver(2),
        Advance(1),
    ];
    for (circuit, seed, events) in [
        (INVERTER, 1, of_inverter.as_slice()),
        (INVERTER, 1, &of_inverter[..1]),
        (INVERTER, 1, &[]),
        (LATE_PIN, 7, of_late_pin.as_slice()),
    ] {
        let answer = seeded_for(rt.alloc(), circuit, seed, events.len() as u64)?;
        gives(&rt, answer, events);
    }
    Ok(())
}

// A hundred thousand events are picked, each of them of a pin or a net of the design.
fn all_exist(rt: &impl Abort, alloc: Global, design: &Design) -> Result<(), Fail> {
    let schedule = Schedule::seeded(alloc, 2026, 100_000, design)?;
    assert!(rt; schedule.events().len() == 100_000);
    for event in schedule.events() {
        let exists = match *event {
            Deliver(pin) => pin < design.pins(),
            Advance(net) => net < design.nets(),
        };
        assert!(rt; exists, "{event:?}");
    }
    Ok(())
}

// Ten million events can be picked, and no more.
fn limit_of_picks(rt: &impl Abort, alloc: Global, design: &Design) -> Result<(), Fail> {
    let most = Schedule::seeded(alloc, 2026, 10_000_000, design)?;
    assert!(rt; most.events().len() == 10_000_000);
    for picks in [10_000_001, u64::MAX] {
        let answer = Schedule::seeded(alloc, 2026, picks, design);
        is_refused(rt, answer, ScheduleFault::TooManyEvents);
    }
    Ok(())
}

#[test]
fn seeded_schedules(rt: HostRuntime) -> Result<(), Fail> {
    let late_pin = LATE_PIN.build(rt.alloc())?;
    all_exist(&rt, rt.alloc(), &late_pin)?;
    limit_of_picks(&rt, rt.alloc(), &late_pin)
}
