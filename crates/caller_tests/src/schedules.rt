//! Schedules from a text and from a seed, and their faults.
use crate::circuits::{Circuit, INVERTER, LATE_PIN};
use Event::{Advance, Deliver};
use cmb_kernel::{Event, Schedule, ScheduleFault};
use design::Design;
use std::alloc::Global;
use std::process::Abort;
use std::test::Fail;

// There are exactly these faults, with their lines.
fn line(fault: ScheduleFault) -> u64 {
    match fault {
        ScheduleFault::TooLong | ScheduleFault::TooManyEvents | ScheduleFault::Memory => 0,
        ScheduleFault::BadLine { line }
        | ScheduleFault::UnknownNet { line }
        | ScheduleFault::BadPin { line } => line,
    }
}

// The result of a text for a circuit: the line and the fault of a refusal.
fn refusal(alloc: Global, circuit: Circuit, text: &[u8]) -> Result<Option<ScheduleFault>, Fail> {
    let design: Design = circuit.build(alloc)?;
    let answer: Result<Schedule, ScheduleFault> = Schedule::read(alloc, text, &design);
    Ok(answer.err())
}

static REFUSED: [(&[u8], ScheduleFault); 5] = [
    (b"deliver y 1", ScheduleFault::BadPin { line: 1 }),
    (b"\ndeliver a 0", ScheduleFault::BadPin { line: 2 }),
    (b"Advance y", ScheduleFault::BadLine { line: 1 }),
    (b"advance zz", ScheduleFault::UnknownNet { line: 1 }),
    (
        b"advance y\n# none\nadvance",
        ScheduleFault::BadLine { line: 3 },
    ),
];

#[test]
fn refused_texts(rt: HostRuntime) -> Result<(), Fail> {
    for &(text, wanted) in &REFUSED {
        let fault: Option<ScheduleFault> = refusal(rt.alloc(), INVERTER, text)?;
        assert!(rt; fault == Some(wanted));
        assert!(rt; line(wanted) > 0);
    }
    Ok(())
}

fn gives(rt: &impl Abort, schedule: &Schedule, wanted: &[Event]) {
    let events: &[Event] = schedule.events();
    assert!(rt; events == wanted);
}

#[test]
fn of_a_text(rt: HostRuntime) -> Result<(), Fail> {
    let design: Design = LATE_PIN.build(rt.alloc())?;
    let text = b"advance a # first\n\tdeliver  y 1\r\n\ndeliver b 00\n";
    let schedule: Schedule = Schedule::read(rt.alloc(), text, &design)?;
    gives(&rt, &schedule, &[Advance(0), Deliver(2), Deliver(0)]);
    Ok(())
}

// The picks were computed independently, by the published algorithm of PCG-XSH-RR 64/32.
#[test]
fn of_a_seed(rt: HostRuntime) -> Result<(), Fail> {
    let design: Design = INVERTER.build(rt.alloc())?;
    let answer: Result<Schedule, ScheduleFault> = Schedule::seeded(rt.alloc(), 1, 4, &design);
    let schedule: Schedule = answer?;
    let picks = [Deliver(0), Advance(1), Advance(0), Advance(1)];
    gives(&rt, &schedule, &picks);
    let refused = Schedule::seeded(rt.alloc(), 1, 10_000_001, &design).err();
    assert!(rt; refused == Some(ScheduleFault::TooManyEvents));
    Ok(())
}
