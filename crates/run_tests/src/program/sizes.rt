//! Wide circuits, far horizons and long schedules through `command`.
use crate::numbers::push_number;
use crate::program::shelf::{Named, status_over};
use std::alloc::{AllocError, Global};
use std::process::Abort;
use std::test::Fail;

// This number of inputs, each with a gate that inverts it.
fn inverters(alloc: Global, count: u32) -> Result<Vec<u8>, AllocError> {
    let mut text = Vec::new(alloc);
    for number in 0..count {
        push_inverter(&mut text, number)?;
    }
    Ok(text)
}

fn push_inverter(text: &mut Vec<u8>, number: u32) -> Result<(), AllocError> {
    for part in [
        b"INPUT(a".as_slice(),
        b")\ny".as_slice(),
        b" = NOT(a".as_slice(),
    ] {
        text.extend_from_slice(part)?;
        push_number(text, number)?;
    }
    text.extend_from_slice(b")\n")
}

// A call over these texts is done. Standard output ends with `end`, and this is all of standard error.
fn answers(
    rt: &impl Abort,
    alloc: Global,
    texts: &[Named<'_>],
    line: &str,
    end: &[u8],
    message: &[u8],
) -> Vec<u8> {
    let (mut out, mut err) = (Vec::new(alloc), Vec::new(alloc));
    let status = status_over(alloc, texts, line, &mut out, &mut err);
    let is_said = err.as_slice() == message;
    assert!(rt;
        status == Some(0) && out.ends_with(end) && is_said,
        "at {line}"
    );
    out
}

// 50,000 inverters over ten million ticks, for which the plain engine would take hours.
#[test]
fn a_wide_run(rt: HostRuntime) -> Result<(), Fail> {
    let bench = inverters(rt.alloc(), 50_000)?;
    let texts = [
        ("wide.bench", bench.as_slice()),
        ("low.stim", b"0 a0 0\n".as_slice()),
    ];
    let line = "run --bench wide.bench --stimuli low.stim --horizon 10000000 --counts";
    let end = b"\n$end\n#1\n1\"\n#10000000\n";
    let counts = b"events 250001 changes 2 nulls 150000 rounds 2\n";
    answers(&rt, rt.alloc(), &texts, line, end, counts);
    Ok(())
}

// The same circuit twice.
#[test]
fn a_wide_twin(rt: HostRuntime) -> Result<(), Fail> {
    let bench = inverters(rt.alloc(), 50_000)?;
    let texts = [
        ("wide.bench", bench.as_slice()),
        ("low.stim", b"0 a0 0\n".as_slice()),
    ];
    let line =
        "twin --first wide.bench --first-stimuli low.stim --second wide.bench --second-stimuli low.stim --net y0 --horizon 10000000";
    let agree = b"agree yes\nfirst 1 1\nsecond 1 1\n";
    let out = answers(&rt, rt.alloc(), &texts, line, agree, b"");
    assert!(rt; out.len() == agree.len());
    Ok(())
}

// One useful event, and a million useless ones.
#[test]
fn idle_events(rt: HostRuntime) -> Result<(), Fail> {
    let mut schedule = Vec::new(rt.alloc());
    for _event in 0..1_000_001u32 {
        schedule.extend_from_slice(b"advance y\n")?;
    }
    let texts = [
        ("inv.bench", b"INPUT(a)\ny = NOT(a)\n".as_slice()),
        ("inv.stim", b"0 a 0\n3 a 1\n".as_slice()),
        ("idle.sched", schedule.as_slice()),
    ];
    let line =
        "run --bench inv.bench --stimuli inv.stim --schedule idle.sched --horizon 5 --counts";
    let end = b"$end\n#1\n1\"\n#3\n1!\n#4\n0\"\n#5\n";
    let counts = b"events 1000008 changes 4 nulls 3 rounds 2\n";
    answers(&rt, rt.alloc(), &texts, line, end, counts);
    Ok(())
}
