//! Many nets over ten million ticks, by `simulate` and `twin`, which use the kernel. The plain engine would
//! have to compute 200,000,000,000 values here, and a test has a minute.
use crate::numbers::push_number;
use kernel_runs::{TwinAnswer, TwinFault, simulate, twin};
use logic3::{Change, Value, Waveform};
use prepared_runs::{Picks, Show, Source, View};
use std::alloc::{AllocError, Global};
use std::process::Abort;
use std::test::Fail;
use vcd_dump::TimeUnit;

// An input, and this number of gates that invert it, the first of them an output.
fn inverters(alloc: Global, count: u32) -> Result<Vec<u8>, AllocError> {
    let mut text = Vec::from_slice(alloc, b"INPUT(a)\nOUTPUT(y0)\n")?;
    for number in 0..count {
        push_inverter(&mut text, number)?;
    }
    Ok(text)
}

fn push_inverter(text: &mut Vec<u8>, number: u32) -> Result<(), AllocError> {
    text.push(b'y')?;
    push_number(text, number)?;
    text.extend_from_slice(b" = NOT(a)\n")
}

// The input is 0, and 1 from tick 5,000,000 on; each gate has a delay of a million ticks.
fn driven(bench: &[u8]) -> Source<'_> {
    Source {
        bench,
        delays: b"",
        stimuli: b"0 a 0\n5000000 a 1\n",
        default_delay: 1_000_000,
        period: 10,
        picks: Picks::Nothing,
    }
}

// The last tick of the runs. The proofs of the tests don't look at the number.
fn last_tick() -> u64 {
    10_000_000
}

// What the run of a text writes of its output.
fn dump_of(alloc: Global, bench: &[u8]) -> Result<Vec<u8>, Fail> {
    let view = View {
        horizon: last_tick(),
        show: Show::Outputs,
        unit: TimeUnit::Ns,
    };
    let mut out = Vec::new(alloc);
    simulate(alloc, &driven(bench), &view, &mut out)?;
    Ok(out)
}

const DUMP: &[u8] =
    b"$version nullsim 1 $end\n$timescale 1 ns $end\n$scope module top $end\n$var wire 1 ! y0 $end\n$upscope $end\n$enddefinitions $end\n#0\n$dumpvars\nx!\n$end\n#1000000\n1!\n#6000000\n0!\n#10000000\n";

#[test]
fn a_run(rt: HostRuntime) -> Result<(), Fail> {
    let bench = inverters(rt.alloc(), 20_000)?;
    let out = dump_of(rt.alloc(), bench.as_slice())?;
    assert!(rt; out.as_slice() == DUMP);
    Ok(())
}

// What two runs of a text show of its output.
fn twins_of(alloc: Global, bench: &[u8]) -> Result<TwinAnswer, TwinFault> {
    let source = driven(bench);
    twin(alloc, &source, &source, b"y0", last_tick())
}

const RISE: Change = Change {
    tick: 1_000_000,
    value: Value::One,
};

const FALL: Change = Change {
    tick: 6_000_000,
    value: Value::Zero,
};

fn rises_and_falls(rt: &impl Abort, wave: &Waveform) {
    assert!(rt; wave.changes() == [RISE, FALL].as_slice());
}

#[test]
fn two_runs(rt: HostRuntime) -> Result<(), Fail> {
    let bench = inverters(rt.alloc(), 20_000)?;
    let answer = twins_of(rt.alloc(), bench.as_slice())?;
    assert!(rt; answer.agree);
    rises_and_falls(&rt, &answer.first);
    rises_and_falls(&rt, &answer.second);
    Ok(())
}

// This number of inputs.
fn inputs(alloc: Global, count: u32) -> Result<Vec<u8>, AllocError> {
    let mut text = Vec::new(alloc);
    for number in 0..count {
        text.extend_from_slice(format!(in alloc; "INPUT(n{number})\n")?.as_bytes())?;
    }
    Ok(text)
}

// Each shown net has a line for its name and one for its first value; there are eight other lines.
#[test]
fn ten_thousand_nets(rt: HostRuntime) -> Result<(), Fail> {
    let bench = inputs(rt.alloc(), 10_000)?;
    let source = Source {
        stimuli: b"",
        ..driven(bench.as_slice())
    };
    let view = View {
        horizon: 0,
        show: Show::All,
        unit: TimeUnit::Ns,
    };
    let mut out = Vec::new(rt.alloc());
    simulate(rt.alloc(), &source, &view, &mut out)?;
    let lines = out.iter().filter(|byte| **byte == b'\n').count();
    assert!(rt; lines == 20_008);
    Ok(())
}

// A gate that changes at each tick from 1 on.
#[test]
fn a_hundred_thousand_changes(rt: HostRuntime) -> Result<(), Fail> {
    let source = Source {
        stimuli: b"0 e 0\n1 e 1\n",
        default_delay: 1,
        ..driven(b"INPUT(e)\ny = NAND(e, y)\n")
    };
    let answer = twin(rt.alloc(), &source, &source, b"y", 100_000)?;
    assert!(rt; answer.agree);
    assert!(rt; answer.first.changes().len() == 100_000);
    assert!(rt; answer.second.changes().len() == 100_000);
    Ok(())
}
