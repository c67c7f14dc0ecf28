//! Dumps of given waveforms.
use crate::circuits::INVERTER;
use design::{Design, Horizon};
use logic3::Waveform;
use std::alloc::Global;
use std::io::Write;
use std::process::Abort;
use std::test::Fail;
use vcd_dump::{DumpFault, TimeUnit, dump};
use worked_examples::Narrow;
use worked_examples::dumps::INVERTER_DUMP;

// There are exactly these units.
fn spelled(unit: TimeUnit) -> &'static str {
    match unit {
        TimeUnit::S => "s",
        TimeUnit::Ms => "ms",
        TimeUnit::Us => "us",
        TimeUnit::Ns => "ns",
        TimeUnit::Ps => "ps",
        TimeUnit::Fs => "fs",
    }
}

// There are exactly these faults.
fn number(fault: DumpFault) -> u8 {
    match fault {
        DumpFault::Write => 1,
        DumpFault::WroteNothing => 2,
        DumpFault::Memory => 3,
        DumpFault::Failed => 4,
    }
}

// The result of the dump of the first net, which is unknown throughout.
fn of_one_net<W: Write>(
    rt: &impl Abort,
    alloc: Global,
    out: &mut W,
    design: &Design,
    unit: TimeUnit,
) -> Result<Result<(), DumpFault>, Fail> {
    assert!(rt; 0 < design.nets());
    let waves: [Waveform; 1] = [Waveform::new(alloc)];
    let horizon: Horizon = Horizon::new(5)?;
    let answer: Result<(), DumpFault> = dump(alloc, out, design, &[0], &waves, horizon, unit);
    Ok(answer)
}

#[test]
fn units(rt: HostRuntime) -> Result<(), Fail> {
    let design: Design = INVERTER.build(rt.alloc())?;
    for unit in [
        TimeUnit::S,
        TimeUnit::Ms,
        TimeUnit::Us,
        TimeUnit::Ns,
        TimeUnit::Ps,
        TimeUnit::Fs,
    ] {
        let mut out = Vec::new(rt.alloc());
        assert!(rt; of_one_net(&rt, rt.alloc(), &mut out, &design, unit)? == Ok(()));
        let spelled = spelled(unit);
        let text = format!(in rt.alloc();
            "$version nullsim 1 $end\n$timescale 1 {spelled} $end\n$scope module top $end\n$var wire 1 ! a $end\n$upscope $end\n$enddefinitions $end\n#0\n$dumpvars\nx!\n$end\n#5\n"
        )?;
        assert!(rt; out.as_slice() == text.as_bytes());
    }
    Ok(())
}

#[test]
fn faults(rt: HostRuntime) -> Result<(), Fail> {
    let design: Design = INVERTER.build(rt.alloc())?;
    for (fails, wanted) in [(true, 1), (false, 2)] {
        let mut out = Narrow::new(rt.alloc(), 40, 7);
        out.fails = fails;
        let answer = of_one_net(&rt, rt.alloc(), &mut out, &design, TimeUnit::Ns)?;
        assert!(rt; answer.err().map(number) == Some(wanted));
        assert!(rt; out.taken.as_slice() == &INVERTER_DUMP[..40]);
    }
    Ok(())
}
