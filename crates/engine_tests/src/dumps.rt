//! The dump of no net, by a direct call.
use crate::circuits::INVERTER;
use design::Design;
use std::alloc::Global;
use std::process::Abort;
use std::test::Fail;
use timing_text::Horizon;
use vcd_dump::{TimeUnit, dump};

// The dump of no net up to tick 5.
fn of_no_net(rt: &impl Abort, alloc: Global, design: &Design, horizon: Horizon) {
    let mut out = Vec::new(alloc);
    let answer = dump(alloc, &mut out, design, &[], &[], horizon, TimeUnit::Us);
    assert!(rt; answer == Ok(()));
    let text =
        b"$version nullsim 1 $end\n$timescale 1 us $end\n$scope module top $end\n$upscope $end\n$enddefinitions $end\n#0\n$dumpvars\n$end\n#5\n";
    assert!(rt; out.as_slice() == text.as_slice());
}

#[test]
fn no_net(rt: HostRuntime) -> Result<(), Fail> {
    let design = INVERTER.build(rt.alloc())?;
    let horizon = Horizon::new(5)?;
    of_no_net(&rt, rt.alloc(), &design, horizon);
    Ok(())
}
