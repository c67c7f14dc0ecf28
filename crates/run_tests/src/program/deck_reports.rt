//! Decks through `tell` and `deck`: reports, and faulty writers.
use nullsim::{Report, deck, tell};
use std::alloc::Global;
use std::io::Write;
use std::process::Abort;
use std::test::Fail;
use worked_examples::dumps::INVERTER_DUMP;
use worked_examples::{Narrow, SLIPS, Slip, Stumbling};

pub(crate) const INVERTER: &[u8] =
    b"%nullsim 5\n%bench\nINPUT(a)\nOUTPUT(y)\ny = NOT(a)\n%stimuli\n0 a 0\n3 a 1\n";

// This number of events is applied before the rounds of the deck, and then each net is known up to this tick.
fn report_of(
    rt: &impl Abort,
    alloc: Global,
    text: &[u8],
    out: &mut Vec<u8>,
    events: u64,
    least: u64,
) -> Result<Report, Fail> {
    let report = deck(alloc, text, out)?;
    assert!(rt; report.after.events == events && report.least == least);
    Ok(report)
}

// Without a schedule, and with one after which the rounds find nothing to do.
#[test]
fn reports(rt: HostRuntime) -> Result<(), Fail> {
    let mut out = Vec::new(rt.alloc());
    let total = report_of(&rt, rt.alloc(), INVERTER, &mut out, 0, 0)?.total;
    let counts = [total.events, total.changes, total.nulls, total.rounds];
    assert!(rt; out.as_slice() == INVERTER_DUMP && counts == [7, 4, 3, 2]);
    let scheduled =
        b"%nullsim 5\n%bench\nINPUT(a)\ny = NOT(a)\n%schedule\nadvance a\ndeliver y 0\nadvance y\n";
    let report = report_of(&rt, rt.alloc(), scheduled, &mut out, 3, 6)?;
    assert!(rt; report.total == report.after);
    Ok(())
}

// The writer accepted a prefix of this length of the inverter's dump, and was flushed this number of times.
fn took_part(rt: &impl Abort, out: &Narrow, took: usize, flushes: u32) {
    assert!(rt; out.taken.len() == took && out.flushes == flushes);
    assert!(rt; INVERTER_DUMP.starts_with(out.taken.as_slice()));
}

// The exit status of `tell` for the inverter's deck, and the fault line.
fn tell_inverter<W: Write>(rt: &impl Abort, alloc: Global, out: &mut W, status: u8, fault: &str) {
    let mut input = INVERTER;
    let mut err = Vec::new(alloc);
    let got = tell(alloc, &mut input, out, &mut err);
    assert!(rt; got == status && err.as_slice() == fault.as_bytes());
}

// The room of a writer, the most bytes that it accepts in a call, whether it fails without room or accepts
// nothing, and whether its flush fails; the exit status, the fault line, what it accepted, and the number of
// its flushes.
#[test]
fn short_writers(rt: HostRuntime) {
    for (room, most, fails, flush_fails, status, fault, took, flushes) in [
        (190, 1, true, false, 0, "", 190, 1),
        (190, 7, true, false, 0, "", 190, 1),
        (190, 1000, true, false, 0, "", 190, 1),
        (40, 1, true, false, 3, "stdout:0: Write\n", 40, 0),
        (40, 7, true, false, 3, "stdout:0: Write\n", 40, 0),
        (40, 1000, true, false, 3, "stdout:0: Write\n", 40, 0),
        (40, 1, false, false, 3, "stdout:0: WroteNothing\n", 40, 0),
        (40, 7, false, false, 3, "stdout:0: WroteNothing\n", 40, 0),
        (40, 1000, false, false, 3, "stdout:0: WroteNothing\n", 40, 0),
        (1000, 1000, true, true, 3, "stdout:0: Write\n", 190, 1),
    ] {
        let mut out = Narrow::new(rt.alloc(), room, most);
        out.fails = fails;
        out.flush_fails = flush_fails;
        tell_inverter(&rt, rt.alloc(), &mut out, status, fault);
        took_part(&rt, &out, took, flushes);
    }
}

// The deck's dump is written in three calls, one of which fails.
#[test]
fn writers_that_stumble_once(rt: HostRuntime) {
    for slip in &SLIPS {
        let fault = match slip {
            Slip::Fails(_) => "stdout:0: Write\n",
            Slip::TakesNothing => "stdout:0: WroteNothing\n",
        };
        for call in 0..3u32 {
            let mut out = Stumbling::new(rt.alloc(), call, *slip);
            tell_inverter(&rt, rt.alloc(), &mut out, 3, fault);
            let is_prefix = INVERTER_DUMP.starts_with(out.taken.as_slice());
            assert!(rt; out.calls == call + 1 && is_prefix);
        }
    }
}
