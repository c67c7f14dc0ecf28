//! Command lines through `command`, on writers that fail at some byte, at some call or at the flush.
use crate::program::shelf::status_of;
use std::alloc::Global;
use std::io::Write;
use std::process::Abort;
use worked_examples::dumps::INVERTER_DUMP;
use worked_examples::{Narrow, SLIPS, Slip, Stumbling};

const COUNTS: &str = "events 7 changes 4 nulls 3 rounds 2\n";

const S27_SAME: &[u8] = b"nets 17\npins 21\nsame 17\n";

const CONE_OF_Y: &[u8] = b"INPUT(a)\ny = NOT(a)\nOUTPUT(y)\n";

const BOTH: &[u8] = b"agree yes\nfirst 1 1\nfirst 4 0\nsecond 1 1\nsecond 4 0\n";

/// A command line and the text that it writes.
type Line = (&'static str, &'static [u8]);

const PLAIN: Line = (
    "plain --bench inv.bench --stimuli inv.stim --horizon 5",
    INVERTER_DUMP,
);

const RUN: Line = (
    "run --bench inv.bench --stimuli inv.stim --horizon 5",
    INVERTER_DUMP,
);

const COUNTED: Line = (
    "run --bench inv.bench --stimuli inv.stim --horizon 5 --counts",
    INVERTER_DUMP,
);

const CHECK: Line = ("check --bench s27.bench --horizon 35", S27_SAME);

const CONE: Line = ("cone --bench one.bench y", CONE_OF_Y);

const TWIN: Line = (
    "twin --first inv.bench --first-stimuli inv.stim --second inv.bench --second-stimuli inv.stim --net y --horizon 5",
    BOTH,
);

// The text of help and of usage errors isn't checked.
const HELP: Line = ("--help", b"");

const WRONG: Line = ("--halp", b"");

const NOT_WRITTEN: &str = "stdout:0: Write\n";

/// The arguments; the room for the text, and whether the flush fails; the room on standard error, and the most
/// bytes that it accepts in a call; the exit status, what standard error accepted, and the number of flushes of
/// the text.
type Row = (Line, (usize, bool), (usize, usize), u8, &'static str, u32);

// Each command with room for everything and with less; `run` on a standard error with less room than the counts
// need.
static ROWS: [Row; 32] = [
    (PLAIN, (190, false), (0, 7), 0, "", 1),
    (PLAIN, (40, false), (99, 7), 3, NOT_WRITTEN, 0),
    (PLAIN, (190, true), (99, 7), 3, NOT_WRITTEN, 1),
    (PLAIN, (40, false), (12, 7), 3, "stdout:0: Wr", 0),
    (PLAIN, (40, false), (3, 7), 3, "std", 0),
    (RUN, (190, false), (0, 7), 0, "", 1),
    (COUNTED, (0, true), (99, 1), 3, NOT_WRITTEN, 0),
    (COUNTED, (1, true), (99, 1), 3, NOT_WRITTEN, 0),
    (COUNTED, (40, true), (99, 1), 3, NOT_WRITTEN, 0),
    (COUNTED, (189, true), (99, 1), 3, NOT_WRITTEN, 0),
    (COUNTED, (190, true), (99, 1), 3, NOT_WRITTEN, 1),
    // A prefix of the counts is written to a standard error that fails, and the run is done all the same.
    (COUNTED, (190, false), (0, 3), 0, "", 1),
    (COUNTED, (190, false), (10, 3), 0, "events 7 c", 1),
    (COUNTED, (190, false), (36, 3), 0, COUNTS, 1),
    (CHECK, (24, false), (0, 7), 0, "", 1),
    (CHECK, (0, true), (99, 1), 3, NOT_WRITTEN, 0),
    (CHECK, (1, true), (99, 1), 3, NOT_WRITTEN, 0),
    (CHECK, (10, true), (99, 1), 3, NOT_WRITTEN, 0),
    (CHECK, (24, true), (99, 1), 3, NOT_WRITTEN, 1),
    (CONE, (30, false), (0, 7), 0, "", 1),
    (CONE, (0, true), (99, 1), 3, NOT_WRITTEN, 0),
    (CONE, (1, true), (99, 1), 3, NOT_WRITTEN, 0),
    (CONE, (10, true), (99, 1), 3, NOT_WRITTEN, 0),
    (CONE, (30, true), (99, 1), 3, NOT_WRITTEN, 1),
    (TWIN, (52, false), (0, 7), 0, "", 1),
    (TWIN, (0, true), (99, 1), 3, NOT_WRITTEN, 0),
    (TWIN, (1, true), (99, 1), 3, NOT_WRITTEN, 0),
    (TWIN, (10, true), (99, 1), 3, NOT_WRITTEN, 0),
    (TWIN, (52, true), (99, 1), 3, NOT_WRITTEN, 1),
    (HELP, (40, false), (99, 7), 3, NOT_WRITTEN, 0),
    (HELP, (9999, true), (99, 7), 3, NOT_WRITTEN, 1),
    (WRONG, (0, false), (6, 7), 2, "error:", 0),
];

// The writer accepted what it has room for, unless the text isn't checked, and was flushed this number of
// times.
fn took(rt: &impl Abort, out: &Narrow, text: &[u8], room: usize, flushes: u32, line: &str) {
    let taken = out.taken.as_slice();
    let is_prefix = text.is_empty() || (taken.len() == room && text.starts_with(taken));
    assert!(rt; is_prefix && out.flushes == flushes, "at {line}, {room}");
}

// With this writer of its text, the command ends with this status, and standard error accepted this.
fn ends<W: Write>(
    rt: &impl Abort,
    alloc: Global,
    line: &str,
    out: &mut W,
    err: &mut Narrow,
    status: u8,
    message: &str,
) {
    let got = status_of(alloc, line, out, err);
    let is_said = err.taken.as_slice() == message.as_bytes();
    assert!(rt; got == Some(status) && is_said, "at {line}");
}

#[test]
fn faulty_writers(rt: HostRuntime) {
    for &((line, text), (room, flush_fails), (err_room, most), status, message, flushes) in &ROWS {
        let mut out = Narrow::new(rt.alloc(), room, 7);
        out.flush_fails = flush_fails;
        let mut err = Narrow::new(rt.alloc(), err_room, most);
        ends(&rt, rt.alloc(), line, &mut out, &mut err, status, message);
        took(&rt, &out, text, room, flushes, line);
    }
}

// The other commands, with texts that are shorter than the room for them.
static OTHERS: [&str; 8] = [
    "draw --bench inv.bench --stimuli inv.stim --horizon 5",
    "trace --bench inv.bench --stimuli inv.stim --horizon 5",
    "why --bench inv.bench --stimuli inv.stim --net y --at 5",
    "stimuli --bench inv.bench --horizon 5",
    "info --bench inv.bench",
    "diff --first inv.bench --second inv.bench --horizon 5",
    "explain BadLine",
    "explain",
];

// Each flushes its text once, and reports a flush that fails.
#[test]
fn other_commands_flush(rt: HostRuntime) {
    for &line in &OTHERS {
        for (flush_fails, status, message) in [(false, 0, ""), (true, 3, NOT_WRITTEN)] {
            let mut out = Narrow::new(rt.alloc(), 9999, 999);
            out.flush_fails = flush_fails;
            let mut err = Narrow::new(rt.alloc(), 99, 99);
            ends(&rt, rt.alloc(), line, &mut out, &mut err, status, message);
            assert!(rt; out.flushes == 1, "at {line}");
        }
    }
}

// Each command, and the number of its writes.
static CALLS: [(Line, u32); 6] = [
    (PLAIN, 3),
    (RUN, 3),
    (COUNTED, 4),
    (CHECK, 1),
    (CONE, 1),
    (TWIN, 1),
];

// The command on a writer that fails at the call with this number: the fault is reported, and a prefix of the
// text has been written.
fn stumbles(rt: &impl Abort, alloc: Global, (line, text): Line, call: u32, slip: Slip) {
    let message = match slip {
        Slip::Fails(_) => NOT_WRITTEN,
        Slip::TakesNothing => "stdout:0: WroteNothing\n",
    };
    let mut out = Stumbling::new(alloc, call, slip);
    let mut err = Narrow::new(alloc, 99, 7);
    ends(rt, alloc, line, &mut out, &mut err, 3, message);
    let is_prefix = text.starts_with(out.taken.as_slice());
    assert!(rt;
        out.calls == call.saturating_add(1) && is_prefix,
        "at {line}, {call}"
    );
}

#[test]
fn writers_that_stumble_once(rt: HostRuntime) {
    for &(line, calls) in &CALLS {
        for slip in &SLIPS {
            for call in 0..calls {
                stumbles(&rt, rt.alloc(), line, call, *slip);
            }
        }
    }
}

// One byte in each call, and as many calls as the text has bytes.
#[test]
fn writers_of_a_byte_a_call(rt: HostRuntime) {
    for &((line, text), _) in &CALLS {
        let mut out = Narrow::new(rt.alloc(), 9999, 1);
        let mut err = Narrow::new(rt.alloc(), 99, 7);
        let message = if line == COUNTED.0 { COUNTS } else { "" };
        ends(&rt, rt.alloc(), line, &mut out, &mut err, 0, message);
        took(&rt, &out, text, text.len(), 1, line);
        assert!(rt; out.calls as usize == text.len(), "at {line}");
    }
}
