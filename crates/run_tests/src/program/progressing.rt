//! Calls with `--progress`, over streams that fail.
use crate::program::shelf::status_of;
use worked_examples::{Narrow, Slip, Stumbling};

/// The arguments; the room for the dump; the room on standard error; the exit status, and what standard error
/// accepted.
type Faulty = (&'static str, usize, usize, u8, &'static str);

const PLAIN: &str = "plain --bench inv.bench --stimuli inv.stim --horizon 5 --progress";

const RUN: &str = "run --bench inv.bench --stimuli inv.stim --horizon 5 --progress";

// The plain engine has reported all ticks before its dump is written; the kernel reports the ticks that were
// written. The line ends before the fault is reported. Once standard error has failed, no more progress is
// reported.
static FAULTY: [Faulty; 7] = [
    (
        PLAIN,
        40,
        99,
        3,
        "\r0%\r16%\r33%\r50%\r66%\r83%\r100%\nstdout:0: Write\n",
    ),
    (RUN, 40, 99, 3, "stdout:0: Write\n"),
    (RUN, 180, 99, 3, "\r0%\nstdout:0: Write\n"),
    (RUN, 188, 99, 3, "\r0%\r100%\nstdout:0: Write\n"),
    (PLAIN, 190, 5, 0, "\r0%\r1"),
    (RUN, 190, 0, 0, ""),
    (PLAIN, 40, 5, 3, "\r0%\r1"),
];

#[test]
fn faulty_streams(rt: HostRuntime) {
    for &(line, room, err_room, status, message) in &FAULTY {
        let mut out = Narrow::new(rt.alloc(), room, 7);
        let mut err = Narrow::new(rt.alloc(), err_room, 7);
        let got = status_of(rt.alloc(), line, &mut out, &mut err);
        let is_said = err.taken.as_slice() == message.as_bytes();
        assert!(rt; got == Some(status) && is_said, "at {line}, {room}");
    }
}

// Once standard error has failed, at the second percentage, only the fault is reported.
#[test]
fn stumbling_standard_error(rt: HostRuntime) {
    for (room, status, message) in [(190, 0, "\r0%"), (40, 3, "\r0%stdout:0: Write\n")] {
        let mut out = Narrow::new(rt.alloc(), room, 7);
        let mut err = Stumbling::new(rt.alloc(), 3, Slip::TakesNothing);
        let got = status_of(rt.alloc(), PLAIN, &mut out, &mut err);
        let is_said = err.taken.as_slice() == message.as_bytes();
        assert!(rt; got == Some(status) && is_said, "at {room}");
    }
}
