//! Texts that are read back by the reader of stimuli.
use crate::stimuli::circuits::text_of;
use bench_text::read;
use drawn_stimuli::Drive;
use logic3::{Change, Value};
use std::process::Abort;
use std::test::Fail;
use timing_text::read_stimuli;
use worked_examples::S27_BENCH;

// The values of the inputs of s27 at each tick up to 13: a clock, a draw, a pulse and a draw.
static SIGNALS: [&[u8]; 4] = [
    b"00001111000011",
    b"00000011111111",
    b"00011111000000",
    b"00000000000000",
];

fn value_at(changes: &[Change], tick: u64) -> u8 {
    let mut value = b'x';
    for change in changes {
        if change.tick <= tick {
            value = match change.value {
                Value::Zero => b'0',
                Value::One => b'1',
                Value::Unknown => b'x',
            };
        }
    }
    value
}

fn shows(rt: &impl Abort, changes: &[Change], signal: &[u8]) {
    let mut tick = 0;
    for wanted in signal {
        assert!(rt; value_at(changes, tick) == *wanted);
        tick = tick.wrapping_add(1);
    }
}

#[test]
fn read_back(rt: HostRuntime) -> Result<(), Fail> {
    let alloc = rt.alloc();
    let netlist = read(alloc, S27_BENCH)?;
    let drives = [
        (b"G2".as_slice(), Drive::Pulse { from: 3, to: 8 }),
        (b"G0".as_slice(), Drive::Clock { half: 4 }),
    ];
    let text = text_of(alloc, S27_BENCH, &drives, (1, 6), 13)??;
    let stimuli = read_stimuli(alloc, &netlist, text.as_slice())?;
    assert!(&rt; stimuli.len() == 17);
    for (net, signal) in SIGNALS.iter().enumerate() {
        shows(&rt, stimuli.list(net), signal);
    }
    Ok(())
}
