//! Cones as texts, at full size.
use crate::numbers::push_number;
use bench_text::BenchFault;
use fanin_cone::{ConeTextFault, cone_text};
use std::alloc::AllocError;

// Adds the name of the gate of this number.
fn push_name(text: &mut Vec<u8>, number: u32) -> Result<(), AllocError> {
    text.push(b'g')?;
    push_number(text, number)
}

// Adds the gate of this number with 1,024 pins at the input, which has a name of sixteen bytes.
fn push_gate(text: &mut Vec<u8>, number: u32) -> Result<(), AllocError> {
    push_name(text, number)?;
    text.extend_from_slice(b"=AND(")?;
    for _ in 1..1024u32 {
        text.extend_from_slice(b"sixteen-bytes-it,")?;
    }
    text.extend_from_slice(b"sixteen-bytes-it)\n")
}

// An input, this number of gates that it feeds, and a gate with a pin for each of those.
fn push_wide(text: &mut Vec<u8>, gates: u32) -> Result<(), AllocError> {
    text.extend_from_slice(b"INPUT(sixteen-bytes-it)\n")?;
    for number in 0..gates {
        push_gate(text, number)?;
    }
    text.extend_from_slice(b"y=AND(g0")?;
    for number in 1..gates {
        text.push(b',')?;
        push_name(text, number)?;
    }
    text.extend_from_slice(b")")
}

// The text that is read has no spaces; the written text has some, and would be too long.
#[test]
fn too_long_to_write(rt: HostRuntime) -> Result<(), AllocError> {
    let too_long = ConeTextFault::Bench(BenchFault::TooLong);
    for (gates, fault) in [(100, None), (960, Some(too_long))] {
        let mut bench = Vec::new(rt.alloc());
        push_wide(&mut bench, gates)?;
        let answer = cone_text(rt.alloc(), bench.as_slice(), &[b"y".as_slice()]);
        assert!(rt; answer.err() == fault);
    }
    Ok(())
}
