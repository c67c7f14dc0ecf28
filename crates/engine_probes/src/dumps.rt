//! Dumps and streams of them: a prefix of the text has been written, and a stream has failed.
ghost use Rattle.std.specs.Prelude.{◌≡◌, ◌+◌, ◌<◌, ◌≤◌, [], ◌∷◌, false, true, length, All, IfOk, IfSome, OnOk, OnErr};
ghost use Rattle.vcd_dump.specs.Spans.{begun, with_parts, spanned, changes_in, IsPart};

use crate::circuit_texts::oscillator;
use crate::following::Follower;
use crate::telling::Teller;
use Value::{One, Zero};
use design::Design;
use logic3::{Change, Value, Waveform};
use std::alloc::{AllocError, Global};
use std::io::Write;
use timing_text::Horizon;
use vcd_dump::{DumpFault, Stream, TimeUnit, dump};
use worked_examples::dumps::OSCILLATOR_DUMP;

/// The dump of a net without changes.
const STILL: &[u8] =
    b"$version nullsim 1 $end\n$timescale 1 ns $end\n$scope module top $end\n$var wire 1 ! e $end\n$upscope $end\n$enddefinitions $end\n#0\n$dumpvars\nx!\n$end\n#12\n";

/// What the input shows.
const ENABLE: [Change; 2] = [
    Change {
        tick: 0,
        value: Zero,
    },
    Change {
        tick: 5,
        value: One,
    },
];

/// What the gate shows.
const TURNING: [Change; 4] = [
    Change {
        tick: 2,
        value: One,
    },
    Change {
        tick: 7,
        value: Zero,
    },
    Change {
        tick: 9,
        value: One,
    },
    Change {
        tick: 11,
        value: Zero,
    },
];

/// Probes dumps of an oscillator.
pub(crate) fn probe<W: Write>(alloc: Global, teller: &mut Teller<W>) -> Option<()> {
    let design = oscillator(alloc, teller)?;
    let horizon = Horizon::new(12).ok()?;
    still(alloc, teller, &design, horizon)?;
    at_once(alloc, teller, &design, horizon)?;
    net_by_net(alloc, teller, &design, horizon)
}

fn still<W: Write>(
    alloc: Global,
    teller: &mut Teller<W>,
    design: &Design,
    horizon: Horizon,
) -> Option<()> {
    if design.nets() == 0 {
        return None;
    }
    let mut out = Follower::of(STILL);
    let waves = [Waveform::new(alloc)];
    match dump(alloc, &mut out, design, &[0], &waves, horizon, TimeUnit::Ns) {
        Ok(()) => teller.fine("vcd_dump::dump", out.is_whole()),
        Err(fault) => {
            teller.refused(
                "vcd_dump::dump",
                fault == DumpFault::Memory && out.follows(),
            );
            None
        }
    }
}

/// A stream of both nets in one span, which is given at once.
fn at_once<W: Write>(
    alloc: Global,
    teller: &mut Teller<W>,
    design: &Design,
    horizon: Horizon,
) -> Option<()> {
    let parts = teller.told("parts of a span", parts(alloc))?;
    let mut out = Follower::of(OSCILLATOR_DUMP);
    let mut stream = begin(alloc, teller, design, horizon, &mut out)?;
    match stream.span(&mut out, 13, &parts) {
        Ok(()) => teller.fine("Stream::span", out.follows())?,
        Err(fault) => {
            let holds = fault == DumpFault::Memory && out.follows() && has_failed(stream, &mut out);
            teller.refused("Stream::span", holds);
            return None;
        }
    }
    finish(teller, stream, &mut out)
}

/// A stream of both nets in one span, which is given net by net.
fn net_by_net<W: Write>(
    alloc: Global,
    teller: &mut Teller<W>,
    design: &Design,
    horizon: Horizon,
) -> Option<()> {
    let mut out = Follower::of(OSCILLATOR_DUMP);
    let mut stream = begin(alloc, teller, design, horizon, &mut out)?;
    match write_both(&mut stream, &mut out, 13, &ENABLE, &TURNING) {
        Ok(()) => teller.fine("Stream::write_parts", out.follows())?,
        Err(fault) => {
            let holds = fault == DumpFault::Memory && out.follows() && has_failed(stream, &mut out);
            teller.refused("Stream::part and write_parts", holds);
            return None;
        }
    }
    finish(teller, stream, &mut out)
}

/// What both nets show.
fn parts(alloc: Global) -> Result<[Vec<Change>; 2], AllocError>
    ensures each { IfOk result (λ parts. All (IsPart 0 13) (changes_in parts)) }
    ensures both { IfOk result (λ parts. length (changes_in parts) ≡ 2) }
{
    let mut enable = Vec::new(alloc);
    let mut turning = Vec::new(alloc);
    enable.extend_from_slice(&ENABLE)?;
    turning.extend_from_slice(&TURNING)?;
    Ok([enable, turning])
}

/// A stream of both nets.
fn begin<W: Write>(
    alloc: Global,
    teller: &mut Teller<W>,
    design: &Design,
    horizon: Horizon,
    out: &mut Follower,
) -> Option<Stream>
    ensures { IfSome result (λ stream. stream ≡ begun 2 12) }
{
    if design.nets() < 2 || horizon.ticks() != 12 {
        return None;
    }
    match Stream::begin(alloc, out, design, &[0, 1], horizon, TimeUnit::Ns) {
        Ok(stream) => Some(stream),
        Err(fault) => {
            teller.refused("Stream::begin", fault == DumpFault::Memory && out.follows());
            None
        }
    }
}

/// The end of a stream that wrote all spans.
fn finish<W: Write>(teller: &mut Teller<W>, stream: Stream, out: &mut Follower) -> Option<()>
    requires { stream.failed ≡ false → stream.written ≡ stream.horizon + 1 }
{
    match stream.finish(out) {
        Ok(()) => teller.fine("Stream::finish", out.is_whole()),
        Err(fault) => {
            teller.refused(
                "Stream::finish",
                fault == DumpFault::Memory && out.follows(),
            );
            None
        }
    }
}

/// Returns the result of a stream of two nets that is given the changes of both, and then writes them.
fn write_both<W: Write>(
    stream: &mut Stream,
    out: &mut W,
    upto: u64,
    first: &[Change],
    second: &[Change],
) -> Result<(), DumpFault>
    requires shows { stream.old.failed ≡ false → stream.old.nets ≡ 2 }
    requires none_given { stream.old.failed ≡ false → stream.old.given ≡ 0 }
    requires no_lines { stream.old.failed ≡ false → stream.old.lines ≡ [] }
    requires ahead { stream.old.written < upto }
    requires within { stream.old.failed ≡ false → upto ≤ stream.old.horizon + 1 }
    requires first { IsPart stream.old.written upto first.now }
    requires second { IsPart stream.old.written upto second.now }
    ensures stream { OnOk result
        (stream.new ≡ spanned (with_parts stream.old (first.now ∷ second.now ∷ [])) upto) }
    ensures fails { OnErr result (stream.new.failed ≡ true) }
{
    stream.part(first)?;
    stream.part(second)?;
    stream.write_parts(out, upto)
}

/// Whether a stream reports that it has failed, and writes nothing more.
fn has_failed(mut stream: Stream, out: &mut Follower) -> bool
    requires { stream.failed ≡ true }
{
    let left = out.left();
    stream.part(&ENABLE) == Err(DumpFault::Failed)
        && stream.write_parts(out, 13) == Err(DumpFault::Failed)
        && stream.span(out, 13, &[]) == Err(DumpFault::Failed)
        && stream.finish(out) == Err(DumpFault::Failed)
        && out.left() == left
}
