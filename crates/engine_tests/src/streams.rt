//! Streams by direct calls: the text after each span, wherever the spans are cut, and the state of a stream
//! after a fault.
ghost use Rattle.std.specs.Prelude.{◌≡◌, ◌+◌, ◌<◌, ◌≤◌, [], ◌∷◌, false, true, IfOk, OnOk, OnErr};
ghost use Rattle.vcd_dump.specs.Spans.{with_parts, spanned, IsPart};

use crate::circuits::INVERTER;
use Value::{One, Zero};
use design::Design;
use logic3::{Change, Value};
use std::alloc::Global;
use std::io::Write;
use std::process::Abort;
use std::test::Fail;
use timing_text::Horizon;
use vcd_dump::{DumpFault, Stream, TimeUnit};
use worked_examples::dumps::INVERTER_DUMP;
use worked_examples::{Narrow, SLIPS, Slip, Stumbling};

// The changes of a net, in a span that begins and ends at these ticks.
fn part(
    rt: &impl Abort,
    alloc: Global,
    from: u64,
    upto: u64,
    changes: &[Change],
) -> Result<Vec<Change>, Fail>
    ensures { IfOk result (λ part. IsPart from upto part.items) }
{
    let mut part = Vec::new(alloc);
    let mut next = from;
    for change in changes {
        let tick = change.tick;
        assert!(rt; next <= tick && tick < upto);
        part.push(*change)?;
        next = tick + 1;
    }
    assert!(rt; next <= upto);
    Ok(part)
}

// A span up to a tick, the changes of both nets in it, and how many bytes have been written by its end.
type Span = (u64, [&'static [Change]; 2], usize);

// The result of a stream of two nets that is given the changes of both, and then writes them.
fn write_both<W: Write>(
    stream: &mut Stream,
    out: &mut W,
    upto: u64,
    first: &[Change],
    second: &[Change],
) -> Result<(), DumpFault>
    requires shows { stream.old.failed ≡ false → stream.old.nets ≡ 2 }
    requires none_given { stream.old.failed ≡ false → stream.old.given ≡ 0 }
    requires no_lines { stream.old.failed ≡ false → stream.old.lines ≡ [] }
    requires ahead { stream.old.written < upto }
    requires within { stream.old.failed ≡ false → upto ≤ stream.old.horizon + 1 }
    requires first { IsPart stream.old.written upto first.now }
    requires second { IsPart stream.old.written upto second.now }
    ensures stream { OnOk result
        (stream.new ≡ spanned (with_parts stream.old (first.now ∷ second.now ∷ [])) upto) }
    ensures running { OnOk result (stream.old.failed ≡ false) }
    ensures fails { OnErr result (stream.new.failed ≡ true) }
{
    stream.part(first)?;
    stream.part(second)?;
    stream.write_parts(out, upto)
}

// A stream of two nets up to tick 5, between two spans, and whether it is given a span net by net.
#[derive(Drop)]
struct Pair {
    stream: Stream,
    net_by_net: bool,
    ghost shows: { stream.failed ≡ false → stream.nets ≡ 2 },
    ghost ends: { stream.failed ≡ false → stream.horizon ≡ 5 },
    ghost none_given: { stream.failed ≡ false → stream.given ≡ 0 },
    ghost no_lines: { stream.failed ≡ false → stream.lines ≡ [] },
}

impl Pair {
    fn begin<W: Write>(
        rt: &impl Abort,
        alloc: Global,
        out: &mut W,
        design: &Design,
        net_by_net: bool,
    ) -> Result<Pair, Fail> {
        let nets = design.nets();
        assert!(rt; 1 < nets);
        let horizon = Horizon::new(5)?;
        assert!(rt; horizon.ticks() == 5);
        let stream = Stream::begin(alloc, out, design, &[0, 1], horizon, TimeUnit::Ns)?;
        assert!(rt; stream.written() == 0);
        Ok(Pair { stream, net_by_net })
    }

    // The result of a span up to a tick.
    fn span<W: Write>(
        &mut self,
        rt: &impl Abort,
        alloc: Global,
        out: &mut W,
        upto: u64,
        changes: [&[Change]; 2],
    ) -> Result<Result<(), DumpFault>, Fail>
        ensures { IfOk result (λ answer. OnErr answer (self.new.stream.failed ≡ true)) }
    {
        let [first, second] = changes;
        let from = self.stream.written();
        assert!(rt; from < upto);
        assert!(rt; upto <= 6);
        let first = part(rt, alloc, from, upto, first)?;
        let second = part(rt, alloc, from, upto, second)?;
        if self.net_by_net {
            Ok(write_both(
                &mut self.stream,
                out,
                upto,
                first.as_slice(),
                second.as_slice(),
            ))
        } else {
            Ok(self.stream.span(out, upto, &[first, second]))
        }
    }

    // A span that is written.
    fn write(
        &mut self,
        rt: &impl Abort,
        alloc: Global,
        out: &mut Vec<u8>,
        span: Span,
    ) -> Result<(), Fail> {
        let (upto, changes, bytes) = span;
        let answer = self.span(rt, alloc, out, upto, changes)?;
        assert!(rt; answer == Ok(()));
        assert!(rt; self.stream.written() == upto);
        assert!(rt; out.len() == bytes);
        Ok(())
    }

    // The result of the end of a stream that wrote all spans.
    fn finish<W: Write>(self, rt: &impl Abort, out: &mut W) -> Result<(), DumpFault> {
        assert!(rt; self.stream.written() == 6);
        self.stream.finish(out)
    }
}

const LOW: Change = Change {
    tick: 0,
    value: Zero,
};

const HIGH: Change = Change {
    tick: 3,
    value: One,
};

const RISE: Change = Change {
    tick: 1,
    value: One,
};

const FALL: Change = Change {
    tick: 4,
    value: Zero,
};

// The changes of both nets from tick 1 on.
static REST: [&[Change]; 2] = [&[HIGH], &[RISE, FALL]];

const AT_ONCE: [Span; 1] = [(6, [&[LOW, HIGH], &[RISE, FALL]], 187)];

const IN_TWO: [Span; 2] = [(1, [&[LOW], &[]], 169), (6, [&[HIGH], &[RISE, FALL]], 187)];

const EACH_TICK: [Span; 6] = [
    (1, [&[LOW], &[]], 169),
    (2, [&[], &[RISE]], 175),
    (3, [&[], &[]], 175),
    (4, [&[HIGH], &[]], 181),
    (5, [&[], &[FALL]], 187),
    (6, [&[], &[]], 187),
];

// The stream of the design by these spans is the inverter's dump.
fn writes(
    rt: &impl Abort,
    alloc: Global,
    design: &Design,
    spans: &[Span],
    net_by_net: bool,
) -> Result<(), Fail> {
    let mut out = Vec::new(alloc);
    let mut pair = Pair::begin(rt, alloc, &mut out, design, net_by_net)?;
    assert!(rt; out.len() == 145);
    for span in spans {
        pair.write(rt, alloc, &mut out, *span)?;
    }
    assert!(rt; pair.finish(rt, &mut out) == Ok(()));
    assert!(rt; out.as_slice() == INVERTER_DUMP);
    Ok(())
}

#[test]
fn streamed_inverter(rt: HostRuntime) -> Result<(), Fail> {
    let design = INVERTER.build(rt.alloc())?;
    for spans in [AT_ONCE.as_slice(), IN_TWO.as_slice(), EACH_TICK.as_slice()] {
        writes(&rt, rt.alloc(), &design, spans, false)?;
        writes(&rt, rt.alloc(), &design, spans, true)?;
    }
    Ok(())
}

// The fault of a span of all that is left; the stream has failed then.
fn fault_of<W: Write>(
    rt: &impl Abort,
    alloc: Global,
    out: &mut W,
    pair: &mut Pair,
) -> Result<DumpFault, Fail>
    ensures { IfOk result (λ _. pair.new.stream.failed ≡ true) }
{
    let answer = pair.span(rt, alloc, out, 6, REST)?;
    Ok(answer.expect_err(rt, "a fault"))
}

// The stream of the design to this writer stops with a fault at its second span; from then on it returns that
// it has failed.
fn fails<W: Write>(
    rt: &impl Abort,
    alloc: Global,
    out: &mut W,
    design: &Design,
    fault: DumpFault,
    net_by_net: bool,
) -> Result<(), Fail> {
    let mut pair = Pair::begin(rt, alloc, out, design, net_by_net)?;
    let answer = pair.span(rt, alloc, out, 1, [&[LOW], &[]])?;
    assert!(rt; answer == Ok(()));
    assert!(rt; fault_of(rt, alloc, out, &mut pair)? == fault);
    assert!(rt; fault_of(rt, alloc, out, &mut pair)? == DumpFault::Failed);
    assert!(rt; pair.stream.finish(out) == Err(DumpFault::Failed));
    Ok(())
}

// The stream to a writer that stumbles in this way at its third call; the writer isn't called again, though it
// would take all that it is given.
fn stumbles(
    rt: &impl Abort,
    alloc: Global,
    design: &Design,
    slip: Slip,
    net_by_net: bool,
) -> Result<(), Fail> {
    let fault = match slip {
        Slip::Fails(_) => DumpFault::Write,
        Slip::TakesNothing => DumpFault::WroteNothing,
    };
    let mut out = Stumbling::new(alloc, 2, slip);
    fails(rt, alloc, &mut out, design, fault, net_by_net)?;
    assert!(rt; out.calls == 3);
    assert!(rt; out.taken.len() == 169 && INVERTER_DUMP.starts_with(&out.taken));
    Ok(())
}

#[test]
fn failed_streams(rt: HostRuntime) -> Result<(), Fail> {
    let design = INVERTER.build(rt.alloc())?;
    for slip in &SLIPS {
        stumbles(&rt, rt.alloc(), &design, *slip, false)?;
        stumbles(&rt, rt.alloc(), &design, *slip, true)?;
    }
    Ok(())
}

// What was written before the fault is a prefix of the dump.
#[test]
fn cut_streams(rt: HostRuntime) -> Result<(), Fail> {
    let design = INVERTER.build(rt.alloc())?;
    for (fails_full, fault) in [(true, DumpFault::Write), (false, DumpFault::WroteNothing)] {
        let mut out = Narrow::new(rt.alloc(), 179, 7);
        out.fails = fails_full;
        fails(&rt, rt.alloc(), &mut out, &design, fault, false)?;
        assert!(rt; out.taken.as_slice() == &INVERTER_DUMP[..179]);
    }
    Ok(())
}
