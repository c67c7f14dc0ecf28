//! The inverter's dump as a stream of spans: the bytes written after each span, and the state of a stream after
//! a fault.
ghost use Rattle.std.specs.Prelude.{◌≡◌, false, IfOk};
ghost use Rattle.vcd_dump.specs.Spans.{IsPart};

use crate::circuits::INVERTER;
use Value::{One, Zero};
use design::{Design, Horizon};
use logic3::{Change, Value};
use std::alloc::Global;
use std::io::Write;
use std::process::Abort;
use std::test::Fail;
use vcd_dump::{DumpFault, Stream, TimeUnit};
use worked_examples::Narrow;
use worked_examples::dumps::INVERTER_DUMP;

// The changes of a net in a span that begins and ends at these ticks.
fn part(
    rt: &impl Abort,
    alloc: Global,
    from: u64,
    upto: u64,
    changes: &[Change],
) -> Result<Vec<Change>, Fail>
    ensures { IfOk result (λ part. IsPart from upto part.items) }
{
    let mut part: Vec<Change> = Vec::new(alloc);
    let mut next: u64 = from;
    for change in changes {
        assert!(rt; next <= change.tick);
        assert!(rt; change.tick < upto);
        part.push(*change)?;
        next = change.tick + 1;
    }
    assert!(rt; next <= upto);
    Ok(part)
}

// A stream of two nets up to tick 5.
#[derive(Drop)]
struct Pair {
    stream: Stream,
    ghost shows: { stream.failed ≡ false → stream.nets ≡ 2 },
    ghost ends: { stream.failed ≡ false → stream.horizon ≡ 5 },
}

impl Pair {
    fn begin<W: Write>(
        rt: &impl Abort,
        alloc: Global,
        out: &mut W,
        design: &Design,
    ) -> Result<Pair, Fail> {
        assert!(rt; 1 < design.nets());
        let horizon: Horizon = Horizon::new(5)?;
        assert!(rt; horizon.ticks() == 5);
        let begun: Result<Stream, DumpFault> = Stream::begin(
            alloc,
            out,
            design,
            &[0, 1],
            horizon,
            TimeUnit::Ns,
        );
        Ok(Pair { stream: begun? })
    }

    // The result of a span up to a tick.
    fn span<W: Write>(
        &mut self,
        rt: &impl Abort,
        alloc: Global,
        out: &mut W,
        upto: u64,
        changes: [&[Change]; 2],
    ) -> Result<Result<(), DumpFault>, Fail> {
        let [first, second] = changes;
        let from: u64 = self.stream.written();
        assert!(rt; from < upto);
        assert!(rt; upto <= 6);
        let first: Vec<Change> = part(rt, alloc, from, upto, first)?;
        let second: Vec<Change> = part(rt, alloc, from, upto, second)?;
        let parts: [Vec<Change>; 2] = [first, second];
        let answer: Result<(), DumpFault> = self.stream.span(out, upto, &parts);
        Ok(answer)
    }
}

const LOW: Change = Change {
    tick: 0,
    value: Zero,
};

const HIGH: Change = Change {
    tick: 3,
    value: One,
};

const RISE: Change = Change {
    tick: 1,
    value: One,
};

const FALL: Change = Change {
    tick: 4,
    value: Zero,
};

// A span up to a tick, the changes of both nets in it, and the bytes written by its end.
type Span = (u64, [&'static [Change]; 2], usize);

static SPANS: [Span; 2] = [(1, [&[LOW], &[]], 169), (6, [&[HIGH], &[RISE, FALL]], 187)];

fn writes(rt: &impl Abort, alloc: Global, design: &Design) -> Result<(), Fail> {
    let mut out: Vec<u8> = Vec::new(alloc);
    let mut pair: Pair = Pair::begin(rt, alloc, &mut out, design)?;
    assert!(rt; (pair.stream.written(), out.len()) == (0, 145));
    for (upto, changes, bytes) in &SPANS {
        assert!(rt; pair.span(rt, alloc, &mut out, *upto, *changes)? == Ok(()));
        let written: u64 = pair.stream.written();
        assert!(rt; (written, out.len()) == (*upto, *bytes));
    }
    assert!(rt; pair.stream.written() == 6);
    let finished: Result<(), DumpFault> = pair.stream.finish(&mut out);
    assert!(rt; finished == Ok(()));
    assert!(rt; out.as_slice() == INVERTER_DUMP);
    Ok(())
}

#[test]
fn streamed_inverter(rt: HostRuntime) -> Result<(), Fail> {
    let design: Design = INVERTER.build(rt.alloc())?;
    writes(&rt, rt.alloc(), &design)
}

// A writer with room for the declarations: the first span fails, and the next call of the stream.
fn fails(rt: &impl Abort, alloc: Global, design: &Design) -> Result<(), Fail> {
    let mut out = Narrow::new(alloc, 150, 1_000);
    let mut pair: Pair = Pair::begin(rt, alloc, &mut out, design)?;
    let first: [&[Change]; 2] = [&[LOW], &[]];
    let answer = pair.span(rt, alloc, &mut out, 1, first)?;
    assert!(rt; answer == Err(DumpFault::Write));
    let answer = pair.span(rt, alloc, &mut out, 1, first)?;
    assert!(rt; answer == Err(DumpFault::Failed));
    assert!(rt; out.taken.as_slice() == &INVERTER_DUMP[..150]);
    Ok(())
}

#[test]
fn failed_stream(rt: HostRuntime) -> Result<(), Fail> {
    let design: Design = INVERTER.build(rt.alloc())?;
    fails(&rt, rt.alloc(), &design)
}
