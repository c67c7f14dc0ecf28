//! Whole runs: a prefix of the text has been written.
use crate::faults::{Fault, reported};
use engine_probes::{Follower, Teller};
use fanin_cone::cone_text;
use kernel_runs::{
    DiffTicks, check, check_text, diff, simulate, simulate_with_progress, sweep,
    sweep_with_progress, twin, twin_text,
};
use plain_runs::{notes_text, plain, plain_with_progress};
use prepared_runs::{DumpView, Percents, Picks, Selection, Show, Silent, Source, View};
use program_io::{answer_deck, deck, read_text, tell};
use std::alloc::{AllocError, Global};
use std::io::Write;
use vcd_dump::TimeUnit;
use worked_examples::dumps::{OSCILLATOR_DUMP, PRESET_RING_DUMP};

/// An input and a gate that oscillates while the input is 1, and some events to apply first.
pub(crate) const OSCILLATOR: Source<'static> = Source {
    bench: b"INPUT(e)\ny = NAND(e, y)\n",
    delays: b"y 2",
    stimuli: b"0 e 0\n5 e 1\n",
    default_delay: 1,
    period: 10,
    picks: Picks::Text(b"advance e\nadvance y\ndeliver y 0\ndeliver y 1\nadvance y\n"),
};

/// A flip-flop that samples its own opposite, and events to apply first, which a seed picks.
const RING: Source<'static> = Source {
    bench: b"q = DFF(n)\nn = NOT(q)\n",
    delays: b"timing version 2\ninit q 0\n",
    stimuli: b"",
    default_delay: 1,
    period: 3,
    picks: Picks::Seeded { seed: 7, picks: 9 },
};

/// The dump of the oscillator's input alone.
const INPUT_DUMP: &[u8] =
    b"$version nullsim 1 $end\n$timescale 1 ns $end\n$scope module top $end\n$var wire 1 ! e $end\n$upscope $end\n$enddefinitions $end\n#0\n$dumpvars\n0!\n$end\n#5\n1!\n#12\n";

/// The oscillator without events to apply first.
const UNPICKED: Source<'static> = Source {
    picks: Picks::Nothing,
    ..OSCILLATOR
};

/// A run, its horizon, and its dump.
type Run = (Source<'static>, u64, &'static [u8]);

/// Runs that show all nets.
static RUNS: [Run; 2] = [
    (OSCILLATOR, 12, OSCILLATOR_DUMP),
    (RING, 10, PRESET_RING_DUMP),
];

/// Runs that show the input alone.
static INPUT_RUNS: [Run; 2] = [(OSCILLATOR, 12, INPUT_DUMP), (UNPICKED, 12, INPUT_DUMP)];

/// The oscillator as a deck.
const DECK: &[u8] =
    b"%nullsim 12\n%bench\nINPUT(e)\ny = NAND(e, y)\n%delays\ny 2\n%stimuli\n0 e 0\n5 e 1\n%schedule\nadvance e\n";

/// What the program prints if an allocation fails.
pub(crate) const MEMORY_LINE: &[u8] = b"memory:0: Memory\n";

/// The percentages of the 13 ticks of the oscillator, one by one.
const PERCENTS: &[u8] = b"\r0%\r7%\r15%\r23%\r30%\r38%\r46%\r53%\r61%\r69%\r76%\r84%\r92%\r100%\n";

/// The text of the fan-in cone of the oscillator's gate.
pub(crate) const CONE: &[u8] = b"INPUT(e)\ny = NAND(e, y)\nOUTPUT(y)\n";

/// The answer to `twin` for the oscillator and itself.
pub(crate) const TWINS: &[u8] =
    b"agree yes\nfirst 2 1\nfirst 7 0\nfirst 9 1\nfirst 11 0\nsecond 2 1\nsecond 7 0\nsecond 9 1\nsecond 11 0\n";

/// The answer to `check` for the oscillator.
pub(crate) const SAME: &[u8] = b"nets 2\npins 2\nsame 2\n";

/// The answer to `info` for the oscillator.
pub(crate) const INFO: &[u8] = b"nets 2\npins 2\ninputs 1\noutputs 0\nflip-flops 0\ngates 1\n\
      AND 0\nNAND 1\nOR 0\nNOR 0\nXOR 0\nXNOR 0\nNOT 0\nBUF 0\n\
      fan-in 2 y\nfan-out 1 e\nloop y\nunobserved e\nunobserved y\n";

/// The answer to `diff` for the oscillator and itself.
pub(crate) const NO_DIFFERENCE: &[u8] = b"y same\ne same\n";

/// The ticks of the oscillator, all of which are compared.
const COUNTING: DiffTicks = DiffTicks {
    horizon: 12,
    from: 0,
    every: 1,
};

/// Probes the calls for runs, then those for decks.
pub(crate) fn probe<W: Write>(alloc: Global, teller: &mut Teller<W>) -> Option<()> {
    for (source, horizon, dump) in &RUNS {
        let view = View {
            horizon: *horizon,
            show: Show::All,
            unit: TimeUnit::Ns,
        };
        dumps(alloc, teller, source, &view, dump)?;
    }
    for (source, horizon, dump) in &INPUT_RUNS {
        let view = DumpView {
            horizon: *horizon,
            show: reported(teller, "Selection::Named", input_twice(alloc))?,
            unit: TimeUnit::Ns,
        };
        named_dumps(alloc, teller, source, &view, dump)?;
    }
    progress(alloc, teller)?;
    comparisons(alloc, teller)?;
    decks(alloc, teller)?;
    readings(alloc, teller)
}

/// The input alone, named twice.
fn input_twice(alloc: Global) -> Result<Selection<'static>, AllocError> {
    let name: &'static [u8] = b"e";
    Ok(Selection::Named(Vec::from_slice(alloc, &[name, name])?))
}

/// Reports a call that writes a text. All of the text has been written if the call succeeded, otherwise a
/// prefix.
pub(crate) fn ended<T: Drop, E: Fault + Drop, W: Write>(
    teller: &mut Teller<W>,
    call: &str,
    answer: Result<T, E>,
    out: &Follower,
) -> Option<()> {
    match answer {
        Ok(_) => teller.fine(call, out.is_whole()),
        Err(fault) => {
            teller.refused(call, fault.is_memory() && out.follows());
            None
        }
    }
}

fn dumps<W: Write>(
    alloc: Global,
    teller: &mut Teller<W>,
    source: &Source<'_>,
    view: &View,
    dump: &'static [u8],
) -> Option<()> {
    let mut out = Follower::of(dump);
    let answer = simulate(alloc, source, view, &mut out);
    ended(teller, "kernel_runs::simulate", answer, &out)?;
    let mut out = Follower::of(dump);
    let answer = sweep(alloc, source, view, &mut out);
    ended(teller, "kernel_runs::sweep", answer, &out)?;
    let mut out = Follower::of(dump);
    let answer = plain(alloc, source, view, &mut out);
    ended(teller, "plain_runs::plain", answer, &out)
}

fn named_dumps<W: Write>(
    alloc: Global,
    teller: &mut Teller<W>,
    source: &Source<'_>,
    view: &DumpView<'_>,
    dump: &'static [u8],
) -> Option<()> {
    let mut out = Follower::of(dump);
    let answer = simulate_with_progress(alloc, source, view, &mut out, &mut Silent);
    ended(teller, "kernel_runs::simulate_with_progress", answer, &out)?;
    let mut out = Follower::of(dump);
    let answer = sweep_with_progress(alloc, source, view, &mut out, &mut Silent);
    ended(teller, "kernel_runs::sweep_with_progress", answer, &out)?;
    let mut out = Follower::of(dump);
    let answer = plain_with_progress(alloc, source, view, &mut out, &mut Silent);
    ended(teller, "plain_runs::plain_with_progress", answer, &out)
}

/// The oscillator by the plain engine. If an allocation fails, the line of percentages ends early.
fn progress<W: Write>(alloc: Global, teller: &mut Teller<W>) -> Option<()> {
    let view = DumpView {
        horizon: 12,
        show: Selection::All,
        unit: TimeUnit::Ns,
    };
    let (mut out, mut err) = (Follower::of(OSCILLATOR_DUMP), Follower::of(PERCENTS));
    let mut percents = Percents::new(&mut err);
    let answer = plain_with_progress(alloc, &OSCILLATOR, &view, &mut out, &mut percents);
    percents.end();
    match answer {
        Ok(()) => teller.fine(
            "plain_runs::plain_with_progress",
            out.is_whole() && err.is_whole(),
        ),
        Err(fault) => {
            let reported = fault.is_memory() && out.follows();
            teller.refused("plain_runs::plain_with_progress", reported);
            None
        }
    }
}

fn comparisons<W: Write>(alloc: Global, teller: &mut Teller<W>) -> Option<()> {
    let answer = twin(alloc, &OSCILLATOR, &OSCILLATOR, b"y", 12);
    let twins = reported(teller, "kernel_runs::twin", answer)?;
    reported(teller, "kernel_runs::twin_text", twin_text(alloc, &twins))?;
    let checked = reported(teller, "kernel_runs::check", check(alloc, &OSCILLATOR, 12))?;
    reported(
        teller,
        "kernel_runs::check_text",
        check_text(alloc, &checked),
    )?;
    let text = cone_text(alloc, OSCILLATOR.bench, &[b"y".as_slice()]);
    reported(teller, "fanin_cone::cone_text", text)?;
    let answer = diff(alloc, &OSCILLATOR, &OSCILLATOR, &[], COUNTING);
    reported(teller, "kernel_runs::diff", answer)?;
    reported(
        teller,
        "plain_runs::notes_text",
        notes_text(alloc, &OSCILLATOR, 12),
    )?;
    Some(())
}

fn decks<W: Write>(alloc: Global, teller: &mut Teller<W>) -> Option<()> {
    let mut out = Follower::of(OSCILLATOR_DUMP);
    let answer = deck(alloc, DECK, &mut out);
    ended(teller, "program_io::deck", answer, &out)?;
    let (mut out, mut err) = (Follower::of(OSCILLATOR_DUMP), Follower::of(MEMORY_LINE));
    let status = answer_deck(alloc, DECK, &mut out, &mut err);
    answered(teller, "program_io::answer_deck", status, &out, &err)?;
    let (mut out, mut err) = (Follower::of(OSCILLATOR_DUMP), Follower::of(MEMORY_LINE));
    let mut input = DECK;
    let status = tell(alloc, &mut input, &mut out, &mut err);
    answered(teller, "program_io::tell", status, &out, &err)
}

/// Reports a call that returns a status: 0 if its text has been written and nothing was reported, and 4 if a
/// prefix has been written and a failed allocation was reported.
pub(crate) fn answered<W: Write>(
    teller: &mut Teller<W>,
    call: &str,
    status: u8,
    out: &Follower,
    err: &Follower,
) -> Option<()> {
    if status == 0 {
        return teller.fine(call, out.is_whole() && err.left() == MEMORY_LINE.len());
    }
    teller.refused(call, status == 4 && out.follows() && err.is_whole());
    None
}

/// A text that comes in several pieces.
fn readings<W: Write>(alloc: Global, teller: &mut Teller<W>) -> Option<()> {
    let bytes = [b'z'; 20_000];
    let mut input = bytes.as_slice();
    let text = reported(teller, "read_text", read_text(alloc, &mut input))?;
    teller.fine("read_text", text.as_slice() == bytes.as_slice())
}
