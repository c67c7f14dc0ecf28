//! Arguments, orders and the program with arguments: a prefix of the answer has been written, and a failed
//! allocation is reported.
use crate::faults::reported;
use crate::whole_runs::{
    CONE, INFO, MEMORY_LINE, NO_DIFFERENCE, OSCILLATOR, SAME, TWINS, answered, ended,
};
use engine_probes::{Follower, Teller};
use nullsim::{
    Asked, Order, ReadFault, Texts, answer_order, asked_by_words, command, read_text, read_texts,
    write_answer,
};
use prepared_runs::Silent;
use std::alloc::{AllocError, Global};
use std::io::{self, Error, ErrorKind, Write};
use worked_examples::dumps::OSCILLATOR_DUMP;

/// The texts of the oscillator, each read anew at each request.
#[derive(Drop)]
struct Shelf {
    alloc: Global,
}

impl Texts for Shelf {
    fn text(&mut self, name: &str) -> Result<Vec<u8>, ReadFault> {
        let mut text = match name {
            "e.bench" => OSCILLATOR.bench,
            "e.delays" => OSCILLATOR.delays,
            "e.stimuli" => OSCILLATOR.stimuli,
            "e.schedule" => b"advance e\nadvance y\n".as_slice(),
            _ => return Err(ReadFault::Read),
        };
        read_text(self.alloc, &mut text)
    }
}

/// Arguments and their answer.
type Line = (&'static str, &'static [u8]);

static LINES: [Line; 9] = [
    (
        "run --bench e.bench --delays e.delays --stimuli e.stimuli --schedule e.schedule --horizon 12",
        OSCILLATOR_DUMP,
    ),
    (
        "plain --bench e.bench --delays e.delays --stimuli e.stimuli --horizon 12",
        OSCILLATOR_DUMP,
    ),
    ("cone --bench e.bench y", CONE),
    (
        "twin --net y --horizon 12 --first e.bench --first-delays e.delays --first-stimuli e.stimuli \
          --second e.bench --second-delays e.delays --second-stimuli e.stimuli",
        TWINS,
    ),
    (
        "check --bench e.bench --delays e.delays --stimuli e.stimuli --horizon 12",
        SAME,
    ),
    ("info --bench e.bench", INFO),
    (
        "diff --nets y,e --horizon 12 --first e.bench --first-delays e.delays --first-stimuli e.stimuli \
          --second e.bench --second-delays e.delays --second-stimuli e.stimuli",
        NO_DIFFERENCE,
    ),
    (
        "draw --bench e.bench --delays e.delays --stimuli e.stimuli --horizon 12 --nets e --bus y",
        b"   0.........10........\ne  _____/-------\ny  x.1....0.1.0.\n",
    ),
    (
        "why --bench e.bench --delays e.delays --stimuli e.stimuli --net y --at 6",
        b"y@6 = 1 since 2: y = NAND(e, y), e@0 = 0, y@0 = x\ne@0 = 0: INPUT(e), stimulus 0 e 0\n",
    ),
];

/// A writer that fails with a message of the system.
#[derive(Drop)]
struct Full {}

impl Write for Full {
    fn write(&mut self, _buf: &[u8]) -> io::Result<usize> {
        Err(Error::from(ErrorKind::StorageFull))
    }

    fn flush(&mut self) -> io::Result<()> {
        Err(Error::from(ErrorKind::StorageFull))
    }
}

/// Standard error with `--verbose` if an answer is to be written to such a writer.
const UNWRITTEN: &[u8] = b"stdout:0: Write\n\
    system error: no storage space\n\
    Write (reading and writing): standard output couldn't be written or flushed: the disk is full, or its reader has ended.\n\
    needed: free space on the disk, or a reader that reads to the end\n";

/// Probes each command, and one whose answer can't be written.
pub(crate) fn probe<W: Write>(alloc: Global, teller: &mut Teller<W>) -> Option<()> {
    for (line, text) in &LINES {
        let words = reported(teller, "words", words_of(alloc, line))?;
        orders(alloc, teller, words.as_slice(), text)?;
        commands(alloc, teller, words.as_slice(), text)?;
    }
    unwritten(alloc, teller)
}

fn words_of(alloc: Global, line: &str) -> Result<Vec<String>, AllocError> {
    let mut words = Vec::new(alloc);
    for word in line.split_whitespace() {
        words.push(word.to_string(alloc)?)?;
    }
    Ok(words)
}

fn orders<W: Write>(
    alloc: Global,
    teller: &mut Teller<W>,
    words: &[String],
    text: &'static [u8],
) -> Option<()> {
    match reported(teller, "asked_by_words", asked_by_words(alloc, words))? {
        Asked::Order { order, .. } => {
            carried_out(alloc, teller, &order, text)?;
            reported_orders(alloc, teller, &order, text)
        }
        Asked::Explanation { .. } | Asked::FaultNames => Some(()),
    }
}

fn carried_out<W: Write>(
    alloc: Global,
    teller: &mut Teller<W>,
    order: &Order<'_>,
    text: &'static [u8],
) -> Option<()> {
    let mut shelf = Shelf { alloc };
    let mut out = Follower::of(text);
    let texts = reported(teller, "read_texts", read_texts(alloc, order, &mut shelf))?;
    let answer = write_answer(alloc, order, &texts, &mut out, &mut Silent);
    ended(teller, "write_answer", answer, &out)
}

fn reported_orders<W: Write>(
    alloc: Global,
    teller: &mut Teller<W>,
    order: &Order<'_>,
    text: &'static [u8],
) -> Option<()> {
    let mut shelf = Shelf { alloc };
    let (mut out, mut err) = (Follower::of(text), Follower::of(MEMORY_LINE));
    let status = answer_order(alloc, order, false, &mut shelf, &mut out, &mut err);
    answered(teller, "answer_order", status, &out, &err)
}

fn commands<W: Write>(
    alloc: Global,
    teller: &mut Teller<W>,
    words: &[String],
    text: &'static [u8],
) -> Option<()> {
    let mut shelf = Shelf { alloc };
    let (mut out, mut err) = (Follower::of(text), Follower::of(MEMORY_LINE));
    let status = command(alloc, words, &mut shelf, &mut out, &mut err);
    answered(teller, "command", status, &out, &err)
}

/// Reports that a writer is full, and the system's message, unless an allocation for it failed.
fn unwritten<W: Write>(alloc: Global, teller: &mut Teller<W>) -> Option<()> {
    let words = reported(teller, "words", words_of(alloc, "info --bench e.bench -v"))?;
    let mut err = Follower::of(UNWRITTEN);
    let mut shelf = Shelf { alloc };
    let status = command(alloc, words.as_slice(), &mut shelf, &mut Full {}, &mut err);
    if err.is_whole() {
        return teller.fine("command, unwritten", status == 3);
    }
    teller.refused("command, unwritten", status == 3 || status == 4);
    None
}
