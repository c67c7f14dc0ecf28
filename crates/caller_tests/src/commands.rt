//! The program with arguments, over a caller's own texts and writers, which define nothing but their calls.
use nullsim::{ReadFault, Texts, command};
use std::alloc::{AllocError, Global};
use std::process::Abort;
use std::test::Fail;
use worked_examples::dumps::{INVERTER_DUMP, OUTPUTS_DUMP};
use worked_examples::{S27_BENCH, S27_STIMULI};

/// A text with its name.
type Named = (&'static str, &'static [u8]);

static FILES: [Named; 8] = [
    ("inv.bench", b"INPUT(a)\nOUTPUT(y)\ny = NOT(a)\n"),
    ("inv.stim", b"0 a 0\n3 a 1\n"),
    ("bad.sched", b"deliver y 1\n"),
    (
        "one.bench",
        b"INPUT(a)\nOUTPUT(y)\ny = NOT(a)\nINPUT(b)\nz = AND(a, b)\n",
    ),
    (
        "other.bench",
        b"INPUT(c)\nk = BUF(c)\nm = NOT(k)\nz = XOR(a, b)\nINPUT(b)\nINPUT(a)\ny = NOT(a)\n",
    ),
    ("both.stim", b"0 a 0\n3 a 1\n0 b 1\n"),
    ("s27.bench", S27_BENCH),
    ("s27.stim", S27_STIMULI),
];

/// Texts by name, without anything else about them.
#[derive(Drop)]
struct Map {
    alloc: Global,
    texts: &'static [Named],
}

impl Texts for Map {
    fn text(&mut self, name: &str) -> Result<Vec<u8>, ReadFault> {
        match self.texts.iter().find(|named| named.0 == name) {
            Some(named) => Ok(Vec::from_slice(self.alloc, named.1)?),
            None => Err(ReadFault::Read),
        }
    }
}

fn words_of(alloc: Global, line: &str) -> Result<Vec<String>, AllocError> {
    let mut words: Vec<String> = Vec::new(alloc);
    for word in line.split_whitespace() {
        words.push(word.to_string(alloc)?)?;
    }
    Ok(words)
}

// The arguments, the status, standard output and standard error.
type Row = (&'static str, u8, &'static [u8], &'static [u8]);

static ROWS: [Row; 15] = [
    (
        "run --bench inv.bench --stimuli inv.stim --horizon 5 --counts",
        0,
        INVERTER_DUMP,
        b"events 7 changes 4 nulls 3 rounds 2\n",
    ),
    (
        "run --bench inv.bench --stimuli inv.stim --horizon 5 --show outputs --unit ps",
        0,
        OUTPUTS_DUMP,
        b"",
    ),
    (
        "plain --bench inv.bench --stimuli inv.stim --horizon 5 --show all --unit ns",
        0,
        INVERTER_DUMP,
        b"",
    ),
    (
        "cone --bench one.bench y",
        0,
        b"INPUT(a)\ny = NOT(a)\nOUTPUT(y)\n",
        b"",
    ),
    (
        "twin --first one.bench --first-stimuli both.stim --second other.bench --second-stimuli both.stim --net y --horizon 5",
        0,
        b"agree yes\nfirst 1 1\nfirst 4 0\nsecond 1 1\nsecond 4 0\n",
        b"",
    ),
    (
        "twin --first one.bench --first-stimuli both.stim --second other.bench --second-stimuli both.stim --net z --horizon 5",
        0,
        b"agree no\nfirst 1 0\nfirst 4 1\nsecond 1 1\nsecond 4 0\n",
        b"",
    ),
    (
        "twin --first one.bench --second other.bench --net m --horizon 5",
        1,
        b"",
        b"one.bench:0: UnknownNet\n",
    ),
    (
        "cone --bench s27.bench G12 G14 G12",
        0,
        b"INPUT(G0)\nINPUT(G1)\nINPUT(G2)\nG7 = DFF(G13)\nG14 = NOT(G0)\nG12 = NOR(G1, G7)\nG13 = NOR(G2, G12)\nOUTPUT(G12)\nOUTPUT(G14)\n",
        b"",
    ),
    (
        "check --bench s27.bench --stimuli s27.stim --horizon 35",
        0,
        b"nets 17\npins 21\nsame 17\n",
        b"",
    ),
    (
        "run --bench inv.bench --schedule bad.sched --horizon 5",
        1,
        b"",
        b"bad.sched:1: BadPin\n",
    ),
    (
        "run --bench none.bench --schedule bad.sched --horizon 5 --delay 0",
        3,
        b"",
        b"none.bench:0: Read\n",
    ),
    (
        "plain --bench inv.bench --horizon 10000001",
        1,
        b"",
        b"options:0: BadHorizon\n",
    ),
    (
        "run --bench inv.bench --horizon 5 --picks 10000001",
        1,
        b"",
        b"schedule:0: TooManyEvents\n",
    ),
    (
        "twin --first inv.bench --second one.bench --net z --horizon 10000001",
        1,
        b"",
        b"options:0: BadHorizon\n",
    ),
    (
        "twin --first inv.bench --second one.bench --net z --horizon 5",
        1,
        b"",
        b"inv.bench:0: UnknownNet\n",
    ),
];

#[test]
fn answers(rt: HostRuntime) -> Result<(), Fail> {
    for &(line, wanted, dump, message) in &ROWS {
        let words: Vec<String> = words_of(rt.alloc(), line)?;
        let mut texts = Map {
            alloc: rt.alloc(),
            texts: FILES.as_slice(),
        };
        let mut out: Vec<u8> = Vec::new(rt.alloc());
        let mut err: Vec<u8> = Vec::new(rt.alloc());
        let status: u8 = command(rt.alloc(), &words, &mut texts, &mut out, &mut err);
        assert_eq!(rt; status, wanted, "at {line}");
        assert!(rt; out.as_slice() == dump, "at {line}");
        assert!(rt; err.as_slice() == message, "at {line}");
    }
    Ok(())
}

// Wrong arguments: nothing is read, and nothing is written to standard output.
#[test]
fn usage(rt: HostRuntime) -> Result<(), Fail> {
    for line in [
        "run --bench none.bench",
        "run --bench none.bench --horizon 5 --show y",
        "run --bench none.bench --horizon 5 --show all --show all",
        "run --bench none.bench --horizon 5 --schedule none.sched --picks 1",
        "cone --bench none.bench",
    ] {
        let words: Vec<String> = words_of(rt.alloc(), line)?;
        let mut texts = Map {
            alloc: rt.alloc(),
            texts: FILES.as_slice(),
        };
        let mut out: Vec<u8> = Vec::new(rt.alloc());
        let mut err: Vec<u8> = Vec::new(rt.alloc());
        let status: u8 = command(rt.alloc(), &words, &mut texts, &mut out, &mut err);
        assert_eq!(rt; status, 2, "at {line}");
        assert!(rt; out.is_empty() && !err.is_empty(), "at {line}");
    }
    Ok(())
}
