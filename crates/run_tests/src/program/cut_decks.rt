//! Decks that are cut off, and numbers of a hundred digits in them.
use crate::program::deck_reports::INVERTER;
use nullsim::tell;
use std::alloc::Global;
use std::io::Read;
use std::process::Abort;
use worked_examples::dumps::INVERTER_DUMP;

/// The answer to a deck: the status, standard output, and the fault line.
pub(crate) fn answers<R: Read>(
    rt: &impl Abort,
    alloc: Global,
    input: &mut R,
    status: u8,
    dump: &[u8],
    fault: &[u8],
) {
    let (mut out, mut err) = (Vec::new(alloc), Vec::new(alloc));
    let got = tell(alloc, input, &mut out, &mut err);
    assert!(rt; got == status && out.as_slice() == dump && err.as_slice() == fault);
}

// The inverter's dump without stimuli.
const UNDRIVEN: &[u8] =
    b"$version nullsim 1 $end\n$timescale 1 ns $end\n$scope module top $end\n$var wire 1 ! a $end\n$var wire 1 \" y $end\n$upscope $end\n$enddefinitions $end\n#0\n$dumpvars\nx!\nx\"\n$end\n#5\n";

// The number of bytes after which the inverter's deck is cut off, and its answer.
static CUTS: [(usize, u8, &[u8], &[u8]); 14] = [
    (0, 1, b"", b"deck:1: BadDeck\n"),
    (8, 1, b"", b"deck:1: BadDeck\n"),
    (9, 1, b"", b"deck:1: BadDeck\n"),
    (10, 1, b"", b"bench:0: NoNets\n"),
    (14, 1, b"", b"deck:2: BadDeck\n"),
    (17, 1, b"", b"bench:0: NoNets\n"),
    (24, 1, b"", b"bench:1: BadLine\n"),
    (36, 1, b"", b"bench:2: Undefined\n"),
    (47, 0, UNDRIVEN, b""),
    (52, 1, b"", b"bench:4: BadLine\n"),
    (56, 0, UNDRIVEN, b""),
    (58, 1, b"", b"stimuli:1: BadLine\n"),
    (68, 0, INVERTER_DUMP, b""),
    (69, 0, INVERTER_DUMP, b""),
];

#[test]
fn worked_cuts(rt: HostRuntime) {
    assert!(rt; INVERTER.len() == 69);
    for &(bytes, status, dump, fault) in &CUTS {
        let mut deck = &INVERTER[..bytes.min(INVERTER.len())];
        answers(&rt, rt.alloc(), &mut deck, status, dump, fault);
    }
}

// Cut off after any of its bytes, the deck is refused in one line, or runs.
#[test]
fn every_cut(rt: HostRuntime) {
    for bytes in 0..=INVERTER.len() {
        let mut input = &INVERTER[..bytes];
        let (mut out, mut err) = (Vec::new(rt.alloc()), Vec::new(rt.alloc()));
        let status = tell(rt.alloc(), &mut input, &mut out, &mut err);
        let is_expected = match status {
            0 => err.is_empty() && !out.is_empty(),
            1 => !err.is_empty() && out.is_empty(),
            _ => false,
        };
        assert!(rt; is_expected, "{status} after {bytes}");
    }
}

// One hundred times the digit 9.
const NINES: &[u8] =
    b"9999999999999999999999999999999999999999999999999999999999999999999999999999999999999999999999999999";

// A deck before a long number and after it, and the fault line.
static LONG_NUMBERS: [(&[u8], &[u8], &[u8]); 3] = [
    (
        b"%nullsim ",
        b"\n%bench\nINPUT(a)\n",
        b"options:0: BadHorizon\n",
    ),
    (
        b"%nullsim 5\n%bench\nINPUT(a)\n%stimuli\n",
        b" a 1\n",
        b"stimuli:1: TickTooLarge\n",
    ),
    (
        b"%nullsim 5\n%bench\nINPUT(a)\ny = NOT(a)\n%schedule\ndeliver y ",
        b"\n",
        b"schedule:1: BadPin\n",
    ),
];

#[test]
fn long_numbers(rt: HostRuntime) -> Result<(), std::test::Fail> {
    assert!(rt; NINES.len() == 100);
    for &(before, after, fault) in &LONG_NUMBERS {
        let mut deck = Vec::from_slice(rt.alloc(), before)?;
        deck.extend_from_slice(NINES)?;
        deck.extend_from_slice(after)?;
        answers(&rt, rt.alloc(), &mut deck.as_slice(), 1, b"", fault);
    }
    Ok(())
}
