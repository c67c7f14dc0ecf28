//! The program with any arguments: decks that are answered verbosely, and what reads no deck.
use crate::program::deck_reports::INVERTER;
use crate::program::failures::{FAILURES, Failure, Short};
use crate::program::inputs::Source;
use crate::program::shelf::{Shelf, words_of};
use nullsim::answer_arguments;
use std::alloc::Global;
use std::io::{ErrorKind, Read, Write};
use std::process::Abort;
use std::test::Fail;
use worked_examples::dumps::INVERTER_DUMP;

/// Returns the exit status of a call with these arguments, unless there is no memory for them.
fn status_with<R: Read, W: Write>(
    alloc: Global,
    line: &str,
    input: &mut R,
    out: &mut W,
    err: &mut Vec<u8>,
) -> Option<u8> {
    match words_of(alloc, line) {
        Ok(words) => {
            let mut shelf = Shelf::new(alloc);
            Some(answer_arguments(alloc, words.as_slice(), input, &mut shelf, out, err))
        }
        Err(_) => None,
    }
}

/// Arguments for which the inverter's deck is read to its end, or not at all, and the answer.
static ANSWERS: [(&str, bool, &[u8]); 5] = [
    ("", true, INVERTER_DUMP),
    ("--verbose", true, INVERTER_DUMP),
    ("-v", true, INVERTER_DUMP),
    ("--version", false, b"nullsim 1\n"),
    (
        "cone -v --bench inv.bench a",
        false,
        b"INPUT(a)\nOUTPUT(a)\n",
    ),
];

#[test]
fn decks_and_commands(rt: HostRuntime) {
    for &(line, reads, answer) in &ANSWERS {
        let (mut input, mut out, mut err) = (INVERTER, Vec::new(rt.alloc()), Vec::new(rt.alloc()));
        let status = status_with(rt.alloc(), line, &mut input, &mut out, &mut err);
        let is_answered = status == Some(0) && out.as_slice() == answer && err.is_empty();
        assert!(rt; is_answered && input.is_empty() == reads, "at {line}");
    }
}

/// Refused decks, and what is printed of them first with `-v`.
static REFUSED: [(&[u8], &[u8]); 3] = [
    (
        b"%nullsim 5\n%bench\nINPUT(a)\n%stimuli\n0 a 0\n1 b 1\n",
        b"stimuli:2: UnknownNet\nline 2 of %stimuli is line 6 of the deck\nline 2: 1 b 1\ngiven: b\n",
    ),
    (
        b"%nullsim 5\n\n%bench\r\nINPUT(a)\nINPUT(a)",
        b"bench:2: DefinedTwice\nline 2 of %bench is line 5 of the deck\nline 2: INPUT(a)\n",
    ),
    (b"%nullsim 5\nx", b"deck:2: BadDeck\nline 2: x\n"),
];

#[test]
fn refused_decks(rt: HostRuntime) {
    for &(deck, message) in &REFUSED {
        let (mut input, mut out, mut err) = (deck, Vec::new(rt.alloc()), Vec::new(rt.alloc()));
        let status = status_with(rt.alloc(), "-v", &mut input, &mut out, &mut err);
        assert!(rt; status == Some(1) && out.is_empty() && err.starts_with(message));
    }
}

/// With such a writer, the status is 3, and the fault is explained.
fn is_explained(rt: &impl Abort, alloc: Global, failure: &Failure) -> Result<(), Fail> {
    let (room, behind, fault, explained) = *failure;
    let mut message = Vec::from_slice(alloc, fault.as_bytes())?;
    message.extend_from_slice(explained.as_bytes())?;
    let (mut input, mut err) = (INVERTER, Vec::new(alloc));
    let status = status_with(
        alloc,
        "-v",
        &mut input,
        &mut Short { room, behind },
        &mut err,
    );
    assert!(rt;
        status == Some(3) && err.as_slice() == message.as_slice(),
        "at {room}"
    );
    Ok(())
}

#[test]
fn failed_writes_of_a_deck(rt: HostRuntime) -> Result<(), Fail> {
    for failure in &FAILURES {
        is_explained(&rt, rt.alloc(), failure)?;
    }
    Ok(())
}

#[test]
fn a_failed_read_of_a_deck(rt: HostRuntime) {
    let mut input = Source {
        left: Some(10),
        a_call: 4,
        kind: ErrorKind::PermissionDenied,
    };
    let (mut out, mut err) = (Vec::new(rt.alloc()), Vec::new(rt.alloc()));
    let status = status_with(rt.alloc(), "--verbose", &mut input, &mut out, &mut err);
    let begin = b"stdin:0: Read\nsystem error: permission denied\nRead (reading and writing): ";
    assert!(rt; status == Some(3) && out.is_empty() && err.starts_with(begin.as_slice()));
}
