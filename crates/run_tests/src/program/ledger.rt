//! The files that an order reads, in sequence: texts that record the requests to them.
ghost use Rattle.std.specs.Prelude.{[], ◌∷◌};
ghost use Rattle.program_io.specs.Readings.{AddsReadings};
ghost use Rattle.run_tests.specs.Ledger.{seen_notes};
ghost use Rattle.run_tests.specs.Shelf.{text_under};

use crate::program::shelf::{Shelf, words_of};
use nullsim::{ReadFault, Texts, command};
use std::alloc::{AllocError, Global};
use std::process::Abort;

/// A text that was requested, and why it couldn't be read, if it couldn't.
type Note = (Vec<u8>, Option<ReadFault>);

/// Texts on a shelf, and the requests to it; without a record once an allocation for one has failed.
#[derive(Drop)]
struct Ledger {
    alloc: Global,
    shelf: Shelf<'static>,
    notes: Option<Vec<Note>>,
}

impl Texts for Ledger {
    ghost known = { λ ledger. text_under ledger.shelf.texts.now };

    ghost readings = { λ ledger. seen_notes ledger.notes };

    fn text(&mut self, name: &str) -> Result<Vec<u8>, ReadFault> {
        let notes = self.notes.take();
        match self.shelf.text(name) {
            Ok(text) => {
                self.notes = noted(self.alloc, notes, name, None);
                Ok(text)
            }
            Err(fault) => {
                self.notes = noted(self.alloc, notes, name, Some(fault));
                Err(fault)
            }
        }
    }
}

// The record and one more entry.
fn noted(
    alloc: Global,
    notes: Option<Vec<Note>>,
    name: &str,
    fault: Option<ReadFault>,
) -> Option<Vec<Note>>
    ensures { AddsReadings (seen_notes notes) (seen_notes result)
        (record { name = name.now; fault = fault } ∷ []) }
{
    let mut notes = notes?;
    let name = Vec::from_slice(alloc, name.as_bytes()).ok()?;
    notes.push((name, fault)).ok()?;
    Some(notes)
}

// The requested names, each followed by a space, and with a mark before one that couldn't be read.
fn names_of(alloc: Global, notes: &[Note]) -> Result<Vec<u8>, AllocError> {
    let mut names = Vec::new(alloc);
    for (name, fault) in notes {
        let mark = if fault.is_some() {
            b"!".as_slice()
        } else {
            b"".as_slice()
        };
        for part in [mark, name.as_slice(), b" ".as_slice()] {
            names.extend_from_slice(part)?;
        }
    }
    Ok(names)
}

// The names that the arguments request.
fn names_asked(alloc: Global, line: &str) -> Result<Vec<u8>, AllocError> {
    let words = words_of(alloc, line)?;
    let mut ledger = Ledger {
        alloc,
        shelf: Shelf::new(alloc),
        notes: Some(Vec::new(alloc)),
    };
    let (mut out, mut err) = (Vec::new(alloc), Vec::new(alloc));
    let _ = command(alloc, words.as_slice(), &mut ledger, &mut out, &mut err);
    match &ledger.notes {
        Some(notes) => names_of(alloc, notes.as_slice()),
        None => Ok(Vec::new(alloc)),
    }
}

#[test]
fn files_in_their_order(rt: HostRuntime) -> Result<(), AllocError> {
    for (line, names) in [
        (
            "run --schedule ahead.sched --stimuli inv.stim --delays slow.delays --bench inv.bench --horizon 5",
            "inv.bench slow.delays inv.stim ahead.sched ",
        ),
        (
            "run --bench inv.bench --stimuli inv.stim --horizon 5",
            "inv.bench inv.stim ",
        ),
        // The content of a file is checked when all files have been read.
        (
            "plain --bench bad.bench --delays none.delays --stimuli inv.stim --horizon 5",
            "bad.bench !none.delays ",
        ),
        (
            "plain --bench bad.bench --delays bad.delays --stimuli too-big --horizon 5",
            "bad.bench bad.delays !too-big ",
        ),
        (
            "check --bench bad.bench --period 0 --stimuli inv.stim --horizon 10000001",
            "bad.bench inv.stim ",
        ),
        // The files of a first run come before those of a second.
        (
            "twin --second inv.bench --second-delays slow.delays --first one.bench --first-stimuli inv.stim --net y --horizon 5",
            "one.bench inv.stim inv.bench slow.delays ",
        ),
        (
            "diff --first bad.bench --second none.bench --second-stimuli inv.stim --horizon 5",
            "bad.bench !none.bench ",
        ),
        ("cone --bench inv.bench y", "inv.bench "),
        // Arguments that are wrong, and help, need no file.
        ("plain --bench inv.bench", ""),
        ("run --bench inv.bench --horizon 5 --help", ""),
    ] {
        let asked = names_asked(rt.alloc(), line)?;
        assert!(&rt; asked.as_slice() == names.as_bytes(), "at {line}");
    }
    Ok(())
}
