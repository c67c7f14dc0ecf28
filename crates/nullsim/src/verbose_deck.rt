//! A deck from standard input whose fault is explained.
ghost use Rattle.std.specs.Prelude.{◌≡◌, IfErr, IfOk};
ghost use Rattle.program_io.specs.Answers.{AnswerEndsBy, GoesOut, IsNoRead};
ghost use Rattle.program_io.specs.DeckRun.{deck_answer};
ghost use Rattle.program_io.specs.Report.{IsWritten, WithStatus};
ghost use Rattle.nullsim.specs.Decks.{DeckFaultTold, DeckTold, TellsVerbosely, deck_explanation, deck_notes};
ghost use Rattle.nullsim.specs.Verbose.{if_given};

use crate::deck_fault::{deck_explanation, sections_in};
use crate::notes::notes_or_none;
use crate::parts::followed;
use crate::read_reasons::ReaderWithReason;
use crate::reasons::{NamedWriter, WithReason, WriterName, said_of};
use explanations::Table;
use prepared_runs::SECTIONS;
use program_io::status::DONE;
use program_io::{
    Exit, Outcome, ProgramFault, read_text, report, source_of_deck, unread_deck, write_deck,
};
use std::alloc::Global;
use std::io::{Error, Read, Write};
use std::marker::{Brand, PhantomData};
use texts::write_all_bytes;
use vcd_dump::DumpFault;

/// Reads a deck and answers it as [`tell`](program_io::tell) does; returns the exit status.
///
/// An explanation by these tables follows the line of a fault on `err`: which line of the deck is at fault, if
/// it is in a section; that line; and what is known of the fault, as
/// [`answer_verbosely`](crate::answer_verbosely) writes it. Without a fault, the notes on the run are written
/// there. If an allocation for either fails, it is left out.
pub fn tell_verbosely<R: Read, W: Write, E: Write>(
    alloc: Global,
    tables: &[Table],
    input: &mut R,
    out: &mut W,
    err: &mut E,
) -> u8
    ensures { WithStatus result (λ exit. TellsVerbosely tables.now (E.contents err.old) (E.contents err.new) exit
        (W.contents out.old) (W.contents out.new) (R.remaining input.old)) }
{
    exit_of_input(alloc, tables, input, out, err).status
}

/// Does the same, and returns whether what is printed on `err` was written too.
fn exit_of_input<R: Read, W: Write, E: Write>(
    alloc: Global,
    tables: &[Table],
    input: &mut R,
    out: &mut W,
    err: &mut E,
) -> Exit
    ensures { TellsVerbosely tables.now (E.contents err.old) (E.contents err.new) result
        (W.contents out.old) (W.contents out.new) (R.remaining input.old) }
{
    let mut input = ReaderWithReason::new(input);
    match read_text(alloc, &mut input) {
        Ok(deck) => exit_of_deck(alloc, tables, deck.as_slice(), out, err),
        Err(fault) => {
            let said = said_of(alloc, input.end());
            let said = said.as_ref().map(|said| said.as_bytes());
            report_deck(alloc, tables, &[], unread_deck(fault), said, err)
        }
    }
}

/// Does the same for a deck that was read.
fn exit_of_deck<W: Write, E: Write>(
    alloc: Global,
    tables: &[Table],
    deck: &[u8],
    out: &mut W,
    err: &mut E,
) -> Exit
    ensures { DeckTold tables.now (E.contents err.old) (E.contents err.new) result
        (W.contents out.old) (W.contents out.new) deck.now }
{
    let (written, failed) = write_deck_heard(alloc, deck, out);
    match written {
        Ok(_) => Exit {
            status: DONE,
            written: write_notes(alloc, deck, err),
        },
        Err(fault) => {
            let said = said_of(alloc, failed);
            let said = said.as_ref().map(|said| said.as_bytes());
            report_deck(alloc, tables, deck, fault, said, err)
        }
    }
}

/// Writes the dump of a deck's run as [`write_deck`] does. Also returns the last failure of a write or a flush,
/// if any.
fn write_deck_heard<'d, W: Write>(
    alloc: Global,
    deck: &'d [u8],
    out: &mut W,
) -> (Result<Outcome, ProgramFault<'d>>, Option<Error>)
    ensures ok { IfOk result.0 (GoesOut (λ answer. answer ≡ deck_answer deck.now)
        (W.contents out.old) (W.contents out.new)) }
    ensures err { IfErr result.0 (AnswerEndsBy (λ answer. answer ≡ deck_answer deck.now)
        (W.contents out.old) (W.contents out.new)) }
    ensures no_read { IfErr result.0 IsNoRead }
{
    let writer = WithReason::new(out);
    let (written, writer) = write_deck_named::<Brand, W>(alloc, deck, writer);
    let (out, failed) = writer.end();
    // No effect at run time. The proof reads what `out` holds from this use of it.
    let _ = &*out;
    (written, failed)
}

/// Does the same over such a writer, and returns the writer too.
fn write_deck_named<'d, 'w, N: WriterName, W: Write>(
    alloc: Global,
    deck: &'d [u8],
    writer: WithReason<'w, W>,
) -> (Result<Outcome, ProgramFault<'d>>, WithReason<'w, W>)
    requires { writer.beneath.ghost_name ≡ N.name }
    ensures same_writer { result.1.beneath.ghost_name ≡ writer.entry.beneath.ghost_name }
    ensures ok { IfOk result.0 (GoesOut (λ answer. answer ≡ deck_answer deck.now)
        (W.contents writer.entry.beneath.now) (W.contents result.1.beneath.now)) }
    ensures err { IfErr result.0 (AnswerEndsBy (λ answer. answer ≡ deck_answer deck.now)
        (W.contents writer.entry.beneath.now) (W.contents result.1.beneath.now)) }
    ensures no_read { IfErr result.0 IsNoRead }
{
    let mut out: NamedWriter<'w, W, N> = NamedWriter {
        writer,
        name: PhantomData,
    };
    let written = write_deck(alloc, deck, &mut out);
    (written, out.writer)
}

/// Writes the notes on a deck's run.
///
/// # Errors
/// `Write` or `WroteNothing`, after a prefix of the notes; `Memory` if an allocation fails, before any.
fn write_notes<E: Write>(alloc: Global, deck: &[u8], err: &mut E) -> Result<(), DumpFault>
    ensures { IsWritten (E.contents err.old) (E.contents err.new) (deck_notes deck.now) result }
{
    let notes = deck_notes(alloc, deck)?;
    write_all_bytes(err, notes.as_slice())?;
    Ok(())
}

/// Returns the notes on a deck's run. The text is empty if the deck is refused.
fn deck_notes(alloc: Global, deck: &[u8]) -> Result<Vec<u8>, DumpFault>
    ensures { IfOk result (λ notes. notes.items ≡ deck_notes deck.now) }
{
    match sections_in(deck) {
        Some(sections) => notes_or_none(alloc, &source_of_deck(&sections), sections.horizon),
        None => Ok(Vec::new(alloc)),
    }
}

/// Writes the line of a deck's fault, followed by its explanation; returns the exit.
fn report_deck<E: Write>(
    alloc: Global,
    tables: &[Table],
    deck: &[u8],
    fault: ProgramFault<'_>,
    said: Option<&[u8]>,
    err: &mut E,
) -> Exit
    ensures { DeckFaultTold tables.now (E.contents err.old) (E.contents err.new) result deck.now fault.entry }
{
    let reported = report(err, fault, SECTIONS);
    let explained = explain_deck(alloc, tables, deck, fault, said, err);
    followed(reported, explained)
}

/// Writes the explanation of a deck's fault.
///
/// # Errors
/// `Write` or `WroteNothing`, after a prefix of the explanation; `Memory` if an allocation fails, before any.
fn explain_deck<E: Write>(
    alloc: Global,
    tables: &[Table],
    deck: &[u8],
    fault: ProgramFault<'_>,
    said: Option<&[u8]>,
    err: &mut E,
) -> Result<(), DumpFault>
    ensures { IsWritten (E.contents err.old) (E.contents err.new)
        (deck_explanation tables.now (if_given said.entry) deck.now fault.entry) result }
{
    let text = deck_explanation(alloc, tables, deck, fault, said)?;
    write_all_bytes(err, text.as_slice())?;
    Ok(())
}
