//! The program without arguments.
ghost use Rattle.program_io.specs.Report.{WithStatus};
ghost use Rattle.program_io.specs.DeckRun.{deck_answer};
ghost use Rattle.program_io.specs.Tell.{DeckReported, IsUnreadDeck, TellEnds};

use crate::deck_run::write_deck;
use crate::status::DONE;
use crate::{Exit, ProgramFault, ReadFault, read_text, report};
use prepared_runs::SECTIONS;
use std::alloc::Global;
use std::io::{Read, Write};

/// Reads a deck and answers it as [`answer_deck`] does; returns the exit status.
///
/// If the deck can't be read, nothing is written, the fault names `stdin`, and the status is 3; it is 4 if an
/// allocation failed.
pub fn tell<R: Read, W: Write, E: Write>(
    alloc: Global,
    input: &mut R,
    out: &mut W,
    err: &mut E,
) -> u8
    ensures { WithStatus result (λ exit. TellEnds (W.contents out.old) (W.contents out.new)
        (E.contents err.old) (E.contents err.new) exit (R.remaining input.old)) }
{
    exit_of_input(alloc, input, out, err).status
}

/// Does the same, and returns whether what is reported was written too.
fn exit_of_input<R: Read, W: Write, E: Write>(
    alloc: Global,
    input: &mut R,
    out: &mut W,
    err: &mut E,
) -> Exit
    ensures { TellEnds (W.contents out.old) (W.contents out.new) (E.contents err.old) (E.contents err.new)
        result (R.remaining input.old) }
{
    match read_text(alloc, input) {
        Ok(text) => exit_of_deck(alloc, text.as_slice(), out, err),
        Err(fault) => report(err, unread_deck(fault), SECTIONS),
    }
}

/// Returns the fault of a deck that couldn't be read.
pub fn unread_deck(fault: ReadFault) -> ProgramFault<'static>
    ensures { IsUnreadDeck fault result }
{
    ProgramFault::of_read(fault, "stdin")
}

/// Writes the dump of a deck's run and flushes once; returns the exit status.
///
/// The status is 0 if this is done, 1 if the deck is refused, 3 if a write failed, and 4 if an allocation
/// failed. Except for 0, one line `WHERE:LINE: NAME` is written to `err`, without allocating memory; a fault of
/// `err` is ignored.
pub fn answer_deck<W: Write, E: Write>(alloc: Global, text: &[u8], out: &mut W, err: &mut E) -> u8
    ensures { WithStatus result (λ exit. DeckReported (W.contents out.old) (W.contents out.new)
        (E.contents err.old) (E.contents err.new) exit (deck_answer text.now)) }
{
    exit_of_deck(alloc, text, out, err).status
}

/// Does the same, and returns whether what is reported was written too.
fn exit_of_deck<W: Write, E: Write>(alloc: Global, text: &[u8], out: &mut W, err: &mut E) -> Exit
    ensures { DeckReported (W.contents out.old) (W.contents out.new) (E.contents err.old) (E.contents err.new)
        result (deck_answer text.now) }
{
    match write_deck(alloc, text, out) {
        Ok(_) => Exit::silent(DONE),
        Err(fault) => report(err, fault, SECTIONS),
    }
}
