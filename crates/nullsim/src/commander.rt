//! The program with arguments.
ghost use Rattle.std.specs.Prelude.{◌≡◌, ◌≢◌, IsTrue, OnErr, OnOk};
ghost use Rattle.std.specs.Io.KnownBytes.{Appends, Keeps};
ghost use Rattle.texts.specs.Written.{AppendsPrefix};
ghost use Rattle.explanations.specs.Explained.{all_names, explained};
ghost use Rattle.program_io.specs.Report.{WithStatus};
ghost use Rattle.program_io.specs.OrderAnswer.{IsAnswerTo};
ghost use Rattle.nullsim.specs.Asked.{CommandEnds, OrderEnds, WordsEnd};
ghost use Rattle.nullsim.specs.Command.{Explains, TextGiven, TextMade, VersionGiven};
ghost use Rattle.nullsim.specs.Ends.{Ends, EndsBy, Writes};
ghost use Rattle.nullsim.specs.Progress.{Answered, OrderReported};
ghost use Rattle.nullsim.specs.Version.{asks_for_version};

use crate::carrying::carry_out;
use crate::verbose::exit_verbosely;
use crate::version::{asks_for_version, give_version};
use command_line::{Asked, NoOrder, Order, asked_by_words};
use explanations::{Table, explanation_text, names_text, tables};
use prepared_runs::SECTIONS;
use program_io::status::{DONE, WRONG_WORDS};
use program_io::{
    Exit, OrderTexts, ProgramFault, Texts, read_texts, report, report_outcome, write_text,
};
use std::alloc::Global;
use std::io::Write;
use texts::write_all_bytes;
use vcd_dump::DumpFault;

/// Carries out what the arguments, without the program's own name, ask for, and returns the exit status. An
/// order is carried out as by [`answer_order`].
///
/// With `--verbose`, an explanation follows the line of a fault, as [`answer_verbosely`] writes it. For
/// `explain`, the explanations are written to `out`, and no text is requested.
///
/// If the only argument is `--version` or `-V`, the version is written to `out`; if an argument asks for help,
/// the help is. The status is 0 then. If the arguments are wrong, the status is 2, a message is written to
/// `err`, and no text is requested.
pub fn command<T: Texts, W: Write, E: Write>(
    alloc: Global,
    words: &[String],
    texts: &mut T,
    out: &mut W,
    err: &mut E,
) -> u8
    ensures ends { WithStatus result (EndsBy T.known T.said T.readings W.contents E.contents (CommandEnds words.now)
        texts.old texts.new out.old out.new err.old err.new) }
    ensures version { IsTrue (asks_for_version words.now) → WithStatus result
        (Ends T.readings W.contents E.contents VersionGiven texts.old texts.new out.old out.new err.old err.new) }
    ensures usage { result ≡ 2 → (texts.new ≡ texts.old)
        × Keeps (W.contents out.old) (W.contents out.new) }
{
    exit_of_command(alloc, words, texts, out, err).status
}

/// Does the same, and returns whether what is printed on `err` was written too.
fn exit_of_command<T: Texts, W: Write, E: Write>(
    alloc: Global,
    words: &[String],
    texts: &mut T,
    out: &mut W,
    err: &mut E,
) -> Exit
    ensures ends { EndsBy T.known T.said T.readings W.contents E.contents (CommandEnds words.now)
        texts.old texts.new out.old out.new err.old err.new result }
    ensures version { IsTrue (asks_for_version words.now) →
        Ends T.readings W.contents E.contents VersionGiven texts.old texts.new out.old out.new err.old err.new result }
    ensures usage { result.status ≡ 2 → (texts.new ≡ texts.old)
        × Keeps (W.contents out.old) (W.contents out.new) }
{
    if asks_for_version(words) {
        return give_version(out, err);
    }
    let asked = asked_by_words(alloc, words);
    exit_of_asked(alloc, asked, &tables(), texts, out, err)
}

/// Carries out what arguments ask for, by these tables, or prints the help or what is wrong with them.
fn exit_of_asked<T: Texts, W: Write, E: Write>(
    alloc: Global,
    asked: Result<Asked<'_>, NoOrder>,
    tables: &[Table],
    texts: &mut T,
    out: &mut W,
    err: &mut E,
) -> Exit
    ensures ends { EndsBy T.known T.said T.readings W.contents E.contents (WordsEnd tables.now asked.entry)
        texts.old texts.new out.old out.new err.old err.new result }
    ensures usage { result.status ≡ 2 → (texts.new ≡ texts.old)
        × Keeps (W.contents out.old) (W.contents out.new) }
{
    match asked {
        Ok(
            Asked::Order {
                order,
                verbose,
                progress,
            },
        ) => exit_as_asked(alloc, &order, tables, verbose, progress, texts, out, err),
        Ok(Asked::Explanation { name }) => print_fault(alloc, tables, name, out, err),
        Ok(Asked::FaultNames) => print_names(alloc, tables, out, err),
        Err(no_order) => explain(no_order, out, err),
    }
}

/// Carries out an order, verbosely by these tables or not, and returns the exit.
fn exit_as_asked<T: Texts, W: Write, E: Write>(
    alloc: Global,
    order: &Order<'_>,
    tables: &[Table],
    verbose: bool,
    progress: bool,
    texts: &mut T,
    out: &mut W,
    err: &mut E,
) -> Exit
    ensures reported { EndsBy T.known T.said T.readings W.contents E.contents
        (OrderEnds tables.now verbose progress order.now) texts.old texts.new out.old out.new err.old err.new result }
    ensures no_usage { result.status ≢ 2 }
{
    if verbose {
        exit_verbosely(alloc, order, tables, progress, texts, out, err)
    } else {
        exit_of_order(alloc, order, progress, texts, out, err)
    }
}

/// Carries out an order, and returns the exit status.
///
/// The status is 0 if this is done, 1 if an input is refused, 3 if a read or a write failed, 4 if an allocation
/// failed, and 5 if this is done and what was compared differs. For 1, 3 and 4, one line `WHERE:LINE: NAME` is
/// written to `err`; for 0, the line of counts if it is requested. With `progress`, a run whose dump is written
/// first reports its progress on `err`: the percentage of the ticks that are known, each time it is greater, in
/// place of the last one, and a line feed at the end. A fault of `err` is ignored.
pub fn answer_order<T: Texts, W: Write, E: Write>(
    alloc: Global,
    order: &Order<'_>,
    progress: bool,
    texts: &mut T,
    out: &mut W,
    err: &mut E,
) -> u8
    ensures reported { WithStatus result (Ends T.readings W.contents E.contents
        (OrderReported progress (T.known texts.old) order.now) texts.old texts.new out.old out.new err.old err.new) }
    ensures no_usage { result ≢ 2 }
{
    exit_of_order(alloc, order, progress, texts, out, err).status
}

/// Does the same, and returns whether what is printed on `err` was written too.
fn exit_of_order<T: Texts, W: Write, E: Write>(
    alloc: Global,
    order: &Order<'_>,
    progress: bool,
    texts: &mut T,
    out: &mut W,
    err: &mut E,
) -> Exit
    ensures reported { Ends T.readings W.contents E.contents (OrderReported progress (T.known texts.old) order.now)
        texts.old texts.new out.old out.new err.old err.new result }
    ensures no_usage { result.status ≢ 2 }
{
    match read_texts(alloc, order, texts) {
        Ok(read) => answer_read(alloc, order, progress, &read, out, err),
        Err(unread) => report(err, unread, order.text_names(unread.side())),
    }
}

/// Does the same after the order's files were read.
fn answer_read<W: Write, E: Write>(
    alloc: Global,
    order: &Order<'_>,
    progress: bool,
    texts: &OrderTexts,
    out: &mut W,
    err: &mut E,
) -> Exit
    ensures reported { Writes W.contents E.contents (Answered (IsAnswerTo order.now texts.now) progress order.now)
        out.old out.new err.old err.new result }
    ensures no_usage { result.status ≢ 2 }
{
    match carry_out(alloc, order, texts, progress, out, err) {
        Ok(outcome) => report_outcome(err, outcome),
        Err(fault) => report(err, fault, order.text_names(fault.side())),
    }
}

/// Writes the explanations of the faults with this name, and flushes once; returns the exit.
fn print_fault<W: Write, E: Write>(
    alloc: Global,
    tables: &[Table],
    name: &str,
    out: &mut W,
    err: &mut E,
) -> Exit
    ensures reported { TextMade (explained tables.now name.now) (W.contents out.old) (W.contents out.new)
        (E.contents err.old) (E.contents err.new) result }
    ensures no_usage { result.status ≢ 2 }
{
    match explanation_text(alloc, tables, name) {
        Ok(text) => give_text(text.as_str(), out, err),
        Err(_) => report(err, ProgramFault::Memory, SECTIONS),
    }
}

/// Writes the names of all faults, and flushes once; returns the exit.
fn print_names<W: Write, E: Write>(
    alloc: Global,
    tables: &[Table],
    out: &mut W,
    err: &mut E,
) -> Exit
    ensures reported { TextMade (all_names tables.now) (W.contents out.old) (W.contents out.new)
        (E.contents err.old) (E.contents err.new) result }
    ensures no_usage { result.status ≢ 2 }
{
    match names_text(alloc, tables) {
        Ok(text) => give_text(text.as_str(), out, err),
        Err(_) => report(err, ProgramFault::Memory, SECTIONS),
    }
}

/// Writes the help, or what is wrong with the arguments; returns the exit.
fn explain<W: Write, E: Write>(no_order: NoOrder, out: &mut W, err: &mut E) -> Exit
    ensures { Explains (W.contents out.old) (W.contents out.new)
        (E.contents err.old) (E.contents err.new) no_order result }
{
    match no_order {
        NoOrder::Help(text) => give_text(text.as_str(), out, err),
        NoOrder::Usage(text) => Exit {
            status: WRONG_WORDS,
            written: write_usage(err, text.as_str()),
        },
        NoOrder::Memory => report(err, ProgramFault::Memory, SECTIONS),
    }
}

/// Writes what is wrong with the arguments, or a prefix of it if the writer fails. Allocates no memory.
fn write_usage<E: Write>(err: &mut E, text: &str) -> Result<(), DumpFault>
    ensures ok { OnOk result (Appends (E.contents err.old) (E.contents err.new) text.now) }
    ensures err { OnErr result (AppendsPrefix (E.contents err.old) (E.contents err.new) text.now) }
{
    write_all_bytes(err, text.as_bytes())?;
    Ok(())
}

/// Writes a requested text, and flushes once; returns the exit.
pub(crate) fn give_text<W: Write, E: Write>(text: &str, out: &mut W, err: &mut E) -> Exit
    ensures given { TextGiven text.now (W.contents out.old) (W.contents out.new)
        (E.contents err.old) (E.contents err.new) result }
    ensures no_usage { result.status ≢ 2 }
{
    match write_text(out, text.as_bytes()) {
        Ok(()) => Exit::silent(DONE),
        Err(fault) => report(err, fault, SECTIONS),
    }
}
