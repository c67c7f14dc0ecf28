//! An order whose fault is explained.
ghost use Rattle.std.specs.Prelude.{◌≡◌, ◌≢◌, option_and_then, IfOk};
ghost use Rattle.program_io.specs.Report.{IsWritten, WithStatus};
ghost use Rattle.nullsim.specs.AtFault.{name_at_fault};
ghost use Rattle.nullsim.specs.Ends.{EndsBy, Writes};
ghost use Rattle.nullsim.specs.Progress.{AnsweredVerbosely, OrderExplained};
ghost use Rattle.nullsim.specs.Verbose.{ReportsVerbosely, circuit_at_fault, explanation, if_given, reason_of, subject_of, subject_of_run, text_at_fault, text_in_run};

use crate::carrying::carry_out_heard;
use crate::names::name_at_fault;
use crate::notes::report_noted;
use crate::numbers::number_at_fault;
use crate::parts::followed;
use crate::reasons::said_of;
use command_line::{Order, ReadTexts};
use explanations::{AtHand, Subject, Table, fault_text};
use prepared_runs::SimFault;
use program_io::{Exit, OrderTexts, ProgramFault, Texts, read_texts, report};
use std::alloc::{AllocError, Global};
use std::io::Write;
use texts::write_all_bytes;
use vcd_dump::DumpFault;
use wave_diff::Side;

/// Carries out an order and returns the exit status, as [`answer_order`](crate::answer_order) does.
///
/// An explanation follows the line of a fault on `err`: the line of the text and the word at fault, the name or
/// the number at fault in the order, the system's message on a failed read, as the texts know it, or on a
/// failed write, the only name near to the one at fault, the meaning, and what is needed instead. Without a fault, the notes on the run are written
/// there, as [`notes_text`](plain_runs::notes_text) returns them. If an allocation for either fails, it is left
/// out.
pub fn answer_verbosely<T: Texts, W: Write, E: Write>(
    alloc: Global,
    order: &Order<'_>,
    tables: &[Table],
    progress: bool,
    texts: &mut T,
    out: &mut W,
    err: &mut E,
) -> u8
    ensures reported { WithStatus result (EndsBy T.known T.said T.readings W.contents E.contents
        (OrderExplained progress tables.now order.now) texts.old texts.new out.old out.new err.old err.new) }
    ensures no_usage { result ≢ 2 }
{
    exit_verbosely(alloc, order, tables, progress, texts, out, err).status
}

/// Does the same, and returns whether what is printed on `err` was written too.
pub(crate) fn exit_verbosely<T: Texts, W: Write, E: Write>(
    alloc: Global,
    order: &Order<'_>,
    tables: &[Table],
    progress: bool,
    texts: &mut T,
    out: &mut W,
    err: &mut E,
) -> Exit
    ensures reported { EndsBy T.known T.said T.readings W.contents E.contents
        (OrderExplained progress tables.now order.now) texts.old texts.new out.old out.new err.old err.new result }
    ensures no_usage { result.status ≢ 2 }
{
    match read_texts(alloc, order, texts) {
        Ok(read) => answer_read(alloc, order, tables, progress, &read, out, err),
        Err(fault) => report_verbosely(alloc, tables, order, fault, None, texts.reason(), err),
    }
}

/// Does the same after the order's files were read.
fn answer_read<W: Write, E: Write>(
    alloc: Global,
    order: &Order<'_>,
    tables: &[Table],
    progress: bool,
    texts: &OrderTexts,
    out: &mut W,
    err: &mut E,
) -> Exit
    ensures reported { Writes W.contents E.contents (AnsweredVerbosely tables.now texts.now progress order.now)
        out.old out.new err.old err.new result }
    ensures no_usage { result.status ≢ 2 }
{
    let (carried, failed) = carry_out_heard(alloc, order, texts, progress, out, err);
    match carried {
        Ok(outcome) => report_noted(alloc, order, texts, outcome, err),
        Err(fault) => {
            let said = said_of(alloc, failed);
            let said = said.as_ref().map(|said| said.as_bytes());
            report_verbosely(alloc, tables, order, fault, Some(texts), said, err)
        }
    }
}

/// Writes the line of an order's fault, followed by its explanation from the texts that were read and the
/// system's message; returns the exit.
fn report_verbosely<E: Write>(
    alloc: Global,
    tables: &[Table],
    order: &Order<'_>,
    fault: ProgramFault<'_>,
    texts: Option<&OrderTexts>,
    said: Option<&[u8]>,
    err: &mut E,
) -> Exit
    ensures reported { ReportsVerbosely tables.now (if_given texts.entry) order.now fault.entry
        (E.contents err.old) (E.contents err.new) result (if_given said.entry) }
    ensures no_usage { result.status ≢ 2 }
{
    let reported = report(err, fault, order.text_names(fault.side()));
    let explained = explain_fault(alloc, tables, order, fault, texts, said, err);
    followed(reported, explained)
}

/// Writes the explanation of an order's fault.
///
/// # Errors
/// `Write` or `WroteNothing`, after a prefix of the explanation; `Memory` if an allocation fails, before any.
fn explain_fault<E: Write>(
    alloc: Global,
    tables: &[Table],
    order: &Order<'_>,
    fault: ProgramFault<'_>,
    texts: Option<&OrderTexts>,
    said: Option<&[u8]>,
    err: &mut E,
) -> Result<(), DumpFault>
    ensures { IsWritten (E.contents err.old) (E.contents err.new) (explanation tables.now
        (record { texts = if_given texts.entry; said = if_given said.entry })
        order.now fault.entry) result }
{
    let text = explanation(alloc, tables, order, fault, texts, said)?;
    write_all_bytes(err, text.as_slice())?;
    Ok(())
}

/// Returns the explanation of an order's fault.
fn explanation<'a>(
    alloc: Global,
    tables: &[Table],
    order: &'a Order<'a>,
    fault: ProgramFault<'a>,
    texts: Option<&'a OrderTexts>,
    said: Option<&'a [u8]>,
) -> Result<Vec<u8>, AllocError>
    ensures { IfOk result (λ text. text.items ≡ explanation tables.now
        (record { texts = if_given texts.entry; said = if_given said.entry })
        order.now fault.entry) }
{
    let at_hand = AtHand {
        subject: subject(fault),
        name: fault.name(),
        line: fault.line(),
        text: text_if_read(fault, texts),
        word: name_if_read(alloc, order, fault, texts)?,
        number: number_at_fault(order, fault),
        reason: reason_of(fault, said),
        circuit: circuit_if_read(fault, texts),
    };
    fault_text(alloc, tables, at_hand)
}

/// Returns the text at fault, if the texts were read.
fn text_if_read<'a>(fault: ProgramFault<'_>, texts: Option<&'a OrderTexts>) -> Option<&'a [u8]>
    ensures { if_given result
        ≡ option_and_then (text_at_fault fault.entry) (if_given texts.entry) }
{
    text_at_fault(fault, texts?)
}

fn text_at_fault<'a>(fault: ProgramFault<'_>, texts: &'a OrderTexts) -> Option<&'a [u8]>
    ensures { if_given result ≡ text_at_fault fault.entry texts.now }
{
    match fault {
        ProgramFault::Run { side, fault } => text_in_run(fault, texts.on(side)),
        _ => None,
    }
}

/// Returns the circuit of the run at fault, or the one whose inputs are driven, if the texts were read.
fn circuit_if_read<'a>(fault: ProgramFault<'_>, texts: Option<&'a OrderTexts>) -> Option<&'a [u8]>
    ensures { if_given result
        ≡ option_and_then (circuit_at_fault fault.entry) (if_given texts.entry) }
{
    circuit_at_fault(fault, texts?)
}

fn circuit_at_fault<'a>(fault: ProgramFault<'_>, texts: &'a OrderTexts) -> Option<&'a [u8]>
    ensures { if_given result ≡ circuit_at_fault fault.entry texts.now }
{
    match fault {
        ProgramFault::Run { side, .. } => Some(texts.on(side).bench.as_slice()),
        ProgramFault::Drives(_) => Some(texts.on(Side::First).bench.as_slice()),
        _ => None,
    }
}

fn text_in_run(fault: SimFault, texts: &ReadTexts) -> Option<&[u8]>
    ensures { if_given result ≡ text_in_run texts.now fault }
{
    match fault {
        SimFault::Bench(_) => Some(texts.bench.as_slice()),
        SimFault::Timing(_) => Some(texts.delays.as_slice()),
        SimFault::Stimulus(_) => Some(texts.stimuli.as_slice()),
        SimFault::Schedule(_) => Some(texts.schedule.as_slice()),
        _ => None,
    }
}

/// Returns the name at fault, if the texts were read.
fn name_if_read<'o>(
    alloc: Global,
    order: &'o Order<'_>,
    fault: ProgramFault<'_>,
    texts: Option<&OrderTexts>,
) -> Result<Option<&'o [u8]>, AllocError>
    ensures { IfOk result (λ name. if_given name
        ≡ option_and_then (name_at_fault order.now fault.entry) (if_given texts.entry)) }
{
    match texts {
        Some(texts) => name_at_fault(alloc, order, fault, texts),
        None => Ok(None),
    }
}

/// Returns the system's message on a fault, if any.
pub(crate) fn reason_of<'a>(fault: ProgramFault<'_>, said: Option<&'a [u8]>) -> Option<&'a [u8]>
    ensures { if_given result ≡ reason_of (if_given said.entry) fault.entry }
{
    match fault {
        ProgramFault::Read(_) | ProgramFault::Output(_) | ProgramFault::Flush => said,
        ProgramFault::Deck(_)
        | ProgramFault::Run { .. }
        | ProgramFault::Columns(_)
        | ProgramFault::Drives(_)
        | ProgramFault::Compared(_)
        | ProgramFault::Memory => None,
    }
}

/// Returns the subject of a fault.
pub(crate) fn subject(fault: ProgramFault<'_>) -> Subject
    ensures { result ≡ subject_of fault.entry }
{
    match fault {
        ProgramFault::Deck(_) => Subject::Deck,
        ProgramFault::Run { fault, .. } => run_subject(fault),
        ProgramFault::Columns(_) => Subject::Columns,
        ProgramFault::Drives(_) => Subject::Drives,
        ProgramFault::Compared(_) => Subject::Ticks,
        ProgramFault::Read(_)
        | ProgramFault::Output(_)
        | ProgramFault::Memory
        | ProgramFault::Flush => Subject::Program,
    }
}

fn run_subject(fault: SimFault) -> Subject
    ensures { result ≡ subject_of_run fault }
{
    match fault {
        SimFault::Setting(_) => Subject::Settings,
        SimFault::Bench(_) => Subject::Bench,
        SimFault::Timing(_) => Subject::Delays,
        SimFault::Stimulus(_) => Subject::Stimuli,
        SimFault::Schedule(_) => Subject::Schedule,
        SimFault::UnknownNet => Subject::Names,
        SimFault::Dump(_) | SimFault::Memory => Subject::Program,
    }
}
