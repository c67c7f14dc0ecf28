//! The notes on the run of an order that is done.
ghost use Rattle.std.specs.Prelude.{◌≡◌, IfOk};
ghost use Rattle.prepared_runs.specs.Source.{seen_source};
ghost use Rattle.program_io.specs.Report.{IsWritten, outcome_text};
ghost use Rattle.program_io.specs.Status.{status_of_outcome};
ghost use Rattle.plain_runs.specs.Noted.{notes_of_source};
ghost use Rattle.nullsim.specs.Noted.{noted_run, noted_source, order_notes, text_or_none};
ghost use Rattle.nullsim.specs.Parts.{AreWritten};

use crate::parts::followed;
use command_line::{Order, ReadTexts, SourceOptions};
use plain_runs::notes_text;
use prepared_runs::{Picks, SimFault, Source};
use program_io::{Exit, OrderTexts, Outcome, report_outcome};
use std::alloc::Global;
use std::io::Write;
use texts::write_all_bytes;
use vcd_dump::DumpFault;
use wave_diff::Side;

/// Writes what is printed with an answer, followed by the notes on the order's run, or a prefix of each if the
/// writer fails; returns the exit. If an allocation fails, there are no notes.
pub(crate) fn report_noted<E: Write>(
    alloc: Global,
    order: &Order<'_>,
    texts: &OrderTexts,
    outcome: Outcome,
    err: &mut E,
) -> Exit
    ensures status { result.status ≡ status_of_outcome outcome }
    ensures reported { AreWritten (E.contents err.old) (E.contents err.new) (outcome_text outcome)
        (order_notes texts.now order.now) result.written }
{
    let reported = report_outcome(err, outcome);
    followed(reported, write_notes(alloc, order, texts, err))
}

/// Writes the notes on an order's run.
///
/// # Errors
/// `Write` or `WroteNothing`, after a prefix of the notes; `Memory` if an allocation fails, before any.
fn write_notes<E: Write>(
    alloc: Global,
    order: &Order<'_>,
    texts: &OrderTexts,
    err: &mut E,
) -> Result<(), DumpFault>
    ensures { IsWritten (E.contents err.old) (E.contents err.new) (order_notes texts.now order.now) result }
{
    let notes = notes_of(alloc, order, texts)?;
    write_all_bytes(err, notes.as_slice())?;
    Ok(())
}

/// Returns the notes on an order's run. The text is empty if there is no run.
///
/// # Errors
/// `Memory` if an allocation fails.
fn notes_of(alloc: Global, order: &Order<'_>, texts: &OrderTexts) -> Result<Vec<u8>, DumpFault>
    ensures { IfOk result (λ notes. notes.items ≡ order_notes texts.now order.now) }
{
    let Some((options, horizon)) = noted_run(order) else {
        return Ok(Vec::new(alloc));
    };
    let source = noted_source(options, &texts.first);
    let mut notes = notes_or_none(alloc, &source, horizon)?;
    notes.extend_from_slice(options.picks.note().as_bytes())?;
    Ok(notes)
}

/// Returns the notes on a run of a source. The text is empty if the source is refused, which it isn't once its
/// order is done.
///
/// # Errors
/// `Memory` if an allocation fails.
pub(crate) fn notes_or_none(
    alloc: Global,
    source: &Source<'_>,
    horizon: u64,
) -> Result<Vec<u8>, DumpFault>
    ensures { IfOk result (λ notes. notes.items ≡ text_or_none (notes_of_source (seen_source source.now) horizon)) }
{
    match notes_text(alloc, source, horizon) {
        Ok(notes) => Ok(notes),
        Err(SimFault::Memory) => Err(DumpFault::Memory),
        Err(_) => Ok(Vec::new(alloc)),
    }
}

/// Returns the run on which there are notes: that of an order for one run to a horizon, but for `why`.
fn noted_run<'a>(order: &Order<'a>) -> Option<(SourceOptions<'a>, u64)>
    ensures { result ≡ noted_run order.now }
{
    match order {
        Order::Why { .. } | Order::Diff { .. } | Order::Twin { .. } => None,
        _ => Some((order.options(Side::First)?, order.last_tick()?)),
    }
}

/// Returns the source of these options and texts. No events are picked.
fn noted_source<'t>(options: SourceOptions<'_>, texts: &'t ReadTexts) -> Source<'t>
    ensures { seen_source result ≡ noted_source options.entry texts.now }
{
    Source {
        picks: Picks::Nothing,
        ..options.source(texts)
    }
}
