//! An order that reports its progress, and the system's message if its answer can't be written.
ghost use Rattle.std.specs.Prelude.{◌≡◌, IfErr, IfOk, OnErr, OnOk};
ghost use Rattle.nullsim.specs.Progress.{ReportsProgress};
ghost use Rattle.program_io.specs.OrderAnswer.{IsAnswerTo};
ghost use Rattle.program_io.specs.Progress.{BrokenTicks, DoneTicks};
ghost use Rattle.program_io.specs.Answers.{AnswerEndsBy, GoesOut, IsNoRead};

use crate::reasons::{NamedWriter, WithReason, WriterName};
use command_line::Order;
use prepared_runs::{Percents, Silent};
use program_io::{OrderTexts, Outcome, ProgramFault, write_answer};
use std::alloc::Global;
use std::io::{Error, Write};
use std::marker::{Brand, PhantomData};

/// Carries out an order over the texts of its files, as [`write_answer`] does. With `progress`, a run whose
/// dump is written reports its progress on `err`, in percent, and ends that line.
pub(crate) fn carry_out<'a, W: Write, E: Write>(
    alloc: Global,
    order: &Order<'a>,
    texts: &OrderTexts,
    progress: bool,
    out: &mut W,
    err: &mut E,
) -> Result<Outcome, ProgramFault<'a>>
    ensures ok { IfOk result
        (GoesOut (IsAnswerTo order.now texts.now) (W.contents out.old) (W.contents out.new)) }
    ensures err { IfErr result
        (AnswerEndsBy (IsAnswerTo order.now texts.now) (W.contents out.old) (W.contents out.new)) }
    ensures no_read { IfErr result IsNoRead }
    ensures reported { OnOk result
        (ReportsProgress progress order.now (DoneTicks order.now) (E.contents err.old) (E.contents err.new)) }
    ensures reported_until { OnErr result
        (ReportsProgress progress order.now (BrokenTicks order.now) (E.contents err.old) (E.contents err.new)) }
{
    if !progress {
        return write_answer(alloc, order, texts, out, &mut Silent);
    }
    let mut percents = Percents::new(err);
    let carried = write_answer(alloc, order, texts, out, &mut percents);
    let err = percents.end();
    // No effect at run time. The proof reads what `err` holds from this use of it.
    let _ = &*err;
    carried
}

/// Carries out an order as [`carry_out`] does. Also returns the last failure of a write or a flush, if any.
pub(crate) fn carry_out_heard<'a, W: Write, E: Write>(
    alloc: Global,
    order: &Order<'a>,
    texts: &OrderTexts,
    progress: bool,
    out: &mut W,
    err: &mut E,
) -> (Result<Outcome, ProgramFault<'a>>, Option<Error>)
    ensures ok { IfOk result.0
        (GoesOut (IsAnswerTo order.now texts.now) (W.contents out.old) (W.contents out.new)) }
    ensures err { IfErr result.0
        (AnswerEndsBy (IsAnswerTo order.now texts.now) (W.contents out.old) (W.contents out.new)) }
    ensures no_read { IfErr result.0 IsNoRead }
    ensures reported { OnOk result.0
        (ReportsProgress progress order.now (DoneTicks order.now) (E.contents err.old) (E.contents err.new)) }
    ensures reported_until { OnErr result.0
        (ReportsProgress progress order.now (BrokenTicks order.now) (E.contents err.old) (E.contents err.new)) }
{
    let writer = WithReason::new(out);
    let (carried, writer) = carry_out_named::<Brand, W, E>(
        alloc, order, texts, progress, writer, err,
    );
    let (out, failed) = writer.end();
    // No effect at run time. The proof reads what `out` holds from this use of it.
    let _ = &*out;
    (carried, failed)
}

/// Does the same over such a writer, and returns the writer too.
fn carry_out_named<'a, 'w, N: WriterName, W: Write, E: Write>(
    alloc: Global,
    order: &Order<'a>,
    texts: &OrderTexts,
    progress: bool,
    writer: WithReason<'w, W>,
    err: &mut E,
) -> (Result<Outcome, ProgramFault<'a>>, WithReason<'w, W>)
    requires { writer.beneath.ghost_name ≡ N.name }
    ensures same_writer { result.1.beneath.ghost_name ≡ writer.entry.beneath.ghost_name }
    ensures ok { IfOk result.0 (GoesOut (IsAnswerTo order.now texts.now)
        (W.contents writer.entry.beneath.now) (W.contents result.1.beneath.now)) }
    ensures err { IfErr result.0 (AnswerEndsBy (IsAnswerTo order.now texts.now)
        (W.contents writer.entry.beneath.now) (W.contents result.1.beneath.now)) }
    ensures no_read { IfErr result.0 IsNoRead }
    ensures reported { OnOk result.0
        (ReportsProgress progress order.now (DoneTicks order.now) (E.contents err.old) (E.contents err.new)) }
    ensures reported_until { OnErr result.0
        (ReportsProgress progress order.now (BrokenTicks order.now) (E.contents err.old) (E.contents err.new)) }
{
    let mut out: NamedWriter<'w, W, N> = NamedWriter {
        writer,
        name: PhantomData,
    };
    let carried = carry_out(alloc, order, texts, progress, &mut out, err);
    (carried, out.writer)
}
