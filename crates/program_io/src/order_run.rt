//! Carrying out an order.
ghost use Rattle.std.specs.Prelude.{IfErr, IfOk, OnErr, OnOk};
ghost use Rattle.program_io.specs.Answers.{AnswerEndsBy, GoesOut, IsNoRead};
ghost use Rattle.program_io.specs.OrderAnswer.{IsAnswerTo};
ghost use Rattle.program_io.specs.Progress.{BrokenTicks, DoneTicks, horizon_reported};
ghost use Rattle.prepared_runs.specs.Reported.{Reported};

use crate::answers::{
    write_check, write_cone, write_diagram, write_diff, write_frontiers, write_info, write_plain,
    write_run, write_stimuli, write_trace, write_twin, write_why,
};
use crate::{OrderTexts, Outcome, ProgramFault};
use command_line::Order;
use event_trace::TraceView;
use prepared_runs::Progress;
use std::alloc::Global;
use std::io::Write;

/// Writes the answer to an order over the texts of its files, which [`read_texts`](crate::read_texts) reads, and
/// flushes once. Returns what to report with the answer: the counts at the end of a run, if they are
/// requested, or that what was compared differs. A run whose dump is written reports its progress, and so does one
/// that is drawn or explained.
///
/// # Errors
/// If a setting or a text is refused, nothing is written. After a failed write or allocation, a prefix of
/// the answer has been written; after a failed flush, all of it.
pub fn write_answer<W: Write, P: Progress>(
    alloc: Global,
    order: &Order<'_>,
    texts: &OrderTexts,
    out: &mut W,
    progress: &mut P,
) -> Result<Outcome, ProgramFault<'static>>
    ensures ok { IfOk result
        (GoesOut (IsAnswerTo order.now texts.now) (W.contents out.old) (W.contents out.new)) }
    ensures err { IfErr result
        (AnswerEndsBy (IsAnswerTo order.now texts.now) (W.contents out.old) (W.contents out.new)) }
    ensures no_read { IfErr result IsNoRead }
    ensures reported { OnOk result
        (Reported (P.reports (horizon_reported order.now)) (DoneTicks order.now) progress.old progress.new) }
    ensures reported_until { OnErr result
        (Reported (P.reports (horizon_reported order.now)) (BrokenTicks order.now) progress.old progress.new) }
{
    let (one, other) = (&texts.first, &texts.second);
    match order {
        Order::Run {
            source,
            view,
            counts,
        } => write_run(alloc, &source.source(one), view, *counts, out, progress),
        Order::Plain { source, view } => {
            write_plain(alloc, &source.source(one), view, out, progress)
        }
        Order::Draw { source, view, form } => {
            write_diagram(alloc, &source.source(one), view, *form, out, progress)
        }
        Order::Trace {
            source,
            horizon,
            idle,
            net,
        } => {
            let view = TraceView {
                idle: *idle,
                net: *net,
            };
            write_trace(alloc, &source.source(one), *horizon, &view, out)
        }
        Order::Frontiers {
            source,
            horizon,
            show,
        } => write_frontiers(alloc, &source.source(one), *horizon, show, out),
        Order::Why { source, net, tick } => {
            write_why(alloc, &source.source(one), net, *tick, out, progress)
        }
        Order::Stimuli {
            drives,
            draws,
            horizon,
            ..
        } => write_stimuli(
            alloc,
            one.bench.as_slice(),
            drives.as_slice(),
            *draws,
            *horizon,
            out,
        ),
        Order::Info { source } => write_info(alloc, &source.source(one), out),
        Order::Cone { names, .. } => write_cone(alloc, one.bench.as_slice(), names.as_slice(), out),
        Order::Diff {
            first,
            second,
            names,
            ticks,
        } => {
            let sources = (first.source(one), second.source(other));
            write_diff(alloc, &sources.0, &sources.1, names.as_slice(), *ticks, out)
        }
        Order::Twin {
            first,
            second,
            net,
            horizon,
        } => {
            let sources = (first.source(one), second.source(other));
            write_twin(alloc, &sources.0, &sources.1, net, *horizon, out)
        }
        Order::Check { source, horizon } => {
            write_check(alloc, &source.source(one), *horizon, out)
        }
    }
}
