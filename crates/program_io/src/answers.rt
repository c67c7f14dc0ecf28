//! Writing the answers to texts.
ghost use Rattle.std.specs.Prelude.{◌≡◌, map, IfErr, IfOk};
ghost use Rattle.netlist.specs.Names.{seen_names};
ghost use Rattle.drawn_stimuli.specs.Given.{seen_drive};
ghost use Rattle.prepared_runs.specs.Ends.{RunEndsBy};
ghost use Rattle.kernel_runs.specs.Simulated.{dump_in, simulated};
ghost use Rattle.prepared_runs.specs.Source.{seen_source};
ghost use Rattle.prepared_runs.specs.Reported.{IsProgress, IsTickByTick, Reported};
ghost use Rattle.program_io.specs.Answers.{AnswerEndsBy, DumpsAndCounts, GoesOut, IsAnswerOfCone, IsAnswerOfDiff, IsAnswerOfInfo, IsAnswerOfTwin, IsNoRead, check_answer, diagram_answer, frontiers_answer, outcome_of, plain_answer, run_answer, stimuli_answer, trace_answer, why_answer};

use crate::outcome::Outcome;
use crate::output::{flush, write_text};
use crate::program_fault::ProgramFault;
use circuit_info::info;
use drawn_stimuli::{Draws, Driven, stimuli};
use event_trace::{TraceView, frontiers, trace_shown};
use fanin_cone::cone_text;
use kernel_runs::{
    DiffTicks, check, check_text, diff, simulate_with_progress, sweep_with_progress, twin,
    twin_text, why_with_progress,
};
use plain_runs::{diagram_with_progress, plain_with_progress};
use prepared_runs::{DiagramView, DumpView, Progress, Selection, SimFault, Source, prepare};
use std::alloc::Global;
use std::io::Write;
use timing_diagram::Form;

/// Writes the dump of a run by the kernel and flushes once. If the counts are requested, the run is by rounds
/// and its outcome has the counts at its end; otherwise the run is in sweeps. Reports its progress as
/// [`simulate_with_progress`] and [`sweep_with_progress`] do.
///
/// # Errors
/// If the source or the view is refused, nothing is written. After a failed write or allocation, a prefix of
/// the dump has been written; after a failed flush, all of it.
pub(crate) fn write_run<W: Write, P: Progress>(
    alloc: Global,
    source: &Source<'_>,
    view: &DumpView<'_>,
    counts: bool,
    out: &mut W,
    progress: &mut P,
) -> Result<Outcome, ProgramFault<'static>>
    ensures ok { IfOk result (GoesOut (λ answer. answer ≡ run_answer (seen_source source.now) view.now counts)
        (W.contents out.old) (W.contents out.new)) }
    ensures err { IfErr result (AnswerEndsBy (λ answer. answer ≡ run_answer (seen_source source.now) view.now counts)
        (W.contents out.old) (W.contents out.new)) }
    ensures no_read { IfErr result IsNoRead }
    ensures reported { Reported (P.reports view.now.horizon) (IsProgress result view.now.horizon) progress.old progress.new }
{
    let outcome = dump_and_count(alloc, source, view, counts, out, progress)?;
    flush(out)?;
    Ok(outcome)
}

/// Writes the dump of a run by the kernel. Its outcome has the counts at its end if they are requested. Reports
/// its progress.
fn dump_and_count<W: Write, P: Progress>(
    alloc: Global,
    source: &Source<'_>,
    view: &DumpView<'_>,
    counts: bool,
    out: &mut W,
    progress: &mut P,
) -> Result<Outcome, SimFault>
    ensures ok { IfOk result (DumpsAndCounts counts (simulated (seen_source source.now) view.now)
        (W.contents out.old) (W.contents out.new)) }
    ensures err { IfErr result (RunEndsBy (dump_in (simulated (seen_source source.now) view.now))
        (W.contents out.old) (W.contents out.new)) }
    ensures reported { Reported (P.reports view.now.horizon) (IsProgress result view.now.horizon) progress.old progress.new }
{
    if !counts {
        sweep_with_progress(alloc, source, view, out, progress)?;
        return Ok(Outcome::Done);
    }
    let report = simulate_with_progress(alloc, source, view, out, progress)?;
    Ok(Outcome::Counted(report.total))
}

/// Writes the dump of a run by the plain engine and flushes once. No events are picked. Reports its progress as
/// [`plain_with_progress`] does.
///
/// # Errors
/// As for [`write_run`].
pub(crate) fn write_plain<W: Write, P: Progress>(
    alloc: Global,
    source: &Source<'_>,
    view: &DumpView<'_>,
    out: &mut W,
    progress: &mut P,
) -> Result<Outcome, ProgramFault<'static>>
    ensures ok { IfOk result (GoesOut (λ answer. answer ≡ plain_answer (seen_source source.now) view.now)
        (W.contents out.old) (W.contents out.new)) }
    ensures err { IfErr result (AnswerEndsBy (λ answer. answer ≡ plain_answer (seen_source source.now) view.now)
        (W.contents out.old) (W.contents out.new)) }
    ensures no_read { IfErr result IsNoRead }
    ensures reported { Reported (P.reports view.now.horizon) (IsTickByTick result view.now.horizon) progress.old progress.new }
{
    plain_with_progress(alloc, source, view, out, progress)?;
    flush(out)?;
    Ok(Outcome::Done)
}

/// Writes the timing diagram of a run and flushes once. No events are picked. Reports its progress as
/// [`diagram_with_progress`] does.
///
/// # Errors
/// As for [`write_run`].
pub(crate) fn write_diagram<W: Write, P: Progress>(
    alloc: Global,
    source: &Source<'_>,
    view: &DiagramView<'_>,
    form: Form,
    out: &mut W,
    progress: &mut P,
) -> Result<Outcome, ProgramFault<'static>>
    ensures ok { IfOk result (GoesOut (λ answer. answer ≡ diagram_answer (seen_source source.now) view.now form)
        (W.contents out.old) (W.contents out.new)) }
    ensures err { IfErr result (AnswerEndsBy (λ answer. answer ≡ diagram_answer (seen_source source.now) view.now form)
        (W.contents out.old) (W.contents out.new)) }
    ensures no_read { IfErr result IsNoRead }
    ensures reported { Reported (P.reports view.now.horizon) (IsTickByTick result view.now.horizon) progress.old progress.new }
{
    diagram_with_progress(alloc, source, view, form, out, progress)?;
    flush(out)?;
    Ok(Outcome::Done)
}

/// Writes the trace of a run, a line for each event that its kernel applies and the view shows, and flushes
/// once.
///
/// # Errors
/// As for [`write_run`].
pub(crate) fn write_trace<W: Write>(
    alloc: Global,
    source: &Source<'_>,
    horizon: u64,
    view: &TraceView<'_>,
    out: &mut W,
) -> Result<Outcome, ProgramFault<'static>>
    ensures ok { IfOk result (GoesOut (λ answer. answer ≡ trace_answer (seen_source source.now) horizon view.now)
        (W.contents out.old) (W.contents out.new)) }
    ensures err { IfErr result (AnswerEndsBy (λ answer. answer ≡ trace_answer (seen_source source.now) horizon view.now)
        (W.contents out.old) (W.contents out.new)) }
    ensures no_read { IfErr result IsNoRead }
{
    trace_shown(alloc, source, horizon, view, out)?;
    flush(out)?;
    Ok(Outcome::Done)
}

/// Writes the table of the frontiers of a run's shown nets by rounds, and flushes once.
///
/// # Errors
/// As for [`write_run`].
pub(crate) fn write_frontiers<W: Write>(
    alloc: Global,
    source: &Source<'_>,
    horizon: u64,
    show: &Selection<'_>,
    out: &mut W,
) -> Result<Outcome, ProgramFault<'static>>
    ensures ok { IfOk result (GoesOut (λ answer. answer ≡ frontiers_answer (seen_source source.now) horizon show.now)
        (W.contents out.old) (W.contents out.new)) }
    ensures err { IfErr result (AnswerEndsBy (λ answer. answer ≡ frontiers_answer (seen_source source.now) horizon show.now)
        (W.contents out.old) (W.contents out.new)) }
    ensures no_read { IfErr result IsNoRead }
{
    frontiers(alloc, source, horizon, show, out)?;
    flush(out)?;
    Ok(Outcome::Done)
}

/// Writes the nets in the fan-in cones of these names as .bench text and flushes once.
///
/// # Errors
/// If the netlist or a name is refused, nothing is written. After a failed write, a prefix of the text has been
/// written; after a failed flush, all of it.
pub(crate) fn write_cone<W: Write>(
    alloc: Global,
    bench: &[u8],
    names: &[&[u8]],
    out: &mut W,
) -> Result<Outcome, ProgramFault<'static>>
    ensures ok { IfOk result (GoesOut (IsAnswerOfCone bench.now (seen_names names.now))
        (W.contents out.old) (W.contents out.new)) }
    ensures err { IfErr result (AnswerEndsBy (IsAnswerOfCone bench.now (seen_names names.now))
        (W.contents out.old) (W.contents out.new)) }
    ensures no_read { IfErr result IsNoRead }
{
    let text = cone_text(alloc, bench, names)?;
    write_text(out, text.as_slice())?;
    Ok(Outcome::Done)
}

/// Writes the description of a source's circuit in numbers and names, and flushes once.
///
/// # Errors
/// If the source is refused, nothing is written. After a failed write, a prefix of the text has been written;
/// after a failed flush, all of it.
pub(crate) fn write_info<W: Write>(
    alloc: Global,
    source: &Source<'_>,
    out: &mut W,
) -> Result<Outcome, ProgramFault<'static>>
    ensures ok { IfOk result (GoesOut (IsAnswerOfInfo (seen_source source.now)) (W.contents out.old) (W.contents out.new)) }
    ensures err { IfErr result (AnswerEndsBy (IsAnswerOfInfo (seen_source source.now)) (W.contents out.old) (W.contents out.new)) }
    ensures no_read { IfErr result IsNoRead }
{
    let (_, design) = prepare(alloc, source, 0)?;
    let text = info(alloc, &design)?;
    write_text(out, text.as_slice())?;
    Ok(Outcome::Done)
}

/// Writes a line for each net that is compared in two runs, and flushes once. The outcome says whether
/// all of them are the same.
///
/// # Errors
/// As for [`write_twin`].
pub(crate) fn write_diff<W: Write>(
    alloc: Global,
    first: &Source<'_>,
    second: &Source<'_>,
    names: &[&[u8]],
    ticks: DiffTicks,
    out: &mut W,
) -> Result<Outcome, ProgramFault<'static>>
    ensures ok { IfOk result (GoesOut (IsAnswerOfDiff (seen_source first.now) (seen_source second.now) (seen_names names.now) ticks)
        (W.contents out.old) (W.contents out.new)) }
    ensures err { IfErr result (AnswerEndsBy (IsAnswerOfDiff (seen_source first.now) (seen_source second.now) (seen_names names.now) ticks)
        (W.contents out.old) (W.contents out.new)) }
    ensures no_read { IfErr result IsNoRead }
{
    let answer = diff(alloc, first, second, names, ticks)?;
    write_text(out, answer.text.as_slice())?;
    Ok(outcome_of(answer.same))
}

/// Returns the outcome of a comparison.
fn outcome_of(same: bool) -> Outcome
    ensures { result ≡ outcome_of same }
{
    if same {
        Outcome::Done
    } else {
        Outcome::Differing
    }
}

/// Writes whether two runs agree on the fan-in cone of a net and what the net shows in each, and flushes once.
///
/// # Errors
/// If a source or the net's name is refused, nothing is written. After a failed write, a prefix of the lines
/// has been written; after a failed flush, all of them.
pub(crate) fn write_twin<W: Write>(
    alloc: Global,
    first: &Source<'_>,
    second: &Source<'_>,
    net: &[u8],
    horizon: u64,
    out: &mut W,
) -> Result<Outcome, ProgramFault<'static>>
    ensures ok { IfOk result (GoesOut (IsAnswerOfTwin (seen_source first.now) (seen_source second.now) net.now horizon)
        (W.contents out.old) (W.contents out.new)) }
    ensures err { IfErr result (AnswerEndsBy (IsAnswerOfTwin (seen_source first.now) (seen_source second.now) net.now horizon)
        (W.contents out.old) (W.contents out.new)) }
    ensures no_read { IfErr result IsNoRead }
{
    let answer = twin(alloc, first, second, net, horizon)?;
    let text = twin_text(alloc, &answer)?;
    write_text(out, text.as_str().as_bytes())?;
    Ok(Outcome::Done)
}

/// Writes for how many nets the kernel and the plain engine give the same waveform, and flushes once.
///
/// # Errors
/// As for [`write_twin`].
pub(crate) fn write_check<W: Write>(
    alloc: Global,
    source: &Source<'_>,
    horizon: u64,
    out: &mut W,
) -> Result<Outcome, ProgramFault<'static>>
    ensures ok { IfOk result (GoesOut (λ answer. answer ≡ check_answer (seen_source source.now) horizon)
        (W.contents out.old) (W.contents out.new)) }
    ensures err { IfErr result (AnswerEndsBy (λ answer. answer ≡ check_answer (seen_source source.now) horizon)
        (W.contents out.old) (W.contents out.new)) }
    ensures no_read { IfErr result IsNoRead }
{
    let answer = check(alloc, source, horizon)?;
    let text = check_text(alloc, &answer)?;
    write_text(out, text.as_str().as_bytes())?;
    Ok(Outcome::Done)
}

/// Writes the lines that explain why the net with this name has its value at a tick, and flushes once. Reports the
/// progress of the run as [`why_with_progress`] does.
///
/// # Errors
/// As for [`write_twin`].
pub(crate) fn write_why<W: Write, P: Progress>(
    alloc: Global,
    source: &Source<'_>,
    name: &[u8],
    tick: u64,
    out: &mut W,
    progress: &mut P,
) -> Result<Outcome, ProgramFault<'static>>
    ensures ok { IfOk result (GoesOut (λ answer. answer ≡ why_answer (seen_source source.now) name.now tick)
        (W.contents out.old) (W.contents out.new)) }
    ensures err { IfErr result (AnswerEndsBy (λ answer. answer ≡ why_answer (seen_source source.now) name.now tick)
        (W.contents out.old) (W.contents out.new)) }
    ensures no_read { IfErr result IsNoRead }
    ensures reported { Reported (P.reports tick) (IsProgress result tick) progress.old progress.new }
{
    let text = why_with_progress(alloc, source, name, tick, progress)?;
    write_text(out, text.as_slice())?;
    Ok(Outcome::Done)
}

/// Writes the stimulus text of a netlist's inputs, and flushes once.
///
/// # Errors
/// If the horizon, the netlist or a drive is refused, nothing is written. After a failed write, a prefix of the
/// text has been written; after a failed flush, all of it.
pub(crate) fn write_stimuli<W: Write>(
    alloc: Global,
    bench: &[u8],
    drives: &[Driven<'_>],
    draws: Draws,
    horizon: u64,
    out: &mut W,
) -> Result<Outcome, ProgramFault<'static>>
    ensures ok { IfOk result (GoesOut (λ answer. answer ≡ stimuli_answer bench.now (map seen_drive drives.now) draws horizon)
        (W.contents out.old) (W.contents out.new)) }
    ensures err { IfErr result (AnswerEndsBy (λ answer. answer ≡ stimuli_answer bench.now (map seen_drive drives.now) draws horizon)
        (W.contents out.old) (W.contents out.new)) }
    ensures no_read { IfErr result IsNoRead }
{
    let text = stimuli(alloc, bench, drives, draws, horizon)?;
    write_text(out, text.as_slice())?;
    Ok(Outcome::Done)
}
