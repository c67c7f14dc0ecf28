//! A run by the plain engine.
ghost use Rattle.std.specs.Prelude.{◌≡◌, ◌+◌, ◌<◌, map, length, All, IfOk, IfErr, OnOk, IsOkAnd, Err};
ghost use Rattle.std.specs.Io.KnownBytes.{Appends};
ghost use Rattle.design.specs.Design.{IsDesign};
ghost use Rattle.design.specs.Equations.{waves_of};
ghost use Rattle.prepared_runs.specs.Reported.{IsTickByTick, Reported};
ghost use Rattle.prepared_runs.specs.Source.{dump_of_design, dump_of_source, seen_source, shown_nets, MayWantMemory};
ghost use Rattle.prepared_runs.specs.Ends.{BreaksOff, RunEndsBy};
ghost use Rattle.prepared_runs.specs.Shown.{wave_at, waves_up_to};
ghost use Rattle.plain_runs.specs.Shows.{ShowsSource};
ghost use Rattle.prepared_runs.specs.Views.{dump_view};
ghost use Rattle.prepared_runs.specs.declared.fault.SimFault.TheVariants.{Memory};

use crate::dumping::write_dump;
use design::Design;
use design::plain::{advance, unknown_waves};
use logic3::Waveform;
use prepared_runs::{
    DumpView, Progress, Selection, Silent, SimFault, Source, View, prepare, shown_nets,
};
use std::alloc::{AllocError, Global};
use std::io::Write;
use timing_text::Horizon;

/// Writes the dump of a run.
///
/// The text shows each shown net's value at every tick, as the equations give it.
///
/// # Errors
/// A refusal of the settings or of a text comes before the first byte is written; the settings and the length
/// of the netlist's text are checked before any memory is taken. If a write or an allocation fails, a prefix
/// of the dump has been written, which may be empty.
pub fn plain<W: Write>(
    alloc: Global,
    source: &Source<'_>,
    view: &View,
    out: &mut W,
) -> Result<(), SimFault>
    ensures ok { OnOk result (IsOkAnd (dump_of_source (seen_source source.now) (dump_view view.now))
        (Appends (W.contents out.old) (W.contents out.new))) }
    ensures shows { OnOk result (ShowsSource (seen_source source.now) (dump_view view.now)
        (W.contents out.old) (W.contents out.new)) }
    ensures err { IfErr result (RunEndsBy (dump_of_source (seen_source source.now) (dump_view view.now))
        (W.contents out.old) (W.contents out.new)) }
    ensures memory { result ≡ Err Memory → MayWantMemory (seen_source source.now) view.now.horizon }
{
    plain_with_progress(alloc, source, &DumpView::of(view), out, &mut Silent)
}

/// Writes the dump of a run, as [`plain`] does, and reports its progress: each number of ticks, from 0 on,
/// once that many are known, up to all ticks of the run. The dump is written after that.
///
/// # Errors
/// As for [`plain`], and after its refusals [`SimFault::UnknownNet`] if no net has one of the names to be
/// shown. No progress is reported for a source or a view that is refused.
pub fn plain_with_progress<W: Write, P: Progress>(
    alloc: Global,
    source: &Source<'_>,
    view: &DumpView<'_>,
    out: &mut W,
    progress: &mut P,
) -> Result<(), SimFault>
    ensures ok { OnOk result (IsOkAnd (dump_of_source (seen_source source.now) view.now)
        (Appends (W.contents out.old) (W.contents out.new))) }
    ensures shows { OnOk result (ShowsSource (seen_source source.now) view.now
        (W.contents out.old) (W.contents out.new)) }
    ensures err { IfErr result (RunEndsBy (dump_of_source (seen_source source.now) view.now)
        (W.contents out.old) (W.contents out.new)) }
    ensures memory { result ≡ Err Memory → MayWantMemory (seen_source source.now) view.now.horizon }
    ensures reported { Reported (P.reports view.now.horizon) (IsTickByTick result view.now.horizon) progress.old progress.new }
{
    let (horizon, design) = prepare(alloc, source, view.horizon)?;
    let nets = shown_nets(alloc, &design, &view.show)?;
    dump_by_plain_engine(
        alloc,
        &design,
        horizon,
        view,
        nets.as_slice(),
        out,
        progress,
    )
}

/// Runs a design by the plain engine, and writes the dump of these nets, which are the shown ones.
fn dump_by_plain_engine<W: Write, P: Progress>(
    alloc: Global,
    design: &Design,
    horizon: Horizon,
    view: &DumpView<'_>,
    nets: &[u32],
    out: &mut W,
    progress: &mut P,
) -> Result<(), SimFault>
    requires nets { nets.now ≡ shown_nets view.now.show design.now.netlist }
    requires well_formed { IsDesign design.now }
    ensures ok { OnOk result (Appends (W.contents out.old) (W.contents out.new)
        (dump_of_design view.now horizon design.now)) }
    ensures err { IfErr result (BreaksOff (W.contents out.old) (W.contents out.new)
        (dump_of_design view.now horizon design.now)) }
    ensures reported { Reported (P.reports horizon) (IsTickByTick result horizon) progress.old progress.new }
{
    let waves = shown_waves(alloc, design, horizon, &view.show, nets, progress)?;
    write_dump(alloc, design, horizon, view, nets, waves.as_slice(), out)
}

/// Returns the waveforms of the shown nets, and reports the engine's progress.
fn shown_waves<P: Progress>(
    alloc: Global,
    design: &Design,
    horizon: Horizon,
    show: &Selection<'_>,
    nets: &[u32],
    progress: &mut P,
) -> Result<Vec<Waveform>, AllocError>
    requires nets { nets.now ≡ shown_nets show.now design.now.netlist }
    requires well_formed { IsDesign design.now }
    ensures waves { IfOk result (λ waves. waves.items ≡ waves_up_to design.now.circuit horizon nets.now) }
    ensures reported { Reported (P.reports horizon) (IsTickByTick result horizon) progress.old progress.new }
{
    let waves = all_waves(alloc, design, horizon, progress)?;
    match show {
        Selection::All => Ok(waves),
        Selection::Outputs | Selection::Named(_) => copies(alloc, waves.as_slice(), nets),
    }
}

/// Returns the waveforms of all nets, in their order, and reports the engine's progress.
pub(crate) fn all_waves<P: Progress>(
    alloc: Global,
    design: &Design,
    horizon: Horizon,
    progress: &mut P,
) -> Result<Vec<Waveform>, AllocError>
    ensures waves { IfOk result (λ waves. waves.items ≡ waves_of design.now.circuit (horizon + 1)) }
    ensures reported { Reported (P.reports horizon) (IsTickByTick result horizon) progress.old progress.new }
{
    let mut waves = unknown_waves(alloc, design)?;
    let mut values = Vec::new(alloc);
    progress.report(0, horizon);
    for tick in 0..horizon.ticks() + 1 {
        advance(design, tick, &mut waves, &mut values)?;
        progress.report(tick + 1, horizon);
    }
    Ok(waves)
}

/// Returns copies of the waveforms of these nets.
pub(crate) fn copies(
    alloc: Global,
    waves: &[Waveform],
    nets: &[u32],
) -> Result<Vec<Waveform>, AllocError>
    requires { All (λ net. net < length waves.now) nets.now }
    ensures { IfOk result (λ copies. copies.items ≡ map (wave_at waves.now) nets.now) }
{
    let mut copies = Vec::with_capacity(alloc, nets.len())?;
    for net in nets {
        copies.push(waves[*net as usize].copy()?)?;
    }
    Ok(copies)
}
