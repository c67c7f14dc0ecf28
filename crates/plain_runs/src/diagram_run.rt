//! The timing diagram of a run.
ghost use Rattle.std.specs.Prelude.{◌≡◌, ◌≢◌, ℕ, ◌<◌, ◌≤◌, Ok, Err, length, map, slice_index_or, All, IfErr, IfOk, IsOkAnd, IsTrue, OnOk};
ghost use Rattle.std.specs.Io.KnownBytes.{Appends};
ghost use Rattle.timing_diagram.specs.Bus.{seen_bus};
ghost use Rattle.timing_diagram.specs.Columns.{IsDrawable};
ghost use Rattle.plain_runs.specs.declared.diagram_fault.DiagramFault.TheVariants.{Run};
ghost use Rattle.logic3.specs.Wave.{value_at};
ghost use Rattle.vcd_dump.specs.Traces.{traces};
ghost use Rattle.plain_runs.specs.Drawn.{DiagramEndsBy, bus_trace, diagram_of_lanes, diagram_of_source, drawing_within, ticks_of_view};
ghost use Rattle.prepared_runs.specs.Lanes.{bits_of, bus_view, seen_lanes};
ghost use Rattle.prepared_runs.specs.Reported.{IsTickByTick, Reported};
ghost use Rattle.prepared_runs.specs.Shown.{wave_at};
ghost use Rattle.prepared_runs.specs.Source.{seen_source, MayWantMemory};
ghost use Rattle.prepared_runs.specs.declared.fault.SimFault.TheVariants.{Memory};

use crate::diagram_fault::DiagramFault;
use crate::plain_run::{all_waves, copies};
use design::Design;
use logic3::Waveform;
use prepared_runs::{
    BusNets, DiagramView, Lanes, Progress, Silent, SimFault, Source, lanes_of, prepare,
};
use std::alloc::{AllocError, Global};
use std::io::Write;
use timing_diagram::{Bus, Columns, ColumnsFault, Form, draw, is_too_long};
use timing_text::Horizon;

/// Writes the timing diagram of a run, which the plain engine computes up to its horizon.
///
/// A column shows what the equations give the net at the column's ticks, or at its last tick.
///
/// # Errors
/// The horizon and the columns ([`DiagramFault::Columns`]) are checked first, then the settings and the
/// texts, and then the names of nets to be shown ([`SimFault::UnknownNet`]). What is too much for a page
/// ([`ColumnsFault::TooManyChanges`]) is known once the run is complete. A refusal comes before the first
/// byte is written, since the whole diagram is made before that. If a write fails, a prefix of it has been
/// written.
pub fn diagram<W: Write>(
    alloc: Global,
    source: &Source<'_>,
    view: &DiagramView<'_>,
    form: Form,
    out: &mut W,
) -> Result<(), DiagramFault>
    ensures ok { OnOk result (IsOkAnd (diagram_of_source (seen_source source.now) view.now form)
        (Appends (W.contents out.old) (W.contents out.new))) }
    ensures err { IfErr result (DiagramEndsBy (diagram_of_source (seen_source source.now) view.now form)
        (W.contents out.old) (W.contents out.new)) }
    ensures memory { result ≡ Err (Run Memory) → MayWantMemory (seen_source source.now) view.now.horizon }
{
    diagram_with_progress(alloc, source, view, form, out, &mut Silent)
}

/// Writes the timing diagram of a run, as [`diagram`] does, and reports its progress: each number of ticks, from
/// 0 on, once that many are known, up to all ticks of the run. The diagram is made and written after that.
///
/// # Errors
/// As for [`diagram`]. No progress is reported for a source or a view that is refused.
pub fn diagram_with_progress<W: Write, P: Progress>(
    alloc: Global,
    source: &Source<'_>,
    view: &DiagramView<'_>,
    form: Form,
    out: &mut W,
    progress: &mut P,
) -> Result<(), DiagramFault>
    ensures ok { OnOk result (IsOkAnd (diagram_of_source (seen_source source.now) view.now form)
        (Appends (W.contents out.old) (W.contents out.new))) }
    ensures err { IfErr result (DiagramEndsBy (diagram_of_source (seen_source source.now) view.now form)
        (W.contents out.old) (W.contents out.new)) }
    ensures memory { result ≡ Err (Run Memory) → MayWantMemory (seen_source source.now) view.now.horizon }
    ensures reported { Reported (P.reports view.now.horizon) (IsTickByTick result view.now.horizon) progress.old progress.new }
{
    let columns = columns_of(view)?;
    let (horizon, design) = prepare(alloc, source, view.horizon)?;
    let lanes = lanes_of(alloc, &design, view)?;
    draw_lanes(
        alloc, &design, horizon, &lanes, form, columns, out, progress,
    )?;
    Ok(())
}

/// Returns the columns of a diagram.
fn columns_of(view: &DiagramView<'_>) -> Result<Columns, DiagramFault>
    ensures exact { result ≡ ticks_of_view view.now }
    ensures drawable { IfOk result IsDrawable }
    ensures within { IfOk result (λ ticks. ticks.to ≤ view.now.horizon) }
    ensures no_memory { IfErr result (λ fault. fault ≢ Run Memory) }
{
    let horizon = Horizon::new(view.horizon)?;
    Ok(Columns::new(view.from, view.to, view.step, view.at_end, horizon)?)
}

/// Runs a design by the plain engine, reports its progress, and draws these lanes.
fn draw_lanes<W: Write, P: Progress>(
    alloc: Global,
    design: &Design,
    horizon: Horizon,
    lanes: &Lanes<'_>,
    form: Form,
    columns: Columns,
    out: &mut W,
    progress: &mut P,
) -> Result<(), DiagramFault>
    requires nets_exist { All (λ net. net < length design.now.circuit) lanes.now.nets.items }
    requires bits_exist { All (λ net. net < length design.now.circuit) (bits_of (seen_lanes lanes.now).buses) }
    requires few { length lanes.now.nets.items ≤ length design.now.circuit }
    requires drawable { IsDrawable columns }
    requires within { columns.to ≤ horizon }
    ensures ok { OnOk result (IsOkAnd (diagram_of_lanes form columns design.now.circuit (seen_lanes lanes.now))
        (Appends (W.contents out.old) (W.contents out.new))) }
    ensures err { IfErr result (DiagramEndsBy (diagram_of_lanes form columns design.now.circuit (seen_lanes lanes.now))
        (W.contents out.old) (W.contents out.new)) }
    ensures reported { Reported (P.reports horizon) (IsTickByTick result horizon) progress.old progress.new }
{
    let waves = all_waves(alloc, design, horizon, progress)?;
    let nets = lanes.nets.as_slice();
    let buses = bus_waves(alloc, waves.as_slice(), lanes.buses.as_slice())?;
    let shown = lane_waves(alloc, waves, nets)?;
    draw_waves(
        alloc,
        design,
        nets,
        shown.as_slice(),
        buses.as_slice(),
        form,
        columns,
        out,
    )
}

/// Draws nets and buses with these waveforms, unless they have too much for a page.
fn draw_waves<W: Write>(
    alloc: Global,
    design: &Design,
    nets: &[u32],
    waves: &[Waveform],
    buses: &[Bus<'_>],
    form: Form,
    columns: Columns,
    out: &mut W,
) -> Result<(), DiagramFault>
    requires nets_exist { All (λ net. net < length design.now.circuit) nets.now }
    requires one_wave_each { length waves.now ≡ length nets.now }
    requires few { length nets.now ≤ length design.now.circuit }
    ensures ok { OnOk result (IsOkAnd (drawing_within form columns (map value_at waves.now)
        (traces design.now.circuit nets.now waves.now) (map seen_bus buses.now)) (Appends (W.contents out.old) (W.contents out.new))) }
    ensures err { IfErr result (DiagramEndsBy (drawing_within form columns (map value_at waves.now)
        (traces design.now.circuit nets.now waves.now) (map seen_bus buses.now)) (W.contents out.old) (W.contents out.new)) }
{
    if is_too_long(waves, buses, columns, form) {
        return Err(DiagramFault::Columns(ColumnsFault::TooManyChanges));
    }
    draw(alloc, out, design, nets, waves, buses, columns, form)?;
    Ok(())
}

/// Returns the waveforms of these nets, of all waveforms.
fn lane_waves(
    alloc: Global,
    waves: Vec<Waveform>,
    nets: &[u32],
) -> Result<Vec<Waveform>, AllocError>
    requires { All (λ net. net < length waves.items) nets.now }
    ensures { IfOk result (λ shown. shown.items ≡ map (wave_at waves.items) nets.now) }
{
    if are_all(waves.as_slice().len(), nets) {
        return Ok(waves);
    }
    copies(alloc, waves.as_slice(), nets)
}

/// Returns whether these are all nets, in the order of their numbers.
fn are_all(count: usize, nets: &[u32]) -> bool
    ensures size { IsTrue result → length nets.now ≡ count }
    ensures places { IsTrue result → (place : ℕ) → place < count → slice_index_or nets.now place 0 ≡ place }
{
    if nets.len() != count {
        return false;
    }
    for (place, net) in nets.iter().enumerate() {
        if *net as usize != place {
            return false;
        }
    }
    true
}

/// Returns the buses with the waveforms of their bits, of all waveforms.
fn bus_waves<'a>(
    alloc: Global,
    waves: &[Waveform],
    buses: &[BusNets<'a>],
) -> Result<Vec<Bus<'a>>, AllocError>
    requires { All (λ net. net < length waves.now) (bits_of (map bus_view buses.now)) }
    ensures { IfOk result (λ drawn. map seen_bus drawn.items ≡ map (bus_trace (wave_at waves.now)) (map bus_view buses.now)) }
{
    let mut drawn = Vec::with_capacity(alloc, buses.len())?;
    for bus in buses {
        let bits = copies(alloc, waves, bus.nets.as_slice())?;
        drawn.push(Bus {
            name: bus.name,
            bits,
        })?;
    }
    Ok(drawn)
}
