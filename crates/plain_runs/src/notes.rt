//! The notes of a run.
ghost use Rattle.std.specs.Prelude.{◌≡◌, ◌+◌, ◌++◌, Ok, Err, IfErr, IfOk, OnOk};
ghost use Rattle.design.specs.Design.{IsDesign};
ghost use Rattle.design.specs.Equations.{waves_of};
ghost use Rattle.prepared_runs.specs.Ends.{IsRefusal};
ghost use Rattle.prepared_runs.specs.Source.{seen_source, MayWantMemory};
ghost use Rattle.prepared_runs.specs.declared.fault.SimFault.TheVariants.{Memory};
ghost use Rattle.plain_runs.specs.Noted.{notes_of_source};
ghost use Rattle.plain_runs.specs.Remarks.{noted_nets};
ghost use Rattle.plain_runs.specs.Text.{late_flops_note, notes_of_design, notes_of_texts, remark_note, sampling, unused_note};

use crate::doubt::{Doubt, push_doubt};
use crate::likeness::push_name_notes;
use crate::remark::Remark;
use crate::text::{push_nets_note, push_outputs_note};
use crate::unused::{has_flops, unused_inputs};
use circuit_info::late_flops;
use design::{Design, plain_waves};
use logic3::Waveform;
use netlist::Netlist;
use prepared_runs::{SimFault, Source, prepare};
use std::alloc::{AllocError, Global};
use timing_text::Horizon;

/// Returns the notes on a run to this horizon, a line each, in this order, and nothing if there are none:
///
/// - `note: no net is an output`
/// - `note: inputs without a stimulus, X throughout: a b`
/// - `note: inputs whose stimuli after the horizon are ignored: e`
/// - `note: unused inputs: c`, and, if there are flip-flops, `; flip-flops sample by --period or clock lines`
/// - `note: other nets that are X throughout: y z`
/// - `note: flip-flops whose period is shorter than the longest path to them: q; nullsim info prints the longest`
/// - `note: nets named like comments, which begin with # here: //y, in line 2 of the .bench text`, for names that begin
///   with `//`, `/*`, `--` or `;`
/// - `note: nets whose names end with ';', ':' or '<', as part of the name: y: z<, in lines 2 3 of the .bench text`
/// - `note: nets named like buses, each of one bit: a[7:0], in line 1 of the .bench text`
/// - `note: lines of the .bench text whose comments hide words after a carriage return: 3`, and so of the delay text and
///   of the stimulus text
/// - `note: lines of the delay text that # makes comments, with delays for nets that have no delay line: 1 2`
/// - `note: lines of the stimulus text that # makes comments, with stimuli for inputs that have none: 1 2`
///
/// Names are in the order in which the netlist defines their nets, at most twelve in a line. If there are more, the
/// number of the others follows, as in ` and 188 more`. An unused input is at no pin and isn't an output. The ticks of a
/// path are those of [`longest_paths`](circuit_info::longest_paths), to the flip-flop's pin; if gates form a loop, there
/// is no such note. The plain engine computes the run, with all waveforms in memory.
///
/// # Errors
/// A refusal of the settings or of a text, as for any run.
pub fn notes_text(alloc: Global, source: &Source<'_>, horizon: u64) -> Result<Vec<u8>, SimFault>
    ensures ok { IfOk result (λ text. notes_of_source (seen_source source.now) horizon ≡ Ok text.items) }
    ensures err { IfErr result (IsRefusal (notes_of_source (seen_source source.now) horizon)) }
    ensures memory { result ≡ Err Memory → MayWantMemory (seen_source source.now) horizon }
{
    let (ticks, design) = prepare(alloc, source, horizon)?;
    let waves = plain_waves(alloc, &design, ticks)?;
    let mut notes = design_notes(alloc, &design, ticks, waves.as_slice())?;
    push_text_notes(alloc, &mut notes, source, &design)?;
    Ok(notes)
}

/// Returns the notes of a design, given the waveforms of all nets to the horizon.
fn design_notes(
    alloc: Global,
    design: &Design,
    horizon: Horizon,
    waves: &[Waveform],
) -> Result<Vec<u8>, AllocError>
    requires waves { waves.now ≡ waves_of design.now.circuit (horizon + 1) }
    ensures { IfOk result (λ text. text.items ≡ notes_of_design horizon design.now) }
{
    let mut text = Vec::new(alloc);
    push_outputs_note(&mut text, design.netlist())?;
    push_remark(alloc, &mut text, design, horizon, waves, Remark::Undriven)?;
    push_remark(alloc, &mut text, design, horizon, waves, Remark::Late)?;
    push_unused(alloc, &mut text, design.netlist())?;
    push_remark(alloc, &mut text, design, horizon, waves, Remark::Unknown)?;
    push_late_flops(alloc, &mut text, design)?;
    Ok(text)
}

/// Adds the lines on the names of nets, and on the texts of a source.
fn push_text_notes(
    alloc: Global,
    notes: &mut Vec<u8>,
    source: &Source<'_>,
    design: &Design,
) -> Result<(), AllocError>
    ensures { OnOk result (notes.new.items ≡ notes.old.items ++ notes_of_texts (seen_source source.now) design.now) }
{
    push_name_notes(alloc, notes, design.netlist(), source.bench)?;
    push_doubt(
        alloc,
        notes,
        design,
        "lines of the .bench text whose comments hide words after a carriage return",
        source.bench,
        Doubt::HiddenWord,
    )?;
    push_doubt(
        alloc,
        notes,
        design,
        "lines of the delay text whose comments hide words after a carriage return",
        source.delays,
        Doubt::HiddenWord,
    )?;
    push_doubt(
        alloc,
        notes,
        design,
        "lines of the stimulus text whose comments hide words after a carriage return",
        source.stimuli,
        Doubt::HiddenWord,
    )?;
    push_doubt(
        alloc,
        notes,
        design,
        "lines of the delay text that # makes comments, with delays for nets that have no delay line",
        source.delays,
        Doubt::Delay,
    )?;
    push_doubt(
        alloc,
        notes,
        design,
        "lines of the stimulus text that # makes comments, with stimuli for inputs that have none",
        source.stimuli,
        Doubt::Stimulus,
    )?;
    Ok(())
}

/// Adds the line of a remark.
fn push_remark(
    alloc: Global,
    text: &mut Vec<u8>,
    design: &Design,
    horizon: Horizon,
    waves: &[Waveform],
    remark: Remark,
) -> Result<(), AllocError>
    requires waves { waves.now ≡ waves_of design.now.circuit (horizon + 1) }
    ensures { OnOk result (text.new.items ≡ text.old.items ++ remark_note remark horizon design.now) }
{
    let nets = noted_nets(alloc, design, horizon, waves, remark)?;
    push_nets_note(text, design.netlist(), remark.words(), nets.as_slice(), b"")
}

/// Adds the line of the inputs that nothing uses.
fn push_unused(alloc: Global, text: &mut Vec<u8>, netlist: &Netlist) -> Result<(), AllocError>
    ensures { OnOk result (text.new.items ≡ text.old.items ++ unused_note netlist.now) }
{
    let nets = unused_inputs(alloc, netlist)?;
    push_nets_note(
        text,
        netlist,
        "unused inputs",
        nets.as_slice(),
        sampling(netlist).as_bytes(),
    )
}

/// Adds the line of the flip-flops whose period is too short for the longest path to their pin.
fn push_late_flops(alloc: Global, text: &mut Vec<u8>, design: &Design) -> Result<(), AllocError>
    ensures { OnOk result (text.new.items ≡ text.old.items ++ late_flops_note design.now) }
{
    let nets = late_flops(alloc, design)?;
    push_nets_note(
        text,
        design.netlist(),
        "flip-flops whose period is shorter than the longest path to them",
        nets.as_slice(),
        b"; nullsim info prints the longest",
    )
}

/// Returns what follows the names of unused inputs.
fn sampling(netlist: &Netlist) -> &'static str
    ensures { result.now ≡ sampling netlist.now }
{
    if has_flops(netlist) {
        "; flip-flops sample by --period or clock lines"
    } else {
        ""
    }
}

/// Returns the numbers of the nets that a remark is about, in rising order.
fn noted_nets(
    alloc: Global,
    design: &Design,
    horizon: Horizon,
    waves: &[Waveform],
    remark: Remark,
) -> Result<Vec<u32>, AllocError>
    requires waves { waves.now ≡ waves_of design.now.circuit (horizon + 1) }
    ensures nets { IfOk result (λ nets. nets.items ≡ noted_nets remark horizon design.now.circuit) }
    ensures well_formed { IsDesign design.now }
{
    let mut nets = Vec::new(alloc);
    for net in 0..design.nets() {
        if remark.is_noted(design, horizon, waves, net) {
            nets.push(net)?;
        }
    }
    Ok(nets)
}
