ghost use Rattle.std.specs.Prelude.{◌≡◌, ◌<◌, ◌++◌, ◌*◌, length, map, flat_map, All, OnOk};
ghost use Rattle.logic3.specs.Wave.{value_at};
ghost use Rattle.vcd_dump.specs.Traces.{traces};
ghost use Rattle.timing_diagram.specs.Ruler.{label_count};
ghost use Rattle.timing_diagram.specs.Drawing.{mark_byte, marks_text, line_text, ruler_label, ruler_text, drawn_text};
ghost use Rattle.timing_diagram.specs.Bus.{seen_bus};
ghost use Rattle.timing_diagram.specs.Picture.{name_width, widest};

use crate::bus::Bus;
use crate::bus_text::{push_bus_lines, widest_bus};
use crate::columns::Columns;
use crate::mark::Mark;
use crate::marks::mark_at;
use crate::pieces::push_times;
use design::Design;
use logic3::Waveform;
use std::alloc::AllocError;
use texts::push_number;

fn mark_byte(mark: Mark) -> u8
    ensures { result ≡ mark_byte mark }
{
    match mark {
        Mark::Low => b'_',
        Mark::Fall => b'\\',
        Mark::High => b'-',
        Mark::Rise => b'/',
        Mark::Unsure => b'x',
        Mark::Changing => b'|',
    }
}

fn push_marks(text: &mut Vec<u8>, wave: &Waveform, columns: Columns) -> Result<(), AllocError>
    ensures { OnOk result
        (text.new.items ≡ text.old.items ++ marks_text (value_at wave.now) columns) }
{
    for column in 0..columns.count() {
        text.push(mark_byte(mark_at(wave, columns, column)))?;
    }
    Ok(())
}

// Adds the line of a net, whose name is at most as long as the width.
fn push_line(
    text: &mut Vec<u8>,
    width: usize,
    name: &[u8],
    wave: &Waveform,
    columns: Columns,
) -> Result<(), AllocError>
    ensures { OnOk result
        (text.new.items ≡ text.old.items ++ line_text width columns (name.now, value_at wave.now)) }
{
    text.extend_from_slice(name)?;
    push_times(text, b' ', width.saturating_sub(name.len()))?;
    text.extend_from_slice(b"  ")?;
    push_marks(text, wave, columns)?;
    text.push(b'\n')?;
    Ok(())
}

fn push_label(text: &mut Vec<u8>, columns: Columns, place: u64) -> Result<(), AllocError>
    requires { place < label_count columns }
    ensures { OnOk result (text.new.items ≡ text.old.items ++ ruler_label columns place) }
{
    let start = text.len();
    push_number(text, columns.label(place))?;
    push_times(text, b'.', 10usize.saturating_sub(text.len() - start))
}

fn push_ruler(text: &mut Vec<u8>, width: usize, columns: Columns) -> Result<(), AllocError>
    ensures { OnOk result (text.new.items ≡ text.old.items ++ ruler_text width columns) }
{
    push_times(text, b' ', width)?;
    text.extend_from_slice(b"  ")?;
    push_times(text, b'.', columns.label_column(0) as usize)?;
    for place in 0..columns.label_count() {
        push_label(text, columns, place)?;
    }
    text.push(b'\n')?;
    Ok(())
}

/// Returns the length in bytes of the longest name of some nets and buses.
pub(crate) fn name_width(
    design: &Design,
    shown: &[u32],
    waves: &[Waveform],
    buses: &[Bus<'_>],
) -> usize
    requires shown_exist { All (λ net. net < length design.now.circuit) shown.now }
    requires one_wave_each { length waves.now ≡ length shown.now }
    ensures { result ≡ name_width (traces design.now.circuit shown.now waves.now) (map seen_bus buses.now) }
{
    widest(design, shown, waves).max(widest_bus(buses))
}

/// Returns the length in bytes of the longest name of some nets.
fn widest(design: &Design, shown: &[u32], waves: &[Waveform]) -> usize
    requires shown_exist { All (λ net. net < length design.now.circuit) shown.now }
    requires one_wave_each { length waves.now ≡ length shown.now }
    ensures { result ≡ widest (traces design.now.circuit shown.now waves.now) }
{
    let mut width = 0;
    for net in shown {
        width = design.name(*net).len().max(width);
    }
    width
}

/// Adds the drawing of some nets and buses as text.
pub(crate) fn push_text(
    text: &mut Vec<u8>,
    design: &Design,
    shown: &[u32],
    waves: &[Waveform],
    buses: &[Bus<'_>],
    columns: Columns,
) -> Result<(), AllocError>
    requires shown_exist { All (λ net. net < length design.now.circuit) shown.now }
    requires one_wave_each { length waves.now ≡ length shown.now }
    ensures { OnOk result (text.new.items ≡ text.old.items
        ++ drawn_text columns (traces design.now.circuit shown.now waves.now) (map seen_bus buses.now)) }
{
    let width = name_width(design, shown, waves, buses);
    push_ruler(text, width, columns)?;
    push_lines(text, width, design, shown, waves, columns)?;
    push_bus_lines(text, width, buses, columns)?;
    Ok(())
}

/// Adds the lines of some nets.
fn push_lines(
    text: &mut Vec<u8>,
    width: usize,
    design: &Design,
    shown: &[u32],
    waves: &[Waveform],
    columns: Columns,
) -> Result<(), AllocError>
    requires shown_exist { All (λ net. net < length design.now.circuit) shown.now }
    requires one_wave_each { length waves.now ≡ length shown.now }
    ensures { OnOk result (text.new.items ≡ text.old.items
        ++ flat_map (line_text width columns) (traces design.now.circuit shown.now waves.now)) }
{
    for (place, net) in shown.iter().enumerate() {
        push_line(text, width, design.name(*net), &waves[place], columns)?;
    }
    Ok(())
}
