ghost use Rattle.std.specs.Prelude.{◌≡◌, ◌<◌, ◌++◌, ◌+◌, ◌^◌, length, map, All, flat_map, OnOk};
ghost use Rattle.std.specs.List.{enumerate_from};
ghost use Rattle.logic3.specs.Wave.{value_at};
ghost use Rattle.vcd_dump.specs.Traces.{traces};
ghost use Rattle.timing_diagram.specs.Bus.{seen_bus};
ghost use Rattle.timing_diagram.specs.Columns.{column_count};
ghost use Rattle.timing_diagram.specs.Ruler.{label_count};
ghost use Rattle.timing_diagram.specs.Picture.{escaped_byte, escaped, mark_path, column_path, signal_path, heading, grid_line, grid, name_row, signal_row, trace_row, svg_text};

use crate::bus::Bus;
use crate::bus_picture::push_bus_rows;
use crate::columns::Columns;
use crate::mark::Mark;
use crate::marks::mark_at;
use crate::text::name_width;
use design::Design;
use logic3::Waveform;
use std::alloc::AllocError;
use texts::push_numbered;

fn push_escaped_byte(text: &mut Vec<u8>, byte: u8) -> Result<(), AllocError>
    ensures { OnOk result (text.new.items ≡ text.old.items ++ escaped_byte byte) }
{
    match byte {
        b'&' => text.extend_from_slice(b"&amp;")?,
        b'<' => text.extend_from_slice(b"&lt;")?,
        b'>' => text.extend_from_slice(b"&gt;")?,
        _ => text.push(byte)?,
    }
    Ok(())
}

fn push_escaped(text: &mut Vec<u8>, name: &[u8]) -> Result<(), AllocError>
    ensures { OnOk result (text.new.items ≡ text.old.items ++ escaped name.now) }
{
    for byte in name {
        push_escaped_byte(text, *byte)?;
    }
    Ok(())
}

pub(crate) fn mark_path(mark: Mark) -> &'static [u8]
    ensures { result.now ≡ mark_path mark }
{
    match mark {
        Mark::Low => b" 16h10",
        Mark::Fall => b" 0v16h10",
        Mark::High => b" 0h10",
        Mark::Rise => b" 16v-16h10",
        Mark::Unsure => b" 0h10m-10 16h10m-10 0l10-16",
        Mark::Changing => b" 0l10 16m-10 0l10-16",
    }
}

fn push_column(
    text: &mut Vec<u8>,
    wave: &Waveform,
    columns: Columns,
    column: u64,
) -> Result<(), AllocError>
    requires { column < column_count columns }
    ensures { OnOk result
        (text.new.items ≡ text.old.items ++ column_path (value_at wave.now) columns column) }
{
    push_numbered(text, b"M", 10 * column)?;
    text.extend_from_slice(mark_path(mark_at(wave, columns, column)))
}

fn push_signal(text: &mut Vec<u8>, wave: &Waveform, columns: Columns) -> Result<(), AllocError>
    ensures { OnOk result
        (text.new.items ≡ text.old.items ++ signal_path (value_at wave.now) columns) }
{
    for column in 0..columns.count() {
        push_column(text, wave, columns, column)?;
    }
    Ok(())
}

fn push_heading(text: &mut Vec<u8>, left: u64, height: u64, count: u64) -> Result<(), AllocError>
    requires left { left < 2 ^ 32 }
    requires count { count < 2 ^ 32 }
    ensures { OnOk result (text.new.items ≡ text.old.items ++ heading left height count) }
{
    let width = left + 10 * count + 80;
    push_numbered(
        text,
        b"<svg xmlns=\"http://www.w3.org/2000/svg\" width=\"",
        width,
    )?;
    push_numbered(text, b"\" height=\"", height)?;
    push_numbered(text, b"\" viewBox=\"0 0 ", width)?;
    push_numbered(text, b" ", height)?;
    text.extend_from_slice(
        b"\" role=\"img\" class=\"nullsim\" color=\"black\" fill=\"currentColor\" font-family=\"monospace\" font-size=\"12\">\n",
    )?;
    text.extend_from_slice(b"<title>Timing diagram by nullsim</title>\n")?;
    text.extend_from_slice(
        b"<style>@media screen and (prefers-color-scheme: dark) { .nullsim { color: #ddd } .nullsim rect { fill: #111 } }</style>\n",
    )?;
    text.extend_from_slice(b"<rect width=\"100%\" height=\"100%\" fill=\"white\"/>\n")?;
    Ok(())
}

fn push_grid_line(
    text: &mut Vec<u8>,
    left: u64,
    height: u64,
    columns: Columns,
    place: u64,
) -> Result<(), AllocError>
    requires left { left < 2 ^ 32 }
    requires place { place < label_count columns }
    ensures { OnOk result (text.new.items ≡ text.old.items ++ grid_line left height columns place) }
{
    let at = left + 10 * columns.label_column(place);
    push_numbered(text, b"<path d=\"M", at)?;
    push_numbered(text, b" 20V", height)?;
    push_numbered(
        text,
        b"\" stroke=\"currentColor\" stroke-opacity=\"0.2\"/><text y=\"14\" x=\"",
        at,
    )?;
    push_numbered(text, b"\">", columns.label(place))?;
    text.extend_from_slice(b"</text>\n")?;
    Ok(())
}

fn push_grid(text: &mut Vec<u8>, left: u64, height: u64, columns: Columns) -> Result<(), AllocError>
    requires { left < 2 ^ 32 }
    ensures { OnOk result (text.new.items ≡ text.old.items ++ grid left height columns) }
{
    for place in 0..columns.label_count() {
        push_grid_line(text, left, height, columns, place)?;
    }
    Ok(())
}

pub(crate) fn push_name(text: &mut Vec<u8>, place: u64, name: &[u8]) -> Result<(), AllocError>
    requires { place < 2 ^ 58 }
    ensures { OnOk result (text.new.items ≡ text.old.items ++ name_row place name.now) }
{
    push_numbered(text, b"<text x=\"8\" y=\"", 30 * place + 44)?;
    text.extend_from_slice(b"\">")?;
    push_escaped(text, name)?;
    text.extend_from_slice(b"</text>")
}

fn push_signal_row(
    text: &mut Vec<u8>,
    left: u64,
    columns: Columns,
    place: u64,
    wave: &Waveform,
) -> Result<(), AllocError>
    requires { place < 2 ^ 32 }
    ensures { OnOk result (text.new.items ≡ text.old.items
        ++ signal_row left columns place (value_at wave.now)) }
{
    push_numbered(text, b"<path transform=\"translate(", left)?;
    push_numbered(text, b" ", 30 * place + 30)?;
    text.extend_from_slice(b")\" d=\"")?;
    push_signal(text, wave, columns)?;
    text.extend_from_slice(b"\" fill=\"none\" stroke=\"currentColor\"/>\n")?;
    Ok(())
}

fn push_rows(
    text: &mut Vec<u8>,
    design: &Design,
    shown: &[u32],
    waves: &[Waveform],
    left: u64,
    columns: Columns,
) -> Result<(), AllocError>
    requires shown_exist { All (λ net. net < length design.now.circuit) shown.now }
    requires one_wave_each { length waves.now ≡ length shown.now }
    requires few { length shown.now < 2 ^ 32 }
    ensures { OnOk result (text.new.items ≡ text.old.items
        ++ flat_map (trace_row left columns) (enumerate_from 0 (traces design.now.circuit shown.now waves.now))) }
{
    for (place, net) in shown.iter().enumerate() {
        push_name(text, place as u64, design.name(*net))?;
        push_signal_row(text, left, columns, place as u64, &waves[place])?;
    }
    Ok(())
}

/// Adds the drawing of some nets and buses as SVG.
pub(crate) fn push_svg(
    text: &mut Vec<u8>,
    design: &Design,
    shown: &[u32],
    waves: &[Waveform],
    buses: &[Bus<'_>],
    columns: Columns,
) -> Result<(), AllocError>
    requires shown_exist { All (λ net. net < length design.now.circuit) shown.now }
    requires one_wave_each { length waves.now ≡ length shown.now }
    requires few { length shown.now < 2 ^ 32 }
    ensures { OnOk result (text.new.items ≡ text.old.items
        ++ svg_text columns (traces design.now.circuit shown.now waves.now) (map seen_bus buses.now)) }
{
    let left = 8 * name_width(design, shown, waves, buses).min(255) as u64 + 16;
    let height = 30 * (shown.len() + buses.len()) as u64 + 40;
    push_heading(text, left, height, columns.count())?;
    push_grid(text, left, height, columns)?;
    push_rows(text, design, shown, waves, left, columns)?;
    push_bus_rows(text, shown.len() as u64, buses, left, columns)?;
    text.extend_from_slice(b"</svg>\n")?;
    Ok(())
}
