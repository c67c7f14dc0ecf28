//! Diagrams as text, folded: their columns in parts, one below another.
ghost use Rattle.std.specs.Prelude.{◌≡◌, ◌+◌, ◌*◌, ◌-◌, ◌<◌, ◌≤◌, ◌++◌, length, map, flat_map, All, OnOk};
ghost use Rattle.std.specs.List.{range_with_len};
ghost use Rattle.vcd_dump.specs.Traces.{traces};
ghost use Rattle.timing_diagram.specs.Bus.{seen_bus};
ghost use Rattle.timing_diagram.specs.Columns.{column_count};
ghost use Rattle.timing_diagram.specs.Drawing.{columns_a_part, folded_text, part_below, parts_below};

use crate::bus::Bus;
use crate::columns::Columns;
use crate::text::{name_width, push_text};
use design::Design;
use logic3::Waveform;
use std::alloc::AllocError;

/// The characters of a line beside its name and its columns: two spaces, and nine by which a tick above the columns
/// goes on after its column.
const BESIDE_COLUMNS: u64 = 11;

/// Returns the number of columns in a part, given the characters of a line and those of the longest name: what fits, in
/// tens, and at least ten.
fn columns_a_part(line: u64, names: usize) -> u64
    ensures value { result ≡ columns_a_part line names }
    ensures some { 10 ≤ result }
{
    let fits = line
        .saturating_sub(names as u64)
        .saturating_sub(BESIDE_COLUMNS);
    (fits / 10 * 10).max(10)
}

/// Adds the drawing of some nets and buses as text, on lines of this number of characters. With a long name a line
/// is longer.
pub(crate) fn push_folded(
    text: &mut Vec<u8>,
    design: &Design,
    shown: &[u32],
    waves: &[Waveform],
    buses: &[Bus<'_>],
    columns: Columns,
    line: u64,
) -> Result<(), AllocError>
    requires shown_exist { All (λ net. net < length design.now.circuit) shown.now }
    requires one_wave_each { length waves.now ≡ length shown.now }
    ensures { OnOk result (text.new.items ≡ text.old.items
        ++ folded_text line columns (traces design.now.circuit shown.now waves.now) (map seen_bus buses.now)) }
{
    let count = columns_a_part(line, name_width(design, shown, waves, buses));
    push_text(text, design, shown, waves, buses, columns.part(0, count))?;
    push_parts_below(text, design, shown, waves, buses, columns, count)
}

/// Adds each part after the first one, below an empty line.
fn push_parts_below(
    text: &mut Vec<u8>,
    design: &Design,
    shown: &[u32],
    waves: &[Waveform],
    buses: &[Bus<'_>],
    columns: Columns,
    count: u64,
) -> Result<(), AllocError>
    requires shown_exist { All (λ net. net < length design.now.circuit) shown.now }
    requires one_wave_each { length waves.now ≡ length shown.now }
    requires some { 1 ≤ count }
    ensures { OnOk result (text.new.items ≡ text.old.items
        ++ flat_map (part_below columns count (traces design.now.circuit shown.now waves.now) (map seen_bus buses.now))
        (range_with_len 0 (parts_below columns count))) }
{
    for part in 0..columns.parts_below(count) {
        push_part_below(text, design, shown, waves, buses, columns, count, part)?;
    }
    Ok(())
}

/// Adds the part after one, below an empty line.
fn push_part_below(
    text: &mut Vec<u8>,
    design: &Design,
    shown: &[u32],
    waves: &[Waveform],
    buses: &[Bus<'_>],
    columns: Columns,
    count: u64,
    part: u64,
) -> Result<(), AllocError>
    requires shown_exist { All (λ net. net < length design.now.circuit) shown.now }
    requires one_wave_each { length waves.now ≡ length shown.now }
    requires some { 1 ≤ count }
    requires within { (part + 1) * count < column_count columns }
    ensures { OnOk result (text.new.items ≡ text.old.items
        ++ part_below columns count (traces design.now.circuit shown.now waves.now) (map seen_bus buses.now) part) }
{
    text.push(b'\n')?;
    let ticks = columns.part((part + 1) * count, count);
    push_text(text, design, shown, waves, buses, ticks)
}
