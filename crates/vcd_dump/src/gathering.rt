ghost use Rattle.std.specs.Prelude.{◌≡◌, ◌<◌, ◌≤◌, ◌++◌, length, map, All, IfOk, OnOk};
ghost use Rattle.logic3.specs.declared.change.Change.{Change};
ghost use Rattle.logic3.specs.Wave.{Wave, IsWave};
ghost use Rattle.netlist.specs.Netlist.{most_nets};
ghost use Rattle.timing_text.specs.Ranges.{most_ticks};
ghost use Rattle.vcd_dump.specs.Spans.{is_at_zero, lines_of, span_lines, changes_in};
ghost use Rattle.vcd_dump.specs.Traces.{EndsBy};
ghost use Rattle.vcd_dump.specs.Written.{InOrder};

use crate::line::Line;
use crate::sorting::Sorter;
use logic3::{Change, Value, Waveform};
use std::alloc::{AllocError, Global};

// Returns whether the first of some changes is at tick 0.
fn changes_at_zero(part: &[Change]) -> bool
    ensures { result ≡ is_at_zero part.now }
{
    match part.first() {
        Some(change) => change.tick == 0,
        None => false,
    }
}

/// Adds the lines of the net at a place, given its changes in a span that begins at a tick.
pub fn gather(
    lines: &mut Vec<Line>,
    from: u64,
    place: u32,
    part: &[Change],
) -> Result<(), AllocError>
    requires place { place < most_nets }
    requires ticks { All (λ (change : Change). change.tick ≤ most_ticks) part.now }
    ensures { OnOk result (lines.new.items ≡ lines.old.items ++ lines_of from (place, part.now)) }
{
    if from == 0 && !changes_at_zero(part) {
        lines.push(Line::new(0, place, Value::Unknown))?;
    }
    for change in part {
        lines.push(Line::new(change.tick, place, change.value))?;
    }
    Ok(())
}

/// Adds the lines of each net, given its changes in a span that begins at a tick.
pub fn gather_parts(
    lines: &mut Vec<Line>,
    from: u64,
    parts: &[Vec<Change>],
) -> Result<(), AllocError>
    requires places { length parts.now ≤ most_nets }
    requires ticks { All (All (λ (change : Change). change.tick ≤ most_ticks)) (changes_in parts.now) }
    ensures { OnOk result
        (lines.new.items ≡ lines.old.items ++ span_lines from (changes_in parts.now)) }
{
    for (place, part) in parts.iter().enumerate() {
        gather(lines, from, place as u32, part.as_slice())?;
    }
    Ok(())
}

/// Returns the lines of all ticks up to a horizon, in their order, from waveforms.
pub fn gather_waves(
    alloc: Global,
    waves: &[Waveform],
    horizon: u64,
) -> Result<Vec<Line>, AllocError>
    requires places { length waves.now ≤ most_nets }
    requires horizon { horizon ≤ most_ticks }
    requires ticks { All (EndsBy horizon) waves.now }
    ensures lines { IfOk result (λ lines.
        InOrder (span_lines 0 (map (λ (wave : Wave). wave.changes) waves.now)) lines.items) }
    ensures rises { OnOk result (All IsWave waves.now) }
{
    let mut lines = Vec::new(alloc);
    for (place, wave) in waves.iter().enumerate() {
        gather(&mut lines, 0, place as u32, wave.changes())?;
    }
    Sorter::new(alloc).sort(&mut lines, 0, horizon + 1)?;
    Ok(lines)
}
