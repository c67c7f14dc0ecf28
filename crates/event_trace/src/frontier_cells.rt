//! The rows of a table of frontiers, as text.
ghost use Rattle.std.specs.Prelude.{◌≡◌, ◌<◌, ◌++◌, false, decimal, flat_map, length, replicate, All, OnOk};
ghost use Rattle.vcd_dump.specs.Traces.{name_of};
ghost use Rattle.cmb_kernel.specs.State.{frontier_at};
ghost use Rattle.event_trace.specs.Frontiers.{cell, column_width, frontiers_row, headings, label_cell, net_cell, round_row, row_text};

use crate::events::TracedKernel;
use design::Design;
use itoa::Buffer;
use std::alloc::AllocError;

/// The heading of the labels of rows.
const ROUND: &[u8] = b"round";

fn push_spaces(text: &mut Vec<u8>, count: usize) -> Result<(), AllocError>
    ensures { OnOk result (text.new.items ≡ text.old.items ++ replicate count 32) }
{
    for _space in 0..count {
        text.push(b' ')?;
    }
    Ok(())
}

/// Returns the width of the column with a heading.
fn column_width(end: u64, heading: &[u8]) -> usize
    ensures { result ≡ column_width end heading.now }
{
    let mut digits = Buffer::new();
    heading.len().max(digits.format(end).len())
}

// Adds an entry at the right of its column.
fn push_cell(text: &mut Vec<u8>, width: usize, entry: &[u8]) -> Result<(), AllocError>
    ensures { OnOk result (text.new.items ≡ text.old.items ++ cell width entry.now) }
{
    push_spaces(text, width.saturating_sub(entry.len()))?;
    text.extend_from_slice(entry)
}

fn push_label(text: &mut Vec<u8>, end: u64, label: &[u8]) -> Result<(), AllocError>
    ensures { OnOk result (text.new.items ≡ text.old.items ++ label_cell end label.now) }
{
    push_cell(text, column_width(end, ROUND), label)
}

fn push_names(text: &mut Vec<u8>, design: &Design, end: u64, nets: &[u32]) -> Result<(), AllocError>
    requires nets { All (λ net. net < length design.now.circuit) nets.now }
    ensures { OnOk result (text.new.items ≡
        text.old.items ++ flat_map (net_cell design.now.circuit end (name_of design.now.circuit)) nets.now) }
{
    for net in nets {
        let name = design.name(*net);
        text.extend_from_slice(b"  ")?;
        push_cell(text, column_width(end, name), name)?;
    }
    Ok(())
}

/// Adds the line of the headings of a table over this number of ticks.
pub fn push_headings(
    text: &mut Vec<u8>,
    design: &Design,
    end: u64,
    nets: &[u32],
) -> Result<(), AllocError>
    requires nets { All (λ net. net < length design.now.circuit) nets.now }
    ensures { OnOk result (text.new.items ≡
        text.old.items ++ row_text design.now.circuit end nets.now (headings design.now.circuit)) }
{
    push_label(text, end, ROUND)?;
    push_names(text, design, end, nets)?;
    text.push(b'\n')?;
    Ok(())
}

fn push_number(text: &mut Vec<u8>, width: usize, number: u64) -> Result<(), AllocError>
    ensures { OnOk result (text.new.items ≡ text.old.items ++ cell width (decimal number)) }
{
    let mut digits = Buffer::new();
    push_cell(text, width, digits.format(number).as_bytes())
}

fn push_frontiers(
    text: &mut Vec<u8>,
    kernel: &TracedKernel<'_>,
    nets: &[u32],
) -> Result<(), AllocError>
    requires running { kernel.now.failed ≡ false }
    requires nets { All (λ net. net < length kernel.now.circuit) nets.now }
    ensures { OnOk result (text.new.items ≡ text.old.items
        ++ flat_map (net_cell kernel.now.circuit kernel.now.end (λ net. decimal (frontier_at kernel.now.state net))) nets.now) }
{
    let end = kernel.end();
    let design = kernel.design();
    for net in nets {
        text.extend_from_slice(b"  ")?;
        push_number(
            text,
            column_width(end, design.name(*net)),
            kernel.frontier(*net),
        )?;
    }
    Ok(())
}

/// Adds the line of the frontiers of these nets, with a label.
pub fn push_row(
    text: &mut Vec<u8>,
    kernel: &TracedKernel<'_>,
    nets: &[u32],
    label: &[u8],
) -> Result<(), AllocError>
    requires running { kernel.now.failed ≡ false }
    requires nets { All (λ net. net < length kernel.now.circuit) nets.now }
    ensures { OnOk result (text.new.items ≡ text.old.items
        ++ row_text kernel.now.circuit kernel.now.end nets.now (frontiers_row label.now kernel.now.state)) }
{
    push_label(text, kernel.end(), label)?;
    push_frontiers(text, kernel, nets)?;
    text.push(b'\n')?;
    Ok(())
}

/// Adds the line of the frontiers of these nets after a round, with its number.
pub fn push_round_row(
    text: &mut Vec<u8>,
    kernel: &TracedKernel<'_>,
    nets: &[u32],
) -> Result<(), AllocError>
    requires running { kernel.now.failed ≡ false }
    requires nets { All (λ net. net < length kernel.now.circuit) nets.now }
    ensures { OnOk result (text.new.items ≡ text.old.items
        ++ row_text kernel.now.circuit kernel.now.end nets.now (round_row kernel.now.state)) }
{
    let mut digits = Buffer::new();
    push_row(
        text,
        kernel,
        nets,
        digits.format(kernel.counts().rounds).as_bytes(),
    )
}
