//! The table of frontiers by rounds.
ghost use Rattle.std.specs.Prelude.{◌≡◌, ◌≢◌, ◌<◌, ◌+◌, ◌∷◌, ◌++◌, false, [], length, All, IfErr, OnOk, OnErr};
ghost use Rattle.std.specs.Io.KnownBytes.{Appends};
ghost use Rattle.cmb_events.specs.Schedule.{Exists};
ghost use Rattle.cmb_kernel.specs.State.{most_rounds};
ghost use Rattle.cmb_kernel.specs.Step.{round_of, steps};
ghost use Rattle.texts.specs.Written.{AppendsPrefix, GoesOut};
ghost use Rattle.event_trace.specs.Frontiers.{frontier_table, round_row, row_text, rows_of_kernel, rows_within, table_text};

use crate::events::{TracedKernel, apply, fresh_kernel};
use crate::frontier_cells::{push_headings, push_round_row, push_row};
use cmb_events::Event;
use cmb_kernel::laws::no_deadlock;
use design::Design;
use std::alloc::Global;
use std::io::Write;
use texts::{send_long, write_all_bytes};
use timing_text::Horizon;
use vcd_dump::DumpFault;

/// Runs a design up to a horizon, and writes a table of the frontiers of some nets, each of the design: a row
/// after the given events, each of a pin or a net of the design, and a row after each of the rounds that complete
/// the run.
///
/// - The first line has the headings: `round`, and the names of the nets in their order.
/// - The next one begins by `start` and has the frontiers before the first round: all are 0 if no events are given.
/// - Each other line begins by the number of a round, counted from 1, and has the frontiers after it.
///
/// All entries are at the right of their columns, which are two spaces apart.
///
/// It is written in pieces of about 64 KiB. Nothing is written after a fault, and `out` isn't flushed.
///
/// # Errors
/// As for [`trace_events`](crate::trace_events). A prefix of the table has been written then.
pub fn frontier_table<W: Write>(
    alloc: Global,
    out: &mut W,
    design: &Design,
    horizon: Horizon,
    events: &[Event],
    nets: &[u32],
) -> Result<(), DumpFault>
    requires exist { All (Exists design.now.circuit) events.now }
    requires nets { All (λ net. net < length design.now.circuit) nets.now }
    ensures ok { OnOk result (Appends (W.contents out.old) (W.contents out.new)
        (frontier_table design.now.circuit (horizon + 1) events.now nets.now)) }
    ensures err { OnErr result (AppendsPrefix (W.contents out.old) (W.contents out.new)
        (frontier_table design.now.circuit (horizon + 1) events.now nets.now)) }
    ensures fault { IfErr result (λ fault. fault ≢ DumpFault.Failed) }
{
    let mut kernel = fresh_kernel(alloc, design, horizon)?;
    apply_each(&mut kernel, events)?;
    write_table(alloc, &mut kernel, nets, out)
}

/// Applies some events in order. The fault is `Memory`.
fn apply_each(kernel: &mut TracedKernel<'_>, events: &[Event]) -> Result<(), DumpFault>
    requires running { kernel.old.failed ≡ false }
    requires exist { All (Exists kernel.old.circuit) events.now }
    ensures ok { OnOk result (kernel.new ≡ record kernel.old { state = steps kernel.old.state events.now }) }
    ensures err { IfErr result (λ fault. fault ≡ DumpFault.Memory) }
{
    for event in events {
        apply(kernel, *event)?;
    }
    Ok(())
}

/// Writes the table of a kernel: the headings, the row of its state, and that after each round until it is
/// complete.
fn write_table<W: Write>(
    alloc: Global,
    kernel: &mut TracedKernel<'_>,
    nets: &[u32],
    out: &mut W,
) -> Result<(), DumpFault>
    requires running { kernel.old.failed ≡ false }
    requires nets { All (λ net. net < length kernel.old.circuit) nets.now }
    ensures ok { OnOk result (Appends (W.contents out.old) (W.contents out.new)
        (table_text kernel.old.circuit kernel.old.end nets.now (rows_of_kernel kernel.old))) }
    ensures err { OnErr result (AppendsPrefix (W.contents out.old) (W.contents out.new)
        (table_text kernel.old.circuit kernel.old.end nets.now (rows_of_kernel kernel.old))) }
    ensures fault { IfErr result (λ fault. fault ≢ DumpFault.Failed) }
{
    let mut text = Vec::new(alloc);
    push_headings(&mut text, kernel.design(), kernel.end(), nets)?;
    push_row(&mut text, kernel, nets, b"start")?;
    write_rounds(kernel, nets, out, &mut text)?;
    write_all_bytes(out, text.as_slice())?;
    Ok(())
}

/// Writes the row after each round, until the kernel is complete, after the waiting text.
fn write_rounds<W: Write>(
    kernel: &mut TracedKernel<'_>,
    nets: &[u32],
    out: &mut W,
    text: &mut Vec<u8>,
) -> Result<(), DumpFault>
    requires running { kernel.old.failed ≡ false }
    requires nets { All (λ net. net < length kernel.old.circuit) nets.now }
    ensures ok { OnOk result (GoesOut (W.contents out.old) (W.contents out.new)
        (text.old.items ++ table_text kernel.old.circuit kernel.old.end nets.now
        (rows_within (most_rounds kernel.old.end kernel.old.circuit) kernel.old.state)) text.new.items) }
    ensures err { OnErr result (AppendsPrefix (W.contents out.old) (W.contents out.new)
        (text.old.items ++ table_text kernel.old.circuit kernel.old.end nets.now
        (rows_within (most_rounds kernel.old.end kernel.old.circuit) kernel.old.state))) }
    ensures fault { IfErr result (λ fault. fault ≢ DumpFault.Failed) }
{
    // Each round makes progress.
    no_deadlock();
    prove!(!kernel.is_failed());
    while !kernel.is_complete() {
        prove!(!kernel.is_failed());
        write_round(kernel, nets, out, text)?;
    }
    Ok(())
}

/// Applies a round, and writes its row after the waiting text.
fn write_round<W: Write>(
    kernel: &mut TracedKernel<'_>,
    nets: &[u32],
    out: &mut W,
    text: &mut Vec<u8>,
) -> Result<(), DumpFault>
    requires running { kernel.old.failed ≡ false }
    requires nets { All (λ net. net < length kernel.old.circuit) nets.now }
    ensures state { OnOk result (kernel.new ≡ record kernel.old { state = round_of kernel.old.state }) }
    ensures ok { OnOk result (GoesOut (W.contents out.old) (W.contents out.new)
        (text.old.items ++ row_text kernel.old.circuit kernel.old.end nets.now (round_row (round_of kernel.old.state)))
        text.new.items) }
    ensures err { OnErr result (AppendsPrefix (W.contents out.old) (W.contents out.new)
        (text.old.items ++ row_text kernel.old.circuit kernel.old.end nets.now (round_row (round_of kernel.old.state)))) }
    ensures fault { IfErr result (λ fault. fault ≢ DumpFault.Failed) }
{
    apply_round(kernel)?;
    push_round_row(text, kernel, nets)?;
    send_long(out, text)?;
    Ok(())
}

/// Applies a round. The fault is `Memory`.
fn apply_round(kernel: &mut TracedKernel<'_>) -> Result<(), DumpFault>
    requires running { kernel.old.failed ≡ false }
    ensures ok { OnOk result (kernel.new ≡ record kernel.old { state = round_of kernel.old.state }) }
    ensures err { IfErr result (λ fault. fault ≡ DumpFault.Memory) }
{
    match kernel.round() {
        Ok(()) => Ok(()),
        Err(_) => Err(DumpFault::Memory),
    }
}
