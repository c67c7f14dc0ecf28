//! The parts of empty logs.
ghost use Rattle.std.specs.Prelude.{◌≡◌, ◌<◌, All, length, replicate, IfOk};
ghost use Rattle.design.specs.Pins.{sources_of};
ghost use Rattle.cmb_channels.specs.Logs.{logs_read_by};

use crate::logs::log::Log;
use design::Design;
use std::alloc::{AllocError, Global};

/// Returns the net that feeds each pin.
pub(super) fn pin_sources(alloc: Global, design: &Design) -> Result<Vec<u32>, AllocError>
    ensures sources { IfOk result (λ sources. sources.items ≡ sources_of design.now.circuit) }
    ensures within { IfOk result (λ sources. All (λ source. source < length design.now.circuit) sources.items) }
{
    let pins = design.pins();
    let mut sources = Vec::with_capacity(alloc, pins as usize)?;
    for pin in 0..pins {
        sources.push(design.pin_source(pin))?;
    }
    Ok(sources)
}

/// Returns the count 0 for each of `pins` pins.
pub(super) fn no_counts(alloc: Global, pins: u32) -> Result<Vec<u64>, AllocError>
    ensures { IfOk result (λ counts. counts.items ≡ replicate pins 0) }
{
    let mut counts = Vec::with_capacity(alloc, pins as usize)?;
    for _pin in 0..pins {
        counts.push(0)?;
    }
    Ok(counts)
}

/// Returns an empty log for each net, read by the pins that the net feeds.
pub(super) fn read_logs(alloc: Global, design: &Design) -> Result<Vec<Log>, AllocError>
    ensures { IfOk result (λ logs. logs.items ≡ logs_read_by (length design.now.circuit) (sources_of design.now.circuit)) }
{
    let nets = design.nets();
    let mut logs = Vec::with_capacity(alloc, nets as usize)?;
    for net in 0..nets {
        logs.push(Log::new(alloc, design.pins_fed(net).len() as u32))?;
    }
    Ok(logs)
}
