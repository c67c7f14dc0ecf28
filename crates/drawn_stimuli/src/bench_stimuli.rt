//! The stimulus text of the inputs of a .bench text.
ghost use Rattle.std.specs.Prelude.{◌≡◌, ◌≢◌, Err, map};
ghost use Rattle.std.specs.Result.{result_map_both};
ghost use Rattle.drawn_stimuli.specs.Given.{seen_drive};
ghost use Rattle.drawn_stimuli.specs.Driven.{stimuli_of_drives};

use crate::drive::{Draws, Driven};
use crate::driven_fault::DrivenFault;
use crate::text::stimuli_text;
use bench_text::read;
use std::alloc::Global;
use timing_text::Horizon;

/// Returns the stimulus text of the inputs of a netlist up to a horizon: some are driven by name, and all
/// others are drawn, as in [`stimuli_text`].
///
/// # Errors
/// [`DrivenFault::Setting`] for the horizon, then [`DrivenFault::Bench`] for the netlist, then
/// [`DrivenFault::Drives`].
pub fn stimuli(
    alloc: Global,
    bench: &[u8],
    drives: &[Driven<'_>],
    draws: Draws,
    horizon: u64,
) -> Result<Vec<u8>, DrivenFault>
    ensures exact { result ≢ Err DrivenFault.Memory →
        result_map_both (λ text. text.items) (λ fault. fault) result
        ≡ stimuli_of_drives bench.now (map seen_drive drives.now) draws horizon }
{
    let horizon = Horizon::new(horizon)?;
    let netlist = read(alloc, bench)?;
    Ok(stimuli_text(alloc, &netlist, drives, draws, horizon)?)
}
