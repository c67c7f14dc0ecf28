//! Ways in which .bench lines are wrong, and what they may be written as.
ghost use Rattle.std.specs.Prelude.{◌≡◌, IfOk};
ghost use Rattle.mistakes.specs.BenchCorrections.{bench_corrections};
ghost use Rattle.mistakes.specs.SeenCorrections.{seen_table};

use crate::corrections::correction::Correction;
use crate::corrections::gates::gate_corrections;
use crate::corrections::nested::nested_corrections;
use crate::corrections::ports::port_corrections;
use crate::corrections::tables::table_corrections;
use std::alloc::{AllocError, Global};

/// Returns the ways in which a .bench line may be wrong, by its words and marks.
#[tactic(auto, unfolding(crate::specs::BenchCorrections::bench_corrections))]
pub(crate) fn bench_corrections(alloc: Global) -> Result<Vec<Correction>, AllocError>
    ensures { IfOk result (λ table. seen_table table.items ≡ bench_corrections) }
{
    let mut table = Vec::from_slice(alloc, port_corrections())?;
    table.extend_from_slice(gate_corrections())?;
    table.extend_from_slice(nested_corrections())?;
    table.extend_from_slice(table_corrections())?;
    Ok(table)
}
