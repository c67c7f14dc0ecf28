//! Lists of numbers without repeats.
ghost use Rattle.std.specs.Prelude.{◌≡◌, ◌<◌, All, IfOk};
ghost use Rattle.netlist.specs.Repeats.{distinct};

use std::alloc::{AllocError, Global};

/// Returns each of these numbers, which are below `bound`, at its first place.
///
/// Takes time and memory in proportion to `bound` and to the number of numbers. Returns `AllocError`
/// if an allocation fails.
pub fn without_repeats(alloc: Global, numbers: &[u32], bound: usize) -> Result<Vec<u32>, AllocError>
    requires { All (λ number. number < bound) numbers.now }
    ensures { IfOk result (λ kept. kept.items ≡ distinct numbers.now) }
{
    let mut is_kept = vec![in alloc; false; bound]?;
    let mut kept = Vec::new(alloc);
    for number in numbers {
        let place = *number as usize;
        if !is_kept[place] {
            is_kept[place] = true;
            kept.push(*number)?;
        }
    }
    Ok(kept)
}
