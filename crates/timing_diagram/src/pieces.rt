ghost use Rattle.std.specs.Prelude.{◌≡◌, ◌++◌, replicate, OnOk};

use std::alloc::AllocError;

/// Adds a byte `times` times.
pub fn push_times(text: &mut Vec<u8>, byte: u8, times: usize) -> Result<(), AllocError>
    ensures { OnOk result (text.new.items ≡ text.old.items ++ replicate times byte) }
{
    for _time in 0..times {
        text.push(byte)?;
    }
    Ok(())
}
