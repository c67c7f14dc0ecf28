//! The text of a comparison, a line for each name.
ghost use Rattle.std.specs.Prelude.{◌≡◌, ◌++◌, OnOk};
ghost use Rattle.wave_diff.specs.Text.{comparison_line, comparison_text, difference_text};

use crate::comparison::{Comparison, Side};
use crate::difference::Difference;
use std::alloc::AllocError;
use texts::push_numbered;

/// Adds the line about a name: `y same`; `y same, cones differ`; `y differs 7 0 x`, with the
/// tick and what the first and the second run show there; `y only in first` or `y only in second`.
///
/// After an `AllocError` a prefix of the line may have been added.
pub fn push_line(text: &mut Vec<u8>, name: &[u8], comparison: Comparison) -> Result<(), AllocError>
    ensures { OnOk result (text.new.items ≡ text.old.items ++ comparison_line name.now comparison) }
{
    text.extend_from_slice(name)?;
    push_comparison(text, comparison)?;
    text.push(b'\n')?;
    Ok(())
}

fn push_comparison(text: &mut Vec<u8>, comparison: Comparison) -> Result<(), AllocError>
    ensures { OnOk result (text.new.items ≡ text.old.items ++ comparison_text comparison) }
{
    match comparison {
        Comparison::Same { agree: true } => text.extend_from_slice(b" same")?,
        Comparison::Same { agree: false } => text.extend_from_slice(b" same, cones differ")?,
        Comparison::Differs(found) => push_difference(text, found)?,
        Comparison::OnlyIn(Side::First) => text.extend_from_slice(b" only in first")?,
        Comparison::OnlyIn(Side::Second) => text.extend_from_slice(b" only in second")?,
    }
    Ok(())
}

fn push_difference(text: &mut Vec<u8>, found: Difference) -> Result<(), AllocError>
    ensures { OnOk result (text.new.items ≡ text.old.items ++ difference_text found) }
{
    push_numbered(text, b" differs ", found.tick)?;
    text.push(b' ')?;
    text.extend_from_slice(found.first.text().as_bytes())?;
    text.push(b' ')?;
    text.extend_from_slice(found.second.text().as_bytes())?;
    Ok(())
}
