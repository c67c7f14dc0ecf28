//! The name that no line of a .bench text defines.
ghost use Rattle.std.specs.Prelude.{◌≡◌, filter, map, not, option_map, IfOk};
ghost use Rattle.mistakes.specs.BenchLines.{is_net};
ghost use Rattle.explanations.specs.AtFault.{undefined_in};

use mistakes::{defined_by, used_by};
use std::alloc::{AllocError, Global};
use texts::code_lines;

/// Returns the first name that a line without its comment uses and no line of the text defines. Reads the
/// text once, for any number of names.
pub(crate) fn undefined_in<'a>(
    alloc: Global,
    code: &'a [u8],
    text: &[u8],
) -> Result<Option<&'a [u8]>, AllocError>
    ensures { IfOk result (λ name. option_map (λ name. name.now) name ≡ undefined_in code.now text.now) }
{
    let mut left = used_by(alloc, code)?;
    for (_, code) in code_lines(text) {
        take_out(&mut left, defined_by(code));
    }
    Ok(left.first().copied())
}

/// Removes a name that is defined from those that may be undefined.
fn take_out(left: &mut Vec<&[u8]>, defined: Option<&[u8]>)
    ensures { map (λ name. name.now) left.new.items ≡ filter (λ name. not (is_net (option_map (λ net. net.now) defined.entry) name)) (map (λ name. name.now) left.old.items) }
{
    if let Some(defined) = defined {
        left.retain(|name| *name != defined);
    }
}
