//! Notes as text, a line each.
ghost use Rattle.std.specs.Prelude.{◌≡◌, ◌<◌, ◌++◌, length, All, OnOk};
ghost use Rattle.plain_runs.specs.Text.{first_names, first_numbers, lines_note, nets_note, numbers_behind, outputs_note};

use netlist::{Netlist, push_names};
use std::alloc::AllocError;
use texts::push_numbered;

/// The most names or numbers in a line.
const MOST_NAMES: usize = 12;

/// Adds the line that there are no outputs, if so.
pub(crate) fn push_outputs_note(text: &mut Vec<u8>, netlist: &Netlist) -> Result<(), AllocError>
    ensures { OnOk result (text.new.items ≡ text.old.items ++ outputs_note netlist.now) }
{
    if netlist.outputs().is_empty() {
        text.extend_from_slice(b"note: no net is an output\n")?;
    }
    Ok(())
}

/// Adds the line that says this of these nets, and what follows their names, if there are any nets.
pub(crate) fn push_nets_note(
    text: &mut Vec<u8>,
    netlist: &Netlist,
    words: &str,
    nets: &[u32],
    after: &[u8],
) -> Result<(), AllocError>
    requires { All (λ net. net < length netlist.now.nets) nets.now }
    ensures { OnOk result (text.new.items ≡ text.old.items ++ nets_note netlist.now words.now nets.now after.now) }
{
    if nets.is_empty() {
        return Ok(());
    }
    text.extend_from_slice(b"note: ")?;
    text.extend_from_slice(words.as_bytes())?;
    text.push(b':')?;
    push_first_names(text, netlist, nets)?;
    text.extend_from_slice(after)?;
    text.push(b'\n')?;
    Ok(())
}

/// Adds the names of these nets. Of more than a dozen it adds the first dozen, and the number of the others.
fn push_first_names(text: &mut Vec<u8>, netlist: &Netlist, nets: &[u32]) -> Result<(), AllocError>
    requires { All (λ net. net < length netlist.now.nets) nets.now }
    ensures { OnOk result (text.new.items ≡ text.old.items ++ first_names netlist.now nets.now) }
{
    if nets.len() <= MOST_NAMES {
        return push_names(text, netlist, nets);
    }
    push_names(text, netlist, &nets[..MOST_NAMES])?;
    push_numbered(text, b" and ", (nets.len() - MOST_NAMES) as u64)?;
    text.extend_from_slice(b" more")?;
    Ok(())
}

/// Adds the line that says this of the lines with these numbers, if there are any.
pub(crate) fn push_lines_note(
    text: &mut Vec<u8>,
    words: &str,
    numbers: &[u64],
) -> Result<(), AllocError>
    ensures { OnOk result (text.new.items ≡ text.old.items ++ lines_note words.now numbers.now) }
{
    if numbers.is_empty() {
        return Ok(());
    }
    text.extend_from_slice(b"note: ")?;
    text.extend_from_slice(words.as_bytes())?;
    text.push(b':')?;
    push_first_numbers(text, numbers)?;
    text.push(b'\n')?;
    Ok(())
}

/// Adds these numbers. Of more than a dozen it adds the first dozen, and how many others there are.
pub(crate) fn push_first_numbers(text: &mut Vec<u8>, numbers: &[u64]) -> Result<(), AllocError>
    ensures { OnOk result (text.new.items ≡ text.old.items ++ first_numbers numbers.now) }
{
    if numbers.len() <= MOST_NAMES {
        return push_numbers(text, numbers);
    }
    push_numbers(text, &numbers[..MOST_NAMES])?;
    push_numbered(text, b" and ", (numbers.len() - MOST_NAMES) as u64)?;
    text.extend_from_slice(b" more")?;
    Ok(())
}

/// Adds these numbers, with a space before each.
fn push_numbers(text: &mut Vec<u8>, numbers: &[u64]) -> Result<(), AllocError>
    ensures { OnOk result (text.new.items ≡ text.old.items ++ numbers_behind numbers.now) }
{
    for number in numbers {
        push_numbered(text, b" ", *number)?;
    }
    Ok(())
}
