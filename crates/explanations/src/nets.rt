//! The nets that the lines of a .bench text define.
ghost use Rattle.std.specs.Prelude.{◌≡◌, ◌++◌, map, option_map, IfOk, OnOk};
ghost use Rattle.std.specs.Option.{option_to_list};
ghost use Rattle.mistakes.specs.BenchLines.{defined_by, is_net};
ghost use Rattle.explanations.specs.Nets.{defined_told, input_by, inputs_in, line_of_net, nets_in};

use crate::above::number_or_none;
use crate::at_fault::push_quoted;
use mistakes::{defined_by, is_assignment};
use std::alloc::{AllocError, Global};
use texts::code_lines;

/// Returns the nets that the lines of a text define, in their order.
pub(crate) fn nets_in(alloc: Global, text: &[u8]) -> Result<Vec<&[u8]>, AllocError>
    ensures { IfOk result (λ nets. map (λ net. net.now) nets.items ≡ nets_in text.now) }
{
    let mut nets = Vec::new(alloc);
    for (_, code) in code_lines(text) {
        push_net(&mut nets, defined_by(code))?;
    }
    Ok(nets)
}

/// Returns the inputs that the lines of a text define, in their order.
pub(crate) fn inputs_in(alloc: Global, text: &[u8]) -> Result<Vec<&[u8]>, AllocError>
    ensures { IfOk result (λ inputs. map (λ input. input.now) inputs.items ≡ inputs_in text.now) }
{
    let mut inputs = Vec::new(alloc);
    for (_, code) in code_lines(text) {
        push_net(&mut inputs, input_by(code))?;
    }
    Ok(inputs)
}

/// Returns the input that a line without its comment defines.
fn input_by(code: &[u8]) -> Option<&[u8]>
    ensures { option_map (λ input. input.now) result ≡ input_by code.now }
{
    if is_assignment(code) {
        None
    } else {
        defined_by(code)
    }
}

/// Adds a net, if there is one.
fn push_net<'a>(nets: &mut Vec<&'a [u8]>, net: Option<&'a [u8]>) -> Result<(), AllocError>
    ensures { OnOk result (map (λ net. net.now) nets.new.items
        ≡ map (λ net. net.now) nets.old.items ++ option_to_list (option_map (λ net. net.now) net.entry)) }
{
    if let Some(net) = net {
        nets.push(net)?;
    }
    Ok(())
}

/// Adds where a net is defined; `place` says in which text.
pub(crate) fn push_defined(
    alloc: Global,
    told: &mut Vec<u8>,
    place: &str,
    text: &[u8],
    net: &[u8],
) -> Result<(), AllocError>
    ensures { OnOk result (told.new.items ≡ told.old.items ++ defined_told place.now text.now net.now) }
{
    let number = line_of_net(net, text);
    let head = format!(in alloc; "line {number}{place} defines ")?;
    push_quoted(told, head.as_str().as_bytes(), net)
}

/// Returns the number of the first line that defines a net, or 0 if none does.
fn line_of_net(net: &[u8], text: &[u8]) -> u64
    ensures { result ≡ line_of_net net.now text.now }
{
    number_or_none(code_lines(text).find(|line| defines(net, line.1)))
}

/// Returns whether a line without its comment defines a net.
fn defines(net: &[u8], code: &[u8]) -> bool
    ensures { result ≡ is_net (defined_by code.now) net.now }
{
    match defined_by(code) {
        Some(defined) => net == defined,
        None => false,
    }
}
