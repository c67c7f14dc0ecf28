//! What a name that no line of a .bench text defines may mean.
ghost use Rattle.std.specs.Prelude.{◌≡◌, ◌++◌, ◌∷◌, [], codes, filter, map, option_map, IfOk, OnOk};
ghost use Rattle.std.specs.List.{list_any};
ghost use Rattle.std.specs.Option.{option_map_or};
ghost use Rattle.mistakes.specs.BenchLines.{is_among};
ghost use Rattle.explanations.specs.Missing.{alike_hint, alike_told, bracketed, constant_value, cut_at, for_inverse, has_kin, inside_of, inverse_told, its_input, its_stimulus, is_alike, is_between, is_bit_of, is_followed, is_in_range, is_inverse_of, is_number, is_preceded, marks_after, missing_constant, missing_told, no_constant_told, no_constants, not_text, only_alike};

use crate::at_fault::push_quoted;
use crate::excerpt::push_shown;
use crate::nets::{nets_in, push_defined};
use crate::other_parts::{OtherPart, constant_or_digit, push_net, push_value};
use crate::words::is;
use mistakes::{has_by_case, only_one};
use std::alloc::{AllocError, Global};
use texts::{first_place, number};

/// Returns what is suggested for a name that no line of a text defines, by what it may mean: a constant, or the
/// only net to which it is alike. Otherwise the message is empty.
pub(crate) fn missing_text(alloc: Global, text: &[u8], name: &[u8]) -> Result<Vec<u8>, AllocError>
    ensures { IfOk result (λ told. told.items ≡ missing_told text.now name.now) }
{
    let mut told = Vec::new(alloc);
    push_missing(alloc, &mut told, text, name)?;
    Ok(told)
}

/// Adds what is suggested for a name that no line of a text defines.
#[tactic(auto, unfolding(crate::specs::Missing::missing_told))]
fn push_missing(
    alloc: Global,
    told: &mut Vec<u8>,
    text: &[u8],
    name: &[u8],
) -> Result<(), AllocError>
    ensures { OnOk result (told.new.items ≡ told.old.items ++ missing_told text.now name.now) }
{
    let nets = nets_in(alloc, text)?;
    match missing_constant(name, nets.as_slice()) {
        Some(constant) => push_no_constant(told, name, constant_value(constant)),
        None => push_alike(alloc, told, text, name, only_alike(name, nets)),
    }
}

/// Returns the constant that a name may mean among the names of nets.
#[tactic(auto, unfolding(crate::specs::Missing::missing_constant))]
fn missing_constant(name: &[u8], nets: &[&[u8]]) -> Option<OtherPart>
    ensures { result ≡ missing_constant name.now (map (λ net. net.now) nets.now) }
{
    if has_kin(name, nets) {
        None
    } else {
        constant_or_digit(name)
    }
}

/// Returns whether some net has a name of the same kind, so that the name is rather that of a net: digits alone,
/// or one that differs from it by case alone.
fn has_kin(name: &[u8], nets: &[&[u8]]) -> bool
    ensures { result ≡ has_kin name.now (map (λ net. net.now) nets.now) }
{
    if is_number(name) {
        has_number(nets)
    } else {
        has_by_case(nets, name)
    }
}

fn has_number(nets: &[&[u8]]) -> bool
    ensures { result ≡ list_any is_number (map (λ net. net.now) nets.now) }
{
    nets.iter().any(|net| is_number(net))
}

fn is_number(name: &[u8]) -> bool
    ensures { result ≡ is_number name.now }
{
    number(name).is_some()
}

fn constant_value(constant: OtherPart) -> &'static str
    ensures { result.now ≡ constant_value constant }
{
    match constant {
        OtherPart::Zero => "0",
        _ => "1",
    }
}

/// Adds the input and the stimulus for a constant.
#[tactic(auto, unfolding(crate::specs::Missing::no_constant_told))]
fn push_no_constant(told: &mut Vec<u8>, name: &[u8], value: &str) -> Result<(), AllocError>
    ensures { OnOk result (told.new.items ≡ told.old.items ++ no_constant_told name.now value.now) }
{
    push_no_constants(told)?;
    push_its_input(told, name)?;
    push_its_stimulus(told, name, value)
}

#[tactic(auto, unfolding(crate::specs::Missing::no_constants))]
fn push_no_constants(told: &mut Vec<u8>) -> Result<(), AllocError>
    ensures { OnOk result (told.new.items ≡ told.old.items ++ no_constants) }
{
    told.extend_from_slice(b"there are no constants: ")
}

#[tactic(auto, unfolding(crate::specs::Missing::its_input))]
fn push_its_input(told: &mut Vec<u8>, name: &[u8]) -> Result<(), AllocError>
    ensures { OnOk result (told.new.items ≡ told.old.items ++ its_input name.now) }
{
    push_net(told, "add the line INPUT(", name)
}

#[tactic(auto, unfolding(crate::specs::Missing::its_stimulus))]
fn push_its_stimulus(told: &mut Vec<u8>, name: &[u8], value: &str) -> Result<(), AllocError>
    ensures { OnOk result (told.new.items ≡ told.old.items ++ its_stimulus name.now value.now) }
{
    push_net(told, "), and the stimulus 0 ", name)?;
    push_value(told, value)
}

/// Returns the only net to which a name is alike.
#[tactic(auto, unfolding(crate::specs::Missing::only_alike))]
fn only_alike<'a>(name: &[u8], nets: Vec<&'a [u8]>) -> Option<&'a [u8]>
    ensures { option_map (λ net. net.now) result ≡ only_alike name.now (map (λ net. net.now) nets.entry.items) }
{
    let mut alike = nets;
    keep_alike(&mut alike, name);
    only_one(alike.as_slice())
}

/// Removes the nets to which a name isn't alike.
fn keep_alike(nets: &mut Vec<&[u8]>, name: &[u8])
    ensures { map (λ net. net.now) nets.new.items ≡ filter (is_alike name.now) (map (λ net. net.now) nets.old.items) }
{
    nets.retain(|net| is_alike(name, net));
}

/// Returns whether a name may mean a net that is defined: for a bit of it, for its name with a mark after
/// it, or for its inverse.
fn is_alike(name: &[u8], net: &[u8]) -> bool
    ensures { result ≡ is_alike name.now net.now }
{
    is_bit_of(name, net) || is_marked(name, net) || is_inverse_of(name, net)
}

/// Returns whether a name is that of a bit, and the net's name is a range with this bit.
#[tactic(auto, unfolding(crate::specs::Missing::is_bit_of))]
fn is_bit_of(name: &[u8], net: &[u8]) -> bool
    ensures { result ≡ is_bit_of name.now net.now }
{
    match (bracketed(name), bracketed(net)) {
        (Some((base, bit)), Some((other, range))) => base == other && is_in_range(bit, range),
        _ => false,
    }
}

/// Returns what is before brackets at the end of a name, and what is in them.
fn bracketed(name: &[u8]) -> Option<(&[u8], &[u8])>
    ensures { option_map (λ parts. (parts.0.now, parts.1.now)) result ≡ bracketed name.now }
{
    let (base, opened) = cut_at(b'[', name)?;
    let inside = inside_of(opened)?;
    Some((base, inside))
}

/// Returns what is before the bracket that ends a text.
fn inside_of(opened: &[u8]) -> Option<&[u8]>
    ensures { option_map (λ inside. inside.now) result ≡ inside_of opened.now }
{
    let (inside, rest) = cut_at(b']', opened)?;
    if rest.is_empty() { Some(inside) } else { None }
}

/// Returns what is before the first such byte of a text and what is after it, if there is one.
fn cut_at(byte: u8, text: &[u8]) -> Option<(&[u8], &[u8])>
    ensures { option_map (λ parts. (parts.0.now, parts.1.now)) result ≡ cut_at byte text.now }
{
    let place = first_place(text, byte);
    if place < text.len() {
        Some((&text[..place], &text[place + 1..]))
    } else {
        None
    }
}

/// Returns whether a bit is in a range `HIGH:LOW`.
fn is_in_range(bit: &[u8], range: &[u8]) -> bool
    ensures { result ≡ is_in_range bit.now (cut_at 58 range.now) }
{
    match cut_at(b':', range) {
        Some((high, low)) => is_between(number(bit), number(high), number(low)),
        None => false,
    }
}

/// Returns whether a number is from one to another one, in either order.
fn is_between(bit: Option<u64>, high: Option<u64>, low: Option<u64>) -> bool
    ensures { result ≡ is_between bit high low }
{
    match (bit, high, low) {
        (Some(bit), Some(high), Some(low)) => (low <= bit && bit <= high)
            || (high <= bit && bit <= low),
        _ => false,
    }
}

/// Returns whether the net's name is a name with a mark after it with which other languages go on there.
fn is_marked(name: &[u8], net: &[u8]) -> bool
    ensures { result ≡ is_followed marks_after name.now net.now }
{
    match net.split_at_checked(name.len()) {
        Some((first, mark)) => first == name && is_mark_after(mark),
        None => false,
    }
}

fn is_mark_after(mark: &[u8]) -> bool
    ensures { result ≡ is_among marks_after mark.now }
{
    is(mark, ":") || is(mark, ";") || is(mark, "<")
}

/// Returns whether a name is that of a net with a mark for its inverse.
fn is_inverse_of(name: &[u8], net: &[u8]) -> bool
    ensures { result ≡ is_inverse_of name.now net.now }
{
    is_negated(name, net) || is_primed(name, net)
}

/// Returns whether a name is that of a net after `~` or `!`.
fn is_negated(name: &[u8], net: &[u8]) -> bool
    ensures { result ≡ is_preceded (codes "~" ∷ codes "!" ∷ []) net.now name.now }
{
    match name.split_at_checked(1) {
        Some((mark, rest)) => (is(mark, "~") || is(mark, "!")) && rest == net,
        None => false,
    }
}

/// Returns whether a name is that of a net before `'`.
fn is_primed(name: &[u8], net: &[u8]) -> bool
    ensures { result ≡ is_followed (codes "'" ∷ []) net.now name.now }
{
    match name.split_at_checked(net.len()) {
        Some((first, mark)) => first == net && is(mark, "'"),
        None => false,
    }
}

/// Adds where the net is defined to which a name is alike, and what is suggested, if there is such a net.
#[tactic(auto, unfolding(crate::specs::Missing::alike_told))]
fn push_alike(
    alloc: Global,
    told: &mut Vec<u8>,
    text: &[u8],
    name: &[u8],
    net: Option<&[u8]>,
) -> Result<(), AllocError>
    ensures { OnOk result (told.new.items ≡ told.old.items
        ++ option_map_or (alike_told text.now name.now) (option_map (λ net. net.now) net.entry) []) }
{
    let Some(net) = net else {
        return Ok(());
    };
    push_defined(alloc, told, "", text, net)?;
    push_alike_hint(told, name, net)
}

/// Adds what is suggested for a name that is alike to a net.
#[tactic(auto, unfolding(crate::specs::Missing::alike_hint))]
fn push_alike_hint(told: &mut Vec<u8>, name: &[u8], net: &[u8]) -> Result<(), AllocError>
    ensures { OnOk result (told.new.items ≡ told.old.items ++ alike_hint name.now net.now) }
{
    if is_bit_of(name, net) {
        push_quoted(
            told,
            b"a name with a range is one net; write a line for each bit, such as one for ",
            name,
        )
    } else if is_marked(name, net) {
        told.extend_from_slice(b"a ':', ';' or '<' after a name is part of it\n")
    } else {
        push_inverse(told, name, net)
    }
}

/// Adds the gate whose output has the missing name.
#[tactic(auto, unfolding(crate::specs::Missing::inverse_told))]
fn push_inverse(told: &mut Vec<u8>, name: &[u8], net: &[u8]) -> Result<(), AllocError>
    ensures { OnOk result (told.new.items ≡ told.old.items ++ inverse_told name.now net.now) }
{
    push_for_inverse(told)?;
    push_shown(told, name)?;
    push_not(told, net)
}

#[tactic(auto, unfolding(crate::specs::Missing::for_inverse))]
fn push_for_inverse(told: &mut Vec<u8>) -> Result<(), AllocError>
    ensures { OnOk result (told.new.items ≡ told.old.items ++ for_inverse) }
{
    told.extend_from_slice(b"for its inverse add the line ")
}

#[tactic(auto, unfolding(crate::specs::Missing::not_text))]
fn push_not(told: &mut Vec<u8>, net: &[u8]) -> Result<(), AllocError>
    ensures { OnOk result (told.new.items ≡ told.old.items ++ not_text net.now) }
{
    push_net(told, " = NOT(", net)?;
    told.extend_from_slice(b")\n")
}
