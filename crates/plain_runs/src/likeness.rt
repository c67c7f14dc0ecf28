//! Names of nets that look like something else.
ghost use Rattle.std.specs.Prelude.{◌≡◌, ◌++◌, false, option_map, IfOk, OnOk};
ghost use Rattle.std.specs.Option.{option_map_or};
ghost use Rattle.plain_runs.specs.Likenesses.{ends_with_range, is_closed_number, is_inside_range, is_like, is_range, lines_like, nets_like, number_if_like, said_of};
ghost use Rattle.plain_runs.specs.Text.{in_lines, likeness_note, lines_after, notes_of_names};

use crate::text::{push_first_numbers, push_nets_note};
use mistakes::defined_by;
use netlist::Netlist;
use std::alloc::{AllocError, Global};
use texts::{code_lines, first_place, number};

/// What the name of a net looks like, though it is a name as any other.
#[derive(Clone, Copy)]
pub(crate) enum Likeness {
    /// It begins as a comment of another notation, as in `//y = NOT(a)`.
    Comment,
    /// It ends with a mark of another notation, as in `y:= NOT(a)`.
    Marked,
    /// It ends with a range, as the name of a bus, such as `a[7:0]`.
    Bus,
}

/// Adds the lines of the nets whose names look like something else, given the .bench text.
pub(crate) fn push_name_notes(
    alloc: Global,
    notes: &mut Vec<u8>,
    netlist: &Netlist,
    text: &[u8],
) -> Result<(), AllocError>
    ensures { OnOk result (notes.new.items ≡ notes.old.items ++ notes_of_names netlist.now text.now) }
{
    push_likeness(alloc, notes, netlist, text, Likeness::Comment)?;
    push_likeness(alloc, notes, netlist, text, Likeness::Marked)?;
    push_likeness(alloc, notes, netlist, text, Likeness::Bus)
}

/// Adds the line of the nets whose names look so.
fn push_likeness(
    alloc: Global,
    notes: &mut Vec<u8>,
    netlist: &Netlist,
    text: &[u8],
    likeness: Likeness,
) -> Result<(), AllocError>
    ensures { OnOk result (notes.new.items ≡ notes.old.items ++ likeness_note netlist.now text.now likeness) }
{
    let nets = nets_like(alloc, netlist, likeness)?;
    let lines = lines_after(alloc, text, likeness)?;
    push_nets_note(
        notes,
        netlist,
        likeness.words(),
        nets.as_slice(),
        lines.as_slice(),
    )
}

/// Returns the numbers of the lines of a .bench text that define nets whose names look so, as text.
fn lines_after(alloc: Global, text: &[u8], likeness: Likeness) -> Result<Vec<u8>, AllocError>
    ensures { IfOk result (λ after. after.items ≡ lines_after (lines_like likeness text.now)) }
{
    let numbers = lines_like(alloc, text, likeness)?;
    let mut after = Vec::new(alloc);
    push_lines_after(&mut after, numbers.as_slice())?;
    Ok(after)
}

fn push_lines_after(after: &mut Vec<u8>, numbers: &[u64]) -> Result<(), AllocError>
    ensures { OnOk result (after.new.items ≡ after.old.items ++ lines_after numbers.now) }
{
    after.extend_from_slice(in_lines(numbers))?;
    push_first_numbers(after, numbers)?;
    after.extend_from_slice(b" of the .bench text")
}

fn in_lines(numbers: &[u64]) -> &'static [u8]
    ensures { result.now ≡ in_lines numbers.now }
{
    if numbers.len() == 1 {
        b", in line"
    } else {
        b", in lines"
    }
}

/// Returns the numbers of the lines that define nets whose names look so, from 1, in rising order.
fn lines_like(alloc: Global, text: &[u8], likeness: Likeness) -> Result<Vec<u64>, AllocError>
    ensures { IfOk result (λ numbers. numbers.items ≡ lines_like likeness text.now) }
{
    let mut numbers = Vec::new(alloc);
    for (number, code) in code_lines(text) {
        push_if_like(&mut numbers, likeness, number, code)?;
    }
    Ok(numbers)
}

/// Adds the number of a line, without its comment, that defines such a net.
fn push_if_like(
    numbers: &mut Vec<u64>,
    likeness: Likeness,
    number: u64,
    code: &[u8],
) -> Result<(), AllocError>
    ensures { OnOk result (numbers.new.items ≡ numbers.old.items ++ number_if_like likeness (number, code.now)) }
{
    if likeness.is_of_net(defined_by(code)) {
        numbers.push(number)?;
    }
    Ok(())
}

/// Returns the numbers of the nets whose names look so, in rising order.
fn nets_like(alloc: Global, netlist: &Netlist, likeness: Likeness) -> Result<Vec<u32>, AllocError>
    ensures { IfOk result (λ nets. nets.items ≡ nets_like netlist.now likeness) }
{
    let mut nets = Vec::new(alloc);
    for net in 0..netlist.nets() {
        if likeness.is_of(netlist.name(net)) {
            nets.push(net)?;
        }
    }
    Ok(nets)
}

impl Likeness {
    /// Returns whether there is a net, and its name looks so.
    fn is_of_net(self, net: Option<&[u8]>) -> bool
        ensures { result ≡ option_map_or (is_like self) (option_map (λ net. net.now) net.entry) false }
    {
        match net {
            Some(name) => self.is_of(name),
            None => false,
        }
    }

    /// Returns whether a name looks so.
    fn is_of(self, name: &[u8]) -> bool
        ensures { result ≡ is_like self name.now }
    {
        match self {
            Likeness::Comment => is_like_comment(name),
            Likeness::Marked => is_marked(name),
            Likeness::Bus => ends_with_range(name),
        }
    }

    /// Returns what a line says of the nets that it names.
    fn words(self) -> &'static str
        ensures { result.now ≡ said_of self }
    {
        match self {
            Likeness::Comment => "nets named like comments, which begin with # here",
            Likeness::Marked => "nets whose names end with ';', ':' or '<', as part of the name",
            Likeness::Bus => "nets named like buses, each of one bit",
        }
    }
}

fn is_like_comment(name: &[u8]) -> bool
    ensures { result ≡ is_like Likeness.Comment name.now }
{
    name.starts_with(b"//")
        || name.starts_with(b"/*")
        || name.starts_with(b"--")
        || name.starts_with(b";")
}

fn is_marked(name: &[u8]) -> bool
    ensures { result ≡ is_like Likeness.Marked name.now }
{
    name.ends_with(b";") || name.ends_with(b":") || name.ends_with(b"<")
}

/// Returns whether a name ends with a range such as `[7:0]`.
fn ends_with_range(name: &[u8]) -> bool
    ensures { result ≡ ends_with_range name.now }
{
    let mut rest = name;
    while let Some((_, after)) = rest.split_first() {
        if is_range(rest) {
            return true;
        }
        rest = after;
    }
    false
}

/// Returns whether a text is a range such as `[7:0]`.
fn is_range(text: &[u8]) -> bool
    ensures { result ≡ is_range text.now }
{
    match text.split_first() {
        Some((first, after)) => *first == b'[' && is_inside_range(after),
        None => false,
    }
}

/// Returns whether a text is a range without its first bracket.
fn is_inside_range(text: &[u8]) -> bool
    ensures { result ≡ is_inside_range text.now }
{
    let colon = first_place(text, b':');
    number(&text[..colon]).is_some() && is_closed_number(&text[text.len().min(colon + 1)..])
}

/// Returns whether a text is a number and a bracket after it.
fn is_closed_number(text: &[u8]) -> bool
    ensures { result ≡ is_closed_number text.now }
{
    match text.strip_suffix(b"]") {
        Some(inside) => number(inside).is_some(),
        None => false,
    }
}
