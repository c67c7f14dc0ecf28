//! Gates that are written as formulas, with a mark such as `&` in place of a gate word.
ghost use Rattle.std.specs.Prelude.{◌≡◌, ◌++◌, ◌≤◌, ◌∷◌, [], codes, flat_map, length, not, IfOk, OnOk};
ghost use Rattle.std.specs.List.{list_all, prefix_len};
ghost use Rattle.mistakes.specs.BenchFormulas.{cut_words, formula_told, gate_before, gate_between, is_mark_or_net, is_operator, marked_parts, part_of, parts_of, statement_of, statement_told};
ghost use Rattle.mistakes.specs.SeenCorrections.{seen_refused, seen_words};

use crate::corrections::accepted::Refused;
use crate::corrections::applying::{from_place, push_said_line, up_to};
use crate::corrections::gates::GATE_FORM;
use crate::places::slot::begins_with_mark;
use std::alloc::{AllocError, Global};

/// Adds the gate for a mark between or before names, if the reader takes it and the names are nets.
pub(crate) fn push_formula_told(
    alloc: Global,
    told: &mut Vec<u8>,
    refused: Refused<'_>,
) -> Result<(), AllocError>
    ensures { OnOk result (told.new.items ≡ told.old.items ++ formula_told (seen_refused refused.entry)) }
{
    let words = cut_words(alloc, refused.words)?;
    let statement = statement_of(alloc, words.as_slice())?;
    push_statement_told(told, refused, statement.as_slice())
}

#[tactic(auto, unfolding(crate::specs::BenchFormulas::statement_told))]
fn push_statement_told(
    told: &mut Vec<u8>,
    refused: Refused<'_>,
    words: &[&[u8]],
) -> Result<(), AllocError>
    ensures { OnOk result (told.new.items ≡ told.old.items ++ statement_told (seen_refused refused.entry) (seen_words words.now)) }
{
    if refused.is_accepted(words) && are_marks_or_nets(refused, from_place(words, 3)) {
        push_said_line(told, GATE_FORM, words)
    } else {
        Ok(())
    }
}

/// Returns whether each of these words is a mark of .bench lines, or a net.
fn are_marks_or_nets(refused: Refused<'_>, words: &[&[u8]]) -> bool
    ensures { result ≡ list_all (is_mark_or_net (seen_refused refused.entry)) (seen_words words.now) }
{
    match words.split_first() {
        Some((word, rest)) => (begins_with_mark(word) || refused.has_net(word))
            && are_marks_or_nets(refused, rest),
        None => true,
    }
}

/// Returns the words of `NAME = ..`, those after the `=` cut at marks.
fn cut_words<'a>(alloc: Global, words: &[&'a [u8]]) -> Result<Vec<&'a [u8]>, AllocError>
    ensures { IfOk result (λ cut. seen_words cut.items ≡ cut_words (seen_words words.now)) }
{
    let mut cut = Vec::from_slice(alloc, up_to(words, 2))?;
    push_cut(&mut cut, from_place(words, 2))?;
    Ok(cut)
}

fn push_cut<'a>(cut: &mut Vec<&'a [u8]>, words: &[&'a [u8]]) -> Result<(), AllocError>
    ensures { OnOk result (seen_words cut.new.items ≡ seen_words cut.old.items ++ flat_map parts_of (seen_words words.now)) }
{
    match words.split_first() {
        Some((word, rest)) => {
            push_parts(cut, word)?;
            push_cut(cut, rest)
        }
        None => Ok(()),
    }
}

/// Adds what is before the first marks of a word, the marks, and what is after them.
fn push_parts<'a>(cut: &mut Vec<&'a [u8]>, word: &'a [u8]) -> Result<(), AllocError>
    ensures { OnOk result (seen_words cut.new.items ≡ seen_words cut.old.items ++ parts_of word.now) }
{
    let (name, rest) = word.split_at(name_len(word));
    push_unless_empty(cut, name)?;
    push_marked(cut, rest)
}

/// Adds the marks with which bytes begin, and what is after them.
fn push_marked<'a>(cut: &mut Vec<&'a [u8]>, bytes: &'a [u8]) -> Result<(), AllocError>
    ensures { OnOk result (seen_words cut.new.items ≡ seen_words cut.old.items ++ marked_parts bytes.now) }
{
    let (marks, after) = bytes.split_at(marks_len(bytes));
    push_unless_empty(cut, marks)?;
    push_unless_empty(cut, after)
}

fn push_unless_empty<'a>(cut: &mut Vec<&'a [u8]>, part: &'a [u8]) -> Result<(), AllocError>
    ensures { OnOk result (seen_words cut.new.items ≡ seen_words cut.old.items ++ part_of part.now) }
{
    if !part.is_empty() {
        cut.push(part)?;
    }
    Ok(())
}

/// Returns the number of bytes before the first mark.
fn name_len(word: &[u8]) -> usize
    ensures value { result ≡ prefix_len (λ byte. not (is_operator byte)) word.now }
    ensures within { result ≤ length word.now }
{
    word.iter().take_while(|byte| !is_operator(**byte)).count()
}

/// Returns the number of marks at the front.
fn marks_len(word: &[u8]) -> usize
    ensures value { result ≡ prefix_len is_operator word.now }
    ensures within { result ≤ length word.now }
{
    word.iter().take_while(|byte| is_operator(**byte)).count()
}

fn is_operator(byte: u8) -> bool
    ensures { result ≡ is_operator byte }
{
    b"&*|+^!~".contains(&byte)
}

/// Returns `NAME = MARK NAME`, or `NAME = NAME MARK NAME`, as a statement, and nothing for other words.
fn statement_of<'a>(alloc: Global, words: &[&'a [u8]]) -> Result<Vec<&'a [u8]>, AllocError>
    ensures { IfOk result (λ line. seen_words line.items ≡ statement_of (seen_words words.now)) }
{
    let mut line = Vec::new(alloc);
    match words {
        [net, equals, mark, pin] => {
            push_gate(&mut line, net, equals, gate_before(mark), pin)?;
            line.push(b")")?;
        }
        [net, equals, pin, mark, other] => {
            push_gate(&mut line, net, equals, gate_between(mark), pin)?;
            line.push(b",")?;
            line.push(*other)?;
            line.push(b")")?;
        }
        _ => (),
    }
    Ok(line)
}

/// Adds a statement up to its first pin.
fn push_gate<'a>(
    line: &mut Vec<&'a [u8]>,
    net: &'a [u8],
    equals: &'a [u8],
    gate: &'a [u8],
    pin: &'a [u8],
) -> Result<(), AllocError>
    ensures { OnOk result (seen_words line.new.items
        ≡ seen_words line.old.items ++ net.now ∷ equals.now ∷ gate.now ∷ codes "(" ∷ pin.now ∷ []) }
{
    line.push(net)?;
    line.push(equals)?;
    line.push(gate)?;
    line.push(b"(")?;
    line.push(pin)?;
    Ok(())
}

/// Returns the gate word for a mark between two names, or nothing.
fn gate_between(mark: &[u8]) -> &'static [u8]
    ensures { result.now ≡ gate_between mark.now }
{
    if mark == b"&".as_slice() || mark == b"&&".as_slice() || mark == b"*".as_slice() {
        b"AND"
    } else if mark == b"|".as_slice() || mark == b"||".as_slice() || mark == b"+".as_slice() {
        b"OR"
    } else if mark == b"^".as_slice() {
        b"XOR"
    } else {
        b""
    }
}

/// Returns the gate word for a mark before a name, or nothing.
fn gate_before(mark: &[u8]) -> &'static [u8]
    ensures { result.now ≡ gate_before mark.now }
{
    if mark == b"!".as_slice() || mark == b"~".as_slice() {
        b"NOT"
    } else {
        b""
    }
}
