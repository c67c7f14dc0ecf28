//! Texts of other kinds, given in place of one that nullsim reads.
ghost use Rattle.std.specs.Prelude.{◌≡◌, ◌≤◌, ◌++◌, false, length, bytes_eq, codes, option_map, IfOk, OnOk};
ghost use Rattle.std.specs.List.{prefix_len};
ghost use Rattle.std.specs.Option.{option_map_or};
ghost use Rattle.texts.specs.Text.{is_white};
ghost use Rattle.mistakes.specs.BenchLines.{is_among};
ghost use Rattle.explanations.specs.AtFault.{word_at};
ghost use Rattle.explanations.specs.Foreign.{begun_by, begun_text, column_text, by_first_bytes, by_first_word, by_line, comment_mark, comment_line, comment_told, dump_words, first_column, foreign_kind, foreign_line, foreign_told, has_five_numbers, has_mark_next, has_word_next, is_aiger, is_blif, is_edif, is_number_at, is_verilog, language_told, verilog_words, blif_words, foreign_text, may_be_foreign};

use crate::excerpt::push_shown;
use crate::other_texts::{form_of, push_other_text};
use crate::topic::word_at;
use crate::words::is;
use mistakes::{Subject, begins_with_mark, line_at};
use std::alloc::{AllocError, Global};
use texts::{code_of, is_white, number};

/// The kind of which a refused text looks to be.
#[derive(Clone, Copy, Debug, PartialEq, Eq)]
pub enum Foreign {
    /// UTF-8 with a byte order mark.
    Utf8Mark,
    Utf16Little,
    Utf16Big,
    Gzip,
    Verilog,
    Blif,
    Aiger,
    Edif,
    /// A value change dump.
    Dump,
    /// A line with a comment of another language.
    Comment,
}

/// Returns the kind of which a text, and a line of it without its comment, look to be, if it is another than
/// those that nullsim reads. Only a line that was refused is asked for, so a good text is never taken for another.
fn foreign_kind(subject: Subject, text: &[u8], code: &[u8]) -> Option<Foreign>
    ensures { result ≡ foreign_kind subject text.now code.now }
{
    match by_first_bytes(text) {
        Some(kind) => Some(kind),
        None => by_line(subject, code),
    }
}

fn by_first_bytes(text: &[u8]) -> Option<Foreign>
    ensures { result ≡ by_first_bytes text.now }
{
    if text.starts_with(b"\xEF\xBB\xBF") {
        Some(Foreign::Utf8Mark)
    } else if text.starts_with(b"\xFF\xFE") {
        Some(Foreign::Utf16Little)
    } else if text.starts_with(b"\xFE\xFF") {
        Some(Foreign::Utf16Big)
    } else if text.starts_with(b"\x1F\x8B") {
        Some(Foreign::Gzip)
    } else {
        None
    }
}

fn by_line(subject: Subject, code: &[u8]) -> Option<Foreign>
    ensures { result ≡ by_line subject code.now }
{
    by_first_word(subject, code, word_at(code, 0)?)
}

fn by_first_word(subject: Subject, code: &[u8], first: &[u8]) -> Option<Foreign>
    ensures { result ≡ by_first_word subject code.now first.now }
{
    if is_verilog(subject, first, code) {
        Some(Foreign::Verilog)
    } else if is_blif(first, code) {
        Some(Foreign::Blif)
    } else if is_aiger(first, code) {
        Some(Foreign::Aiger)
    } else if is_edif(first, code) {
        Some(Foreign::Edif)
    } else if is_of_dumps(first) {
        Some(Foreign::Dump)
    } else if comment_mark(first).is_some() {
        Some(Foreign::Comment)
    } else {
        None
    }
}

fn is_verilog(subject: Subject, first: &[u8], code: &[u8]) -> bool
    ensures { result ≡ is_verilog subject first.now code.now }
{
    let begins_module = is(first, "module") && has_word_next(code);
    match subject {
        Subject::Bench => begins_module
            || (is_of_verilog(first) && !has_mark_next(code))
            || first.starts_with(b"`"),
        _ => begins_module,
    }
}

fn is_of_verilog(first: &[u8]) -> bool
    ensures { result ≡ is_among verilog_words first.now }
{
    is(first, "endmodule")
        || is(first, "assign")
        || is(first, "wire")
        || is(first, "reg")
        || is(first, "always")
        || is(first, "initial")
}

fn is_blif(first: &[u8], code: &[u8]) -> bool
    ensures { result ≡ is_blif first.now code.now }
{
    is_of_blif(first) && !has_mark_next(code)
}

fn is_of_blif(first: &[u8]) -> bool
    ensures { result ≡ is_among blif_words first.now }
{
    is(first, ".model")
        || is(first, ".inputs")
        || is(first, ".outputs")
        || is(first, ".names")
        || is(first, ".latch")
        || is(first, ".gate")
        || is(first, ".subckt")
        || is(first, ".end")
}

fn is_aiger(first: &[u8], code: &[u8]) -> bool
    ensures { result ≡ is_aiger first.now code.now }
{
    (is(first, "aag") || is(first, "aig")) && has_five_numbers(code)
}

/// Returns whether five numbers follow the first word of a line.
fn has_five_numbers(code: &[u8]) -> bool
    ensures { result ≡ has_five_numbers code.now }
{
    is_number_at(code, 1)
        && is_number_at(code, 2)
        && is_number_at(code, 3)
        && is_number_at(code, 4)
        && is_number_at(code, 5)
}

fn is_number_at(code: &[u8], place: usize) -> bool
    ensures { result ≡ is_number_at code.now place }
{
    match word_at(code, place) {
        Some(word) => number(word).is_some(),
        None => false,
    }
}

fn is_edif(first: &[u8], code: &[u8]) -> bool
    ensures { result ≡ is_edif first.now code.now }
{
    is(first, "(edif") || (is(first, "(") && is_edif_next(code))
}

fn is_edif_next(code: &[u8]) -> bool
    ensures { result ≡ option_map_or (bytes_eq (codes "edif")) (word_at 1 code.now) false }
{
    match word_at(code, 1) {
        Some(word) => is(word, "edif"),
        None => false,
    }
}

fn is_of_dumps(first: &[u8]) -> bool
    ensures { result ≡ is_among dump_words first.now }
{
    is(first, "$date")
        || is(first, "$version")
        || is(first, "$comment")
        || is(first, "$timescale")
        || is(first, "$scope")
        || is(first, "$var")
}

/// Returns the mark with which a word begins a comment in another language.
fn comment_mark(first: &[u8]) -> Option<&'static [u8]>
    ensures { option_map (λ mark. mark.now) result ≡ comment_mark first.now }
{
    if first.starts_with(b"//") {
        Some(b"//")
    } else if first.starts_with(b"/*") {
        Some(b"/*")
    } else if first.starts_with(b"--") {
        Some(b"--")
    } else if first.starts_with(b";") {
        Some(b";")
    } else {
        None
    }
}

/// Returns whether a line has a second word, which begins with no mark of a .bench line.
fn has_word_next(code: &[u8]) -> bool
    ensures { result ≡ has_word_next code.now }
{
    match word_at(code, 1) {
        Some(word) => !begins_with_mark(word),
        None => false,
    }
}

/// Returns whether a line has a second word, which begins with a mark of a .bench line.
fn has_mark_next(code: &[u8]) -> bool
    ensures { result ≡ has_mark_next code.now }
{
    match word_at(code, 1) {
        Some(word) => begins_with_mark(word),
        None => false,
    }
}

/// Returns whether a text with this fault may be of another kind.
fn may_be_foreign(name: &str) -> bool
    ensures { result ≡ is_among may_be_foreign name.now }
{
    name == "BadByte" || name == "BadLine" || name == "BadDeck"
}

/// Returns the message about a text of another kind, if the text at fault, which is known, and its line with
/// this number look to be of one. Otherwise the message is empty. The circuit, if known, says which nets may have
/// delays.
#[tactic(auto, unfolding(crate::specs::Foreign::foreign_text))]
pub(crate) fn foreign_text(
    alloc: Global,
    subject: Subject,
    name: &str,
    number: u64,
    text: Option<&[u8]>,
    circuit: Option<&[u8]>,
) -> Result<Vec<u8>, AllocError>
    ensures { IfOk result (λ told. told.items
        ≡ foreign_text subject name.now number (option_map (λ text. text.now) text.entry) (option_map (λ circuit. circuit.now) circuit.entry)) }
{
    let Some(text) = text else {
        return Ok(Vec::new(alloc));
    };
    if !may_be_foreign(name) {
        return Ok(Vec::new(alloc));
    }
    match line_at(text, number) {
        Some(line) => foreign_in(alloc, subject, text, circuit, code_of(line)),
        None => Ok(Vec::new(alloc)),
    }
}

fn foreign_in(
    alloc: Global,
    subject: Subject,
    text: &[u8],
    circuit: Option<&[u8]>,
    code: &[u8],
) -> Result<Vec<u8>, AllocError>
    ensures { IfOk result (λ told. told.items
        ≡ foreign_line subject text.now (option_map (λ circuit. circuit.now) circuit.entry) code.now) }
{
    let mut told = Vec::new(alloc);
    push_foreign_line(alloc, &mut told, subject, text, circuit, code)?;
    Ok(told)
}

/// Adds the message about a text of another kind, if a text and a line of it, without its comment, look to be of
/// one that nullsim doesn't read, or if the line has a form of another text that it reads.
fn push_foreign_line(
    alloc: Global,
    told: &mut Vec<u8>,
    subject: Subject,
    text: &[u8],
    circuit: Option<&[u8]>,
    code: &[u8],
) -> Result<(), AllocError>
    ensures { OnOk result (told.new.items ≡ told.old.items
        ++ foreign_line subject text.now (option_map (λ circuit. circuit.now) circuit.entry) code.now) }
{
    match foreign_kind(subject, text, code) {
        Some(kind) => push_foreign(
            alloc,
            told,
            kind,
            subject,
            word_at(code, 0).unwrap_or(b""),
            code,
        ),
        None => push_other_text(alloc, told, subject, circuit, code),
    }
}

/// Adds the message about a text of another kind, found in a line with this first word.
fn push_foreign(
    alloc: Global,
    told: &mut Vec<u8>,
    kind: Foreign,
    subject: Subject,
    first: &[u8],
    code: &[u8],
) -> Result<(), AllocError>
    ensures { OnOk result (told.new.items ≡ told.old.items ++ foreign_told kind subject first.now code.now) }
{
    match kind {
        Foreign::Utf8Mark => told.extend_from_slice(
            b"column 1: found a byte order mark (EF BB BF)\nsave the file as UTF-8 without a byte order mark\n",
        ),
        Foreign::Utf16Little => told.extend_from_slice(
            b"column 1: found FF FE: the text is UTF-16\nsave the file as ASCII or as UTF-8 without a byte order mark\n",
        ),
        Foreign::Utf16Big => told.extend_from_slice(
            b"column 1: found FE FF: the text is UTF-16\nsave the file as ASCII or as UTF-8 without a byte order mark\n",
        ),
        Foreign::Gzip => told.extend_from_slice(
            b"column 1: found 1F 8B: the file is compressed by gzip; unpack it first\n",
        ),
        Foreign::Comment => push_comment(alloc, told, comment_mark(first), code),
        _ => push_language(alloc, told, kind, subject, first, code),
    }
}

/// Adds the message about a mark that begins no comment, if there is one.
fn push_comment(
    alloc: Global,
    told: &mut Vec<u8>,
    mark: Option<&[u8]>,
    code: &[u8],
) -> Result<(), AllocError>
    ensures { OnOk result (told.new.items ≡ told.old.items
        ++ comment_line (option_map (λ mark. mark.now) mark.entry) code.now) }
{
    match mark {
        Some(mark) => push_mark(alloc, told, mark, code),
        None => Ok(()),
    }
}

fn push_mark(alloc: Global, told: &mut Vec<u8>, mark: &[u8], code: &[u8]) -> Result<(), AllocError>
    ensures { OnOk result (told.new.items ≡ told.old.items ++ comment_told mark.now code.now) }
{
    push_column(alloc, told, code)?;
    told.extend_from_slice(mark)?;
    told.extend_from_slice(b"' doesn't begin a comment; # does\n")
}

/// Adds the message about a line of another language.
fn push_language(
    alloc: Global,
    told: &mut Vec<u8>,
    kind: Foreign,
    subject: Subject,
    first: &[u8],
    code: &[u8],
) -> Result<(), AllocError>
    ensures { OnOk result (told.new.items ≡ told.old.items ++ language_told kind subject first.now code.now) }
{
    push_column(alloc, told, code)?;
    push_shown(told, first)?;
    push_begun(alloc, told, kind, subject)
}

/// Adds the column of the first word of a line, and the beginning of a quotation.
fn push_column(alloc: Global, told: &mut Vec<u8>, code: &[u8]) -> Result<(), AllocError>
    ensures { OnOk result (told.new.items ≡ told.old.items ++ column_text code.now) }
{
    let column = first_column(code);
    let text = format!(in alloc; "column {column}: '")?;
    told.extend_from_slice(text.as_str().as_bytes())
}

/// Adds what the first word begins, and what is needed instead.
fn push_begun(
    alloc: Global,
    told: &mut Vec<u8>,
    kind: Foreign,
    subject: Subject,
) -> Result<(), AllocError>
    ensures { OnOk result (told.new.items ≡ told.old.items ++ begun_text kind subject) }
{
    let (begun, title, form) = (begun_by(kind), subject.title(), form_of(subject));
    let text = format!(in alloc; "' begins {begun}; a {title} is needed\n{form}")?;
    told.extend_from_slice(text.as_str().as_bytes())
}

/// Returns the column of the first word of a line, from 1.
fn first_column(code: &[u8]) -> u64
    ensures { result ≡ first_column code.now }
{
    white_before(code) as u64 + 1
}

/// Returns the number of bytes of white space with which a line begins.
fn white_before(code: &[u8]) -> usize
    ensures value { result ≡ prefix_len is_white code.now }
    ensures within { result ≤ length code.now }
{
    code.iter().take_while(|byte| is_white(**byte)).count()
}

/// Returns what the first word of a line begins.
fn begun_by(kind: Foreign) -> &'static str
    ensures { result.now ≡ begun_by kind }
{
    match kind {
        Foreign::Verilog => "a line of Verilog",
        Foreign::Blif => "a BLIF file",
        Foreign::Aiger => "an AIGER file",
        Foreign::Edif => "an EDIF file",
        _ => "a dump, which nullsim writes and doesn't read",
    }
}
