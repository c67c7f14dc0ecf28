//! What one line of a .bench text says.
ghost use Rattle.std.specs.Prelude.{◌≡◌, ◌≢◌, ◌∷◌, map, option_map, IfOk, IfErr, ◌++◌};
ghost use Rattle.std.specs.List.{list_any};
ghost use Rattle.std.specs.Result.{result_map_both};
ghost use Rattle.std.specs.Str.{str_eq_ignore_ascii_case};
ghost use Rattle.bench_text.specs.declared.fault.BenchFault.TheVariants.{Memory};
ghost use Rattle.netlist.specs.Part.{takes_pins};
ghost use Rattle.bench_text.specs.Line.{port, assignment, left, equals, word, is_dollar_name, is_long_name, form_of, names_of, more_names, part_in, part_of, with_names, definition_of, statement_of, statement_of_form};
ghost use Rattle.netlist.specs.Names.{seen_names};
ghost use Rattle.bench_text.specs.Seen.{seen_form, seen_statement};

use crate::fault::BenchFault;
use crate::token::{Token, Tokens, tokens_of};
use logic3::GateKind;
use netlist::Part;
use smallvec::SmallVec;
use std::alloc::{AllocError, Global};
use texts::is_plain;

/// The names at the pins of a net. Most nets have at most two, which need no allocation.
type Pins<'a> = SmallVec<&'a [u8], 2>;

/// What a line says.
#[derive(Drop)]
pub(crate) enum Statement<'a> {
    /// It defines a net, with the names of the nets at its pins.
    Defines {
        name: &'a [u8],
        part: Part,
        pins: Pins<'a>,
    },
    NamesOutput {
        name: &'a [u8],
    },
}

/// The form of a line: `K ( W )`, or `W = K ( list )`.
#[derive(Drop)]
enum Form<'a> {
    Port {
        keyword: &'a [u8],
        name: &'a [u8],
    },
    Assignment {
        name: &'a [u8],
        keyword: &'a [u8],
        pins: Pins<'a>,
    },
}

/// Returns what the line with this number says, or its first fault. `code` is the line without its
/// comment.
pub(crate) fn statement_of(
    alloc: Global,
    line: u64,
    code: &[u8],
) -> Result<Statement<'_>, BenchFault>
    ensures exact { result ≢ Err Memory →
        result_map_both seen_statement (λ fault. fault) result ≡ statement_of line code.now }
    ensures ok { IfOk result (λ said. statement_of line code.now ≡ Ok (seen_statement said)) }
    ensures err { IfErr result (λ fault. fault ≢ Memory → statement_of line code.now ≡ Err fault) }
{
    if !is_plain(code) {
        return Err(BenchFault::BadByte { line });
    }
    match form_of(alloc, tokens_of(code))? {
        Some(Form::Port { keyword, name }) => port(alloc, line, keyword, name),
        Some(
            Form::Assignment {
                name,
                keyword,
                pins,
            },
        ) => assignment(line, name, keyword, pins),
        None => Err(BenchFault::BadLine { line }),
    }
}

/// Returns what `keyword ( name )` says.
fn port<'a>(
    alloc: Global,
    line: u64,
    keyword: &'a [u8],
    name: &'a [u8],
) -> Result<Statement<'a>, BenchFault>
    ensures { result_map_both seen_statement (λ fault. fault) result
        ≡ statement_of_form line (Some (port keyword.now name.now)) }
{
    if is_keyword(b"INPUT", keyword) {
        check_names(line, name, &[])?;
        Ok(Statement::Defines {
            name,
            part: Part::Input,
            pins: SmallVec::new(alloc),
        })
    } else if is_keyword(b"OUTPUT", keyword) {
        check_names(line, name, &[])?;
        Ok(Statement::NamesOutput { name })
    } else {
        Err(BenchFault::BadLine { line })
    }
}

/// Returns what `name = keyword ( pins )` says.
fn assignment<'a>(
    line: u64,
    name: &'a [u8],
    keyword: &'a [u8],
    pins: Pins<'a>,
) -> Result<Statement<'a>, BenchFault>
    ensures { result_map_both seen_statement (λ fault. fault) result
        ≡ statement_of_form line (Some (assignment name.now keyword.now (seen_names pins.entry.items))) }
{
    check_names(line, name, pins.as_slice())?;
    definition_of(line, name, pins, part_of(keyword))
}

/// Returns the definition of a gate or a flip-flop with these pins, or its fault.
fn definition_of<'a>(
    line: u64,
    name: &'a [u8],
    pins: Pins<'a>,
    part: Option<Part>,
) -> Result<Statement<'a>, BenchFault>
    ensures { result_map_both seen_statement (λ fault. fault) result
        ≡ definition_of line name.now (seen_names pins.entry.items) part }
{
    match part {
        None => Err(BenchFault::UnknownGate { line }),
        Some(part) if takes_pins(part, pins.len()) => Ok(Statement::Defines { name, part, pins }),
        Some(_) => Err(BenchFault::BadArity { line }),
    }
}

/// Returns the first fault of a line's names: one that begins with `$`, then one that is too long.
#[tactic(auto, using(crate::proofs::SeenNames::list_any_seen))]
fn check_names(line: u64, name: &[u8], pins: &[&[u8]]) -> Result<(), BenchFault>
    ensures { result ≡ with_names line (name.now ∷ seen_names pins.now) (Ok tt) }
{
    if is_dollar_name(name) || has_dollar_name(pins) {
        Err(BenchFault::BadLine { line })
    } else if is_long_name(name) || has_long_name(pins) {
        Err(BenchFault::NameTooLong { line })
    } else {
        Ok(())
    }
}

fn has_dollar_name(names: &[&[u8]]) -> bool
    ensures { result ≡ list_any (λ name. is_dollar_name name.now) names.now }
{
    names.iter().any(|name| is_dollar_name(name))
}

fn has_long_name(names: &[&[u8]]) -> bool
    ensures { result ≡ list_any (λ name. is_long_name name.now) names.now }
{
    names.iter().any(|name| is_long_name(name))
}

/// Returns whether a name begins with `$`.
fn is_dollar_name(name: &[u8]) -> bool
    ensures { result ≡ is_dollar_name name.now }
{
    name.first() == Some(&b'$')
}

/// Returns whether a name has more than 255 bytes.
fn is_long_name(name: &[u8]) -> bool
    ensures { result ≡ is_long_name name.now }
{
    name.len() > 255
}

/// Returns whether a part may have this number of pins.
fn takes_pins(part: Part, pins: usize) -> bool
    ensures { result ≡ takes_pins part pins }
{
    match part {
        Part::Input => pins == 0,
        Part::Gate(GateKind::Not | GateKind::Buf) | Part::Flop => pins == 1,
        Part::Gate(_) => 1 <= pins && pins <= 1024,
    }
}

/// The words for a gate or a flip-flop.
static KEYWORDS: [(&[u8], Part); 11] = [
    (b"AND", Part::Gate(GateKind::And)),
    (b"NAND", Part::Gate(GateKind::Nand)),
    (b"OR", Part::Gate(GateKind::Or)),
    (b"NOR", Part::Gate(GateKind::Nor)),
    (b"XOR", Part::Gate(GateKind::Xor)),
    (b"XNOR", Part::Gate(GateKind::Xnor)),
    (b"NOT", Part::Gate(GateKind::Not)),
    (b"BUF", Part::Gate(GateKind::Buf)),
    (b"DFF", Part::Flop),
    (b"INV", Part::Gate(GateKind::Not)),
    (b"BUFF", Part::Gate(GateKind::Buf)),
];

/// Returns the gate or flip-flop that a word means, in any case of its letters.
fn part_of(word: &[u8]) -> Option<Part>
    ensures { result ≡ part_of word.now }
{
    part_in(&KEYWORDS, word)
}

/// Returns the part next to the first word of a table that equals this word, in any case of its
/// letters.
fn part_in(table: &[(&[u8], Part)], word: &[u8]) -> Option<Part>
    ensures { result ≡ part_in (map (λ entry. (entry.0.now, entry.1)) table.now) word.now }
{
    for (keyword, part) in table {
        if is_keyword(keyword, word) {
            return Some(*part);
        }
    }
    None
}

/// Returns whether a word is this keyword, in any case of its letters.
fn is_keyword(keyword: &[u8], word: &[u8]) -> bool
    ensures { result ≡ str_eq_ignore_ascii_case keyword.now word.now }
{
    keyword.eq_ignore_ascii_case(word)
}

/// Returns the form of a line's tokens, if any.
fn form_of<'a>(alloc: Global, mut tokens: Tokens<'a>) -> Result<Option<Form<'a>>, AllocError>
    ensures { IfOk result (λ form. option_map seen_form form ≡ form_of tokens.entry) }
{
    let Some(Token::Word(first)) = tokens.next() else {
        return Ok(None);
    };
    match tokens.next() {
        Some(Token::Left) => Ok(port_after(first, tokens)),
        Some(Token::Equals) => assignment_after(alloc, first, tokens),
        _ => Ok(None),
    }
}

/// Returns the form `K ( W )`, after `K (` has been read.
fn port_after<'a>(keyword: &'a [u8], mut tokens: Tokens<'a>) -> Option<Form<'a>>
    ensures { option_map seen_form result ≡ form_of (word keyword.now ∷ left ∷ tokens.entry) }
{
    match (tokens.next(), tokens.next(), tokens.next()) {
        (Some(Token::Word(name)), Some(Token::Right), None) => Some(Form::Port { keyword, name }),
        _ => None,
    }
}

/// Returns the form `W = K ( list )`, after `W =` has been read.
fn assignment_after<'a>(
    alloc: Global,
    name: &'a [u8],
    mut tokens: Tokens<'a>,
) -> Result<Option<Form<'a>>, AllocError>
    ensures { IfOk result (λ form. option_map seen_form form ≡ form_of (word name.now ∷ equals ∷ tokens.entry)) }
{
    let (Some(Token::Word(keyword)), Some(Token::Left)) = (tokens.next(), tokens.next()) else {
        return Ok(None);
    };
    let pins = names_of(alloc, tokens)?;
    Ok(pins.map(|pins| Form::Assignment {
        name,
        keyword,
        pins,
    }))
}

/// Returns the names up to the closing mark: an empty list, or names with a comma between each two.
fn names_of<'a>(alloc: Global, mut tokens: Tokens<'a>) -> Result<Option<Pins<'a>>, AllocError>
    ensures { IfOk result (λ names. option_map (λ names. seen_names names.items) names ≡ names_of tokens.entry) }
{
    let mut names = SmallVec::new(alloc);
    match tokens.next() {
        Some(Token::Right) => Ok(tokens.next().is_none().then_some(names)),
        Some(Token::Word(name)) => {
            names.push(name)?;
            more_names(names, tokens)
        }
        _ => Ok(None),
    }
}

/// Returns these names and those that follow them, each after a comma, up to the closing mark.
fn more_names<'a>(
    mut names: Pins<'a>,
    mut tokens: Tokens<'a>,
) -> Result<Option<Pins<'a>>, AllocError>
    ensures { IfOk result (λ all. option_map (λ names. seen_names names.items) all
        ≡ option_map (λ more. seen_names names.entry.items ++ more) (more_names tokens.entry)) }
{
    loop {
        match (tokens.next(), tokens.next()) {
            (Some(Token::Right), None) => return Ok(Some(names)),
            (Some(Token::Comma), Some(Token::Word(name))) => names.push(name)?,
            _ => return Ok(None),
        }
    }
}
