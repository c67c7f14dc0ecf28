//! The explanations of faults, as text.
ghost use Rattle.std.specs.Prelude.{◌≡◌, ◌++◌, flat_map, string_bytes, IfOk, OnOk};
ghost use Rattle.std.specs.List.{list_any};
ghost use Rattle.explanations.specs.Explained.{all_names, both_texts, example_line, example_text, explained, explanation_of, has_called, meaning_line, name_behind, names_line, told_if_called, told_of, wanted_line};

use crate::explanation::{Example, Explanation};
use crate::table::Table;
use mistakes::Subject;
use std::alloc::{AllocError, Global};
use std::fmt::Write;

/// Returns whether a table has a fault with this name, in any case of its letters.
pub fn is_explained(tables: &[Table], name: &str) -> bool
    ensures { result ≡ list_any (has_called name.now) tables.now }
{
    tables.iter().any(|table| has_called(table, name))
}

fn has_called(table: &Table, name: &str) -> bool
    ensures { result ≡ has_called name.now table.now }
{
    table
        .explanations
        .iter()
        .any(|one| one.name.eq_ignore_ascii_case(name))
}

/// Returns what the faults with this name, in any case of its letters, mean: an explanation for each
/// table that has one, in the order of the tables. The text is empty if none has.
pub fn explanation_text(alloc: Global, tables: &[Table], name: &str) -> Result<String, AllocError>
    ensures { IfOk result (λ text. string_bytes text ≡ explained tables.now name.now) }
{
    let mut text = String::new(alloc);
    for table in tables {
        push_called(&mut text, table.subject, name, table.explanations)?;
    }
    Ok(text)
}

/// Adds the explanations of the faults with a name.
fn push_called(
    text: &mut String,
    subject: Subject,
    name: &str,
    table: &[Explanation],
) -> Result<(), AllocError>
    ensures { OnOk result (string_bytes text.new ≡ string_bytes text.old ++ told_of subject name.now table.now) }
{
    for one in table {
        push_if_called(text, subject, name, one)?;
    }
    Ok(())
}

/// Adds the explanation of a fault, if it has this name.
fn push_if_called(
    text: &mut String,
    subject: Subject,
    name: &str,
    one: &Explanation,
) -> Result<(), AllocError>
    ensures { OnOk result (string_bytes text.new ≡ string_bytes text.old ++ told_if_called subject name.now one.now) }
{
    if one.name.eq_ignore_ascii_case(name) {
        push_explanation(text, subject, one)
    } else {
        Ok(())
    }
}

/// Adds an explanation of a fault of the subject.
fn push_explanation(
    text: &mut String,
    subject: Subject,
    one: &Explanation,
) -> Result<(), AllocError>
    ensures { OnOk result (string_bytes text.new ≡ string_bytes text.old ++ explanation_of subject one.now) }
{
    push_meaning(text, subject.title(), one)?;
    push_wanted(text, one)?;
    push_example(text, subject.circuit(), &one.example)
}

/// Adds the line that says what a fault means.
pub(crate) fn push_meaning(
    text: &mut String,
    title: &str,
    one: &Explanation,
) -> Result<(), AllocError>
    ensures { OnOk result (string_bytes text.new ≡ string_bytes text.old ++ meaning_line title.now one.now) }
{
    let (name, meaning) = (one.name, one.meaning);
    write!(text, "{name} ({title}): {meaning}\n")
}

/// Adds the line that says what is needed.
pub(crate) fn push_wanted(text: &mut String, one: &Explanation) -> Result<(), AllocError>
    ensures { OnOk result (string_bytes text.new ≡ string_bytes text.old ++ wanted_line one.now) }
{
    let wanted = one.wanted;
    write!(text, "needed: {wanted}\n")
}

fn push_example(
    text: &mut String,
    circuit: &str,
    example: &Option<Example>,
) -> Result<(), AllocError>
    ensures { OnOk result (string_bytes text.new ≡ string_bytes text.old ++ example_text circuit.now example.now) }
{
    let Some(example) = example else {
        return Ok(());
    };
    push_example_line(text, circuit, example.line)?;
    push_both(text, example)
}

fn push_example_line(text: &mut String, circuit: &str, number: u64) -> Result<(), AllocError>
    ensures { OnOk result (string_bytes text.new ≡ string_bytes text.old ++ example_line circuit.now number) }
{
    write!(text, "example{circuit}, refused at line {number}:\n")
}

fn push_both(text: &mut String, example: &Example) -> Result<(), AllocError>
    ensures { OnOk result (string_bytes text.new ≡ string_bytes text.old ++ both_texts example.now) }
{
    text.push_str(example.faulty)?;
    text.push_str("corrected:\n")?;
    text.push_str(example.mended)
}

/// Returns the names of all faults: a line for each table, with the subject's title and the names.
pub fn names_text(alloc: Global, tables: &[Table]) -> Result<String, AllocError>
    ensures { IfOk result (λ text. string_bytes text ≡ all_names tables.now) }
{
    let mut text = String::new(alloc);
    for table in tables {
        push_names(&mut text, table)?;
    }
    Ok(text)
}

fn push_names(text: &mut String, table: &Table) -> Result<(), AllocError>
    ensures { OnOk result (string_bytes text.new ≡ string_bytes text.old ++ names_line table.now) }
{
    let title = table.subject.title();
    write!(text, "{title}:")?;
    push_each(text, table.explanations)?;
    write!(text, "\n")?;
    Ok(())
}

fn push_each(text: &mut String, table: &[Explanation]) -> Result<(), AllocError>
    ensures { OnOk result (string_bytes text.new ≡ string_bytes text.old ++ flat_map name_behind table.now) }
{
    for one in table {
        let name = one.name;
        write!(text, " {name}")?;
    }
    Ok(())
}
