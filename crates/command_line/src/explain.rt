//! The subcommand `explain`: its argument, and what it asks for.
use crate::described::{Absent, Described, Takes};
use crate::help::{ends, mistake, subcommand_named};
use crate::words::Asked;
use clap::error::ErrorKind;
use clap::{ArgMatches, Command, Error};
use explanations::{is_explained, tables, unknown_fault_text};
use std::alloc::{AllocError, Global};

const ABOUT: &str =
    "Explains a fault by its NAME, which follows WHERE:LINE: on standard error, and gives an example of\n\
     a faulty text and the corrected text. A whole line WHERE:LINE: NAME is taken too. Without a name,\n\
     lists the names of all faults. Reads no file";

const USAGE: &str = "nullsim explain [NAME]";

const ENDS: &str = ends!("nullsim explain NotRising");

const NAME: &str =
    "The name of the fault, such as BadLine, in upper or lower case, or a line that ends with it";

const NO_NAME: &str = "explain takes one NAME, or a line WHERE:LINE: NAME";

static OPTIONS: [Described; 1] = [Described("name", Takes::Fault, Absent::Nothing, NAME)];

/// Returns the subcommand with its argument.
pub(super) fn subcommand<'a>(alloc: Global) -> Result<Command<'a>, AllocError> {
    subcommand_named(alloc, "explain", ABOUT, USAGE, ENDS, &[OPTIONS.as_slice()])
}

/// Returns what it asks for.
///
/// # Errors
/// A usage error if no fault has the name, or if there are two words that are no line of a fault.
pub(super) fn asked_given<'a>(alloc: Global, options: &ArgMatches<'a>) -> Result<Asked<'a>, Error> {
    match options.get_strs("name") {
        None => Ok(Asked::FaultNames),
        Some(words) => asked_of(alloc, words),
    }
}

fn asked_of<'a>(alloc: Global, words: &[&'a str]) -> Result<Asked<'a>, Error> {
    match name_in(words) {
        Some(name) if is_explained(&tables(), name) => Ok(Asked::Explanation { name }),
        Some(name) => Err(no_fault(alloc, name)?),
        None => Err(mistake(alloc, ErrorKind::InvalidValue, NO_NAME)?),
    }
}

/// Returns the name in the arguments: the only one, or the last word of a line `WHERE:LINE: NAME`, which may be
/// one argument or two.
fn name_in<'a>(words: &[&'a str]) -> Option<&'a str> {
    match words {
        [line] => Some(name_in_line(line)),
        [place, name] if place.ends_with(':') => Some(*name),
        _ => None,
    }
}

/// Returns the last word of a text if the words before it end with `:`, and else the whole text.
fn name_in_line<'a>(line: &'a str) -> &'a str {
    match line.trim().rsplit_once(char::is_whitespace) {
        Some((place, name)) if place.trim_end().ends_with(':') => name,
        _ => line,
    }
}

/// Returns the usage error for a name that no fault has.
fn no_fault(alloc: Global, name: &str) -> Result<Error, AllocError> {
    let text = unknown_fault_text(alloc, &tables(), name.as_bytes())?;
    // A name between texts in ASCII is in UTF-8, so the other text is never used.
    let text = str::from_utf8(text.as_slice()).unwrap_or(NO_NAME);
    mistake(alloc, ErrorKind::InvalidValue, text)
}
