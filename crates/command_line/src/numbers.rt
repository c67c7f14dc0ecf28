//! Numbers in arguments: decimal digits alone, without a sign.
use crate::help::mistake;
use clap::error::ErrorKind;
use clap::{ArgMatches, Error};
use std::alloc::{AllocError, Global};

/// The options that take a number.
static NUMBERS: [&str; 15] = [
    "delay",
    "period",
    "first-delay",
    "first-period",
    "second-delay",
    "second-period",
    "horizon",
    "from",
    "to",
    "step",
    "width",
    "at",
    "every",
    "seed",
    "picks",
];

/// Returns the number that a word is, if it is one.
pub(super) fn number_of(word: &str) -> Option<u64> {
    if has_sign(word) {
        None
    } else {
        word.parse().ok()
    }
}

/// Refuses a number with a sign, as `clap` refuses any other word that isn't a number. `clap` itself takes `+5`.
///
/// # Errors
/// A usage error for the first such option.
pub(super) fn refuse_signs(alloc: Global, options: &ArgMatches<'_>) -> Result<(), Error> {
    for option in NUMBERS.as_slice() {
        if let Some(word) = options.get_str(option) {
            if has_sign(word) {
                return Err(signed(alloc, option, word)?);
            }
        }
    }
    Ok(())
}

fn has_sign(word: &str) -> bool {
    word.starts_with('+')
}

/// Returns the usage error for a number with a sign.
fn signed(alloc: Global, option: &str, word: &str) -> Result<Error, AllocError> {
    let text = format!(in alloc;
        "invalid value '{word}' for '--{option} <N>': invalid digit found in string"
    )?;
    mistake(alloc, ErrorKind::ValueValidation, text.as_str())
}
