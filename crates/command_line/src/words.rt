//! What arguments ask for, or why they ask for nothing.
ghost use Rattle.std.specs.Prelude.{◌≡◌, IfErr};
ghost use Rattle.command_line.specs.Words.{HelpsIfAsked, asks_for_help};

use crate::chance::without_chance;
use crate::help::{mistake, program};
use crate::hints::with_tip;
use crate::numbers::refuse_signs;
use crate::order::Order;
use crate::{check, cone, diff, draw, explain, info, plain, run, stimuli, trace, twin, why};
use clap::error::ErrorKind;
use clap::{ArgMatches, Error};
use std::alloc::{AllocError, Global};

/// What arguments ask for.
#[derive(Debug, Drop)]
pub enum Asked<'a> {
    /// An order over files, whether its fault is explained, and whether it reports its progress.
    Order {
        order: Order<'a>,
        verbose: bool,
        progress: bool,
    },
    /// The explanation of the faults with a name that at least one fault has.
    Explanation {
        name: &'a str,
    },
    /// The names of all faults.
    FaultNames,
}

/// Why arguments don't give an order.
#[derive(Debug, Drop)]
pub enum NoOrder {
    /// The text of the help, for arguments that ask for it.
    Help(String),
    /// The arguments are wrong, as this text says, with a tip if any.
    Usage(String),
    /// An allocation failed.
    Memory,
}

/// Returns what the arguments, without the program's own name, ask for.
///
/// # Errors
/// `Help` with the text of the help, if `help`, `--help` or `-h` asks for it; `Usage` with a text that says
/// what is wrong with the arguments, and a tip if any; or `Memory` if an allocation fails.
pub fn asked_by_words<'a>(alloc: Global, words: &'a [String]) -> Result<Asked<'a>, NoOrder>
    ensures { IfErr result (HelpsIfAsked words.now) }
{
    match read_asked(alloc, words) {
        Ok(asked) => Ok(asked),
        Err(error) => Err(no_order(alloc, &error, words)),
    }
}

/// Returns why arguments with this error of `clap` ask for nothing. `clap` also answers some with the help that
/// don't ask for it, such as `-hx`; these are wrong.
fn no_order(alloc: Global, error: &Error, words: &[String]) -> NoOrder
    ensures { HelpsIfAsked words.now result }
{
    if error.kind() == ErrorKind::OutOfMemory {
        return NoOrder::Memory;
    }
    match format!(in alloc; "{error}") {
        Err(_) => NoOrder::Memory,
        Ok(text) if !error.use_stderr() && asks_for_help(words) => NoOrder::Help(text),
        Ok(text) => usage_error(alloc, text, words),
    }
}

/// Returns the usage error with this text, without a tip of chance, and with a tip, if any.
fn usage_error(alloc: Global, text: String, words: &[String]) -> NoOrder
    ensures { HelpsIfAsked words.now result }
{
    match usage_text(alloc, text, words) {
        Ok(text) => NoOrder::Usage(text),
        Err(_) => NoOrder::Memory,
    }
}

fn usage_text(alloc: Global, text: String, words: &[String]) -> Result<String, AllocError> {
    let text = without_chance(alloc, text)?;
    with_tip(alloc, text, words)
}

fn asks_for_help(words: &[String]) -> bool
    ensures { result ≡ asks_for_help words.now }
{
    words
        .iter()
        .any(|word| matches!(word.as_str(), "help" | "--help" | "-h"))
}

fn read_asked<'a>(alloc: Global, words: &'a [String]) -> Result<Asked<'a>, Error> {
    let matches = program(alloc)?.try_get_matches_from(words)?;
    if let Some(("explain", options)) = matches.subcommand() {
        return explain::asked_given(alloc, options);
    }
    if let Some((_, options)) = matches.subcommand() {
        refuse_signs(alloc, options)?;
    }
    Ok(Asked::Order {
        order: order_matched(alloc, &matches)?,
        verbose: matches.get_flag("verbose"),
        progress: reports_progress(&matches),
    })
}

/// Returns whether the arguments ask a run to report its progress.
fn reports_progress(matches: &ArgMatches<'_>) -> bool {
    match matches.subcommand() {
        Some(("run" | "plain" | "draw" | "why", options)) => options.get_flag("progress"),
        _ => false,
    }
}

/// Returns the order that the options of a subcommand give.
fn order_matched<'a>(alloc: Global, matches: &ArgMatches<'a>) -> Result<Order<'a>, Error> {
    match matches.subcommand() {
        Some(("run", options)) => run::order_given(alloc, options),
        Some(("plain", options)) => Ok(plain::order_given(alloc, options)?),
        Some(("draw", options)) => Ok(draw::order_given(alloc, options)?),
        Some(("trace", options)) => trace::order_given(alloc, options),
        Some(("why", options)) => Ok(why::order_given(options)),
        Some(("stimuli", options)) => stimuli::order_given(alloc, options),
        Some(("info", options)) => Ok(info::order_given(options)),
        Some(("cone", options)) => Ok(cone::order_given(alloc, options)?),
        Some(("diff", options)) => diff::order_given(alloc, options),
        Some(("twin", options)) => Ok(twin::order_given(options)),
        Some(("check", options)) => Ok(check::order_given(options)),
        _ => Err(mistake(alloc, ErrorKind::MissingSubcommand, "a command is missing")?),
    }
}
