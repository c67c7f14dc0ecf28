//! The command line: its subcommands and the help.
use crate::described::{Described, with_tables};
use crate::{check, cone, diff, draw, explain, info, plain, run, stimuli, trace, twin, why};
use clap::error::ErrorKind;
use clap::{Arg, ArgAction, Command, Error};
use std::alloc::{AllocError, Global};

const ABOUT: &str =
    "nullsim simulates a synchronous logic circuit at gate level and writes the values of its nets as\n\
     a value change dump (VCD, IEEE 1364-2005) for waveform viewers.\n\
     \n\
     Without arguments, or with --verbose alone, it reads a deck (a whole run in one text) from standard\n\
     input.";

const USAGE: &str =
    "nullsim <COMMAND> [OPTIONS]\n       nullsim [--verbose] < DECK\n       nullsim --version";

/// Returns what follows the options in a help: this example, and how the program ends.
macro_rules! ends {
    ($example:literal) => {
        concat!(
            "Example: ",
            $example,
            "\n\nExit status: 0 done, 1 an input was refused, 2 wrong arguments, 3 reading or writing failed,\n\
             4 out of memory, 5 diff found a difference. With 1, 3 and 4, standard error has one line\n\
             WHERE:LINE: NAME, such as adder.bench:3: Undefined. LINE is 0 if no single line is at fault, as\n\
             in adder.bench:0: Read for a file that can't be read. nullsim explain NAME explains the fault;\n\
             with --verbose, the line at fault and the explanation follow on standard error. docs/FORMATS.md\n\
             and docs/COMMANDS.md list the names.",
        )
    };
}

pub(crate) use ends;

const ENDS: &str = ends!(
    "nullsim run --bench examples/hazard.bench --stimuli examples/hazard.stimuli --horizon 8 > hazard.vcd"
);

const VERBOSE: &str = "Explain a fault in full; after a run, add notes on it";

pub(super) fn program<'a>(alloc: Global) -> Result<Command<'a>, AllocError> {
    let mut subcommands = Vec::new(alloc);
    add_subcommands(alloc, &mut subcommands)?;
    Command::new(alloc, "nullsim")
        .no_binary_name(true)
        .subcommand_required(true)
        .about(ABOUT)
        .override_usage(USAGE)
        .after_help(ENDS)
        .arg(verbose(alloc))?
        .subcommands(subcommands)
}

/// Returns the option that every command takes, before and after its name.
fn verbose<'a>(alloc: Global) -> Arg<'a> {
    Arg::new(alloc, "verbose")
        .short('v')
        .long("verbose")
        .help(VERBOSE)
        .action(ArgAction::SetTrue)
        .global(true)
}

/// Adds the subcommands, in the order of the help.
fn add_subcommands<'a>(
    alloc: Global,
    subcommands: &mut Vec<Command<'a>>,
) -> Result<(), AllocError> {
    add(subcommands, run::subcommand(alloc))?;
    add(subcommands, plain::subcommand(alloc))?;
    add(subcommands, draw::subcommand(alloc))?;
    add(subcommands, trace::subcommand(alloc))?;
    add(subcommands, why::subcommand(alloc))?;
    add(subcommands, stimuli::subcommand(alloc))?;
    add(subcommands, info::subcommand(alloc))?;
    add(subcommands, cone::subcommand(alloc))?;
    add(subcommands, diff::subcommand(alloc))?;
    add(subcommands, twin::subcommand(alloc))?;
    add(subcommands, check::subcommand(alloc))?;
    add(subcommands, explain::subcommand(alloc))
}

/// Adds a subcommand, unless an allocation failed.
fn add<'a>(
    subcommands: &mut Vec<Command<'a>>,
    subcommand: Result<Command<'a>, AllocError>,
) -> Result<(), AllocError> {
    subcommands.push(subcommand?)?;
    Ok(())
}

/// Returns the usage error with this text.
pub(super) fn mistake(alloc: Global, kind: ErrorKind, text: &str) -> Result<Error, AllocError> {
    program(alloc)?.error(kind, text)
}

/// Returns a subcommand with the options of some tables, and with what follows them in its help.
pub(super) fn subcommand_named<'a>(
    alloc: Global,
    name: &'static str,
    about: &'static str,
    usage: &'static str,
    ends: &'static str,
    options: &[&'static [Described]],
) -> Result<Command<'a>, AllocError> {
    let command = Command::new(alloc, name)
        .about(about)
        .override_usage(usage)
        .after_help(ends);
    with_tables(alloc, command, options)
}
