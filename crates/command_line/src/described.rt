//! Options as tables, and their translation for `clap`.
use clap::{Arg, ArgAction, Command};
use std::alloc::{AllocError, Global};

/// An option: its name, its value, what holds without it, and its help.
#[derive(Clone, Copy)]
pub(super) struct Described(
    pub(super) &'static str,
    pub(super) Takes,
    pub(super) Absent,
    pub(super) &'static str,
);

/// The value of an option.
#[derive(Clone, Copy)]
pub(super) enum Takes {
    File,
    Number,
    /// A number, in place of the options with these names, with which it conflicts.
    NumberFor(&'static [&'static str]),
    /// One of these words, with the name that the help has for them.
    Word(&'static str, &'static [&'static str]),
    /// The name of a net.
    Net,
    /// The name of a fault, as a positional argument or two.
    Fault,
    /// The names of nets, as positional arguments.
    Nets,
    /// Words that mean nets, separated by commas; may be repeated.
    NetList,
    /// The same, in place of the option with this name, with which it conflicts.
    NetListFor(&'static str),
    /// The same, only with the option with this name.
    NetListWith(&'static str),
    /// The word of a bus; may be repeated.
    Bus,
    /// What drives an input, in this form; may be repeated.
    Drives(&'static str),
    Nothing,
    /// Nothing, in place of the options with these names, with which it conflicts.
    NothingFor(&'static [&'static str]),
}

/// What holds if an option isn't given.
#[derive(Clone, Copy)]
pub(super) enum Absent {
    /// The arguments are wrong.
    Refused,
    Nothing,
    /// The option has this value.
    Default(&'static str),
}

/// Returns the command with the options of the tables, in their order.
pub(super) fn with_tables<'a>(
    alloc: Global,
    command: Command<'a>,
    tables: &[&'static [Described]],
) -> Result<Command<'a>, AllocError> {
    let mut command = command;
    for table in tables {
        command = with_table(alloc, command, table)?;
    }
    Ok(command)
}

fn with_table<'a>(
    alloc: Global,
    command: Command<'a>,
    table: &'static [Described],
) -> Result<Command<'a>, AllocError> {
    let mut command = command;
    for option in table {
        command = command.arg(arg(alloc, option)?)?;
    }
    Ok(command)
}

/// Returns the command with the options of a table, each of which may be absent and then has no value.
pub(super) fn with_optional_table<'a>(
    alloc: Global,
    command: Command<'a>,
    table: &'static [Described],
) -> Result<Command<'a>, AllocError> {
    let mut command = command;
    for option in table {
        let Described(name, takes, _, help) = *option;
        command = command.arg(valued(alloc, name, takes, help)?)?;
    }
    Ok(command)
}

fn arg<'a>(alloc: Global, option: &'static Described) -> Result<Arg<'a>, AllocError> {
    let Described(name, takes, absent, help) = *option;
    let arg = valued(alloc, name, takes, help)?;
    Ok(match absent {
        Absent::Refused => arg.required(true),
        Absent::Nothing => arg,
        Absent::Default(value) => arg.default_value(value),
    })
}

fn valued<'a>(
    alloc: Global,
    name: &'static str,
    takes: Takes,
    help: &'static str,
) -> Result<Arg<'a>, AllocError> {
    let arg = Arg::new(alloc, name).help(help);
    let arg = match takes {
        Takes::Nets => arg.num_args(1..),
        Takes::Fault => arg.num_args(1..=2),
        _ => arg.long(name),
    };
    taking(arg, takes)
}

fn taking<'a>(arg: Arg<'a>, takes: Takes) -> Result<Arg<'a>, AllocError> {
    Ok(match takes {
        Takes::File => arg.value_name("FILE"),
        Takes::Number => number(arg),
        Takes::NumberFor(others) => number(arg).conflicts_with_all(others)?,
        Takes::Word(name, words) => arg
            .value_name(name)
            .value_parser(words)
            .hide_possible_values(true),
        Takes::Net | Takes::Nets | Takes::Fault => arg.value_name("NAME"),
        Takes::NetList => net_list(arg),
        Takes::NetListFor(other) => net_list(arg).conflicts_with(other)?,
        Takes::NetListWith(other) => net_list(arg).requires_arg(other)?,
        Takes::Bus => arg.value_name("BUS").action(ArgAction::Append),
        Takes::Drives(form) => arg.value_name(form).action(ArgAction::Append),
        Takes::Nothing => arg.action(ArgAction::SetTrue),
        Takes::NothingFor(others) => arg.action(ArgAction::SetTrue).conflicts_with_all(others)?,
    })
}

fn number<'a>(arg: Arg<'a>) -> Arg<'a> {
    arg.value_name("N").value_parser(clap::value_parser!(u64))
}

fn net_list<'a>(arg: Arg<'a>) -> Arg<'a> {
    arg.value_name("NAMES")
        .value_delimiter(',')
        .action(ArgAction::Append)
}
