//! The subcommand `cone`: its options, and its order.
use crate::described::{Absent, Described, Takes};
use crate::help::{ends, subcommand_named};
use crate::options::{BENCH, names_given};
use crate::order::Order;
use clap::{ArgMatches, Command};
use std::alloc::{AllocError, Global};

const ABOUT: &str = "Writes the part of a circuit on which the values of some nets depend";

const USAGE: &str = "nullsim cone --bench <FILE> <NAME>...";

const ENDS: &str = ends!("nullsim cone --bench examples/s27.bench G12 G14");

const NAMES: &str = "The nets, which become the outputs of the written circuit";

static OPTIONS: [Described; 2] = [
    Described("bench", Takes::File, Absent::Refused, BENCH),
    Described("names", Takes::Nets, Absent::Refused, NAMES),
];

/// Returns the subcommand with its options.
pub(super) fn subcommand<'a>(alloc: Global) -> Result<Command<'a>, AllocError> {
    subcommand_named(alloc, "cone", ABOUT, USAGE, ENDS, &[OPTIONS.as_slice()])
}

/// Returns the order that its options give.
pub(super) fn order_given<'a>(
    alloc: Global,
    options: &ArgMatches<'a>,
) -> Result<Order<'a>, AllocError> {
    Ok(Order::Cone {
        bench: options.get_str("bench").unwrap_or(""),
        names: names_given(alloc, options, "names")?,
    })
}
