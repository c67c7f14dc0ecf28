//! The subcommand `plain`: its options, and its order.
use crate::help::{ends, subcommand_named};
use crate::options::{ALONE, LENGTH, REPORTED, SHOWN, SOURCE, UNITS, source_given, view_given};
use crate::order::Order;
use crate::source_options::PickOptions;
use clap::{ArgMatches, Command};
use std::alloc::{AllocError, Global};

const ABOUT: &str = "Simulates a circuit tick by tick and writes the dump to standard output";

const USAGE: &str = "nullsim plain --bench <FILE> --horizon <N> [OPTIONS]";

const ENDS: &str = ends!(
    "nullsim plain --bench examples/hazard.bench --stimuli examples/hazard.stimuli --horizon 8"
);

/// Returns the subcommand with its options.
pub(super) fn subcommand<'a>(alloc: Global) -> Result<Command<'a>, AllocError> {
    subcommand_named(
        alloc,
        "plain",
        ABOUT,
        USAGE,
        ENDS,
        &[
            SOURCE.as_slice(),
            LENGTH.as_slice(),
            SHOWN.as_slice(),
            UNITS.as_slice(),
            REPORTED.as_slice(),
        ],
    )
}

/// Returns the order that its options give.
pub(super) fn order_given<'a>(
    alloc: Global,
    options: &ArgMatches<'a>,
) -> Result<Order<'a>, AllocError> {
    Ok(Order::Plain {
        source: source_given(options, &ALONE, PickOptions::Nothing),
        view: view_given(alloc, options)?,
    })
}
