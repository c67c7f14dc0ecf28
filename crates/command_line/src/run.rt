//! The subcommand `run`: its options, and its order.
use crate::described::{Absent, Described, Takes};
use crate::help::{ends, subcommand_named};
use crate::options::{ALONE, LENGTH, REPORTED, SHOWN, SOURCE, UNITS, source_given, view_given};
use crate::order::Order;
use crate::picks::{PICKED, picks_given};
use clap::{ArgMatches, Command, Error};
use std::alloc::{AllocError, Global};

const ABOUT: &str =
    "Simulates a circuit by processes that exchange messages, and writes the dump to standard output";

const USAGE: &str = "nullsim run --bench <FILE> --horizon <N> [OPTIONS]";

const ENDS: &str = ends!(
    "nullsim run --bench examples/hazard.bench --stimuli examples/hazard.stimuli --horizon 8"
);

const COUNTS: &str = "Also write the line events E changes C nulls N rounds R to standard\n\
     error";

/// The option that no other subcommand takes.
static OPTIONS: [Described; 1] = [Described("counts", Takes::Nothing, Absent::Nothing, COUNTS)];

/// Returns the subcommand with its options.
pub(super) fn subcommand<'a>(alloc: Global) -> Result<Command<'a>, AllocError> {
    subcommand_named(
        alloc,
        "run",
        ABOUT,
        USAGE,
        ENDS,
        &[
            SOURCE.as_slice(),
            LENGTH.as_slice(),
            SHOWN.as_slice(),
            UNITS.as_slice(),
            PICKED.as_slice(),
            OPTIONS.as_slice(),
            REPORTED.as_slice(),
        ],
    )
}

/// Returns the order that its options give.
pub(super) fn order_given<'a>(alloc: Global, options: &ArgMatches<'a>) -> Result<Order<'a>, Error> {
    Ok(Order::Run {
        source: source_given(options, &ALONE, picks_given(alloc, options)?),
        view: view_given(alloc, options)?,
        counts: options.get_flag("counts"),
    })
}
