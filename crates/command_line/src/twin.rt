//! The subcommand `twin`: its options, and its order.
use crate::described::{Absent, Described, Takes};
use crate::help::{ends, subcommand_named};
use crate::options::{
    FIRST, FIRST_SIDE, LENGTH, SECOND, SECOND_SIDE, number_given, side_picks, source_given,
};
use crate::order::Order;
use clap::{ArgMatches, Command};
use std::alloc::{AllocError, Global};

const ABOUT: &str =
    "Writes whether two runs agree on everything that a net's value depends on, and the net's changes\n\
     in each run: lines such as agree yes, first 12 1, second 12 1";

const USAGE: &str =
    "nullsim twin --first <FILE> --second <FILE> --net <NAME> --horizon <N> [OPTIONS]";

const ENDS: &str = ends!(
    "nullsim twin --horizon 12 --net p --first examples/parity.bench --first-stimuli examples/parity.stimuli --second examples/bigger.bench --second-stimuli examples/bigger.stimuli"
);

const NET: &str = "The net to compare, by its name in both circuits";

static OPTIONS: [Described; 1] = [Described("net", Takes::Net, Absent::Refused, NET)];

/// Returns the subcommand with its options.
pub(super) fn subcommand<'a>(alloc: Global) -> Result<Command<'a>, AllocError> {
    subcommand_named(
        alloc,
        "twin",
        ABOUT,
        USAGE,
        ENDS,
        &[
            OPTIONS.as_slice(),
            LENGTH.as_slice(),
            FIRST_SIDE.as_slice(),
            SECOND_SIDE.as_slice(),
        ],
    )
}

/// Returns the order that its options give.
pub(super) fn order_given<'a>(options: &ArgMatches<'a>) -> Order<'a> {
    Order::Twin {
        first: source_given(options, &FIRST, side_picks(options, FIRST.schedule)),
        second: source_given(options, &SECOND, side_picks(options, SECOND.schedule)),
        net: options.get_str("net").unwrap_or("").as_bytes(),
        horizon: number_given(options, "horizon"),
    }
}
