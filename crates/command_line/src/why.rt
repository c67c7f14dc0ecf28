//! The subcommand `why`: its options, and its order.
use crate::described::{Absent, Described, Takes};
use crate::help::{ends, subcommand_named};
use crate::options::{ALONE, REPORTED, SOURCE, number_given, source_given};
use crate::order::Order;
use crate::source_options::PickOptions;
use clap::{ArgMatches, Command};
use std::alloc::{AllocError, Global};

const ABOUT: &str =
    "Explains why a net has its value at a tick: a line for each net on the way back along the pins\n\
     that decide, down to a cause that has no other";

const USAGE: &str = "nullsim why --bench <FILE> --net <NAME> --at <TICK> [OPTIONS]";

const ENDS: &str = ends!(
    "nullsim why --bench examples/hazard.bench --stimuli examples/hazard.stimuli --net y --at 7"
);

const NET: &str = "The net, by name";

const AT: &str = "The tick: 0 to 10000000";

static OPTIONS: [Described; 2] = [
    Described("net", Takes::Net, Absent::Refused, NET),
    Described("at", Takes::Number, Absent::Refused, AT),
];

/// Returns the subcommand with its options.
pub(super) fn subcommand<'a>(alloc: Global) -> Result<Command<'a>, AllocError> {
    subcommand_named(
        alloc,
        "why",
        ABOUT,
        USAGE,
        ENDS,
        &[SOURCE.as_slice(), OPTIONS.as_slice(), REPORTED.as_slice()],
    )
}

/// Returns the order that its options give.
pub(super) fn order_given<'a>(options: &ArgMatches<'a>) -> Order<'a> {
    Order::Why {
        source: source_given(options, &ALONE, PickOptions::Nothing),
        net: options.get_str("net").unwrap_or("").as_bytes(),
        tick: number_given(options, "at"),
    }
}
