//! The subcommand `check`: its options, and its order.
use crate::help::{ends, subcommand_named};
use crate::options::{ALONE, LENGTH, SOURCE, number_given, source_given};
use crate::order::Order;
use crate::source_options::PickOptions;
use clap::{ArgMatches, Command};
use std::alloc::{AllocError, Global};

const ABOUT: &str =
    "Simulates a circuit with the engines of run and of plain, and writes for how many nets both give\n\
     the same waveform";

const USAGE: &str = "nullsim check --bench <FILE> --horizon <N> [OPTIONS]";

const ENDS: &str = ends!(
    "nullsim check --bench examples/s27.bench --stimuli examples/s27.stimuli --horizon 35"
);

/// Returns the subcommand with its options.
pub(super) fn subcommand<'a>(alloc: Global) -> Result<Command<'a>, AllocError> {
    subcommand_named(
        alloc,
        "check",
        ABOUT,
        USAGE,
        ENDS,
        &[SOURCE.as_slice(), LENGTH.as_slice()],
    )
}

/// Returns the order that its options give.
pub(super) fn order_given<'a>(options: &ArgMatches<'a>) -> Order<'a> {
    Order::Check {
        source: source_given(options, &ALONE, PickOptions::Nothing),
        horizon: number_given(options, "horizon"),
    }
}
