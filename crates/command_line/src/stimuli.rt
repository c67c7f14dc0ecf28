//! The subcommand `stimuli`: its options, and its order.
use crate::described::{Absent, Described, Takes};
use crate::drives::{DRIVES, drives_given};
use crate::help::{ends, subcommand_named};
use crate::options::{BENCH, LENGTH, number_given};
use crate::order::Order;
use clap::{ArgMatches, Command, Error};
use drawn_stimuli::Draws;
use std::alloc::{AllocError, Global};

const ABOUT: &str =
    "Writes stimuli for the inputs of a circuit: clocks, constant values and pulses by name, and drawn\n\
     (pseudo-random) values for all other inputs";

const USAGE: &str = "nullsim stimuli --bench <FILE> --horizon <N> [OPTIONS]";

const ENDS: &str = ends!(
    "nullsim stimuli --bench examples/gated.bench --horizon 12 --clock clk=3 --pulse en=4..10"
);

const EVERY: &str = "The number of ticks between drawn values: at least 1";

const ONLY: &str = "Give values only to inputs that --clock, --hold or --pulse names: no\n\
     values are drawn, and the other inputs have no lines, so they are X";

const SEED: &str = "The seed of the drawn values: 0 to 18446744073709551615";

static CIRCUIT: [Described; 1] = [Described("bench", Takes::File, Absent::Refused, BENCH)];

static DRAWS: [Described; 3] = [
    Described("every", Takes::Number, Absent::Default("10"), EVERY),
    Described("seed", Takes::Number, Absent::Default("0"), SEED),
    Described("only", Takes::Nothing, Absent::Nothing, ONLY),
];

/// Returns the subcommand with its options.
pub(super) fn subcommand<'a>(alloc: Global) -> Result<Command<'a>, AllocError> {
    subcommand_named(
        alloc,
        "stimuli",
        ABOUT,
        USAGE,
        ENDS,
        &[
            CIRCUIT.as_slice(),
            LENGTH.as_slice(),
            DRIVES.as_slice(),
            DRAWS.as_slice(),
        ],
    )
}

/// Returns the order that its options give.
pub(super) fn order_given<'a>(alloc: Global, options: &ArgMatches<'a>) -> Result<Order<'a>, Error> {
    Ok(Order::Stimuli {
        bench: options.get_str("bench").unwrap_or(""),
        drives: drives_given(alloc, options)?,
        draws: Draws {
            seed: number_given(options, "seed"),
            every: number_given(options, "every"),
            only: options.get_flag("only"),
        },
        horizon: number_given(options, "horizon"),
    })
}
