//! The subcommand `info`: its options, and its order.
use crate::described::{Absent, Described, Takes};
use crate::help::{ends, subcommand_named};
use crate::options::{ALONE, BENCH, DELAY, DELAYS, source_given};
use crate::order::Order;
use crate::source_options::PickOptions;
use clap::{ArgMatches, Command};
use std::alloc::{AllocError, Global};

const ABOUT: &str =
    "Describes a circuit: its numbers of nets, pins, inputs, outputs, flip-flops and gates, its\n\
     greatest fan-in and fan-out, the most gates in a row or the gates that form a loop, the nets on\n\
     which no output depends, and the longest paths in ticks to a flip-flop and to an output";

const USAGE: &str = "nullsim info --bench <FILE> [OPTIONS]";

const PERIOD: &str = "The period of all flip-flops without a clock line, as for run; nothing\n\
     that is printed depends on it";

const ENDS: &str = ends!("nullsim info --bench examples/s27.bench");

static OPTIONS: [Described; 4] = [
    Described("bench", Takes::File, Absent::Refused, BENCH),
    Described("delays", Takes::File, Absent::Nothing, DELAYS),
    Described("delay", Takes::Number, Absent::Default("1"), DELAY),
    Described("period", Takes::Number, Absent::Default("10"), PERIOD),
];

/// Returns the subcommand with its options.
pub(super) fn subcommand<'a>(alloc: Global) -> Result<Command<'a>, AllocError> {
    subcommand_named(alloc, "info", ABOUT, USAGE, ENDS, &[OPTIONS.as_slice()])
}

/// Returns the order that its options give. There are no stimuli.
pub(super) fn order_given<'a>(options: &ArgMatches<'a>) -> Order<'a> {
    Order::Info {
        source: source_given(options, &ALONE, PickOptions::Nothing),
    }
}
