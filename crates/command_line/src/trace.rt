//! The subcommand `trace`: its options, and its order.
use crate::described::{Absent, Described, Takes};
use crate::help::{ends, subcommand_named};
use crate::options::{ALONE, LENGTH, SOURCE, number_given, selection_given, source_given};
use crate::order::Order;
use crate::picks::{PICKED, picks_given};
use clap::{ArgMatches, Command, Error};
use std::alloc::{AllocError, Global};

const ABOUT: &str =
    "Simulates a circuit by processes that exchange messages, and writes a line for each event, such\n\
     as advance a 0 -> 6: 0@0 1@3 null 6 or deliver y 0: 1@3";

const USAGE: &str = "nullsim trace --bench <FILE> --horizon <N> [OPTIONS]";

const ENDS: &str = ends!(
    "nullsim trace --bench examples/hazard.bench --stimuli examples/hazard.stimuli --horizon 8 --net y"
);

const NO_IDLE: &str = "Leave out the events that do nothing: the lines that end in idle";

const NET: &str = "Only the events of this net, by name: the lines advance NAME and deliver\n\
     NAME";

const FRONTIERS: &str =
    "In place of events, write a table of frontiers: the number of known ticks of\n\
     each net at the start and after each round";

const NETS: &str = "The nets in the table, in this order: names, ranges, patterns or outputs,\n\
     such as y,data[7:0],bit*; only with --frontiers";

static OPTIONS: [Described; 4] = [
    Described("no-idle", Takes::Nothing, Absent::Nothing, NO_IDLE),
    Described("net", Takes::Net, Absent::Nothing, NET),
    Described(
        "frontiers",
        Takes::NothingFor(&["no-idle", "net"]),
        Absent::Nothing,
        FRONTIERS,
    ),
    Described(
        "nets",
        Takes::NetListWith("frontiers"),
        Absent::Nothing,
        NETS,
    ),
];

/// Returns the subcommand with its options.
pub(super) fn subcommand<'a>(alloc: Global) -> Result<Command<'a>, AllocError> {
    subcommand_named(
        alloc,
        "trace",
        ABOUT,
        USAGE,
        ENDS,
        &[
            SOURCE.as_slice(),
            LENGTH.as_slice(),
            PICKED.as_slice(),
            OPTIONS.as_slice(),
        ],
    )
}

/// Returns the order that its options give.
pub(super) fn order_given<'a>(alloc: Global, options: &ArgMatches<'a>) -> Result<Order<'a>, Error> {
    let source = source_given(options, &ALONE, picks_given(alloc, options)?);
    let horizon = number_given(options, "horizon");
    if options.get_flag("frontiers") {
        let show = selection_given(alloc, options)?;
        return Ok(Order::Frontiers {
            source,
            horizon,
            show,
        });
    }
    Ok(Order::Trace {
        source,
        horizon,
        idle: !options.get_flag("no-idle"),
        net: options.get_str("net").map(|name| name.as_bytes()),
    })
}
