//! The options that pick the events to apply first, and their values.
use crate::described::{Absent, Described, Takes};
use crate::help::mistake;
use crate::options::{SCHEDULE, number_given};
use crate::source_options::PickOptions;
use clap::error::ErrorKind;
use clap::{ArgMatches, Error};
use std::alloc::Global;

const SEED: &str = "The seed of the drawn events: 0 to 18446744073709551615; it affects the\n\
     order of work, not the stimuli";

const PICKS: &str = "The number of events to draw in place of a schedule: 0 to 10000000; the\n\
     values of the nets don't depend on them";

const BOTH: &str = "the argument '--schedule <FILE>' cannot be used with '--picks <N>' above 0";

pub(super) static PICKED: [Described; 3] = [
    Described("schedule", Takes::File, Absent::Nothing, SCHEDULE),
    Described("seed", Takes::Number, Absent::Default("0"), SEED),
    Described("picks", Takes::Number, Absent::Default("0"), PICKS),
];

/// Returns what the options pick. A seed without events to draw is kept, so that a note can mention it.
///
/// # Errors
/// A usage error if there is a schedule as well as events to draw.
pub(super) fn picks_given<'a>(
    alloc: Global,
    options: &ArgMatches<'a>,
) -> Result<PickOptions<'a>, Error> {
    let seed = number_given(options, "seed");
    match (options.get_str("schedule"), number_given(options, "picks")) {
        (None, 0) if seed == 0 => Ok(PickOptions::Nothing),
        (Some(name), 0) => Ok(PickOptions::File(name)),
        (None, picks) => Ok(PickOptions::Seeded { seed, picks }),
        (Some(_), _) => Err(mistake(alloc, ErrorKind::ArgumentConflict, BOTH)?),
    }
}
