//! The subcommand `diff`: its options, and its order.
use crate::described::{Absent, Described, Takes, with_optional_table};
use crate::help::{ends, mistake, subcommand_named};
use crate::options::{
    ALONE, FIRST, FIRST_SIDE, LENGTH, OptionNames, SECOND, SECOND_SIDE, names_given, number_given,
    side_picks,
};
use crate::order::Order;
use crate::source_options::SourceOptions;
use clap::error::ErrorKind;
use clap::{ArgMatches, Command, Error};
use std::alloc::{AllocError, Global};
use wave_diff::DiffTicks;

const ABOUT: &str =
    "Compares nets in two runs and writes a line for each: y same, y only in first, or y differs 7 0 1\n\
     with the first tick at which it differs. The exit status is 5 unless all are the same";

const USAGE: &str = "nullsim diff --first <FILE> --second <FILE> --horizon <N> [OPTIONS]\n       \
     nullsim diff --bench <FILE> --horizon <N> [OPTIONS]";

const ENDS: &str = ends!(
    "nullsim diff --horizon 12 --nets p --first examples/parity.bench --first-stimuli examples/parity.stimuli --second examples/bigger.bench --second-stimuli examples/bigger.stimuli"
);

const NETS: &str = "The nets to compare, by their names in both circuits: names, ranges,\n\
     patterns or outputs, such as y,data[7:0],bit*; or all; without this\n\
     option the outputs of both";

const FROM: &str = "The first tick to compare: 0 up to the horizon";

const EVERY: &str = "Compare only at multiples of this number of ticks: at least 1";

static OPTIONS: [Described; 3] = [
    Described("nets", Takes::NetList, Absent::Nothing, NETS),
    Described("from", Takes::Number, Absent::Default("0"), FROM),
    Described("every", Takes::Number, Absent::Default("1"), EVERY),
];

// What holds for a side that has no such option of its own.

const BENCH: &str = "The circuit of a side without --first or --second";

const DELAYS: &str = "The timing for a side without --first-delays or --second-delays";

const STIMULI: &str = "The stimuli for a side without --first-stimuli or --second-stimuli";

const DELAY: &str = "The delay for a side without --first-delay or --second-delay";

const PERIOD: &str = "The period for a side without --first-period or --second-period";

static BOTH_SIDES: [Described; 5] = [
    Described("bench", Takes::File, Absent::Nothing, BENCH),
    Described("delays", Takes::File, Absent::Nothing, DELAYS),
    Described("stimuli", Takes::File, Absent::Nothing, STIMULI),
    Described("delay", Takes::Number, Absent::Default("1"), DELAY),
    Described("period", Takes::Number, Absent::Default("10"), PERIOD),
];

/// Returns the subcommand with its options.
pub(super) fn subcommand<'a>(alloc: Global) -> Result<Command<'a>, AllocError> {
    let command = subcommand_named(
        alloc,
        "diff",
        ABOUT,
        USAGE,
        ENDS,
        &[LENGTH.as_slice(), OPTIONS.as_slice(), BOTH_SIDES.as_slice()],
    )?;
    let command = with_optional_table(alloc, command, FIRST_SIDE.as_slice())?;
    with_optional_table(alloc, command, SECOND_SIDE.as_slice())
}

/// Returns the order that its options give.
///
/// # Errors
/// A usage error if a side has no circuit.
pub(super) fn order_given<'a>(alloc: Global, options: &ArgMatches<'a>) -> Result<Order<'a>, Error> {
    Ok(Order::Diff {
        first: side_given(alloc, options, &FIRST)?,
        second: side_given(alloc, options, &SECOND)?,
        names: names_given(alloc, options, "nets")?,
        ticks: DiffTicks {
            horizon: number_given(options, "horizon"),
            from: number_given(options, "from"),
            every: number_given(options, "every"),
        },
    })
}

/// Returns the files and settings of a side: its own, or else those of both sides.
fn side_given<'a>(
    alloc: Global,
    options: &ArgMatches<'a>,
    names: &OptionNames,
) -> Result<SourceOptions<'a>, Error> {
    let Some(bench) = file_given(options, names.bench, ALONE.bench) else {
        return Err(missing_circuit(alloc, names)?);
    };
    Ok(SourceOptions {
        bench,
        delays: file_given(options, names.delays, ALONE.delays),
        stimuli: file_given(options, names.stimuli, ALONE.stimuli),
        delay: setting_given(options, names.delay, ALONE.delay),
        period: setting_given(options, names.period, ALONE.period),
        picks: side_picks(options, names.schedule),
    })
}

fn file_given<'a>(options: &ArgMatches<'a>, own: &str, shared: &str) -> Option<&'a str> {
    match options.get_str(own) {
        Some(name) => Some(name),
        None => options.get_str(shared),
    }
}

fn setting_given(options: &ArgMatches<'_>, own: &str, shared: &str) -> u64 {
    match options.get_one(own) {
        Some(number) => number,
        None => number_given(options, shared),
    }
}

/// Returns the usage error that a side has no circuit.
fn missing_circuit(alloc: Global, names: &OptionNames) -> Result<Error, AllocError> {
    let text = format!(in alloc;
        "the following required arguments were not provided:\n  --{} <FILE>, or --bench <FILE> for both sides",
        names.bench
    )?;
    mistake(alloc, ErrorKind::MissingRequiredArgument, text.as_str())
}
