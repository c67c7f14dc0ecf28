//! The options that several subcommands take, and their values.
use crate::described::{Absent, Described, Takes};
use crate::source_options::{PickOptions, SourceOptions};
use clap::ArgMatches;
use prepared_runs::{DumpView, Selection};
use std::alloc::{AllocError, Global};
use vcd_dump::TimeUnit;

/// The names of the options of a run.
#[derive(Clone, Copy)]
pub(super) struct OptionNames {
    pub(super) bench: &'static str,
    pub(super) delays: &'static str,
    pub(super) stimuli: &'static str,
    pub(super) schedule: &'static str,
    pub(super) delay: &'static str,
    pub(super) period: &'static str,
}

pub(super) static ALONE: OptionNames = OptionNames {
    bench: "bench",
    delays: "delays",
    stimuli: "stimuli",
    schedule: "schedule",
    delay: "delay",
    period: "period",
};

pub(super) static FIRST: OptionNames = OptionNames {
    bench: "first",
    delays: "first-delays",
    stimuli: "first-stimuli",
    schedule: "first-schedule",
    delay: "first-delay",
    period: "first-period",
};

pub(super) static SECOND: OptionNames = OptionNames {
    bench: "second",
    delays: "second-delays",
    stimuli: "second-stimuli",
    schedule: "second-schedule",
    delay: "second-delay",
    period: "second-period",
};

// The help of each option.

pub(super) const BENCH: &str = "The circuit, in ISCAS-89 .bench notation: lines such as INPUT(a),\n\
     OUTPUT(y), y = NAND(a, q), q = DFF(y)";

pub(super) const DELAYS: &str =
    "The timing of particular gates and flip-flops: lines NAME TICKS, such\n\
     as y 3; or the line timing version 2, followed by lines such as\n\
     delay y 3, wire y 1 2, clock q 4 1 and init q 0";

const STIMULI: &str = "What drives the inputs: lines TICK NAME VALUE, such as 40 a 1, where\n\
     VALUE is 0, 1 or x; an input is x before its first line";

pub(super) const DELAY: &str = "The delay of all other gates and flip-flops: 1 to 1000000 ticks";

const PERIOD: &str = "The period of all flip-flops without a clock line; they sample their\n\
     data at its multiples: 1 to 10000000 ticks";

pub(super) const SCHEDULE: &str =
    "The events to apply first: lines advance NAME and deliver NAME PLACE;\n\
     the values of the nets don't depend on them";

const HORIZON: &str = "The last tick of the run: 0 to 10000000";

const SHOW: &str = "The nets to show: all or outputs";

const NETS: &str = "The nets to show, in this order: names, ranges, patterns or outputs, such\n\
     as y,data[7:0],bit*; can't be used with --show";

const UNIT: &str = "The length of a tick in the dump: s, ms, us, ns, ps or fs";

const PROGRESS: &str = "Also show the percentage of completed ticks on standard error, on one\n\
     line that is updated";

/// The options of a run except its horizon and its picks.
pub(super) static SOURCE: [Described; 5] = [
    Described("bench", Takes::File, Absent::Refused, BENCH),
    Described("delays", Takes::File, Absent::Nothing, DELAYS),
    Described("stimuli", Takes::File, Absent::Nothing, STIMULI),
    Described("delay", Takes::Number, Absent::Default("1"), DELAY),
    Described("period", Takes::Number, Absent::Default("10"), PERIOD),
];

/// The options of the first of two runs.
pub(super) static FIRST_SIDE: [Described; 6] = [
    Described("first", Takes::File, Absent::Refused, BENCH),
    Described("first-delays", Takes::File, Absent::Nothing, DELAYS),
    Described("first-stimuli", Takes::File, Absent::Nothing, STIMULI),
    Described("first-delay", Takes::Number, Absent::Default("1"), DELAY),
    Described("first-period", Takes::Number, Absent::Default("10"), PERIOD),
    Described("first-schedule", Takes::File, Absent::Nothing, SCHEDULE),
];

/// The options of the second of two runs.
pub(super) static SECOND_SIDE: [Described; 6] = [
    Described("second", Takes::File, Absent::Refused, BENCH),
    Described("second-delays", Takes::File, Absent::Nothing, DELAYS),
    Described("second-stimuli", Takes::File, Absent::Nothing, STIMULI),
    Described("second-delay", Takes::Number, Absent::Default("1"), DELAY),
    Described(
        "second-period",
        Takes::Number,
        Absent::Default("10"),
        PERIOD,
    ),
    Described("second-schedule", Takes::File, Absent::Nothing, SCHEDULE),
];

/// The length of a run.
pub(super) static LENGTH: [Described; 1] = [Described(
    "horizon",
    Takes::Number,
    Absent::Refused,
    HORIZON,
)];

/// The nets that a run shows.
pub(super) static SHOWN: [Described; 2] = [
    Described(
        "show",
        Takes::Word("WHICH", &["all", "outputs"]),
        Absent::Default("all"),
        SHOW,
    ),
    Described("nets", Takes::NetListFor("show"), Absent::Nothing, NETS),
];

/// The other option of a dump.
pub(super) static UNITS: [Described; 1] = [Described(
    "unit",
    Takes::Word("UNIT", &["s", "ms", "us", "ns", "ps", "fs"]),
    Absent::Default("ns"),
    UNIT,
)];

/// Whether a run reports its progress.
pub(super) static REPORTED: [Described; 1] = [Described(
    "progress",
    Takes::Nothing,
    Absent::Nothing,
    PROGRESS,
)];

pub(super) fn source_given<'a>(
    options: &ArgMatches<'a>,
    names: &OptionNames,
    picks: PickOptions<'a>,
) -> SourceOptions<'a> {
    SourceOptions {
        bench: options.get_str(names.bench).unwrap_or(""),
        delays: options.get_str(names.delays),
        stimuli: options.get_str(names.stimuli),
        delay: number_given(options, names.delay),
        period: number_given(options, names.period),
        picks,
    }
}

/// Returns the nets to show: those with the names that are given, if any.
pub(super) fn selection_given<'a>(
    alloc: Global,
    options: &ArgMatches<'a>,
) -> Result<Selection<'a>, AllocError> {
    if options.get_strs("nets").is_some() {
        return Ok(Selection::Named(names_given(alloc, options, "nets")?));
    }
    match options.get_str("show") {
        Some("outputs") => Ok(Selection::Outputs),
        _ => Ok(Selection::All),
    }
}

pub(super) fn view_given<'a>(
    alloc: Global,
    options: &ArgMatches<'a>,
) -> Result<DumpView<'a>, AllocError> {
    let unit = match options.get_str("unit") {
        Some("s") => TimeUnit::S,
        Some("ms") => TimeUnit::Ms,
        Some("us") => TimeUnit::Us,
        Some("ps") => TimeUnit::Ps,
        Some("fs") => TimeUnit::Fs,
        _ => TimeUnit::Ns,
    };
    Ok(DumpView {
        horizon: number_given(options, "horizon"),
        show: selection_given(alloc, options)?,
        unit,
    })
}

/// Returns the number of an option that is required or has a default.
pub(super) fn number_given(options: &ArgMatches<'_>, id: &str) -> u64 {
    options.get_one(id).unwrap_or(0)
}

/// Returns what picks the events of one of two runs.
pub(super) fn side_picks<'a>(options: &ArgMatches<'a>, id: &str) -> PickOptions<'a> {
    match options.get_str(id) {
        Some(name) => PickOptions::File(name),
        None => PickOptions::Nothing,
    }
}

/// Returns the names of nets that an option gives: the pieces between its commas, empty ones too.
pub(super) fn names_given<'a>(
    alloc: Global,
    options: &ArgMatches<'a>,
    id: &str,
) -> Result<Vec<&'a [u8]>, AllocError> {
    options
        .get_strs(id)
        .unwrap_or(&[])
        .iter()
        .map(|name| name.as_bytes())
        .collect(alloc)
}
