//! What the arguments of the program ask for.
ghost use Rattle.std.specs.Prelude.{◌≡◌};
ghost use Rattle.netlist.specs.Names.{seen_names};
ghost use Rattle.prepared_runs.specs.RunTexts.{seen};
ghost use Rattle.command_line.specs.Orders.{bench_alone, files_on, last_tick, name_shown, names_asked, names_of, names_shown, options_on};

use crate::source_options::{Files, SourceOptions, file_of_bench, names_of_files};
use drawn_stimuli::{Draws, Driven};
use prepared_runs::{DiagramView, DumpView, RunTexts, Selection};
use std::slice::from_ref;
use timing_diagram::Form;
use wave_diff::{DiffTicks, Side};

/// A command with its options. The numbers may be out of their ranges.
#[derive(Debug, Drop)]
pub enum Order<'a> {
    /// Write the dump of a run, by the kernel.
    Run {
        source: SourceOptions<'a>,
        view: DumpView<'a>,
        /// Whether to print the counts.
        counts: bool,
    },
    /// Write the dump of a run, by the plain engine. No events are picked.
    Plain {
        source: SourceOptions<'a>,
        view: DumpView<'a>,
    },
    /// Write the timing diagram of a run. No events are picked.
    Draw {
        source: SourceOptions<'a>,
        view: DiagramView<'a>,
        form: Form,
    },
    /// Write the trace of a run.
    Trace {
        source: SourceOptions<'a>,
        /// The last tick of the run: at most 10,000,000.
        horizon: u64,
        /// Whether events that do nothing have a line.
        idle: bool,
        /// The net whose events alone have a line, if one is named.
        net: Option<&'a [u8]>,
    },
    /// Write the table of the frontiers of a run's nets by rounds.
    Frontiers {
        source: SourceOptions<'a>,
        /// The last tick of the run: at most 10,000,000.
        horizon: u64,
        /// Which nets have a column, from left to right.
        show: Selection<'a>,
    },
    /// Write why a net has its value at a tick. No events are picked.
    Why {
        source: SourceOptions<'a>,
        net: &'a [u8],
        /// The tick, which is the last one of the run: at most 10,000,000.
        tick: u64,
    },
    /// Write a stimulus text for the inputs of a netlist.
    Stimuli {
        bench: &'a str,
        /// What drives inputs by name. The values of all others are drawn, if any are.
        drives: Vec<Driven<'a>>,
        draws: Draws,
        /// The last tick of the text: at most 10,000,000.
        horizon: u64,
    },
    /// Write the description of a circuit in numbers and names. No events are picked.
    Info {
        source: SourceOptions<'a>,
    },
    /// Write the nets in the fan-in cones of these names, in the .bench notation.
    Cone {
        bench: &'a str,
        names: Vec<&'a [u8]>,
    },
    /// Write for each of these nets whether it shows the same in two runs.
    Diff {
        first: SourceOptions<'a>,
        second: SourceOptions<'a>,
        /// The words for the nets, or `all`; if there are none, the outputs of both runs are compared.
        names: Vec<&'a [u8]>,
        ticks: DiffTicks,
    },
    /// Write whether two runs agree on the fan-in cone of a net, and what the net shows in both.
    Twin {
        first: SourceOptions<'a>,
        second: SourceOptions<'a>,
        net: &'a [u8],
        /// The last tick of both runs: at most 10,000,000.
        horizon: u64,
    },
    /// Write for how many nets the kernel and the plain engine give the same waveform.
    Check {
        source: SourceOptions<'a>,
        /// The last tick: at most 10,000,000.
        horizon: u64,
    },
}

impl<'a> Order<'a> {
    /// Returns the options of the run on a side. An order of one run has it on the first side.
    pub fn options(&self, side: Side) -> Option<SourceOptions<'a>>
        ensures { result ≡ options_on self.now side }
    {
        match (self, side) {
            (
                Order::Run { source, .. }
                | Order::Plain { source, .. }
                | Order::Draw { source, .. }
                | Order::Trace { source, .. }
                | Order::Frontiers { source, .. }
                | Order::Why { source, .. }
                | Order::Info { source }
                | Order::Check { source, .. },
                Side::First,
            ) => Some(*source),
            (Order::Diff { first, .. } | Order::Twin { first, .. }, Side::First) => Some(*first),
            (Order::Diff { second, .. } | Order::Twin { second, .. }, Side::Second) => Some(
                *second,
            ),
            _ => None,
        }
    }

    /// Returns the files of the run on a side; a netlist's file alone is on the first side.
    pub fn files(&self, side: Side) -> Files<'a>
        ensures { result ≡ files_on self.now side }
    {
        match self.options(side) {
            Some(options) => options.files(),
            None => file_of_bench(self.bench_alone(side)),
        }
    }

    /// Returns the names that a fault on this side gives to the texts: those of their files.
    pub fn text_names(&self, side: Side) -> RunTexts<&'a str>
        ensures { seen result ≡ names_of self.now side }
    {
        names_of_files(&self.files(side))
    }

    /// Returns the last tick that the order gives, if it gives one: at most 10,000,000, unless it is refused.
    pub fn last_tick(&self) -> Option<u64>
        ensures { result ≡ last_tick self.now }
    {
        match self {
            Order::Run { view, .. } | Order::Plain { view, .. } => Some(view.horizon),
            Order::Draw { view, .. } => Some(view.horizon),
            Order::Why { tick, .. } => Some(*tick),
            Order::Diff { ticks, .. } => Some(ticks.horizon),
            Order::Trace { horizon, .. }
            | Order::Frontiers { horizon, .. }
            | Order::Check { horizon, .. }
            | Order::Twin { horizon, .. }
            | Order::Stimuli { horizon, .. } => Some(*horizon),
            Order::Info { .. } | Order::Cone { .. } => None,
        }
    }

    /// Returns the names of nets, or words for nets, that the order gives.
    pub fn names<'o>(&'o self) -> &'o [&'a [u8]]
        ensures { seen_names result.now ≡ names_asked self.now }
    {
        match self {
            Order::Run { view, .. } | Order::Plain { view, .. } => names_shown(&view.show),
            Order::Draw { view, .. } => names_shown(&view.show),
            Order::Trace { net, .. } => name_shown(net),
            Order::Frontiers { show, .. } => names_shown(show),
            Order::Why { net, .. } | Order::Twin { net, .. } => from_ref(net),
            Order::Cone { names, .. } | Order::Diff { names, .. } => names.as_slice(),
            Order::Check { .. } | Order::Stimuli { .. } | Order::Info { .. } => &[],
        }
    }

    /// Returns the file of a netlist that isn't run.
    fn bench_alone(&self, side: Side) -> Option<&'a str>
        ensures { result ≡ bench_alone self.now side }
    {
        match (self, side) {
            (Order::Cone { bench, .. } | Order::Stimuli { bench, .. }, Side::First) => Some(bench),
            _ => None,
        }
    }
}

fn names_shown<'o, 'a>(show: &'o Selection<'a>) -> &'o [&'a [u8]]
    ensures { seen_names result.now ≡ names_shown show.now }
{
    match show {
        Selection::Named(names) => names.as_slice(),
        Selection::All | Selection::Outputs => &[],
    }
}

fn name_shown<'o, 'a>(net: &'o Option<&'a [u8]>) -> &'o [&'a [u8]]
    ensures { seen_names result.now ≡ name_shown net.now }
{
    match net {
        Some(name) => from_ref(name),
        None => &[],
    }
}
