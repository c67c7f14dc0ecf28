//! What of a run its dump or its diagram shows.
ghost use Rattle.std.specs.Prelude.{◌≡◌};
ghost use Rattle.prepared_runs.specs.Views.{dump_view, selection_of};

use vcd_dump::TimeUnit;

/// What of a run its dump shows.
#[derive(Clone, Copy, Debug, PartialEq, Eq)]
pub struct View {
    /// The last tick: at most 10,000,000.
    pub horizon: u64,
    pub show: Show,
    /// The unit of the ticks.
    pub unit: TimeUnit,
}

/// Which nets a dump shows.
#[derive(Clone, Copy, Debug, PartialEq, Eq)]
pub enum Show {
    /// All nets, in the order of their numbers.
    All,
    /// The outputs, in their order.
    Outputs,
}

/// What of a run its dump shows, with nets also selected by their names.
#[derive(Debug, Drop)]
pub struct DumpView<'a> {
    /// The last tick: at most 10,000,000.
    pub horizon: u64,
    pub show: Selection<'a>,
    /// The unit of the ticks.
    pub unit: TimeUnit,
}

/// What a timing diagram shows of a run.
#[derive(Debug, Drop)]
pub struct DiagramView<'a> {
    /// Which nets it shows, from top to bottom.
    pub show: Selection<'a>,
    /// The words of the buses that it shows after the nets, such as `data[7:0]`.
    pub buses: Vec<&'a [u8]>,
    /// The last tick of the run: at most 10,000,000.
    pub horizon: u64,
    /// The first tick that is drawn.
    pub from: u64,
    /// The last tick that is drawn: at most the horizon.
    pub to: u64,
    /// The number of ticks of a column: at least 1, and enough for at most 1,000 columns.
    pub step: u64,
    /// Whether a column shows the value at its last tick, whatever is before it.
    pub at_end: bool,
}

/// Which nets a dump or a diagram shows.
#[derive(Debug, Drop)]
pub enum Selection<'a> {
    /// All nets, in the order of their numbers.
    All,
    /// The outputs, in their order.
    Outputs,
    /// The nets of these names, in this order; a name that is repeated counts at its first place.
    Named(Vec<&'a [u8]>),
}

impl DumpView<'static> {
    /// Returns the view of a dump that shows the same as a view.
    pub fn of(view: &View) -> DumpView<'static>
        ensures { result ≡ dump_view view.now }
    {
        DumpView {
            horizon: view.horizon,
            show: Selection::of(view.show),
            unit: view.unit,
        }
    }
}

impl Selection<'static> {
    /// Returns the selection of the same nets.
    fn of(show: Show) -> Selection<'static>
        ensures { result ≡ selection_of show }
    {
        match show {
            Show::All => Selection::All,
            Show::Outputs => Selection::Outputs,
        }
    }
}
