//! The files of a run and its settings, as options give them.
ghost use Rattle.std.specs.Prelude.{◌≡◌};
ghost use Rattle.prepared_runs.specs.Events.{seen_picks};
ghost use Rattle.prepared_runs.specs.RunTexts.{seen};
ghost use Rattle.prepared_runs.specs.Source.{seen_source};
ghost use Rattle.command_line.specs.Sources.{drawn_note, file_of_bench, files_of_options, names_of_files, picks_note, picks_of_options, schedule_file, source_from};

use prepared_runs::{Picks, RunTexts, SECTIONS, Source};

/// The names of a run's files, and its settings.
#[derive(Clone, Copy, Debug)]
pub struct SourceOptions<'a> {
    /// The file of the netlist, in the .bench notation.
    pub bench: &'a str,
    /// The file of the delays of some gates and flip-flops, if any.
    pub delays: Option<&'a str>,
    /// The file of the changes of the inputs, if any.
    pub stimuli: Option<&'a str>,
    /// The delay in ticks of the gates and flip-flops without a delay line: 1 to 1,000,000.
    pub delay: u64,
    /// The period in ticks of all flip-flops without a clock line: 1 to 10,000,000.
    pub period: u64,
    pub picks: PickOptions<'a>,
}

/// What picks the events to apply before a run completes.
#[derive(Clone, Copy, Debug)]
pub enum PickOptions<'a> {
    /// There are none.
    Nothing,
    /// The schedule in the file with this name.
    File(&'a str),
    /// A generator of pseudo-random numbers.
    Seeded {
        seed: u64,
        /// The number of events: at most 10,000,000.
        picks: u64,
    },
}

/// The names of a run's files; `None` for a text without a file.
pub type Files<'a> = RunTexts<Option<&'a str>>;

/// The texts of a run's files. The text of a file that isn't named is empty.
pub type ReadTexts = RunTexts<Vec<u8>>;

/// Returns the file of a netlist, and no other.
pub(crate) fn file_of_bench<'a>(bench: Option<&'a str>) -> Files<'a>
    ensures { result ≡ file_of_bench bench.entry }
{
    RunTexts {
        bench,
        delays: None,
        stimuli: None,
        schedule: None,
    }
}

/// Returns the names of these files. A text without a file has the name of its section in a deck.
pub(crate) fn names_of_files<'a>(files: &Files<'a>) -> RunTexts<&'a str>
    ensures { seen result ≡ names_of_files files.now }
{
    RunTexts {
        bench: files.bench.unwrap_or(SECTIONS.bench),
        delays: files.delays.unwrap_or(SECTIONS.delays),
        stimuli: files.stimuli.unwrap_or(SECTIONS.stimuli),
        schedule: files.schedule.unwrap_or(SECTIONS.schedule),
    }
}

impl<'a> SourceOptions<'a> {
    /// Returns the files that are named.
    pub(crate) fn files(&self) -> Files<'a>
        ensures { result ≡ files_of_options self.now }
    {
        RunTexts {
            bench: Some(self.bench),
            delays: self.delays,
            stimuli: self.stimuli,
            schedule: self.picks.file(),
        }
    }

    /// Returns the source that consists of these texts and the settings.
    pub fn source<'t>(&self, texts: &'t ReadTexts) -> Source<'t>
        ensures { seen_source result ≡ source_from self.now texts.now }
    {
        Source {
            bench: texts.bench.as_slice(),
            delays: texts.delays.as_slice(),
            stimuli: texts.stimuli.as_slice(),
            default_delay: self.delay,
            period: self.period,
            picks: self.picks.picks(texts.schedule.as_slice()),
        }
    }
}

impl<'a> PickOptions<'a> {
    /// Returns the note on a seed that is given although no events are drawn, or the empty text.
    pub fn note(&self) -> &'static str
        ensures { result.now ≡ picks_note self.now }
    {
        match *self {
            PickOptions::Seeded { picks, .. } => drawn_note(picks),
            PickOptions::Nothing | PickOptions::File(_) => "",
        }
    }

    /// Returns the file of the schedule, if any.
    fn file(&self) -> Option<&'a str>
        ensures { result ≡ schedule_file self.now }
    {
        match self {
            PickOptions::File(name) => Some(name),
            PickOptions::Nothing | PickOptions::Seeded { .. } => None,
        }
    }

    /// Returns what picks the events, given the text of the schedule's file.
    fn picks<'t>(&self, schedule: &'t [u8]) -> Picks<'t>
        ensures { seen_picks result ≡ picks_of_options self.now schedule.now }
    {
        match *self {
            PickOptions::Nothing => Picks::Nothing,
            PickOptions::File(_) => Picks::Text(schedule),
            PickOptions::Seeded { seed, picks } => Picks::Seeded { seed, picks },
        }
    }
}

fn drawn_note(picks: u64) -> &'static str
    ensures { result.now ≡ drawn_note picks }
{
    if picks == 0 {
        "note: --seed has no effect without --picks\n"
    } else {
        ""
    }
}
