//! The subjects of faults.
ghost use Rattle.std.specs.Prelude.{◌≡◌};
ghost use Rattle.mistakes.specs.Subjects.{example_circuit, subject_number, title_of};

/// What a fault may be about: a text, or what the arguments request.
#[derive(Clone, Copy, Debug, PartialEq, Eq)]
pub enum Subject {
    Bench,
    Delays,
    Stimuli,
    Schedule,
    Deck,
    /// The default delay, the period and the horizon.
    Settings,
    /// The columns of a timing diagram.
    Columns,
    /// The drives of inputs.
    Drives,
    /// The ticks at which runs are compared.
    Ticks,
    /// The nets that the arguments name.
    Names,
    /// Reading, writing and memory.
    Program,
}

impl Subject {
    /// Returns the number of the subject.
    pub fn number(self) -> u64
        ensures { result ≡ subject_number self }
    {
        match self {
            Subject::Bench => 0,
            Subject::Delays => 1,
            Subject::Stimuli => 2,
            Subject::Schedule => 3,
            Subject::Deck => 4,
            Subject::Settings => 5,
            Subject::Columns => 6,
            Subject::Drives => 7,
            Subject::Ticks => 8,
            Subject::Names => 9,
            Subject::Program => 10,
        }
    }

    /// Returns the title of the subject.
    pub fn title(self) -> &'static str
        ensures { result.now ≡ title_of self }
    {
        match self {
            Subject::Bench => ".bench text",
            Subject::Delays => "delay text",
            Subject::Stimuli => "stimulus text",
            Subject::Schedule => "schedule text",
            Subject::Deck => "deck",
            Subject::Settings => "settings",
            Subject::Columns => "columns of draw",
            Subject::Drives => "drives of stimuli",
            Subject::Ticks => "ticks of diff",
            Subject::Names => "net names in arguments",
            Subject::Program => "reading and writing",
        }
    }

    /// Returns the circuit that its examples are for, if any.
    pub fn circuit(self) -> &'static str
        ensures { result.now ≡ example_circuit self }
    {
        match self {
            Subject::Delays | Subject::Stimuli | Subject::Schedule =>
                " with INPUT(a), y = NAND(a, q), q = DFF(y)",
            _ => "",
        }
    }
}
