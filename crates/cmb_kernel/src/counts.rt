ghost use Rattle.std.specs.Prelude.{◌≡◌, ◌+◌, ◌^◌, ◌<◌, length};
ghost use Rattle.cmb_kernel.specs.Step.{counted, counted_silent};

use cmb_channels::Packed;

/// How much has happened in a kernel since it was made.
#[derive(Clone, Copy, Debug, PartialEq, Eq)]
pub struct Counts {
    /// The events applied, useful or not, including those of rounds. Saturates at `u64::MAX`.
    pub events: u64,
    /// The changes that advances sent, each once, however many pins the net feeds.
    pub changes: u64,
    /// The null messages that advances sent, counted in the same way.
    pub nulls: u64,
    /// The rounds. Saturates at `u64::MAX`.
    pub rounds: u64,
}

impl Counts {
    /// Counts an event that sent these messages.
    pub(crate) fn add_event(&mut self, messages: &[Packed])
        requires { self.old.changes + self.old.nulls + length messages.now < 2 ^ 64 }
        ensures { self.new ≡ counted self.old messages.now }
    {
        self.events = self.events.saturating_add(1);
        for message in messages {
            match message.change() {
                Some(_) => self.changes += 1,
                None => self.nulls += 1,
            }
        }
    }

    /// Counts this number of events that sent nothing.
    pub(crate) fn add_silent(&mut self, events: u64)
        ensures { self.new ≡ counted_silent events self.old }
    {
        self.events = self.events.saturating_add(events);
    }
}
