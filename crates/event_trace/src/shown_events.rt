//! The events that have a line in a trace.
ghost use Rattle.std.specs.Prelude.{◌≡◌, List};
ghost use Rattle.logic3.specs.declared.change.Change.{Change};
ghost use Rattle.event_trace.specs.ShownLines.{shows_event, shows_net};
ghost use Rattle.event_trace.specs.Told.{told_by};

/// The events that have a line in a trace.
#[derive(Clone, Copy, Debug, PartialEq, Eq)]
pub struct ShownEvents {
    /// Whether events that do nothing are among them.
    pub idle: bool,
    /// The net whose events alone are among them; `None` for those of all nets.
    pub net: Option<u32>,
}

/// All events.
pub const EVERY_EVENT: ShownEvents = ShownEvents {
    idle: true,
    net: None,
};

impl ShownEvents {
    /// Returns whether they have an event of a net that sends or takes what makes a signal known from one tick
    /// up to another.
    pub(crate) fn shows(self, net: u32, from: u64, to: u64) -> bool
        ensures { (changes : List Change) → result ≡ shows_event self net (told_by changes from to) }
    {
        self.shows_net(net) && (self.idle || to != from)
    }

    fn shows_net(self, net: u32) -> bool
        ensures { result ≡ shows_net self.net net }
    {
        match self.net {
            Some(only) => only == net,
            None => true,
        }
    }
}
