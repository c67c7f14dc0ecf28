//! The messages that wait at a pin.
ghost use Rattle.std.specs.Prelude.{◌≡◌, ◌==◌, ◌<◌, ◌^◌, length, slice_get, Some};
ghost use Rattle.cmb_channels.specs.declared.message.Message.{Message};
ghost use Rattle.cmb_channels.specs.Logs.{tick_said};
ghost use Rattle.cmb_channels.specs.Packed.{packed_ticks};
ghost use Rattle.cmb_channels.specs.Parts.{messages_in};

use crate::message::Message;
use crate::packed::Packed;
use std::marker::Model;

/// Messages that wait at a pin, the oldest first: a part of the log of its source.
#[derive(Debug, Drop)]
pub struct Waiting<'l> {
    part: Part<'l>,
}

/// Messages one after another, packed or not.
#[derive(Clone, Copy, Debug)]
pub enum Part<'l> {
    Packed(&'l [Packed]),
    Wide(&'l [Message]),
}

impl<'l> Part<'l> {
    /// Returns the number of messages.
    pub fn len(&self) -> usize
        ensures { result ≡ length (messages_in self.now) }
    {
        match self {
            Part::Packed(messages) => messages.len(),
            Part::Wide(messages) => messages.len(),
        }
    }

    /// Returns whether there are none.
    pub fn is_empty(&self) -> bool
        ensures { result ≡ (length (messages_in self.now) == 0) }
    {
        self.len() == 0
    }
}

impl<'l> Model for Waiting<'l> {
    ghost use Rattle.std.specs.Prelude.{◌<◌, ◌^◌, List, length};
    ghost use Rattle.cmb_channels.specs.declared.message.Message.{Message};
    ghost use Rattle.cmb_channels.specs.Parts.{messages_in};

    ghost Value = { List Message };

    ghost view = { λ w. messages_in w.part };

    ghost invariant = { λ w. length (messages_in w.part) < 2 ^ 63 };
}

impl<'l> Waiting<'l> {
    /// Returns these messages.
    pub(super) fn packed(messages: &'l [Packed]) -> Waiting<'l>
        ensures { result ≡ messages.now }
    {
        Waiting {
            part: Part::Packed(messages),
        }
    }

    /// Returns these messages.
    pub(super) fn wide(messages: &'l [Message]) -> Waiting<'l>
        ensures { result ≡ messages.now }
    {
        Waiting {
            part: Part::Wide(messages),
        }
    }

    /// Returns the number of messages.
    pub fn len(&self) -> usize
        ensures { result ≡ length self.now }
    {
        self.part.len()
    }

    /// Returns the message at a place, from 0 on, if there is one.
    pub fn get(&self, place: usize) -> Option<Message>
        ensures message { result ≡ slice_get self.now place }
        ensures few { length self.now < 2 ^ 63 }
    {
        match self.part {
            Part::Packed(messages) => Some(messages.get(place)?.message()),
            Part::Wide(messages) => Some(*messages.get(place)?),
        }
    }

    /// Returns the message at a place, from 0 on, if there is one, in four bytes. Its tick has to be below 2^30,
    /// as all ticks of a run are.
    pub fn packed_at(&self, place: usize) -> Option<Packed>
        requires { (message : Message) → slice_get self.now place ≡ Some message → tick_said message < packed_ticks }
        ensures message { result ≡ slice_get self.now place }
        ensures few { length self.now < 2 ^ 63 }
    {
        match self.part {
            Part::Packed(messages) => Some(*messages.get(place)?),
            Part::Wide(messages) => Some(Packed::of(*messages.get(place)?)),
        }
    }
}
