//! The messages of a log.
ghost use Rattle.std.specs.Prelude.{◌≡◌, ◌<◌, ◌≤◌, nat_lt, [], ◌++◌, ◌^◌, length, drop, All, IfOk, OnOk, OnErr};
ghost use Rattle.std.specs.List.{list_all};
ghost use Rattle.cmb_channels.specs.Logs.{tick_said};
ghost use Rattle.cmb_channels.specs.Packed.{packed_ticks};
ghost use Rattle.cmb_channels.specs.Parts.{messages_in};

use crate::logs::waiting::{Part, Waiting};
use crate::message::Message;
use crate::packed::Packed;
use smallvec::SmallVec;
use std::alloc::{AllocError, Global};
use std::marker::Model;

// Up to this number of messages need no allocation.
const FEW: usize = 4;

/// Messages, the oldest first: in four bytes each while all of them fit, and from then on in 24.
#[derive(Debug, Drop)]
pub struct Messages {
    stored: Stored,
}

#[derive(Debug, Drop)]
enum Stored {
    Packed(SmallVec<Packed, FEW>),
    Wide(Vec<Message>),
}

impl Model for Messages {
    ghost use Rattle.std.specs.Prelude.{List};
    ghost use Rattle.cmb_channels.specs.declared.message.Message.{Message};
    ghost use Rattle.cmb_channels.specs.Stored.{stored_messages};

    ghost Value = { List Message };

    ghost view = { λ m. stored_messages m.stored };
}

impl Messages {
    /// Returns no messages.
    pub fn new(alloc: Global) -> Messages
        ensures { result ≡ [] }
    {
        Messages {
            stored: Stored::Packed(SmallVec::new(alloc)),
        }
    }

    /// Returns the number of messages.
    pub fn len(&self) -> usize
        ensures len { result ≡ length self.now }
        ensures few { result < 2 ^ 63 }
    {
        match &self.stored {
            Stored::Packed(packed) => packed.as_slice().len(),
            Stored::Wide(wide) => wide.len(),
        }
    }

    /// Returns how many messages more there is room for, if they fit as those before do.
    pub fn room(&self) -> usize {
        match &self.stored {
            Stored::Packed(packed) => packed.capacity() - packed.len(),
            Stored::Wide(wide) => wide.capacity() - wide.len(),
        }
    }

    /// Returns the messages from a place on.
    pub fn from(&self, place: usize) -> Waiting<'_>
        requires { place ≤ length self.now }
        ensures { result ≡ drop place self.now }
    {
        match &self.stored {
            Stored::Packed(packed) => Waiting::packed(&packed.as_slice()[place..]),
            Stored::Wide(wide) => Waiting::wide(&wide.as_slice()[place..]),
        }
    }

    /// Adds messages at the end. An `AllocError` changes nothing.
    pub fn extend(&mut self, more: Part<'_>) -> Result<(), AllocError>
        ensures ok { OnOk result (self.new ≡ self.old ++ messages_in more.entry) }
        ensures err { OnErr result (self.new ≡ self.old) }
    {
        match more {
            Part::Packed(messages) => self.extend_packed(messages),
            Part::Wide(messages) => self.extend_wide(messages),
        }
    }

    /// Adds packed messages at the end. An `AllocError` changes nothing.
    fn extend_packed(&mut self, messages: &[Packed]) -> Result<(), AllocError>
        ensures ok { OnOk result (self.new ≡ self.old ++ messages.now) }
        ensures err { OnErr result (self.new ≡ self.old) }
    {
        match &mut self.stored {
            Stored::Packed(packed) => packed.extend_from_slice(messages),
            Stored::Wide(wide) => unpack(wide, messages),
        }
    }

    /// Adds messages at the end, packed if all fit. An `AllocError` changes nothing.
    fn extend_wide(&mut self, messages: &[Message]) -> Result<(), AllocError>
        ensures ok { OnOk result (self.new ≡ self.old ++ messages.now) }
        ensures err { OnErr result (self.new ≡ self.old) }
    {
        match &mut self.stored {
            Stored::Packed(packed) => {
                if fit(messages) {
                    return pack(packed, messages);
                }
                let wide = widened(packed.as_slice(), messages, *packed.allocator())?;
                self.stored = Stored::Wide(wide);
                Ok(())
            }
            Stored::Wide(wide) => wide.extend_from_slice(messages),
        }
    }

    /// Removes this number of messages from the front. Keeps the memory.
    pub fn drop_front(&mut self, count: usize)
        requires { count ≤ length self.old }
        ensures { self.new ≡ drop count self.old }
    {
        match &mut self.stored {
            Stored::Packed(packed) => {
                packed.as_mut_slice().copy_within(count.., 0);
                packed.truncate(packed.len() - count);
            }
            Stored::Wide(wide) => {
                wide.copy_within(count.., 0);
                wide.truncate(wide.len() - count);
            }
        }
    }
}

/// Returns whether all of these messages fit in four bytes each.
fn fit(messages: &[Message]) -> bool
    ensures { result ≡ list_all (λ message. nat_lt (tick_said message) packed_ticks) messages.now }
{
    messages.iter().all(|message| Packed::fits(*message))
}

/// Packs messages and adds them at the end. An `AllocError` changes nothing.
fn pack(packed: &mut SmallVec<Packed, FEW>, messages: &[Message]) -> Result<(), AllocError>
    requires { All (λ message. tick_said message < packed_ticks) messages.now }
    ensures ok { OnOk result (packed.new.items ≡ packed.old.items ++ messages.now) }
    ensures err { OnErr result (packed.new.items ≡ packed.old.items) }
{
    packed.reserve(messages.len())?;
    for message in messages {
        packed.push_reserved(Packed::of(*message));
    }
    Ok(())
}

/// Unpacks messages and adds them at the end. An `AllocError` changes nothing.
fn unpack(wide: &mut Vec<Message>, messages: &[Packed]) -> Result<(), AllocError>
    ensures ok { OnOk result (wide.new.items ≡ wide.old.items ++ messages.now) }
    ensures err { OnErr result (wide.new.items ≡ wide.old.items) }
{
    wide.reserve(messages.len())?;
    for message in messages {
        wide.push_reserved(message.message());
    }
    Ok(())
}

/// Returns packed messages and then more, in 24 bytes each.
fn widened(packed: &[Packed], more: &[Message], alloc: Global) -> Result<Vec<Message>, AllocError>
    ensures { IfOk result (λ wide. wide.items ≡ packed.now ++ more.now) }
{
    let mut wide = Vec::new(alloc);
    unpack(&mut wide, packed)?;
    wide.extend_from_slice(more)?;
    Ok(wide)
}
