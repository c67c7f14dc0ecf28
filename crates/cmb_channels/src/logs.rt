ghost use Rattle.std.specs.Prelude.{◌≡◌, ◌<◌, ◌≤◌, [], ◌∷◌, length, slice_index_or, OnOk, OnErr};
ghost use Rattle.design.specs.Pins.{pins_fed};
ghost use Rattle.cmb_channels.specs.Lists.{sent, taken_many, most_waiting};
ghost use Rattle.cmb_channels.specs.Parts.{messages_in};

mod building;
mod log;
mod messages;
mod waiting;

use crate::fabric::Fabric;
use crate::fed_pins::fed_pins;
use crate::message::Message;
use crate::packed::Packed;
use building::{no_counts, pin_sources, read_logs};
use design::Design;
use flat_lists::FlatLists;
use log::Log;
use std::alloc::{AllocError, Global};
use std::marker::Model;
use waiting::Part;
pub use waiting::Waiting;

/// Channels with a log for each net, of the messages that it sent, and a count for each pin, of the
/// messages that it has taken. What waits at a pin is one slice of a log.
///
/// A message needs four bytes, for all pins together, or 24 from the first on that doesn't fit in four.
/// Sending, taking and counting take amortized constant time for each message that is sent, for any number of
/// pins that the net feeds and of messages that are taken at once.
///
/// Once every pin of a net has taken all, the net's next message empties its log. If a log has no room before
/// that, and half of it or more has been taken by every pin, this part is removed; otherwise the log
/// grows. The part is looked for only if the log has 16 messages or more, and as many as the net feeds
/// pins. A log gives no memory back. It has room for at most 16 messages, for two for each pin, or for
/// four times the most that ever waited at a pin, whichever is most.
#[derive(Debug, Drop)]
pub struct Logs {
    // The net that feeds each pin.
    sources: Vec<u32>,
    // How many messages each pin has taken, modulo 2^64.
    counts: Vec<u64>,
    // The log of each net.
    logs: Vec<Log>,
    // The pins that each net feeds.
    fed: FlatLists<u32>,
}

impl Model for Logs {
    ghost use Rattle.std.specs.Prelude.{length};
    ghost use Rattle.cmb_channels.specs.Channels.{Channels};
    ghost use Rattle.cmb_channels.specs.Logs.{AreStored, unread_lists};

    ghost Value = { Channels };

    ghost view = { λ l. record {
      lists = unread_lists l.logs.items l.sources.items l.counts.items;
      sources = l.sources.items;
      nets = length l.logs.items;
    } };

    ghost invariant = { λ l. AreStored l.logs.items l.sources.items l.counts.items l.fed };
}

impl Logs {
    /// Returns the messages that wait at the pin, the oldest first. Allocates nothing.
    pub fn waiting_messages(&self, pin: u32) -> Waiting<'_>
        requires { pin < length self.now.lists }
        ensures { result ≡ slice_index_or self.now.lists pin [] }
    {
        let source = self.sources[pin as usize];
        self.logs[source as usize].unread(self.counts[pin as usize])
    }

    /// Takes the `count` oldest of the messages that wait at the pin. Messages at other pins are unaffected,
    /// including those from the same net. Allocates nothing.
    pub fn take_many(&mut self, pin: u32, count: usize)
        requires pin { pin < length self.old.lists }
        requires there { count ≤ length (slice_index_or self.old.lists pin []) }
        ensures lists { self.new.lists ≡ taken_many count pin self.old.lists }
        ensures pins { length self.new.lists ≡ length self.old.lists }
        ensures sources { self.new.sources ≡ self.old.sources }
        ensures nets { self.new.nets ≡ self.old.nets }
    {
        if count == 0 {
            return;
        }
        let source = self.sources[pin as usize];
        let taken = self.counts[pin as usize].wrapping_add(count as u64);
        self.logs[source as usize].pass(taken);
        self.counts[pin as usize] = taken;
    }

    /// Returns the number of messages of a net that some pin hasn't taken: the largest number that waits at
    /// a pin that the net feeds, or 0 if it feeds none. Takes time in proportion to the pins that the net
    /// feeds. Allocates nothing.
    pub fn kept(&self, net: u32) -> u64
        requires { net < self.now.nets }
        ensures { result ≡ most_waiting net self.now.sources self.now.lists }
    {
        let mut most = 0;
        for pin in self.fed.list(net as usize) {
            most = self.waiting(*pin).max(most);
        }
        most
    }

    /// Returns how many messages of a net to keep at least, before `more` are added to its log: none if all
    /// are taken, what some pin hasn't taken if the log would have to grow, and otherwise all.
    fn to_keep(&self, net: u32, more: usize) -> usize
        requires { net < self.now.nets }
        ensures { most_waiting net self.now.sources self.now.lists ≤ result }
    {
        let log = &self.logs[net as usize];
        if log.is_read() {
            0
        } else if log.is_full(more) {
            self.kept(net) as usize
        } else {
            log.len()
        }
    }

    /// Makes room for `more` messages in the log of a net by removing messages that all pins have taken.
    /// Changes no list.
    fn make_room(&mut self, net: u32, more: usize)
        requires { net < self.old.nets }
        ensures { self.new ≡ self.old }
    {
        let kept = self.to_keep(net, more);
        self.logs[net as usize].cut_to(kept);
    }

    /// Adds these messages at the end of the log of a net. An `AllocError` changes no list.
    fn send_part(&mut self, net: u32, messages: Part<'_>) -> Result<(), AllocError>
        requires { net < self.old.nets }
        ensures ok { OnOk result (self.new.lists ≡ sent net (messages_in messages.entry) self.old.sources self.old.lists) }
        ensures err { OnErr result (self.new.lists ≡ self.old.lists) }
        ensures pins { length self.new.lists ≡ length self.old.lists }
        ensures sources { self.new.sources ≡ self.old.sources }
        ensures nets { self.new.nets ≡ self.old.nets }
        ensures memory { OnErr result (0 < length (messages_in messages.entry)) }
        ensures fed { OnErr result (0 < length (pins_fed net self.old.sources)) }
    {
        if messages.is_empty() {
            return Ok(());
        }
        self.make_room(net, messages.len());
        self.logs[net as usize].write(messages)?;
        Ok(())
    }
}

impl Fabric for Logs {
    ghost use Rattle.cmb_channels.specs.Channels.{Channels};

    ghost lists = { λ l. l.lists };

    ghost sources = { λ l. l.sources };

    ghost nets = { λ l. l.nets };

    fn empty_for(alloc: Global, design: &Design) -> Result<Self, AllocError> {
        let pins = design.pins();
        let counts = no_counts(alloc, pins)?;
        let sources = pin_sources(alloc, design)?;
        let logs = read_logs(alloc, design)?;
        let fed = fed_pins(alloc, design)?;
        Ok(Logs {
            sources,
            counts,
            logs,
            fed,
        })
    }

    fn send(&mut self, net: u32, message: Message) -> Result<(), AllocError>
        requires { net < self.old.nets }
        ensures ok { OnOk result (self.new.lists ≡ sent net (message ∷ []) self.old.sources self.old.lists) }
        ensures err { OnErr result (self.new.lists ≡ self.old.lists) }
        ensures pins { length self.new.lists ≡ length self.old.lists }
        ensures sources { self.new.sources ≡ self.old.sources }
        ensures nets { self.new.nets ≡ self.old.nets }
        // A send from a net that feeds no pin allocates nothing.
        ensures memory { OnErr result (0 < length (pins_fed net self.old.sources)) }
    {
        self.send_part(net, Part::Wide(&[message]))
    }

    fn send_all(&mut self, net: u32, messages: &[Packed]) -> Result<(), AllocError>
        requires { net < self.old.nets }
        ensures ok { OnOk result (self.new.lists ≡ sent net messages.now self.old.sources self.old.lists) }
        // No message is sent if there is no memory for all of them.
        ensures err { OnErr result (self.new.lists ≡ self.old.lists) }
        ensures pins { length self.new.lists ≡ length self.old.lists }
        ensures sources { self.new.sources ≡ self.old.sources }
        ensures nets { self.new.nets ≡ self.old.nets }
        ensures memory { OnErr result (0 < length messages.now) }
        ensures fed { OnErr result (0 < length (pins_fed net self.old.sources)) }
    {
        self.send_part(net, Part::Packed(messages))
    }

    fn take(&mut self, pin: u32) -> Option<Message> {
        let message = self.waiting_messages(pin).get(0)?;
        self.take_many(pin, 1);
        Some(message)
    }

    fn waiting(&self, pin: u32) -> u64 {
        self.waiting_messages(pin).len() as u64
    }
}
