//! Channels that keep a record of what is sent.
ghost use Rattle.std.specs.Prelude.{◌≡◌, ℕ, ◌<◌, ◌++◌, ◌∷◌, [], length, replicate, IfOk, OnErr, OnOk, Some, slice_get, slice_index_or, option_to_list};
ghost use Rattle.design.specs.Circuit.{pin_count};
ghost use Rattle.design.specs.Pins.{sources_of};
ghost use Rattle.cmb_channels.specs.Lists.{sent, taken, update};
ghost use Rattle.kernel_uses.specs.Records.{IsEndOf, messages_in};

use cmb_channels::{Fabric, Message};
use design::Design;
use std::alloc::{AllocError, Global};
use std::marker::Model;

/// Channels with a record of all that each net has sent, whether its pins have taken it or not.
#[derive(Drop)]
pub struct Recorder<F: Fabric> {
    channels: F,
    // What each net sent, the oldest first.
    history: Vec<Vec<Message>>,
}

impl<F: Fabric> Model for Recorder<F> {
    ghost use Rattle.kernel_uses.specs.Records.{Recorded, IsRecord, messages_in};

    ghost Value = { Recorded };

    ghost view = { λ r. record {
      lists = F.lists r.channels;
      sources = F.sources r.channels;
      nets = F.nets r.channels;
      history = messages_in r.history.items;
    } };

    ghost invariant = { λ r.
        IsRecord (F.lists r.channels) (F.sources r.channels) (F.nets r.channels) (messages_in r.history.items) };
}

impl<F: Fabric> Recorder<F> {
    /// Returns channels of a design with nothing in them, and an empty record with room for this number of
    /// messages of each net. A run in which no net sends more takes no memory for its record.
    pub fn with_room(alloc: Global, design: &Design, room: usize) -> Result<Self, AllocError>
        ensures lists { IfOk result (λ r. r.lists ≡ replicate (pin_count design.now.circuit) []) }
        ensures sources { IfOk result (λ r. r.sources ≡ sources_of design.now.circuit) }
        ensures nets { IfOk result (λ r. r.nets ≡ length design.now.circuit) }
        ensures history { IfOk result (λ r. r.history ≡ replicate (length design.now.circuit) []) }
    {
        let channels = F::empty_for(alloc, design)?;
        let history = no_messages(alloc, design.nets(), room)?;
        Ok(Recorder { channels, history })
    }

    /// Returns all that a net has sent, the oldest message first. What waits at each pin that the net feeds
    /// is a suffix of it.
    pub fn sent_by(&self, net: u32) -> &[Message]
        requires { net < self.now.nets }
        ensures sent { slice_get self.now.history net ≡ Some result.now }
        ensures waits { (pin : ℕ) → slice_get self.now.sources pin ≡ Some net →
            IsEndOf (slice_index_or self.now.lists pin []) result.now }
    {
        self.history[net as usize].as_slice()
    }
}

impl<F: Fabric> Fabric for Recorder<F> {
    ghost use Rattle.kernel_uses.specs.Records.{Recorded};

    ghost lists = { λ r. r.lists };

    ghost sources = { λ r. r.sources };

    ghost nets = { λ r. r.nets };

    fn empty_for(alloc: Global, design: &Design) -> Result<Self, AllocError> {
        Recorder::with_room(alloc, design, 0)
    }

    fn send(&mut self, net: u32, message: Message) -> Result<(), AllocError>
        requires { net < self.old.nets }
        ensures ok { OnOk result (self.new.lists ≡ sent net (message ∷ []) self.old.sources self.old.lists) }
        ensures err { OnErr result (self.new.lists ≡ self.old.lists) }
        ensures pins { length self.new.lists ≡ length self.old.lists }
        ensures sources { self.new.sources ≡ self.old.sources }
        ensures nets { self.new.nets ≡ self.old.nets }
        // A message is recorded exactly if it is sent.
        ensures history { OnOk result (self.new.history ≡ update (λ list. list ++ message ∷ []) net self.old.history) }
        ensures kept { OnErr result (self.new.history ≡ self.old.history) }
    {
        let history = &mut self.history[net as usize];
        history.reserve(1)?;
        self.channels.send(net, message)?;
        history.push_reserved(message);
        Ok(())
    }

    fn take(&mut self, pin: u32) -> Option<Message>
        requires { pin < length self.old.lists }
        ensures front { slice_index_or self.old.lists pin [] ≡ option_to_list result ++ slice_index_or self.new.lists pin [] }
        ensures lists { self.new.lists ≡ taken pin self.old.lists }
        ensures pins { length self.new.lists ≡ length self.old.lists }
        ensures sources { self.new.sources ≡ self.old.sources }
        ensures nets { self.new.nets ≡ self.old.nets }
        ensures history { self.new.history ≡ self.old.history }
    {
        self.channels.take(pin)
    }

    fn waiting(&self, pin: u32) -> u64 {
        self.channels.waiting(pin)
    }
}

/// Returns an empty list of messages for each of this number of nets, with room for `room` messages each.
fn no_messages(alloc: Global, nets: u32, room: usize) -> Result<Vec<Vec<Message>>, AllocError>
    ensures { IfOk result (λ history. messages_in history.items ≡ replicate nets []) }
{
    let mut history = Vec::with_capacity(alloc, nets as usize)?;
    for _net in 0..nets {
        let messages = Vec::with_capacity(alloc, room)?;
        history.push(messages)?;
    }
    Ok(history)
}
